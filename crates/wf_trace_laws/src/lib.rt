//! Laws of traces, for commands that run them.
//!
//! - specs/Histories defines the settings and the history of a trace, and specs/Laws the laws that hold for
//!   its run.
//! - specs/Tellings defines the text that a command writes for a trace, item by item, and specs/Running
//!   how far a run has come.
//! - specs/Outcomes and specs/Endings define what the status of a run says.
//!
//! Each function here has no body; its contract states a law. proofs/ has further lemmas for commands over
//! traces. For example, the settings of this trace are the standard ones with `quantum` 500, its history
//! has one call, and its ending is `Finish`:
//!
//! ```text
//! cell quantum=500
//! join 0 64 0 3
//! end
//! ```
#![tactic(auto)]

ghost use Rattle.std.specs.Prelude.{◌≡◌, ℕ, List, Bool, Some, true};
ghost use Rattle.wf_frame.specs.Settings.{IsInRange};
ghost use Rattle.wf_frame.specs.declared.settings.Config.{Config};
ghost use Rattle.wf_trace.specs.Reading.{reading};
ghost use Rattle.wf_trace_laws.specs.Endings.{EndsTrace};
ghost use Rattle.wf_trace_laws.specs.Histories.{settings_among};
ghost use Rattle.wf_trace_laws.specs.Laws.{HasLaws};

/// The ending of a trace, once its input has ended, is `Finish` or a fault.
pub fn a_trace_ends()
    ensures { (input : List ℕ) → EndsTrace (reading true input).ending }
{}

/// The settings of a trace's head are in their ranges, and all laws of runs hold for its history.
pub fn a_trace_is_lawful()
    ensures settings { (closed : Bool) (octets : List ℕ) (config : Config) →
        settings_among (reading closed octets).items ≡ Some config → IsInRange config }
    ensures laws { (closed : Bool) (octets : List ℕ) → HasLaws (reading closed octets) }
{}
