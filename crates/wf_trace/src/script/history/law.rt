//! The law that a trace is read as the history that it was written from.

ghost use Rattle.std.specs.Prelude.{◌≡◌, ◌≤◌, ◌++◌, ℕ, List, Bool, length};
ghost use Rattle.wf_frame.specs.Settings.{standard};
ghost use Rattle.wf_trace.specs.Traces.{CanBeNamed, trace_items, trace_of};
ghost use Rattle.wf_trace.specs.Reading.{reading};
ghost use Rattle.wf_def_world.specs.Run.{Entry};

/// The trace of a history is read as the standard settings, the entries in their order, and the end,
/// whatever octets follow it. The history must have at most as many entries as the settings allow, and each
/// caller and number must be in its range.
pub fn trace_law()
    ensures read { (history : List Entry) (closed : Bool) (behind : List ℕ) → CanBeNamed history →
        length history ≤ standard.calls →
        reading closed (trace_of history ++ behind) ≡ trace_items history }
{}
