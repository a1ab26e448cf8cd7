//! The laws of messages and of agreements.

ghost use Rattle.std.specs.Prelude.{◌≡◌, ℕ, ◌++◌, List, Ok};
ghost use Rattle.wf_session.specs.Faults.{decoded_action};
ghost use Rattle.wf_session.specs.Layout.{CanBeWritten, FitsFields, action_octets};
ghost use Rattle.wf_session.specs.Laws.{AgreementLaw};
ghost use Rattle.wf_session.specs.declared.action.Action.{Action};
ghost use Rattle.wf_session.specs.declared.event.Event.{Event};

/// Reading the octets of a written action gives the same action, no matter which octets follow.
pub fn codec_law()
    ensures { (a : Action) (later : List ℕ) → CanBeWritten a → FitsFields a →
        decoded_action (action_octets a ++ later) ≡ Ok a }
{}

/// After every list of events, including lost, repeated and reordered messages and restarts of either end: if
/// both ends are open, they hold the same agreement; if the originator is open, the recipient opened that
/// agreement last; and each token opens at most once at each end.
pub fn agreement_law()
    ensures { (tid limit : ℕ) (events : List Event) → AgreementLaw tid limit events }
{}
