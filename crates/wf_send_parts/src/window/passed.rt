//! The record that a window keeps of the numbers below F.

ghost use Rattle.std.specs.Prelude.{◌≡◌, ◌<◌, ◌^◌, unwrap_or};
ghost use Rattle.wf_def_agreement.specs.Session.{State};
ghost use Rattle.wf_send_parts.specs.Places.{next_passed};

/// The greatest count of `unacked`.
pub(crate) const MOST_UNACKED: u16 = 2047;

/// The record that a window keeps of the numbers below F.
#[derive(Clone, Copy)]
pub(crate) struct Passed {
    /// If a request is due: how far F is past the last failed number.
    pub(crate) due: Option<u16>,
    /// How many numbers below F are above the last acknowledged one, at most 2,047. From the first number on
    /// if none is acknowledged.
    pub(crate) unacked: u16,
}

/// The record before the first number is settled.
pub(crate) const NONE_PASSED: Passed = Passed {
    due: None,
    unacked: 0,
};

impl Passed {
    /// Returns this after F moved past a failed number.
    pub(crate) fn after_failed(self) -> Passed
        ensures { result ≡ next_passed State.Failed self }
    {
        Passed {
            due: Some(1),
            unacked: self.unacked.saturating_add(1).min(MOST_UNACKED),
        }
    }

    /// Returns this after F moved past an acknowledged number.
    pub(crate) fn after_acked(self) -> Passed
        requires { unwrap_or self.due 0 < 2 ^ 15 }
        ensures { result ≡ next_passed State.Acked self }
    {
        let due = match self.due {
            Some(past) => Some(past + 1),
            None => None,
        };
        Passed { due, unacked: 0 }
    }
}
