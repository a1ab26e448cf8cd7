//! An agreement, as an end keeps it.

ghost use Rattle.std.specs.Prelude.{◌≡◌, ◌<◌, None, IfSome};
ghost use Rattle.wf_session.specs.Layout.{CanBeWritten};
ghost use Rattle.wf_session.specs.Ends.{teardown_of};

use crate::Action;
use wf_octets::seq12::Seq12;

/// An agreement of one TID, as an end keeps it.
#[derive(Clone, Copy, Debug, PartialEq, Eq)]
pub struct Agreement {
    /// The dialog token of the request that made it.
    pub token: u8,
    /// The window, 1 to 256.
    pub window: u16,
    /// The first number of the window.
    pub start: Seq12,
}

/// Ends an end's agreement and returns the message for the other end; `initiator` says that this end is the
/// originator. None if no agreement is open.
pub(crate) fn close(opened: &mut Option<Agreement>, tid: u8, initiator: bool) -> Option<Action>
    ensures answer { result ≡ teardown_of tid initiator opened.old }
    ensures after { opened.new ≡ None }
    ensures writable { tid < 8 → IfSome result (λ action. CanBeWritten action) }
{
    opened.take()?;
    Some(Action::Teardown {
        tid,
        initiator,
        reason: 1,
    })
}
