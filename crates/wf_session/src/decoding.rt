//! Reads the octets of messages.

ghost use Rattle.std.specs.Prelude.{◌≡◌, ◌<◌, IfOk, Ok, None};
ghost use Rattle.wf_session.specs.Layout.{IsAction, CanBeWritten, action_in};
ghost use Rattle.std.specs.Result.{result_err};
ghost use Rattle.wf_session.specs.Faults.{first_action_fault, request_fault, response_fault, teardown_fault, action_tid_fault, decoded_action};
ghost use Rattle.wf_session.specs.declared.action.Action.{Action};

use crate::Action;
use crate::encoding::{CATEGORY, REQUEST, RESPONSE, TEARDOWN};
use thiserror::Error;
use wf_octets::fields::{is_set, number_at};
use wf_octets::seq12::Seq12;

/// Why octets are no action frame of an agreement.
#[derive(Clone, Copy, Debug, PartialEq, Eq, Error)]
pub enum ActionFault {
    /// There are fewer octets than category and action need, or than the frame's fields need.
    #[error("an action frame of {need} octets in {have}")]
    Short {
        /// How many octets are needed.
        need: usize,
        /// How many octets there are.
        have: usize,
    },
    /// The category is not 3, block acknowledgement. Contains the category.
    #[error("category {0}")]
    Category(u8),
    /// The action is none of the three. Contains the action.
    #[error("action {0}")]
    Action(u8),
    /// The policy is delayed block acknowledgement.
    #[error("an agreement of delayed acknowledgement")]
    Delayed,
    /// A request's fragment number is not 0. Contains that number.
    #[error("fragment number {0}")]
    Fragment(u8),
    /// The TID is above 7. Contains the TID.
    #[error("traffic identifier {0}")]
    Tid(u8),
}

/// Reads an action frame. Ignores the timeouts, the bit for A-MSDUs, and all octets after the fields. Returns
/// the first check that fails, if one does.
pub fn decode_action(octets: &[u8]) -> Result<Action, ActionFault>
    // the action whose fields the octets contain, or the first check that fails
    ensures decoded { result ≡ decoded_action octets.now }

    // and this is the action of these octets, if they have one
    ensures read { IfOk result (λ action. IsAction octets.now action) }
    ensures complete { (a : Action) → IsAction octets.now a → result ≡ Ok a }
    ensures range { IfOk result (λ action. CanBeWritten action) }
{
    check(octets)?;
    Ok(action_at(octets))
}

/// Makes the checks in their order.
fn check(octets: &[u8]) -> Result<(), ActionFault>
    ensures { result_err result ≡ first_action_fault octets.now }
{
    let have = octets.len();
    if have < 2 {
        return Err(ActionFault::Short { need: 2, have });
    }
    if octets[0] != CATEGORY {
        return Err(ActionFault::Category(octets[0]));
    }
    match octets[1] {
        REQUEST => check_request(octets),
        RESPONSE => check_response(octets),
        TEARDOWN => check_teardown(octets),
        other => Err(ActionFault::Action(other)),
    }
}

/// The checks of an ADDBA request.
fn check_request(octets: &[u8]) -> Result<(), ActionFault>
    ensures { result_err result ≡ request_fault octets.now }
{
    let have = octets.len();
    if have < 9 {
        return Err(ActionFault::Short { need: 9, have });
    }
    if !is_set(octets[3], 1) {
        return Err(ActionFault::Delayed);
    }
    let fragment = number_at(octets, 7) % 16;
    if fragment != 0 {
        return Err(ActionFault::Fragment(fragment as u8));
    }
    check_tid(octets[3] / 4 % 16)
}

/// The checks of an ADDBA response.
fn check_response(octets: &[u8]) -> Result<(), ActionFault>
    ensures { result_err result ≡ response_fault octets.now }
{
    let have = octets.len();
    if have < 9 {
        return Err(ActionFault::Short { need: 9, have });
    }
    if !is_set(octets[5], 1) {
        return Err(ActionFault::Delayed);
    }
    check_tid(octets[5] / 4 % 16)
}

/// The checks of a DELBA.
fn check_teardown(octets: &[u8]) -> Result<(), ActionFault>
    ensures { result_err result ≡ teardown_fault octets.now }
{
    let have = octets.len();
    if have < 6 {
        return Err(ActionFault::Short { need: 6, have });
    }
    check_tid(octets[3] / 16)
}

/// Checks that a TID is below 8.
fn check_tid(tid: u8) -> Result<(), ActionFault>
    ensures { result_err result ≡ action_tid_fault tid }
{
    if tid > 7 {
        return Err(ActionFault::Tid(tid));
    }
    Ok(())
}

/// Reads the fields of the action.
fn action_at(octets: &[u8]) -> Action
    requires { first_action_fault octets.now ≡ None }
    ensures { result ≡ action_in octets.now }
{
    match octets[1] {
        REQUEST => Action::Request {
            token: octets[2],
            tid: octets[3] / 4 % 16,
            window: number_at(octets, 3) / 64,
            start: Seq12::of(u64::from(number_at(octets, 7) / 16)),
        },
        RESPONSE => Action::Response {
            token: octets[2],
            status: number_at(octets, 3),
            tid: octets[5] / 4 % 16,
            window: number_at(octets, 5) / 64,
        },
        _ => Action::Teardown {
            tid: octets[3] / 16,
            initiator: is_set(octets[3], 3),
            reason: number_at(octets, 4),
        },
    }
}
