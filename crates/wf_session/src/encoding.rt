//! Writes the octets of messages.

ghost use Rattle.std.specs.Prelude.{◌≡◌, Ok, ◌+◌, ◌*◌, ◌<◌, length, take, drop};
ghost use Rattle.wf_octets.specs.Fields.{two_octets};
ghost use Rattle.wf_session.specs.Layout.{IsAction, IsAddbaRequest, CanBeWritten, action_octets, parameter_set};
ghost use Rattle.wf_session.specs.Faults.{decoded_action};
ghost use Rattle.wf_session.specs.declared.action.Action.TheVariants.{Request, Response, Teardown};

use crate::Action;
use wf_octets::fields::{put, two_octets};
use wf_octets::seq12::Seq12;

/// The category octet of block acknowledgement action frames.
pub(crate) const CATEGORY: u8 = 3;
/// The action octet of an ADDBA request.
pub(crate) const REQUEST: u8 = 0;
/// The action octet of an ADDBA response.
pub(crate) const RESPONSE: u8 = 1;
/// The action octet of a DELBA.
pub(crate) const TEARDOWN: u8 = 2;

/// Writes an action frame with immediate policy and with 0 in every field that the action does not have.
/// Returns its size in octets: 9 for a request or a response, 6 for a DELBA. The octets after it are
/// unchanged.
pub fn encode_action(action: &Action, out: &mut [u8; 9]) -> usize
    requires range { CanBeWritten action.now }
    ensures size { result ≡ length (action_octets action.now) }
    ensures octets { take result out.new ≡ action_octets action.now }
    ensures rest { drop result out.new ≡ drop result out.old }
    ensures layout { IsAction out.new action.now }

    // reading it again gives the same action
    ensures read_back { decoded_action (take result out.new) ≡ Ok action.now }
{
    match *action {
        Action::Request {
            token,
            tid,
            window,
            start,
        } => put_request(token, tid, window, start, out),
        Action::Response {
            token,
            status,
            tid,
            window,
        } => put_response(token, status, tid, window, out),
        Action::Teardown {
            tid,
            initiator,
            reason,
        } => put_teardown(tid, initiator, reason, out),
    }
}

/// Writes an ADDBA request.
fn put_request(token: u8, tid: u8, window: u16, start: Seq12, out: &mut [u8; 9]) -> usize
    requires { (tid < 8) × (window < 1024) }
    ensures size { result ≡ 9 }
    ensures octets { take result out.new ≡ action_octets (Request token tid window start) }
    ensures layout { IsAddbaRequest out.new token tid window start }
{
    let end = put(out, 0, &[CATEGORY, REQUEST, token]);
    let end = put(out, end, &two_octets(parameter_set(tid, window)));
    let end = put(out, end, &two_octets(0));
    put(out, end, &two_octets(16 * start.raw()))
}

/// Writes an ADDBA response.
fn put_response(token: u8, status: u16, tid: u8, window: u16, out: &mut [u8; 9]) -> usize
    requires { (tid < 8) × (window < 1024) }
    ensures size { result ≡ 9 }
    ensures octets { take result out.new ≡ action_octets (Response token status tid window) }
{
    let end = put(out, 0, &[CATEGORY, RESPONSE, token]);
    let end = put(out, end, &two_octets(status));
    let end = put(out, end, &two_octets(parameter_set(tid, window)));
    put(out, end, &two_octets(0))
}

/// Writes a DELBA.
fn put_teardown(tid: u8, initiator: bool, reason: u16, out: &mut [u8; 9]) -> usize
    requires { tid < 8 }
    ensures size { result ≡ 6 }
    ensures octets { take result out.new ≡ action_octets (Teardown tid initiator reason) }
    ensures rest { drop 6 out.new ≡ drop 6 out.old }
{
    let set = if initiator { 0x0800 } else { 0 } + 0x1000 * u16::from(tid);
    let end = put(out, 0, &[CATEGORY, TEARDOWN]);
    let end = put(out, end, &two_octets(set));
    put(out, end, &two_octets(reason))
}

/// Returns the Block Ack Parameter Set with immediate policy and without A-MSDUs (8.4.1.14).
fn parameter_set(tid: u8, window: u16) -> u16
    requires { (tid < 8) × (window < 1024) }
    ensures { result ≡ parameter_set tid window }
{
    2 + 4 * u16::from(tid) + 64 * window
}
