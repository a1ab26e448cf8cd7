//! Bursts of a cell: several calls in one.

ghost use Rattle.std.specs.Prelude.{◌≡◌, ◌<◌, ◌≤◌, true, is_some, pos, length, IfOk, IfErr, OnOk, OnErr};
ghost use Rattle.wf_cell.specs.Cells.{calls_left_in};
ghost use Rattle.wf_c.specs.Bodies.{small_buffer};
ghost use Rattle.wf_c.specs.Bursts.{IsBurstEnd, IsCellBurst, RestStays, StopsCell, StopsCellAt, job_in_burst};
ghost use Rattle.wf_c.specs.CellCalls.{IsStepped, TurnsInto};

use crate::burst::{BAD_CALL, BurstEnd, NoCall, is_body_length, put_reply};
use crate::cell::calls::CallNumbers;
use crate::cell::held::HeldCell;
use crate::cell::slot::CellSlot;
use crate::exchanges::SMALL_BUFFER;
use crate::reply::Reply;
use std::alloc::Global;
use wf_frame::{Frame, Note};
use wf_queue_parts::chain::Parcel;

impl HeldCell {
    // Makes a call of a burst, if the history has room for it and there is memory.
    fn make(&mut self, alloc: Global, caller: u32, note: Note) -> Result<Reply, NoCall>
        ensures made { IfOk result (λ shown. IsStepped self.old caller (job_in_burst note) self.new shown) }
        ensures room { OnOk result (0 < calls_left_in self.old.cell.past) }
        ensures stopped { IfErr result (λ why. StopsCell why note self.old) }
        ensures unchanged { OnErr result (self.new ≡ self.old) }
    {
        if self.cell.calls_left() == 0 {
            return Err(NoCall::HistoryFull);
        }
        match note {
            Note::Asked(ask) => Ok(self.ask(caller, ask)),
            Note::Enqueue {
                station,
                tid,
                flow,
                len,
            } => {
                if !is_body_length(len) {
                    return Err(NoCall::BadLength);
                }
                match Parcel::new(alloc, Frame::bare(station, tid, flow, len)) {
                    Ok(parcel) => Ok(self.give(caller, parcel)),
                    Err(_) => Err(NoCall::NoMemory),
                }
            }
        }
    }

    // Makes the calls of a burst in order, up to the first that is not made.
    fn burst(
        &mut self,
        alloc: Global,
        caller: u32,
        calls: &[CallNumbers],
        replies: &mut [Reply],
    ) -> BurstEnd
        requires room { length calls.now ≤ length replies.old }
        ensures made { IsCellBurst caller self.old self.new calls.now replies.new result.made }
        ensures rest { RestStays replies.old replies.new result.made }
        ensures ends { IsBurstEnd (λ why c. StopsCellAt why c self.new) calls.now result }
    {
        for i in 0..calls.len() {
            let Some(note) = calls[i].call_noted() else {
                return BurstEnd {
                    made: i,
                    code: BAD_CALL,
                };
            };
            match self.make(alloc, caller, note) {
                Ok(shown) => put_reply(replies, i, shown),
                Err(why) => {
                    return BurstEnd {
                        made: i,
                        code: why.code(),
                    };
                }
            }
        }
        BurstEnd {
            made: calls.len(),
            code: 0,
        }
    }
}

/// Makes calls in order, each reply at its place, up to the first that is not made. An enqueue is of a frame
/// whose octets stay with its owner; a reaped frame is freed. `made` is how many were made. Returns 0 if all
/// were; 63 for numbers that show no call; 26 if the history is full; 61 for an enqueue of a length that no
/// frame has; 60 if there is no memory; or 62 if there are fewer replies than calls, and then no call is
/// made.
#[unsafe(no_mangle)]
pub extern "C" fn wf_cell_burst(
    alloc: Global,
    cell: &mut CellSlot,
    caller: u32,
    calls: &[CallNumbers],
    replies: &mut [Reply],
    made: &mut usize,
) -> i32
    requires open { is_some cell.old.value ≡ true }
    ensures made { TurnsInto (λ h k. IsCellBurst caller h k calls.now replies.new made.new)
        cell.old.value cell.new.value }
    ensures rest { RestStays replies.old replies.new made.new }
    ensures ends { length calls.now ≤ length replies.old → TurnsInto (λ h k. IsBurstEnd
        (λ why c. StopsCellAt why c k) calls.now (record { made = made.new; code = result }))
        cell.old.value cell.new.value }
    ensures small { length replies.old < length calls.now → (made.new ≡ 0) × (result ≡ pos small_buffer) }
{
    if replies.len() < calls.len() {
        *made = 0;
        return SMALL_BUFFER;
    }
    let end = cell.held().burst(alloc, caller, calls, replies);
    *made = end.made;
    end.code
}
