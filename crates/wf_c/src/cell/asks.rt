//! The calls of a cell that neither enqueue nor reap a frame.

ghost use Rattle.std.specs.Prelude.{◌≡◌, true, is_some, pos};
ghost use Rattle.wf_path.specs.declared.job.Job.TheVariants.{Call};
ghost use Rattle.wf_c.specs.CallNumbers.{asked};
ghost use Rattle.wf_c.specs.CellCalls.{IsAsked, IsStepped, TurnsInto};

use crate::burst::BAD_CALL;
use crate::cell::calls::CallNumbers;
use crate::cell::slot::CellSlot;
use crate::reply::Reply;
use wf_frame::Ask;

impl CellSlot {
    // Makes a call that has no frame.
    fn ask(&mut self, caller: u32, ask: Ask, reply: &mut Reply) -> i32
        requires open { is_some self.old.value ≡ true }
        ensures called { TurnsInto (λ h k. IsStepped h caller
            (Call ask) k reply.new) self.old.value self.new.value }
        ensures code { result ≡ pos reply.new.refusal }
    {
        *reply = self.held().ask(caller, ask);
        i32::from(reply.refusal)
    }
}

/// Makes a call that neither enqueues nor reaps a frame. Returns its refusal, or 0; or 63 if the numbers do
/// not show such a call, and then nothing has changed.
#[unsafe(no_mangle)]
pub extern "C" fn wf_cell_ask(
    cell: &mut CellSlot,
    caller: u32,
    call: &CallNumbers,
    reply: &mut Reply,
) -> i32
    requires open { is_some cell.old.value ≡ true }
    ensures { IsAsked (asked call.now) caller cell.old.value reply.old cell.new.value reply.new result }
{
    match call.asked() {
        Some(ask) => cell.ask(caller, ask, reply),
        None => BAD_CALL,
    }
}
