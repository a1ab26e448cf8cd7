//! Frames of a cell: it accepts one, and returns a finished one.

ghost use Rattle.std.specs.Prelude.{◌≡◌, ◌⊎◌, true, false, is_some, pos, length};
ghost use Rattle.wf_path.specs.declared.job.Job.TheVariants.{Give};
ghost use Rattle.wf_c.specs.Bodies.{IsBadLength, IsBodyLength, IsUntouched, bad_length, bare_shown, frame_shown, is_small_buffer, small_buffer};
ghost use Rattle.wf_c.specs.CellCalls.{IsStepped, IsTakenBack, TurnsInto};
ghost use Rattle.wf_c.specs.Making.{no_memory};

use crate::bare::Bare;
use crate::cell::held::HeldCell;
use crate::cell::slot::CellSlot;
use crate::exchanges::SMALL_BUFFER;
use crate::frames::{BAD_LENGTH, NoFrame, Packet, Taken, frame_of, is_small, show_back};
use crate::make::NO_MEMORY;
use crate::reply::Reply;
use std::alloc::Global;
use wf_cell::Job;
use wf_frame::Ask;
use wf_queue_parts::chain::Parcel;

impl HeldCell {
    // Enqueues a frame, or frees it if it is refused.
    pub(crate) fn give(&mut self, caller: u32, parcel: Parcel) -> Reply
        ensures { IsStepped self.old caller (Give parcel) self.new result }
    {
        let _ = self.cell.step(caller, Job::Give(parcel), &mut self.answer);
        Reply::of(self.answer.brief)
    }

    // Takes out the first finished frame.
    fn reap(&mut self, caller: u32, taken: &mut Taken, body: &mut [u8]) -> Reply
        ensures { IsTakenBack self.old caller self.new result
            taken.old body.old taken.new body.new }
    {
        let back = self
            .cell
            .step(caller, Job::Call(Ask::Reap), &mut self.answer);
        show_back(&back, taken, body);
        Reply::of(self.answer.brief)
    }
}

/// Accepts a packet for a station as a frame. Returns 0; 61 if the body is empty or longer than 2304 octets;
/// 60 if there is no memory for the frame; or the refusal of the call. After 60 and 61 nothing has changed.
#[unsafe(no_mangle)]
pub extern "C" fn wf_cell_enqueue(
    alloc: Global,
    cell: &mut CellSlot,
    caller: u32,
    station: u16,
    packet: &Packet,
    reply: &mut Reply,
) -> i32
    requires open { is_some cell.old.value ≡ true }
    ensures given { IsBodyLength (length packet.now.body.now) → TurnsInto (λ h k. IsStepped h caller
        (Give (frame_shown station packet.now)) k reply.new ×
        (result ≡ pos reply.new.refusal)) cell.old.value cell.new.value ⊎
        IsUntouched cell.old.value cell.new.value reply.old reply.new result no_memory }
    ensures refused { IsBadLength (length packet.now.body.now) →
        IsUntouched cell.old.value cell.new.value reply.old reply.new result bad_length }
{
    match frame_of(alloc, station, packet) {
        Ok(parcel) => {
            *reply = cell.held().give(caller, parcel);
            i32::from(reply.refusal)
        }
        Err(NoFrame::NoMemory) => NO_MEMORY,
        Err(NoFrame::BadLength) => BAD_LENGTH,
    }
}

/// Accepts a packet for a station as a frame, without its octets. Returns 0; 61 if the length is 0 or above
/// 2304; 60 if there is no memory for the frame; or the refusal of the call. After 60 and 61 nothing has
/// changed.
#[unsafe(no_mangle)]
pub extern "C" fn wf_cell_enqueue_bare(
    alloc: Global,
    cell: &mut CellSlot,
    caller: u32,
    station: u16,
    packet: &Bare,
    reply: &mut Reply,
) -> i32
    requires open { is_some cell.old.value ≡ true }
    ensures given { IsBodyLength packet.now.length → TurnsInto (λ h k. IsStepped h caller
        (Give (bare_shown station packet.now)) k reply.new ×
        (result ≡ pos reply.new.refusal)) cell.old.value cell.new.value ⊎
        IsUntouched cell.old.value cell.new.value reply.old reply.new result no_memory }
    ensures refused { IsBadLength packet.now.length →
        IsUntouched cell.old.value cell.new.value reply.old reply.new result bad_length }
{
    let Some(frame) = packet.frame(station) else {
        return BAD_LENGTH;
    };
    match Parcel::new(alloc, frame) {
        Ok(parcel) => {
            *reply = cell.held().give(caller, parcel);
            i32::from(reply.refusal)
        }
        Err(_) => NO_MEMORY,
    }
}

/// Takes out the first finished frame, and copies its body to the front of a buffer. A buffer of 0 octets
/// gets no body, and a bare frame changes no buffer. Returns the refusal, or 0; or 62 if the buffer has some
/// room, but not for the longest body, and then nothing has changed.
#[unsafe(no_mangle)]
pub extern "C" fn wf_cell_reap(
    cell: &mut CellSlot,
    caller: u32,
    reply: &mut Reply,
    taken: &mut Taken,
    body: &mut [u8],
) -> i32
    requires open { is_some cell.old.value ≡ true }
    ensures reaped { is_small_buffer (length body.old) ≡ false → TurnsInto (λ h k. IsTakenBack h caller k
        reply.new taken.old body.old taken.new body.new) cell.old.value cell.new.value }
    ensures code { is_small_buffer (length body.old) ≡ false → result ≡ pos reply.new.refusal }
    ensures refused { is_small_buffer (length body.old) ≡ true →
        IsUntouched cell.old.value cell.new.value reply.old reply.new result small_buffer }
    ensures taken_stays { is_small_buffer (length body.old) ≡ true → taken.new ≡ taken.old }
    ensures body_stays { is_small_buffer (length body.old) ≡ true → body.new ≡ body.old }
{
    if is_small(body) {
        return SMALL_BUFFER;
    }
    *reply = cell.held().reap(caller, taken, body);
    i32::from(reply.refusal)
}
