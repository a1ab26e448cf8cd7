//! A sender, which enqueues frames.

ghost use Rattle.std.specs.Prelude.{◌≡◌, ◌+◌, ◌<◌, IfOk, OnOk, length};
ghost use Rattle.wf_frame.specs.declared.notes.Note.TheVariants.{Enqueue};
ghost use Rattle.wf_run_histories.specs.Desks.{Makes};
ghost use Rattle.wf_run_histories.specs.Workloads.{frame_from, frames_from, sender_calls};

use crate::soak::workers::desk::Desk;
use rand_core::utils::NextWord;
use rand_pcg::Lcg64Xsh32;
use std::alloc::{AllocError, Global};
use wf_frame::{Ask, Frame};
use wf_queue_parts::chain::Parcel;

// Returns the frame that a word determines. Fails only if memory runs out.
fn frame_from(alloc: Global, sender: u16, word: u32) -> Result<Parcel, AllocError>
    ensures { IfOk result (λ f. Enqueue f.station f.tid f.flow (length f.body) ≡ frame_from sender word) }
{
    let frame = Frame::sample(
        alloc,
        sender,
        (word / 16 % 8) as u8,
        256 * u32::from(sender) + word / 128 % 16,
        (64 + word / 32768 % 1437) as u16,
    )?;
    match Parcel::new(alloc, frame) {
        Ok(parcel) => Ok(parcel),
        Err((fault, _frame)) => Err(fault),
    }
}

// Enqueues `frames` frames, one for each of the next words.
fn send_frames<D: Desk>(
    desk: &mut D,
    alloc: Global,
    words: &mut Lcg64Xsh32,
    sender: u16,
    frames: u32,
) -> Result<(), AllocError>
    requires { frames < D.left desk.old }
    ensures sent { OnOk result (Makes D.has D.left desk.old desk.new (frames_from sender frames words.old)) }
    ensures left { OnOk result (D.left desk.new + frames ≡ D.left desk.old) }
{
    for _ in 0..frames {
        let parcel = frame_from(alloc, sender, words.next_word())?;
        let Ok(()) = desk.give(parcel) else {
            unreachable!()
        };
    }
    Ok(())
}

/// Enqueues `frames` frames, one for each of the first words of the sender's stream, and then ticks by 1, so
/// that the drivers can see that it has ended. It makes each call exactly once, whatever the reply. If memory
/// for a frame runs out, it fails and makes no further call.
pub fn send<D: Desk>(
    desk: &mut D,
    alloc: Global,
    seed: u64,
    sender: u16,
    frames: u32,
) -> Result<(), AllocError>
    requires { frames < D.left desk.old }
    ensures sent { OnOk result (Makes D.has D.left desk.old desk.new (sender_calls seed sender frames)) }
{
    let mut words = Lcg64Xsh32::new(seed, u64::from(sender));
    send_frames(desk, alloc, &mut words, sender, frames)?;
    let Ok(()) = desk.ask(Ask::Tick { by: 1 }) else {
        unreachable!()
    };
    Ok(())
}
