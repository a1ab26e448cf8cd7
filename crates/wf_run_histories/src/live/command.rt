//! The command `live`, over any sink.

ghost use Rattle.std.specs.Prelude.{◌≡◌, ◌≤◌, ℕ};
ghost use Rattle.wf_frame.specs.Settings.{standard};
ghost use Rattle.wf_trace.specs.CommandEnds.{CommandWrites};
ghost use Rattle.wf_run_histories.specs.Lives.{IsLiveHistory, LiveStatusSays};

use crate::live::closed::run;
use crate::live::history::write_history;
use std::alloc::Global;
use std::sync::Wait;
use std::thread::Threads;
use wf_cell::record::Record;
use wf_gate::Turnstile;
use wf_io::{Sink, Status};

// Writes the trace and the summary of the record.
#[inline(never)]
fn tell<K: Sink>(cell: &Record, sink: &mut K) -> Status
    requires standard { cell.now.past.config ≡ standard }
    requires live { (seed senders frames : ℕ) × (senders ≤ 8) ×
        IsLiveHistory seed senders frames cell.now.past.history }
    ensures ends { (seed senders frames : ℕ) → IsLiveHistory seed senders frames cell.now.past.history →
        CommandWrites K.held K.faults (λ status written. LiveStatusSays status seed senders frames written)
        sink.old sink.new result }
{
    match write_history(cell, sink) {
        Ok(()) => Status::Done,
        Err(_) => Status::WriteFault,
    }
}

/// Runs `senders` senders, 1 to 8, each with `frames` frames, 1 to 10,000, and four drivers on threads that
/// share one cell. Writes the trace of the resulting history, and its summary.
///
/// `Status::NoMemory` means that memory ran out, and `Status::WriteFault` that the sink failed.
#[inline(never)]
pub fn lived<R: Threads + Wait + Sync, K: Sink, T: Turnstile + Sync>(
    rt: &R,
    alloc: Global,
    seed: u64,
    senders: u32,
    frames: u32,
    sink: &mut K,
    turnstile: &T,
) -> Status
    requires senders { (1 ≤ senders) × (senders ≤ 8) }
    requires frames { (1 ≤ frames) × (frames ≤ 10000) }
    ensures ends { CommandWrites K.held K.faults
        (λ status written. LiveStatusSays status seed senders frames written) sink.old sink.new result }
{
    match run(rt, alloc, seed, senders, frames, turnstile) {
        Ok(cell) => tell(&cell, sink),
        Err(_) => Status::NoMemory,
    }
}
