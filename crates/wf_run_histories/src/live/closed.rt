//! The record after all workers have finished.

ghost use Rattle.std.specs.Prelude.{◌≡◌, ◌≤◌, ℕ, All, IfOk};
ghost use Rattle.wf_frame.specs.Settings.{standard};
ghost use Rattle.wf_gate.specs.Seats.{AreAll, IsOf};
ghost use Rattle.wf_run_histories.specs.Opening.{opening_calls};
ghost use Rattle.wf_run_histories.specs.Crew.{IsWorked, quotas_of};
ghost use Rattle.wf_run_histories.specs.Lives.{IsLiveHistory};

use crate::live::lives::live;
use std::alloc::{AllocError, Global};
use std::sync::Wait;
use std::thread::Threads;
use wf_cell::record::Record;
use wf_gate::{Gate, Seat, Turnstile};

// Closes the gate with all its seats, and returns the record.
fn close(gate: Gate<Record>, seats: Vec<Seat<Record>>) -> Record
    requires own { All (IsOf gate) seats.items }
    requires all { AreAll gate seats.items }
    ensures config { (senders : ℕ) → gate.opening.machine.past
        ≡ record { config = standard; history = opening_calls senders } →
        result.past.config ≡ standard }
    ensures live { (seed senders frames : ℕ) →
        gate.opening.machine.past ≡ record { config = standard; history = opening_calls senders } →
        gate.opening.quotas ≡ quotas_of senders frames → All (IsWorked gate seed senders frames) seats.items →
        IsLiveHistory seed senders frames result.past.history }
{
    let cell = gate.close(seats);
    // The contract of `len` states that a history has at most as many entries as the settings allow.
    let _ = cell.len();
    cell
}

/// Runs `senders` senders, 1 to 8, each with `frames` frames, 1 to 10,000, and four drivers at a gate, and
/// returns the record with their calls. Fails only if memory runs out.
pub(crate) fn run<R: Threads + Wait + Sync, T: Turnstile + Sync>(
    rt: &R,
    alloc: Global,
    seed: u64,
    senders: u32,
    frames: u32,
    turnstile: &T,
) -> Result<Record, AllocError>
    requires senders { (1 ≤ senders) × (senders ≤ 8) }
    requires frames { (1 ≤ frames) × (frames ≤ 10000) }
    ensures config { IfOk result (λ cell. cell.past.config ≡ standard) }
    ensures live { IfOk result (λ cell. IsLiveHistory seed senders frames cell.past.history) }
{
    let (gate, seats) = live(rt, alloc, seed, senders, frames, turnstile)?;
    Ok(close(gate, seats))
}
