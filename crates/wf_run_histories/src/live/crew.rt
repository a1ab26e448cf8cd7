//! The crew: all workers of a run.

ghost use Rattle.std.specs.Prelude.{◌≡◌, ◌-◌, ◌≤◌, map, length, All, EachIndex, slice_get, Some, Ok, IfOk};
ghost use Rattle.wf_gate.specs.Seats.{AreAll, IsOf, new_seat};
ghost use Rattle.wf_run_histories.specs.Crew.{IsWorked, driver_count, quotas_of};
ghost use Rattle.wf_run_histories.specs.Sitting.{IsReady, AreDone};

use crate::live::worker::{DRIVERS, Plan, run_worker};
use std::alloc::{AllocError, Global};
use std::sync::Wait;
use std::thread;
use std::thread::Threads;
use wf_cell::record::Record;
use wf_gate::{Gate, Seat, Turnstile};

// Returns all values. Fails if one of the results is an error or memory runs out.
pub(crate) fn all_of<V: Drop>(
    alloc: Global,
    results: Vec<Result<V, AllocError>>,
) -> Result<Vec<V>, AllocError>
    ensures { IfOk result (λ values. results.items ≡ map (λ v. Ok v) values.items) }
{
    let mut values = Vec::with_capacity(alloc, results.len())?;
    for outcome in results {
        values.push(outcome?)?;
    }
    Ok(values)
}

// Runs each worker at its seat, on a separate thread if one can be created.
fn run_all<R: Threads + Wait + Sync, T: Turnstile + Sync>(
    rt: &R,
    alloc: Global,
    gate: &Gate<Record>,
    turnstile: &T,
    seats: Vec<Seat<Record>>,
    plan: Plan,
) -> Result<Vec<Result<Seat<Record>, AllocError>>, AllocError>
    requires ready { All (IsReady gate.now plan.senders plan.frames) seats.items }
    ensures count { IfOk result (λ back. length back.items ≡ length seats.items) }
    ensures each { IfOk result
        (λ back. AreDone gate.now plan.seed plan.senders plan.frames seats.items back.items) }
{
    let back = thread::map_vec(
        rt,
        seats,
        &|seat| run_worker(rt, alloc, gate, turnstile, seat, plan),
    )?;
    Ok(back)
}

/// Runs the workers of `live` at the seats of a gate, each on a separate thread if one can be created and on
/// this thread otherwise. Returns the seats in their order.
///
/// The last four seats are the drivers', of bk, be, vi and vo, with 150,000 calls each. The others are the
/// senders', 1 to 8 of them: each makes `frames` frames, 1 to 10,000, and then a tick. The turnstile is
/// called before and after each call at the gate, with the number of the seat. If memory runs out, the seats
/// are dropped.
pub fn work<R: Threads + Wait + Sync, T: Turnstile + Sync>(
    rt: &R,
    alloc: Global,
    gate: &Gate<Record>,
    seats: Vec<Seat<Record>>,
    seed: u64,
    frames: u32,
    turnstile: &T,
) -> Result<Vec<Seat<Record>>, AllocError>
    requires seats { EachIndex gate.now.opening.quotas
        (λ k. slice_get seats.items k ≡ Some (new_seat gate.now k)) }
    requires count { length seats.items ≡ length gate.now.opening.quotas }
    requires least { 5 ≤ length seats.items }
    requires most { length seats.items ≤ 12 }
    requires quotas { gate.now.opening.quotas ≡ quotas_of (length seats.items - driver_count) frames }
    requires some { 1 ≤ frames }
    requires few { frames ≤ 10000 }

    // the seats are returned in their order
    ensures places { IfOk result (λ back. map (λ s. s.number) back.items ≡ map (λ s. s.number) seats.items) }
    ensures own { IfOk result (λ back. All (IsOf gate.now) back.items) }
    ensures all { IfOk result (λ back. AreAll gate.now back.items) }

    // each sender made all its calls in order, and each driver a walk that ended or used up its calls
    ensures worked { IfOk result (λ back. All
        (IsWorked gate.now seed (length seats.items - driver_count) frames) back.items) }
{
    let plan = Plan {
        seed,
        senders: seats.len() as u32 - DRIVERS,
        frames,
    };
    let back = run_all(rt, alloc, gate, turnstile, seats, plan)?;
    all_of(alloc, back)
}
