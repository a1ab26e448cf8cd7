//! Runs the workers at the gate of a new record.

ghost use Rattle.std.specs.Prelude.{◌≡◌, ◌≤◌, ◌+◌, map, length, All, EachIndex, slice_get, Some, Ok, IfOk};
ghost use Rattle.wf_frame.specs.Settings.{standard};
ghost use Rattle.wf_gate.specs.Seats.{AreAll, IsOf, new_seat};
ghost use Rattle.wf_gate.specs.Turns.{numbers_from};
ghost use Rattle.wf_run_histories.specs.Opening.{opening_calls};
ghost use Rattle.wf_run_histories.specs.Crew.{IsWorked, quotas_of};

use crate::live::opened::{Opened, quotas};
use crate::live::work;
use std::alloc::{AllocError, Global};
use std::sync::Wait;
use std::thread::Threads;
use wf_cell::record::Record;
use wf_gate::{Gate, Seat, Turnstile};

// Returns the gate of a new record on which the opening calls were made, and all seats of the gate.
#[inline(never)]
fn open_gate(
    alloc: Global,
    senders: u32,
    frames: u32,
) -> Result<(Gate<Record>, Vec<Seat<Record>>), AllocError>
    requires { (1 ≤ senders) × (senders ≤ 8) × (frames ≤ 10000) }
    ensures opening { IfOk result (λ r. r.0.opening.machine.past
        ≡ record { config = standard; history = opening_calls senders }) }
    ensures quotas { IfOk result (λ r. r.0.opening.quotas ≡ quotas_of senders frames) }
    ensures count { IfOk result (λ r. length r.1.items ≡ length r.0.opening.quotas) }
    ensures seats { IfOk result (λ r. EachIndex r.0.opening.quotas
        (λ k. slice_get r.1.items k ≡ Some (new_seat r.0 k))) }
{
    let quotas = quotas(alloc, senders, frames)?;
    let opened = Opened::with_stations(alloc, senders)?;
    Gate::new(alloc, opened.into_cell(), quotas.as_slice())
}

// Returns the gate with the seats if there are seats, and otherwise drops the gate.
fn with_seats<G: Drop, S>(gate: G, seats: Result<S, AllocError>) -> Result<(G, S), AllocError>
    ensures { IfOk result (λ r. (r.0 ≡ gate) × (seats ≡ Ok r.1)) }
{
    match seats {
        Ok(seats) => Ok((gate, seats)),
        Err(fault) => Err(fault),
    }
}

/// Runs `senders` senders, 1 to 8, each with `frames` frames, 1 to 10,000, and four drivers at the gate of a
/// new record, and returns the gate and all its seats in their order.
///
/// The record has the standard settings, and the opening calls are made before the gate opens. The turnstile
/// is called before and after each call at the gate. Fails only if memory runs out; then the gate and the
/// seats are dropped.
pub fn live<R: Threads + Wait + Sync, T: Turnstile + Sync>(
    rt: &R,
    alloc: Global,
    seed: u64,
    senders: u32,
    frames: u32,
    turnstile: &T,
) -> Result<(Gate<Record>, Vec<Seat<Record>>), AllocError>
    requires senders { (1 ≤ senders) × (senders ≤ 8) }
    requires frames { (1 ≤ frames) × (frames ≤ 10000) }

    // the gate was opened after the opening calls
    ensures opening { IfOk result (λ r. r.0.opening.machine.past
        ≡ record { config = standard; history = opening_calls senders }) }
    ensures quotas { IfOk result (λ r. r.0.opening.quotas ≡ quotas_of senders frames) }

    // the seats are all seats of the gate, in their order
    ensures places { IfOk result (λ r. map (λ s. s.number) r.1.items ≡ numbers_from 0 r.0.opening.quotas) }
    ensures own { IfOk result (λ r. All (IsOf r.0) r.1.items) }
    ensures all { IfOk result (λ r. AreAll r.0 r.1.items) }

    // each sender made all its calls in order, and each driver a walk that ended or used up its calls
    ensures worked { IfOk result (λ r. All (IsWorked r.0 seed senders frames) r.1.items) }
{
    let (gate, seats) = open_gate(alloc, senders, frames)?;
    let seats = work(rt, alloc, &gate, seats, seed, frames, turnstile);
    with_seats(gate, seats)
}
