//! Two threads that call through one gate.

ghost use Rattle.std.specs.Prelude.{◌≡◌, ℕ, List, ◌++◌, All, IsTrue, IfOk};
ghost use Rattle.wf_gate.specs.Seats.{IsOf, AreAll, StandsWithCalls};

use crate::alike::same;
use crate::gates::clock::Clock;
use std::alloc::{AllocError, Global};
use std::sync::Wait;
use std::test::Fail;
use std::thread;
use std::thread::Threads;
use wf_gate::{Gate, Seat};

/// The calls of each thread.
const TICKS: [u32; 8] = [1, 2, 3, 4, 5, 6, 7, 8];

/// Makes these calls by a seat, in order. Its entries are then those before, and these.
fn send_all<R: Wait>(rt: &R, gate: &Gate<Clock>, seat: &mut Seat<Clock>, ticks: &[u32]) -> bool
    requires { IsOf gate.now seat.old }
    ensures of { IsOf gate.now seat.new × (seat.new.number ≡ seat.old.number) }
    ensures sent { IsTrue result → (made : List ℕ) →
        StandsWithCalls seat.old.number seat.old.seen seat.old.own made →
        StandsWithCalls seat.old.number seat.new.seen seat.new.own (made ++ ticks.now) }
{
    for tick in ticks {
        let Ok(_time) = gate.call(rt, seat, *tick) else {
            return false;
        };
    }
    true
}

fn send_ticks<R: Wait>(rt: &R, gate: &Gate<Clock>, mut seat: Seat<Clock>) -> Seat<Clock>
    requires { IsOf gate.now seat }
    ensures { IsOf gate.now result × (result.number ≡ seat.number) }
{
    send_all(rt, gate, &mut seat, &TICKS);
    seat
}

/// Makes the calls of each seat, each in a new thread.
fn send_in_threads<R: Threads + Wait + Sync>(
    rt: &R,
    gate: &Gate<Clock>,
    seats: Vec<Seat<Clock>>,
) -> Result<Vec<Seat<Clock>>, AllocError>
    requires of { All (IsOf gate.now) seats.items }
    requires all { AreAll gate.now seats.items }
    ensures of { IfOk result (λ v. All (IsOf gate.now) v.items) }
    ensures all { IfOk result (λ v. AreAll gate.now v.items) }
{
    let back = thread::map_vec(rt, seats, &|seat| send_ticks(rt, gate, seat))?;
    Ok(back)
}

/// Returns what the clock shows after two threads made their calls.
fn run<R: Threads + Wait + Sync>(rt: &R, alloc: Global) -> Result<(u64, u64), AllocError> {
    let (gate, seats) = Gate::new(alloc, Clock::new(16), &[8, 8])?;
    let seats = send_in_threads(rt, &gate, seats)?;
    Ok(gate.close(seats).shown())
}

#[test]
fn two_threads(rt: HostRuntime) -> Result<(), Fail> {
    same(&rt, run(&rt, rt.alloc())?, (72, 16));
    Ok(())
}
