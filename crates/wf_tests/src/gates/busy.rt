//! A try while another seat's step is running.

ghost use Rattle.std.specs.Prelude.{◌≡◌};
ghost use Rattle.wf_gate.specs.Seats.{IsOf};

use crate::alike::same;
use crate::gates::clock::Clock;
use crate::gates::pair::{close_pair, open_pair};
use std::alloc::{AllocError, Global};
use std::sync::atomic::{AtomicU64, Ordering};
use std::sync::{Arc, Wait};
use std::test::Fail;
use std::thread;
use std::thread::Threads;
use wf_gate::{Gate, Machine, Seat, TryFault};

/// The most turns of a test's thread while it waits for a flag.
const TURNS: u64 = 100_000_000;

fn await_flag(flag: &AtomicU64) {
    for _ in 0..TURNS {
        if flag.load(Ordering::SeqCst) == 1 {
            break;
        }
        thread::yield_now();
    }
}

/// A clock whose step sets the flag `began`, and waits for the flag `go_on`.
#[derive(Drop)]
pub struct SlowClock {
    clock: Clock,
    began: Arc<AtomicU64, Global>,
    go_on: Arc<AtomicU64, Global>,
}

impl Machine for SlowClock {
    type Call = u32;

    type Reply = u64;

    type Note = u32;

    type Settings = ();

    ghost past = { λ s. s.clock.history };

    ghost settings = { λ _. tt };

    ghost calls_left = { λ s. s.clock.left };

    ghost note = { λ ticks. ticks };

    // The test compares the reply.
    ghost right = { λ _ _ _ _ _. Unit {0} };

    fn calls_left(&self) -> u64 {
        self.clock.calls_left()
    }

    fn step(&mut self, caller: u32, call: u32) -> u64 {
        self.began.store(1, Ordering::SeqCst);
        await_flag(&self.go_on);
        self.clock.step(caller, call)
    }
}

fn call_slowly<R: Wait>(
    rt: &R,
    gate: &Gate<SlowClock>,
    mut seat: Seat<SlowClock>,
) -> (Option<u64>, Seat<SlowClock>)
    requires { IsOf gate.now seat }
    ensures { IsOf gate.now result.1 × (result.1.number ≡ seat.number) }
{
    (gate.call(rt, &mut seat, 8).ok(), seat)
}

/// Tries a call while another seat's step is running. Returns the call, the ticket and the number that is
/// served; then lets the other step continue.
fn try_meanwhile(
    gate: &Gate<SlowClock>,
    mut seat: Seat<SlowClock>,
    began: &AtomicU64,
    go_on: &AtomicU64,
) -> (Option<(u32, u64, u64)>, Seat<SlowClock>)
    requires { IsOf gate.now seat }
    ensures { IsOf gate.now result.1 × (result.1.number ≡ seat.number) }
{
    await_flag(began);
    let found = match gate.try_call(&mut seat, 9) {
        Err((TryFault::Busy { ticket, serving }, call)) => Some((call, ticket, serving)),
        _ => None,
    };
    go_on.store(1, Ordering::SeqCst);
    (found, seat)
}

/// The reply of the slow call, the result of the try, and what the clock shows.
type Met = (Option<u64>, Option<(u32, u64, u64)>, (u64, u64));

fn run<R: Threads + Wait + Sync>(rt: &R, alloc: Global) -> Result<Option<Met>, AllocError> {
    let began = Arc::new(alloc, AtomicU64::new(0))?;
    let go_on = Arc::new(alloc, AtomicU64::new(0))?;
    let slow = SlowClock {
        clock: Clock::new(4),
        began: Arc::try_clone(&began)?,
        go_on: Arc::try_clone(&go_on)?,
    };
    let Some((gate, zero, one)) = open_pair(alloc, slow, [2, 2])? else {
        return Ok(None);
    };
    let ((reply, zero), (found, one)) = thread::join(
        rt,
        || call_slowly(rt, &gate, zero),
        || try_meanwhile(&gate, one, &began, &go_on),
    );
    let slow = close_pair(alloc, gate, zero, one)?;
    Ok(Some((reply, found, slow.clock.shown())))
}

#[test]
fn a_try_comes_during_a_step(rt: HostRuntime) -> Result<(), Fail> {
    same(
        &rt,
        run(&rt, rt.alloc())?,
        Some((Some(8), Some((9, 1, 0)), (8, 1))),
    );
    Ok(())
}
