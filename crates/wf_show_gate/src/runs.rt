//! The same calls, directly to the machine and through a gate.
ghost use Rattle.std.specs.Prelude.{◌≡◌, ◌<◌, [], length, OnOk};
ghost use Rattle.wf_gate.specs.Seats.{IsOf};

use crate::counter::Counter;
use anyhow::{Context, Result};
use std::alloc::{AllocError, Global};
use std::collections::VecDeque;
use std::sync::Wait;
use wf_gate::{Gate, Machine, Seat};

/// The number of calls in a burst.
const BURST: u32 = 16;

/// The octets that the call with this number adds.
fn octets(call: u32) -> u32 {
    call % 1500
}

/// Makes this many calls to a counter, and returns the last sum.
pub fn bare(calls: u32) -> u64 {
    let mut counter = Counter::new(calls);
    let mut sum = 0;
    for call in 0..calls {
        sum = counter.step(0, octets(call));
    }
    sum
}

/// Makes the same calls by the only seat of a gate, and returns the last sum.
pub fn gated<R: Wait>(rt: &R, alloc: Global, calls: u32) -> Result<u64> {
    let (gate, mut seats) = Gate::new(alloc, Counter::new(calls), &[calls])?;
    let mut seat = seats.pop().context("the seat is missing")?;
    call_all(rt, &gate, &mut seat, calls).context("too few calls are left")
}

/// Makes this many calls by the seat. Returns the last sum, or `None` if the seat has fewer calls left.
pub fn call_all<R: Wait>(
    rt: &R,
    gate: &Gate<Counter>,
    seat: &mut Seat<Counter>,
    calls: u32,
) -> Option<u64>
    requires { IsOf gate.now seat.old }
{
    let mut sum = 0;
    for call in 0..calls {
        let Ok(next) = gate.call(rt, seat, octets(call)) else {
            return None;
        };
        sum = next;
    }
    Some(sum)
}

/// Puts the calls of a burst into an empty queue; `first` is the number of the first call.
fn fill(calls: &mut VecDeque<u32>, first: u32) -> Result<(), AllocError>
    requires { calls.old.items ≡ [] }
    ensures { OnOk result (0 < length calls.new.items) }
{
    calls.push_back(octets(first))?;
    for place in 1..BURST {
        calls.push_back(octets(first.wrapping_add(place)))?;
    }
    Ok(())
}

/// Makes this many calls by the seat, in bursts; calls that fill no burst are left out. Returns the last sum,
/// or `None` if the seat has fewer calls left.
pub fn call_in_bursts<R: Wait>(
    rt: &R,
    alloc: Global,
    gate: &Gate<Counter>,
    seat: &mut Seat<Counter>,
    calls: u32,
) -> Result<Option<u64>, AllocError>
    requires { IsOf gate.now seat.old }
{
    let mut waiting = VecDeque::new(alloc);
    let mut sums = Vec::new(alloc);
    let mut sum = 0;
    for burst in 0..calls / BURST {
        fill(&mut waiting, burst.wrapping_mul(BURST))?;
        sums.reserve(waiting.len())?;
        if gate.call_all(rt, seat, &mut waiting, &mut sums).is_err() {
            return Ok(None);
        }
        if let Some(last) = sums.pop() {
            sum = last;
        }
        sums.clear();
    }
    Ok(Some(sum))
}
