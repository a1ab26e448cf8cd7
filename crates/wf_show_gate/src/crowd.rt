//! The same calls by several threads.
ghost use Rattle.std.specs.Prelude.{All};
ghost use Rattle.wf_gate.specs.Seats.{IsOf};

use crate::counter::Counter;
use crate::runs::{call_all, call_in_bursts};
use anyhow::{Context, Result, bail};
use std::alloc::{AllocError, Global};
use std::sync::Wait;
use std::thread;
use std::thread::Threads;
use wf_gate::{Gate, Seat};

/// How a thread makes its calls.
#[derive(Clone, Copy)]
pub enum Way {
    /// One by one.
    Single,
    /// In bursts.
    Burst,
}

/// Makes this many calls by the seat. Returns the last sum, or `None` if the seat has fewer calls left, or if
/// there is no memory for a burst.
fn call_by<R: Wait>(
    rt: &R,
    alloc: Global,
    gate: &Gate<Counter>,
    mut seat: Seat<Counter>,
    way: Way,
    calls: u32,
) -> Option<u64>
    requires { IsOf gate.now seat }
{
    match way {
        Way::Single => call_all(rt, gate, &mut seat, calls),
        Way::Burst => match call_in_bursts(rt, alloc, gate, &mut seat, calls) {
            Ok(sum) => sum,
            Err(_) => None,
        },
    }
}

/// Makes this many calls by each seat, each in a new thread if one can be made.
fn call_in_threads<R: Threads + Wait + Sync>(
    rt: &R,
    alloc: Global,
    gate: &Gate<Counter>,
    seats: Vec<Seat<Counter>>,
    way: Way,
    calls: u32,
) -> Result<Vec<Option<u64>>, AllocError>
    requires { All (IsOf gate.now) seats.items }
{
    let sums = thread::map_vec(
        rt,
        seats,
        &|seat| { call_by(rt, alloc, gate, seat, way, calls) },
    )?;
    Ok(sums)
}

/// Makes a counter and a gate with a seat for each thread, and this many calls in each. Returns the sum of
/// the threads' last sums.
pub fn crowded<R: Threads + Wait + Sync>(
    rt: &R,
    alloc: Global,
    way: Way,
    threads: u32,
    calls: u32,
) -> Result<u64> {
    let room = threads.checked_mul(calls).context("too many calls")?;
    let quotas = vec![in alloc; calls; threads as usize]?;
    if quotas.is_empty() {
        bail!("no thread");
    }
    let (gate, seats) = Gate::new(alloc, Counter::new(room), quotas.as_slice())?;
    let mut all = 0_u64;
    for sum in call_in_threads(rt, alloc, &gate, seats, way, calls)? {
        all = all.wrapping_add(sum.context("too few calls are left")?);
    }
    Ok(all)
}
