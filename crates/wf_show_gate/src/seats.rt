//! Two seats at one gate.
ghost use Rattle.std.specs.Prelude.{◌≡◌};
ghost use Rattle.wf_gate.specs.Pairs.{IsPair};
ghost use Rattle.wf_gate.specs.Seats.{IsOf};

use crate::counter::Counter;
use anyhow::{Result, bail};
use std::alloc::{AllocError, Global};
use std::fmt::Write;
use std::sync::Wait;
use wf_gate::{Gate, Seat};

/// Makes a call by the seat, and adds a line with the reply.
fn ask<R: Wait>(
    rt: &R,
    gate: &Gate<Counter>,
    seat: &mut Seat<Counter>,
    octets: u32,
    lines: &mut String,
) -> Result<()>
    requires { IsOf gate.now seat.old }
    ensures { IsOf gate.now seat.new × (seat.new.number ≡ seat.old.number) }
{
    let number = seat.number();
    match gate.call(rt, seat, octets) {
        Ok(sum) => writeln!(lines, "seat {number}: {octets} octets more, {sum} in all")?,
        Err(_) => writeln!(lines, "seat {number}: no call is left")?,
    }
    Ok(())
}

/// Makes calls by both seats, until one has no call left.
fn meet<R: Wait>(
    rt: &R,
    gate: &Gate<Counter>,
    zero: &mut Seat<Counter>,
    one: &mut Seat<Counter>,
    lines: &mut String,
) -> Result<()>
    requires { IsPair gate.now zero.old one.old }
    ensures { IsPair gate.now zero.new one.new }
{
    ask(rt, gate, zero, 1500, lines)?;
    ask(rt, gate, one, 40, lines)?;
    ask(rt, gate, zero, 60, lines)?;
    ask(rt, gate, one, 40, lines)
}

/// Closes the gate with both its seats, and returns the counter.
fn close(
    alloc: Global,
    gate: Gate<Counter>,
    zero: Seat<Counter>,
    one: Seat<Counter>,
) -> Result<Counter, AllocError>
    requires { IsPair gate zero one }
{
    let mut seats = Vec::with_capacity(alloc, 2)?;
    seats.push_reserved(zero);
    seats.push_reserved(one);
    Ok(gate.close(seats))
}

/// Makes a gate with two seats, makes calls by both, and closes it. Returns a line for each call, and one for
/// the counter.
pub fn show<R: Wait>(rt: &R, alloc: Global) -> Result<String> {
    let mut lines = String::new(alloc);
    let (gate, mut seats) = Gate::new(alloc, Counter::new(3), &[2, 1])?;
    let (Some(mut one), Some(mut zero)) = (seats.pop(), seats.pop()) else {
        bail!("a seat is missing");
    };
    meet(rt, &gate, &mut zero, &mut one, &mut lines)?;
    let counter = close(alloc, gate, zero, one)?;
    writeln!(
        lines,
        "the counter: {} octets of seat 0, {} of seat 1",
        counter.sum(0),
        counter.sum(1)
    )?;
    Ok(lines)
}
