//! The two seats of a gate.

ghost use Rattle.std.specs.Prelude.{◌≤◌, sum, IfOk, IfSome};
ghost use Rattle.wf_gate.specs.Pairs.{IsPair};

use std::alloc::{AllocError, Global};
use wf_gate::{Gate, Machine, Seat};

/// Makes a gate with two seats, and returns it with both, in the order of their numbers.
pub(crate) fn open_pair<M: Machine + Drop>(
    alloc: Global,
    machine: M,
    quotas: [u32; 2],
) -> Result<Option<(Gate<M>, Seat<M>, Seat<M>)>, AllocError>
    requires { sum quotas ≤ M.calls_left machine }
    ensures { IfOk result (λ r. IfSome r (λ p. IsPair p.0 p.1 p.2)) }
{
    let (gate, mut seats) = Gate::new(alloc, machine, &quotas)?;
    let (Some(one), Some(zero)) = (seats.pop(), seats.pop()) else {
        return Ok(None);
    };
    Ok(Some((gate, zero, one)))
}

/// Closes such a gate, and returns its machine.
pub(crate) fn close_pair<M: Machine + Drop>(
    alloc: Global,
    gate: Gate<M>,
    zero: Seat<M>,
    one: Seat<M>,
) -> Result<M, AllocError>
    requires { IsPair gate zero one }
{
    let mut seats = Vec::with_capacity(alloc, 2)?;
    seats.push_reserved(zero);
    seats.push_reserved(one);
    Ok(gate.close(seats))
}
