//! One worker of a crew.

ghost use Rattle.std.specs.Prelude.{◌≡◌, OnOk, IfOk};
ghost use Rattle.wf_gate.specs.Seats.{IsOf};
ghost use Rattle.wf_run_histories.specs.Crew.{class_of_driver};
ghost use Rattle.wf_run_histories.specs.Sitting.{IsReady, HasWorked};

use crate::live::desk::GateDesk;
use crate::soak::workers::{drive, send};
use std::alloc::{AllocError, Global};
use std::sync::Wait;
use wf_cell::record::Record;
use wf_frame::{Answer, Class};
use wf_gate::{Gate, Seat, Turnstile};

/// The number of drivers, one for each class.
pub(crate) const DRIVERS: u32 = 4;

/// The parameters that all workers of a crew share.
#[derive(Clone, Copy)]
pub(crate) struct Plan {
    pub(crate) seed: u64,
    /// The number of senders, 1 to 8. They have the first seats.
    pub(crate) senders: u32,
    /// The number of frames of each sender.
    pub(crate) frames: u32,
}

// Returns the class of a driver.
fn class_of(driver: u16) -> Class
    ensures { result ≡ class_of_driver driver }
{
    match driver {
        0 => Class::Bk,
        1 => Class::Be,
        2 => Class::Vi,
        _ => Class::Vo,
    }
}

impl<'a, R: Wait, T: Turnstile> GateDesk<'a, R, T> {
    /// Returns a desk for a worker.
    fn new(
        rt: &'a R,
        alloc: Global,
        gate: &'a Gate<Record>,
        turnstile: &'a T,
        seat: Seat<Record>,
    ) -> Result<GateDesk<'a, R, T>, AllocError>
        requires own { IsOf gate.now seat }
        ensures seat { IfOk result (λ desk. desk.seat ≡ seat) }
        ensures gate { IfOk result (λ desk. desk.gate.now ≡ gate.now) }
    {
        let answer = Some(Box::new(alloc, Answer::new())?);
        Ok(GateDesk {
            rt,
            gate,
            turnstile,
            seat,
            answer,
        })
    }
}

// Makes the calls of a worker: a sender's at the first `plan.senders` seats, a driver's at the others.
fn make_calls<R: Wait, T: Turnstile>(
    desk: &mut GateDesk<'_, R, T>,
    alloc: Global,
    plan: Plan,
) -> Result<(), AllocError>
    requires { IsReady desk.old.gate.now plan.senders plan.frames desk.old.seat }
    ensures { OnOk result
        (HasWorked desk.old.gate.now plan.seed plan.senders plan.frames desk.old.seat desk.new.seat) }
{
    let number = desk.seat.number();
    if number < plan.senders {
        return send(desk, alloc, plan.seed, number as u16, plan.frames);
    }
    let driver = (number - plan.senders) as u16;
    drive(desk, plan.seed, driver, class_of(driver), plan.senders);
    Ok(())
}

/// Makes the calls of one worker and returns its seat. If memory runs out, the seat is dropped.
pub(crate) fn run_worker<R: Wait, T: Turnstile>(
    rt: &R,
    alloc: Global,
    gate: &Gate<Record>,
    turnstile: &T,
    seat: Seat<Record>,
    plan: Plan,
) -> Result<Seat<Record>, AllocError>
    requires { IsReady gate.now plan.senders plan.frames seat }
    ensures { IfOk result (HasWorked gate.now plan.seed plan.senders plan.frames seat) }
{
    let mut desk = GateDesk::new(rt, alloc, gate, turnstile, seat)?;
    make_calls(&mut desk, alloc, plan)?;
    let GateDesk {
        rt: _,
        gate: _,
        turnstile: _,
        seat,
        answer: _,
    } = desk;
    Ok(seat)
}
