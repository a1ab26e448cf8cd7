//! The calls of a worker at the gate.

ghost use Rattle.std.specs.Prelude.{◌≡◌, ◌+◌, ◌≤◌, length, OnOk, OnErr, IfOk};
ghost use Rattle.wf_frame.specs.Answers.{reply_of};
ghost use Rattle.wf_gate.specs.Seats.{IsOf, IsSameSeat};
ghost use Rattle.wf_path.specs.Jobs.{note_of};
ghost use Rattle.wf_run_histories.specs.Desks.{Adds, Refuses};
ghost use Rattle.wf_run_histories.specs.Sitting.{HasMade, left_of};

use std::alloc::Global;
use std::sync::Wait;
use wf_cell::record::Record;
use wf_cell::{Answered, Asking};
use wf_frame::Answer;
use wf_gate::{Gate, Seat, TryFault, Turnstile};

/// The box of the answer, returned after a call: filled if the call was made, unchanged if the seat had no
/// call left.
pub(crate) type Back = Result<Box<Answer, Global>, Box<Answer, Global>>;

// Drops everything that a call returned except the answer.
fn answer_in(answered: Answered) -> Box<Answer, Global>
    ensures { result ≡ answered.answer }
{
    let Answered { answer, parcel } = answered;
    drop(parcel);
    answer
}

// Drops the job of a call that was not made.
fn answer_back(asking: Asking) -> Box<Answer, Global> {
    let Asking { job, answer } = asking;
    drop(job);
    answer
}

/// Makes a call at the gate, and calls the turnstile before and after it. It may wait for other seats.
/// Returns `Err` if the seat has no call left.
pub(crate) fn call_at<R: Wait, T: Turnstile>(
    rt: &R,
    gate: &Gate<Record>,
    turnstile: &T,
    seat: &mut Seat<Record>,
    asking: Asking,
) -> Back
    requires own { IsOf gate.now seat.old }
    ensures same { IsSameSeat seat.old seat.new }
    ensures made { IfOk result (λ answer. Adds HasMade left_of seat.old seat.new (note_of asking.job)
        (reply_of answer.value)) }
    ensures looks { OnOk result (seat.new.looks ≡ seat.old.looks) }
    ensures spent { OnErr result (Refuses HasMade left_of seat.old seat.new) }
    ensures unchanged { OnErr result (seat.new ≡ seat.old) }
{
    turnstile.before(seat.number());
    let back = gate.call(rt, seat, asking);
    turnstile.after(seat.number());
    match back {
        Ok(answered) => Ok(answer_in(answered)),
        Err((_, asking)) => Err(answer_back(asking)),
    }
}

/// Makes a call by `try_call`, which does not wait; if other seats are at the gate, it makes the call by
/// `call_at`, which may wait. Returns `Err` if the seat has no call left.
pub(crate) fn call_at_once<R: Wait, T: Turnstile>(
    rt: &R,
    gate: &Gate<Record>,
    turnstile: &T,
    seat: &mut Seat<Record>,
    asking: Asking,
) -> Back
    requires own { IsOf gate.now seat.old }
    ensures same { IsSameSeat seat.old seat.new }
    ensures made { IfOk result (λ answer. Adds HasMade left_of seat.old seat.new (note_of asking.job)
        (reply_of answer.value)) }
    ensures looks { OnOk result (length seat.new.looks ≤ length seat.old.looks + 1) }
    ensures spent { OnErr result (Refuses HasMade left_of seat.old seat.new) }
    ensures unchanged { OnErr result (seat.new ≡ seat.old) }
{
    turnstile.before(seat.number());
    let back = gate.try_call(seat, asking);
    turnstile.after(seat.number());
    match back {
        Ok(answered) => Ok(answer_in(answered)),
        Err((TryFault::Spent, asking)) => Err(answer_back(asking)),
        Err((TryFault::Busy { .. }, asking)) => call_at(rt, gate, turnstile, seat, asking),
    }
}
