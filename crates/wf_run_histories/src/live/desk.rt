//! A desk with a seat at the gate.

ghost use Rattle.std.specs.Prelude.{◌≡◌, ◌+◌, ◌≤◌, length, is_some, true, OnOk, OnErr, IfOk, IsOk, IsErr};
ghost use Rattle.wf_gate.specs.Seats.{IsOf};
ghost use Rattle.wf_path.specs.Jobs.{note_of};
ghost use Rattle.wf_run_histories.specs.Desks.{Adds, Refuses};
ghost use Rattle.wf_run_histories.specs.Sitting.{HasMade, HasMadeAndLooked, left_of, reply_in};

use crate::live::calls::{Back, call_at, call_at_once};
use crate::soak::workers::{Desk, Spent};
use std::alloc::Global;
use std::sync::Wait;
use wf_cell::record::Record;
use wf_cell::{Asking, Job};
use wf_frame::{Answer, Ask};
use wf_gate::{Gate, Seat, Turnstile};
use wf_queue_parts::chain::Parcel;

/// The desk of one worker: its seat at a gate, and the answer that each call fills.
#[derive(Drop)]
pub(crate) struct GateDesk<'a, R, T> {
    pub(crate) rt: &'a R,
    pub(crate) gate: &'a Gate<Record>,
    pub(crate) turnstile: &'a T,
    pub(crate) seat: Seat<Record>,
    pub(crate) answer: Option<Box<Answer, Global>>,
    ghost own: { IsOf gate.now seat },
    ghost ready: { is_some answer ≡ true },
}

// Stores the answer's box again, and returns whether the call was made.
fn put_back(place: &mut Option<Box<Answer, Global>>, back: Back) -> Result<(), Spent>
    ensures made { OnOk result (IfOk back (λ answer. place.new ≡ Some answer)) }
    ensures was_made { OnOk result (IsOk back) }
    ensures spent { OnErr result (IsErr back) }
    ensures there { is_some place.new ≡ true }
{
    match back {
        Ok(answer) => {
            *place = Some(answer);
            Ok(())
        }
        Err(answer) => {
            *place = Some(answer);
            Err(Spent)
        }
    }
}

impl<'a, R: Wait, T: Turnstile> GateDesk<'a, R, T> {
    // Makes a call that waits for its turn.
    fn call(&mut self, job: Job) -> Result<(), Spent>
        ensures made { OnOk result (Adds HasMade left_of self.old.seat self.new.seat (note_of job)
            (reply_in self.new.answer)) }
        ensures looks { OnOk result (self.new.seat.looks ≡ self.old.seat.looks) }
        ensures spent { OnErr result (Refuses HasMade left_of self.old.seat self.new.seat) }
        ensures unchanged { OnErr result (self.new.seat ≡ self.old.seat) }
    {
        let Some(answer) = self.answer.take() else {
            unreachable!()
        };
        let asking = Asking { job, answer };
        let back = call_at(self.rt, self.gate, self.turnstile, &mut self.seat, asking);
        put_back(&mut self.answer, back)
    }

    // Makes a call that first tries not to wait.
    fn call_at_once(&mut self, job: Job) -> Result<(), Spent>
        ensures made { OnOk result (Adds HasMade left_of self.old.seat self.new.seat (note_of job)
            (reply_in self.new.answer)) }
        ensures looks { OnOk result (length self.new.seat.looks ≤ length self.old.seat.looks + 1) }
        ensures spent { OnErr result (Refuses HasMade left_of self.old.seat self.new.seat) }
        ensures unchanged { OnErr result (self.new.seat ≡ self.old.seat) }
    {
        let Some(answer) = self.answer.take() else {
            unreachable!()
        };
        let asking = Asking { job, answer };
        let back = call_at_once(self.rt, self.gate, self.turnstile, &mut self.seat, asking);
        put_back(&mut self.answer, back)
    }
}

impl<'a, R: Wait, T: Turnstile> Desk for GateDesk<'a, R, T> {
    // The gate, and the number of the seat.
    type Place = (Gate<Record>, u32);

    ghost has = { λ desk place made. HasMadeAndLooked desk.seat place made };

    ghost left = { λ desk. left_of desk.seat };

    ghost reply = { λ desk. reply_in desk.answer };

    fn left(&self) -> u32 {
        self.seat.quota() - self.seat.used()
    }

    fn answer(&self) -> &Answer {
        match &self.answer {
            Some(answer) => answer,
            None => unreachable!(),
        }
    }

    fn give(&mut self, parcel: Parcel) -> Result<(), Spent> {
        self.call(Job::Give(parcel))
    }

    fn ask(&mut self, ask: Ask) -> Result<(), Spent> {
        self.call(Job::Call(ask))
    }

    fn ask_at_once(&mut self, ask: Ask) -> Result<(), Spent> {
        self.call_at_once(Job::Call(ask))
    }
}
