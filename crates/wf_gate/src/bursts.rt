//! Bursts: many calls in one turn.
ghost use Rattle.std.specs.Prelude.{◌≡◌, ◌+◌, ◌<◌, ◌≤◌, [], length, OnOk, OnErr, vec_capacity};
ghost use Rattle.wf_gate.specs.Seats.{IsOf, IsSameSeat, IsAtRest, AreOfSeats, HasMadeAll};

use crate::gate::{Gate, Spent};
use crate::seat::Seat;
use crate::turn::{draw, serve_all, wait};
use std::collections::VecDeque;
use std::sync::Wait;
use wf_machine::Machine;

impl<M: Machine + Drop> Gate<M> {
    /// Makes these calls of the machine, the first one first, and appends their replies in this order. Waits
    /// once, until all calls with earlier tickets have been made. No call of another seat is between these
    /// calls. If the machine refuses one of them, its reply says so, and the calls after it are made.
    ///
    /// `calls` must not be empty, and is empty after the calls. `replies` must be empty and have the capacity
    /// for a reply to each call, so that a turn allocates no memory.
    ///
    /// Fails with `Spent` if the seat's quota does not cover all of the calls. Then none is made, and `calls`
    /// is unchanged. No other error is possible: the gate cannot be closed before this call returns, and the
    /// quotas together do not exceed the calls that the machine still takes.
    pub fn call_all<R: Wait>(
        &self,
        rt: &R,
        seat: &mut Seat<M>,
        calls: &mut VecDeque<M::Call>,
        replies: &mut Vec<M::Reply>,
    ) -> Result<(), Spent>
        requires own { IsOf self.now seat.old }
        requires some { 0 < length calls.old.items }
        requires empty { replies.old.items ≡ [] }
        requires space { length calls.old.items ≤ vec_capacity replies.old }
        ensures same { IsSameSeat seat.old seat.new }
        ensures rest { IsAtRest seat.new }

        // If the calls were made.
        ensures left { OnOk result (seat.old.used + length calls.old.items ≤ seat.old.quota) }
        ensures used { OnOk result (seat.new.used ≡ seat.old.used + length calls.old.items) }
        ensures made { OnOk result (HasMadeAll M.past M.settings M.note M.right self.now seat.old seat.new
            calls.old.items replies.new.items) }
        ensures looks { OnOk result (seat.new.looks ≡ seat.old.looks) }
        ensures callers { OnOk result (AreOfSeats self.now seat.new.seen) }
        ensures taken { OnOk result (calls.new.items ≡ []) }

        // If the quota has no room for them.
        ensures spent { OnErr result (seat.old.quota < seat.old.used + length calls.old.items) }
        ensures unchanged { OnErr result (seat.new ≡ seat.old) }
        ensures back { OnErr result (calls.new ≡ calls.old) }
        ensures none { OnErr result (replies.new ≡ replies.old) }
    {
        let count = calls.len();
        if ((seat.quota - seat.used) as usize) < count {
            return Err(Spent);
        }
        let shared = &self.table.shared;
        let tickets = draw(shared, &mut seat.pass, count as u64);
        wait(rt, shared, &mut seat.pass, tickets);
        serve_all(shared, &mut seat.pass, seat.number, calls, replies);
        seat.used += count as u32;
        Ok(())
    }
}
