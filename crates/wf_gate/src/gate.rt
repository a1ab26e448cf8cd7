//! The gate, its blocking call, and its end.
ghost use Rattle.std.specs.Prelude.{◌≡◌, ◌+◌, ◌<◌, ◌≤◌, ◌∷◌, [], ◌++◌, length, sum, All, EachIndex, slice_get, Some, IfOk, IfErr, OnOk, OnErr};
ghost use mathlib.Core.List.{IsPrefix};
ghost use Rattle.wf_gate.specs.Seats.{IsOf, IsSameSeat, IsAtRest, new_seat, AreAll, EndsWith, last_place, AreOfSeats, IsRightAt, places_of, made_since, gate_opened};

use crate::dealing::{deal, gather};
use crate::seat::Seat;
use crate::turn::{draw, serve, wait};
use crate::view::{Key, MACHINE, Turns, View};
use atomic_table::{Refused, Table};
use std::alloc::{AllocError, Global};
use std::marker::Model;
use std::snapshot::Snapshot;
use std::sync::Wait;
use wf_machine::Machine;

/// A ticket gate in front of a machine that many threads share. Contracts see it as a `GateView`: an
/// identity, the machine at the moment when the gate was made, and the quotas.
#[derive(Drop)]
pub struct Gate<M: Machine> {
    pub(crate) table: Table<Option<M>, View<M, M::Note>, Key<M>, Turns<M>, Global>,
}

impl<M: Machine> Model for Gate<M> {
    ghost use Rattle.std.specs.Prelude.{◌<◌, length};
    ghost use Rattle.wf_gate.specs.Seats.{GateView, gate_of};
    ghost use Rattle.wf_gate.specs.Passes.{IsTableSized};

    ghost Value = { GateView M };

    ghost view = { λ g. gate_of g.table.shared.table_id g.table.shared.key };

    ghost invariant = { λ g. IsTableSized g.table.shared.table_id ×
        (0 < length g.table.shared.key.quotas.items) };
}

/// The refusal of a call whose seat has used up its quota.
#[derive(Debug, Drop)]
pub struct Spent;

impl<M: Machine + Drop> Gate<M> {
    /// Returns a gate in front of `machine`, and its seats: seat `k` has number `k` and may make `quotas[k]`
    /// calls. The sum of the quotas must not exceed the number of calls that the machine still takes.
    ///
    /// Fails with `AllocError` if memory runs out, and for 2^32 quotas or more, since a seat's number has 32
    /// bits. The machine is then dropped.
    pub fn new(
        alloc: Global,
        machine: M,
        quotas: &[u32],
    ) -> Result<(Gate<M>, Vec<Seat<M>>), AllocError>
        requires some { 0 < length quotas.now }
        requires room { sum quotas.now ≤ M.calls_left machine }
        ensures opening { IfOk result (λ r. r.0.opening ≡ gate_opened machine quotas.now) }
        ensures count { IfOk result (λ r. length r.1.items ≡ length quotas.now) }
        ensures seats { IfOk result (λ r. EachIndex quotas.now
            (λ k. slice_get r.1.items k ≡ Some (new_seat r.0 k))) }
        ensures own { IfOk result (λ r. All (IsOf r.0) r.1.items) }
        ensures all { IfOk result (λ r. AreAll r.0 r.1.items) }
    {
        // The number of calls that the machine still takes, a `u64`, bounds every ticket.
        machine.calls_left();
        if quotas.len() >= 1 << 32 {
            return Err(AllocError);
        }
        let key = Key {
            machine: Snapshot::of(&machine),
            quotas: quotas.to_vec(alloc)?,
        };
        let seats = Vec::with_capacity(alloc, quotas.len())?;
        let mut slots = Vec::with_capacity(alloc, 1)?;
        slots.push_reserved(Some(machine));
        match Table::new(alloc, &[0, 0], slots, &key) {
            Ok((table, first)) => {
                let seats = deal(&table.shared, first, quotas, seats);
                Ok((Gate { table }, seats))
            }
            Err(Refused { slots: _ }) => Err(AllocError),
        }
    }

    /// Makes one call of the machine and returns its reply. Waits until all calls with earlier tickets have
    /// been made.
    ///
    /// Fails with `Spent` if the seat's quota is used up, and then returns the call.
    pub fn call<R: Wait>(
        &self,
        rt: &R,
        seat: &mut Seat<M>,
        call: M::Call,
    ) -> Result<M::Reply, (Spent, M::Call)>
        requires own { IsOf self.now seat.old }
        ensures same { IsSameSeat seat.old seat.new }
        ensures rest { IsAtRest seat.new }

        // If the call was made.
        ensures left { OnOk result (seat.old.used < seat.old.quota) }
        ensures used { OnOk result (seat.new.used ≡ seat.old.used + 1) }
        ensures seen { OnOk result (IsPrefix seat.old.seen seat.new.seen) }
        ensures entry { OnOk result (EndsWith seat.new.seen (seat.old.number, M.note call)) }
        ensures own { OnOk result (seat.new.own ≡ seat.old.own ++ last_place seat.new.seen ∷ []) }
        ensures looks { OnOk result (seat.new.looks ≡ seat.old.looks) }
        ensures callers { OnOk result (AreOfSeats self.now seat.new.seen) }
        ensures reply { IfOk result (IsRightAt M.past M.settings M.right self.now seat.new.seen
            (last_place seat.new.seen) seat.old.number call) }

        // If the quota was used up.
        ensures spent { OnErr result (seat.old.used ≡ seat.old.quota) }
        ensures unchanged { OnErr result (seat.new ≡ seat.old) }
        ensures back { IfErr result (λ e. e.1 ≡ call) }
    {
        if seat.used == seat.quota {
            return Err((Spent, call));
        }
        let shared = &self.table.shared;
        let ticket = draw(shared, &mut seat.pass, 1);
        wait(rt, shared, &mut seat.pass, ticket);
        let reply = serve(shared, &mut seat.pass, seat.number, call);
        seat.used += 1;
        Ok(reply)
    }

    /// Ends the gate and returns the machine. `seats` must contain all seats of the gate.
    pub fn close(self, seats: Vec<Seat<M>>) -> M
        requires own { All (IsOf self) seats.items }
        requires all { AreAll self seats.items }
        ensures settings { M.settings result ≡ M.settings self.opening.machine }
        ensures history { M.past result ≡ M.past self.opening.machine ++ made_since M.past self result }
        ensures callers { AreOfSeats self (made_since M.past self result) }
        ensures seen { All (λ s. IsPrefix s.seen (made_since M.past self result)) seats.items }
        ensures own { All (λ s. s.own ≡ places_of s.number (made_since M.past self result)) seats.items }
        ensures looks { All (λ s. All (λ look. look.1
            ≤ length (made_since M.past self result)) s.looks) seats.items }
    {
        let Gate { table } = self;
        let pass = gather(&table.shared, seats);
        let mut closed = table.close_with(pass);
        let Some(machine) = closed.take(MACHINE) else {
            unreachable!()
        };
        closed.free();
        machine
    }
}
