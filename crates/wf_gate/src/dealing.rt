//! Splits the first seat of a table into all seats of a gate, and joins them again.
ghost use Rattle.std.specs.Prelude.{◌≡◌, ℕ, Some, ◌<◌, ◌≤◌, [], length, vec_capacity};
ghost use mathlib.Core.Option.{some};
ghost use lib.ListN.{get_elem?};
ghost use Rattle.wf_gate.specs.declared.view.Stage.TheVariants.{Idle};
ghost use Rattle.wf_gate.specs.Turns.{opening_of, first_view};
ghost use Rattle.wf_gate.specs.Passes.{IsTableSized};
ghost use Rattle.wf_gate.specs.Seats.{gate_of, new_seat, IsOf, IsRecorded};

use crate::plays::{Deal, Gather};
use crate::seat::{Seat, SeatOf};
use crate::view::{Pass, Shared};
use wf_machine::Machine;

/// Splits the first seat into one seat for each quota. The last seat of the result is the remainder of the
/// first.
pub(crate) fn deal<M: Machine + Drop>(
    shared: &Shared<M>,
    mut first: Pass<M>,
    quotas: &[u32],
    mut seats: Vec<Seat<M>>,
) -> Vec<Seat<M>>
    requires table { IsTableSized shared.now.table_id }
    requires own { (first.table_id ≡ shared.now.table_id) ×
        (first.me ≡ (first_view (opening_of shared.now.key), [])) }
    requires quotas { (opening_of shared.now.key).quotas ≡ quotas.now }
    requires some { (0 < length quotas.now) × (length quotas.now < 4294967296) }
    requires space { (seats.items ≡ []) × (length quotas.now ≤ vec_capacity seats) }
    ensures count { length result.items ≡ length quotas.now }
    ensures seats { (k : ℕ) (s : _) → get_elem? result.items k ≡ some s →
        s ≡ new_seat (gate_of shared.now.table_id shared.now.key) k }
{
    let last = quotas.len() - 1;
    for i in 0..last {
        let pass = shared.split_seat::<Deal>(&mut first);
        seats.push_reserved(SeatOf {
            pass,
            number: i as u32,
            quota: quotas[i],
            used: 0,
        });
    }
    seats.push_reserved(SeatOf {
        pass: first,
        number: last as u32,
        quota: quotas[last],
        used: 0,
    });
    seats
}

/// Joins all seats into the last of them, which keeps a record of each.
pub(crate) fn gather<M: Machine + Drop>(shared: &Shared<M>, mut seats: Vec<Seat<M>>) -> Pass<M>
    requires table { IsTableSized shared.now.table_id }
    requires own { (k : ℕ) (s : _) → get_elem? seats.items k ≡ some s →
        IsOf (gate_of shared.now.table_id shared.now.key) s }
    requires some { 0 < length seats.items }
    ensures own { (result.table_id ≡ shared.now.table_id) ×
        (result.me.0.opening ≡ Some (opening_of shared.now.key)) × (result.me.0.stage ≡ Idle) }
    ensures all { (k : ℕ) (s : _) → get_elem? seats.items k ≡ some s → IsRecorded s result.me.0 }
{
    let Some(last) = seats.pop() else {
        unreachable!()
    };
    let mut first = last.pass;
    while let Some(seat) = seats.pop() {
        shared.join_seat::<Gather>(&mut first, seat.pass);
    }
    first
}
