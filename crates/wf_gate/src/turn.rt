//! The steps of one turn.
ghost use Rattle.std.specs.Prelude.{◌≡◌, ◌≢◌, ◌+◌, ◌<◌, ◌≤◌, [], ◌∷◌, ◌++◌, length, map, vec_capacity};
ghost use Rattle.wf_gate.specs.declared.view.Stage.TheVariants.{Idle, Waits};
ghost use Rattle.wf_gate.specs.Turns.{opening_of, entries_by, waiting, after_turn, in_vain};
ghost use Rattle.wf_gate.specs.Passes.{IsTableSized, IsPassOf, MayDraw, HasTurn, AtTurn};
ghost use Rattle.wf_gate.specs.Seats.{AreRight};

use crate::plays::{Draw, Look, Peek, Serve, Try};
use crate::view::{MACHINE, Pass, SERVING, Shared, TICKET};
use std::collections::VecDeque;
use std::sync::Wait;
use std::{hint, thread};
use wf_machine::Machine;

/// How often a seat that waits looks again without yielding; after that, it yields its processor before each
/// further look.
const LOOKS: u32 = 128;

/// Tickets with consecutive numbers.
#[derive(Clone, Copy)]
pub(crate) struct Tickets {
    /// The first of them.
    pub(crate) first: u64,
    /// How many they are, at least 1.
    pub(crate) count: u64,
}

/// Draws the next `count` tickets, at least one.
pub(crate) fn draw<M: Machine + Drop>(shared: &Shared<M>, pass: &mut Pass<M>, count: u64) -> Tickets
    requires table { IsTableSized shared.now.table_id }
    requires own { IsPassOf shared.now.table_id (opening_of shared.now.key) pass.old }
    requires idle { (pass.old.me.0.stage ≡ Idle) × (pass.old.me.1 ≡ []) }
    requires some { 0 < count }
    requires left { MayDraw (opening_of shared.now.key) pass.old.me.0.face count }
    ensures pass { (pass.new.table_id ≡ pass.old.table_id) × (pass.new.id ≡ pass.old.id) ×
        (pass.new.me ≡ (waiting pass.old.me.0 result.first count, [])) }
    ensures count { result.count ≡ count }
{
    let first = shared.fetch_add::<Draw>(pass, TICKET, count);
    Tickets { first, count }
}

/// Pauses after a look at which the first ticket was not served, and returns the new number of looks, at most
/// `LOOKS`. A seat yields after that many, so that it does not keep a processor from the seat that is served
/// if there are more threads than processors.
fn pause(looks: u32) -> u32 {
    if looks < LOOKS {
        hint::spin_loop();
        return looks + 1;
    }
    thread::yield_now();
    looks
}

/// Waits until the first of these tickets is served, and takes the slot.
pub(crate) fn wait<M: Machine + Drop, R: Wait>(
    rt: &R,
    shared: &Shared<M>,
    pass: &mut Pass<M>,
    tickets: Tickets,
)
    requires table { IsTableSized shared.now.table_id }
    requires own { IsPassOf shared.now.table_id (opening_of shared.now.key) pass.old }
    requires waits { (pass.old.me.0.stage ≡ Waits tickets.first tickets.count) × (pass.old.me.1 ≡ []) }
    ensures { (pass.new.table_id ≡ pass.old.table_id) × (pass.new.id ≡ pass.old.id) ×
        HasTurn M.past M.settings M.calls_left (opening_of shared.now.key) tickets.first
        tickets.count pass.old.me.0 pass.new.me }
{
    let mut looks = 0;
    for _ in rt.forever() {
        let serving = shared.load::<Look<M>>(pass, SERVING);
        if serving == tickets.first {
            return;
        }
        looks = pause(looks);
    }
}

/// Loads the ticket that is served and tries to draw it. Returns that ticket and the next one that the
/// exchange found; if they are equal, the seat has its turn.
pub(crate) fn attempt<M: Machine + Drop>(shared: &Shared<M>, pass: &mut Pass<M>) -> (u64, u64)
    requires table { IsTableSized shared.now.table_id }
    requires own { IsPassOf shared.now.table_id (opening_of shared.now.key) pass.old }
    requires idle { (pass.old.me.0.stage ≡ Idle) × (pass.old.me.1 ≡ []) }
    requires left { MayDraw (opening_of shared.now.key) pass.old.me.0.face 1 }
    ensures same { (pass.new.table_id ≡ pass.old.table_id) × (pass.new.id ≡ pass.old.id) ×
        (length pass.old.me.0.face.seen ≤ result.0) }
    ensures turn { result.1 ≡ result.0 → HasTurn M.past M.settings M.calls_left
        (opening_of shared.now.key) result.0 1 pass.old.me.0 pass.new.me }
    ensures vain { result.1 ≢ result.0 → (pass.new.me ≡ (in_vain pass.old.me.0 result.0 result.1, [])) ×
        (result.0 < result.1) }
{
    let serving = shared.load::<Peek>(pass, SERVING);
    let ticket = shared.compare_exchange::<Try<M>>(pass, TICKET, serving, serving + 1);
    (serving, ticket)
}

/// Makes one step of the machine in the table's slot, and serves the next ticket. The seat must have its
/// turn, with one ticket.
pub(crate) fn serve<M: Machine + Drop>(
    shared: &Shared<M>,
    pass: &mut Pass<M>,
    number: u32,
    call: M::Call,
) -> M::Reply
    requires table { IsTableSized shared.now.table_id }
    requires own { IsPassOf shared.now.table_id (opening_of shared.now.key) pass.old }
    requires turn { AtTurn M.past M.settings M.calls_left (opening_of shared.now.key) 1 pass.old.me }
    requires number { number ≡ pass.old.me.0.face.number }
    ensures seat { (pass.new.table_id ≡ pass.old.table_id) × (pass.new.id ≡ pass.old.id) ×
        (pass.new.me ≡ (after_turn pass.old.me.0 number (M.note call ∷ []), [])) }
    ensures reply { let o = opening_of shared.now.key in
        M.right (M.settings o.machine) (M.past o.machine ++ pass.old.me.0.face.seen) number call result }
{
    let Some(machine) = pass.slot_mut(shared, MACHINE) else {
        unreachable!()
    };
    let reply = machine.step(number, call);
    shared.fetch_add::<Serve<M>>(pass, SERVING, 1);
    reply
}

/// Makes a step of the machine in the table's slot for each call, and serves the ticket after those of the
/// seat. The seat must have its turn, with a ticket for each call.
pub(crate) fn serve_all<M: Machine + Drop>(
    shared: &Shared<M>,
    pass: &mut Pass<M>,
    number: u32,
    calls: &mut VecDeque<M::Call>,
    replies: &mut Vec<M::Reply>,
)
    requires table { IsTableSized shared.now.table_id }
    requires own { IsPassOf shared.now.table_id (opening_of shared.now.key) pass.old }
    requires turn { AtTurn M.past M.settings M.calls_left (opening_of shared.now.key)
        (length calls.old.items) pass.old.me }
    requires number { number ≡ pass.old.me.0.face.number }
    requires empty { replies.old.items ≡ [] }
    requires space { length calls.old.items ≤ vec_capacity replies.old }
    ensures seat { (pass.new.table_id ≡ pass.old.table_id) × (pass.new.id ≡ pass.old.id) ×
        (pass.new.me ≡ (after_turn pass.old.me.0 number (map M.note calls.old.items), [])) }
    ensures made { calls.new.items ≡ [] }
    ensures replies { let o = opening_of shared.now.key in AreRight M.note M.right (M.settings o.machine)
        (M.past o.machine ++ pass.old.me.0.face.seen) number calls.old.items replies.new.items }
{
    let count = calls.len() as u64;
    let Some(machine) = pass.slot_mut(shared, MACHINE) else {
        unreachable!()
    };
    step_all(machine, number, calls, replies);
    shared.fetch_add::<Serve<M>>(pass, SERVING, count);
}

/// Makes one step for each call, and appends its reply.
fn step_all<M: Machine + Drop>(
    machine: &mut M,
    number: u32,
    calls: &mut VecDeque<M::Call>,
    replies: &mut Vec<M::Reply>,
)
    requires room { length calls.old.items ≤ M.calls_left machine.old }
    requires empty { replies.old.items ≡ [] }
    requires space { length calls.old.items ≤ vec_capacity replies.old }
    ensures past { M.past machine.new ≡ M.past machine.old ++ entries_by number
        (map M.note calls.old.items) }
    ensures left { M.calls_left machine.new + length calls.old.items ≡ M.calls_left machine.old }
    ensures settings { M.settings machine.new ≡ M.settings machine.old }
    ensures made { calls.new.items ≡ [] }
    ensures replies { AreRight M.note M.right (M.settings machine.old) (M.past machine.old) number
        calls.old.items replies.new.items }
{
    while let Some(call) = calls.pop_front() {
        replies.push_reserved(machine.step(number, call));
    }
}
