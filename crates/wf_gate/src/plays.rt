//! The atomic steps on the gate's table. The ghost members of each say how it changes the view of the seat
//! that makes it.
ghost use Rattle.wf_gate.specs.Turns.{drawn, looked, peeked, tried, served, deal_left, deal_right, joined, spent};

use crate::view::View;
use atomic_table::{Join, Play, Split};
use std::marker::PhantomData;
use wf_machine::Machine;

/// Draws tickets with consecutive numbers.
pub(crate) struct Draw;

impl<M, N> Play<Option<M>, View<M, N>> for Draw {
    ghost then = { drawn };
}

/// Loads the serving word, by a seat with tickets. The seat takes the slot if its first ticket is served.
pub(crate) struct Look<M> {
    machine: PhantomData<M>,
}

impl<M: Machine> Play<Option<M>, View<M, M::Note>> for Look<M> {
    ghost then = { looked M.past M.settings M.calls_left };
}

/// Returns the slot and serves the ticket that follows the seat's tickets.
pub(crate) struct Serve<M> {
    machine: PhantomData<M>,
}

impl<M: Machine> Play<Option<M>, View<M, M::Note>> for Serve<M> {
    ghost then = { served M.past M.settings M.calls_left };
}

/// Loads the serving word, by a seat without a ticket.
pub(crate) struct Peek;

impl<M, N> Play<Option<M>, View<M, N>> for Peek {
    ghost then = { peeked };
}

/// Draws the ticket that the seat has seen served, and takes the slot; or finds that another ticket is the
/// next, and draws none.
pub(crate) struct Try<M> {
    machine: PhantomData<M>,
}

impl<M: Machine> Play<Option<M>, View<M, M::Note>> for Try<M> {
    ghost then = { tried M.past M.settings M.calls_left };
}

/// Splits a new seat off.
pub(crate) struct Deal;

impl<M, N> Split<View<M, N>> for Deal {
    ghost left = { deal_left };

    ghost right = { deal_right };
}

/// Joins a seat into another, which keeps a record of it.
pub(crate) struct Gather;

impl<M, N> Join<View<M, N>> for Gather {
    ghost both = { joined };

    ghost spent = { spent };
}
