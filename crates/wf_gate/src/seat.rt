//! The seats of a gate.
ghost use Rattle.std.specs.Prelude.{◌≡◌, ◌≤◌, length};

use crate::view::View;
use std::marker::Model;
use wf_machine::Machine;

/// A seat of a gate, with which one caller makes its calls; usually written `Seat<M>`. Contracts see it as a
/// `SeatView`: its number, its quota, the entries of the history that it has seen, and its own calls.
#[derive(Drop)]
pub struct SeatOf<S, N> {
    pub(crate) pass: atomic_table::Seat<Option<S>, View<S, N>>,
    pub(crate) number: u32,
    pub(crate) quota: u32,
    pub(crate) used: u32,
}

impl<S, N> Model for SeatOf<S, N> {
    ghost use Rattle.wf_gate.specs.Seats.{SeatView, view_of, IsAtGate};

    ghost Value = { SeatView S N };

    ghost view = { λ s. view_of s.number s.quota s.used s.pass };

    ghost invariant = { λ s. IsAtGate s.number s.quota s.used s.pass };
}

/// A seat of a gate in front of the machine `M`.
pub type Seat<M> = SeatOf<M, <M as Machine>::Note>;

impl<S, N> SeatOf<S, N> {
    /// Returns the seat's number: its index in the list that `Gate::new` returned.
    pub fn number(&self) -> u32
        ensures number { result ≡ self.now.number }
    {
        self.number
    }

    /// Returns how many calls the seat may make in all.
    pub fn quota(&self) -> u32
        ensures quota { result ≡ self.now.quota }
    {
        self.quota
    }

    /// Returns how many calls the seat has made.
    pub fn used(&self) -> u32
        ensures used { result ≡ self.now.used }
        ensures own { result ≡ length self.now.own }
        ensures within { result ≤ self.now.quota }
    {
        self.used
    }
}
