//! The slots of a window, from the first unsettled number on.

ghost use Rattle.std.specs.Prelude.{◌≡◌, ◌+◌, ◌<◌, ◌≤◌, [], ◌∷◌, ◌++◌, length, drop, IfOk, slice_set, slice_index_or};

use crate::window::place::{Place, is_waiting};
use std::alloc::{AllocError, Global};
use std::collections::VecDeque;
use std::marker::Model;
use std::mem::replace;

/// At most 256 slots in a ring, and how many of them wait. None is an acknowledged number. Only `new`
/// allocates.
#[derive(Drop)]
pub(crate) struct Ring {
    slots: VecDeque<Option<Place>>,
    /// How many slots wait. Only the methods of `Ring` change it.
    pub(crate) waiting: usize,
}

impl Model for Ring {
    ghost use Rattle.std.specs.VecDeque.{deque_capacity};
    ghost use Rattle.wf_send_parts.specs.Ring.{RingValue, RingIsCounted};

    ghost Value = { RingValue };

    ghost view = { λ r. record { capacity = deque_capacity r.slots; items = r.slots.items } };

    ghost invariant = { λ r. RingIsCounted (deque_capacity r.slots) r.slots.items r.waiting };
}

impl Ring {
    pub(crate) fn new(alloc: Global, capacity: u16) -> Result<Ring, AllocError>
        requires { capacity ≤ 256 }
        ensures { IfOk result (λ r. r ≡ record { capacity = capacity; items = [] }) }
    {
        let slots = VecDeque::with_capacity(alloc, usize::from(capacity))?;
        Ok(Ring { slots, waiting: 0 })
    }

    pub(crate) fn len(&self) -> usize
        ensures number { result ≡ length self.now.items }
        ensures fits { result ≤ self.now.capacity }
        ensures bound { self.now.capacity ≤ 256 }
    {
        self.slots.len()
    }

    pub(crate) fn at(&self, i: usize) -> &Option<Place>
        requires { i < length self.now.items }
        ensures { result.now ≡ slice_index_or self.now.items i None }
    {
        &self.slots[i]
    }

    // Replaces item i and returns the old one.
    pub(crate) fn replace(&mut self, i: usize, item: Option<Place>) -> Option<Place>
        requires { i < length self.old.items }
        ensures found { result ≡ slice_index_or self.old.items i None }
        ensures changed { self.new ≡ record self.old { items = slice_set self.old.items i item } }
    {
        let after = self.waiting + usize::from(is_waiting(&item));
        let before = replace(&mut self.slots[i], item);
        self.waiting = after - usize::from(is_waiting(&before));
        before
    }

    pub(crate) fn push_back(&mut self, item: Option<Place>)
        requires { length self.old.items < self.old.capacity }
        ensures { self.new ≡ record self.old { items = self.old.items ++ item ∷ [] } }
    {
        self.waiting += usize::from(is_waiting(&item));
        self.slots.push_back_reserved(item);
    }

    // Drops the first item.
    pub(crate) fn drop_front(&mut self)
        requires { 0 < length self.old.items }
        ensures { self.new ≡ record self.old { items = drop 1 self.old.items } }
    {
        if let Some(item) = self.slots.pop_front() {
            self.waiting -= usize::from(is_waiting(&item));
        }
    }
}
