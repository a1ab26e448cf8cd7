//! The recipient's reordering buffer, which passes frames up in the order of their numbers (IEEE 802.11-2012,
//! 9.21.7.6). It accepts every sequence of numbers, also with jumps.

ghost use Rattle.std.specs.Prelude.{◌≡◌, true, ◌+◌, ◌≤◌, ◌<◌, ◌++◌, ◌∷◌, [], length, take, drop, replicate, IfOk, MatchOption, None, slice_index_or, is_some};
ghost use Rattle.wf_recv_peer.specs.Buffer.{items_of, run_of, empty_buffer, first_stored, first_stored_of, with_stored_item, items_below, with_start_moved, release_outcome, store_outcome, jump_outcome, number_outcome, request_outcome, ended_buffer, HasOneMore};

use std::alloc::{AllocError, Global};
use std::collections::VecDeque;
use std::marker::Model;
use wf_frame::Ids;
use wf_octets::seq12::Seq12;

/// A window of numbers from a start on, with the stored item of each.
#[derive(Drop)]
struct Slots {
    start: Seq12,
    size: u16,
    ring: VecDeque<Option<u64>>,
    /// The number of stored items.
    stored: u16,
}

impl Model for Slots {
    ghost use Rattle.std.specs.Prelude.{◌≡◌, ◌≤◌, length};
    ghost use Rattle.std.specs.VecDeque.{deque_capacity, deque_len};
    ghost use Rattle.wf_recv_peer.specs.Buffer.{Buffer, items_of};

    ghost Value = { Buffer };

    ghost view = { λ s. record {
      capacity = deque_capacity s.ring;
      start = s.start;
      size = s.size;
      places = s.ring.items;
    } };

    ghost invariant = { λ s. (1 ≤ s.size) × (s.size ≤ 256) × (deque_len s.ring ≡ s.size) ×
        (length s.ring.items ≡ s.size) × (s.size ≤ deque_capacity s.ring) × (deque_capacity s.ring ≤ 256) ×
        (s.stored ≡ length (items_of s.ring.items)) };
}

impl Slots {
    #[tactic(auto, using(crate::proofs::Places::stored_none))]
    fn new(alloc: Global, capacity: u16) -> Result<Slots, AllocError>
        requires { (1 ≤ capacity) × (capacity ≤ 256) }
        ensures { IfOk result (λ s. s ≡ empty_buffer capacity 0 capacity) }
    {
        let mut ring = VecDeque::with_capacity(alloc, usize::from(capacity))?;
        for _ in 0..capacity {
            ring.push_back_reserved(None);
        }
        Ok(Slots {
            start: Seq12::of(0),
            size: capacity,
            ring,
            stored: 0,
        })
    }

    /// Sets the start and makes `size` places, all empty. If there are exactly these already, none is
    /// written.
    fn reset(&mut self, start: Seq12, size: u16)
        requires { (1 ≤ size) × (size ≤ self.old.capacity) }
        ensures { self.new ≡ empty_buffer self.old.capacity start size }
    {
        self.start = start;
        if !self.has_empty(size) {
            self.clear(size);
        }
    }

    /// Returns true only if there are exactly `size` places, all empty.
    #[tactic(auto, using(crate::proofs::Places::none_stored))]
    fn has_empty(&self, size: u16) -> bool
        ensures { result ≡ true → self.now ≡ empty_buffer self.now.capacity self.now.start size }
    {
        self.stored == 0 && self.size == size
    }

    /// Makes `size` places, all empty.
    #[tactic(auto, using(crate::proofs::Places::stored_none))]
    fn clear(&mut self, size: u16)
        requires { (1 ≤ size) × (size ≤ self.old.capacity) }
        ensures { self.new ≡ empty_buffer self.old.capacity self.old.start size }
    {
        self.ring.clear();
        for _ in 0..size {
            self.ring.push_back_reserved(None);
        }
        self.size = size;
        self.stored = 0;
    }

    fn start(&self) -> Seq12
        ensures { result ≡ self.now.start }
    {
        self.start
    }

    fn size(&self) -> u16
        ensures size { result ≡ self.now.size }
        ensures places { result ≡ length self.now.places }
        ensures least { 1 ≤ result }
        ensures most { result ≤ 256 }
    {
        self.size
    }

    fn holds(&self, place: u16) -> bool
        requires { place < self.now.size }
        ensures { result ≡ is_some (slice_index_or self.now.places place None) }
    {
        self.ring[usize::from(place)].is_some()
    }

    #[tactic(auto, using(crate::proofs::Places::items_few))]
    fn store(&mut self, place: u16, item: u64)
        requires { place < self.old.size }
        ensures { self.new ≡ with_stored_item place item self.old }
    {
        let is_more = !self.holds(place);
        self.ring[usize::from(place)] = Some(item);
        if is_more {
            self.stored += 1;
        }
    }

    /// Removes the first place, adds an empty one at the end, and returns the item of the first. The start is
    /// unchanged.
    #[tactic(auto, using(crate::proofs::Places::stored_fewer, crate::proofs::Places::stored_left))]
    fn turn(&mut self) -> Option<u64>
        ensures slots { self.new ≡ record self.old { places = drop 1 self.old.places ++ None ∷ [] } }
        ensures first { result ≡ slice_index_or self.old.places 0 None }
    {
        let first = self.ring.pop_front().flatten();
        self.ring.push_back_reserved(None);
        if first.is_some() {
            self.stored -= 1;
        }
        first
    }

    /// Turns `places` times and passes the items up.
    fn turn_all(&mut self, places: u16, up: &mut Ids)
        requires { (places ≤ length self.old.places) ×
            (length up.old + length (items_of (take places self.old.places)) ≤ 256) }
        ensures slots { self.new ≡ record self.old {
          places = drop places self.old.places
              ++ replicate places None;
        } }
        ensures up { up.new ≡ up.old ++ items_of (take places self.old.places) }
    {
        for _ in 0..places {
            match self.turn() {
                Some(item) => up.push(item),
                None => {}
            }
        }
    }

    /// Moves the start on by `numbers`, and passes up the items below it.
    #[tactic(auto, using(crate::proofs::Places::take_least, crate::proofs::Places::drop_least))]
    fn move_on(&mut self, numbers: u16, up: &mut Ids)
        requires { length up.old + length (items_below numbers self.old) ≤ 256 }
        ensures slots { self.new ≡ with_start_moved numbers self.old }
        ensures up { up.new ≡ up.old ++ items_below numbers self.old }
    {
        self.turn_all(numbers.min(self.size), up);
        self.start = self.start.plus(numbers);
    }

    /// Returns how many numbers from the start on are stored without a gap.
    #[tactic(auto, using(crate::proofs::Places::run_goes_on, crate::proofs::Places::run_stops, crate::proofs::Places::run_ends))]
    fn run(&self) -> u16
        ensures { result ≡ run_of self.now.places }
    {
        let size = self.size();
        for place in 0..size {
            if !self.holds(place) {
                return place;
            }
        }
        size
    }

    /// Returns how far past the start the first stored number is.
    #[tactic(auto, using(crate::proofs::Places::first_goes_on, crate::proofs::Places::first_found, crate::proofs::Places::first_missing, crate::proofs::Places::first_from_0))]
    fn first(&self) -> Option<u16>
        ensures { result ≡ first_stored self.now.places }
    {
        for place in 0..self.size() {
            if self.holds(place) {
                return Some(place);
            }
        }
        None
    }

    /// Passes up the items from the start on without a gap, and moves the start past them.
    fn release(&mut self, up: &mut Ids)
        requires { length up.old + length (items_below (run_of self.old.places) self.old) ≤ 256 }
        ensures slots { self.new ≡ (release_outcome up.old self.old).after }
        ensures up { up.new ≡ (release_outcome up.old self.old).up }
    {
        let run = self.run();
        self.move_on(run, up);
    }
}

/// The reordering buffer of one agreement: a window of at most 256 numbers from a start on, and their stored
/// items.
#[derive(Drop)]
pub struct Reorder {
    slots: Slots,
}

impl Model for Reorder {
    ghost use Rattle.wf_recv_peer.specs.Buffer.{Buffer, NothingAtStart};

    ghost Value = { Buffer };

    ghost view = { λ r. r.slots };

    ghost invariant = { λ r. NothingAtStart r.slots };
}

impl Reorder {
    /// Creates a buffer for windows of at most `capacity` numbers, 1 to 256. Its window is of `capacity`
    /// numbers from 0 on, and it has no items.
    ///
    /// Fails only if memory runs out; no other call allocates.
    pub fn new(alloc: Global, capacity: u16) -> Result<Reorder, AllocError>
        requires { (1 ≤ capacity) × (capacity ≤ 256) }
        ensures { IfOk result (λ r. r ≡ empty_buffer capacity 0 capacity) }
    {
        let slots = Slots::new(alloc, capacity)?;
        Ok(Reorder { slots })
    }

    /// Begins a new agreement with first number `start` and a window of `size`, 1 to the capacity. Stored
    /// items are dropped.
    pub fn reset(&mut self, start: Seq12, size: u16)
        requires { (1 ≤ size) × (size ≤ self.old.capacity) }
        ensures { self.new ≡ empty_buffer self.old.capacity start size }
    {
        self.slots.reset(start, size);
    }

    /// Handles a number that arrived, with its item. `up` must be empty, and gets the items that the buffer
    /// passes up, in the order of their numbers. Returns the item if, and only if, it is discarded because
    /// its number is already stored or is before the window.
    pub fn arrive(&mut self, seq: Seq12, item: u64, up: &mut Ids) -> Option<u64>
        requires { up.old ≡ [] }
        ensures up { up.new ≡ (number_outcome seq item self.old).up }
        ensures back { result ≡ (number_outcome seq item self.old).back }
        ensures after { self.new ≡ (number_outcome seq item self.old).after }

        // each item exactly once: if the new item is not returned, the items that are passed up and stored
        // are those that were stored before, and the new one
        ensures each_once { MatchOption result (HasOneMore item (items_of self.old.places)
            (up.new ++ items_of self.new.places))
            (λ back. (back ≡ item) × (up.new ≡ []) × (self.new ≡ self.old)) }
    {
        let start = self.slots.start();
        let size = self.slots.size();
        let ahead = seq.ahead(start);
        if seq.in_window(start, size) {
            self.store(ahead, item, up)
        } else if seq.is_newer(start) {
            self.jump(ahead + 1 - size, item, up);
            None
        } else {
            Some(item)
        }
    }

    /// Handles the start of a BlockAckReq that arrived. `up` must be empty, and gets the items that the
    /// buffer passes up, in the order of their numbers.
    pub fn bar(&mut self, start: Seq12, up: &mut Ids)
        requires { up.old ≡ [] }
        ensures up { up.new ≡ (request_outcome start self.old).up }
        ensures after { self.new ≡ (request_outcome start self.old).after }

        // each item exactly once
        ensures each_once { up.new ++ items_of self.new.places ≡ items_of self.old.places }
    {
        let old = self.slots.start();
        if start.is_newer(old) {
            self.slots.move_on(start.ahead(old), up);
            self.slots.release(up);
        }
    }

    /// Ends the agreement: all stored items go up, in the order of their numbers. `up` must be empty. The
    /// window moves past them, and nothing is stored.
    pub fn end(&mut self, up: &mut Ids)
        requires { up.old ≡ [] }
        ensures up { up.new ≡ items_of self.old.places }
        ensures after { self.new ≡ ended_buffer self.old }
    {
        let size = self.slots.size();
        self.slots.move_on(size, up);
    }

    /// Returns the first number of the window.
    pub fn start(&self) -> Seq12
        ensures { result ≡ self.now.start }
    {
        self.slots.start()
    }

    /// Returns the size of the window, 1 to 256.
    pub fn size(&self) -> u16
        ensures size { result ≡ self.now.size }
        ensures least { 1 ≤ result }
        ensures most { result ≤ 256 }
    {
        self.slots.size()
    }

    /// Returns the first stored number from the start on. None if none is stored.
    pub fn first_stored(&self) -> Option<Seq12>
        ensures { result ≡ first_stored_of self.now }
    {
        let place = self.slots.first()?;
        Some(self.slots.start().plus(place))
    }

    /// Handles a number of the window.
    fn store(&mut self, place: u16, item: u64, up: &mut Ids) -> Option<u64>
        requires place { place < self.old.size }
        requires empty { up.old ≡ [] }
        ensures up { up.new ≡ (store_outcome place item self.old).up }
        ensures back { result ≡ (store_outcome place item self.old).back }
        ensures after { self.new ≡ (store_outcome place item self.old).after }
        ensures each_once { MatchOption result (HasOneMore item (items_of self.old.places)
            (up.new ++ items_of self.new.places))
            (λ back. (back ≡ item) × (up.new ≡ []) × (self.new ≡ self.old)) }
    {
        if self.slots.holds(place) {
            return Some(item);
        }
        self.slots.store(place, item);
        self.slots.release(up);
        None
    }

    /// Handles a number that is `past` numbers past the end of the window.
    fn jump(&mut self, past: u16, item: u64, up: &mut Ids)
        requires past { 1 ≤ past }
        requires empty { up.old ≡ [] }
        ensures up { up.new ≡ (jump_outcome past item self.old).up }
        ensures after { self.new ≡ (jump_outcome past item self.old).after }
        ensures each_once { HasOneMore item (items_of self.old.places) (up.new ++ items_of self.new.places) }
    {
        self.slots.move_on(past, up);
        let last = self.slots.size() - 1;
        self.slots.store(last, item);
        self.slots.release(up);
    }
}
