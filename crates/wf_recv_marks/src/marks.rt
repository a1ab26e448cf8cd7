//! The marks of the open exchanges, in the order of their numbers.

ghost use Rattle.std.specs.Prelude.{◌≡◌, ◌<◌, ◌≤◌, ◌==◌, ◌++◌, ◌∷◌, [], ℕ, not, length, filter, find, option_map, position, remove, Some, IfOk, IfSome, All};
ghost use Rattle.wf_def_lists.specs.Table.{has};
ghost use Rattle.wf_send_parts.specs.declared.exchanges.opened.TheConstants.{MOST_OPEN};

use std::alloc::{AllocError, Global};
use std::marker::Model;
use wf_octets::bits::Bits256;
use wf_octets::seq12::Seq12;
use wf_send_parts::exchanges::MOST_OPEN;

/// The mark of an open exchange.
#[derive(Clone, Copy)]
pub struct Mark {
    /// The number of the exchange.
    pub number: u64,
    /// Which of its transmissions arrived, by index, counted from 0.
    pub arrived: Bits256,
    /// The BlockAck that the station made, if it has answered: its start, and the offsets of the numbers that
    /// arrived (IEEE 802.11-2012, 8.3.1.9).
    pub answer: Option<(Seq12, Bits256)>,
}

impl Mark {
    /// Returns whether the transmission of this index, 0 to 255, arrived.
    pub fn has_arrived(&self, index: u16) -> bool
        requires { index < 256 }
        ensures { result ≡ has self.now.arrived index }
    {
        self.arrived.has(index)
    }

    /// Returns whether any transmission arrived.
    pub fn has_any(&self) -> bool
        ensures { result ≡ not (length self.now.arrived == 0) }
    {
        self.arrived.count() != 0
    }
}

/// At most 32 marks, in the order of the exchanges' numbers. Contracts see them as a list. Only `new`
/// allocates.
#[derive(Drop)]
pub struct Marks {
    list: Vec<Mark>,
}

impl Model for Marks {
    ghost use Rattle.std.specs.Prelude.{List, vec_capacity};
    ghost use Rattle.wf_recv_marks.specs.declared.marks.Mark.{Mark};
    ghost use Rattle.wf_send_parts.specs.Kept.{AreKept};
    ghost use Rattle.wf_recv_marks.specs.Marks.{mark_number};

    ghost Value = { List Mark };

    ghost view = { λ m. m.list.items };

    ghost invariant = { λ m. AreKept mark_number m.list.items (vec_capacity m.list) };
}

impl Marks {
    ghost use Rattle.wf_recv_marks.specs.Marks.{new_mark, with_arrival, with_answer, with_changed};

    /// Creates it without marks. Fails only if memory runs out.
    pub fn new(alloc: Global) -> Result<Marks, AllocError>
        ensures { IfOk result (λ made. made ≡ []) }
    {
        let list = Vec::with_capacity(alloc, MOST_OPEN)?;
        Ok(Marks { list })
    }

    /// Adds a mark for an exchange that opens, of which nothing arrived. Fewer than 32 may be there before,
    /// all with lower numbers.
    pub fn open(&mut self, number: u64)
        requires room { length self.old < MOST_OPEN }
        requires above { All (λ other. other.number < number) self.old }
        ensures { self.new ≡ self.old ++ new_mark number ∷ [] }
    {
        self.list.push_reserved(Mark {
            number,
            arrived: Bits256::empty(),
            answer: None,
        });
    }

    /// Returns the mark of the open exchange with this number. None if it is not open.
    pub fn find(&self, number: u64) -> Option<&Mark>
        ensures { option_map (λ m. m.now) result ≡ find (λ m. m.number == number) self.now }
    {
        self.list.iter().find(|mark| mark.number == number)
    }

    /// Returns the place and the mark of the open exchange with this number. None if it is not open.
    pub fn find_at(&self, number: u64) -> Option<(usize, &Mark)>
        ensures place { option_map (λ found. found.0) result
            ≡ position (λ m. m.number == number) self.now }
        ensures mark { option_map (λ found. found.1.now) result
            ≡ find (λ m. m.number == number) self.now }
        ensures within { IfSome result (λ found. found.0 < length self.now) }
    {
        match self.place_of(number) {
            Some(place) => Some((place, &self.list[place])),
            None => None,
        }
    }

    /// Records that the transmission of this index, 0 to 255, of the open exchange with this number arrived.
    /// Does nothing if it is not open.
    pub fn arrive(&mut self, number: u64, index: u16)
        requires { index < 256 }
        ensures { self.new ≡ with_changed number (with_arrival index) self.old }
    {
        match self.place_of(number) {
            Some(place) => self.list[place].arrived.set(index),
            None => {}
        }
    }

    /// Stores the answer of the station to the open exchange with this number. Does nothing if it is not
    /// open.
    pub fn keep(&mut self, number: u64, start: Seq12, bits: Bits256)
        ensures { self.new ≡ with_changed number (with_answer start bits) self.old }
    {
        match self.place_of(number) {
            Some(place) => self.list[place].answer = Some((start, bits)),
            None => {}
        }
    }

    /// Removes the mark at this place, which `find_at` returned, because its exchange ends.
    pub fn close_at(&mut self, place: usize)
        requires { place < length self.old }
        ensures removed { self.new ≡ remove self.old place }
        ensures closed { (number : ℕ) → position (λ m. m.number == number) self.old ≡ Some place →
            self.new ≡ filter (λ m. not (m.number == number)) self.old }
    {
        let _ = self.list.remove(place);
    }

    /// Returns the number of marks.
    pub fn len(&self) -> u32
        ensures count { result ≡ length self.now }
        ensures most { result ≤ MOST_OPEN }
    {
        self.list.len() as u32
    }

    // Returns the place of the mark with this number.
    fn place_of(&self, number: u64) -> Option<usize>
        ensures { result ≡ position (λ m. m.number == number) self.now }
    {
        self.list.iter().position(|mark| mark.number == number)
    }
}
