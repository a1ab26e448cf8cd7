//! The reordering of one TID.

ghost use Rattle.std.specs.Prelude.{◌≡◌, ◌+◌, ◌^◌, ◌<◌, ◌≤◌, ◌++◌, ◌⊎◌, ◌==◌, ◌||◌, not, [], length, map, true, false, Some, if◌then◌else◌, IfOk, IfSome};
ghost use Rattle.wf_uplink.specs.Reordering.{new_reordering, unopened, is_none_stored, is_stored, first_number, least_stored, moved_to, with_frame, with_room_for, number_arrived, arrived, requested, timed_out, waits_since_of};
ghost use Rattle.wf_uplink.specs.Shown.{item_of};
ghost use Rattle.wf_uplink.specs.Standing.{frames_from};

use crate::items::{Items, UpItem};
use std::alloc::{AllocError, Global};
use std::marker::Model;
use wf_frame::{GREATEST_WINDOW, Ids};
use wf_octets::seq12::Seq12;
use wf_recv_peer::recipient::Reorder;

/// The greatest distance of a number after B. A number farther away counts as one before B.
const FARTHEST: u64 = 2047;

/// Puts the frames of one TID in the order of their sequence numbers.
///
/// Its sequence numbers are whole numbers; the buffer stores only their low twelve bits.
#[derive(Drop)]
pub(crate) struct Sequencer {
    buffer: Reorder,
    /// B (the standard's WinStartB): the least number that is not passed yet.
    start: u64,
    window: u16,
    /// The clock at which the current wait began, in microseconds, if a frame is stored.
    since: u64,
}

impl Model for Sequencer {
    ghost use Rattle.wf_uplink.specs.Reordering.{Reordering};
    ghost use Rattle.wf_uplink.specs.Standing.{IsBufferFrom, reordering_of_buffer};

    ghost Value = { Reordering };

    ghost view = { λ s. reordering_of_buffer s.start s.window s.since s.buffer };

    ghost invariant = { λ s. IsBufferFrom s.start s.window s.buffer };
}

/// Appends the frames with these ids, whose numbers are consecutive from `start` on. Returns the number after
/// the last one.
fn raise(start: u64, ids: &Ids, items: &mut Items) -> u64
    requires low { start < 2 ^ 63 + 8192 }
    requires room { length items.old + length ids.now ≤ 514 }
    ensures next { result ≡ start + length ids.now }
    ensures items { items.new ≡ items.old ++ map item_of (frames_from start ids.now) }
{
    let mut number = start;
    for i in 0..ids.len() {
        let seq = Seq12::of(number).raw();
        items.push(UpItem::Frame { id: ids.at(i), seq });
        number += 1;
    }
    number
}

impl Sequencer {
    /// Returns an empty reordering: nothing is passed or stored, and the window is the 256 numbers from 0 on.
    pub(crate) fn new(alloc: Global) -> Result<Sequencer, AllocError>
        ensures { IfOk result (λ s. s ≡ unopened) }
    {
        let buffer = Reorder::new(alloc, GREATEST_WINDOW)?;
        Ok(Sequencer {
            buffer,
            start: 0,
            window: GREATEST_WINDOW,
            since: 0,
        })
    }

    /// Resets it to the first number `start`, at most 4095, and a window of 1 to 256 numbers.
    pub(crate) fn reset(&mut self, start: u16, window: u16)
        requires { (start ≤ 4095) × (1 ≤ window) × (window ≤ 256) }
        ensures { self.new ≡ new_reordering start window }
    {
        self.start = u64::from(start);
        self.window = window;
        self.since = 0;
        self.buffer.reset(Seq12::of(self.start), window);
    }

    /// Returns the least number that is stored.
    fn first_stored(&self) -> Option<u64>
        requires { self.now.start < 2 ^ 63 + 8192 }
        ensures number { result ≡ first_number self.now.stored }
        ensures past { IfSome result (λ first. self.now.start < first) }
        ensures near { IfSome result (λ first. first < self.now.start + 256) }
    {
        match self.buffer.first_stored() {
            Some(first) => {
                let ahead = first.ahead(self.buffer.start());
                Some(self.start + u64::from(ahead))
            }
            None => None,
        }
    }

    /// Returns the next number at which B stops on its way to `target`: the least number stored, or the
    /// target.
    fn next_stop(&self, target: u64) -> u64
        requires forward { self.now.start < target }
        requires low { self.now.start < 2 ^ 63 + 8192 }
        ensures forward { self.now.start < result }
        ensures most { result ≤ target }
        ensures first { result ≤ least_stored result self.now.stored }
        ensures which { (result ≡ target) ⊎ (first_number self.now.stored ≡ Some result) }
    {
        match self.first_stored() {
            Some(first) if first < target => first,
            _ => target,
        }
    }

    fn is_empty(&self) -> bool
        ensures { result ≡ is_none_stored self.now.stored }
    {
        self.buffer.first_stored().is_none()
    }

    /// Returns the clock at which the current wait began, if a frame is stored.
    pub(crate) fn waits_since(&self) -> Option<u64>
        ensures { result ≡ waits_since_of self.now }
    {
        if self.is_empty() {
            None
        } else {
            Some(self.since)
        }
    }

    /// Moves B to `next`, below which nothing is stored. Gives up the numbers from B to below `next`, and
    /// releases the frames that are stored from `next` on, up to the first hole.
    fn skip_to(&mut self, next: u64, items: &mut Items)
        requires forward { self.old.start < next }
        requires near { next ≤ self.old.start + 2047 }
        requires low { self.old.start < 2 ^ 63 + 4096 + 2048 }
        requires first { next ≤ least_stored next self.old.stored }
        requires room { length items.old + length (moved_to next self.old).passed ≤ 514 }
        ensures after { self.new ≡ (moved_to next self.old).after }
        ensures items { items.new ≡ items.old ++ map item_of (moved_to next self.old).passed }
    {
        let from = self.buffer.start().raw();
        let count = (next - self.start) as u16;
        items.push(UpItem::Gap { from, count });
        let mut ids = Ids::new();
        self.buffer.bar(Seq12::of(next), &mut ids);
        self.start = raise(next, &ids, items);
    }

    /// Moves B to `target`, and on to the first number from there that is not stored. Releases the stored
    /// frames on the way, and gives up the other numbers, each longest run as one gap.
    fn move_to(&mut self, target: u64, items: &mut Items)
        requires forward { self.old.start < target }
        requires near { target ≤ self.old.start + 2047 }
        requires low { self.old.start < 2 ^ 63 + 4096 }
        requires room { length items.old + length (moved_to target self.old).passed ≤ 514 }
        ensures after { self.new ≡ (moved_to target self.old).after }
        ensures items { items.new ≡ items.old ++ map item_of (moved_to target self.old).passed }
    {
        while self.start < target {
            let next = self.next_stop(target);
            self.skip_to(next, items);
        }
    }

    /// Stores the frame of a number in the window, and releases the frames from B on, up to the first hole.
    /// Returns whether the number was stored already; then nothing changes.
    fn store(&mut self, number: u64, id: u64, items: &mut Items) -> bool
        requires from { self.old.start ≤ number }
        requires within { number < self.old.start + self.old.window }
        requires low { self.old.start < 2 ^ 63 + 8192 }
        requires room { length items.old + length self.old.stored < 514 }
        ensures stored { result ≡ is_stored number self.old.stored }
        ensures after { self.new ≡
            (if result then self.old else (moved_to self.old.start (with_frame number id self.old)).after) }
        ensures items { items.new ≡ items.old ++ map item_of
            (if result then [] else (moved_to self.old.start (with_frame number id self.old)).passed) }
    {
        let mut ids = Ids::new();
        let back = self.buffer.arrive(Seq12::of(number), id, &mut ids);
        self.start = raise(self.start, &ids, items);
        back.is_some()
    }

    /// Moves the window if the number is after it, so that the number is its last.
    fn make_room(&mut self, number: u64, items: &mut Items)
        requires from { self.old.start ≤ number }
        requires near { number ≤ self.old.start + 2047 }
        requires low { self.old.start < 2 ^ 63 + 4096 }
        requires empty { items.old ≡ [] }
        ensures after { self.new ≡ (with_room_for number self.old).after }
        ensures items { items.new ≡ map item_of (with_room_for number self.old).passed }

        // so the number is in the window
        ensures from { self.new.start ≤ number }
        ensures within { number < self.new.start + self.new.window }
        ensures room { length items.new + length self.new.stored < 514 }

        // a number that is stored is in the window already
        ensures same { is_stored number self.new.stored ≡ is_stored number self.old.stored }
        ensures unchanged { is_stored number self.old.stored ≡ true →
            (self.new ≡ self.old) × (items.new ≡ []) }
    {
        let window = u64::from(self.window);
        if number >= self.start + window {
            self.move_to(number + 1 - window, items);
        }
    }

    /// Starts a new wait if B has moved from `first`, or if nothing was stored before.
    fn renew(&mut self, first: u64, was_empty: bool, now: u64)
        ensures { self.new ≡
            (if not (first == self.old.start) || was_empty
            then record self.old { since = now } else self.old) }
    {
        if first != self.start || was_empty {
            self.since = now;
        }
    }

    /// Takes the frame of a number from B on. Returns whether the frame is old.
    fn take(&mut self, number: u64, id: u64, now: u64, items: &mut Items) -> bool
        requires from { self.old.start ≤ number }
        requires near { number ≤ self.old.start + 2047 }
        requires low { self.old.start < 2 ^ 63 + 4096 }
        requires empty { items.old ≡ [] }
        ensures old { result ≡ (number_arrived (Some number) id now self.old).old }
        ensures after { self.new ≡ (number_arrived (Some number) id now self.old).after }
        ensures items { items.new ≡ map item_of (number_arrived (Some number) id now self.old).passed }
    {
        let first = self.start;
        let was_empty = self.is_empty();
        self.make_room(number, items);
        let is_stored = self.store(number, id, items);
        if !is_stored {
            self.renew(first, was_empty, now);
        }
        is_stored
    }

    /// Takes the frame with this id, whose sequence number has these twelve bits. Returns whether the frame
    /// is old.
    pub(crate) fn arrive(&mut self, bits: Seq12, id: u64, now: u64, items: &mut Items) -> bool
        requires low { self.old.start < 2 ^ 63 + 4096 }
        requires empty { items.old ≡ [] }
        ensures old { result ≡ (arrived bits id now self.old).old }
        ensures after { self.new ≡ (arrived bits id now self.old).after }
        ensures items { items.new ≡ map item_of (arrived bits id now self.old).passed }
    {
        let ahead = u64::from(bits.ahead(self.buffer.start()));
        if ahead > FARTHEST {
            return true;
        }
        self.take(self.start + ahead, id, now, items)
    }

    /// Takes a BlockAckReq whose start has these twelve bits: moves B to it, and on to the first number from
    /// there that is not stored, if the start is past B.
    pub(crate) fn ask(&mut self, bits: Seq12, now: u64, items: &mut Items)
        requires low { self.old.start < 2 ^ 63 + 4096 }
        requires empty { items.old ≡ [] }
        ensures after { self.new ≡ (requested bits now self.old).after }
        ensures items { items.new ≡ map item_of (requested bits now self.old).passed }
    {
        let before = self.start;
        let ahead = u64::from(bits.ahead(self.buffer.start()));
        if ahead >= 1 && ahead <= FARTHEST {
            self.move_to(before + ahead, items);
            self.renew(before, false, now);
        }
    }

    /// Gives up the hole at B: moves B to the least number stored, and on to the first hole from there.
    pub(crate) fn time_out(&mut self, now: u64, items: &mut Items)
        requires low { self.old.start < 2 ^ 63 + 4096 }
        requires some { is_none_stored self.old.stored ≡ false }
        requires empty { items.old ≡ [] }
        ensures after { self.new ≡ (timed_out now self.old).after }
        ensures items { items.new ≡ map item_of (timed_out now self.old).passed }
    {
        let before = self.start;
        if let Some(first) = self.first_stored() {
            self.move_to(first, items);
            self.renew(before, false, now);
        }
    }
}
