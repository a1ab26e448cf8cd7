//! Fills an aggregate.

ghost use Rattle.std.specs.Prelude.{◌≡◌, ◌+◌, ◌<◌, ◌≤◌, ◌^◌, ℕ, IsTrue, IsFalse};
ghost use Rattle.wf_frame.specs.Frames.{FrameValue};
ghost use Rattle.wf_def_lists.specs.Lengths.{greatest_body, greatest_overhead, greatest_protected};
ghost use Rattle.wf_send_parts.specs.Windows.{window_of};
ghost use Rattle.wf_def_world.specs.World.{World};
ghost use Rattle.wf_def_world.specs.Exchanges.{Aggregate as Filled, aggregate_of};
ghost use Rattle.wf_send_half_model.specs.Filling.{IsToFill, IsChoosing, IsFilled};
ghost use Rattle.wf_send_half.specs.Half.{IsLive};
ghost use Rattle.wf_send_half.specs.Pulls.{IsSameButFrames, HasChoosing, AggregateGoesOn, HasFilling};

use crate::half::Half;
use wf_air::fit::AggregateSize;
use wf_frame::{Cause, Fate};
use wf_queue_flows::Taken;
use wf_queue_flows::codel::Params;
use wf_send_parts::exchanges::Numbers;

/// An aggregate that is being filled: its sequence numbers, and its size so far with the limits.
#[derive(Drop)]
pub(crate) struct Aggregate {
    pub(crate) numbers: Numbers,
    pub(crate) size: AggregateSize,
}

// Returns the length of a body with its encryption, in octets.
fn protected(len: u16, overhead: u32) -> u16
    requires body { len ≤ greatest_body }
    requires encryption { overhead ≤ greatest_overhead }
    ensures exact { result ≡ len + overhead }
    ensures least { len ≤ result }
    ensures most { result ≤ greatest_protected }
{
    len + overhead as u16
}

impl Half {
    /// Fills an empty aggregate of at most `most` frames with the numbers that a TID sends next: waiting ones
    /// from the lowest up, and, if all of them fit, those of fresh frames. Each fresh frame gets its number
    /// here; none flies yet. An aggregate is large, so it is filled in place and not returned.
    pub(crate) fn fill(&mut self, station: u16, tid: u8, most: u16, aggregate: &mut Aggregate)
        requires within { station < self.old.config.stations }
        requires tid { tid < 8 }
        requires live { IsLive self.old station }
        requires small { self.old.clock < 2 ^ 62 }
        requires choosing { HasChoosing self.old station tid aggregate.old.size aggregate.old.numbers }
        requires most { aggregate.old.size.limits.frames ≡ most }
        requires few { most ≤ 256 }
        ensures filled { (w : World) (bodies : ℕ → FrameValue) → IsToFill self.old w bodies station tid →
            IsChoosing aggregate.old.size aggregate.old.numbers
            (window_of self.old.windows station tid).start w station tid →
            IsFilled self.new bodies station tid aggregate.new.size aggregate.new.numbers
            (aggregate_of w station tid) }
        ensures same { IsSameButFrames self.old self.new }
    {
        if self.add_waiting(station, tid, aggregate) {
            self.add_fresh(station, tid, most, aggregate);
        }
    }

    // Adds the waiting numbers up to the first that does not fit. Returns true if all fit.
    fn add_waiting(&self, station: u16, tid: u8, aggregate: &mut Aggregate) -> bool
        requires within { station < self.now.config.stations }
        requires tid { tid < 8 }
        requires choosing { HasChoosing self.now station tid aggregate.old.size aggregate.old.numbers }
        requires few { aggregate.old.size.limits.frames ≤ 256 }
        ensures all { IsTrue result → (w : World) (bodies : ℕ → FrameValue) →
            IsToFill self.now w bodies station tid →
            IsChoosing aggregate.old.size aggregate.old.numbers
            (window_of self.now.windows station tid).start w station tid →
            AggregateGoesOn self.now bodies station tid aggregate.new.size aggregate.new.numbers
            (aggregate_of w station tid) }
        ensures some { IsFalse result → (w : World) (bodies : ℕ → FrameValue) →
            IsToFill self.now w bodies station tid →
            IsChoosing aggregate.old.size aggregate.old.numbers
            (window_of self.now.windows station tid).start w station tid →
            IsFilled self.now bodies station tid aggregate.new.size aggregate.new.numbers
            (aggregate_of w station tid) }
        ensures limits { aggregate.new.size.limits ≡ aggregate.old.size.limits }
    {
        let overhead = self.config.overhead;
        let window = self.windows.at(station, tid);
        let mut from = window.start();
        'waiting: while let Some(number) = window.next_waiting(from) {
            let octets = protected(window.frame(number).len(), overhead);
            if !aggregate.size.add(octets) {
                return false;
            }
            aggregate.numbers.push(number);
            from = number.plus(1);
        }
        true
    }

    // Adds fresh frames while the aggregate has fewer than `most`, the TID is not held, the window has room
    // and a frame is queued.
    // Each frame is taken out of its queue and gets the next number; the frames that CoDel drops before it
    // are counted. A frame that does not fit waits with its number.
    fn add_fresh(&mut self, station: u16, tid: u8, most: u16, aggregate: &mut Aggregate)
        requires within { station < self.old.config.stations }
        requires tid { tid < 8 }
        requires live { IsLive self.old station }
        requires small { self.old.clock < 2 ^ 62 }
        requires filling { HasFilling self.old station tid aggregate.old.size aggregate.old.numbers }
        requires most { aggregate.old.size.limits.frames ≡ most }
        requires few { most ≤ 256 }
        ensures filled { (bodies : ℕ → FrameValue) (after : Filled) →
            AggregateGoesOn self.old bodies station tid aggregate.old.size aggregate.old.numbers after →
            IsFilled self.new bodies station tid aggregate.new.size aggregate.new.numbers after }
        ensures same { IsSameButFrames self.old self.new }
    {
        if self.is_held_back(station, tid) {
            return;
        }
        let params = Params::of(self.members.member(station).rate);
        let overhead = self.config.overhead;
        'fresh: while aggregate.numbers.len() < usize::from(most)
            && self.windows.at(station, tid).can_give()
        {
            let Some(taken) = self.flows.take(station, tid, self.clock, params) else {
                return;
            };
            let Taken { parcel, dropped } = taken;
            self.tally.settle_all(Fate::Dropped(Cause::Codel), dropped);
            let len = parcel.frame().len();
            let Ok(number) = self.windows.give(station, tid, parcel) else {
                unreachable!()
            };
            if !aggregate.size.add(protected(len, overhead)) {
                return;
            }
            aggregate.numbers.push(number);
        }
    }
}
