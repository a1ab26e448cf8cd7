//! Accepted frames.

ghost use Rattle.std.specs.Prelude.{◌≡◌, ◌<◌, ◌≤◌, ◌^◌, ℕ, true, length, option_map, Some, IfSome, IfOk, IfErr};
ghost use Rattle.wf_frame.specs.Classes.{class_of};
ghost use Rattle.wf_frame.specs.Frames.{FrameValue, source_octets};
ghost use Rattle.wf_frame.specs.declared.classes.Fate.TheVariants.{Held};
ghost use Rattle.wf_frame.specs.declared.notes.Note.TheVariants.{Enqueue};
ghost use Rattle.wf_frame.specs.declared.notes.ReplyNote.TheVariants.{Accepted, Refused};
ghost use Rattle.wf_def_lists.specs.Lengths.{greatest_body};
ghost use Rattle.wf_def_world.specs.World.{World};
ghost use Rattle.wf_def_world.specs.Refusals.{refusal};
ghost use Rattle.wf_send_parts.specs.Tally.{counts_of, one_accepted};
ghost use Rattle.wf_queue_flows.specs.Flows.{dropped_for_limit, loses_next};
ghost use Rattle.wf_queue_flows_refines.specs.Frames.{with_body};
ghost use Rattle.wf_send_half_model.specs.Half.{is_ready_of};
ghost use Rattle.wf_send_half_model.specs.Changes.{after_enqueue, after_listing_in};
ghost use Rattle.wf_send_half_model.specs.Counting.{with_overlimit};
ghost use Rattle.wf_send_half_model.specs.Standing.{StandsFor, Meets};
ghost use Rattle.wf_send_half.specs.Enqueues.{enqueue_of, as_accepted, queued_in_class_of};
ghost use Rattle.wf_send_half.specs.Half.{HasWorld};
ghost use Rattle.std.specs.Result.{result_err};

use crate::half::Half;
use crate::refuse::refuse_where;
use wf_frame::{Cause, Class, Fate, GREATEST_TID, Refusal};
use wf_queue_flows::Lost;
use wf_queue_parts::chain::Parcel;
use wf_send_parts::stations::Tally;

/// An accepted frame.
#[derive(Clone, Copy)]
pub struct Admission {
    /// Its id.
    pub id: u64,
    /// The id of the frame that was dropped for the limit, if any: the head of the longest queue.
    pub dropped: Option<u64>,
}

/// An accepted frame, with the facts that set the flags.
#[derive(Clone, Copy)]
pub(crate) struct Admitted {
    /// Its id.
    pub(crate) id: u64,
    /// The frame that was dropped for the limit, if any: the head of the longest queue.
    pub(crate) lost: Option<Lost>,
    /// Whether its station is ready now in the class of its TID.
    pub(crate) is_ready: bool,
}

// Marks the frame of a parcel with this id and stamp, as not sent, and held. Like every frame, it has a
// source of six octets and a body of 1 to 2304.
fn marked(mut parcel: Parcel, id: u64, stamp: u64) -> Parcel
    ensures source { length parcel.source ≡ source_octets }
    ensures length { (1 ≤ length parcel.body) × (length parcel.body ≤ greatest_body) }
    ensures marked { result ≡ record parcel { id = id; stamp = stamp; attempts = 0; fate = Held } }
{
    let frame = parcel.frame_mut();
    frame.id = id;
    frame.stamp = stamp;
    frame.attempts = 0;
    frame.fate = Fate::Held;
    parcel
}

// Counts an accepted frame, and the frame that is dropped for the limit, if any.
fn count_accepted(tally: &mut Tally, dropped: Option<Lost>)
    requires { tally.old.accepted < 2 ^ 62 }
    ensures { counts_of tally.new ≡
        with_overlimit (option_map (λ lost. lost.id) dropped) (one_accepted (counts_of tally.old)) }
{
    tally.accepted += 1;
    if dropped.is_some() {
        tally.settle(Fate::Dropped(Cause::Overlimit));
    }
}

impl Half {
    // Accepts a frame, or returns it (`Transmit::enqueue`).
    pub(crate) fn enqueue(&mut self, parcel: Parcel) -> Result<Admitted, (Refusal, Parcel)>
        requires some { HasWorld self.old }
        requires small { self.old.tally.accepted < 2 ^ 62 }
        ensures meets { IfOk result (λ given. (w : World) (bodies : ℕ → FrameValue) →
            StandsFor self.old w bodies →
            Meets w (with_body bodies (as_accepted self.old parcel)) (enqueue_of parcel) self.new
            (Accepted given.id (option_map (λ lost. lost.id) given.lost))) }
        ensures station { IfOk result (λ given.
            IfSome given.lost (λ lost. lost.station < self.old.flows.stations)) }
        ensures tid { IfOk result (λ given. IfSome given.lost (λ lost. lost.tid < 8)) }
        ensures loses { IfOk result (λ given.
            IfSome given.lost (λ lost. loses_next self.old.flows lost.station lost.tid ≡ true)) }
        ensures only { IfOk result (λ given. (s t : ℕ) → t < 8 → loses_next self.old.flows s t ≡ true →
            option_map {U = ℕ × ℕ} (λ lost. (lost.station, lost.tid)) given.lost ≡ Some (s, t)) }
        ensures ready { IfOk result (λ given.
            given.is_ready ≡ is_ready_of self.new (class_of parcel.tid) parcel.station) }
        ensures refuses { IfErr result (λ given. (w : World) (bodies : ℕ → FrameValue) →
            StandsFor self.old w bodies →
            Meets w bodies (enqueue_of parcel) self.new (Refused given.0)) }
        ensures refused { IfErr result (λ _. self.new ≡ self.old) }
        ensures handed_back { IfErr result (λ given. given.1 ≡ parcel) }
    {
        let frame = parcel.frame();
        match self.check_enqueue(frame.station(), frame.tid()) {
            Ok(()) => Ok(self.accept(parcel)),
            Err(reason) => Err((reason, parcel)),
        }
    }

    // Accepts a frame that passed the checks.
    fn accept(&mut self, parcel: Parcel) -> Admitted
        requires within { parcel.station < self.old.config.stations }
        requires tid { parcel.tid < 8 }
        requires room { self.old.inside < self.old.config.room }
        requires small { self.old.tally.accepted < 2 ^ 62 }
        requires some { HasWorld self.old }
        ensures accepted { self.new ≡ after_listing_in
            (after_enqueue self.old (as_accepted self.old parcel)) parcel.station (class_of parcel.tid) }
        ensures source { length parcel.source ≡ source_octets }
        ensures length { (1 ≤ length parcel.body) × (length parcel.body ≤ greatest_body) }
        ensures id { result.id ≡ self.old.tally.accepted }
        ensures dropped { option_map (λ lost. lost.id) result.lost ≡ dropped_for_limit self.old.flows }
        ensures station { IfSome result.lost (λ lost. lost.station < self.old.flows.stations) }
        ensures tid { IfSome result.lost (λ lost. lost.tid < 8) }
        ensures loses { IfSome result.lost (λ lost.
            loses_next self.old.flows lost.station lost.tid ≡ true) }
        ensures only { (s t : ℕ) → t < 8 → loses_next self.old.flows s t ≡ true →
            option_map {U = ℕ × ℕ} (λ lost. (lost.station, lost.tid)) result.lost ≡ Some (s, t) }
        ensures ready { result.is_ready ≡ is_ready_of self.new (class_of parcel.tid) parcel.station }
    {
        let frame = parcel.frame();
        let (station, class) = (frame.station(), Class::of_tid(frame.tid()));
        let id = self.tally.accepted;
        let lost = self.flows.put(marked(parcel, id, self.clock), self.clock);
        self.inside += 1;
        count_accepted(&mut self.tally, lost);
        let is_ready = self.list_in(station, class);
        Admitted { id, lost, is_ready }
    }

    // Checks a frame by its station and its TID.
    fn check_enqueue(&self, station: u16, tid: u8) -> Result<(), Refusal>
        requires some { HasWorld self.now }
        ensures refused { (w : World) (bodies : ℕ → FrameValue) (flow len : ℕ) → StandsFor self.now w bodies →
            result_err result ≡ refusal w (Enqueue station tid flow len) }
        ensures within { IfOk result (λ _. station < self.now.config.stations) }
        ensures tid { IfOk result (λ _. tid < 8) }
        ensures room { IfOk result (λ _. self.now.inside < self.now.config.room) }
    {
        self.in_range(station)?;
        refuse_where(GREATEST_TID < tid, Refusal::BadTid)?;
        self.live(station)?;
        let inside = self.inside;
        refuse_where(self.config.room <= inside, Refusal::Room { inside })?;
        if !self.sleepers.asleep(station) {
            return Ok(());
        }
        let queued = self.queued_in(station, Class::of_tid(tid));
        refuse_where(self.config.sleeping <= queued, Refusal::Sleeping { queued })
    }

    // Returns how many frames are queued for a station in a class.
    fn queued_in(&self, station: u16, class: Class) -> u32
        requires within { station < self.now.config.stations }
        requires some { HasWorld self.now }
        ensures { result ≡ queued_in_class_of self.now station class }
    {
        let [lower, upper] = class.tids();
        self.flows.queued(station, lower) + self.flows.queued(station, upper)
    }
}
