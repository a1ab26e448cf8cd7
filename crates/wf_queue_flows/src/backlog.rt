//! Numbered queues of parcels, each with a CoDel state, and the list of the finished parcels.

ghost use Rattle.std.specs.Prelude.{◌≡◌, ◌+◌, ◌^◌, true, drop, ◌<◌, ◌≤◌, ◌↔◌, [], ◌∷◌, ◌++◌, Some, length, replicate, is_some, if◌then◌else◌, IfOk, IfNone, IfSome, IsNone, MatchOption};
ghost use Rattle.wf_def_codel.specs.Codel.{new_codel, renewed};
ghost use Rattle.wf_queue_flows.specs.Backlog.{frames_at, queue_octets, codel_at, in_queues, held_in_backlog, spare_of, first_id, frame_with_fate, with_frames, backlog_when_listed, after_head_drop, after_emptying, unchanged, IsLongest};
ghost use Rattle.std.specs.List.{list_any};
ghost use Rattle.wf_frame.specs.declared.classes.Cause.TheVariants.{Left};
ghost use Rattle.wf_queue_flows.specs.Flows.{longest_queue, is_of_queue};

use crate::codel::Codel;
use std::alloc::{AllocError, Global};
use std::marker::Model;
use wf_frame::{Cause, Fate};
use wf_queue_parts::chain::{Chain, Parcel};
use wf_queue_parts::peak::lazy::LazyPeak;

/// Numbered queues of parcels, each with a CoDel state, and the list of the finished parcels. Together they
/// hold at most `room` parcels. Only `new` allocates.
#[derive(Drop)]
pub struct Backlog {
    queues: Vec<Chain>,
    /// For each queue the sum of the body lengths of its frames, in octets.
    pub(crate) octets: LazyPeak,
    /// Whether each queue has frames.
    pub(crate) ready: Vec<bool>,
    pub(crate) codels: Vec<Codel>,
    finished: Chain,
    /// The number of parcels in the queues.
    pub(crate) queued: u32,
    room: u32,
}

/// A parcel that was taken out of a queue.
#[derive(Drop)]
pub struct Taken {
    pub parcel: Parcel,
    /// The number of parcels before it that CoDel dropped.
    pub dropped: u32,
}

impl Model for Backlog {
    ghost use Rattle.wf_queue_flows.specs.Backlog.{BacklogValue, IsBacklogKept};

    ghost Value = { BacklogValue };

    ghost view = { λ b. record {
      room = b.room;
      queues = b.queues.items;
      codels = b.codels.items;
      finished = b.finished;
    } };

    ghost invariant = { λ b. IsBacklogKept
        (record {
          room = b.room;
          queues = b.queues.items;
          codels = b.codels.items;
          finished = b.finished;
        }) b.octets b.ready.items b.queued };
}

/// Returns the parcel with this fate of its frame.
pub(crate) fn settle(mut parcel: Parcel, fate: Fate) -> Parcel
    ensures { result ≡ frame_with_fate fate parcel }
{
    parcel.frame_mut().fate = fate;
    parcel
}

/// Returns whether a chain has a frame of flow queue `q` after its first `skip` frames, if there are `flows`
/// flow queues. Each parcel goes from the front to the end, so the chain ends as it began.
fn holds_flow(chain: &mut Chain, skip: u32, flows: u32, q: u32) -> bool
    requires { 1 ≤ flows }
    ensures found { result ≡ list_any (is_of_queue flows q) (drop skip chain.old) }
    ensures same { chain.new ≡ chain.old }
{
    let mut found = false;
    for place in 0..chain.len() {
        let parcel = chain.pop_front().unwrap();
        let here = parcel.frame().flow() % flows == q;
        found |= (place >= skip) & here;
        chain.push_back(parcel);
    }
    found
}

/// Returns `queues` empty chains. Fails if there is no memory.
fn empty_queues(alloc: Global, queues: u32) -> Result<Vec<Chain>, AllocError>
    ensures { IfOk result (λ made. made.items ≡ replicate queues []) }
{
    let mut made = Vec::with_capacity(alloc, queues as usize)?;
    for _ in 0..queues {
        made.push_reserved(Chain::new());
    }
    Ok(made)
}

impl Backlog {
    /// Creates 1 to 65,536 empty queues, numbered from 0, with new CoDel states and no finished parcel. Fails
    /// if there is no memory.
    pub fn new(alloc: Global, queues: u32, room: u32) -> Result<Backlog, AllocError>
        requires some { 1 ≤ queues }
        requires small { queues ≤ 65536 }
        ensures { IfOk result (λ b. b ≡ record {
          room = room;
          queues = replicate queues [];
          codels = replicate queues new_codel;
          finished = [];
        }) }
    {
        let count = queues as usize;
        let octets = LazyPeak::new(alloc, queues)?;
        let ready = vec![in alloc; false; count]?;
        let codels = vec![in alloc; Codel::new(); count]?;
        let queues = empty_queues(alloc, queues)?;
        Ok(Backlog {
            queues,
            octets,
            ready,
            codels,
            finished: Chain::new(),
            queued: 0,
            room,
        })
    }

    /// Puts a parcel last in a queue.
    pub fn push(&mut self, q: u32, parcel: Parcel)
        requires queue { q < length self.old.queues }
        requires room { held_in_backlog self.old < self.old.room }
        ensures pushed { self.new ≡ with_frames self.old q (frames_at self.old q ++ parcel ∷ []) }
        ensures held { held_in_backlog self.new ≡ held_in_backlog self.old + 1 }
    {
        let at = q as usize;
        let octets = self.octets.value(q) + u64::from(parcel.frame().len());
        self.queues[at].push_back(parcel);
        self.ready[at] = true;
        self.octets.set(q, octets);
        self.queued += 1;
    }

    /// Takes the first parcel of a queue, or returns None if the queue is empty.
    pub(crate) fn pop(&mut self, q: u32) -> Option<Parcel>
        requires { q < length self.old.queues }
        ensures first { MatchOption result ((frames_at self.old q ≡ []) × (self.new ≡ self.old))
            (λ p. frames_at self.old q ≡ p ∷ frames_at self.new q) }
        ensures others { self.new ≡ with_frames self.old q (frames_at self.new q) }
        ensures spare { spare_of self.new ≡
            (if is_some result then spare_of self.old + 1 else spare_of self.old) }
    {
        let at = q as usize;
        let parcel = self.queues[at].pop_front()?;
        self.ready[at] = self.queues[at].len() != 0;
        let octets = self.octets.value(q) - u64::from(parcel.frame().len());
        self.octets.set(q, octets);
        self.queued -= 1;
        Some(parcel)
    }

    /// Drops the first frame of a queue for the limit: it goes last on the finished list as
    /// `Dropped(Overlimit)`. Then puts a parcel last in a queue, the same or another. Returns the id of the
    /// dropped frame.
    pub fn exchange(&mut self, from: u32, to: u32, parcel: Parcel) -> u64
        requires from { from < length self.old.queues }
        requires to { to < length self.old.queues }
        requires frames { 0 < length (frames_at self.old from) }
        requires room { held_in_backlog self.old < self.old.room }
        ensures id { Some result ≡ first_id (frames_at self.old from) }
        ensures exchanged { let dropped = after_head_drop self.old from in
            self.new ≡ with_frames dropped to (frames_at dropped to ++ parcel ∷ []) }
        ensures held { held_in_backlog self.new ≡ held_in_backlog self.old + 1 }
    {
        let head = self.pop(from).unwrap();
        self.push(to, parcel);
        let id = head.frame().id;
        self.finish(settle(head, Fate::Dropped(Cause::Overlimit)));
        id
    }

    /// Drops all frames of a queue for this cause: from the head on they go last on the finished list. The
    /// queue's CoDel state stays. Returns their number.
    pub fn empty_queue(&mut self, q: u32, cause: Cause) -> u32
        requires { q < length self.old.queues }
        ensures count { result ≡ length (frames_at self.old q) }
        ensures emptied { self.new ≡ after_emptying cause unchanged self.old q }
        ensures held { held_in_backlog self.new ≡ held_in_backlog self.old }
    {
        let count = self.count(q);
        while let Some(parcel) = self.pop(q) {
            self.finish(settle(parcel, Fate::Dropped(cause)));
        }
        count
    }

    /// Drops all frames of a queue as `Dropped(Left)`, since their station left, and the queue's CoDel state
    /// becomes new, except for its number of dropped frames. Returns their number.
    pub fn purge(&mut self, q: u32) -> u32
        requires { q < length self.old.queues }
        ensures count { result ≡ length (frames_at self.old q) }
        ensures purged { self.new ≡ after_emptying Left renewed self.old q }
        ensures held { held_in_backlog self.new ≡ held_in_backlog self.old }
    {
        let count = self.empty_queue(q, Cause::Left);
        self.codels[q as usize].renew();
        count
    }

    /// Prepares a queue that becomes listed. If `codel_reset` is 1, its CoDel state is calmed: it begins
    /// without a dropping state and without a long wait. Otherwise nothing changes.
    pub fn start_listed(&mut self, q: u32, codel_reset: u32)
        requires { q < length self.old.queues }
        ensures state { self.new ≡ backlog_when_listed codel_reset self.old q }
        ensures frames { self.new.queues ≡ self.old.queues }
        ensures finished { self.new.finished ≡ self.old.finished }
        ensures room { self.new.room ≡ self.old.room }
    {
        if codel_reset == 1 {
            self.codels[q as usize].calm();
        }
    }

    /// Puts a parcel, unchanged, last on the finished list.
    pub fn finish(&mut self, parcel: Parcel)
        requires { held_in_backlog self.old < self.old.room }
        ensures finished { self.new ≡ record self.old { finished = self.old.finished ++ parcel ∷ [] } }
        ensures held { held_in_backlog self.new ≡ held_in_backlog self.old + 1 }
    {
        self.finished.push_back(parcel);
    }

    /// Takes the first parcel of the finished list, or returns None if the list is empty.
    pub fn reap(&mut self) -> Option<Parcel>
        ensures first { MatchOption result (self.old.finished ≡ [])
            (λ p. self.old.finished ≡ p ∷ self.new.finished) }
        ensures unchanged { IfNone result (self.new ≡ self.old) }
        ensures others { self.new ≡ record self.old { finished = self.new.finished } }
        ensures held { MatchOption result (held_in_backlog self.new ≡ held_in_backlog self.old)
            (λ _. held_in_backlog self.new + 1 ≡ held_in_backlog self.old) }
    {
        self.finished.pop_front()
    }

    /// Returns whether queue `at` has a frame of flow queue `q` after its first `skip` frames, if there are
    /// `flows` flow queues. The queues stay as they are. It looks at each frame of the queue.
    pub fn holds_flow(&mut self, at: u32, skip: u32, flows: u32, q: u32) -> bool
        requires queue { at < length self.old.queues }
        requires some { 1 ≤ flows }
        ensures found { result ≡ list_any (is_of_queue flows q) (drop skip (frames_at self.old at)) }
        ensures same { self.new ≡ self.old }
    {
        holds_flow(&mut self.queues[at as usize], skip, flows, q)
    }

    /// Returns the number of frames in a queue.
    pub fn count(&self, q: u32) -> u32
        requires { q < length self.now.queues }
        ensures { result ≡ length (frames_at self.now q) }
    {
        self.queues[q as usize].len()
    }

    /// Returns the sum of the body lengths of a queue's frames, in octets.
    pub fn octets_of(&self, q: u32) -> u64
        requires { q < length self.now.queues }
        ensures octets { result ≡ queue_octets (frames_at self.now q) }
        ensures few { result < 2 ^ 44 }
    {
        self.octets.value(q)
    }

    /// Returns the CoDel state of a queue.
    pub fn codel_of(&self, q: u32) -> Codel
        requires { q < length self.now.queues }
        ensures { result ≡ codel_at self.now q }
    {
        self.codels[q as usize]
    }

    /// Returns the queue with the most octets, the least number on a tie, or None if all queues are empty.
    /// It first plays the tournament for the queues whose octets changed since the last call, at most 256.
    pub fn longest(&mut self) -> Option<u32>
        ensures none { IsNone result ↔ (in_queues self.old ≡ 0) }
        ensures some { IfSome result (λ q. q ≡ longest_queue self.old) }
        ensures greatest { IfSome result (λ q. IsLongest self.old q) }
        ensures within { IfSome result (λ q. q < length self.old.queues) }
        ensures has_frames { IfSome result (λ q. 0 < length (frames_at self.old q)) }
        ensures same { self.new ≡ self.old }
    {
        self.octets.best().leaf
    }
}
