//! CoDel (RFC 8289, section 5) over any lane of frames, with MAXPACKET 2,304 octets. Times are in
//! microseconds, lengths in octets.

ghost use Rattle.std.specs.Prelude.{◌≡◌, ℕ, List, ◌+◌, ◌*◌, ◌/◌, ◌<◌, ◌≤◌, ◌↔◌, ◌^◌, [], ◌∷◌, ◌++◌, IsTrue, IfSome, IsNone, MatchOption, map, take, if◌then◌else◌, is_some};
ghost use Rattle.std.specs.Option.{option_map};
ghost use Rattle.wf_def_codel.specs.Codel.{IsGreatestStep, step_of, octets, new_codel, renewed, dequeue, Item as Seen, drops_dropping, state_dropping, drops, state_after};
ghost use Rattle.wf_queue_flows.specs.CodelTakes.{Takes};
ghost use Rattle.wf_queue_flows.specs.CodelLooks.{look_by, count_again, started};
ghost use Rattle.wf_def_codel.specs.Parameters.{params_at};
ghost use Rattle.wf_def_world.specs.FlowQueues.{calmed};
ghost use Rattle.wf_queue_flows.specs.CodelParams.{params_of};

use std::marker::Model;
use wf_air::time::Rate;

/// The greatest body of a frame, in octets (MAXPACKET). If no more octets are left, nothing is dropped.
const MAX_PACKET: u64 = 2304;

/// The rate, in kbit/s, below which a station is slow.
const SLOW_BELOW: u32 = 12_000;

/// The target and the interval of a station that is not slow, in microseconds.
const USUAL_TARGET: u32 = 20_000;

const USUAL_INTERVAL: u32 = 100_000;

/// The target and the interval of a slow station, in microseconds.
const SLOW_TARGET: u32 = 50_000;

const SLOW_INTERVAL: u32 = 300_000;

/// The number of intervals after the last drop within which dropping begins again near its last rate (RFC
/// 8289, section 5.5).
const RECENT_INTERVALS: u64 = 16;

/// Returns the time from one drop to the next: the interval over the square root of the count, rounded down
/// (control_law of RFC 8289, section 5.6). It is the greatest d with `d*d*count <= interval*interval`.
pub fn root_step(interval: u32, count: u32) -> u64
    requires { 1 ≤ count }
    ensures greatest { IsGreatestStep interval count result }
    ensures law { result ≡ step_of interval count }
    ensures bound { result < 2 ^ 32 }
{
    (interval as u64 * interval as u64 / count as u64).isqrt()
}

/// The two numbers that CoDel reads for a frame.
#[derive(Clone, Copy, Debug, PartialEq, Eq)]
pub struct Sight {
    /// The time at which the frame was queued.
    pub stamp: u64,
    /// The octets of the frames after it in the lane.
    pub left: u64,
}

/// A queue of frames in order, and a list of the frames that are discarded.
pub trait Lane {
    /// A frame as the lane stores it.
    type Item;

    // The parts of an item that CoDel reads: its id, its stamp and its length.
    ghost look: { Self.Item → Seen };

    // An item after it is discarded.
    ghost tossed: { Self.Item → Self.Item };

    // The items still in the lane.
    ghost rest: { Self → List Self.Item };

    // The items that were discarded.
    ghost thrown: { Self → List Self.Item };

    // The rest of the lane is the same.
    ghost same: { Self → Self → Type 0 };

    // How many items may still be discarded.
    ghost spare: { Self → ℕ };

    /// Takes the first item, or returns None if there is none. Also returns the time at which it was queued
    /// and the octets of the items still in the lane. The item may then be discarded.
    fn pop(&mut self) -> Option<(Self::Item, Sight)>
        ensures first { MatchOption result
            ((rest self.old ≡ []) × (rest self.new ≡ []))
            (λ x. rest self.old ≡ x.0 ∷ rest self.new) }
        ensures stamp { IfSome result (λ x. x.1.stamp ≡ (look x.0).stamp) }
        ensures left { IfSome result (λ x. x.1.left ≡ octets (map look (rest self.new))) }
        ensures spare { spare self.new ≡ (if is_some result then spare self.old + 1 else spare self.old) }
        ensures thrown { thrown self.new ≡ thrown self.old }
        ensures same { same self.old self.new };

    /// Puts an item last on the list of the discarded items. One item may be discarded for each that was
    /// popped.
    fn discard(&mut self, item: Self::Item)
        requires { 1 ≤ spare self.old }
        ensures rest { rest self.new ≡ rest self.old }
        ensures spare { spare self.new + 1 ≡ spare self.old }
        ensures thrown { thrown self.new ≡ thrown self.old ++ tossed item ∷ [] }
        ensures same { same self.old self.new };

    ghost same_refl: { (a : Self) → same a a };

    ghost same_trans: { (a b c : Self) → same a b → same b c → same a c };

    ghost tossed_look: { (x : Self.Item) → look (tossed x) ≡ look x };
}

/// CoDel's parameters, in microseconds (RFC 8289, section 4).
#[derive(Clone, Copy)]
pub struct Params {
    pub target: u32,
    pub interval: u32,
}

impl Params {
    /// Returns the parameters of a station of this rate: a target of 20,000 and an interval of 100,000, or of
    /// 50,000 and 300,000 if the rate is below 12,000 kbit/s ("Ending the Anomaly", section 3.1).
    pub fn of(rate: Rate) -> Params
        ensures { params_of result ≡ params_at rate }
    {
        if rate.kbps() < SLOW_BELOW {
            Params {
                target: SLOW_TARGET,
                interval: SLOW_INTERVAL,
            }
        } else {
            Params {
                target: USUAL_TARGET,
                interval: USUAL_INTERVAL,
            }
        }
    }
}

/// The state of CoDel on one lane (RFC 8289, section 5.2).
#[derive(Clone, Copy)]
pub struct Codel {
    first_above: u64,
    drop_next: u64,
    count: u32,
    last_count: u32,
    dropping: bool,
    /// The number of frames that it dropped since the start, at most the greatest u32.
    dropped: u32,
}

impl Model for Codel {
    ghost use Rattle.wf_def_codel.specs.Codel.{Codel as State};

    ghost Value = { State };

    ghost use Rattle.wf_queue_flows.specs.CodelState.{codel_state_of, fields_of, CountIsPositive};

    ghost view = { codel_state_of };

    ghost invariant = { CountIsPositive };

    ghost inverse = { fields_of };
}

// Returns `first_above` after a look at a frame, and whether the frame may be dropped (RFC 8289, dodequeue).
fn look(first_above: u64, now: u64, params: Params, sight: Sight) -> (u64, bool)
    requires { now < 2 ^ 62 }
    ensures above { result.0 ≡
        (look_by (params_of params) now first_above sight.stamp sight.left).first_above }
    ensures ok { result.1 ≡ (look_by (params_of params) now first_above sight.stamp sight.left).ok }
{
    if now.saturating_sub(sight.stamp) < params.target as u64 || sight.left <= MAX_PACKET {
        return (0, false);
    }
    if first_above == 0 {
        return (now + params.interval as u64, false);
    }
    (first_above, first_above <= now)
}

// Returns the count with which dropping begins again.
fn count_of_start(count: u32, last_count: u32, drop_next: u64, now: u64, params: Params) -> u32
    ensures value { result ≡ count_again (params_of params) now count last_count drop_next }
    ensures positive { 1 ≤ result }
{
    let delta = count.saturating_sub(last_count);
    if delta > 1 && now.saturating_sub(drop_next) < RECENT_INTERVALS * params.interval as u64 {
        return delta;
    }
    1
}

impl Codel {
    /// Returns the state of a lane from which nothing was taken.
    pub fn new() -> Codel
        ensures { result ≡ new_codel }
    {
        Codel {
            first_above: 0,
            drop_next: 0,
            count: 0,
            last_count: 0,
            dropping: false,
            dropped: 0,
        }
    }

    /// Returns whether it drops: frames have waited longer than the target for an interval (`dropping_` of
    /// RFC 8289).
    pub fn is_dropping(&self) -> bool
        ensures { result ≡ self.now.dropping }
    {
        self.dropping
    }

    /// Returns the number of frames that the control law counts: while it drops, those dropped since dropping
    /// began (`count_` of RFC 8289).
    pub fn count(&self) -> u32
        ensures { result ≡ self.now.count }
    {
        self.count
    }

    /// Returns the time in microseconds at which the next frame is dropped, while it drops (`drop_next_` of
    /// RFC 8289).
    pub fn drop_next(&self) -> u64
        ensures { result ≡ self.now.drop_next }
    {
        self.drop_next
    }

    /// Returns the number of frames that it dropped from the lane since the start. It stays at 4,294,967,295
    /// once it is there. Frames that are dropped for another cause than CoDel, such as the limit, do not
    /// count.
    pub fn dropped(&self) -> u32
        ensures { result ≡ self.now.dropped }
    {
        self.dropped
    }

    /// Makes the state new, except for the number of dropped frames, which stays.
    pub fn renew(&mut self)
        ensures { self.new ≡ renewed self.old }
    {
        let dropped = self.dropped;
        *self = Codel::new();
        self.dropped = dropped;
    }

    /// Ends the dropping state, and forgets that frames waited too long. The numbers of the control law stay.
    pub fn calm(&mut self)
        ensures { self.new ≡ calmed self.old }
    {
        self.first_above = 0;
        self.dropping = false;
    }

    /// Takes a frame from the lane (dequeue of RFC 8289, section 5.5): the frames before it that have waited
    /// too long are discarded. `now` is the clock, below 2^62. Returns None only if the lane is empty, since
    /// nothing is dropped if at most 2,304 octets are left.
    pub fn dequeue<L: Lane>(&mut self, now: u64, params: Params, lane: &mut L) -> Option<L::Item>
        requires { now < 2 ^ 62 }
        ensures taken { let queue = map L.look (L.rest lane.old) in
            let dropped = drops (params_of params) now self.old queue in
            Takes L.tossed (L.rest lane.old) (L.rest lane.new) (L.thrown lane.old)
            (L.thrown lane.new) dropped result }
        ensures state { self.new ≡ state_after (params_of params) now self.old
            (map L.look (L.rest lane.old)) }
        // the whole dequeue, as in CoDel's definition
        ensures seen { let queue = map L.look (L.rest lane.old) in
            let dropped = drops (params_of params) now self.old queue in
            dequeue (params_of params) now self.old queue ≡ record {
              given = option_map L.look result;
              dropped = map L.look (take dropped (L.rest lane.old));
              rest = map L.look (L.rest lane.new);
              state = self.new;
            } }
        ensures none { IsNone result ↔ (L.rest lane.old ≡ []) }
        ensures same { L.same lane.old lane.new }
        ensures spare { L.spare lane.new ≡ (if is_some result then L.spare lane.old + 1
            else L.spare lane.old) }
        ensures counted { IsTrue self.new.dropping → 1 ≤ self.new.count }
    {
        let Some((first, sight)) = lane.pop() else {
            self.first_above = 0;
            self.dropping = false;
            return None;
        };
        if self.dropping {
            return self.keep_dropping(now, params, lane, first, sight);
        }
        let (above, ok) = look(self.first_above, now, params, sight);
        self.first_above = above;
        if !ok {
            return Some(first);
        }
        lane.discard(first);
        match lane.pop() {
            None => {
                self.start(now, params, 0);
                None
            }
            Some((second, sight)) => {
                let (above, _) = look(above, now, params, sight);
                self.start(now, params, above);
                Some(second)
            }
        }
    }

    // Completes a dequeue while dropping, whose first look is at `first`.
    fn keep_dropping<L: Lane>(
        &mut self,
        now: u64,
        params: Params,
        lane: &mut L,
        first: L::Item,
        first_sight: Sight,
    ) -> Option<L::Item>
        requires time { now < 2 ^ 62 }
        requires stamp { first_sight.stamp ≡ (L.look first).stamp }
        requires left { first_sight.left ≡ octets (map L.look (L.rest lane.old)) }
        requires dropping { IsTrue self.old.dropping }
        requires spare { 1 ≤ L.spare lane.old }
        ensures taken { let queue = map L.look (first ∷ L.rest lane.old) in
            let dropped = drops_dropping (params_of params) now self.old self.old.drop_next queue in
            Takes L.tossed (first ∷ L.rest lane.old) (L.rest lane.new) (L.thrown lane.old)
            (L.thrown lane.new) dropped result }
        ensures state { let queue = map L.look (first ∷ L.rest lane.old) in
            let dropped = drops_dropping (params_of params) now self.old self.old.drop_next queue in
            self.new ≡ state_dropping (params_of params) now self.old self.old.drop_next queue dropped }
        ensures same { L.same lane.old lane.new }
        ensures spare { L.spare lane.new + (if is_some result then 0 else 1) ≡ L.spare lane.old }
    {
        let mut item = first;
        let mut sight = first_sight;
        let mut due = self.drop_next;
        'looks: loop {
            let (above, ok) = look(self.first_above, now, params, sight);
            self.first_above = above;
            if !ok {
                self.dropping = false;
                return Some(item);
            }
            self.drop_next = due;
            if now < due {
                return Some(item);
            }
            lane.discard(item);
            self.count = self.count.saturating_add(1);
            self.dropped = self.dropped.saturating_add(1);
            due += root_step(params.interval, self.count);
            match lane.pop() {
                None => {
                    self.first_above = 0;
                    self.dropping = false;
                    return None;
                }
                Some((next, next_sight)) => {
                    item = next;
                    sight = next_sight;
                }
            }
        }
    }

    // Begins to drop, with one drop.
    fn start(&mut self, now: u64, params: Params, first_above: u64)
        requires { now < 2 ^ 62 }
        ensures { self.new ≡ started (params_of params) now self.old first_above }
    {
        let count = count_of_start(self.count, self.last_count, self.drop_next, now, params);
        self.first_above = first_above;
        self.drop_next = now + root_step(params.interval, count);
        self.count = count;
        self.last_count = count;
        self.dropping = true;
        self.dropped = self.dropped.saturating_add(1);
    }
}
