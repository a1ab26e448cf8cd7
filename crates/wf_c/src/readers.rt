//! Reading a path, without a call of the machine.

ghost use Rattle.std.specs.Prelude.{◌≡◌, ◌<◌, ◌⊎◌, ℕ, true, is_none, is_some, pos, length, take, drop, IfOk, IfSome, IfNone};
ghost use Rattle.std.specs.Result.{result_err};
ghost use Rattle.wf_frame.specs.Frames.{FrameValue};
ghost use Rattle.wf_frame.specs.declared.notes.Ask.TheVariants.{Pull};
ghost use Rattle.wf_frame.specs.declared.notes.Limits.{Limits};
ghost use Rattle.wf_frame.specs.declared.notes.Note.TheVariants.{Asked};
ghost use Rattle.wf_def_agreement.specs.Session.{waiting_numbers};
ghost use Rattle.wf_def_world.specs.FlowQueues.{frames_queued};
ghost use Rattle.wf_def_world.specs.Refusals.{refusal};
ghost use Rattle.wf_def_world.specs.World.{World, is_live, rotation, session};
ghost use Rattle.wf_send_half.specs.Half.{IsLive};
ghost use Rattle.wf_send_half_model.specs.Standing.{StandsFor, counts_in};
ghost use Rattle.wf_send_half.specs.Listed.{list_of};
ghost use Rattle.wf_path.specs.Traffic.{tim_shown};
ghost use Rattle.wf_c.specs.Calls.{HoldsFor, HoldsSmall, addresses_held};
ghost use Rattle.wf_c.specs.Groups.{tim_given};
ghost use Rattle.wf_c.specs.Numbers.{class_shown, flag_of, list_number};
ghost use Rattle.wf_c.specs.Shares.{ShowsShare, counts_shown, session_code, session_fault, share_code};

use crate::asks::{BAD_CLASS, class_of_number};
use crate::held::Held;
use crate::reply::refusal_code;
use crate::slot::PathSlot;
use wf_frame::{Class, Refusal};
use wf_octets::tim::Tim;
use wf_rotation::Side;

/// How many frames were accepted, and how many of them have each fate.
#[repr(C)]
#[derive(Clone, Copy)]
pub struct Tally {
    /// All accepted frames.
    pub accepted: u64,
    /// Acknowledged.
    pub acked: u64,
    /// Dropped because the flow queues were full.
    pub overlimit: u64,
    /// Dropped by CoDel.
    pub codel: u64,
    /// Dropped after their last transmission.
    pub retries: u64,
    /// Dropped because their station left.
    pub left: u64,
    /// Dropped because their TID was flushed.
    pub flushed: u64,
    /// Dropped because the agreement of their TID ended.
    pub ended: u64,
}

/// A station's airtime in a class since its join, in microseconds.
#[repr(C)]
#[derive(Clone, Copy)]
pub struct Share {
    /// The airtime that it may still use; below 0 if it used too much.
    pub deficit: i64,
    /// The airtime of its exchanges.
    pub charged: u64,
    /// The airtime that it used to send.
    pub rx: u64,
}

/// Returns the clock, in microseconds.
#[unsafe(no_mangle)]
pub extern "C" fn wf_path_now(path: &mut PathSlot) -> u64
    requires open { is_some path.old.value ≡ true }
    ensures world { (w : World) (bodies : ℕ → FrameValue) → HoldsFor path.old.value w bodies →
        result ≡ w.clock }
    ensures unchanged { path.new.value ≡ path.old.value }
{
    path.held().path.now()
}

/// Returns how many exchanges were opened.
#[unsafe(no_mangle)]
pub extern "C" fn wf_path_exchanges(path: &mut PathSlot) -> u64
    requires open { is_some path.old.value ≡ true }
    ensures world { (w : World) (bodies : ℕ → FrameValue) → HoldsFor path.old.value w bodies →
        result ≡ w.exchanges }
    ensures unchanged { path.new.value ≡ path.old.value }
{
    path.held().path.exchanges()
}

/// Returns how many exchanges are open, at most 32.
#[unsafe(no_mangle)]
pub extern "C" fn wf_path_open_count(path: &mut PathSlot) -> u32
    requires open { is_some path.old.value ≡ true }
    ensures world { (w : World) (bodies : ℕ → FrameValue) → HoldsFor path.old.value w bodies →
        result ≡ length w.opened }
    ensures unchanged { path.new.value ≡ path.old.value }
{
    path.held().path.open_count()
}

/// Returns 1 if a station is live, else 0.
#[unsafe(no_mangle)]
pub extern "C" fn wf_path_live(path: &mut PathSlot, station: u16) -> i32
    requires open { is_some path.old.value ≡ true }
    ensures world { (w : World) (bodies : ℕ → FrameValue) → HoldsFor path.old.value w bodies →
        result ≡ pos (flag_of (is_live w station)) }
    ensures unchanged { path.new.value ≡ path.old.value }
{
    i32::from(path.held().path.live(station))
}

/// Writes how many frames were accepted, and how many of them have each fate.
#[unsafe(no_mangle)]
pub extern "C" fn wf_path_tally(path: &mut PathSlot, tally: &mut Tally)
    requires open { is_some path.old.value ≡ true }
    ensures world { (w : World) (bodies : ℕ → FrameValue) → HoldsFor path.old.value w bodies →
        counts_shown tally.new ≡ counts_in w }
    ensures unchanged { path.new.value ≡ path.old.value }
{
    let counts = path.held().path.tally();
    *tally = Tally {
        accepted: counts.accepted,
        acked: counts.acked,
        overlimit: counts.overlimit,
        codel: counts.codel,
        retries: counts.retries,
        left: counts.left,
        flushed: counts.flushed,
        ended: counts.ended,
    };
}

impl Held {
    // The airtime of a station in a class. None if the station is not live.
    fn share(&self, station: u16, class: Class) -> Option<Share>
        ensures live { (w : World) (bodies : ℕ → FrameValue) → StandsFor self.now.path.half w bodies →
            is_some result ≡ is_live w station }
        ensures shown { IfSome result (λ shown. (w : World) (bodies : ℕ → FrameValue) →
            StandsFor self.now.path.half w bodies → ShowsShare w station class shown) }
    {
        if !self.path.live(station) {
            return None;
        }
        Some(Share {
            deficit: self.path.deficit(station, class),
            charged: self.path.charged(station, class),
            rx: self.path.received(station, class),
        })
    }
}

/// Writes a live station's airtime in a class. Returns 0; 67 if the class is above 3; or 11 if the station is
/// not live. After an error it writes nothing.
#[unsafe(no_mangle)]
pub extern "C" fn wf_path_share(
    path: &mut PathSlot,
    station: u16,
    class: u8,
    share: &mut Share,
) -> i32
    requires open { is_some path.old.value ≡ true }
    ensures code { (w : World) (bodies : ℕ → FrameValue) → HoldsFor path.old.value w bodies →
        result ≡ pos (share_code (class_shown class) (is_live w station)) }
    ensures shown { (w : World) (bodies : ℕ → FrameValue) → HoldsFor path.old.value w bodies →
        is_live w station ≡ true →
        IfSome (class_shown class) (λ c. ShowsShare w station c share.new) }
    ensures kept { (result ≡ pos 0) ⊎ (share.new ≡ share.old) }
    ensures unchanged { path.new.value ≡ path.old.value }
{
    let Some(class) = class_of_number(class) else {
        return BAD_CLASS;
    };
    match path.held().share(station, class) {
        Some(shown) => {
            *share = shown;
            0
        }
        None => refusal_code(Refusal::NoStation),
    }
}

/// Returns 1 if a pull of a class would send now, whatever its limits, or 0 if it would be refused, or if the
/// class is above 3.
#[unsafe(no_mangle)]
pub extern "C" fn wf_path_can_pull(path: &mut PathSlot, class: u8) -> i32
    requires open { is_some path.old.value ≡ true }
    ensures world { (w : World) (bodies : ℕ → FrameValue) → HoldsFor path.old.value w bodies →
        IfSome (class_shown class) (λ c. (limits : Limits) →
        result ≡ pos (flag_of (is_none (refusal w (Asked (Pull c limits)))))) }
    ensures no_class { IfNone (class_shown class) (result ≡ pos 0) }
    ensures unchanged { path.new.value ≡ path.old.value }
{
    match class_of_number(class) {
        Some(class) => number_of_flag(path.held().path.can_pull(class)),
        None => 0,
    }
}

// The number of a flag: 1 if it is set, else 0.
pub(crate) fn number_of_flag(flag: bool) -> i32
    ensures { result ≡ pos (flag_of flag) }
{
    i32::from(flag)
}

/// Returns the list of a class that contains a station: 1 the new list, 2 the old list, or 0 neither, as for
/// a station that is not live, and for a class above 3.
#[unsafe(no_mangle)]
pub extern "C" fn wf_path_listed(path: &mut PathSlot, station: u16, class: u8) -> i32
    requires open { is_some path.old.value ≡ true }
    ensures world { (w : World) (bodies : ℕ → FrameValue) → HoldsFor path.old.value w bodies →
        IfSome (class_shown class) (λ c. result ≡ pos (list_number (list_of (rotation w c) station))) }
    ensures no_class { IfNone (class_shown class) (result ≡ pos 0) }
    ensures unchanged { path.new.value ≡ path.old.value }
{
    match class_of_number(class) {
        Some(class) => number_of_list(path.held().path.listed(station, class)),
        None => 0,
    }
}

// The number of a list of a class; 0 for none.
fn number_of_list(list: Option<Side>) -> i32
    ensures { result ≡ pos (list_number list) }
{
    match list {
        None => 0,
        Some(Side::New) => 1,
        Some(Side::Old) => 2,
    }
}

/// Returns 1 if the counts of the path are below 2^62, as each call requires, else 0.
#[unsafe(no_mangle)]
pub extern "C" fn wf_path_has_small_counts(path: &mut PathSlot) -> i32
    requires open { is_some path.old.value ≡ true }
    ensures small { result ≡ pos 1 → HoldsSmall path.old.value }
    ensures large { HoldsSmall path.old.value → result ≡ pos 1 }
    ensures flag { (result ≡ pos 0) ⊎ (result ≡ pos 1) }
    ensures unchanged { path.new.value ≡ path.old.value }
{
    i32::from(path.held().path.has_small_counts())
}

/// Why a station's TID has no session.
#[derive(Clone, Copy)]
pub(crate) enum NoSession {
    /// The TID is above 7.
    BadTid,
    /// The station is not live.
    NoStation,
}

impl Held {
    // Checks that a station's TID has a session: the TID is at most 7, and the station is live.
    pub(crate) fn find_session(&self, station: u16, tid: u8) -> Result<(), NoSession>
        ensures live { IfOk result (λ _. IsLive self.now.path.half station) }
        ensures tid { IfOk result (λ _. tid < 8) }
        ensures fault { (w : World) (bodies : ℕ → FrameValue) → StandsFor self.now.path.half w bodies →
            result_err result ≡ session_fault w station tid }
    {
        if 7 < tid {
            return Err(NoSession::BadTid);
        }
        if !self.path.live(station) {
            return Err(NoSession::NoStation);
        }
        Ok(())
    }

    // Returns how many frames of a live station's TID are in flow queues.
    fn queued(&self, station: u16, tid: u8) -> Result<u32, NoSession>
        ensures shown { IfOk result (λ count. (w : World) (bodies : ℕ → FrameValue) →
            StandsFor self.now.path.half w bodies → count ≡ frames_queued w station tid) }
        ensures fault { (w : World) (bodies : ℕ → FrameValue) → StandsFor self.now.path.half w bodies →
            result_err result ≡ session_fault w station tid }
    {
        self.find_session(station, tid)?;
        Ok(self.path.queued(station, tid))
    }

    // Returns how many numbers of a live station's TID wait to be sent.
    fn waiting(&self, station: u16, tid: u8) -> Result<u32, NoSession>
        ensures shown { IfOk result (λ count. (w : World) (bodies : ℕ → FrameValue) →
            StandsFor self.now.path.half w bodies →
            count ≡ length (waiting_numbers (session w station tid))) }
        ensures fault { (w : World) (bodies : ℕ → FrameValue) → StandsFor self.now.path.half w bodies →
            result_err result ≡ session_fault w station tid }
    {
        self.find_session(station, tid)?;
        Ok(self.path.waiting(station, tid))
    }
}

/// Writes how many frames of a live station's TID are in flow queues. Returns 0; 7 if the TID is above 7; or
/// else 11 if the station is not live. After an error it writes nothing.
#[unsafe(no_mangle)]
pub extern "C" fn wf_path_queued(path: &mut PathSlot, station: u16, tid: u8, count: &mut u32) -> i32
    requires open { is_some path.old.value ≡ true }
    ensures code { (w : World) (bodies : ℕ → FrameValue) → HoldsFor path.old.value w bodies →
        result ≡ pos (session_code (session_fault w station tid)) }
    ensures shown { (w : World) (bodies : ℕ → FrameValue) → HoldsFor path.old.value w bodies →
        result ≡ pos 0 → count.new ≡ frames_queued w station tid }
    ensures kept { (result ≡ pos 0) ⊎ (count.new ≡ count.old) }
    ensures unchanged { path.new.value ≡ path.old.value }
{
    match path.held().queued(station, tid) {
        Ok(found) => {
            *count = found;
            0
        }
        Err(NoSession::BadTid) => refusal_code(Refusal::BadTid),
        Err(NoSession::NoStation) => refusal_code(Refusal::NoStation),
    }
}

/// Writes how many numbers of a live station's TID wait to be sent. Returns 0; 7 if the TID is above 7; or
/// else 11 if the station is not live. After an error it writes nothing.
#[unsafe(no_mangle)]
pub extern "C" fn wf_path_waiting(
    path: &mut PathSlot,
    station: u16,
    tid: u8,
    count: &mut u32,
) -> i32
    requires open { is_some path.old.value ≡ true }
    ensures code { (w : World) (bodies : ℕ → FrameValue) → HoldsFor path.old.value w bodies →
        result ≡ pos (session_code (session_fault w station tid)) }
    ensures shown { (w : World) (bodies : ℕ → FrameValue) → HoldsFor path.old.value w bodies →
        result ≡ pos 0 → count.new ≡ length (waiting_numbers (session w station tid)) }
    ensures kept { (result ≡ pos 0) ⊎ (count.new ≡ count.old) }
    ensures unchanged { path.new.value ≡ path.old.value }
{
    match path.held().waiting(station, tid) {
        Ok(found) => {
            *count = found;
            0
        }
        Err(NoSession::BadTid) => refusal_code(Refusal::BadTid),
        Err(NoSession::NoStation) => refusal_code(Refusal::NoStation),
    }
}

// The fields of a TIM element that a caller gives.
fn given_tim(count: u8, period: u8, group: u8) -> Tim
    ensures { result ≡ tim_given count period group }
{
    Tim {
        count,
        period,
        group: group != 0,
    }
}

/// Writes the TIM element (IEEE 802.11-2012, 8.4.2.7) of the live stations of a BSS that sleep and have
/// traffic, with this DTIM count, this DTIM period in beacons, and the bit for group frames if `group` is not
/// 0. A BSS that does not exist has no stations. Returns the element's size in octets.
#[unsafe(no_mangle)]
pub extern "C" fn wf_path_tim(
    path: &mut PathSlot,
    bss: u8,
    count: u8,
    period: u8,
    group: u8,
    out: &mut [u8; 256],
) -> usize
    requires open { is_some path.old.value ≡ true }
    ensures octets { (w : World) (bodies : ℕ → FrameValue) → HoldsFor path.old.value w bodies →
        take result out.new ≡ tim_shown (tim_given count period group)
        (addresses_held path.old.value) bss w }
    ensures rest { drop result out.new ≡ drop result out.old }
    ensures unchanged { path.new.value ≡ path.old.value }
{
    let tim = given_tim(count, period, group);
    path.held().path.tim_with(tim, bss, out)
}
