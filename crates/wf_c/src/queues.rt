//! Reading the queues of a path, and the airtime in flight.

ghost use Rattle.std.specs.Prelude.{◌≡◌, ◌⊎◌, ℕ, nat_lt, true, is_some, pos, IfOk, IfSome};
ghost use Rattle.std.specs.Result.{result_err};
ghost use Rattle.wf_frame.specs.Frames.{FrameValue};
ghost use Rattle.wf_def_world.specs.World.{World, is_live, owed};
ghost use Rattle.wf_send_half.specs.Queued.{queue_count, octets_queued};
ghost use Rattle.wf_send_half_model.specs.Standing.{StandsFor};
ghost use Rattle.wf_c.specs.Calls.{HoldsFor};
ghost use Rattle.wf_c.specs.Numbers.{class_shown};
ghost use Rattle.wf_c.specs.Queued.{ShowsCodel, queue_code};
ghost use Rattle.wf_c.specs.Shares.{session_code, session_fault, share_code};

use crate::asks::{BAD_CLASS, class_of_number};
use crate::held::Held;
use crate::readers::NoSession;
use crate::reply::refusal_code;
use crate::slot::PathSlot;
use crate::unsettled::count_of_flag;
use wf_frame::{Class, Refusal};

/// A queue: its octets, and the state of CoDel in it (RFC 8289, 5.2).
#[repr(C)]
#[derive(Clone, Copy)]
pub struct Codel {
    /// The octets of the bodies in the queue.
    pub octets: u64,
    /// When the next frame is dropped, if `dropping` is 1: a time of the path's clock, in microseconds.
    pub drop_next: u64,
    /// The count of drops of the control law, which each drop raises by 1.
    pub drop_count: u32,
    /// 1 if frames are dropped at the times of the control law, else 0.
    pub dropping: u32,
    /// The number of frames that CoDel dropped from the queue since the start, at most 4,294,967,295.
    pub dropped: u64,
}

impl Held {
    // Returns the octets of the bodies that a live station's TID has in the queues.
    fn octets(&self, station: u16, tid: u8) -> Result<u64, NoSession>
        ensures shown { IfOk result (λ octets. (w : World) (bodies : ℕ → FrameValue) →
            StandsFor self.now.path.half w bodies → octets ≡ octets_queued w station tid) }
        ensures fault { (w : World) (bodies : ℕ → FrameValue) → StandsFor self.now.path.half w bodies →
            result_err result ≡ session_fault w station tid }
    {
        self.find_session(station, tid)?;
        Ok(self.path.octets(station, tid))
    }

    // Returns the queue with this number. None if there is none.
    fn codel(&self, q: u32) -> Option<Codel>
        ensures exists { (w : World) (bodies : ℕ → FrameValue) → StandsFor self.now.path.half w bodies →
            is_some result ≡ nat_lt q (queue_count w) }
        ensures shown { IfSome result (λ shown. (w : World) (bodies : ℕ → FrameValue) →
            StandsFor self.now.path.half w bodies → ShowsCodel w q shown) }
    {
        if self.path.queues() <= q {
            return None;
        }
        let codel = self.path.codel(q);
        Some(Codel {
            octets: self.path.octets_of(q),
            drop_next: codel.drop_next(),
            drop_count: codel.count(),
            dropping: count_of_flag(codel.is_dropping()),
            dropped: u64::from(codel.dropped()),
        })
    }

    // Returns the airtime in flight of a station in a class. None if the station is not live.
    fn pending(&self, station: u16, class: Class) -> Option<u32>
        ensures live { (w : World) (bodies : ℕ → FrameValue) → StandsFor self.now.path.half w bodies →
            is_some result ≡ is_live w station }
        ensures shown { IfSome result (λ air. (w : World) (bodies : ℕ → FrameValue) →
            StandsFor self.now.path.half w bodies → air ≡ owed station class w.opened) }
    {
        if !self.path.live(station) {
            return None;
        }
        Some(self.path.in_flight(station, class))
    }
}

/// Writes the octets of the bodies that a live station's TID has in the queues. Returns 0; 7 if the TID is
/// above 7; or else 11 if the station is not live. After an error it writes nothing.
#[unsafe(no_mangle)]
pub extern "C" fn wf_path_octets(
    path: &mut PathSlot,
    station: u16,
    tid: u8,
    octets: &mut u64,
) -> i32
    requires open { is_some path.old.value ≡ true }
    ensures code { (w : World) (bodies : ℕ → FrameValue) → HoldsFor path.old.value w bodies →
        result ≡ pos (session_code (session_fault w station tid)) }
    ensures shown { (w : World) (bodies : ℕ → FrameValue) → HoldsFor path.old.value w bodies →
        result ≡ pos 0 → octets.new ≡ octets_queued w station tid }
    ensures kept { (result ≡ pos 0) ⊎ (octets.new ≡ octets.old) }
    ensures unchanged { path.new.value ≡ path.old.value }
{
    match path.held().octets(station, tid) {
        Ok(found) => {
            *octets = found;
            0
        }
        Err(NoSession::BadTid) => refusal_code(Refusal::BadTid),
        Err(NoSession::NoStation) => refusal_code(Refusal::NoStation),
    }
}

/// Writes the octets of a queue, and the state of CoDel in it. Returns 0; or 9 if there are fewer queues, and
/// then writes nothing.
#[unsafe(no_mangle)]
pub extern "C" fn wf_path_codel(path: &mut PathSlot, queue: u32, codel: &mut Codel) -> i32
    requires open { is_some path.old.value ≡ true }
    ensures code { (w : World) (bodies : ℕ → FrameValue) → HoldsFor path.old.value w bodies →
        result ≡ pos (queue_code w queue) }
    ensures shown { (w : World) (bodies : ℕ → FrameValue) → HoldsFor path.old.value w bodies →
        result ≡ pos 0 → ShowsCodel w queue codel.new }
    ensures kept { (result ≡ pos 0) ⊎ (codel.new ≡ codel.old) }
    ensures unchanged { path.new.value ≡ path.old.value }
{
    match path.held().codel(queue) {
        Some(shown) => {
            *codel = shown;
            0
        }
        None => refusal_code(Refusal::BadIndex),
    }
}

/// Writes the computed airtime of a live station's open exchanges in a class, in microseconds. Returns 0; 67
/// if the class is above 3; or 11 if the station is not live. After an error it writes nothing.
#[unsafe(no_mangle)]
pub extern "C" fn wf_path_pending(
    path: &mut PathSlot,
    station: u16,
    class: u8,
    air: &mut u32,
) -> i32
    requires open { is_some path.old.value ≡ true }
    ensures code { (w : World) (bodies : ℕ → FrameValue) → HoldsFor path.old.value w bodies →
        result ≡ pos (share_code (class_shown class) (is_live w station)) }
    ensures shown { (w : World) (bodies : ℕ → FrameValue) → HoldsFor path.old.value w bodies →
        result ≡ pos 0 → IfSome (class_shown class) (λ c. air.new ≡ owed station c w.opened) }
    ensures kept { (result ≡ pos 0) ⊎ (air.new ≡ air.old) }
    ensures unchanged { path.new.value ≡ path.old.value }
{
    let Some(class) = class_of_number(class) else {
        return BAD_CLASS;
    };
    match path.held().pending(station, class) {
        Some(found) => {
            *air = found;
            0
        }
        None => refusal_code(Refusal::NoStation),
    }
}
