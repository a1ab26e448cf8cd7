//! Reading which numbers of a TID are not settled, for a driver that begins or ends an agreement.

ghost use Rattle.std.specs.Prelude.{◌≡◌, ◌⊎◌, ℕ, true, is_some, pos, length, IfOk};
ghost use Rattle.std.specs.Result.{result_err};
ghost use Rattle.wf_frame.specs.Frames.{FrameValue};
ghost use Rattle.wf_def_world.specs.World.{World, session};
ghost use Rattle.wf_send_parts.specs.Flying.{flying_numbers, is_drained};
ghost use Rattle.wf_send_half_model.specs.Standing.{StandsFor};
ghost use Rattle.wf_c.specs.Calls.{HoldsFor};
ghost use Rattle.wf_c.specs.Numbers.{flag_of};
ghost use Rattle.wf_c.specs.Shares.{session_code, session_fault};

use crate::held::Held;
use crate::readers::NoSession;
use crate::reply::refusal_code;
use crate::slot::PathSlot;
use wf_frame::Refusal;

impl Held {
    // Returns how many numbers of a live station's TID are on the air.
    fn flying(&self, station: u16, tid: u8) -> Result<u32, NoSession>
        ensures shown { IfOk result (λ count. (w : World) (bodies : ℕ → FrameValue) →
            StandsFor self.now.path.half w bodies →
            count ≡ length (flying_numbers (session w station tid))) }
        ensures fault { (w : World) (bodies : ℕ → FrameValue) → StandsFor self.now.path.half w bodies →
            result_err result ≡ session_fault w station tid }
    {
        self.find_session(station, tid)?;
        Ok(self.path.flying(station, tid))
    }

    // Returns whether all numbers of a live station's TID are settled.
    fn drained(&self, station: u16, tid: u8) -> Result<bool, NoSession>
        ensures shown { IfOk result (λ drained. (w : World) (bodies : ℕ → FrameValue) →
            StandsFor self.now.path.half w bodies → drained ≡ is_drained (session w station tid)) }
        ensures fault { (w : World) (bodies : ℕ → FrameValue) → StandsFor self.now.path.half w bodies →
            result_err result ≡ session_fault w station tid }
    {
        self.find_session(station, tid)?;
        Ok(self.path.drained(station, tid))
    }
}

/// Writes how many numbers of a live station's TID are on the air. Returns 0; 7 if the TID is above 7; or
/// else 11 if the station is not live. After an error it writes nothing.
#[unsafe(no_mangle)]
pub extern "C" fn wf_path_flying(path: &mut PathSlot, station: u16, tid: u8, count: &mut u32) -> i32
    requires open { is_some path.old.value ≡ true }
    ensures code { (w : World) (bodies : ℕ → FrameValue) → HoldsFor path.old.value w bodies →
        result ≡ pos (session_code (session_fault w station tid)) }
    ensures shown { (w : World) (bodies : ℕ → FrameValue) → HoldsFor path.old.value w bodies →
        result ≡ pos 0 → count.new ≡ length (flying_numbers (session w station tid)) }
    ensures kept { (result ≡ pos 0) ⊎ (count.new ≡ count.old) }
    ensures unchanged { path.new.value ≡ path.old.value }
{
    match path.held().flying(station, tid) {
        Ok(found) => {
            *count = found;
            0
        }
        Err(NoSession::BadTid) => refusal_code(Refusal::BadTid),
        Err(NoSession::NoStation) => refusal_code(Refusal::NoStation),
    }
}

/// Writes 1 if all numbers of a live station's TID are settled, so that none waits or is on the air, else 0.
/// Returns 0; 7 if the TID is above 7; or else 11 if the station is not live. After an error it writes
/// nothing.
#[unsafe(no_mangle)]
pub extern "C" fn wf_path_drained(
    path: &mut PathSlot,
    station: u16,
    tid: u8,
    drained: &mut u32,
) -> i32
    requires open { is_some path.old.value ≡ true }
    ensures code { (w : World) (bodies : ℕ → FrameValue) → HoldsFor path.old.value w bodies →
        result ≡ pos (session_code (session_fault w station tid)) }
    ensures shown { (w : World) (bodies : ℕ → FrameValue) → HoldsFor path.old.value w bodies →
        result ≡ pos 0 → drained.new ≡ flag_of (is_drained (session w station tid)) }
    ensures kept { (result ≡ pos 0) ⊎ (drained.new ≡ drained.old) }
    ensures unchanged { path.new.value ≡ path.old.value }
{
    match path.held().drained(station, tid) {
        Ok(found) => {
            *drained = count_of_flag(found);
            0
        }
        Err(NoSession::BadTid) => refusal_code(Refusal::BadTid),
        Err(NoSession::NoStation) => refusal_code(Refusal::NoStation),
    }
}

// The count of a flag: 1 if it is set, else 0.
pub(crate) fn count_of_flag(flag: bool) -> u32
    ensures { result ≡ flag_of flag }
{
    u32::from(flag)
}
