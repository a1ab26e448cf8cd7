//! The BSSs of stations, the addresses of BSSs, and the association identifiers (AID) of stations.

ghost use Rattle.std.specs.Prelude.{◌≡◌, ◌⊎◌, ℕ, true, is_some, pos, OnErr, OnOk};
ghost use Rattle.std.specs.Result.{result_err};
ghost use Rattle.wf_frame.specs.Frames.{FrameValue};
ghost use Rattle.wf_frame.specs.declared.notes.Ask.TheVariants.{Bss};
ghost use Rattle.wf_def_world.specs.World.{World};
ghost use Rattle.wf_send_half_model.specs.Standing.{StandsFor};
ghost use Rattle.wf_path.specs.Addresses.{aid_fault, bss_fault, with_aid, with_bss};
ghost use Rattle.wf_c.specs.Addresses.{address_code, aid_code, with_addresses};
ghost use Rattle.wf_c.specs.Calls.{Becomes, HoldsFor, HoldsSmall, IsCalled};

use crate::addresses::code_of;
use crate::held::Held;
use crate::reply::{Reply, refusal_code};
use crate::slot::PathSlot;
use wf_frame::Refusal;
use wf_path::{AidFault, BadAddress, PathAsk};

/// The code of a number that is no AID.
const BAD_AID: i32 = 66;

// The code of an AID that was set or refused.
fn code_of_aid(set: Result<(), AidFault>) -> i32
    ensures { result ≡ pos (aid_code (result_err set)) }
{
    match set {
        Ok(()) => 0,
        Err(AidFault::NoStation) => refusal_code(Refusal::BadStation),
        Err(AidFault::BadAid) => BAD_AID,
    }
}

impl Held {
    // Sets the access point's address in a BSS.
    fn set_bss_address(&mut self, bss: u8, address: [u8; 6]) -> Result<(), BadAddress>
        ensures fault { (w : World) (bodies : ℕ → FrameValue) → StandsFor self.old.path.half w bodies →
            result_err result ≡ bss_fault w.config.bsses bss address }
        ensures set { OnOk result (self.new
            ≡ with_addresses (with_bss self.old.path.addresses bss address) self.old) }
        ensures unchanged { OnErr result (self.new ≡ self.old) }
    {
        let _ = self.path.config();
        self.path.set_bss_address(bss, address)
    }

    // Sets a station's AID.
    fn set_aid(&mut self, station: u16, aid: u16) -> Result<(), AidFault>
        ensures fault { (w : World) (bodies : ℕ → FrameValue) → StandsFor self.old.path.half w bodies →
            result_err result ≡ aid_fault w.config.stations station aid }
        ensures set { OnOk result (self.new
            ≡ with_addresses (with_aid self.old.path.addresses station aid) self.old) }
        ensures unchanged { OnErr result (self.new ≡ self.old) }
    {
        let _ = self.path.config();
        self.path.set_aid(station, aid)
    }
}

/// Sets the BSS of a live station that is awake; a station that joins is of BSS 0. Returns 0; 1 if the
/// station number does not exist; 43 if there is no BSS of this number; 11 if the station is not live; or 22
/// if it sleeps. After an error nothing has changed.
#[unsafe(no_mangle)]
pub extern "C" fn wf_path_set_station_bss(
    path: &mut PathSlot,
    station: u16,
    bss: u8,
    reply: &mut Reply,
) -> i32
    requires open { is_some path.old.value ≡ true }
    requires small { HoldsSmall path.old.value }
    ensures called { Becomes (λ h k. IsCalled h (Bss station bss) k reply.new) path.old.value
        path.new.value }
    ensures code { result ≡ pos reply.new.refusal }
{
    path.ask(PathAsk::Bss { station, bss }, reply)
}

/// Sets the access point's address (BSSID) in a BSS: in frames to and from its stations, and in its group
/// frames. Returns 0; 43 if there is no BSS of this number; or else 64 if it is a group address. After an
/// error nothing has changed.
#[unsafe(no_mangle)]
pub extern "C" fn wf_path_set_bss(path: &mut PathSlot, bss: u8, address: &[u8; 6]) -> i32
    requires open { is_some path.old.value ≡ true }
    ensures code { (w : World) (bodies : ℕ → FrameValue) → HoldsFor path.old.value w bodies →
        result ≡ pos (address_code (bss_fault w.config.bsses bss address.now)) }
    ensures set { result ≡ pos 0 → Becomes (λ h k. k
        ≡ with_addresses (with_bss h.path.addresses bss address.now) h) path.old.value path.new.value }
    ensures unchanged { (result ≡ pos 0) ⊎ (path.new.value ≡ path.old.value) }
{
    code_of(path.held().set_bss_address(bss, *address))
}

/// Sets the association identifier of a station, which the TIM shows. Returns 0; 1 if the station number does
/// not exist; or else 66 if the identifier is 0 or above 2007. After an error nothing has changed.
#[unsafe(no_mangle)]
pub extern "C" fn wf_path_set_aid(path: &mut PathSlot, station: u16, aid: u16) -> i32
    requires open { is_some path.old.value ≡ true }
    ensures code { (w : World) (bodies : ℕ → FrameValue) → HoldsFor path.old.value w bodies →
        result ≡ pos (aid_code (aid_fault w.config.stations station aid)) }
    ensures set { result ≡ pos 0 → Becomes (λ h k. k
        ≡ with_addresses (with_aid h.path.addresses station aid) h) path.old.value path.new.value }
    ensures unchanged { (result ≡ pos 0) ⊎ (path.new.value ≡ path.old.value) }
{
    code_of_aid(path.held().set_aid(station, aid))
}
