//! The addresses of a path: the access point's, and one for each station number.

ghost use Rattle.std.specs.Prelude.{◌≡◌, ◌⊎◌, ℕ, true, is_some, pos, IfSome, OnErr, OnOk};
ghost use Rattle.std.specs.Result.{result_err};
ghost use Rattle.wf_frame.specs.Frames.{FrameValue};
ghost use Rattle.wf_def_world.specs.World.{World};
ghost use Rattle.wf_send_half_model.specs.Standing.{StandsFor};
ghost use Rattle.wf_path.specs.Addresses.{address_in, address_told, group_fault, set_fault, with_address, with_base};
ghost use Rattle.wf_c.specs.Addresses.{address_code, told_code, with_addresses};
ghost use Rattle.wf_c.specs.Calls.{Becomes, HoldsFor, addresses_held};

use crate::held::Held;
use crate::reply::refusal_code;
use crate::slot::PathSlot;
use wf_frame::Refusal;
use wf_path::BadAddress;

/// The code of an address that is a group address, or, for a group frame, is none.
pub(crate) const BAD_ADDRESS: i32 = 64;

// The code of an address that was set or refused.
pub(crate) fn code_of(named: Result<(), BadAddress>) -> i32
    ensures { result ≡ pos (address_code (result_err named)) }
{
    match named {
        Ok(()) => 0,
        Err(BadAddress::NoStation) => refusal_code(Refusal::BadStation),
        Err(BadAddress::BadBss) => refusal_code(Refusal::BadBss),
        Err(BadAddress::Group) => BAD_ADDRESS,
    }
}

impl Held {
    // Sets the access point's address.
    fn set_base(&mut self, address: [u8; 6]) -> Result<(), BadAddress>
        ensures fault { result_err result ≡ group_fault address }
        ensures set { OnOk result (self.new
            ≡ with_addresses (with_base self.old.path.addresses address) self.old) }
        ensures unchanged { OnErr result (self.new ≡ self.old) }
    {
        self.path.set_base(address)
    }

    // Sets a station's address.
    fn set_address(&mut self, station: u16, address: [u8; 6]) -> Result<(), BadAddress>
        ensures fault { (w : World) (bodies : ℕ → FrameValue) → StandsFor self.old.path.half w bodies →
            result_err result ≡ set_fault w.config.stations station address }
        ensures set { OnOk result (self.new
            ≡ with_addresses (with_address self.old.path.addresses station address) self.old) }
        ensures unchanged { OnErr result (self.new ≡ self.old) }
    {
        let _ = self.path.config();
        self.path.set_address(station, address)
    }

    // A station's address. None if the station number does not exist.
    fn address(&self, station: u16) -> Option<[u8; 6]>
        ensures told { (w : World) (bodies : ℕ → FrameValue) → StandsFor self.now.path.half w bodies →
            result ≡ address_told w.config.stations self.now.path.addresses station }
        ensures shown { IfSome result (λ address. address ≡ address_in self.now.path.addresses station) }
    {
        let _ = self.path.config();
        self.path.address(station)
    }
}

/// Sets the access point's address. Returns 0; or 64 if it is a group address, and then nothing has changed.
#[unsafe(no_mangle)]
pub extern "C" fn wf_path_set_base(path: &mut PathSlot, address: &[u8; 6]) -> i32
    requires open { is_some path.old.value ≡ true }
    ensures code { result ≡ pos (address_code (group_fault address.now)) }
    ensures set { result ≡ pos 0 → Becomes (λ h k. k
        ≡ with_addresses (with_base h.path.addresses address.now) h) path.old.value path.new.value }
    ensures unchanged { (result ≡ pos 0) ⊎ (path.new.value ≡ path.old.value) }
{
    code_of(path.held().set_base(*address))
}

/// Sets a station's address. Returns 0; 1 if the station number does not exist; or else 64 if it is a group
/// address. After an error nothing has changed.
#[unsafe(no_mangle)]
pub extern "C" fn wf_path_set_address(path: &mut PathSlot, station: u16, address: &[u8; 6]) -> i32
    requires open { is_some path.old.value ≡ true }
    ensures code { (w : World) (bodies : ℕ → FrameValue) → HoldsFor path.old.value w bodies →
        result ≡ pos (address_code (set_fault w.config.stations station address.now)) }
    ensures set { result ≡ pos 0 → Becomes (λ h k. k
        ≡ with_addresses (with_address h.path.addresses station address.now) h)
        path.old.value path.new.value }
    ensures unchanged { (result ≡ pos 0) ⊎ (path.new.value ≡ path.old.value) }
{
    code_of(path.held().set_address(station, *address))
}

/// Writes the access point's address.
#[unsafe(no_mangle)]
pub extern "C" fn wf_path_base(path: &mut PathSlot, out: &mut [u8; 6])
    requires open { is_some path.old.value ≡ true }
    ensures shown { out.new ≡ (addresses_held path.old.value).base }
    ensures unchanged { path.new.value ≡ path.old.value }
{
    *out = path.held().path.base();
}

/// Writes a station's address. Returns 0; or 1 if the station number does not exist, and then writes nothing.
#[unsafe(no_mangle)]
pub extern "C" fn wf_path_address(path: &mut PathSlot, station: u16, out: &mut [u8; 6]) -> i32
    requires open { is_some path.old.value ≡ true }
    ensures code { (w : World) (bodies : ℕ → FrameValue) → HoldsFor path.old.value w bodies →
        result ≡ pos (told_code (address_told w.config.stations (addresses_held path.old.value) station)) }
    ensures shown { result ≡ pos 0 → out.new ≡ address_in (addresses_held path.old.value) station }
    ensures kept { (result ≡ pos 0) ⊎ (out.new ≡ out.old) }
    ensures unchanged { path.new.value ≡ path.old.value }
{
    match path.held().address(station) {
        Some(address) => {
            *out = address;
            0
        }
        None => refusal_code(Refusal::BadStation),
    }
}
