//! Making and freeing a path.

ghost use Rattle.std.specs.Prelude.{◌≡◌, ◌⊎◌, ℕ, None, true, is_some, pos};
ghost use Rattle.wf_frame.specs.Frames.{FrameValue};
ghost use Rattle.wf_def_world.specs.World.{opening};
ghost use Rattle.wf_path.specs.Addresses.{made_up};
ghost use Rattle.wf_c.specs.Calls.{HoldsFor, HoldsSmall, addresses_held};
ghost use Rattle.wf_c.specs.Making.{IsMadeCode, bad_place, config_of, in_use};

use crate::held::Held;
use crate::settings::Settings;
use crate::slot::PathSlot;
use std::alloc::Global;

/// The code for "out of memory".
pub(crate) const NO_MEMORY: i32 = 60;

/// The code of a handle that holds something already.
pub(crate) const IN_USE: i32 = 69;

/// The code of a setting that is out of its range is this plus the setting's place.
pub(crate) const BAD_SETTING: i32 = 100;

/// Makes a path with these settings in an empty handle: no station is live, no frame was accepted, and the
/// addresses are placeholders. Returns 0; 69 if the handle holds a path already; 100 plus the place of the
/// first setting that is out of its range; or 60 if there is no memory. After an error the handle is as
/// before.
#[unsafe(no_mangle)]
pub extern "C" fn wf_path_make(alloc: Global, path: &mut PathSlot, settings: &Settings) -> i32
    ensures in_use { is_some path.old.value ≡ true →
        (result ≡ pos in_use) × (path.new.value ≡ path.old.value) }
    ensures code { path.old.value ≡ None → IsMadeCode (bad_place settings.now) result }
    ensures stands { result ≡ pos 0 → (bodies : ℕ → FrameValue) →
        HoldsFor path.new.value (opening (config_of settings.now)) bodies }
    ensures small { result ≡ pos 0 → HoldsSmall path.new.value }
    ensures addresses { result ≡ pos 0 → addresses_held path.new.value ≡ made_up }
    ensures nothing { (result ≡ pos 0) ⊎ (path.new.value ≡ path.old.value) }
{
    if path.is_full(alloc) {
        return IN_USE;
    }
    if let Some(place) = settings.fault() {
        return BAD_SETTING + i32::from(place);
    }
    match Held::made(alloc, settings.config()) {
        Some(held) => {
            path.put(held);
            0
        }
        None => NO_MEMORY,
    }
}

/// Frees the path of a handle, if it holds one, with all frames inside. The handle is then empty.
#[unsafe(no_mangle)]
pub extern "C" fn wf_path_free(alloc: Global, path: &mut PathSlot)
    ensures { path.new.value ≡ None }
{
    drop(path.take(alloc));
}
