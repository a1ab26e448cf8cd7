//! Making and freeing a cell.

ghost use Rattle.std.specs.Prelude.{◌≡◌, ◌⊎◌, ℕ, [], None, true, is_some, pos};
ghost use Rattle.wf_frame.specs.Frames.{FrameValue};
ghost use Rattle.wf_def_world.specs.World.{opening};
ghost use Rattle.wf_c.specs.CellCalls.{HasPast, StandsIn};
ghost use Rattle.wf_c.specs.Making.{IsMadeCode, bad_place, config_of, in_use};

use crate::cell::held::HeldCell;
use crate::cell::slot::CellSlot;
use crate::make::{BAD_SETTING, IN_USE, NO_MEMORY};
use crate::settings::Settings;
use std::alloc::Global;

/// Makes a cell with these settings in an empty handle: no station is live, and no call was made. Returns 0;
/// 69 if the handle holds a cell already; 100 plus the place of the first setting that is out of its range;
/// or 60 if there is no memory. After an error the handle is as before.
#[unsafe(no_mangle)]
pub extern "C" fn wf_cell_make(alloc: Global, cell: &mut CellSlot, settings: &Settings) -> i32
    ensures in_use { is_some cell.old.value ≡ true →
        (result ≡ pos in_use) × (cell.new.value ≡ cell.old.value) }
    ensures code { cell.old.value ≡ None → IsMadeCode (bad_place settings.now) result }
    ensures past { result ≡ pos 0 → HasPast cell.new.value
        (record { config = config_of settings.now; history = [] }) }
    ensures stands { result ≡ pos 0 → (bodies : ℕ → FrameValue) →
        StandsIn cell.new.value (opening (config_of settings.now)) bodies }
    ensures nothing { (result ≡ pos 0) ⊎ (cell.new.value ≡ cell.old.value) }
{
    if cell.is_full(alloc) {
        return IN_USE;
    }
    if let Some(place) = settings.fault() {
        return BAD_SETTING + i32::from(place);
    }
    match HeldCell::made(alloc, settings.config()) {
        Some(held) => {
            cell.put(held);
            0
        }
        None => NO_MEMORY,
    }
}

/// Frees the cell of a handle, if it holds one, with all frames inside and its history. The handle is then
/// empty.
#[unsafe(no_mangle)]
pub extern "C" fn wf_cell_free(alloc: Global, cell: &mut CellSlot)
    ensures { cell.new.value ≡ None }
{
    drop(cell.take(alloc));
}
