//! Reading a cell's history, without a call of the machine.

ghost use Rattle.std.specs.Prelude.{◌≡◌, true, is_some, length, slice_get, IfSome};
ghost use Rattle.wf_def_world.specs.Run.{Past};
ghost use Rattle.wf_cell.specs.Cells.{calls_left_in};
ghost use Rattle.wf_c.specs.CellCalls.{HasPast, ShowsEntry};

use crate::cell::calls::CallNumbers;
use crate::cell::held::HeldCell;
use crate::cell::slot::CellSlot;
use crate::reply::refusal_code;
use wf_frame::{Note, Refusal};

/// Returns how many entries the history has.
#[unsafe(no_mangle)]
pub extern "C" fn wf_cell_len(cell: &mut CellSlot) -> u64
    requires open { is_some cell.old.value ≡ true }
    ensures count { (p : Past) → HasPast cell.old.value p → result ≡ length p.history }
    ensures unchanged { cell.new.value ≡ cell.old.value }
{
    cell.held().cell.len()
}

/// Returns how many more entries the history has room for.
#[unsafe(no_mangle)]
pub extern "C" fn wf_cell_room(cell: &mut CellSlot) -> u64
    requires open { is_some cell.old.value ≡ true }
    ensures room { (p : Past) → HasPast cell.old.value p → result ≡ calls_left_in p }
    ensures unchanged { cell.new.value ≡ cell.old.value }
{
    cell.held().cell.calls_left()
}

impl HeldCell {
    // An entry of the history, counted from 0. None if the history is shorter.
    fn entry(&self, place: u64) -> Option<(u32, Note)>
        ensures { result ≡ slice_get self.now.cell.past.history place }
    {
        if place < self.cell.len() {
            Some(self.cell.entry(place))
        } else {
            None
        }
    }
}

/// Writes an entry of the history, counted from 0: the caller and the call. Returns 0; or 9 if the history is
/// shorter, and then writes nothing.
#[unsafe(no_mangle)]
pub extern "C" fn wf_cell_entry(
    cell: &mut CellSlot,
    place: u64,
    caller: &mut u32,
    call: &mut CallNumbers,
) -> i32
    requires open { is_some cell.old.value ≡ true }
    ensures entry { IfSome cell.old.value (λ h. ShowsEntry
        (slice_get h.cell.past.history place) caller.old call.old result caller.new call.new) }
    ensures unchanged { cell.new.value ≡ cell.old.value }
{
    match cell.held().entry(place) {
        Some((who, note)) => {
            *caller = who;
            *call = CallNumbers::of(note);
            0
        }
        None => refusal_code(Refusal::BadIndex),
    }
}
