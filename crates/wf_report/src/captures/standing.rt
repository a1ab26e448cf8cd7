//! The questions that a capture asks a cell.

ghost use Rattle.std.specs.Prelude.{◌≡◌, ◌<◌, ℕ, Some, option_map, IfSome};
ghost use Rattle.wf_cell.specs.Cells.{with_entry};
ghost use Rattle.wf_send_parts.specs.Group.{world_frame};
ghost use Rattle.wf_frame.specs.declared.notes.Note.{Note as Call};
ghost use Rattle.wf_path.specs.Transmissions.{sent_of};
ghost use Rattle.wf_def_world.specs.Run.{Past, by};
ghost use Rattle.wf_def_world.specs.Group.{bss_count};
ghost use Rattle.wf_def_world.specs.World.{exchange as exchange_in, group_of};
ghost use Rattle.wf_report.specs.Samples.{world_behind};

use wf_cell::Cell;
use wf_frame::Note;
use wf_path::Sent;
use wf_send_parts::group::GroupFrame;

/// Returns the station, the TID and the transmissions of an open exchange.
pub(crate) fn sent(cell: &Cell, exchange: u64) -> Option<Sent>
    ensures told { result ≡ option_map sent_of (exchange_in (world_behind cell.now) exchange) }
    ensures tid { IfSome result (λ sent. sent.tid < 8) }
{
    cell.path().sent(exchange)
}

/// Returns the group frame of a BSS that is on the air, if there is one.
pub(crate) fn flying(cell: &Cell, bss: u8) -> Option<GroupFrame>
    requires { bss < bss_count (world_behind cell.now).config.bsses }
    ensures { option_map world_frame result ≡ (group_of (world_behind cell.now) bss).flying }
{
    cell.path().group_frame(bss)
}

/// Returns how many sequence numbers the beacons and the group frames of a BSS have taken.
pub(crate) fn numbers(cell: &Cell, bss: u8) -> u64
    requires { bss < bss_count (world_behind cell.now).config.bsses }
    ensures { result ≡ (group_of (world_behind cell.now) bss).number }
{
    cell.path().group_counts(bss).numbers
}

/// Returns the call that was made last.
#[tactic(auto, using(crate::proofs::Cells::last_entry))]
pub(crate) fn last_call(cell: &Cell) -> Option<Note>
    ensures { (past : Past) (caller : ℕ) (note : Call) → cell.now.past ≡ with_entry (by caller note) past →
        result ≡ Some note }
{
    match cell.last() {
        Some((_, note)) => Some(note),
        None => None,
    }
}
