//! The questions that a summary asks a cell. The answers describe the world after the cell's history.

ghost use Rattle.std.specs.Prelude.{◌≡◌, ◌<◌, ◌≤◌, length, take, true};
ghost use Rattle.wf_send_parts.specs.Tally.{held_in, counts_of};
ghost use Rattle.wf_frame.specs.declared.classes.Cause.TheVariants.{Overlimit, Codel, Retries, Left, Flushed, Ended};
ghost use Rattle.wf_frame.specs.declared.classes.Fate.TheVariants.{Held, Acked, Dropped};
ghost use Rattle.wf_def_world.specs.Group.{bss_count};
ghost use Rattle.wf_def_world.specs.World.{accepted_count, group_of, is_live, share};
ghost use Rattle.wf_def_world.specs.Run.{world_of};
ghost use Rattle.wf_def_world.specs.Text.{tally as tally_in, beacon_map, with_traffic};
ghost use Rattle.wf_send_half.specs.Group.{counts_in_state};

use wf_cell::Cell;
use wf_frame::Class;
use wf_send_parts::group::GroupCounts;
use wf_send_parts::stations::Tally;

/// Returns the number of station numbers, 1 to 256.
pub fn stations(cell: &Cell) -> u16
    ensures { result ≡ (world_of cell.now.past).config.stations }
{
    cell.path().config().stations as u16
}

/// Returns how many group frames may be queued: the setting `buffered`, 0 to 65535.
pub fn buffered(cell: &Cell) -> u32
    ensures { result ≡ (world_of cell.now.past).config.buffered }
{
    cell.path().config().buffered
}

/// Returns the number of BSSs, 1 to 16.
pub fn bsses(cell: &Cell) -> u8
    ensures { result ≡ bss_count (world_of cell.now.past).config.bsses }
{
    cell.path().bss_count() as u8
}

/// Returns the counts of the group frames of a BSS.
pub fn group_counts(cell: &Cell, bss: u8) -> GroupCounts
    requires { bss < bss_count (world_of cell.now.past).config.bsses }
    ensures { result ≡ counts_in_state (group_of (world_of cell.now.past) bss) }
{
    cell.path().group_counts(bss)
}

/// Returns the number of exchanges that have begun.
pub fn exchanges(cell: &Cell) -> u64
    ensures { result ≡ (world_of cell.now.past).exchanges }
{
    cell.path().exchanges()
}

/// Returns the number of open exchanges.
pub fn open_exchanges(cell: &Cell) -> u64
    ensures { result ≡ length (world_of cell.now.past).opened }
{
    u64::from(cell.path().open_count())
}

/// Returns the counts of accepted frames, by fate.
pub fn tally(cell: &Cell) -> Tally
    ensures accepted { result.accepted ≡ accepted_count (world_of cell.now.past) }
    ensures acked { result.acked ≡ tally_in (world_of cell.now.past) Acked }
    ensures overlimit { result.overlimit ≡ tally_in (world_of cell.now.past) (Dropped Overlimit) }
    ensures codel { result.codel ≡ tally_in (world_of cell.now.past) (Dropped Codel) }
    ensures retries { result.retries ≡ tally_in (world_of cell.now.past) (Dropped Retries) }
    ensures left { result.left ≡ tally_in (world_of cell.now.past) (Dropped Left) }
    ensures flushed { result.flushed ≡ tally_in (world_of cell.now.past) (Dropped Flushed) }
    ensures ended { result.ended ≡ tally_in (world_of cell.now.past) (Dropped Ended) }
    ensures held { held_in (counts_of result) ≡ tally_in (world_of cell.now.past) Held }
{
    cell.path().tally()
}

/// Returns whether a station is live.
pub fn live(cell: &Cell, station: u16) -> bool
    ensures { result ≡ is_live (world_of cell.now.past) station }
{
    cell.path().live(station)
}

/// Returns the deficit of a live station in a class, in microseconds.
pub fn deficit(cell: &Cell, station: u16, class: Class) -> i64
    requires { is_live (world_of cell.now.past) station ≡ true }
    ensures { result ≡ (share (world_of cell.now.past) station class).deficit }
{
    cell.path().deficit(station, class)
}

/// Returns the airtime of a live station's exchanges in a class since its join, in microseconds.
pub fn charged(cell: &Cell, station: u16, class: Class) -> u64
    requires { is_live (world_of cell.now.past) station ≡ true }
    ensures { result ≡ (share (world_of cell.now.past) station class).charged }
{
    cell.path().charged(station, class)
}

/// Returns the airtime that a live station used to send in a class since its join, in microseconds.
pub fn received(cell: &Cell, station: u16, class: Class) -> u64
    requires { is_live (world_of cell.now.past) station ≡ true }
    ensures { result ≡ (share (world_of cell.now.past) station class).received }
{
    cell.path().received(station, class)
}

/// Writes the TIM element of the latest beacon of a BSS (IEEE 802.11-2012, 8.4.2.7) with its stations that
/// have traffic now, and returns its number of octets.
pub fn traffic(cell: &Cell, bss: u8, out: &mut [u8; 256]) -> usize
    requires { bss < bss_count (world_of cell.now.past).config.bsses }
    ensures count { result ≤ length out.new }
    ensures octets { take result out.new
        ≡ beacon_map (world_of cell.now.past) bss (with_traffic (world_of cell.now.past) bss) }
{
    cell.path().tim(bss, out).min(out.len())
}
