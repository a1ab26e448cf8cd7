//! Makes the opening calls.

ghost use Rattle.std.specs.Prelude.{◌≡◌, ◌+◌, ◌*◌, ◌<◌, ◌≤◌, ◌∷◌, [], length};
ghost use Rattle.wf_frame.specs.declared.notes.Note.TheVariants.{Asked};
ghost use Rattle.wf_def_world.specs.Run.{Past, by};
ghost use Rattle.wf_run_histories.specs.Opening.{with_entries, station_calls, opening_calls};

use crate::soak::workers::{standard_join, standard_rate};
use wf_frame::Ask;

/// The caller that makes the opening calls. No seat at a gate has this number.
const OPENER: u32 = 65_535;

/// A machine on which the opening calls are made.
pub trait Opens {
    /// The settings, and the calls that were made.
    ghost past: { Self → Past };

    /// Makes a call that has no frame.
    fn ask(&mut self, caller: u32, ask: Ask)
        requires room { length (past self.old).history < (past self.old).config.calls }
        ensures past { past self.new ≡ with_entries (by caller (Asked ask) ∷ []) (past self.old) };
}

// Makes a station join, and sets its rate.
fn open_station<M: Opens>(machine: &mut M, station: u16)
    requires room { length (M.past machine.old).history + 2 ≤ (M.past machine.old).config.calls }
    requires few { station < 8 }
    ensures past { M.past machine.new ≡ with_entries (station_calls station) (M.past machine.old) }
{
    machine.ask(OPENER, standard_join(station, 512 * station));
    machine.ask(OPENER, standard_rate(station));
}

/// Makes `stations` standard stations join, at most 8, and sets their rates, as caller 65535. The window of a
/// station starts at 512 times its number. The history needs room for two calls of each.
pub fn open_stations<M: Opens>(machine: &mut M, stations: u16)
    requires room { length (M.past machine.old).history + 2 * stations ≤ (M.past machine.old).config.calls }
    requires few { stations ≤ 8 }
    ensures past { M.past machine.new ≡ with_entries (opening_calls stations) (M.past machine.old) }
{
    for station in 0..stations {
        open_station(machine, station);
    }
}
