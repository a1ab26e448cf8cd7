//! Writes the history of a record.

ghost use Rattle.std.specs.Prelude.{◌≡◌, OnOk, length};
ghost use Rattle.std.specs.Io.KnownBytes.{append_known};
ghost use Rattle.wf_frame.specs.Settings.{standard};
ghost use Rattle.wf_def_world.specs.Run.{world_of};
ghost use Rattle.wf_def_world.specs.Text.{summary as summary_of};
ghost use Rattle.wf_io.specs.Faults.{CountsFaults};
ghost use Rattle.wf_io.specs.Fronts.{HoldsFront};
ghost use Rattle.wf_trace.specs.Traces.{ArePrintable, CanBeNamed};
ghost use Rattle.wf_run_histories.specs.Lives.{live_text};

use std::marker::Model;
use wf_cell::record::Record;
use wf_frame::Note;
use wf_io::{Failed, Sink};
use wf_report::summary;
use wf_trace::script::history::{Entries, write_trace};

/// The history that a record keeps.
#[derive(Drop)]
pub(crate) struct Kept<'a> {
    cell: &'a Record,
}

impl<'a> Model for Kept<'a> {
    ghost use Rattle.std.specs.Prelude.{List};
    ghost use Rattle.wf_def_world.specs.Run.{Entry};

    ghost Value = { List Entry };

    ghost view = { λ k. k.cell.now.past.history };
}

impl<'a> Entries for Kept<'a> {
    ghost entries = { λ k. k };

    fn len(&self) -> u64 {
        self.cell.len()
    }

    fn entry(&self, place: u64) -> (u32, Note) {
        self.cell.entry(place)
    }
}

/// Writes the trace and the summary of a record's history. After a failed write the sink holds a prefix of
/// the text.
pub(crate) fn write_history<K: Sink>(cell: &Record, sink: &mut K) -> Result<(), Failed>
    requires standard { cell.now.past.config ≡ standard }
    requires printable { ArePrintable cell.now.past.history }
    ensures written { OnOk result (K.held sink.new
        ≡ append_known (K.held sink.old) (live_text cell.now.past.history)) }
    ensures front { HoldsFront (K.held sink.old) (K.held sink.new) (live_text cell.now.past.history) }
    ensures range { OnOk result (CanBeNamed cell.now.past.history) }
    ensures cause { CountsFaults (K.faults sink.old) (K.faults sink.new) result }
{
    write_trace(&Kept { cell }, sink)?;
    write_summary(cell, sink)
}

// Writes the summary of a record's cell.
fn write_summary<K: Sink>(cell: &Record, sink: &mut K) -> Result<(), Failed>
    ensures written { OnOk result (K.held sink.new ≡ append_known (K.held sink.old)
        (summary_of (world_of cell.now.past) (length cell.now.past.history))) }
    ensures front { HoldsFront (K.held sink.old) (K.held sink.new)
        (summary_of (world_of cell.now.past) (length cell.now.past.history)) }
    ensures cause { CountsFaults (K.faults sink.old) (K.faults sink.new) result }
{
    summary(cell.cell(), sink)
}
