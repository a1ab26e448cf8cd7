//! Writes the packets of a call.

ghost use Rattle.std.specs.Prelude.{◌≡◌, ℕ, OnOk};
ghost use Rattle.std.specs.Io.KnownBytes.{append_known};
ghost use Rattle.wf_cell.specs.Cells.{with_entry};
ghost use Rattle.wf_frame.specs.Answers.{reply_of};
ghost use Rattle.wf_frame.specs.declared.notes.Note.{Note};
ghost use Rattle.wf_io.specs.Faults.{CountsFaults};
ghost use Rattle.wf_io.specs.Fronts.{HoldsFront};
ghost use Rattle.wf_def_world.specs.Run.{Past, by, world_of};
ghost use Rattle.wf_def_world.specs.Step.{step};
ghost use Rattle.wf_report.specs.Captures.{packets_of};
ghost use Rattle.wf_report.specs.Samples.{IsSampled};

use crate::captures::standing::last_call;
use crate::captures::writing::write_frames;
use wf_cell::Cell;
use wf_frame::Answer;
use wf_io::{Failed, Sink};

/// Writes the packets of the cell's last call, from its answer, at the time of the clock in microseconds. For
/// a pull these are all transmissions of the exchange that it began, by index, whether or not they arrive
/// later. For an `answer` it is the BlockAck or the Ack, for a `beacon` the beacon, and for a `gpull` the
/// group frame. Other calls have no packets.
///
/// After a failed write the sink holds a prefix of the packets. The frames of the cell must be those of a
/// trace's calls.
pub fn write_packets<K: Sink>(cell: &Cell, answer: &Answer, sink: &mut K) -> Result<(), Failed>
    requires samples { IsSampled cell.now }
    ensures written { OnOk result ((past : Past) (caller : ℕ) (note : Note) →
        cell.now.past ≡ with_entry (by caller note) past →
        reply_of answer.now ≡ (step (world_of past) note).reply →
        K.held sink.new ≡ append_known (K.held sink.old) (packets_of (world_of past) note)) }
    ensures front { (past : Past) (caller : ℕ) (note : Note) →
        cell.now.past ≡ with_entry (by caller note) past →
        reply_of answer.now ≡ (step (world_of past) note).reply →
        HoldsFront (K.held sink.old) (K.held sink.new) (packets_of (world_of past) note) }
    ensures cause { CountsFaults (K.faults sink.old) (K.faults sink.new) result }
{
    match last_call(cell) {
        None => Ok(()),
        Some(note) => write_frames(cell, &note, answer, sink),
    }
}
