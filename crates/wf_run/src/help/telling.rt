//! Writes the help and the version.

ghost use Rattle.std.specs.Prelude.{◌≡◌, ◌≢◌, ℕ, List};
ghost use Rattle.std.specs.Io.KnownBytes.{append_known};
ghost use Rattle.wf_io.specs.Faults.{HasRisen};
ghost use Rattle.wf_run.specs.Telling.{TellingStatusSays};
ghost use Rattle.wf_run.specs.Topics.{help_text, version_text};

use crate::help::Topic;
use crate::help::texts::{USAGE, VERSION};
use wf_io::{Sink, Status, write_all};

// Writes a text.
fn told<K: Sink>(text: &[u8], sink: &mut K) -> Status
    ensures text { (written : List ℕ) × (K.held sink.new ≡ append_known (K.held sink.old) written) ×
        TellingStatusSays result text.now written }
    ensures write { result ≡ Status.WriteFault → HasRisen (K.faults sink.old) (K.faults sink.new) }
    ensures sink_quiet { result ≢ Status.WriteFault → K.faults sink.new ≡ K.faults sink.old }
{
    match write_all(sink, text) {
        Ok(()) => Status::Done,
        Err(_) => Status::WriteFault,
    }
}

/// Writes the help on a topic.
pub fn help<K: Sink>(topic: Topic, sink: &mut K) -> Status
    ensures text { (written : List ℕ) × (K.held sink.new ≡ append_known (K.held sink.old) written) ×
        TellingStatusSays result (help_text topic) written }
    ensures write { result ≡ Status.WriteFault → HasRisen (K.faults sink.old) (K.faults sink.new) }
    ensures sink_quiet { result ≢ Status.WriteFault → K.faults sink.new ≡ K.faults sink.old }
{
    told(topic.text(), sink)
}

/// Writes the version.
pub fn version<K: Sink>(sink: &mut K) -> Status
    ensures text { (written : List ℕ) × (K.held sink.new ≡ append_known (K.held sink.old) written) ×
        TellingStatusSays result version_text written }
    ensures write { result ≡ Status.WriteFault → HasRisen (K.faults sink.old) (K.faults sink.new) }
    ensures sink_quiet { result ≢ Status.WriteFault → K.faults sink.new ≡ K.faults sink.old }
{
    told(VERSION, sink)
}

/// Returns the usage: the ways to call the program, one per line.
pub fn usage() -> &'static str {
    USAGE
}
