//! Answers a script, event by event.

ghost use Rattle.std.specs.Prelude.{◌≡◌, OnOk};
ghost use Rattle.std.specs.Io.KnownBytes.{append_known};
ghost use Rattle.wf_trace.specs.CommandEnds.{CommandEnds};
ghost use Rattle.wf_io.specs.Faults.{CountsFaults};
ghost use Rattle.wf_io.specs.Fronts.{HoldsFront};
ghost use Rattle.wf_trace.specs.Faults.{fault_line};
ghost use Rattle.wf_trace.specs.ScriptOutcome.{ScriptOutcome, ScriptAnswered};

use crate::script::answers::{Answers, Unanswered};
use crate::script::ending::Ending;
use crate::script::reading::{Item, next_item};
use crate::{Cut, Fault, print_fault};
use std::alloc::Global;
use wf_io::{Failed, Line, Sink, Source, Status, write_line};

// Writes the line of a fault.
fn write_fault<K: Sink>(fault: Fault, sink: &mut K) -> Result<(), Failed>
    ensures written { OnOk result (K.held sink.new ≡ append_known (K.held sink.old) (fault_line fault)) }
    ensures front { HoldsFront (K.held sink.old) (K.held sink.new) (fault_line fault) }
    ensures cause { CountsFaults (K.faults sink.old) (K.faults sink.new) result }
{
    let mut line = Line::new();
    print_fault(fault, &mut line);
    write_line(sink, &line)
}

/// Reads a script from the source, and writes the answer to each event before it reads the next. After the
/// line `end` it writes the last lines of the command; at the first fault it writes the line of that fault
/// instead. It does not look at octets after the line `end`. It may run out of memory at the start, and
/// later only at events at which the command allows that.
pub fn converse<C: Answers, S: Source, K: Sink>(
    alloc: Global,
    command: &mut C,
    source: &mut S,
    sink: &mut K,
) -> Status
    ensures ends { CommandEnds S.left S.faults K.held K.faults (ScriptOutcome C.grammar C.manner command.old)
        (ScriptAnswered C.grammar) source.old source.new sink.old sink.new result }
{
    let Ok(mut cut) = Cut::new(alloc) else {
        return Status::NoMemory;
    };
    let mut count = 0;
    'lines: loop {
        match next_item::<C, S>(&mut cut, count, source) {
            Err(_) => return Status::ReadFault,
            Ok(Item::Event(event)) => match command.answer(event, sink) {
                Ok(()) => count += 1,
                Err(Unanswered::Sink) => return Status::WriteFault,
                Err(Unanswered::Memory) => return Status::NoMemory,
            },
            Ok(Item::Ended(Ending::Finish)) => match command.close(sink) {
                Ok(()) => return Status::Done,
                Err(_) => return Status::WriteFault,
            },
            Ok(Item::Ended(Ending::Bad(fault))) => match write_fault(fault, sink) {
                Ok(()) => return Status::BadTrace,
                Err(_) => return Status::WriteFault,
            },
        }
    }
}
