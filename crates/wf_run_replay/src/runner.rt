//! The loop that replays a trace: it makes the calls on a stage, in order, and writes an answer to each.

ghost use Rattle.std.specs.Prelude.{◌≡◌, ◌≢◌, ◌<◌, ◌++◌, [], Err, IsSomeAnd, IsTrue, OnOk, option_map};
ghost use Rattle.wf_cell.specs.Cells.{calls_left_in, with_entry};
ghost use Rattle.wf_io.specs.Faults.{HasRisen};
ghost use Rattle.wf_law_runs.specs.Queues.{HasLength, IsAtMost};
ghost use Rattle.wf_def_lists.specs.Lengths.{greatest_body};
ghost use Rattle.wf_io.specs.Fronts.{HoldsFront};
ghost use Rattle.wf_trace.specs.CommandEnds.{CommandEnds};
ghost use Rattle.wf_trace.specs.declared.reader.Item.TheVariants as item;
ghost use Rattle.wf_def_world.specs.Run.{by};
ghost use Rattle.wf_trace_laws.specs.Endings.{TraceAnswered};
ghost use Rattle.wf_trace_laws.specs.Leaving.{Leaves};
ghost use Rattle.wf_trace_laws.specs.Outcomes.{TraceOutcome};
ghost use Rattle.wf_trace_laws.specs.Running.{world_in};
ghost use Rattle.wf_trace_laws.specs.Tellings.{told_item, told_so_far, told_whole};

use crate::{Plays, Tells};
use std::alloc::Global;
use wf_frame::{Answer, Note};
use wf_io::{Sink, Source, Status};
use wf_trace::script::Unanswered;
use wf_trace::{Item, TraceReader};

// Makes a call on the stage that the head opened, and passes its answer to the teller. If memory for its
// frame runs out, nothing is written.
fn make<T: Tells, M: Plays, K: Sink>(
    teller: &mut T,
    stage: &mut Option<M>,
    caller: u32,
    note: Note,
    answer: &mut Answer,
    due: bool,
    sink: &mut K,
) -> Result<(), Unanswered>
    requires room { IsSomeAnd (option_map M.past stage.old) (λ p. 0 < calls_left_in p) }
    requires some { HasLength note }
    requires most { IsAtMost greatest_body note }
    ensures past { OnOk result (option_map M.past stage.new
        ≡ option_map (λ p. with_entry (by caller note) p) (option_map M.past stage.old)) }
    ensures leaves { OnOk result (Leaves (K.held sink.old) (K.held sink.new)
        (T.waiting teller.old ++ told_item T.telling (world_in (option_map M.past stage.old))
        (item.Entry caller note)) (T.waiting teller.new)) }
    ensures none { OnOk result (IsTrue due → T.waiting teller.new ≡ []) }
    ensures front { HoldsFront (K.held sink.old) (K.held sink.new)
        (T.waiting teller.old ++ told_item T.telling (world_in (option_map M.past stage.old))
        (item.Entry caller note)) }
    ensures cause { result ≡ Err Unanswered.Sink → HasRisen (K.faults sink.old) (K.faults sink.new) }
    ensures quiet { result ≢ Err Unanswered.Sink → K.faults sink.new ≡ K.faults sink.old }
{
    let Some(stage) = stage else {
        unreachable!();
    };
    match stage.call(caller, note, answer) {
        Ok(()) => {}
        Err(_) => return Err(Unanswered::Memory),
    }
    match teller.tell_call(stage, answer, due, sink) {
        Ok(()) => Ok(()),
        Err(_) => Err(Unanswered::Sink),
    }
}

/// Reads a trace from the source, makes its calls on a stage, and passes the answers to the teller.
///
/// The status says which octets of the input were read and which octets of the telling were written. The
/// octets for all calls that were read are written before the source is read again. Octets after the `end`
/// line are ignored.
pub fn play<T: Tells, M: Plays, S: Source, K: Sink>(
    alloc: Global,
    teller: &mut T,
    source: &mut S,
    sink: &mut K,
) -> Status
    requires { T.waiting teller.old ≡ [] }
    ensures ends { CommandEnds S.left S.faults K.held K.faults
        (TraceOutcome (λ r. told_so_far T.telling r) (λ r. told_whole T.telling r)) TraceAnswered
        source.old source.new sink.old sink.new result }
{
    let Ok(mut reader) = TraceReader::new(alloc) else {
        return Status::NoMemory;
    };
    match teller.tell_front(sink) {
        Ok(()) => {}
        Err(_) => return Status::WriteFault,
    }
    let mut stage: Option<M> = None;
    let mut answer = Answer::new();
    'items: loop {
        match reader.next(source) {
            Err(_) => return Status::ReadFault,
            Ok(Item::Head(config)) => match M::open(alloc, config) {
                Ok(opened) => stage = Some(opened),
                Err(_) => return Status::NoMemory,
            },
            Ok(Item::Entry(caller, note)) => {
                let due = reader.will_read();
                match make(teller, &mut stage, caller, note, &mut answer, due, sink) {
                    Ok(()) => {}
                    Err(Unanswered::Sink) => return Status::WriteFault,
                    Err(Unanswered::Memory) => return Status::NoMemory,
                }
            }
            Ok(Item::Finish) => match teller.tell_end(&stage, sink) {
                Ok(()) => return Status::Done,
                Err(_) => return Status::WriteFault,
            },
            Ok(Item::Bad(fault)) => match teller.tell_fault(fault, sink) {
                Ok(()) => return Status::BadTrace,
                Err(_) => return Status::WriteFault,
            },
        }
    }
}
