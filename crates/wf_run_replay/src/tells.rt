//! The interface that says what to write while a trace is played.

ghost use Rattle.std.specs.Prelude.{◌≡◌, ◌++◌, [], List, ℕ, Option, Some, IsTrue, OnOk, option_map};
ghost use Rattle.std.specs.Io.KnownBytes.{append_known};
ghost use Rattle.wf_cell.specs.Cells.{with_entry};
ghost use Rattle.wf_frame.specs.Answers.{reply_of};
ghost use Rattle.wf_frame.specs.declared.notes.Note.{Note};
ghost use Rattle.wf_io.specs.Faults.{CountsFaults};
ghost use Rattle.wf_io.specs.Fronts.{HoldsFront};
ghost use Rattle.wf_trace.specs.declared.reader.Item.TheVariants as item;
ghost use Rattle.wf_def_world.specs.Run.{Past, by, world_of};
ghost use Rattle.wf_def_world.specs.Step.{step};
ghost use Rattle.wf_def_world.specs.World.{World};
ghost use Rattle.wf_trace_laws.specs.Leaving.{Leaves};
ghost use Rattle.wf_trace_laws.specs.Tellings.{Telling};
ghost use Rattle.wf_run_replay.specs.Running.{told_at_end};

use crate::Plays;
use wf_frame::Answer;
use wf_io::{Failed, Sink};
use wf_trace::Fault;

/// Says what to write while a trace is played, and writes it. Some of the octets may wait to be written.
/// After a failed write the sink holds a prefix of the waiting octets and the new ones.
pub trait Tells {
    /// The octets to write: those before all calls, those of each call, and the last ones.
    ghost telling: { Telling };

    /// The octets that wait to be written.
    ghost waiting: { Self → List ℕ };

    /// Writes the octets before all calls.
    fn tell_front<K: Sink>(&mut self, sink: &mut K) -> Result<(), Failed>
        requires { waiting self.old ≡ [] }
        ensures written { OnOk result (K.held sink.new ≡ append_known (K.held sink.old) telling.front) }
        ensures none { OnOk result (waiting self.new ≡ []) }
        ensures front { HoldsFront (K.held sink.old) (K.held sink.new) telling.front }
        ensures cause { CountsFaults (K.faults sink.old) (K.faults sink.new) result };

    /// Adds the octets of a call, from its answer and the stage after it, and writes everything if `due` is
    /// set.
    fn tell_call<M: Plays, K: Sink>(
        &mut self,
        stage: &M,
        answer: &Answer,
        due: bool,
        sink: &mut K,
    ) -> Result<(), Failed>
        ensures leaves { OnOk result ((past : Past) (caller : ℕ) (note : Note) →
            M.past stage.now ≡ with_entry (by caller note) past →
            reply_of answer.now ≡ (step (world_of past) note).reply →
            Leaves (K.held sink.old) (K.held sink.new)
            (waiting self.old ++ telling.call (world_of past) note) (waiting self.new)) }
        ensures none { OnOk result (IsTrue due → waiting self.new ≡ []) }
        ensures front { (past : Past) (caller : ℕ) (note : Note) →
            M.past stage.now ≡ with_entry (by caller note) past →
            reply_of answer.now ≡ (step (world_of past) note).reply →
            HoldsFront (K.held sink.old) (K.held sink.new)
            (waiting self.old ++ telling.call (world_of past) note) }
        ensures cause { CountsFaults (K.faults sink.old) (K.faults sink.new) result };

    /// Adds the octets of the end of the trace, from the stage after all calls, if there is one, and writes
    /// everything.
    fn tell_end<M: Plays, K: Sink>(&mut self, stage: &Option<M>, sink: &mut K) -> Result<(), Failed>
        ensures written { OnOk result (K.held sink.new ≡ append_known (K.held sink.old)
            (waiting self.old ++ told_at_end telling (option_map M.past stage.now))) }
        ensures front { HoldsFront (K.held sink.old) (K.held sink.new)
            (waiting self.old ++ told_at_end telling (option_map M.past stage.now)) }
        ensures cause { CountsFaults (K.faults sink.old) (K.faults sink.new) result };

    /// Adds the octets of a fault, which do not depend on the calls before it, and writes everything.
    fn tell_fault<K: Sink>(&mut self, fault: Fault, sink: &mut K) -> Result<(), Failed>
        ensures written { OnOk result ((world : Option World) (calls : ℕ) →
            K.held sink.new ≡ append_known (K.held sink.old)
            (waiting self.old ++ telling.last world calls (Some (item.Bad fault)))) }
        ensures front { (world : Option World) (calls : ℕ) →
            HoldsFront (K.held sink.old) (K.held sink.new)
            (waiting self.old ++ telling.last world calls (Some (item.Bad fault))) }
        ensures cause { CountsFaults (K.faults sink.old) (K.faults sink.new) result };
}
