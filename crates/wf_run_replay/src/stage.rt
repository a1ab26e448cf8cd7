//! The stage: the machine on which a trace is played.

ghost use Rattle.std.specs.Prelude.{◌≡◌, ◌<◌, [], IfOk, OnOk};
ghost use Rattle.wf_report.specs.Samples.{IsSampled};
ghost use Rattle.wf_cell.specs.Cells.{calls_left_in, with_entry};
ghost use Rattle.wf_frame.specs.Answers.{reply_of};
ghost use Rattle.wf_frame.specs.Settings.{IsInRange};
ghost use Rattle.wf_law_runs.specs.Queues.{HasLength, IsAtMost};
ghost use Rattle.wf_def_lists.specs.Lengths.{greatest_body};
ghost use Rattle.wf_def_world.specs.Run.{Past, by, world_of};
ghost use Rattle.wf_def_world.specs.Step.{step};

use std::alloc::{AllocError, Global};
use std::marker::Model;
use wf_cell::{Cell, Job};
use wf_frame::{Answer, Config, Frame, Note};
use wf_queue_parts::chain::Parcel;

/// A machine on which the calls of a trace are made. The commands that play traces are proved for every type
/// with these three functions, so their proofs do not depend on the parts of a cell.
pub trait Plays: Drop {
    /// The settings, and the calls that were made.
    ghost past: { Self → Past };

    /// Returns a stage with these settings and no calls. Fails only if memory runs out.
    fn open(alloc: Global, config: Config) -> Result<Self, AllocError>
    where
        Self: Sized,
        requires { IsInRange config }
        ensures { IfOk result (λ stage. past stage ≡ record { config = config; history = [] }) };

    /// Makes the call of a line. A frame that the call returns is dropped. Fails only if memory for a frame
    /// runs out.
    fn call(&mut self, caller: u32, note: Note, answer: &mut Answer) -> Result<(), AllocError>
        requires room { 0 < calls_left_in (past self.old) }
        requires some { HasLength note }
        requires most { IsAtMost greatest_body note }
        ensures past { OnOk result (past self.new ≡ with_entry (by caller note) (past self.old)) }
        ensures reply { OnOk result (reply_of answer.new ≡ (step (world_of (past self.old)) note).reply) };

    /// Returns the cell. Its frames are frames of a trace: octet j of a body is the low octet of the flow's
    /// number plus j.
    fn cell(&self) -> &Cell
        ensures past { result.now.past ≡ past self.now }
        ensures samples { IsSampled result.now };
}

/// A cell, and the allocator of its frames.
#[derive(Drop)]
pub struct Stage {
    cell: Cell,
    alloc: Global,
}

impl Model for Stage {
    ghost use Rattle.wf_report.specs.Samples.{IsSampled};
    ghost use Rattle.wf_def_world.specs.Run.{Past};

    ghost Value = { Past };

    ghost view = { λ s. s.cell.past };

    ghost invariant = { λ s. IsSampled s.cell };
}

// Returns a cell with these settings. Fails only if memory runs out.
fn cell_for(alloc: Global, config: Config) -> Result<Cell, AllocError>
    requires { IsInRange config }
    ensures past { IfOk result (λ cell. cell.past ≡ record { config = config; history = [] }) }
    ensures samples { IfOk result IsSampled }
{
    match Cell::of(alloc, config) {
        Ok(cell) => Ok(cell),
        Err(fault) => Err(fault),
    }
}

impl Plays for Stage {
    ghost past = { λ s. s };

    #[inline(never)]
    fn open(alloc: Global, config: Config) -> Result<Self, AllocError>
        requires { IsInRange config }
        ensures { IfOk result (λ stage. stage ≡ record { config = config; history = [] }) }
    {
        let cell = cell_for(alloc, config)?;
        Ok(Stage { cell, alloc })
    }

    fn call(&mut self, caller: u32, note: Note, answer: &mut Answer) -> Result<(), AllocError>
        requires room { 0 < calls_left_in self.old }
        requires some { HasLength note }
        requires most { IsAtMost greatest_body note }
        ensures past { OnOk result (self.new ≡ with_entry (by caller note) self.old) }
        ensures reply { OnOk result (reply_of answer.new ≡ (step (world_of self.old) note).reply) }
    {
        let job = match note {
            Note::Asked(ask) => Job::Call(ask),
            Note::Enqueue {
                station,
                tid,
                flow,
                len,
            } => {
                let frame = Frame::sample(self.alloc, station, tid, flow, len)?;
                match Parcel::new(self.alloc, frame) {
                    Ok(parcel) => Job::Give(parcel),
                    Err((refused, _)) => return Err(refused),
                }
            }
        };
        let _ = self.cell.step(caller, job, answer);
        Ok(())
    }

    fn cell(&self) -> &Cell
        ensures past { result.now.past ≡ self.now }
        ensures samples { IsSampled result.now }
    {
        &self.cell
    }
}
