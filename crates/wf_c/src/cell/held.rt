//! The content of a cell's handle, and its calls.

ghost use Rattle.std.specs.Prelude.{◌≡◌, ℕ, [], IfSome};
ghost use Rattle.wf_frame.specs.Frames.{FrameValue};
ghost use Rattle.wf_def_world.specs.World.{opening};
ghost use Rattle.wf_send_half_model.specs.Standing.{StandsFor};
ghost use Rattle.wf_path.specs.declared.job.Job.TheVariants.{Call};
ghost use Rattle.wf_c.specs.CellCalls.{IsStepped};

use crate::reply::Reply;
use std::alloc::Global;
use wf_cell::Job;
use wf_cell::record::Record;
use wf_frame::{Answer, Ask, Config};

/// A record, and the buffer that each call writes its answer to.
#[derive(Drop)]
pub struct HeldCell {
    pub(crate) cell: Record,
    pub(crate) answer: Answer,
}

impl HeldCell {
    // A record with these settings, in its own block of memory. None if a setting is out of its range, or if
    // there is no memory.
    pub(crate) fn made(alloc: Global, config: Config) -> Option<Box<HeldCell, Global>>
        ensures past { IfSome result (λ made. made.value.cell.past
            ≡ record { config = config; history = [] }) }
        ensures stands { IfSome result (λ made. (bodies : ℕ → FrameValue) →
            StandsFor made.value.cell.half (opening config) bodies) }
    {
        match Record::new(alloc, config) {
            Ok(cell) => HeldCell::boxed(alloc, cell),
            Err(_) => None,
        }
    }

    // A record in its own block of memory.
    fn boxed(alloc: Global, cell: Record) -> Option<Box<HeldCell, Global>>
        ensures { IfSome result (λ made. made.value.cell ≡ cell) }
    {
        let answer = Answer::new();
        match Box::new(alloc, HeldCell { cell, answer }) {
            Ok(boxed) => Some(boxed),
            Err(_) => None,
        }
    }

    // Makes a call that has no frame.
    pub(crate) fn ask(&mut self, caller: u32, ask: Ask) -> Reply
        ensures { IsStepped self.old caller (Call ask) self.new result }
    {
        let _ = self.cell.step(caller, Job::Call(ask), &mut self.answer);
        Reply::of(self.answer.brief)
    }
}
