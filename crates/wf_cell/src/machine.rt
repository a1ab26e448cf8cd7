//! The cell as a machine, with its calls and replies.

ghost use Rattle.wf_frame.specs.Answers.{reply_of};
ghost use Rattle.wf_path.specs.Jobs.{note_of};
ghost use Rattle.wf_cell.specs.Cells.{calls_left_in};
ghost use Rattle.wf_cell.specs.Rights.{IsRight};

use crate::Cell;
use std::alloc::Global;
use wf_frame::{Answer, Config, Note};
use wf_machine::Machine;
use wf_path::Job;
use wf_queue_parts::chain::Parcel;

/// A call of a cell, with the answer that it fills. The caller makes the answer once, and gets it back after
/// each call.
#[derive(Drop)]
pub struct Asking {
    /// The call.
    pub job: Job,
    /// The answer to the call. Its content before the call does not matter.
    pub answer: Box<Answer, Global>,
}

/// The reply to a call.
#[derive(Drop)]
pub struct Answered {
    /// The answer that the caller passed.
    pub answer: Box<Answer, Global>,
    /// The frame that was refused or reaped, if any.
    pub parcel: Option<Parcel>,
}

/// A reply is right if it is the one in the run of the history, and if the returned frame is the one that the
/// reply refers to.
impl Machine for Cell {
    type Call = Asking;

    type Reply = Answered;

    type Note = Note;

    type Settings = Config;

    ghost past = { λ cell. cell.past.history };

    ghost settings = { λ cell. cell.past.config };

    ghost calls_left = { λ cell. calls_left_in cell.past };

    ghost note = { λ call. note_of call.job };

    ghost right = { λ settings history caller call back.
        IsRight settings history call.job (reply_of back.answer.value) back.parcel };

    fn calls_left(&self) -> u64 {
        Cell::calls_left(self)
    }

    fn step(&mut self, caller: u32, call: Asking) -> Answered {
        let Asking { job, mut answer } = call;
        let parcel = Cell::step(self, caller, job, &mut answer);
        Answered { answer, parcel }
    }
}
