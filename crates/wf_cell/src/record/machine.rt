//! The record as a machine, with the calls and replies of a cell.

ghost use Rattle.wf_frame.specs.Answers.{reply_of};
ghost use Rattle.wf_path.specs.Jobs.{note_of};
ghost use Rattle.wf_cell.specs.Cells.{calls_left_in};
ghost use Rattle.wf_cell.specs.Rights.{IsRight};

use crate::record::Record;
use crate::{Answered, Asking};
use wf_frame::{Config, Note};
use wf_machine::Machine;

/// A reply is right if it is the one in the run of the history, and if the returned frame is the one that the
/// reply refers to.
impl Machine for Record {
    type Call = Asking;

    type Reply = Answered;

    type Note = Note;

    type Settings = Config;

    ghost past = { λ cell. cell.past.history };

    ghost settings = { λ cell. cell.past.config };

    ghost calls_left = { λ cell. calls_left_in cell.past };

    ghost note = { λ call. note_of call.job };

    ghost right = { λ settings history caller call back.
        IsRight settings history call.job (reply_of back.answer.value) back.parcel };

    fn calls_left(&self) -> u64 {
        Record::calls_left(self)
    }

    fn step(&mut self, caller: u32, call: Asking) -> Answered {
        let Asking { job, mut answer } = call;
        let parcel = Record::step(self, caller, job, &mut answer);
        Answered { answer, parcel }
    }
}
