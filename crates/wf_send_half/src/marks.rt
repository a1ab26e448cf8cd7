//! The marks of a device: which transmissions of an open exchange never went on the air, and which it will
//! not try again.

ghost use Rattle.std.specs.Prelude.{◌≡◌, ◌<◌, ℕ, Some, find, IfOk, IfErr};
ghost use Rattle.std.specs.Result.{result_err};
ghost use Rattle.wf_frame.specs.Frames.{FrameValue};
ghost use Rattle.wf_frame.specs.declared.notes.Ask.TheVariants.{Unsent, GiveUp};
ghost use Rattle.wf_frame.specs.declared.notes.Note.TheVariants.{Asked};
ghost use Rattle.wf_frame.specs.declared.notes.ReplyNote.TheVariants.{Marked};
ghost use Rattle.wf_def_world.specs.World.{World, exchange as exchange_in};
ghost use Rattle.wf_def_world.specs.Refusals.{refusal};
ghost use Rattle.wf_send_half_model.specs.Standing.{StandsFor, Meets};
ghost use Rattle.wf_send_half.specs.Half.{HasWorld};
ghost use Rattle.wf_send_half.specs.Marks.{IsCarried, HasNotArrived, bodies_unsent};
ghost use Rattle.wf_send_half.specs.Replies.{reply_of_result};

use crate::half::Half;
use crate::refuse::refuse_where;
use wf_frame::Refusal;
use wf_octets::seq12::Seq12;

/// The station, TID and number of a transmission of an open exchange.
#[derive(Clone, Copy)]
pub(crate) struct Carried {
    /// The station of the exchange.
    pub(crate) station: u16,
    /// The TID of the exchange.
    pub(crate) tid: u8,
    /// The number of the transmission's frame. None for a request.
    pub(crate) number: Option<Seq12>,
}

impl Half {
    // Records that a transmission never went on the air (`Transmit::unsent`).
    pub(crate) fn unsent(&mut self, exchange: u64, index: u16) -> Result<(), Refusal>
        requires some { HasWorld self.old }
        ensures meets { (w : World) (bodies : ℕ → FrameValue) → StandsFor self.old w bodies →
            HasNotArrived w exchange index →
            Meets w (bodies_unsent (exchange_in w exchange) index (reply_of_result (λ _. Marked) result)
            bodies)
            (Asked (Unsent exchange index)) self.new (reply_of_result (λ _. Marked) result) }
        ensures refused { IfErr result (λ _. self.new ≡ self.old) }
    {
        let carried = self.check_mark(exchange, index)?;
        self.opened.mark_unsent(exchange, index);
        match carried.number {
            Some(number) => self.windows.unsend(carried.station, carried.tid, number),
            None => {}
        }
        Ok(())
    }

    // Records that the device will not try a transmission again (`Transmit::give_up`).
    pub(crate) fn give_up(&mut self, exchange: u64, index: u16) -> Result<(), Refusal>
        ensures meets { (w : World) (bodies : ℕ → FrameValue) → StandsFor self.old w bodies →
            Meets w bodies (Asked (GiveUp exchange index)) self.new (reply_of_result (λ _. Marked) result) }
        ensures refused { IfErr result (λ _. self.new ≡ self.old) }
    {
        match self.check_mark(exchange, index) {
            Ok(_) => {
                self.opened.mark_given_up(exchange, index);
                Ok(())
            }
            Err(reason) => Err(reason),
        }
    }

    // Checks a mark of a transmission, except for what receivers have, and returns what it carries.
    fn check_mark(&self, exchange: u64, index: u16) -> Result<Carried, Refusal>
        ensures unsent { (w : World) (bodies : ℕ → FrameValue) → StandsFor self.now w bodies →
            HasNotArrived w exchange index →
            result_err result ≡ refusal w (Asked (Unsent exchange index)) }
        ensures give_up { (w : World) (bodies : ℕ → FrameValue) → StandsFor self.now w bodies →
            result_err result ≡ refusal w (Asked (GiveUp exchange index)) }
        ensures carried { IfOk result (IsCarried self.now exchange index) }
        ensures low { IfOk result (λ _. index < 256) }
    {
        let Some(open) = self.opened.find(exchange) else {
            return Err(Refusal::NoExchange);
        };
        refuse_where(open.count() <= index, Refusal::BadIndex)?;
        refuse_where(open.is_marked(index), Refusal::Marked)?;
        Ok(Carried {
            station: open.station,
            tid: open.tid,
            number: open.number_at(index),
        })
    }
}
