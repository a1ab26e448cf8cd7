//! A change of a station's weight: its quantum becomes another one, and each of its deficits is lowered to
//! what the quantum allows.

ghost use Rattle.std.specs.Prelude.{◌≡◌, ◌<◌, ℕ, pos, ◌-ℤ◌, IfErr};
ghost use Rattle.wf_frame.specs.Frames.{FrameValue};
ghost use Rattle.wf_frame.specs.declared.notes.Ask.TheVariants.{Weight};
ghost use Rattle.wf_frame.specs.declared.notes.Note.TheVariants.{Asked};
ghost use Rattle.wf_frame.specs.declared.notes.ReplyNote.TheVariants.{Set};
ghost use Rattle.wf_def_world.specs.World.{World};
ghost use Rattle.wf_def_world.specs.Exchanges.{longest_computed};
ghost use Rattle.wf_sched_refines.specs.Standing.{with_deficit_lowered};
ghost use Rattle.wf_send_half_model.specs.Half.{uncovered_air_of};
ghost use Rattle.wf_send_half_model.specs.Standing.{StandsFor, Meets};
ghost use Rattle.wf_send_half.specs.Half.{HasWorld};
ghost use Rattle.wf_send_half.specs.Replies.{reply_of_result};

use crate::half::Half;
use wf_air::time::longest_charge;
use wf_frame::{Class, Refusal};

impl Half {
    // Sets the weight of a station (`Transmit::weight`).
    pub(crate) fn weight(&mut self, station: u16, weight: u8) -> Result<(), Refusal>
        requires some { HasWorld self.old }
        ensures meets { (w : World) (bodies : ℕ → FrameValue) → StandsFor self.old w bodies →
            Meets w bodies (Asked (Weight station weight)) self.new (reply_of_result (λ _. Set) result) }
        ensures refused { IfErr result (λ _. self.new ≡ self.old) }
    {
        self.check_weight(station, weight)?;
        let quantum = self.sched.set_weight(station, weight);
        self.lower(station, Class::Bk, quantum);
        self.lower(station, Class::Be, quantum);
        self.lower(station, Class::Vi, quantum);
        self.lower(station, Class::Vo, quantum);
        self.list(station);
        Ok(())
    }

    // Lowers what a station may still use in a class to this quantum, less the airtime in flight that its
    // deficit does not cover.
    fn lower(&mut self, station: u16, class: Class, quantum: u32)
        requires within { station < self.old.config.stations }
        ensures { self.new ≡ record self.old {
          sched = with_deficit_lowered self.old.sched station class
              (pos quantum -ℤ pos (uncovered_air_of self.old station class));
        } }
    {
        let most = i64::from(quantum) - i64::from(self.uncovered_air(station, class));
        self.sched.lower(station, class, most);
    }

    // Returns the airtime in flight that counts against a station's deficit in a class, as far as it is above
    // that of all exchanges of the class but one, in microseconds.
    fn uncovered_air(&self, station: u16, class: Class) -> u32
        requires within { station < self.now.config.stations }
        ensures { result ≡ uncovered_air_of self.now station class }
    {
        let covered = (self.config.inflight - 1) * self.longest_computed(class);
        self.pending_air(station, class).saturating_sub(covered)
    }

    // Returns the greatest computed charge of an exchange of a class, in microseconds.
    fn longest_computed(&self, class: Class) -> u32
        ensures { result ≡ longest_computed self.now.config class }
    {
        longest_charge(self.cap(class), self.config.answers, self.config.legacy)
    }
}
