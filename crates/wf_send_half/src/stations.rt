//! Joins, rates and lengths of aggregates, sleep, stops, received airtime, and the clock.

ghost use Rattle.std.specs.Prelude.{◌≡◌, ◌<◌, ◌≤◌, ◌^◌, ℕ, true, false, is_some, IfErr};
ghost use Rattle.wf_frame.specs.Frames.{FrameValue};
ghost use Rattle.wf_frame.specs.declared.notes.Ask.TheVariants.{Join, Plain, Offload, Rate, Tick, Sleep, Wake, Poll, Rx, Ampdu, Stop, Start, Bss};
ghost use Rattle.wf_frame.specs.declared.notes.Note.TheVariants.{Asked};
ghost use Rattle.wf_frame.specs.declared.notes.ReplyNote.TheVariants.{Joined, Set, Now, Slept, Woken, Polled, Charged, Stopped, Started};
ghost use Rattle.wf_def_world.specs.World.{World};
ghost use Rattle.wf_sched.specs.ClassRotas.{IsNowhere};
ghost use Rattle.wf_send_parts.specs.Members.{member};
ghost use Rattle.wf_send_half_model.specs.Changes.{AreReset, AreSet, after_admission};
ghost use Rattle.wf_send_half_model.specs.Standing.{StandsFor, Meets};
ghost use Rattle.wf_send_half.specs.Half.{HasWorld, IsReceiptSmall};
ghost use Rattle.wf_send_half.specs.Replies.{reply_of_result};

use crate::half::Half;
use crate::modes::PLAIN_WINDOW;
use crate::refuse::check_tick;
use wf_frame::{AskedRate, Class, GREATEST_WINDOW, Refusal};
use wf_octets::seq12::Seq12;
use wf_send_parts::stations::Mode;

impl Half {
    // A station joins (`Transmit::join`).
    pub(crate) fn join(
        &mut self,
        station: u16,
        window: u16,
        start: u16,
        exponent: u8,
        weight: u8,
    ) -> Result<(), Refusal>
        requires some { HasWorld self.old }
        ensures meets { (w : World) (bodies : ℕ → FrameValue) → StandsFor self.old w bodies →
            Meets w bodies (Asked (Join station window start exponent weight)) self.new
            (reply_of_result (λ _. Joined) result) }
        ensures refused { IfErr result (λ _. self.new ≡ self.old) }
    {
        self.check_join(station, window, start, exponent, weight)?;
        self.begin_sessions(station, window, start, Mode::Agreed);
        self.admit(station, exponent, weight, false);
        Ok(())
    }

    // A station joins without agreements (`Transmit::plain`).
    pub(crate) fn plain(
        &mut self,
        station: u16,
        start: u16,
        exponent: u8,
        weight: u8,
    ) -> Result<(), Refusal>
        requires some { HasWorld self.old }
        ensures meets { (w : World) (bodies : ℕ → FrameValue) → StandsFor self.old w bodies →
            Meets w bodies (Asked (Plain station start exponent weight)) self.new
            (reply_of_result (λ _. Joined) result) }
        ensures refused { IfErr result (λ _. self.new ≡ self.old) }
    {
        self.check_plain(station, start, exponent, weight)?;
        self.begin_sessions(station, PLAIN_WINDOW, start, Mode::Plain);
        self.admit(station, exponent, weight, false);
        Ok(())
    }

    // A station joins whose device numbers, aggregates and repeats its frames (`Transmit::offload`).
    pub(crate) fn offload(&mut self, station: u16, exponent: u8, weight: u8) -> Result<(), Refusal>
        requires some { HasWorld self.old }
        ensures meets { (w : World) (bodies : ℕ → FrameValue) → StandsFor self.old w bodies →
            Meets w bodies (Asked (Offload station exponent weight)) self.new
            (reply_of_result (λ _. Joined) result) }
        ensures refused { IfErr result (λ _. self.new ≡ self.old) }
    {
        self.check_offload(station, exponent, weight)?;
        self.begin_sessions(station, GREATEST_WINDOW, 0, Mode::Plain);
        self.admit(station, exponent, weight, true);
        Ok(())
    }

    // Begins a session with this window, this first number and this mode on each TID of a station that is
    // not live.
    fn begin_sessions(&mut self, station: u16, window: u16, start: u16, mode: Mode)
        requires some { HasWorld self.old }
        requires within { station < self.old.config.stations }
        requires absent { is_some (member self.old.members station) ≡ false }
        requires window { (1 ≤ window) × (window ≤ 256) }
        requires start { start < 4096 }
        ensures reset { AreReset self.old.windows self.new.windows station start window }
        ensures modes { AreSet self.old.modes self.new.modes station mode }
        ensures unlisted { IsNowhere self.new.sched station }
        ensures rest { self.new ≡
            record self.old { windows = self.new.windows; modes = self.new.modes } }
    {
        self.windows
            .reset_all(station, Seq12::of(u64::from(start)), window);
        self.modes.set_all(station, mode);
    }

    // Makes a station live, whose TIDs have their sessions.
    fn admit(&mut self, station: u16, exponent: u8, weight: u8, offloaded: bool)
        requires within { station < self.old.config.stations }
        requires unlisted { IsNowhere self.old.sched station }
        requires weight { (1 ≤ weight) × (weight ≤ 16) }
        ensures { self.new ≡ after_admission self.old self.old.windows self.old.modes station exponent weight
            offloaded }
    {
        self.sleepers.reset(station);
        self.sched.join(station, weight);
        self.members.join(station, exponent, offloaded);
        self.list(station);
    }

    // Advances the clock (`Transmit::tick`).
    pub(crate) fn tick(&mut self, by: u32) -> Result<u64, Refusal>
        requires small { self.old.clock < 2 ^ 62 }
        ensures meets { (w : World) (bodies : ℕ → FrameValue) → StandsFor self.old w bodies →
            Meets w bodies (Asked (Tick by)) self.new (reply_of_result Now result) }
        ensures refused { IfErr result (λ _. self.new ≡ self.old) }
    {
        check_tick(by)?;
        self.clock += u64::from(by);
        Ok(self.clock)
    }

    // Sets the rate of a station (`Transmit::rate`).
    pub(crate) fn rate(&mut self, station: u16, asked: AskedRate) -> Result<(), Refusal>
        ensures meets { (w : World) (bodies : ℕ → FrameValue) → StandsFor self.old w bodies →
            Meets w bodies (Asked (Rate station asked)) self.new
            (reply_of_result (λ _. Set) result) }
        ensures refused { IfErr result (λ _. self.new ≡ self.old) }
    {
        let rate = self.check_rate(station, asked)?;
        self.members.set_rate(station, rate);
        Ok(())
    }

    // States the most octets of a station's aggregates (`Transmit::ampdu`).
    pub(crate) fn ampdu(&mut self, station: u16, octets: u32) -> Result<(), Refusal>
        ensures meets { (w : World) (bodies : ℕ → FrameValue) → StandsFor self.old w bodies →
            Meets w bodies (Asked (Ampdu station octets)) self.new
            (reply_of_result (λ _. Set) result) }
        ensures refused { IfErr result (λ _. self.new ≡ self.old) }
    {
        self.check_ampdu(station, octets)?;
        self.members.set_ampdu(station, octets);
        Ok(())
    }

    // Sets the BSS of a station (`Transmit::set_bss`).
    pub(crate) fn set_bss(&mut self, station: u16, bss: u8) -> Result<(), Refusal>
        ensures meets { (w : World) (bodies : ℕ → FrameValue) → StandsFor self.old w bodies →
            Meets w bodies (Asked (Bss station bss)) self.new (reply_of_result (λ _. Set) result) }
        ensures refused { IfErr result (λ _. self.new ≡ self.old) }
    {
        self.check_bss_of(station, bss)?;
        self.sleepers.set_bss(station, bss);
        Ok(())
    }

    // Stops a station (`Transmit::stop`).
    pub(crate) fn stop(&mut self, station: u16) -> Result<(), Refusal>
        ensures meets { (w : World) (bodies : ℕ → FrameValue) → StandsFor self.old w bodies →
            Meets w bodies (Asked (Stop station)) self.new (reply_of_result (λ _. Stopped) result) }
        ensures refused { IfErr result (λ _. self.new ≡ self.old) }
    {
        self.check_stop(station)?;
        self.sleepers.set_stopped(station, true);
        self.list(station);
        Ok(())
    }

    // Starts a station again (`Transmit::start`).
    pub(crate) fn start(&mut self, station: u16) -> Result<(), Refusal>
        ensures meets { (w : World) (bodies : ℕ → FrameValue) → StandsFor self.old w bodies →
            Meets w bodies (Asked (Start station)) self.new (reply_of_result (λ _. Started) result) }
        ensures refused { IfErr result (λ _. self.new ≡ self.old) }
    {
        self.check_start(station)?;
        self.sleepers.set_stopped(station, false);
        self.list(station);
        Ok(())
    }

    // A station goes to sleep (`Transmit::sleep`).
    pub(crate) fn sleep(&mut self, station: u16) -> Result<(), Refusal>
        ensures meets { (w : World) (bodies : ℕ → FrameValue) → StandsFor self.old w bodies →
            Meets w bodies (Asked (Sleep station)) self.new (reply_of_result (λ _. Slept) result) }
        ensures refused { IfErr result (λ _. self.new ≡ self.old) }
    {
        self.check_sleep(station)?;
        self.sleepers.sleep(station);
        self.list(station);
        Ok(())
    }

    // A station wakes (`Transmit::wake`).
    pub(crate) fn wake(&mut self, station: u16) -> Result<(), Refusal>
        ensures meets { (w : World) (bodies : ℕ → FrameValue) → StandsFor self.old w bodies →
            Meets w bodies (Asked (Wake station)) self.new (reply_of_result (λ _. Woken) result) }
        ensures refused { IfErr result (λ _. self.new ≡ self.old) }
    {
        self.check_wake(station)?;
        self.sleepers.wake(station);
        self.list(station);
        Ok(())
    }

    // A sleeping station asks for one frame (`Transmit::poll`).
    pub(crate) fn poll(&mut self, station: u16) -> Result<Class, Refusal>
        ensures meets { (w : World) (bodies : ℕ → FrameValue) → StandsFor self.old w bodies →
            Meets w bodies (Asked (Poll station)) self.new (reply_of_result Polled result) }
        ensures refused { IfErr result (λ _. self.new ≡ self.old) }
    {
        let class = self.check_poll(station)?;
        self.sleepers.grant(station, class);
        self.list(station);
        Ok(class)
    }

    // Charges a station for the airtime that it used to send (`Transmit::rx`).
    pub(crate) fn rx(&mut self, station: u16, class: Class, air: u32) -> Result<i64, Refusal>
        requires some { HasWorld self.old }
        requires small { IsReceiptSmall self.old station class }
        ensures meets { (w : World) (bodies : ℕ → FrameValue) → StandsFor self.old w bodies →
            Meets w bodies (Asked (Rx station class air)) self.new (reply_of_result Charged result) }
        ensures refused { IfErr result (λ _. self.new ≡ self.old) }
    {
        self.check_rx(station, class, air)?;
        // The scheduler keeps the standing, which is the deficit less the pending airtime.
        let pending = self.pending_air(station, class);
        match self
            .sched
            .rx(station, class, air, self.config.debt + pending)
        {
            Ok(standing) => {
                self.members.add_received(station, class, air);
                self.list_in(station, class);
                Ok(standing + i64::from(pending))
            }
            Err(debt) => Err(Refusal::Debt {
                deficit: debt.deficit + i64::from(pending),
            }),
        }
    }
}
