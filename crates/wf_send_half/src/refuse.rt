//! The checks of the calls. A call is refused for the first reason that holds, in the order of the machine.

ghost use Rattle.std.specs.Prelude.{◌≡◌, ◌<◌, ◌≤◌, ℕ, ◌-ℤ◌, pos, int_lt, true, false, ◌&&◌, [], ◌∷◌, None, Some, is_some, not, find, IfOk, IfErr, if◌then◌else◌, nat_le, nat_lt};
ghost use Rattle.wf_frame.specs.Frames.{FrameValue};
ghost use Rattle.wf_frame.specs.declared.notes.Ask.TheVariants.{Join, Plain, Offload, Weight, Rate as Rates, Tick, Sleep, Wake, Poll, Rx, Ampdu, Stop, Start, Service, Bss};
ghost use Rattle.wf_frame.specs.declared.notes.ServiceAsk.TheVariants.{Set, Trigger, End};
ghost use Rattle.wf_frame.specs.Classes.{has_class};
ghost use Rattle.wf_frame.specs.declared.notes.Note.TheVariants.{Asked};
ghost use Rattle.wf_frame.specs.declared.notes.Refusal.TheVariants.{BadBss, BadRate, BadStation, BadTid, BadWindow, NoStation, Debt};
ghost use Rattle.wf_frame.specs.declared.classes.Class.TheVariants.{Bk, Be, Vi, Vo};
ghost use Rattle.wf_def_lists.specs.Bounds.{greatest_tid, greatest_window, deepest_deficit};
ghost use Rattle.wf_def_air.specs.Airtime.{is_rate};
ghost use Rattle.wf_def_world.specs.Group.{bss_count};
ghost use Rattle.wf_def_world.specs.Rates.{rate_asked, is_rate_with};
ghost use Rattle.wf_def_world.specs.Service.{is_delivered};
ghost use Rattle.wf_def_world.specs.World.{World, share, station as world_station};
ghost use Rattle.wf_def_world.specs.Refusals.{first_refusal, refusal, is_within};
ghost use Rattle.wf_def_world.specs.Step.{first_to_send, class_to_send};
ghost use Rattle.wf_send_parts.specs.Sleepers.{sleeper};
ghost use Rattle.wf_send_half_model.specs.Standing.{StandsFor};
ghost use Rattle.wf_send_parts.specs.Members.{member};
ghost use Rattle.wf_send_half.specs.Half.{IsLive, rows_of_tid, can_send_in_of};
ghost use Rattle.std.specs.Result.{result_err};

use crate::half::Half;
use wf_air::time::Rate;
use wf_frame::{
    AskedRate, Class, GREATEST_AIR, GREATEST_AMPDU, GREATEST_CLASSES, GREATEST_EXPONENT,
    GREATEST_START, GREATEST_TICK, GREATEST_TID, GREATEST_WEIGHT, GREATEST_WINDOW, LEAST_AMPDU,
    Refusal,
};

// Returns whether a number is from the least to the greatest.
fn is_within(least: u32, greatest: u32, number: u32) -> bool
    ensures { result ≡ is_within least greatest number }
{
    least <= number && number <= greatest
}

// Refuses for this reason if a condition holds.
pub(crate) fn refuse_where(condition: bool, reason: Refusal) -> Result<(), Refusal>
    ensures refused { result_err result ≡ (if condition then Some reason else None) }
    ensures passed { IfOk result (λ _. condition ≡ false) }
{
    if condition { Err(reason) } else { Ok(()) }
}

// Checks a TID.
pub(crate) fn check_tid(tid: u8) -> Result<(), Refusal>
    ensures refused { result_err result ≡ (if nat_lt greatest_tid tid then Some BadTid else None) }
    ensures within { IfOk result (λ _. tid < 8) }
{
    refuse_where(GREATEST_TID < tid, Refusal::BadTid)
}

// Checks the size of a window.
pub(crate) fn check_window(window: u16) -> Result<(), Refusal>
    ensures refused { result_err result ≡ (if not (is_within 1 greatest_window window)
        then Some BadWindow else None) }
    ensures within { IfOk result (λ _. (1 ≤ window) × (window ≤ 256)) }
{
    refuse_where(
        !is_within(1, GREATEST_WINDOW as u32, u32::from(window)),
        Refusal::BadWindow,
    )
}

// Returns the rate of these numbers, if it exists.
fn made_rate(asked: AskedRate) -> Result<Rate, wf_air::time::BadRate>
    ensures made { IfOk result (λ rate. rate ≡ rate_asked asked) }
    ensures within { IfOk result (λ _. is_rate (rate_asked asked) ≡ true) }
    ensures refused { IfErr result (λ _. is_rate (rate_asked asked) ≡ false) }
{
    match asked {
        AskedRate::Ht { mcs, mhz, short } => Rate::ht(mcs, mhz, short),
        AskedRate::Vht {
            mcs,
            mhz,
            short,
            streams,
        } => Rate::vht(mcs, mhz, short, streams),
        AskedRate::He {
            mcs,
            mhz,
            guard,
            streams,
        } => Rate::he(mcs, mhz, guard, streams),
        AskedRate::Ofdm { mbps } => Rate::ofdm(mbps),
        AskedRate::Dsss { half_mbps } => Rate::dsss(half_mbps),
    }
}

// Returns the rate of these numbers, or refuses them if there is none or the setting `legacy` does not allow
// it.
fn rate_of(asked: AskedRate, legacy: u32) -> Result<Rate, Refusal>
    ensures refused { result_err result ≡ (if not (is_rate_with legacy (rate_asked asked))
        then Some BadRate else None) }
    ensures rate { IfOk result (λ rate. rate ≡ rate_asked asked) }
{
    match made_rate(asked) {
        Ok(rate) => {
            if rate.legacy() <= legacy {
                Ok(rate)
            } else {
                Err(Refusal::BadRate)
            }
        }
        Err(_) => Err(Refusal::BadRate),
    }
}

// Checks a tick.
pub(crate) fn check_tick(by: u32) -> Result<(), Refusal>
    ensures { (w : World) → result_err result ≡ refusal w (Asked (Tick by)) }
{
    refuse_where(GREATEST_TICK < by, Refusal::BadTick)
}

impl Half {
    // Checks a join.
    pub(crate) fn check_join(
        &self,
        station: u16,
        window: u16,
        start: u16,
        exponent: u8,
        weight: u8,
    ) -> Result<(), Refusal>
        ensures refused { (w : World) (bodies : ℕ → FrameValue) → StandsFor self.now w bodies →
            result_err result ≡ refusal w (Asked (Join station window start exponent weight)) }
        ensures within { IfOk result (λ _. station < self.now.config.stations) }
        ensures window { IfOk result (λ _. (1 ≤ window) × (window ≤ 256)) }
        ensures start { IfOk result (λ _. start < 4096) }
        ensures weight { IfOk result (λ _. (1 ≤ weight) × (weight ≤ 16)) }
        ensures absent { IfOk result (λ _. is_some (member self.now.members station) ≡ false) }
    {
        self.in_range(station)?;
        refuse_where(
            !is_within(1, GREATEST_WINDOW as u32, u32::from(window)),
            Refusal::BadWindow,
        )?;
        refuse_where(GREATEST_START < start, Refusal::BadStart)?;
        refuse_where(GREATEST_EXPONENT < exponent, Refusal::BadExponent)?;
        refuse_where(
            !is_within(1, GREATEST_WEIGHT as u32, u32::from(weight)),
            Refusal::BadWeight,
        )?;
        refuse_where(self.members.is_live(station), Refusal::Live)
    }

    // Checks a join of a station whose device numbers its frames.
    pub(crate) fn check_offload(
        &self,
        station: u16,
        exponent: u8,
        weight: u8,
    ) -> Result<(), Refusal>
        ensures refused { (w : World) (bodies : ℕ → FrameValue) → StandsFor self.now w bodies →
            result_err result ≡ refusal w (Asked (Offload station exponent weight)) }
        ensures within { IfOk result (λ _. station < self.now.config.stations) }
        ensures weight { IfOk result (λ _. (1 ≤ weight) × (weight ≤ 16)) }
        ensures absent { IfOk result (λ _. is_some (member self.now.members station) ≡ false) }
    {
        self.in_range(station)?;
        refuse_where(GREATEST_EXPONENT < exponent, Refusal::BadExponent)?;
        refuse_where(
            !is_within(1, GREATEST_WEIGHT as u32, u32::from(weight)),
            Refusal::BadWeight,
        )?;
        refuse_where(self.members.is_live(station), Refusal::Live)
    }

    // Checks a join of a station without agreements.
    pub(crate) fn check_plain(
        &self,
        station: u16,
        start: u16,
        exponent: u8,
        weight: u8,
    ) -> Result<(), Refusal>
        ensures refused { (w : World) (bodies : ℕ → FrameValue) → StandsFor self.now w bodies →
            result_err result ≡ refusal w (Asked (Plain station start exponent weight)) }
        ensures within { IfOk result (λ _. station < self.now.config.stations) }
        ensures start { IfOk result (λ _. start < 4096) }
        ensures weight { IfOk result (λ _. (1 ≤ weight) × (weight ≤ 16)) }
        ensures absent { IfOk result (λ _. is_some (member self.now.members station) ≡ false) }
    {
        self.in_range(station)?;
        refuse_where(GREATEST_START < start, Refusal::BadStart)?;
        refuse_where(GREATEST_EXPONENT < exponent, Refusal::BadExponent)?;
        refuse_where(
            !is_within(1, GREATEST_WEIGHT as u32, u32::from(weight)),
            Refusal::BadWeight,
        )?;
        refuse_where(self.members.is_live(station), Refusal::Live)
    }

    // Checks a change of a station's weight.
    pub(crate) fn check_weight(&self, station: u16, weight: u8) -> Result<(), Refusal>
        ensures refused { (w : World) (bodies : ℕ → FrameValue) → StandsFor self.now w bodies →
            result_err result ≡ refusal w (Asked (Weight station weight)) }
        ensures within { IfOk result (λ _. station < self.now.config.stations) }
        ensures weight { IfOk result (λ _. (1 ≤ weight) × (weight ≤ 16)) }
    {
        self.in_range(station)?;
        refuse_where(
            !is_within(1, GREATEST_WEIGHT as u32, u32::from(weight)),
            Refusal::BadWeight,
        )?;
        self.live(station)
    }

    // Checks that a station may go to sleep.
    pub(crate) fn check_sleep(&self, station: u16) -> Result<(), Refusal>
        ensures refused { (w : World) (bodies : ℕ → FrameValue) → StandsFor self.now w bodies →
            result_err result ≡ refusal w (Asked (Sleep station)) }
        ensures within { IfOk result (λ _. station < self.now.config.stations) }
    {
        self.in_range(station)?;
        self.live(station)?;
        refuse_where(self.sleepers.asleep(station), Refusal::Asleep)
    }

    // Checks that a station may wake.
    pub(crate) fn check_wake(&self, station: u16) -> Result<(), Refusal>
        ensures refused { (w : World) (bodies : ℕ → FrameValue) → StandsFor self.now w bodies →
            result_err result ≡ refusal w (Asked (Wake station)) }
        ensures within { IfOk result (λ _. station < self.now.config.stations) }
        ensures live { IfOk result (λ _. IsLive self.now station) }
        ensures asleep { IfOk result (λ _. (sleeper self.now.sleepers station).asleep ≡ true) }
    {
        self.in_range(station)?;
        self.live(station)?;
        refuse_where(!self.sleepers.asleep(station), Refusal::Awake)
    }

    // Checks a poll, and returns the most urgent of its classes in which the station can send.
    pub(crate) fn check_poll(&self, station: u16) -> Result<Class, Refusal>
        ensures refused { (w : World) (bodies : ℕ → FrameValue) → StandsFor self.now w bodies →
            result_err result ≡ refusal w (Asked (Poll station)) }
        ensures class { IfOk result (λ class. (w : World) (bodies : ℕ → FrameValue) →
            StandsFor self.now w bodies → class ≡ class_to_send w station) }
        ensures within { IfOk result (λ _. station < self.now.config.stations) }
        ensures asleep { IfOk result (λ _. (sleeper self.now.sleepers station).asleep ≡ true) }
    {
        self.check_wake(station)?;
        refuse_where(self.has_live_credit(station), Refusal::Polled)?;
        match self.class_to_send(station, self.sleepers.at(station).polled()) {
            Some(class) => Ok(class),
            None => Err(Refusal::Nothing),
        }
    }

    // Checks a change of a station's delivery-enabled classes.
    pub(crate) fn check_delivery(&self, station: u16, classes: u8, most: u8) -> Result<(), Refusal>
        ensures refused { (w : World) (bodies : ℕ → FrameValue) → StandsFor self.now w bodies →
            result_err result ≡ refusal w (Asked (Service (Set station classes most))) }
        ensures within { IfOk result (λ _. station < self.now.config.stations) }
    {
        self.in_range(station)?;
        refuse_where(GREATEST_CLASSES < classes, Refusal::BadClasses)?;
        self.live(station)?;
        refuse_where(self.sleepers.asleep(station), Refusal::Asleep)
    }

    // Checks a change of a station's BSS.
    pub(crate) fn check_bss_of(&self, station: u16, bss: u8) -> Result<(), Refusal>
        ensures refused { (w : World) (bodies : ℕ → FrameValue) → StandsFor self.now w bodies →
            result_err result ≡ refusal w (Asked (Bss station bss)) }
        ensures within { IfOk result (λ _. station < self.now.config.stations) }
    {
        self.in_range(station)?;
        self.check_bss(bss)?;
        self.live(station)?;
        refuse_where(self.sleepers.asleep(station), Refusal::Asleep)
    }

    // Checks a trigger, and returns the most urgent delivery-enabled class in which the station can send.
    pub(crate) fn check_trigger(&self, station: u16) -> Result<Class, Refusal>
        ensures refused { (w : World) (bodies : ℕ → FrameValue) → StandsFor self.now w bodies →
            result_err result ≡ refusal w (Asked (Service (Trigger station))) }
        ensures class { IfOk result (λ class. (w : World) (bodies : ℕ → FrameValue) →
            StandsFor self.now w bodies →
            class ≡ first_to_send w station (is_delivered (world_station w station))) }
        ensures within { IfOk result (λ _. station < self.now.config.stations) }
        ensures asleep { IfOk result (λ _. (sleeper self.now.sleepers station).asleep ≡ true) }
    {
        self.check_wake(station)?;
        let sleeper = self.sleepers.at(station);
        refuse_where(sleeper.service.is_some(), Refusal::Polled)?;
        match self.class_to_send(station, sleeper.delivery) {
            Some(class) => Ok(class),
            None => Err(Refusal::Nothing),
        }
    }

    // Checks that a service period of a station may end.
    pub(crate) fn check_end(&self, station: u16) -> Result<(), Refusal>
        ensures refused { (w : World) (bodies : ℕ → FrameValue) → StandsFor self.now w bodies →
            result_err result ≡ refusal w (Asked (Service (End station))) }
        ensures within { IfOk result (λ _. station < self.now.config.stations) }
    {
        self.in_range(station)?;
        self.live(station)?;
        refuse_where(
            self.sleepers.at(station).service.is_none(),
            Refusal::Nothing,
        )
    }

    // Checks a change of rate, and returns the rate.
    pub(crate) fn check_rate(&self, station: u16, asked: AskedRate) -> Result<Rate, Refusal>
        ensures refused { (w : World) (bodies : ℕ → FrameValue) → StandsFor self.now w bodies →
            result_err result ≡ refusal w (Asked (Rates station asked)) }
        ensures rate { IfOk result (λ rate. rate ≡ rate_asked asked) }
        ensures within { IfOk result (λ _. station < self.now.config.stations) }
    {
        self.in_range(station)?;
        let rate = rate_of(asked, self.config.legacy)?;
        self.live(station)?;
        refuse_where(
            rate.is_single() && self.modes.any_set(station),
            Refusal::Agreed,
        )?;
        Ok(rate)
    }

    // Checks a stated length of aggregates.
    pub(crate) fn check_ampdu(&self, station: u16, octets: u32) -> Result<(), Refusal>
        ensures refused { (w : World) (bodies : ℕ → FrameValue) → StandsFor self.now w bodies →
            result_err result ≡ refusal w (Asked (Ampdu station octets)) }
        ensures within { IfOk result (λ _. station < self.now.config.stations) }
    {
        self.in_range(station)?;
        refuse_where(
            !is_within(LEAST_AMPDU, GREATEST_AMPDU, octets),
            Refusal::BadAmpdu,
        )?;
        self.live(station)
    }

    // Checks that a station may be stopped.
    pub(crate) fn check_stop(&self, station: u16) -> Result<(), Refusal>
        ensures refused { (w : World) (bodies : ℕ → FrameValue) → StandsFor self.now w bodies →
            result_err result ≡ refusal w (Asked (Stop station)) }
        ensures within { IfOk result (λ _. station < self.now.config.stations) }
    {
        self.in_range(station)?;
        self.live(station)?;
        refuse_where(self.sleepers.stopped(station), Refusal::Stopped)
    }

    // Checks that a station may be started.
    pub(crate) fn check_start(&self, station: u16) -> Result<(), Refusal>
        ensures refused { (w : World) (bodies : ℕ → FrameValue) → StandsFor self.now w bodies →
            result_err result ≡ refusal w (Asked (Start station)) }
        ensures within { IfOk result (λ _. station < self.now.config.stations) }
    {
        self.in_range(station)?;
        self.live(station)?;
        refuse_where(!self.sleepers.stopped(station), Refusal::Started)
    }

    // Checks a charge for received airtime, except for the debt.
    pub(crate) fn check_rx(&self, station: u16, class: Class, air: u32) -> Result<(), Refusal>
        ensures refused { IfErr result (λ reason. (w : World) (bodies : ℕ → FrameValue) →
            StandsFor self.now w bodies →
            refusal w (Asked (Rx station class air)) ≡ Some reason) }
        ensures passed { IfOk result (λ _. (w : World) (bodies : ℕ → FrameValue) →
            StandsFor self.now w bodies →
            refusal w (Asked (Rx station class air))
            ≡ (if int_lt ((share w station class).deficit -ℤ pos air) (deepest_deficit w.config.debt)
            then Some (Debt (share w station class).deficit) else None)) }
        ensures within { IfOk result (λ _. station < self.now.config.stations) }
        ensures live { IfOk result (λ _. IsLive self.now station) }
    {
        self.in_range(station)?;
        refuse_where(!is_within(1, GREATEST_AIR, air), Refusal::BadAir)?;
        self.live(station)
    }

    // Returns the most urgent of these classes in which a station can send.
    fn class_to_send(&self, station: u16, classes: u8) -> Option<Class>
        requires { station < self.now.config.stations }
        ensures { result ≡ find (λ c. has_class classes c && can_send_in_of self.now station c)
            (Vo ∷ Vi ∷ Be ∷ Bk ∷ []) }
    {
        if Class::Vo.is_in(classes) && self.can_send_in(station, Class::Vo) {
            Some(Class::Vo)
        } else if Class::Vi.is_in(classes) && self.can_send_in(station, Class::Vi) {
            Some(Class::Vi)
        } else if Class::Be.is_in(classes) && self.can_send_in(station, Class::Be) {
            Some(Class::Be)
        } else if Class::Bk.is_in(classes) && self.can_send_in(station, Class::Bk) {
            Some(Class::Bk)
        } else {
            None
        }
    }

    // Checks that a station's number is below the setting `stations`.
    pub(crate) fn in_range(&self, station: u16) -> Result<(), Refusal>
        ensures refused { result_err result ≡ (if nat_le self.now.config.stations station
            then Some BadStation else None) }
        ensures within { IfOk result (λ _. station < self.now.config.stations) }
    {
        refuse_where(
            self.config.stations <= u32::from(station),
            Refusal::BadStation,
        )
    }

    // Checks that there is a BSS of this number.
    pub(crate) fn check_bss(&self, bss: u8) -> Result<(), Refusal>
        ensures refused { result_err result ≡ (if nat_le (bss_count self.now.config.bsses) bss
            then Some BadBss else None) }
        ensures within { IfOk result (λ _. bss < bss_count self.now.config.bsses) }
    {
        refuse_where(self.bss_count() <= u32::from(bss), Refusal::BadBss)
    }

    // Checks the numbers of a station and of a TID, and that the station is live.
    pub(crate) fn live_tid(&self, station: u16, tid: u8) -> Result<(), Refusal>
        ensures refused { (w : World) (bodies : ℕ → FrameValue) → StandsFor self.now w bodies →
            result_err result ≡ first_refusal (rows_of_tid w station tid) }
        ensures within { IfOk result (λ _. station < self.now.config.stations) }
        ensures tid { IfOk result (λ _. tid < 8) }
        ensures live { IfOk result (λ _. IsLive self.now station) }
    {
        self.in_range(station)?;
        check_tid(tid)?;
        self.live(station)
    }

    // Checks that a station is live.
    pub(crate) fn live(&self, station: u16) -> Result<(), Refusal>
        requires { station < self.now.config.stations }
        ensures refused { result_err result ≡ (if not (is_some (member self.now.members station))
            then Some NoStation else None) }
        ensures live { IfOk result (λ _. IsLive self.now station) }
    {
        refuse_where(!self.members.is_live(station), Refusal::NoStation)
    }
}
