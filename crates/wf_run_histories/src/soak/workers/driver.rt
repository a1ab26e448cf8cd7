//! A driver, which sends the frames of one class.

ghost use Rattle.std.specs.Prelude.{◌≡◌, ◌⊎◌, ◌+◌, ◌%◌, ◌==◌, ◌&&◌, not, ◌<◌, List, [], false, OnOk, OnErr, IfOk, IsTrue, IsFalse};
ghost use Rattle.rand_pcg.specs.Lcg.{Lcg};
ghost use Rattle.wf_frame.specs.Answers.{reply_of};
ghost use Rattle.wf_frame.specs.declared.notes.Note.{Note};
ghost use Rattle.wf_run_histories.specs.Desks.{Walks, Stops};
ghost use Rattle.wf_run_histories.specs.Drivers.{at, with_words, owing, arrive_if};
ghost use Rattle.wf_run_histories.specs.Workloads.{Driver, Phase, driver_of, words_after, words_behind, word_in};
ghost use Rattle.wf_run_histories.specs.Workloads.{calls_left, last_calls, arrivals, shown_by, sending, is_idle, is_nothing, is_clock, playing};
ghost use Rattle.wf_run_histories.specs.Workloads.Phase.{Ticks, Pulls, Owes, Ends};

use crate::soak::workers::desk::{Desk, Spent};
use rand_core::utils::NextWord;
use rand_pcg::Lcg64Xsh32;
use wf_frame::{Answer, Ask, Brief, Class, Limits, Refusal};

/// The stream of random words of the first driver.
const FIRST_STREAM: u64 = 1000;

// A driver in progress. The place in the code says which call is next.
#[derive(Drop)]
pub(crate) struct DriverRun {
    pub(crate) class: Class,
    pub(crate) senders: u32,
    pub(crate) words: Lcg64Xsh32,
}

// Returns the clock that an answer shows.
fn shown(answer: &Answer) -> Option<u64>
    ensures { result ≡ shown_by (reply_of answer.now) }
{
    match answer.brief {
        Brief::Now { now } => Some(now),
        _ => None,
    }
}

// Returns the number of the exchange that an answer begins, and its number of transmissions.
fn begun(answer: &Answer) -> Option<(u64, u16)>
    ensures { result ≡ sending (reply_of answer.now) }
{
    match answer.brief {
        Brief::Send {
            exchange,
            request: Some(_),
            ..
        } => Some((exchange, 1)),
        Brief::Send {
            exchange,
            request: None,
            ..
        } => Some((exchange, answer.pairs.len() as u16)),
        _ => None,
    }
}

fn is_idle(answer: &Answer) -> bool
    ensures { result ≡ is_idle (reply_of answer.now) }
{
    matches!(answer.brief, Brief::Refused(Refusal::Idle))
}

fn is_nothing(answer: &Answer) -> bool
    ensures { result ≡ is_nothing (reply_of answer.now) }
{
    matches!(answer.brief, Brief::Refused(Refusal::Nothing))
}

// Returns whether a clock shows that all senders have ended.
fn is_clock(senders: u32, shown: Option<u64>) -> bool
    ensures { result ≡ is_clock senders shown }
{
    match shown {
        None => false,
        Some(now) => now == u64::from(senders),
    }
}

// Returns whether all work is done after this answer to a pull, and the exchange that the pull begins.
fn pulled(answer: &Answer, senders: u32, clock: Option<u64>) -> (bool, Option<(u64, u16)>)
    ensures { result ≡ (
      is_idle (reply_of answer.now)
          && is_clock senders clock,
      sending (reply_of answer.now),
    ) }
{
    let over = is_idle(answer) && is_clock(senders, clock);
    (over, begun(answer))
}

impl DriverRun {
    // Reads the clock.
    fn tick<D: Desk>(&self, desk: &mut D) -> Result<Option<u64>, Spent>
        ensures walks { IfOk result (λ clock. Walks D.has D.left desk.old desk.new (at self.now Ticks)
            (at self.now (Pulls clock))) }
        ensures fewer { OnOk result (D.left desk.new < D.left desk.old) }
        ensures spent { OnErr result (Stops D.has D.left desk.old desk.new (at self.now Ticks)) }
    {
        desk.ask(Ask::Tick { by: 0 })?;
        Ok(shown(desk.answer()))
    }

    // Pulls the class. Returns whether all work is done, and the exchange that this begins.
    fn pull<D: Desk>(
        &self,
        desk: &mut D,
        clock: Option<u64>,
    ) -> Result<(bool, Option<(u64, u16)>), Spent>
        ensures walks { IfOk result (λ r. Walks D.has D.left desk.old desk.new (at self.now (Pulls clock))
            (playing (at self.now (Pulls clock)) r.0 r.1)) }
        ensures spent { OnErr result (Stops D.has D.left desk.old desk.new (at self.now (Pulls clock))) }
    {
        desk.ask(Ask::Pull {
            class: self.class,
            limits: Limits::NONE,
        })?;
        Ok(pulled(desk.answer(), self.senders, clock))
    }

    // Draws a word, and returns whether it lets a transmission arrive.
    fn draw_arrival(&mut self) -> bool
        ensures words { self.new ≡ with_words self.old (words_after self.old.words) }
        ensures arrives { result ≡ not (word_in self.old.words % 10 == 0) }
    {
        let word = self.words.next_word();
        word % 10 != 0
    }

    // Plays one transmission, and returns whether it arrives: it does for nine of ten words.
    fn transmit<D: Desk>(&mut self, desk: &mut D, exchange: u64, index: u16) -> Result<bool, Spent>
        ensures words { self.new ≡ with_words self.old (words_after self.old.words) }
        ensures arrived { IfOk result (λ arrived. arrived ≡ not (word_in self.old.words % 10 == 0)) }
        ensures walks { IfOk result (λ arrived. (words : Lcg) (calls : List Note) →
            Walks D.has D.left desk.old desk.new
            (owing self.old words (arrive_if arrived exchange index calls)) (owing self.old words calls)) }
        ensures spent { OnErr result ((from : Driver) → Stops D.has D.left desk.old desk.new from) }
    {
        let arrives = self.draw_arrival();
        if arrives {
            desk.ask(Ask::Arrive { exchange, index })?;
            return Ok(true);
        }
        Ok(false)
    }

    // Plays each transmission of an exchange in order, and returns whether one arrived.
    fn transmit_all<D: Desk>(
        &mut self,
        desk: &mut D,
        exchange: u64,
        count: u16,
    ) -> Result<bool, Spent>
        ensures words { OnOk result (self.new ≡ with_words self.old (words_behind count self.old.words)) }
        ensures walks { IfOk result (λ some. (words : Lcg) →
            Walks D.has D.left desk.old desk.new
            (owing self.old words (calls_left exchange false (arrivals 0 count self.old.words)))
            (owing self.old words (last_calls exchange some))) }
        ensures spent { OnErr result ((words : Lcg) →
            Stops D.has D.left desk.old desk.new
            (owing self.old words (calls_left exchange false (arrivals 0 count self.old.words)))) }
    {
        let mut some = false;
        for index in 0..count {
            let arrived = self.transmit(desk, exchange, index)?;
            some |= arrived;
        }
        Ok(some)
    }

    // Ends an exchange. If a transmission arrived, it is answered and the answer is heard; otherwise it ends
    // as lost.
    fn end<D: Desk>(&self, desk: &mut D, exchange: u64, some: bool) -> Result<(), Spent>
        ensures walks { OnOk result (Walks D.has D.left desk.old desk.new
            (at self.now (Owes (last_calls exchange some))) (at self.now (Owes []))) }
        ensures spent { OnErr result (Stops D.has D.left desk.old desk.new
            (at self.now (Owes (last_calls exchange some)))) }
    {
        if some {
            desk.ask(Ask::Answer { exchange })?;
            desk.ask_at_once(Ask::Done {
                exchange,
                heard: true,
                air: None,
            })?;
            return Ok(());
        }
        desk.ask_at_once(Ask::Done {
            exchange,
            heard: false,
            air: None,
        })?;
        Ok(())
    }

    // Reaps until no finished frame is left.
    fn reap<D: Desk>(&self, desk: &mut D) -> Result<(), Spent>
        ensures walks { OnOk result (Walks D.has D.left desk.old desk.new (at self.now (Owes []))
            (at self.now Ticks)) }
        ensures spent { OnErr result (Stops D.has D.left desk.old desk.new (at self.now (Owes []))) }
    {
        for _ in 0..desk.left() {
            desk.ask(Ask::Reap)?;
            if is_nothing(desk.answer()) {
                return Ok(());
            }
        }
        Err(Spent)
    }

    // Plays the exchange that began, if one did. Returns whether the driver has ended: no exchange began, and
    // all work is done.
    fn play<D: Desk>(
        &mut self,
        desk: &mut D,
        over: bool,
        begun: Option<(u64, u16)>,
    ) -> Result<bool, Spent>
        ensures again { IfOk result (λ ended. IsFalse ended → (phase : Phase) →
            Walks D.has D.left desk.old desk.new (playing (at self.old phase) over begun)
            (at self.new (Owes []))) }
        ensures ended { IfOk result (λ ended. IsTrue ended → (phase : Phase) →
            Walks D.has D.left desk.old desk.new (playing (at self.old phase) over begun)
            (at self.new Ends)) }
        ensures spent { OnErr result ((phase : Phase) →
            Stops D.has D.left desk.old desk.new (playing (at self.old phase) over begun)) }
    {
        match begun {
            None => Ok(over),
            Some((exchange, count)) => {
                let some = self.transmit_all(desk, exchange, count)?;
                self.end(desk, exchange, some)?;
                Ok(false)
            }
        }
    }

    // Plays one round, from one tick to the next or to the end. Returns whether the driver has ended.
    fn round<D: Desk>(&mut self, desk: &mut D) -> Result<bool, Spent>
        ensures again { IfOk result (λ ended. IsFalse ended →
            Walks D.has D.left desk.old desk.new (at self.old Ticks) (at self.new Ticks)) }
        ensures ended { IfOk result (λ ended. IsTrue ended →
            Walks D.has D.left desk.old desk.new (at self.old Ticks) (at self.new Ends)) }
        ensures fewer { OnOk result (D.left desk.new < D.left desk.old) }
        ensures spent { OnErr result (Stops D.has D.left desk.old desk.new (at self.old Ticks)) }
    {
        let clock = self.tick(desk)?;
        let (over, begun) = self.pull(desk, clock)?;
        let ended = self.play(desk, over, begun)?;
        if ended {
            return Ok(true);
        }
        self.reap(desk)?;
        Ok(false)
    }

    // Plays rounds until the driver has ended or no call is left.
    fn walk<D: Desk>(&mut self, desk: &mut D) -> Result<(), Spent>
        ensures ended { OnOk result (Walks D.has D.left desk.old desk.new (at self.old Ticks)
            (at self.new Ends)) }
        ensures spent { OnErr result (Stops D.has D.left desk.old desk.new (at self.old Ticks)) }
    {
        for _ in 0..desk.left() {
            let ended = self.round(desk)?;
            if ended {
                return Ok(());
            }
        }
        Err(Spent)
    }
}

/// Runs driver number `driver` of a class, with `senders` senders. In each round it reads the clock, pulls
/// its class, plays the exchange that this begins, and reaps until no finished frame is left. It ends when
/// nobody is ready and the clock had shown that all senders have ended, or when no call is left.
pub fn drive<D: Desk>(desk: &mut D, seed: u64, driver: u16, class: Class, senders: u32)
    ensures walk { (to : Driver) × Walks D.has D.left desk.old desk.new
        (driver_of seed driver class senders) to × ((to.phase ≡ Ends) ⊎ (D.left desk.new ≡ 0)) }
{
    let mut run = DriverRun {
        class,
        senders,
        words: Lcg64Xsh32::new(seed, FIRST_STREAM + u64::from(driver)),
    };
    let _ = run.walk(desk);
}
