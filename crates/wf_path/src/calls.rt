//! The calls of a path, except the end of an exchange.

ghost use Rattle.std.specs.Prelude.{◌≡◌, ℕ, true, List, Option};
ghost use Rattle.wf_frame.specs.Frames.{FrameValue};
ghost use Rattle.wf_frame.specs.Answers.{reply_of, reply_with};
ghost use Rattle.wf_frame.specs.declared.notes.Ask.TheVariants.{Join, Leave, Rate, Tick, Sleep, Wake, Poll, Rx, Reap, Ampdu, Stop, Start, Unsent, GiveUp, Flush, Offload, Weight, Plain, Hold, Begin, Free, Cease, Bss};
ghost use Rattle.wf_frame.specs.declared.notes.ReplyNote.TheVariants.{Accepted, Refused};
ghost use Rattle.wf_def_world.specs.World.{World};
ghost use Rattle.wf_def_world.specs.Step.{step};
ghost use Rattle.wf_law_driver.specs.Unheard.{IsUnheard};
ghost use Rattle.wf_send_half.specs.Replies.{reaped_reply};
ghost use Rattle.wf_send_half_model.specs.Half.{group_in};
ghost use Rattle.wf_send_half_model.specs.Standing.{StandsFor, Meets};
ghost use Rattle.wf_path.specs.Group.{FliesAsSaid};
ghost use Rattle.wf_path.specs.Jobs.{as_ask, job_of, note_of, bss_asked, MayCall, bodies_after, frame_given_back, changes_nothing, is_refused, with_released};
ghost use Rattle.wf_path.specs.Paths.{IsPath, IsSmall, RiseLittle, IsAnsweredBriefly};

use crate::{Path, PathAsk, PathJob};
use wf_frame::{Answer, AskedRate, Brief, Class, Refusal};
use wf_queue_parts::chain::Parcel;
use wf_send_half::Admission;

impl Path {
    /// Makes a call, and writes its answer. Returns the frame exactly if it was refused, or reaped. A refused
    /// call changes nothing, except a pull that is Idle without the setting `pending`. A path has no
    /// receivers, so its answer does not name the frames that the receiver releases when an agreement ends.
    pub fn call(&mut self, job: PathJob, answer: &mut Answer) -> Option<Parcel>
        requires small { IsSmall self.old.half }
        ensures meets { (w : World) (bodies : ℕ → FrameValue) → StandsFor self.old.half w bodies →
            MayCall w (job_of job) →
            Meets w (bodies_after self.old.half w (job_of job) (reply_of answer.new) bodies)
            (note_of (job_of job)) self.new.half (with_released w (job_of job) (reply_of answer.new)) }
        ensures parcel { (w : World) (bodies : ℕ → FrameValue) → StandsFor self.old.half w bodies →
            result ≡ frame_given_back bodies (job_of job) (reply_of answer.new) }
        ensures refused { changes_nothing (reply_of answer.new) ≡ true → self.new ≡ self.old }
        ensures pending { self.old.half.config.pending ≡ 1 → is_refused (reply_of answer.new) ≡ true →
            self.new ≡ self.old }
        ensures unheard { (w : World) (bodies : ℕ → FrameValue) → StandsFor self.old.half w bodies →
            IsUnheard w → IsUnheard (step w (note_of (job_of job))).world }

        // the header of a group frame has the number and the More Data bit of the answer to its pull
        ensures group_flight { FliesAsSaid (group_in self.new.half (bss_asked (note_of (job_of job))))
            (reply_of answer.new) }
        ensures addresses { self.new.addresses ≡ self.old.addresses }
        ensures path { IsPath self.new.half }
        ensures rises { RiseLittle self.old.half self.new.half }
    {
        match job {
            PathJob::Give(parcel) => match self.half.enqueue(parcel) {
                Ok(Admission { id, dropped }) => {
                    answer.brief = Brief::Accepted { id, dropped };
                    None
                }
                Err((reason, parcel)) => {
                    answer.brief = Brief::Refused(reason);
                    Some(parcel)
                }
            },
            PathJob::Pull(class, limits) => {
                answer.brief = self.half.pull(class, limits, &mut answer.pairs);
                None
            }
            PathJob::Call(ask) => {
                answer.ids.clear();
                answer.brief = self.ask(ask);
                None
            }
            PathJob::Reap => {
                let reaped = self.half.reap();
                answer.brief = reaped_brief(&reaped);
                reaped
            }
        }
    }

    // Makes a call that brings and returns no frame, and whose answer has no lists.
    fn ask(&mut self, ask: PathAsk) -> Brief
        requires small { IsSmall self.old.half }
        ensures { IsAnsweredBriefly self.old (as_ask ask) self.new result }
    {
        match ask {
            PathAsk::Join {
                station,
                window,
                start,
                exponent,
                weight,
            } => self.join(station, window, start, exponent, weight),
            PathAsk::Leave { station } => self.leave(station),
            PathAsk::Rate { station, rate } => self.rate(station, rate),
            PathAsk::Tick { by } => self.tick(by),
            PathAsk::Sleep { station } => self.sleep(station),
            PathAsk::Wake { station } => self.wake(station),
            PathAsk::Poll { station } => self.poll(station),
            PathAsk::Rx {
                station,
                class,
                air,
            } => self.rx(station, class, air),
            PathAsk::Ampdu { station, octets } => self.ampdu(station, octets),
            PathAsk::Stop { station } => self.stop(station),
            PathAsk::Start { station } => self.start(station),
            PathAsk::Unsent { exchange, index } => self.unsent(exchange, index),
            PathAsk::GiveUp { exchange, index } => self.give_up(exchange, index),
            PathAsk::Flush { station, tid } => self.flush(station, tid),
            PathAsk::Offload {
                station,
                exponent,
                weight,
            } => self.offload(station, exponent, weight),
            PathAsk::Weight { station, weight } => self.weight(station, weight),
            PathAsk::Plain {
                station,
                start,
                exponent,
                weight,
            } => self.plain(station, start, exponent, weight),
            PathAsk::Hold { station, tid } => self.hold(station, tid),
            PathAsk::Begin {
                station,
                tid,
                window,
            } => self.begin(station, tid, window),
            PathAsk::Free { station, tid } => self.free(station, tid),
            PathAsk::Cease { station, tid } => self.cease(station, tid),
            PathAsk::Group(call) => self.group(call),
            PathAsk::Service(ask) => self.service(ask),
            PathAsk::Bss { station, bss } => self.set_bss(station, bss),
        }
    }

    fn tick(&mut self, by: u32) -> Brief
        requires small { IsSmall self.old.half }
        ensures { IsAnsweredBriefly self.old (Tick by) self.new result }
    {
        match self.half.tick(by) {
            Ok(now) => Brief::Now { now },
            Err(reason) => Brief::Refused(reason),
        }
    }

    fn rate(&mut self, station: u16, rate: AskedRate) -> Brief
        ensures { IsAnsweredBriefly self.old (Rate station rate) self.new result }
    {
        match self.half.rate(station, rate) {
            Ok(()) => Brief::Set,
            Err(reason) => Brief::Refused(reason),
        }
    }

    fn ampdu(&mut self, station: u16, octets: u32) -> Brief
        ensures { IsAnsweredBriefly self.old (Ampdu station octets) self.new result }
    {
        match self.half.ampdu(station, octets) {
            Ok(()) => Brief::Set,
            Err(reason) => Brief::Refused(reason),
        }
    }

    fn set_bss(&mut self, station: u16, bss: u8) -> Brief
        ensures { IsAnsweredBriefly self.old (Bss station bss) self.new result }
    {
        match self.half.set_bss(station, bss) {
            Ok(()) => Brief::Set,
            Err(reason) => Brief::Refused(reason),
        }
    }

    fn stop(&mut self, station: u16) -> Brief
        ensures { IsAnsweredBriefly self.old (Stop station) self.new result }
    {
        match self.half.stop(station) {
            Ok(()) => Brief::Stopped,
            Err(reason) => Brief::Refused(reason),
        }
    }

    fn start(&mut self, station: u16) -> Brief
        ensures { IsAnsweredBriefly self.old (Start station) self.new result }
    {
        match self.half.start(station) {
            Ok(()) => Brief::Started,
            Err(reason) => Brief::Refused(reason),
        }
    }

    fn unsent(&mut self, exchange: u64, index: u16) -> Brief
        ensures { IsAnsweredBriefly self.old (Unsent exchange index) self.new result }
    {
        match self.half.unsent(exchange, index) {
            Ok(()) => Brief::Marked,
            Err(reason) => Brief::Refused(reason),
        }
    }

    fn give_up(&mut self, exchange: u64, index: u16) -> Brief
        ensures { IsAnsweredBriefly self.old (GiveUp exchange index) self.new result }
    {
        match self.half.give_up(exchange, index) {
            Ok(()) => Brief::Marked,
            Err(reason) => Brief::Refused(reason),
        }
    }

    fn flush(&mut self, station: u16, tid: u8) -> Brief
        ensures { IsAnsweredBriefly self.old (Flush station tid) self.new result }
    {
        match self.half.flush(station, tid) {
            Ok(dropped) => Brief::Flushed { dropped },
            Err(reason) => Brief::Refused(reason),
        }
    }

    fn offload(&mut self, station: u16, exponent: u8, weight: u8) -> Brief
        ensures { IsAnsweredBriefly self.old (Offload station exponent weight) self.new result }
    {
        match self.half.offload(station, exponent, weight) {
            Ok(()) => Brief::Joined,
            Err(reason) => Brief::Refused(reason),
        }
    }

    fn weight(&mut self, station: u16, weight: u8) -> Brief
        ensures { IsAnsweredBriefly self.old (Weight station weight) self.new result }
    {
        match self.half.weight(station, weight) {
            Ok(()) => Brief::Set,
            Err(reason) => Brief::Refused(reason),
        }
    }

    fn rx(&mut self, station: u16, class: Class, air: u32) -> Brief
        requires small { IsSmall self.old.half }
        ensures { IsAnsweredBriefly self.old (Rx station class air) self.new result }
    {
        match self.half.rx(station, class, air) {
            Ok(deficit) => Brief::Charged { deficit },
            Err(reason) => Brief::Refused(reason),
        }
    }

    fn join(&mut self, station: u16, window: u16, start: u16, exponent: u8, weight: u8) -> Brief
        ensures { IsAnsweredBriefly self.old (Join station window start exponent weight) self.new result }
    {
        match self.half.join(station, window, start, exponent, weight) {
            Ok(()) => Brief::Joined,
            Err(reason) => Brief::Refused(reason),
        }
    }

    fn leave(&mut self, station: u16) -> Brief
        ensures { IsAnsweredBriefly self.old (Leave station) self.new result }
    {
        match self.half.leave(station) {
            Ok(dropped) => Brief::Left { dropped },
            Err(reason) => Brief::Refused(reason),
        }
    }

    fn sleep(&mut self, station: u16) -> Brief
        ensures { IsAnsweredBriefly self.old (Sleep station) self.new result }
    {
        match self.half.sleep(station) {
            Ok(()) => Brief::Slept,
            Err(reason) => Brief::Refused(reason),
        }
    }

    fn wake(&mut self, station: u16) -> Brief
        ensures { IsAnsweredBriefly self.old (Wake station) self.new result }
    {
        match self.half.wake(station) {
            Ok(()) => Brief::Woken,
            Err(reason) => Brief::Refused(reason),
        }
    }

    fn poll(&mut self, station: u16) -> Brief
        ensures { IsAnsweredBriefly self.old (Poll station) self.new result }
    {
        match self.half.poll(station) {
            Ok(class) => Brief::Polled { class },
            Err(reason) => Brief::Refused(reason),
        }
    }
}

// Returns the answer of a reap.
fn reaped_brief(reaped: &Option<Parcel>) -> Brief
    ensures { (pairs : List (ℕ × ℕ)) (ids : List ℕ) → reply_with result pairs ids ≡ reaped_reply reaped.now }
{
    match reaped {
        None => Brief::Refused(Refusal::Nothing),
        Some(parcel) => Brief::Reaped {
            id: parcel.frame().id,
            fate: parcel.frame().fate,
        },
    }
}
