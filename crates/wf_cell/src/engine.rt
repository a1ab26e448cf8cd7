//! The engine: a cell without its history.

ghost use Rattle.std.specs.Prelude.{◌≡◌, ◌||◌, ℕ, true, Some, None, IfOk};
ghost use Rattle.wf_frame.specs.Frames.{FrameValue};
ghost use Rattle.wf_frame.specs.Answers.{reply_of};
ghost use Rattle.wf_frame.specs.Settings.{first_out_of_range};
ghost use Rattle.wf_frame.specs.declared.notes.Ask.TheVariants.{Flush, Pull};
ghost use Rattle.wf_frame.specs.declared.notes.Note.TheVariants.{Asked};
ghost use Rattle.wf_def_world.specs.World.{World, opening};
ghost use Rattle.wf_send_half.specs.Replies.{bodies_sent};
ghost use Rattle.wf_path.specs.Jobs.{ask_about, as_ask, job_of, changes_nothing};
ghost use Rattle.wf_path.specs.Paths.{IsSmall};
ghost use Rattle.wf_cell.specs.Engines.{newcomer_of, EngineHasWorld, IsJobDone, EngineIsIn, EngineMeets};
ghost use Rattle.wf_cell.specs.Cells.{is_received};

use crate::agreements::PLAIN_WINDOW;
use crate::peers::Peers;
use std::alloc::{AllocError, Global};
use std::marker::Model;
use wf_frame::{Answer, Ask, Brief, Class, Config, GREATEST_WINDOW, Limits};
use wf_octets::header::GREATEST_MPDU;
use wf_octets::seq12::Seq12;
use wf_path::{ExchangeAsk, Job, Path, PathAsk, PathJob};
use wf_queue_parts::chain::Parcel;
use wf_recv_marks::Marks;

/// The path, the receive half of each station, and the marks of the open exchanges. The contract of a call
/// says what it makes of each world that these represent. The path and the stations have the placeholder
/// addresses. Only `new` allocates.
#[derive(Drop)]
pub(crate) struct Engine {
    pub(crate) path: Path,
    pub(crate) peers: Peers,
    pub(crate) marks: Marks,
    /// The octets of a transmission that is on the air.
    pub(crate) octets: [u8; GREATEST_MPDU],
}

impl Model for Engine {
    ghost use Rattle.std.specs.Prelude.{◌≡◌};
    ghost use Rattle.wf_path.specs.Addresses.{made_up};
    ghost use Rattle.wf_cell.specs.Engines.{EngineValue};

    ghost Value = { EngineValue };

    ghost view = { λ e. record { half = e.path.half; peers = e.peers; marks = e.marks } };

    ghost invariant = { λ e. e.path.addresses ≡ made_up };
}

/// A station that joins, with the first number and the window of each of its TIDs.
#[derive(Clone, Copy)]
struct Newcomer {
    station: u16,
    start: u16,
    window: u16,
}

// Returns the station that joins by a call of the path, if one does. The device of an offloaded station
// numbers its frames, and a TID without an agreement has a window of one number.
fn newcomer_of(ask: &PathAsk) -> Option<Newcomer>
    ensures { result ≡ newcomer_of ask.now }
{
    match *ask {
        PathAsk::Join {
            station,
            window,
            start,
            ..
        } => Some(Newcomer {
            station,
            start,
            window,
        }),
        PathAsk::Offload { station, .. } => Some(Newcomer {
            station,
            start: 0,
            window: GREATEST_WINDOW,
        }),
        PathAsk::Plain { station, start, .. } => Some(Newcomer {
            station,
            start,
            window: PLAIN_WINDOW,
        }),
        _ => None,
    }
}

impl Engine {
    /// Makes an engine with these settings, each of which must be in its range. It represents the opening
    /// world.
    pub(crate) fn new(alloc: Global, config: Config) -> Result<Engine, AllocError>
        requires { first_out_of_range config ≡ None }
        ensures { IfOk result (λ made. (bodies : ℕ → FrameValue) → EngineIsIn made (opening config) bodies) }
    {
        let peers = Peers::new(alloc, config.stations)?;
        let marks = Marks::new(alloc)?;
        match Path::new(alloc, config) {
            Ok(path) => Ok(Engine {
                path,
                peers,
                marks,
                octets: [0; GREATEST_MPDU],
            }),
            // the settings are in their ranges, so there is no memory
            Err(_) => Err(AllocError),
        }
    }

    /// Makes a call and answers it. A frame is returned exactly if it was refused or reaped.
    pub(crate) fn step(&mut self, job: Job, answer: &mut Answer) -> Option<Parcel>
        requires some { EngineHasWorld self.old }
        requires small { IsSmall self.old.half }
        ensures done { (w : World) (bodies : ℕ → FrameValue) → EngineIsIn self.old w bodies →
            IsJobDone w bodies job self.old.half self.new (reply_of answer.new) result }
        ensures path_kept { (is_received job || changes_nothing (reply_of answer.new)) ≡ true →
            self.new.half ≡ self.old.half }
    {
        match job {
            Job::Give(parcel) => self.path_call(PathJob::Give(parcel), answer),
            Job::Call(ask) => self.ask(ask, answer),
        }
    }

    // Makes a call that brings no frame.
    fn ask(&mut self, ask: Ask, answer: &mut Answer) -> Option<Parcel>
        requires some { EngineHasWorld self.old }
        requires small { IsSmall self.old.half }
        ensures done { (w : World) (bodies : ℕ → FrameValue) → EngineIsIn self.old w bodies →
            IsJobDone w bodies (Job.Call ask) self.old.half self.new (reply_of answer.new) result }
        ensures path_kept { (is_received (Job.Call ask) || changes_nothing (reply_of answer.new)) ≡ true →
            self.new.half ≡ self.old.half }
    {
        match PathJob::of(ask) {
            Ok(job) => self.path_call(job, answer),
            Err(about) => {
                self.exchange_call(about, answer);
                None
            }
        }
    }

    // Makes a call of the path. An exchange that opens gets a mark.
    fn path_call(&mut self, job: PathJob, answer: &mut Answer) -> Option<Parcel>
        requires some { EngineHasWorld self.old }
        requires small { IsSmall self.old.half }
        ensures done { (w : World) (bodies : ℕ → FrameValue) → EngineIsIn self.old w bodies →
            IsJobDone w bodies (job_of job) self.old.half self.new (reply_of answer.new) result }
        ensures path_kept { changes_nothing (reply_of answer.new) ≡ true →
            self.new.half ≡ self.old.half }
    {
        match job {
            PathJob::Call(ask) => self.path_ask(ask, answer),
            PathJob::Pull(class, limits) => {
                self.pull(class, limits, answer);
                None
            }
            _ => self.path.call(job, answer),
        }
    }

    // Makes a call of the path that brings no frame. A station that joins gets a new receive half. The marks
    // say whether a transmission may turn out not to have been on the air.
    fn path_ask(&mut self, ask: PathAsk, answer: &mut Answer) -> Option<Parcel>
        requires some { EngineHasWorld self.old }
        requires small { IsSmall self.old.half }
        ensures done { (w : World) (bodies : ℕ → FrameValue) → EngineIsIn self.old w bodies →
            IsJobDone w bodies (Job.Call (as_ask ask)) self.old.half self.new (reply_of answer.new) result }
        ensures path_kept { changes_nothing (reply_of answer.new) ≡ true →
            self.new.half ≡ self.old.half }
    {
        match ask {
            PathAsk::Unsent { exchange, index } => {
                self.unsent(exchange, index, answer);
                None
            }
            PathAsk::Flush { station, tid } => {
                self.flush(station, tid, answer);
                None
            }
            PathAsk::Begin {
                station,
                tid,
                window,
            } => {
                self.begin(station, tid, window, answer);
                None
            }
            PathAsk::Cease { station, tid } => {
                self.cease(station, tid, answer);
                None
            }
            _ => match newcomer_of(&ask) {
                Some(newcomer) => {
                    self.join(ask, newcomer, answer);
                    None
                }
                None => self.path.call(PathJob::Call(ask), answer),
            },
        }
    }

    // Makes a call about an open exchange.
    fn exchange_call(&mut self, about: ExchangeAsk, answer: &mut Answer)
        requires some { EngineHasWorld self.old }
        requires small { IsSmall self.old.half }
        ensures done { (w : World) (bodies : ℕ → FrameValue) → EngineIsIn self.old w bodies →
            IsJobDone w bodies (Job.Call (ask_about about)) self.old.half self.new
            (reply_of answer.new) None }
        ensures path_kept { let job = Job.Call (ask_about about) in
            (is_received job || changes_nothing (reply_of answer.new)) ≡ true →
            self.new.half ≡ self.old.half }
    {
        match about {
            ExchangeAsk::Arrive { exchange, index } => self.arrive(exchange, index, answer),
            ExchangeAsk::Answer { exchange } => self.answer(exchange, answer),
            ExchangeAsk::Done {
                exchange,
                heard,
                air,
            } => self.done(exchange, heard, air, answer),
        }
    }

    // Makes a station join, with a new receive half.
    fn join(&mut self, ask: PathAsk, newcomer: Newcomer, answer: &mut Answer)
        requires some { EngineHasWorld self.old }
        requires small { IsSmall self.old.half }
        requires joins { newcomer_of ask ≡ Some newcomer }
        ensures meets { (w : World) (bodies : ℕ → FrameValue) → EngineIsIn self.old w bodies →
            EngineMeets w bodies (Asked (as_ask ask)) self.new (reply_of answer.new) }
        ensures path_kept { changes_nothing (reply_of answer.new) ≡ true →
            self.new.half ≡ self.old.half }
    {
        let _ = self.path.call(PathJob::Call(ask), answer);
        match answer.brief {
            Brief::Joined => {
                let start = Seq12::of(u64::from(newcomer.start));
                self.peers.reset(newcomer.station, start, newcomer.window);
            }
            _ => {}
        }
    }

    // Drops the frames of a TID that are not on the air. If the TID has no agreement, the receive half moves
    // to the start of the window.
    fn flush(&mut self, station: u16, tid: u8, answer: &mut Answer)
        requires some { EngineHasWorld self.old }
        requires small { IsSmall self.old.half }
        ensures meets { (w : World) (bodies : ℕ → FrameValue) → EngineIsIn self.old w bodies →
            EngineMeets w bodies (Asked (Flush station tid)) self.new (reply_of answer.new) }
        ensures path_kept { changes_nothing (reply_of answer.new) ≡ true →
            self.new.half ≡ self.old.half }
    {
        let ask = PathAsk::Flush { station, tid };
        let _ = self.path.call(PathJob::Call(ask), answer);
        match answer.brief {
            Brief::Flushed { .. } => self.catch_up(station, tid, &mut answer.ids),
            _ => {}
        }
    }

    // Opens the next exchange of a class within these limits, with a mark.
    fn pull(&mut self, class: Class, limits: Limits, answer: &mut Answer)
        requires some { EngineHasWorld self.old }
        requires small { IsSmall self.old.half }
        ensures meets { (w : World) (bodies : ℕ → FrameValue) → EngineIsIn self.old w bodies →
            EngineMeets w (bodies_sent (reply_of answer.new) bodies) (Asked (Pull class limits)) self.new
            (reply_of answer.new) }
        ensures path_kept { changes_nothing (reply_of answer.new) ≡ true →
            self.new.half ≡ self.old.half }
    {
        let _ = self.path.call(PathJob::Pull(class, limits), answer);
        match answer.brief {
            Brief::Send { exchange, .. } => self.marks.open(exchange),
            _ => {}
        }
    }
}
