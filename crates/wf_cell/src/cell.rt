//! The cell, whose history exists only in contracts.

ghost use Rattle.std.specs.Prelude.{◌≡◌, ◌↔◌, ◌-◌, ◌<◌, ◌≤◌, ◌^◌, ◌||◌, ℕ, true, [], Err, Some, None, is_some, IfOk, IfSome, length, slice_get};
ghost use Rattle.wf_frame.specs.Answers.{reply_of};
ghost use Rattle.wf_frame.specs.Frames.{FrameValue};
ghost use Rattle.wf_frame.specs.Settings.{first_out_of_range};
ghost use Rattle.wf_frame.specs.declared.classes.Fate.{Fate};
ghost use Rattle.wf_frame.specs.declared.notes.Refusal.TheVariants.{HistoryFull};
ghost use Rattle.wf_frame.specs.declared.notes.ReplyNote.TheVariants.{Reaped, Refused};
ghost use Rattle.wf_frame.specs.declared.settings.Field.{Field};
ghost use Rattle.wf_def_world.specs.Run.{by, world_of};
ghost use Rattle.wf_def_world.specs.World.{opening};
ghost use Rattle.wf_def_world.specs.Step.{step};
ghost use Rattle.wf_law_runs.specs.Laws.{Laws};
ghost use Rattle.wf_law_runs.specs.Lengths.{HasLengths};
ghost use Rattle.wf_send_half_model.specs.Half.{body_of};
ghost use Rattle.wf_send_half_model.specs.Standing.{StandsFor};
ghost use Rattle.wf_send_half_model.specs.Inside.{is_inside};
ghost use Rattle.wf_path.specs.Jobs.{bodies_after, changes_nothing, frame_of, frame_given_back, note_of};
ghost use Rattle.wf_path.specs.Addresses.{made_up};
ghost use Rattle.wf_cell.specs.Bodies.{body_after};
ghost use Rattle.wf_cell.specs.Cells.{is_received, calls_left_in, with_entry};
ghost use Rattle.wf_cell.specs.Rights.{IsRight};

use crate::engine::Engine;
use std::alloc::{AllocError, Global};
use std::marker::Model;
use wf_frame::{Answer, Brief, Config, Note, Refusal};
use wf_machine::History;
use wf_path::{Job, NewFault, Path};
use wf_queue_parts::chain::Parcel;

/// A cell: the transmit path of an access point, the receive halves of its stations, and the number of calls
/// that are left. Contracts see the whole history of the calls and the state of the path; the invariant says
/// that these agree with the machine's run of that history (`wf_def_world`). The history takes no memory,
/// since a cell stores only its last entry; `record::Record` stores all entries. Only `new` and `of`
/// allocate, and their size does not depend on the history's length.
pub struct Cell {
    engine: Engine,
    /// The number of calls that are left.
    left: u32,
    /// The last call, if any.
    last: Option<(u32, Note)>,
    past: History<Note>,
}

// By hand, so that a caller that drops a cell proves one call, not the drop of each list in it.
impl Drop for Cell {
    fn drop(self) {
        let Cell {
            engine: _engine,
            left: _,
            last: _,
            past: _past,
        } = self;
    }
}

impl Model for Cell {
    ghost use Rattle.wf_cell.specs.Cells.{CellValue, IsCell};

    ghost Value = { CellValue };

    ghost view = { λ c. record {
      past = record { config = c.engine.half.config; history = c.past };
      half = c.engine.half;
    } };

    ghost invariant = { λ c. IsCell (record {
      config = c.engine.half.config;
      history = c.past;
    }) c.engine c.left c.last };
}

impl Cell {
    /// Makes a cell with these settings: no station is live, and no call was made. Fails with `BadConfig` and
    /// the first setting that is out of its range, or with `NoMemory`.
    pub fn new(alloc: Global, config: Config) -> Result<Cell, NewFault>
        ensures bad { (f : Field) →
            (result ≡ Err (NewFault.BadConfig f)) ↔ (first_out_of_range config ≡ Some f) }
        ensures past { IfOk result (λ made. made.past ≡ record { config = config; history = [] }) }
        ensures stands { IfOk result
            (λ made. (bodies : ℕ → FrameValue) → StandsFor made.half (opening config) bodies) }
    {
        if let Some(field) = config.check() {
            return Err(NewFault::BadConfig(field));
        }
        let cell = Cell::of(alloc, config)?;
        Ok(cell)
    }

    /// Makes a cell with settings that are in their ranges. Fails only if there is no memory.
    pub fn of(alloc: Global, config: Config) -> Result<Cell, AllocError>
        requires { first_out_of_range config ≡ None }
        ensures past { IfOk result (λ made. made.past ≡ record { config = config; history = [] }) }
        ensures stands { IfOk result
            (λ made. (bodies : ℕ → FrameValue) → StandsFor made.half (opening config) bodies) }
    {
        let engine = Engine::new(alloc, config)?;
        let past = History::new();
        Ok(Cell {
            engine,
            left: config.calls,
            last: None,
            past,
        })
    }

    /// Makes a call and answers it. While the history has fewer entries than the setting `calls`, the call
    /// becomes an entry, refused or not. After that each call is refused as `HistoryFull` and is no entry. A
    /// frame is returned if it was refused or reaped.
    pub fn step(&mut self, caller: u32, job: Job, answer: &mut Answer) -> Option<Parcel>
        // if there is room, the history has the call, and the answer is the machine's
        ensures past { 0 < calls_left_in self.old.past →
            self.new.past ≡ with_entry (by caller (note_of job)) self.old.past }
        ensures reply { 0 < calls_left_in self.old.past →
            reply_of answer.new ≡ (step (world_of self.old.past) (note_of job)).reply }

        // the returned frame is the one that was refused, or the one that was reaped, unchanged except its
        // fate
        ensures parcel { 0 < calls_left_in self.old.past → (bodies : ℕ → FrameValue) →
            StandsFor self.old.half (world_of self.old.past) bodies →
            result ≡ frame_given_back bodies job (reply_of answer.new) }
        ensures stands { 0 < calls_left_in self.old.past → (bodies : ℕ → FrameValue) →
            StandsFor self.old.half (world_of self.old.past) bodies →
            StandsFor self.new.half (world_of self.new.past)
            (bodies_after self.old.half (world_of self.old.past) job (reply_of answer.new)
            bodies) }

        // an accepted frame adds the body of its id, and a reaped frame removes it; all other bodies are
        // unchanged
        ensures bodies { 0 < calls_left_in self.old.past → (id : ℕ) →
            body_of self.new.half id ≡ body_after self.old.half (reply_of answer.new) job id }
        ensures reaped { 0 < calls_left_in self.old.past → (id : ℕ) (fate : Fate) →
            reply_of answer.new ≡ Reaped id fate →
            IfSome result (λ f. body_of self.old.half id ≡ Some f.body) }

        // a refused call leaves the path unchanged, and so does one that only receivers hear
        ensures path_kept { (is_received job || changes_nothing (reply_of answer.new)) ≡ true →
            self.new.half ≡ self.old.half }

        // the answer is right, as a gate requires it of a machine
        ensures right { 0 < calls_left_in self.old.past →
            IsRight self.old.past.config self.old.past.history job (reply_of answer.new) result }

        // if there is no room, nothing changes
        ensures full { calls_left_in self.old.past ≡ 0 → reply_of answer.new ≡ Refused HistoryFull }
        ensures unchanged { calls_left_in self.old.past ≡ 0 → self.new ≡ self.old }
        ensures handed_back { calls_left_in self.old.past ≡ 0 → result ≡ frame_of job }

        // all laws of runs hold of the history, in which each frame has 1 to 2304 octets, as some laws
        // require
        ensures laws { Laws self.new.past.config self.new.past.history }
        ensures lengths { HasLengths self.new.past.history }
    {
        if self.left == 0 {
            answer.brief = Brief::Refused(Refusal::HistoryFull);
            return job.parcel();
        }
        let note = job.note();
        self.past.push(caller, &note);
        self.last = Some((caller, note));
        self.left -= 1;
        self.engine.step(job, answer)
    }

    /// Returns how many entries the history has.
    pub fn len(&self) -> u64
        ensures count { result ≡ length self.now.past.history }
        ensures most { result ≤ self.now.past.config.calls }
    {
        u64::from(self.engine.path.config().calls) - u64::from(self.left)
    }

    /// Returns the last entry of the history, if any: its caller and its call.
    pub fn last(&self) -> Option<(u32, Note)>
        ensures { result ≡ slice_get self.now.past.history (length self.now.past.history - 1) }
    {
        self.last
    }

    /// Returns how many more entries the history has room for.
    pub fn calls_left(&self) -> u64
        ensures { result ≡ calls_left_in self.now.past }
    {
        u64::from(self.left)
    }

    /// Returns the settings.
    pub fn config(&self) -> Config
        ensures { result ≡ self.now.past.config }
    {
        self.engine.path.config()
    }

    /// Returns the clock of the world after the history, in microseconds: at most ten seconds for each of at
    /// most 4,294,967,295 calls.
    pub fn clock(&self) -> u64
        ensures value { result ≡ (world_of self.now.past).clock }
        ensures small { result < 2 ^ 56 }
    {
        // the clock is bounded by the length of the history
        let _calls = self.len();
        self.path().now()
    }

    /// The transmit path. It represents the world after the history, and has a body for each frame that was
    /// accepted and is not reaped: the held frames and those on the finished list. Its addresses are the
    /// placeholders.
    pub fn path(&self) -> &Path
        ensures value { result.now.half ≡ self.now.half }
        ensures addresses { result.now.addresses ≡ made_up }
        ensures stands { (bodies : ℕ → FrameValue) × StandsFor self.now.half (world_of self.now.past) bodies }
        ensures inside { (id : ℕ) →
            is_some (body_of self.now.half id) ≡ is_inside (world_of self.now.past) id }
        ensures lengths { HasLengths self.now.past.history }
    {
        &self.engine.path
    }
}
