//! The record: a cell and the entries of its history.

ghost use Rattle.std.specs.Prelude.{◌≡◌, ◌↔◌, ◌<◌, ◌≤◌, ◌||◌, ℕ, true, [], Err, Some, None, is_some, IfOk, IfSome, length, slice_get};
ghost use Rattle.wf_frame.specs.Answers.{reply_of};
ghost use Rattle.wf_frame.specs.Frames.{FrameValue};
ghost use Rattle.wf_frame.specs.Settings.{first_out_of_range};
ghost use Rattle.wf_frame.specs.declared.classes.Fate.{Fate};
ghost use Rattle.wf_frame.specs.declared.notes.Refusal.TheVariants.{HistoryFull};
ghost use Rattle.wf_frame.specs.declared.notes.ReplyNote.TheVariants.{Reaped, Refused};
ghost use Rattle.wf_frame.specs.declared.settings.Field.{Field};
ghost use Rattle.wf_def_world.specs.Run.{by, world_of};
ghost use Rattle.wf_def_world.specs.World.{opening};
ghost use Rattle.wf_def_world.specs.Step.{step};
ghost use Rattle.wf_law_runs.specs.Laws.{Laws};
ghost use Rattle.wf_law_runs.specs.Lengths.{HasLengths};
ghost use Rattle.wf_send_half_model.specs.Half.{body_of};
ghost use Rattle.wf_send_half_model.specs.Standing.{StandsFor};
ghost use Rattle.wf_send_half_model.specs.Inside.{is_inside};
ghost use Rattle.wf_path.specs.Addresses.{made_up};
ghost use Rattle.wf_path.specs.Jobs.{bodies_after, changes_nothing, frame_of, frame_given_back, note_of};
ghost use Rattle.wf_cell.specs.Bodies.{body_after};
ghost use Rattle.wf_cell.specs.Cells.{is_received, calls_left_in, with_entry};
ghost use Rattle.wf_cell.specs.Rights.{IsRight};

use crate::{Cell, Job, NewFault, Path};
use std::alloc::{AllocError, Global};
use std::marker::Model;
use wf_frame::{Answer, Config, Note};
use wf_queue_parts::chain::Parcel;

/// A cell, and all entries of its history in memory. Contracts see it as the cell; the invariant says that
/// the entries are the cell's history. Only `new` and `of` allocate, for as many entries as the setting
/// `calls`.
pub struct Record {
    cell: Cell,
    entries: Vec<(u32, Note)>,
}

// By hand, so that a caller that drops a record proves one call, as for a cell.
impl Drop for Record {
    fn drop(self) {
        let Record {
            cell: _cell,
            entries: _entries,
        } = self;
    }
}

impl Model for Record {
    ghost use Rattle.std.specs.Prelude.{vec_capacity};
    ghost use Rattle.wf_cell.specs.Cells.{CellValue};
    ghost use Rattle.wf_cell.specs.Records.{IsRecord};

    ghost Value = { CellValue };

    ghost view = { λ r. r.cell };

    ghost invariant = { λ r. IsRecord r.cell.past r.entries.items (vec_capacity r.entries) };
}

impl Record {
    /// Makes a record with these settings: no station is live, and no call was made. Fails with `BadConfig`
    /// and the first setting that is out of its range, or with `NoMemory`.
    pub fn new(alloc: Global, config: Config) -> Result<Record, NewFault>
        ensures bad { (f : Field) →
            (result ≡ Err (NewFault.BadConfig f)) ↔ (first_out_of_range config ≡ Some f) }
        ensures past { IfOk result (λ made. made.past ≡ record { config = config; history = [] }) }
        ensures stands { IfOk result
            (λ made. (bodies : ℕ → FrameValue) → StandsFor made.half (opening config) bodies) }
    {
        if let Some(field) = config.check() {
            return Err(NewFault::BadConfig(field));
        }
        let record = Record::of(alloc, config)?;
        Ok(record)
    }

    /// Makes a record with settings that are in their ranges. Fails only if there is no memory.
    pub fn of(alloc: Global, config: Config) -> Result<Record, AllocError>
        requires { first_out_of_range config ≡ None }
        ensures past { IfOk result (λ made. made.past ≡ record { config = config; history = [] }) }
        ensures stands { IfOk result
            (λ made. (bodies : ℕ → FrameValue) → StandsFor made.half (opening config) bodies) }
    {
        let entries = Vec::with_capacity(alloc, config.calls as usize)?;
        let cell = Cell::of(alloc, config)?;
        Ok(Record { cell, entries })
    }

    /// Makes a call and answers it. While the history has fewer entries than the setting `calls`, the call
    /// becomes an entry, refused or not. After that each call is refused as `HistoryFull` and is no entry. A
    /// frame is returned if it was refused or reaped.
    pub fn step(&mut self, caller: u32, job: Job, answer: &mut Answer) -> Option<Parcel>
        // if there is room, the history has the call, and the answer is the machine's
        ensures past { 0 < calls_left_in self.old.past →
            self.new.past ≡ with_entry (by caller (note_of job)) self.old.past }
        ensures reply { 0 < calls_left_in self.old.past →
            reply_of answer.new ≡ (step (world_of self.old.past) (note_of job)).reply }

        // the returned frame is the one that was refused, or the one that was reaped, unchanged except its
        // fate
        ensures parcel { 0 < calls_left_in self.old.past → (bodies : ℕ → FrameValue) →
            StandsFor self.old.half (world_of self.old.past) bodies →
            result ≡ frame_given_back bodies job (reply_of answer.new) }
        ensures stands { 0 < calls_left_in self.old.past → (bodies : ℕ → FrameValue) →
            StandsFor self.old.half (world_of self.old.past) bodies →
            StandsFor self.new.half (world_of self.new.past)
            (bodies_after self.old.half (world_of self.old.past) job (reply_of answer.new)
            bodies) }

        // an accepted frame adds the body of its id, and a reaped frame removes it; all other bodies are
        // unchanged
        ensures bodies { 0 < calls_left_in self.old.past → (id : ℕ) →
            body_of self.new.half id ≡ body_after self.old.half (reply_of answer.new) job id }
        ensures reaped { 0 < calls_left_in self.old.past → (id : ℕ) (fate : Fate) →
            reply_of answer.new ≡ Reaped id fate →
            IfSome result (λ f. body_of self.old.half id ≡ Some f.body) }

        // a refused call leaves the path unchanged, and so does one that only receivers hear
        ensures path_kept { (is_received job || changes_nothing (reply_of answer.new)) ≡ true →
            self.new.half ≡ self.old.half }

        // the answer is right, as a gate requires it of a machine
        ensures right { 0 < calls_left_in self.old.past →
            IsRight self.old.past.config self.old.past.history job (reply_of answer.new) result }

        // if there is no room, nothing changes
        ensures full { calls_left_in self.old.past ≡ 0 → reply_of answer.new ≡ Refused HistoryFull }
        ensures unchanged { calls_left_in self.old.past ≡ 0 → self.new ≡ self.old }
        ensures handed_back { calls_left_in self.old.past ≡ 0 → result ≡ frame_of job }

        // all laws of runs hold of the history, in which each frame has 1 to 2304 octets, as some laws
        // require
        ensures laws { Laws self.new.past.config self.new.past.history }
        ensures lengths { HasLengths self.new.past.history }
    {
        if self.calls_left() > 0 {
            self.entries.push_reserved((caller, job.note()));
        }
        self.cell.step(caller, job, answer)
    }

    /// Returns how many entries the history has.
    pub fn len(&self) -> u64
        ensures count { result ≡ length self.now.past.history }
        ensures most { result ≤ self.now.past.config.calls }
    {
        self.cell.len()
    }

    /// Returns an entry of the history, counted from 0: its caller and its call.
    pub fn entry(&self, i: u64) -> (u32, Note)
        requires { i < length self.now.past.history }
        ensures { slice_get self.now.past.history i ≡ Some result }
    {
        self.entries[i as usize]
    }

    /// Returns how many more entries the history has room for.
    pub fn calls_left(&self) -> u64
        ensures { result ≡ calls_left_in self.now.past }
    {
        self.cell.calls_left()
    }

    /// Returns the settings.
    pub fn config(&self) -> Config
        ensures { result ≡ self.now.past.config }
    {
        self.cell.config()
    }

    /// The cell, for functions that read no entry.
    pub fn cell(&self) -> &Cell
        ensures { result.now ≡ self.now }
    {
        &self.cell
    }

    /// The transmit path. It represents the world after the history, and has a body for each frame that was
    /// accepted and is not reaped: the held frames and those on the finished list. Its addresses are the
    /// placeholders.
    pub fn path(&self) -> &Path
        ensures value { result.now.half ≡ self.now.half }
        ensures addresses { result.now.addresses ≡ made_up }
        ensures stands { (bodies : ℕ → FrameValue) × StandsFor self.now.half (world_of self.now.past) bodies }
        ensures inside { (id : ℕ) →
            is_some (body_of self.now.half id) ≡ is_inside (world_of self.now.past) id }
        ensures lengths { HasLengths self.now.past.history }
    {
        self.cell.path()
    }
}
