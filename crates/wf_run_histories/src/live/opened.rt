//! The record before its gate opens, and the quotas of the seats.

ghost use Rattle.std.specs.Prelude.{◌≡◌, ◌+◌, ◌∷◌, ◌≤◌, ◌<◌, [], length, IfOk};
ghost use Rattle.wf_frame.specs.Settings.{standard};
ghost use Rattle.wf_frame.specs.declared.notes.Note.TheVariants.{Asked};
ghost use Rattle.wf_def_world.specs.Run.{by};
ghost use Rattle.wf_run_histories.specs.Opening.{opening_calls, with_entries};
ghost use Rattle.wf_run_histories.specs.Crew.{quotas_of};

use crate::soak::workers::{Opens, open_stations};
use std::alloc::{AllocError, Global};
use std::marker::Model;
use wf_cell::Job;
use wf_cell::record::Record;
use wf_frame::{Answer, Ask, Config};

// The number of calls that each of the four drivers may make.
const DRIVER_QUOTA: u32 = 150_000;

/// A record on which the opening calls are made.
#[derive(Drop)]
pub(crate) struct Opened {
    cell: Record,
}

impl Model for Opened {
    ghost use Rattle.wf_def_world.specs.Run.{Past};

    ghost Value = { Past };

    ghost view = { λ o. o.cell.past };
}

impl Opens for Opened {
    ghost past = { λ o. o };

    fn ask(&mut self, caller: u32, ask: Ask)
        requires room { length self.old.history < self.old.config.calls }
        ensures past { self.new ≡ with_entries (by caller (Asked ask) ∷ []) self.old }
    {
        let mut answer = Answer::new();
        let _ = self.cell.step(caller, Job::Call(ask), &mut answer);
    }
}

impl Opened {
    // Returns a record with the standard settings and no calls.
    #[inline(never)]
    fn new(alloc: Global) -> Result<Opened, AllocError>
        ensures { IfOk result (λ o. o ≡ record { config = standard; history = [] }) }
    {
        let cell = Record::of(alloc, Config::standard())?;
        Ok(Opened { cell })
    }

    /// Returns a record with the standard settings and the opening calls for `senders` stations, at most 8.
    /// Fails only if memory runs out.
    pub(crate) fn with_stations(alloc: Global, senders: u32) -> Result<Opened, AllocError>
        requires { senders ≤ 8 }
        ensures { IfOk result (λ o. o ≡ record { config = standard; history = opening_calls senders }) }
    {
        let mut opened = Opened::new(alloc)?;
        open_stations(&mut opened, senders as u16);
        Ok(opened)
    }

    /// Returns the record.
    pub(crate) fn into_cell(self) -> Record
        ensures { result.past ≡ self }
    {
        self.cell
    }
}

/// Returns the quotas of the seats: a sender makes one call for each of its frames and one more, and each of
/// the four drivers at most 150,000. Fails only if memory runs out.
pub(crate) fn quotas(alloc: Global, senders: u32, frames: u32) -> Result<Vec<u32>, AllocError>
    requires { (senders ≤ 8) × (frames ≤ 10000) }
    ensures { IfOk result (λ q. q.items ≡ quotas_of senders frames) }
{
    let mut quotas = vec![in alloc; frames + 1; senders as usize]?;
    quotas.extend_from_slice(&[DRIVER_QUOTA; 4])?;
    Ok(quotas)
}
