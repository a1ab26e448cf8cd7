//! Since when each TID waits for a hole, and which TID is due first.

ghost use Rattle.std.specs.Prelude.{◌≡◌, ◌+◌, ◌-◌, ◌<◌, ◌≤◌, ℕ, length, replicate, slice_index, slice_set, IfOk, IfNone, IfSome};
ghost use Rattle.wf_queue_parts.specs.Best.{IsFirstFrom};
ghost use Rattle.wf_uplink.specs.Reordering.{time_limit};
ghost use Rattle.wf_uplink.specs.Soundness.{latest, worth_of};

use std::alloc::{AllocError, Global};
use std::marker::Model;
use wf_frame::COUNT_LIMIT;
use wf_queue_parts::peak::Peak;

/// How long a hole is waited for, in microseconds.
const TIME_LIMIT: u64 = 100_000;

/// The number of TIDs of 256 stations.
const PLACES: u32 = 2048;

/// The clock at which the wait of each place began, in a tournament tree in which longer waits have greater
/// values.
#[derive(Drop)]
pub(crate) struct Waits {
    peak: Peak,
}

impl Model for Waits {
    ghost use Rattle.std.specs.Prelude.{◌≡◌, List, ℕ, length};

    ghost Value = { List ℕ };

    ghost view = { λ w. w.peak };

    ghost invariant = { λ w. length w.peak ≡ 2048 };
}

impl Waits {
    /// Returns one in which no place waits.
    pub(crate) fn new(alloc: Global) -> Result<Waits, AllocError>
        ensures { IfOk result (λ w. w ≡ replicate 2048 0) }
    {
        let peak = Peak::new(alloc, PLACES)?;
        Ok(Waits { peak })
    }

    /// Sets the clock at which the wait of a place began, or that it does not wait.
    pub(crate) fn set(&mut self, place: usize, since: Option<u64>)
        requires place { place < 2048 }
        requires since { IfSome since (λ clock. clock ≤ latest) }
        ensures { self.new ≡ slice_set self.old place (worth_of since) }
    {
        let worth = match since {
            Some(since) => COUNT_LIMIT - since,
            None => 0,
        };
        self.peak.set(place as u32, worth);
    }

    /// Returns the first place whose wait has reached the time limit.
    pub(crate) fn first_due(&self, now: u64) -> Option<usize>
        requires { now < latest }
        ensures none { IfNone result
            ((place : ℕ) → place < 2048 → slice_index self.now place < latest + time_limit - now) }
        ensures some { IfSome result (λ place. IsFirstFrom self.now (latest + time_limit - now) place) }
    {
        let place = self.peak.first_from(COUNT_LIMIT + TIME_LIMIT - now)?;
        Some(place as usize)
    }
}
