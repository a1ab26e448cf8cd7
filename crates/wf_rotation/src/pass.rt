ghost use Rattle.std.specs.Prelude.{◌≡◌, ℕ, ◌-◌, ◌^◌, ◌<◌, ◌≤◌, Some, if◌then◌else◌, ◌&&◌, pos, negsuc, ◌≤ℤ◌, ◌<ℤ◌};
ghost use Rattle.wf_rotation.specs.Pass.{raised, side_at, passes, share_of, place_in};

use crate::Side;
use crate::scan::{first_round_of, need_of};

/// How a pass treats the keys of a rotation. It depends on the place of the winner.
#[derive(Clone, Copy)]
pub(crate) enum Course {
    /// No key is ready: each key gets the quanta that it needs, and leaves the rotation.
    Nobody,
    /// The winner has round 0: each key before it gets a quantum if it needs one, and goes last on old.
    AtOnce,
    /// The winner has this round, which is not 0, and this place in the old list followed by the new list.
    Later { round: u64, place: usize },
}

/// The gain of a key in a pass.
#[derive(Clone, Copy)]
pub(crate) struct Share {
    /// The number of visits in which the key may get a quantum.
    pub(crate) visits: u64,
    /// Whether the key stays on the rotation.
    pub(crate) stays: bool,
}

/// Returns the list on which a pass finds the key at place `i`, if `olds` old keys come first.
pub(crate) fn side_at(olds: usize, i: usize) -> Side
    ensures { result ≡ side_at olds i }
{
    if i < olds { Side::Old } else { Side::New }
}

/// Returns the number of visits of the key at place `i` while it is on the old list: `round`, and one less
/// from the winner's place on.
fn passes(round: u64, place: usize, i: usize) -> u64
    ensures value { result ≡ passes round place i }
    ensures within { result ≤ round }
{
    if i < place {
        round
    } else {
        round.saturating_sub(1)
    }
}

impl Course {
    /// Returns what the key at place `i` gets. `need` is below 2^63.
    pub(crate) fn share(self, side: Side, i: usize, need: u64, is_ready: bool) -> Share
        requires small { need < 2 ^ 63 }
        requires round { (round place : ℕ) → self ≡ Course.Later round place → round ≤ 2 ^ 63 }
        ensures { result ≡ share_of self side i need is_ready }
    {
        match self {
            Course::Nobody => Share {
                visits: need,
                stays: false,
            },
            Course::AtOnce => Share {
                visits: 1,
                stays: true,
            },
            Course::Later { round, place } => {
                let extra = first_round_of(side);
                let on_old = passes(round, place, i);
                Share {
                    visits: on_old + (1 - extra),
                    stays: is_ready || on_old < (need + extra).max(1),
                }
            }
        }
    }

    /// Returns the place of the winner if this course depends on it, and else 0.
    pub(crate) fn place(self) -> usize
        ensures { result ≡ place_in self }
    {
        match self {
            Course::Nobody | Course::AtOnce => 0,
            Course::Later { round: _, place } => place,
        }
    }
}

/// Returns the key if it stays and is before the winner, and else `last`, the last such key so far.
pub(crate) fn last_kept(last: Option<u32>, key: u32, stays: bool, is_before: bool) -> Option<u32>
    ensures { result ≡ (if stays && is_before then Some key else last) }
{
    if stays && is_before { Some(key) } else { last }
}

/// Returns a deficit after some visits. In each visit it gets one quantum, until it is above 0. The deficit
/// is at least -2^62 and below 2^32.
pub(crate) fn raised(deficit: i64, quantum: u32, visits: u64) -> i64
    requires positive { 0 < quantum }
    requires low { negsuc (2 ^ 62 - 1) ≤ℤ deficit }
    requires high { deficit <ℤ pos (2 ^ 32) }
    ensures value { result ≡ raised deficit quantum visits }
    ensures low { deficit ≤ℤ result }
    ensures high { result <ℤ pos (2 ^ 32) }
{
    let quanta = need_of(deficit, quantum).min(visits);
    deficit + (quanta * u64::from(quantum)) as i64
}
