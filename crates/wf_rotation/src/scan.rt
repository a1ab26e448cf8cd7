ghost use Rattle.std.specs.Prelude.{◌≡◌, ℕ, ◌+◌, ◌-◌, ◌^◌, ◌<◌, ◌≤◌, Bool, List, [], ◌∷◌, ◌++◌, negsuc, ◌≤ℤ◌};
ghost use Rattle.wf_def_rotation.specs.Rotation.{need_of};
ghost use Rattle.wf_rotation.specs.Scan.{IsFound, best_after, first_round};

use crate::Side;

/// The best key of a scan so far.
#[derive(Clone, Copy)]
pub(crate) struct Best {
    pub(crate) key: u32,
    /// The round in which the key has its turn: its need, and one more if it is on the old list.
    pub(crate) rank: u64,
    /// The number of keys before it.
    pub(crate) place: usize,
}

/// The result of a scan: the best key, if any key is ready, and the number of keys that were scanned.
#[derive(Clone, Copy)]
pub(crate) struct Found {
    pub(crate) best: Option<Best>,
    pub(crate) count: usize,
}

/// Returns the number of quanta that lift a deficit above 0: 0 if it is above 0 already.
pub(crate) fn need_of(deficit: i64, quantum: u32) -> u64
    requires positive { 0 < quantum }
    requires low { negsuc (2 ^ 62 - 1) ≤ℤ deficit }
    ensures need { result ≡ need_of quantum deficit }
    ensures within { result < 2 ^ 63 }
{
    if deficit > 0 {
        0
    } else {
        (i64::from(quantum) - deficit) as u64 / u64::from(quantum)
    }
}

/// Returns the first round in which the keys of a list are visited: 0 for the new list, 1 for the old list.
pub(crate) fn first_round_of(side: Side) -> u64
    ensures { result ≡ first_round side }
{
    match side {
        Side::New => 0,
        Side::Old => 1,
    }
}

/// Returns the better of two keys: the first, unless the second is ready and has a smaller round.
fn better(best: Option<Best>, here: Best, is_ready: bool) -> Option<Best>
    ensures { result ≡ best_after best here is_ready }
{
    match best {
        None => {
            if is_ready {
                return Some(here);
            }
            None
        }
        Some(first) => {
            if is_ready && here.rank < first.rank {
                return Some(here);
            }
            Some(first)
        }
    }
}

/// Returns the scan with one more key, whose round is `rank`. `found.count` is below 2^40.
pub(crate) fn scanned(found: Found, key: u32, rank: u64, is_ready: bool) -> Found
    requires small { found.count < 2 ^ 40 }
    requires low { rank ≤ 2 ^ 63 }
    ensures found { (ready : ℕ → Bool) (order : ℕ → ℕ) (seen : List ℕ) → IsFound found ready order seen →
        ready key ≡ is_ready → order key ≡ rank → IsFound result ready order (seen ++ key ∷ []) }
    ensures count { result.count ≡ found.count + 1 }
{
    let here = Best {
        key,
        rank,
        place: found.count,
    };
    Found {
        best: better(found.best, here, is_ready),
        count: found.count + 1,
    }
}
