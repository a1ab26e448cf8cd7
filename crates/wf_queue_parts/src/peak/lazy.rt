//! A tournament tree whose leaves are set in constant time. A leaf that was set is pending, and its value
//! climbs when the greatest value is asked for.

ghost use Rattle.std.specs.Prelude.{◌≡◌, ℕ, ◌+◌, ◌*◌, ◌^◌, ◌<◌, ◌≤◌, false, length, replicate, slice_index, slice_set, vec_capacity, IfOk, IfNone, IfSome};
ghost use Rattle.wf_queue_parts.specs.Best.{IsBest};
ghost use Rattle.wf_queue_parts.specs.Lazy.{IsLazy};

use crate::peak::Peak;
use std::alloc::{AllocError, Global};
use std::marker::Model;

/// The greatest number of pending leaves. If as many are pending, the oldest of them climbs to make room.
const MOST_PENDING: usize = 256;

/// A tournament tree over 1 to 65,536 leaves, numbered from 0, each with a value. Setting a leaf takes
/// constant time while at most 256 leaves were set since the last `best`. Contracts see the list of the
/// values.
#[derive(Drop)]
pub struct LazyPeak {
    /// The pending leaves.
    pending: Vec<u32>,
    /// The place in `pending` of the oldest, if 256 leaves are pending.
    turn: usize,
    /// Whether each leaf is pending.
    is_pending: Vec<bool>,
    /// The value of each leaf.
    values: Vec<u64>,
    /// It has the values of the leaves that are not pending, and earlier values of the others.
    tree: Peak,
}

impl Model for LazyPeak {
    ghost use Rattle.std.specs.Prelude.{List, ℕ, ◌<◌, ◌≤◌, vec_capacity};
    ghost use Rattle.wf_queue_parts.specs.Lazy.{IsLazy};

    ghost Value = { List ℕ };

    ghost view = { λ p. p.values.items };

    ghost invariant = { λ p. IsLazy p.tree p.values.items p.is_pending.items p.pending.items
        × (256 ≤ vec_capacity p.pending) × (p.turn < 256) };
}

/// The leaf of the greatest value, and the number of levels that the pending leaves climbed to find it.
#[derive(Clone, Copy)]
pub struct Best {
    pub leaf: Option<u32>,
    pub levels: u32,
}

/// Brings a leaf of the tree up to date. Returns the number of levels that it climbed.
fn bring(tree: &mut Peak, is_pending: &mut Vec<bool>, values: &[u64], leaf: u32) -> u32
    requires leaf { leaf < length values.now }
    requires size { length tree.old ≡ length values.now }
    requires flags { length is_pending.old.items ≡ length values.now }
    ensures tree { tree.new ≡ slice_set tree.old leaf (slice_index values.now leaf) }
    ensures flag { is_pending.new.items ≡ slice_set is_pending.old.items leaf false }
    ensures cost { 2 ^ result ≤ 2 * length values.now }
{
    let at = leaf as usize;
    is_pending[at] = false;
    tree.set_until_kept(leaf, values[at])
}

/// Brings all pending leaves up to date, from the last on, so that none is pending. Returns the number of
/// levels that they climbed.
fn bring_all(
    tree: &mut Peak,
    is_pending: &mut Vec<bool>,
    pending: &mut Vec<u32>,
    values: &[u64],
) -> u32
    requires { IsLazy tree.old values.now is_pending.old.items pending.old.items }
    ensures lazy { IsLazy tree.new values.now is_pending.new.items pending.new.items }
    ensures tree { tree.new ≡ values.now }
    ensures capacity { vec_capacity pending.new ≡ vec_capacity pending.old }
    ensures cost { (most : ℕ) → 2 * length values.now < 2 ^ most → result ≤ 256 * most }
{
    let mut levels = 0;
    while let Some(leaf) = pending.pop() {
        levels += bring(tree, is_pending, values, leaf);
    }
    levels
}

impl LazyPeak {
    /// Creates a tree in which all leaves are 0. It allocates two nodes for each leaf, a value and a flag for
    /// each, and the list of the pending leaves, and fails if there is no memory.
    pub fn new(alloc: Global, leaves: u32) -> Result<LazyPeak, AllocError>
        requires some { 1 ≤ leaves }
        requires small { leaves ≤ 65536 }
        ensures { IfOk result (λ peak. peak ≡ replicate leaves 0) }
    {
        let count = leaves as usize;
        let pending = Vec::with_capacity(alloc, MOST_PENDING)?;
        let is_pending = vec![in alloc; false; count]?;
        let values = vec![in alloc; 0; count]?;
        let tree = Peak::new(alloc, leaves)?;
        Ok(LazyPeak {
            pending,
            turn: 0,
            is_pending,
            values,
            tree,
        })
    }

    /// Sets the value of a leaf, which is then pending. Returns the number of levels that an older pending
    /// leaf climbed to make room: 0 while at most 256 leaves were set since the last `best`, and at most the
    /// number of binary digits of the number of leaves.
    pub fn set(&mut self, leaf: u32, value: u64) -> u32
        requires { leaf < length self.old }
        ensures values { self.new ≡ slice_set self.old leaf value }
        ensures cost { 2 ^ result ≤ 2 * length self.old }
    {
        let at = leaf as usize;
        if !self.is_pending[at] {
            return self.set_first(leaf, value);
        }
        self.values[at] = value;
        0
    }

    // Sets the value of a leaf, and puts the leaf on the list of the pending ones. If the list is full, the
    // oldest on it climbs, and leaves the list.
    fn set_first(&mut self, leaf: u32, value: u64) -> u32
        requires { leaf < length self.old }
        ensures values { self.new ≡ slice_set self.old leaf value }
        ensures cost { 2 ^ result ≤ 2 * length self.old }
    {
        let at = leaf as usize;
        self.values[at] = value;
        self.is_pending[at] = true;
        if self.pending.len() < MOST_PENDING {
            self.pending.push_reserved(leaf);
            return 0;
        }
        let place = self.turn;
        let oldest = self.pending[place];
        self.pending[place] = leaf;
        self.turn = (place + 1) % MOST_PENDING;
        bring(&mut self.tree, &mut self.is_pending, &self.values, oldest)
    }

    /// Returns the value of a leaf.
    pub fn value(&self, leaf: u32) -> u64
        requires { leaf < length self.now }
        ensures { result ≡ slice_index self.now leaf }
    {
        self.values[leaf as usize]
    }

    /// Returns the leaf of the greatest value, the least leaf on a tie, or None if all values are 0. The
    /// pending leaves climb first: at most 256, each at most the number of binary digits of the number of
    /// leaves. The values stay.
    pub fn best(&mut self) -> Best
        ensures none { IfNone result.leaf ((leaf : ℕ) → slice_index self.old leaf ≡ 0) }
        ensures some { IfSome result.leaf (λ leaf. IsBest self.old leaf) }
        ensures cost { (most : ℕ) → 2 * length self.old < 2 ^ most → result.levels ≤ 256 * most }
        ensures same { self.new ≡ self.old }
    {
        let levels = bring_all(
            &mut self.tree,
            &mut self.is_pending,
            &mut self.pending,
            &self.values,
        );
        self.turn = 0;
        Best {
            leaf: self.tree.best(),
            levels,
        }
    }
}
