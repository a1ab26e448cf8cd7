//! A tournament tree over numbered leaves. It knows the leaf of the greatest value at each moment; a leaf is
//! set level by level. The module `lazy` has a tree whose leaves are set in constant time, and which climbs
//! when the greatest value is asked for.

pub mod lazy;

ghost use Rattle.std.specs.Prelude.{◌≡◌, ℕ, ◌+◌, ◌-◌, ◌*◌, ◌^◌, ◌<◌, ◌≤◌, length, replicate, slice_index, slice_set, IfOk, IfNone, IfSome};
ghost use Rattle.wf_queue_parts.specs.Best.{IsBest, IsFirstFrom, IsPowerOfTwo};
ghost use Rattle.wf_queue_parts.specs.Tree.{node_at, winner_of};

use std::alloc::{AllocError, Global};
use std::marker::Model;

/// A leaf with its value. Each node of the tree holds the candidate that wins below it.
#[derive(Clone, Copy)]
struct Candidate {
    value: u64,
    leaf: u32,
}

/// A tournament tree over 1 to 65,536 leaves, numbered from 0, each with a value. Contracts see the list of
/// the values.
#[derive(Drop)]
pub struct Peak {
    nodes: Vec<Candidate>,
    count: usize,
}

impl Model for Peak {
    ghost use Rattle.std.specs.Prelude.{List, ℕ};
    ghost use Rattle.wf_queue_parts.specs.Tree.{IsPlayedBut, values_of};

    ghost Value = { List ℕ };

    ghost view = { λ p. values_of p.nodes.items p.count };

    ghost invariant = { λ p. IsPlayedBut p.nodes.items p.count 0 };
}

/// Returns the winner of two candidates: the greater value, and on a tie the lesser leaf.
fn winner_of(first: Candidate, second: Candidate) -> Candidate
    ensures { result ≡ winner_of first second }
{
    let is_greater = second.value > first.value;
    let is_before = second.value == first.value && second.leaf < first.leaf;
    if is_greater || is_before {
        second
    } else {
        first
    }
}

/// Returns the candidate of a node before any leaf is set: the leaf itself, or the winner of its two
/// children.
fn opening_of(nodes: &[Candidate], count: usize, node: usize) -> Candidate
    requires size { length nodes.now ≡ 2 * count }
    requires within { node < 2 * count }
    requires small { count ≤ 65536 }
    ensures inner { node < count →
        result ≡ winner_of (node_at nodes.now (2 * node)) (node_at nodes.now (2 * node + 1)) }
    ensures leaf { count ≤ node → result ≡ record { value = 0; leaf = node - count } }
{
    if node < count {
        winner_of(nodes[2 * node], nodes[2 * node + 1])
    } else {
        Candidate {
            value: 0,
            leaf: (node - count) as u32,
        }
    }
}

impl Peak {
    /// Creates a tree in which all leaves are 0. It allocates two nodes for each leaf, and fails if there is
    /// no memory.
    pub fn new(alloc: Global, leaves: u32) -> Result<Peak, AllocError>
        requires some { 1 ≤ leaves }
        requires small { leaves ≤ 65536 }
        ensures { IfOk result (λ peak. peak ≡ replicate leaves 0) }
    {
        let count = leaves as usize;
        let empty = Candidate { value: 0, leaf: 0 };
        let mut nodes = vec![in alloc; empty; 2 * count]?;
        let mut node = 2 * count;
        while node > 1 {
            node -= 1;
            nodes[node] = opening_of(&nodes, count, node);
        }
        Ok(Peak { nodes, count })
    }

    /// Sets the value of a leaf, and returns the number of levels that it climbed: at most the number of
    /// binary digits of the number of leaves.
    pub fn set(&mut self, leaf: u32, value: u64) -> u32
        requires { leaf < length self.old }
        ensures values { self.new ≡ slice_set self.old leaf value }
        ensures cost { 2 ^ result ≤ 2 * length self.old }
        ensures levels { length self.old + leaf < 2 * 2 ^ result }
    {
        let mut node = self.count + leaf as usize;
        let mut winner = Candidate { value, leaf };
        self.nodes[node] = winner;
        let mut levels = 0;
        while node > 1 {
            let sibling = self.nodes[node ^ 1];
            winner = winner_of(winner, sibling);
            node /= 2;
            self.nodes[node] = winner;
            levels += 1;
        }
        levels
    }

    // Sets the value of a leaf, and the winners of the nodes above it up to the first that keeps its winner.
    // Returns the number of levels that it climbed.
    fn set_until_kept(&mut self, leaf: u32, value: u64) -> u32
        requires { leaf < length self.old }
        ensures values { self.new ≡ slice_set self.old leaf value }
        ensures cost { 2 ^ result ≤ 2 * length self.old }
    {
        let mut node = self.count + leaf as usize;
        let mut won = Candidate { value, leaf };
        self.nodes[node] = won;
        let mut climbed = 0;
        while node > 1 {
            let sibling = self.nodes[node ^ 1];
            won = winner_of(won, sibling);
            node /= 2;
            climbed += 1;
            let before = self.nodes[node];
            if before.value == won.value && before.leaf == won.leaf {
                return climbed;
            }
            self.nodes[node] = won;
        }
        climbed
    }

    /// Returns the value of a leaf.
    pub fn value(&self, leaf: u32) -> u64
        requires { leaf < length self.now }
        ensures { result ≡ slice_index self.now leaf }
    {
        self.nodes[self.count + leaf as usize].value
    }

    /// Returns the leaf of the greatest value, the least leaf on a tie, or None if all values are 0. Constant
    /// time.
    pub fn best(&self) -> Option<u32>
        ensures none { IfNone result ((leaf : ℕ) → slice_index self.now leaf ≡ 0) }
        ensures some { IfSome result (λ leaf. IsBest self.now leaf) }
    {
        let top = self.nodes[1];
        if top.value > 0 { Some(top.leaf) } else { None }
    }

    /// Returns the least leaf whose value is at least `least`, or None if there is none. It takes one step
    /// for each level. The number of leaves must be a power of two, so that the leaves below a node are
    /// consecutive.
    pub fn first_from(&self, least: u64) -> Option<u32>
        requires { IsPowerOfTwo (length self.now) }
        ensures none { IfNone result
            ((leaf : ℕ) → leaf < length self.now → slice_index self.now leaf < least) }
        ensures some { IfSome result (λ leaf. IsFirstFrom self.now least leaf) }
    {
        if self.nodes[1].value < least {
            return None;
        }
        let mut node = 1;
        while node < self.count {
            node *= 2;
            if self.nodes[node].value < least {
                node += 1;
            }
        }
        Some(self.nodes[node].leaf)
    }
}
