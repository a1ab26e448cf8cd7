//! A run: nodes, each of which points to the next.

ghost use Rattle.std.specs.Prelude.{◌≡◌, ◌<◌, ◌==◌, List, [], ◌∷◌, length};
ghost use Rattle.wf_queue_parts.specs.Links.{Placed, IsLinked, IsFirst, LeadsOn, IsJoined, nodes_own, first_lent};

use crate::chain::node::Node;
use crate::chain::unboxed::{OwnedNode, Unboxed};
use std::alloc::Global;
use std::marker::{Model, Send};
use std::mem::replace;

// `nodes` are the nodes with their places. Without a node, `head` and `tail` mean nothing.
// It is not `Drop`, so that no node is forgotten.
pub(crate) struct Run {
    head: *mut Node,
    tail: *mut Node,
    ghost nodes: { List Placed },
    ghost linked: { ∥ IsLinked head tail nodes ∥₁ },
}

impl Model for Run {
    ghost also_owns = { λ r. nodes_own r.nodes };

    ghost also_shares = { λ r _ κ. first_lent r.nodes κ };
}

unsafe impl Send for Run {}

impl Run {
    pub(crate) fn new() -> Run
        ensures { result.nodes ≡ [] }
    {
        Run {
            head: std::ptr::null_mut(),
            tail: std::ptr::null_mut(),
        }
    }

    // Returns a run of one node.
    pub(crate) fn of(owned: OwnedNode) -> Run
        ensures { result.nodes ≡ (owned.at, owned.value) ∷ [] }
    {
        let Unboxed { at, alloc: _ } = owned;
        Run { head: at, tail: at }
    }

    // Returns the nodes of `self`, followed by those of `next`.
    pub(crate) fn link(self, next: Run) -> Run
        requires { (0 < length self.nodes) × (0 < length next.nodes) }
        ensures { IsJoined self.nodes next.nodes result.nodes }
    {
        let Run { head, tail } = self;
        let Run {
            head: middle,
            tail: end,
        } = next;
        unsafe {
            (*tail).next = middle;
        }
        Run { head, tail: end }
    }

    pub(crate) fn first(&self) -> &Node
        requires { 0 < length self.now.nodes }
        ensures { IsFirst self.now.nodes result.now }
    {
        unsafe { &*self.head }
    }

    // Returns the place of the second node; it means nothing if there is only one.
    pub(crate) fn second(&self) -> *mut Node
        requires { 0 < length self.now.nodes }
        ensures { LeadsOn self.now.nodes result }
    {
        self.first().next
    }

    // Splits the first node off; `second` is the place of the node after it. Any `Global` frees any block.
    pub(crate) fn split_first(self, second: *mut Node, alloc: Global) -> (OwnedNode, Run)
        requires { LeadsOn self.nodes second }
        ensures { self.nodes ≡ (result.0.at, result.0.value) ∷ result.1.nodes }
    {
        let Run { head, tail } = self;
        (Unboxed { at: head, alloc }, Run { head: second, tail })
    }

    // Puts the nodes of `next` after those of `run`. `empty` says whether `run` has no node.
    pub(crate) fn append(run: &mut Run, empty: bool, next: Run)
        requires { (empty ≡ (length run.old.nodes == 0)) × (0 < length next.nodes) }
        ensures { IsJoined run.old.nodes next.nodes run.new.nodes }
    {
        let before = replace(run, Run::new());
        let after = if empty {
            before.end();
            next
        } else {
            before.link(next)
        };
        replace(run, after).end();
    }

    // Takes the first node off and returns it.
    pub(crate) fn pop(run: &mut Run) -> OwnedNode
        requires { 0 < length run.old.nodes }
        ensures { run.old.nodes ≡ (result.at, result.value) ∷ run.new.nodes }
    {
        let whole = replace(run, Run::new());
        let second = whole.second();
        let alloc = whole.first().alloc;
        let (first, rest) = whole.split_first(second, alloc);
        replace(run, rest).end();
        first
    }

    // Ends a run without nodes.
    pub(crate) fn end(self)
        requires { self.nodes ≡ [] }
    {
        let Run { head: _, tail: _ } = self;
    }
}
