//! A box as its pointer, so that other nodes can point to its value.

ghost use Rattle.std.specs.Prelude.{◌≡◌};
ghost use Rattle.std.specs.Borrow.{sem};
ghost use denote.Struct.Lending.{lent_at};
ghost use Rattle.std_alloc.specs.Box.Ownership.{box_owns};

use crate::chain::node::Node;
use std::alloc::{Allocator, Global};
use std::marker::{Model, Send};

/// A box as its pointer and its allocator. It is not `Drop`, so that no value is forgotten: `into_box`, a run
/// or a handle consumes it.
pub struct Unboxed<T, A: Allocator> {
    /// The place of the value.
    pub at: *mut T,
    /// The allocator that frees its block.
    pub alloc: A,
    pub ghost value: { T },
}

impl<T, A: Allocator> Model for Unboxed<T, A> {
    ghost also_owns = { λ u. box_owns (A.dealloc_token u.alloc) T.row u.at u.value };

    ghost also_shares = { λ u _ κ. lent_at T.row u.at u.value κ };
}

unsafe impl<T: Send, A: Allocator + Send> Send for Unboxed<T, A> {}

impl<T: Drop, A: Allocator> Unboxed<T, A> {
    /// Takes a box apart into its pointer and its allocator.
    pub fn of(boxed: Box<T, A>) -> Unboxed<T, A>
        ensures { result.value ≡ boxed.value }
    {
        let (at, alloc) = Box::into_raw_with_allocator(boxed);
        Unboxed { at, alloc }
    }

    /// Returns the box.
    pub fn into_box(self) -> Box<T, A>
        ensures { result.value ≡ self.value }
    {
        let Unboxed { at, alloc } = self;
        unsafe { Box::from_raw(alloc, at) }
    }
}

// One node in its own block.
pub(crate) type OwnedNode = Unboxed<Node, Global>;

impl Unboxed<Node, Global> {
    ghost use Rattle.wf_queue_parts.specs.OwnedNode.{LendsNode};

    pub(crate) fn get(&self) -> &Node
        ensures { result.now ≡ self.now.value }
    {
        unsafe { &*self.at }
    }

    pub(crate) fn get_mut(&mut self) -> &mut Node
        ensures* writes_back { sem 𝓛 (LendsNode self.entry result) }
        ensures value { result.now ≡ self.old.value }
    {
        unsafe { &mut *self.at }
    }
}
