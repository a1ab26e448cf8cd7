//! The handle of a path.

ghost use Rattle.std.specs.Prelude.{◌≡◌, Option, Some, None, true, is_some, option_map};
ghost use Rattle.std.specs.Borrow.{sem};
ghost use Rattle.wf_c.specs.Slots.{slot_owns};
ghost use Rattle.wf_c.specs.declared.held.Held.{Held as HeldValue};
ghost use Rattle.wf_c.specs.contracts.held.Held.{the_row as held_row};

use crate::held::Held;
use std::alloc::Global;
use std::marker::{Model, Send};
use std::mem::replace;
use wf_queue_parts::chain::Unboxed;

/// The handle of a path: a struct of the caller's that is empty or holds a path.
#[repr(C)]
pub struct PathSlot {
    at: *mut u8,
    alloc: Global,
    ghost value: { Option HeldValue },
}

impl Model for PathSlot {
    ghost also_owns = { λ s. slot_owns held_row s.alloc s.at s.value };
}

// A handle may be sent to another thread.
unsafe impl Send for PathSlot {}

impl PathSlot {
    ghost use Rattle.wf_c.specs.Lending.{LendsHeld};

    // An empty handle.
    pub(crate) fn empty(alloc: Global) -> PathSlot
        ensures { result.value ≡ None }
    {
        PathSlot {
            at: std::ptr::null_mut(),
            alloc,
        }
    }

    // A handle that holds this path.
    pub(crate) fn full(owned: Unboxed<Held, Global>) -> PathSlot
        ensures { result.value ≡ Some owned.value }
    {
        let Unboxed { at, alloc } = owned;
        PathSlot {
            at: at as *mut u8,
            alloc,
        }
    }

    // The content of a handle, if it has one. A handle without content is null.
    pub(crate) fn into_unboxed(self) -> Option<Unboxed<Held, Global>>
        ensures { self.value ≡ option_map (λ u. u.value) result }
    {
        let PathSlot { at, alloc } = self;
        if at.is_null() {
            None
        } else {
            Some(Unboxed {
                at: at as *mut Held,
                alloc,
            })
        }
    }

    // Ends an empty handle.
    pub(crate) fn end(self)
        requires { self.value ≡ None }
    {
        let PathSlot { at: _, alloc: _ } = self;
    }

    // Takes out the content of a handle, if it has one.
    pub(crate) fn take(&mut self, alloc: Global) -> Option<Box<Held, Global>>
        ensures taken { self.old.value ≡ option_map (λ boxed. boxed.value) result }
        ensures emptied { self.new.value ≡ None }
    {
        match replace(self, PathSlot::empty(alloc)).into_unboxed() {
            Some(owned) => Some(owned.into_box()),
            None => None,
        }
    }

    // Returns whether a handle has content. It stays as it is.
    pub(crate) fn is_full(&mut self, alloc: Global) -> bool
        ensures full { result ≡ is_some self.old.value }
        ensures kept { self.new.value ≡ self.old.value }
    {
        match self.take(alloc) {
            Some(held) => {
                self.put(held);
                true
            }
            None => false,
        }
    }

    // Puts a path into an empty handle.
    pub(crate) fn put(&mut self, held: Box<Held, Global>)
        requires { self.old.value ≡ None }
        ensures { self.new.value ≡ Some held.value }
    {
        replace(self, PathSlot::full(Unboxed::of(held))).end();
    }

    // Borrows the content of a handle. The handle then holds the last value at the reference.
    pub(crate) fn held(&mut self) -> &mut Held
        requires { is_some self.old.value ≡ true }
        ensures* writes_back { sem 𝓛 (LendsHeld self.entry result) }
        ensures value { self.old.value ≡ Some result.now }
    {
        unsafe { &mut *(self.at as *mut Held) }
    }
}
