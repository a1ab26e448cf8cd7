//! The handle of a cell.

ghost use Rattle.std.specs.Prelude.{◌≡◌, Option, Some, None, true, is_some, option_map};
ghost use Rattle.std.specs.Borrow.{sem};
ghost use Rattle.wf_c.specs.Slots.{slot_owns};
ghost use Rattle.wf_c.specs.declared.cell.held.HeldCell.{HeldCell as HeldValue};
ghost use Rattle.wf_c.specs.contracts.cell.held.HeldCell.{the_row as held_row};

use crate::cell::held::HeldCell;
use std::alloc::Global;
use std::marker::{Model, Send};
use std::mem::replace;
use wf_queue_parts::chain::Unboxed;

/// The handle of a cell: a struct of the caller's that is empty or holds a cell.
#[repr(C)]
pub struct CellSlot {
    at: *mut u8,
    alloc: Global,
    ghost value: { Option HeldValue },
}

impl Model for CellSlot {
    ghost also_owns = { λ s. slot_owns held_row s.alloc s.at s.value };
}

// A handle may be sent to another thread.
unsafe impl Send for CellSlot {}

impl CellSlot {
    ghost use Rattle.wf_c.specs.CellLending.{LendsCell};

    // An empty handle.
    pub(crate) fn empty(alloc: Global) -> CellSlot
        ensures { result.value ≡ None }
    {
        CellSlot {
            at: std::ptr::null_mut(),
            alloc,
        }
    }

    // A handle that holds this cell.
    pub(crate) fn full(owned: Unboxed<HeldCell, Global>) -> CellSlot
        ensures { result.value ≡ Some owned.value }
    {
        let Unboxed { at, alloc } = owned;
        CellSlot {
            at: at as *mut u8,
            alloc,
        }
    }

    // The content of a handle, if it has one. A handle without content is null.
    pub(crate) fn into_unboxed(self) -> Option<Unboxed<HeldCell, Global>>
        ensures { self.value ≡ option_map (λ u. u.value) result }
    {
        let CellSlot { at, alloc } = self;
        if at.is_null() {
            None
        } else {
            Some(Unboxed {
                at: at as *mut HeldCell,
                alloc,
            })
        }
    }

    // Ends an empty handle.
    pub(crate) fn end(self)
        requires { self.value ≡ None }
    {
        let CellSlot { at: _, alloc: _ } = self;
    }

    // Takes out the content of a handle, if it has one.
    pub(crate) fn take(&mut self, alloc: Global) -> Option<Box<HeldCell, Global>>
        ensures taken { self.old.value ≡ option_map (λ boxed. boxed.value) result }
        ensures emptied { self.new.value ≡ None }
    {
        match replace(self, CellSlot::empty(alloc)).into_unboxed() {
            Some(owned) => Some(owned.into_box()),
            None => None,
        }
    }

    // Returns whether a handle has content. It stays as it is.
    pub(crate) fn is_full(&mut self, alloc: Global) -> bool
        ensures full { result ≡ is_some self.old.value }
        ensures kept { self.new.value ≡ self.old.value }
    {
        match self.take(alloc) {
            Some(held) => {
                self.put(held);
                true
            }
            None => false,
        }
    }

    // Puts a cell into an empty handle.
    pub(crate) fn put(&mut self, held: Box<HeldCell, Global>)
        requires { self.old.value ≡ None }
        ensures { self.new.value ≡ Some held.value }
    {
        replace(self, CellSlot::full(Unboxed::of(held))).end();
    }

    // Borrows the content of a handle. The handle then holds the last value at the reference.
    pub(crate) fn held(&mut self) -> &mut HeldCell
        requires { is_some self.old.value ≡ true }
        ensures* writes_back { sem 𝓛 (LendsCell self.entry result) }
        ensures value { self.old.value ≡ Some result.now }
    {
        unsafe { &mut *(self.at as *mut HeldCell) }
    }
}
