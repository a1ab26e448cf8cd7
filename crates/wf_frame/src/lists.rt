//! Lists with a fixed capacity, so that calls fill an answer without allocating.

ghost use Rattle.std.specs.Prelude.{◌≡◌, ◌<◌, ◌≤◌, ◌++◌, ◌∷◌, [], length, slice_get, Some};

use arrayvec::ArrayVec;
use std::marker::Model;

/// The ids in an answer.
pub type Ids = FixedList<u64>;

/// The frames of an aggregate: the id of each, and its sequence number (0 to 4095).
pub type Pairs = FixedList<(u64, u16)>;

/// A list of at most 256 items, which never allocates.
#[derive(Drop)]
pub struct FixedList<T> {
    list: ArrayVec<T, 256>,
}

impl<T> Model for FixedList<T> {
    ghost use Rattle.std.specs.Prelude.{List};

    ghost Value = { List T };

    ghost view = { λ a. a.list.items };
}

impl<T: Copy + Default> FixedList<T> {
    /// Returns an empty list.
    pub fn new() -> FixedList<T>
        ensures { result ≡ [] }
    {
        FixedList {
            list: ArrayVec::new(),
        }
    }

    /// Appends an item. The list must have fewer than 256.
    pub fn push(&mut self, item: T)
        requires { length self.old < 256 }
        ensures { self.new ≡ self.old ++ item ∷ [] }
    {
        self.list.push(item);
    }

    /// Removes all items.
    pub fn clear(&mut self)
        ensures { self.new ≡ [] }
    {
        self.list.clear();
    }

    /// Returns the number of items, at most 256.
    pub fn len(&self) -> usize
        ensures count { result ≡ length self.now }
        ensures short { result ≤ 256 }
    {
        self.list.len()
    }

    /// Returns item `i`, counted from 0. `i` must be less than the length.
    pub fn at(&self, i: usize) -> T
        requires { i < length self.now }
        ensures { slice_get self.now i ≡ Some result }
    {
        self.list.as_slice()[i]
    }
}
