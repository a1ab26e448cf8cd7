//! The sequence numbers that a call passes: released frames and gaps.

ghost use Rattle.std.specs.Prelude.{◌≡◌, ◌<◌, ◌≤◌, ◌++◌, ◌∷◌, ◌*◌, [], length, slice_get, Some, count_by, sum_by};
ghost use Rattle.wf_uplink.specs.Shown.{is_frame, missing_of};

use arrayvec::ArrayVec;
use std::marker::Model;

/// A released frame, or a run of numbers that are given up.
#[derive(Clone, Copy, Debug, PartialEq, Eq)]
pub enum UpItem {
    /// A frame is released. `id` is the number of frames accepted before it, `seq` its sequence number, 0 to
    /// 4095.
    Frame { id: u64, seq: u16 },
    /// The `count` numbers from `from` on, modulo 4096, are given up.
    Gap { from: u16, count: u16 },
}

impl Default for UpItem {
    /// An empty gap, for the unused places of a list.
    fn default() -> Self {
        UpItem::Gap { from: 0, count: 0 }
    }
}

/// A list of at most 514 items, in the order of their numbers. It has a fixed size.
#[derive(Drop)]
pub struct Items {
    list: ArrayVec<UpItem, 514>,
}

impl Model for Items {
    ghost use Rattle.std.specs.Prelude.{List};
    ghost use Rattle.wf_uplink.specs.declared.items.UpItem.{UpItem};

    ghost Value = { List UpItem };

    ghost view = { λ a. a.list.items };
}

impl Items {
    /// Returns the empty list.
    pub fn new() -> Items
        ensures { result ≡ [] }
    {
        Items {
            list: ArrayVec::new(),
        }
    }

    /// Removes all items.
    pub fn clear(&mut self)
        ensures { self.new ≡ [] }
    {
        self.list.clear();
    }

    /// Appends an item to a list that has fewer than 514.
    pub fn push(&mut self, item: UpItem)
        requires { length self.old < 514 }
        ensures { self.new ≡ self.old ++ item ∷ [] }
    {
        self.list.push(item);
    }

    /// Returns the number of items, at most 514.
    pub fn len(&self) -> usize
        ensures count { result ≡ length self.now }
        ensures short { result ≤ 514 }
    {
        self.list.len()
    }

    /// Returns the number of released frames, and how many numbers are given up.
    pub(crate) fn counts(&self) -> (u64, u64)
        ensures frames { result.0 ≡ count_by is_frame self.now }
        ensures missing { result.1 ≡ sum_by missing_of self.now }
        ensures few { result.0 ≤ 514 }
        ensures small { result.1 ≤ 514 * 65535 }
    {
        let mut frames: u64 = 0;
        let mut missing: u64 = 0;
        for item in self.list.as_slice() {
            match item {
                UpItem::Frame { .. } => frames += 1,
                UpItem::Gap { count, .. } => missing += u64::from(*count),
            }
        }
        (frames, missing)
    }

    /// Returns the item at index `i`.
    pub fn at(&self, i: usize) -> UpItem
        requires { i < length self.now }
        ensures { slice_get self.now i ≡ Some result }
    {
        self.list.as_slice()[i]
    }
}
