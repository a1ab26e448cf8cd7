//! A list of parcels, linked by their nodes.

ghost use Rattle.std.specs.Prelude.{◌≡◌, ◌+◌, ◌^◌, ◌<◌, [], ◌∷◌, ◌++◌, length, MatchOption};

use crate::chain::parcel::Parcel;
use crate::chain::run::Run;
use std::marker::Model;
use std::mem::replace;

/// A list of parcels, fewer than 2^32. A push and a pop move the parcel's node, and allocate nothing. A chain
/// that is dropped frees each of its nodes.
pub struct Chain {
    run: Run,
    len: u32,
}

impl Model for Chain {
    ghost use Rattle.std.specs.Prelude.{◌≡◌, List, length};
    ghost use Rattle.wf_frame.specs.Frames.{FrameValue};

    ghost Value = { List FrameValue };

    ghost use Rattle.wf_queue_parts.specs.Links.{frames_of};

    ghost view = { λ c. frames_of c.run.nodes };

    ghost invariant = { λ c. c.len ≡ length c.run.nodes };
}

impl Chain {
    /// Creates the empty list.
    pub fn new() -> Chain
        ensures { result ≡ [] }
    {
        Chain {
            run: Run::new(),
            len: 0,
        }
    }

    /// Returns the number of parcels.
    pub fn len(&self) -> u32
        ensures { result ≡ length self.now }
    {
        self.len
    }

    /// Puts a parcel last. Constant time; allocates nothing.
    pub fn push_back(&mut self, parcel: Parcel)
        requires { length self.old + 1 < 2 ^ 32 }
        ensures { self.new ≡ self.old ++ parcel ∷ [] }
    {
        let one = Run::of(parcel.into_owned());
        Run::append(&mut self.run, self.len == 0, one);
        self.len += 1;
    }

    /// Takes the first parcel off and returns it, or None if the list is empty. Constant time.
    pub fn pop_front(&mut self) -> Option<Parcel>
        ensures { MatchOption result ((self.old ≡ []) × (self.new ≡ [])) (λ p. self.old ≡ p ∷ self.new) }
    {
        if self.len == 0 {
            return None;
        }
        let first = Run::pop(&mut self.run);
        self.len -= 1;
        Some(Parcel::of(first))
    }

    /// Moves all parcels of `other` to the end, in their order. Constant time.
    pub fn append(&mut self, other: &mut Chain)
        requires { length self.old + length other.old < 2 ^ 32 }
        ensures moved { self.new ≡ self.old ++ other.old }
        ensures emptied { other.new ≡ [] }
    {
        if other.len == 0 {
            return;
        }
        let more = replace(&mut other.run, Run::new());
        Run::append(&mut self.run, self.len == 0, more);
        self.len += other.len;
        other.len = 0;
    }
}

impl Drop for Chain {
    fn drop(mut self) {
        while let Some(parcel) = self.pop_front() {
            drop(parcel);
        }
        let Chain { run, len: _ } = self;
        run.end();
    }
}
