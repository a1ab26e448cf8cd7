//! A history that takes no memory, because its entries exist only in contracts.

ghost use Rattle.std.specs.Prelude.{◌≡◌, [], ◌∷◌, ◌++◌};

use std::marker::Model;
use std::mem;
use std::snapshot::Snapshot;

/// A chain of entries, the last one first. A `Snapshot` has no bytes.
#[derive(Drop)]
enum Chain<N> {
    /// No entry.
    Start,
    /// The entries before, and one more: its caller and its note.
    Then(Snapshot<Chain<N>>, u32, Snapshot<N>),
}

/// The entries of a history: the caller and the note of each. It takes no memory, and at run time its
/// functions do nothing.
#[derive(Drop)]
pub struct History<N> {
    chain: Snapshot<Chain<N>>,
}

impl<N> Model for History<N> {
    ghost use Rattle.std.specs.Prelude.{List, ℕ};
    ghost use Rattle.wf_machine.specs.Histories.{chain_entries};

    ghost Value = { List (ℕ × N) };

    ghost view = { λ h. chain_entries h.chain.value };
}

impl<N> History<N> {
    /// A history without an entry.
    pub fn new() -> History<N>
        ensures { result ≡ [] }
    {
        History {
            chain: Snapshot::of(&Chain::Start),
        }
    }

    /// Appends one entry.
    pub fn push(&mut self, caller: u32, note: &N)
        ensures { self.new ≡ self.old ++ (caller, note.now) ∷ [] }
    {
        let before = mem::replace(&mut self.chain, Snapshot::of(&Chain::Start));
        self.chain = Snapshot::of(&Chain::Then(before, caller, Snapshot::of(note)));
    }
}
