//! The machine: a counter of octets.
ghost use Rattle.std.specs.Prelude.{◌≡◌, ℕ, ◌+◌, ◌%◌, []};
ghost use Rattle.wf_show_gate.specs.Sums.{octets_at};

use std::marker::Model;
use wf_gate::Machine;
use wf_machine::History;

/// The number of sums in a counter. Callers whose numbers have the same remainder share one.
const SUMS: usize = 256;

/// A counter of octets: a call adds octets to its caller's sum, and the reply is the sum. Contracts see the
/// entries of its history and how many calls are left.
#[derive(Drop)]
pub struct Counter {
    sums: [u64; SUMS],
    left: u32,
    // It takes no memory, because only contracts read it.
    history: History<u32>,
}

impl Model for Counter {
    ghost use Rattle.std.specs.Prelude.{ℕ, List};
    ghost use Rattle.wf_show_gate.specs.Sums.{AreSumsOfCalls, AreSmall};

    ghost Value = { List (ℕ × ℕ) × ℕ };

    ghost view = { λ c. (c.history, c.left) };

    ghost invariant = { λ c. AreSumsOfCalls c.sums c.history × AreSmall c.sums c.left };
}

impl Counter {
    /// A counter with room for this many calls.
    pub fn new(calls: u32) -> Counter
        ensures { result ≡ ([], calls) }
    {
        Counter {
            sums: [0; SUMS],
            left: calls,
            history: History::new(),
        }
    }

    /// Returns the octets of a caller.
    pub fn sum(&self, caller: u32) -> u64
        ensures { result ≡ octets_at (caller % 256) self.now.0 }
    {
        self.sums[caller as usize % SUMS]
    }
}

impl Machine for Counter {
    type Call = u32;

    type Reply = u64;

    type Note = u32;

    type Settings = ();

    ghost past = { λ c. c.0 };

    ghost settings = { λ _. tt };

    ghost calls_left = { λ c. c.1 };

    ghost note = { λ octets. octets };

    ghost right = { λ _ past caller octets sum. sum ≡ octets_at (caller % 256) past + octets };

    fn calls_left(&self) -> u64 {
        self.left as u64
    }

    fn step(&mut self, caller: u32, call: u32) -> u64 {
        let place = caller as usize % SUMS;
        if self.left == 0 {
            return self.sums[place];
        }
        let sum = self.sums[place] + call as u64;
        self.sums[place] = sum;
        self.left -= 1;
        self.history.push(caller, &call);
        sum
    }
}
