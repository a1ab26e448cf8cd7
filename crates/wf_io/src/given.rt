//! A source in memory.

ghost use Rattle.std.specs.Prelude.{◌≡◌, ◌+◌, ◌-◌, ◌^◌, ◌<◌, ◌≤◌, ◌↔◌, min, length, take, Some, Contains, OnErr, IfOk, IsErr};
ghost use Rattle.std.specs.Io.KnownBytes.{prepend_known, IsAtEnd};
ghost use Rattle.wf_io.specs.Faults.{CountsFaults};

use crate::{Failed, Source};
use std::marker::Model;

/// A source in memory, for tests: it returns its octets in pieces, and fails at the listed calls, counted
/// from 0.
#[derive(Drop)]
pub struct Given {
    octets: Vec<u8>,
    next: usize,
    piece: usize,
    failing: Vec<u64>,
    calls: u64,
    faults: u64,
}

impl Model for Given {
    ghost use Rattle.std.specs.Prelude.{◌≤◌, ◌<◌, length, drop};
    ghost use Rattle.wf_io.specs.InMemory.{GivenValue};

    ghost Value = { GivenValue };

    ghost view = { λ g. record {
      left = drop g.next g.octets.items;
      piece = g.piece;
      failing = g.failing.items;
      calls = g.calls;
      faults = g.faults;
    } };

    ghost invariant = { λ g. (g.next ≤ length g.octets.items) × (0 < g.piece) };
}

impl Given {
    /// Returns a source that has `octets` left, returns at most `piece` of them per read, and fails at the
    /// calls in `failing`.
    pub fn new(octets: Vec<u8>, piece: usize, failing: Vec<u64>) -> Self
        requires { 0 < piece }
        ensures { result ≡ record {
          left = octets.items;
          piece = piece;
          failing = failing.items;
          calls = 0;
          faults = 0;
        } }
    {
        Given {
            octets,
            next: 0,
            piece,
            failing,
            calls: 0,
            faults: 0,
        }
    }
}

impl Source for Given {
    ghost left = { λ g. Some g.left };

    ghost faults = { λ g. g.faults };

    // It fails exactly at the listed calls, and counts exactly those faults.
    fn read(&mut self, buffer: &mut [u8]) -> Result<usize, Failed>
        requires { 0 < length buffer.old }
        ensures count { IfOk result (λ n. n ≤ length buffer.new) }
        ensures octets { IfOk result (λ n. Some self.old.left
            ≡ prepend_known (take n buffer.new) (Some self.new.left)) }
        ensures end { IfOk result (λ n. n ≡ 0 → IsAtEnd (Some self.old.left)) }
        ensures kept { OnErr result (Some self.new.left ≡ Some self.old.left) }
        ensures cause { CountsFaults self.old.faults self.new.faults result }

        ensures fails { IsErr result ↔ Contains self.old.failing self.old.calls }
        ensures most { IfOk result (λ n. n ≡ min
            (min (length self.old.left) (length buffer.old)) self.old.piece) }
        ensures calls { self.new ≡ record self.old {
          left = self.new.left;
          calls = min (self.old.calls + 1) (2 ^ 64 - 1);
          faults = self.new.faults;
        } }
    {
        let call = self.calls;
        self.calls = call.saturating_add(1);
        if self.failing.contains(&call) {
            self.faults = self.faults.saturating_add(1);
            return Err(Failed);
        }
        let rest = &self.octets[self.next..];
        let count = rest.len().min(buffer.len()).min(self.piece);
        buffer[..count].copy_from_slice(&rest[..count]);
        self.next += count;
        Ok(count)
    }
}
