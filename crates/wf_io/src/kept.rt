//! A sink in memory.

ghost use Rattle.std.specs.Prelude.{◌≡◌, ◌+◌, ◌-◌, ◌^◌, ◌<◌, ◌≤◌, ◌↔◌, ◌⊎◌, [], min, length, take, Some, Contains, OnErr, IfOk, IsErr};
ghost use Rattle.std.specs.Io.KnownBytes.{append_known};
ghost use Rattle.wf_io.specs.Faults.{CountsFaults};

use crate::{Failed, Sink};
use std::alloc::{AllocError, Global};
use std::marker::Model;

/// A sink in memory, for tests: it holds at most `room` octets, and fails at the listed calls, counted from
/// 0, and when it is full.
#[derive(Drop)]
pub struct Kept {
    octets: Vec<u8>,
    room: usize,
    piece: usize,
    failing: Vec<u64>,
    calls: u64,
    faults: u64,
}

impl Model for Kept {
    ghost use Rattle.std.specs.Prelude.{◌≤◌, ◌<◌, vec_len, vec_capacity};
    ghost use Rattle.wf_io.specs.InMemory.{KeptValue};

    ghost Value = { KeptValue };

    ghost view = { λ k. record {
      held = k.octets.items;
      room = k.room;
      piece = k.piece;
      failing = k.failing.items;
      calls = k.calls;
      faults = k.faults;
    } };

    ghost invariant = { λ k. (vec_len k.octets ≤ k.room) × (k.room ≤ vec_capacity k.octets) × (0 < k.piece) };
}

impl Kept {
    /// Returns an empty sink that takes at most `piece` octets per write, and fails at the calls in
    /// `failing`. It allocates its room here, and nothing later. Fails if memory runs out.
    pub fn new(
        alloc: Global,
        room: usize,
        piece: usize,
        failing: Vec<u64>,
    ) -> Result<Self, AllocError>
        requires { 0 < piece }
        ensures { IfOk result (λ k. k ≡ record {
          held = [];
          room = room;
          piece = piece;
          failing = failing.items;
          calls = 0;
          faults = 0;
        }) }
    {
        let octets = Vec::with_capacity(alloc, room)?;
        Ok(Kept {
            octets,
            room,
            piece,
            failing,
            calls: 0,
            faults: 0,
        })
    }

    /// Returns the octets that were written.
    pub fn octets(&self) -> &[u8]
        ensures { result.now ≡ self.now.held }
    {
        self.octets.as_slice()
    }
}

impl Sink for Kept {
    ghost held = { λ k. Some k.held };

    ghost faults = { λ k. k.faults };

    // It fails exactly at the listed calls and when it is full, and counts exactly those faults.
    fn write(&mut self, octets: &[u8]) -> Result<usize, Failed>
        requires { 0 < length octets.now }
        ensures count { IfOk result (λ n. (0 < n) × (n ≤ length octets.now)) }
        ensures octets { IfOk result (λ n. Some self.new.held
            ≡ append_known (Some self.old.held) (take n octets.now)) }
        ensures kept { OnErr result (Some self.new.held ≡ Some self.old.held) }
        ensures cause { CountsFaults self.old.faults self.new.faults result }

        ensures fails { IsErr result ↔ (Contains self.old.failing self.old.calls ⊎
            (self.old.room ≤ length self.old.held)) }
        ensures most { IfOk result (λ n. n ≡ min
            (min (length octets.now) (self.old.room - length self.old.held)) self.old.piece) }
        ensures calls { self.new ≡ record self.old {
          held = self.new.held;
          calls = min (self.old.calls + 1) (2 ^ 64 - 1);
          faults = self.new.faults;
        } }
    {
        let call = self.calls;
        self.calls = call.saturating_add(1);
        if self.failing.contains(&call) || self.octets.len() >= self.room {
            self.faults = self.faults.saturating_add(1);
            return Err(Failed);
        }
        let count = octets
            .len()
            .min(self.room - self.octets.len())
            .min(self.piece);
        self.octets.extend_from_slice(&octets[..count]).unwrap();
        Ok(count)
    }
}
