//! A buffer of lines, which are written together.

ghost use Rattle.std.specs.Prelude.{◌≡◌, ◌++◌, [], List, ℕ, IsTrue, IfOk, OnOk};
ghost use Rattle.std.specs.Io.KnownBytes.{append_known};
ghost use Rattle.wf_io.specs.Faults.{CountsFaults};
ghost use Rattle.wf_io.specs.Fronts.{HoldsFront};
ghost use Rattle.wf_trace_laws.specs.Leaving.{Leaves};

use std::alloc::{AllocError, Global};
use std::marker::Model;
use wf_io::{Failed, Sink, write_all};

// The most octets that may wait.
const ROOM: usize = 65_536;

/// Lines that wait to be written to a sink, in order.
#[derive(Drop)]
pub struct Outgoing {
    octets: Vec<u8>,
}

impl Model for Outgoing {
    ghost use Rattle.std.specs.Prelude.{◌≤◌, List, ℕ, vec_len, vec_capacity};
    ghost use Rattle.wf_run_replay.specs.Sending.{room};

    ghost Value = { List ℕ };

    ghost view = { λ o. o.octets.items };

    ghost invariant = { λ o. (vec_len o.octets ≤ room) × (room ≤ vec_capacity o.octets) };
}

impl Outgoing {
    /// Returns an empty buffer. It allocates room for 65,536 octets here, and nothing later.
    pub fn new(alloc: Global) -> Result<Self, AllocError>
        ensures { IfOk result (λ o. o ≡ []) }
    {
        let octets = Vec::with_capacity(alloc, ROOM)?;
        Ok(Outgoing { octets })
    }

    /// Writes everything that waits. After a failed write the sink holds a prefix of it.
    pub fn send<K: Sink>(&mut self, sink: &mut K) -> Result<(), Failed>
        ensures none { OnOk result (self.new ≡ []) }
        ensures sent { OnOk result (K.held sink.new ≡ append_known (K.held sink.old) self.old) }
        ensures front { HoldsFront (K.held sink.old) (K.held sink.new) self.old }
        ensures cause { CountsFaults (K.faults sink.old) (K.faults sink.new) result }
    {
        write_all(sink, self.octets.as_slice())?;
        self.octets.clear();
        Ok(())
    }

    /// Appends a line, and writes everything if `due` is set. If the line does not fit, everything that waits
    /// is written, and then the line. After a failed write the sink holds a prefix of the waiting octets and
    /// the line.
    pub fn put<K: Sink>(&mut self, line: &[u8], due: bool, sink: &mut K) -> Result<(), Failed>
        ensures leaves { OnOk result (Leaves (K.held sink.old) (K.held sink.new)
            (self.old ++ line.now) self.new) }
        ensures none { OnOk result (IsTrue due → self.new ≡ []) }
        ensures front { HoldsFront (K.held sink.old) (K.held sink.new) (self.old ++ line.now) }
        ensures cause { CountsFaults (K.faults sink.old) (K.faults sink.new) result }
    {
        if line.len() <= ROOM - self.octets.len() {
            self.octets.extend_from_slice(line).unwrap();
            return if due { self.send(sink) } else { Ok(()) };
        }
        self.send(sink)?;
        write_all(sink, line)
    }
}
