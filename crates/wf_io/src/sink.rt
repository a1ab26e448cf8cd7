//! Where octets are written.

ghost use Rattle.std.specs.Prelude.{◌≡◌, ℕ, ◌<◌, ◌≤◌, List, length, take, IfOk, OnOk, OnErr, Option};
ghost use Rattle.std.specs.Io.KnownBytes.{append_known};
ghost use Rattle.wf_io.specs.Faults.{CountsFaults};
ghost use Rattle.wf_io.specs.Fronts.{HoldsFront};

use crate::{Failed, Line};

/// A destination of octets.
pub trait Sink {
    /// The octets written so far, if contracts know them.
    ghost held: { Self → Option (List ℕ) };

    /// How often the sink has failed.
    ghost faults: { Self → ℕ };

    /// Writes a prefix of `octets`, which must not be empty, and returns its length, at least 1.
    fn write(&mut self, octets: &[u8]) -> Result<usize, Failed>
        requires { 0 < length octets.now }
        ensures count { IfOk result (λ n. (0 < n) × (n ≤ length octets.now)) }
        ensures octets { IfOk result (λ n. held self.new ≡ append_known (held self.old) (take n octets.now)) }
        ensures kept { OnErr result (held self.new ≡ held self.old) }
        ensures cause { CountsFaults (faults self.old) (faults self.new) result };
}

/// Writes all octets. After a fault, a prefix of them has been written.
pub fn write_all<K: Sink>(sink: &mut K, octets: &[u8]) -> Result<(), Failed>
    ensures written { OnOk result (K.held sink.new ≡ append_known (K.held sink.old) octets.now) }
    ensures prefix { (n : ℕ) × (n ≤ length octets.now)
        × (K.held sink.new ≡ append_known (K.held sink.old) (take n octets.now)) }
    ensures cause { CountsFaults (K.faults sink.old) (K.faults sink.new) result }
{
    let mut done = 0;
    while done < octets.len() {
        done += sink.write(&octets[done..])?;
    }
    Ok(())
}

/// Writes the octets of a line. After a fault, a prefix of them has been written.
pub fn write_line<K: Sink>(sink: &mut K, line: &Line) -> Result<(), Failed>
    ensures written { OnOk result (K.held sink.new ≡ append_known (K.held sink.old) line.now) }
    ensures front { HoldsFront (K.held sink.old) (K.held sink.new) line.now }
    ensures cause { CountsFaults (K.faults sink.old) (K.faults sink.new) result }
{
    match write_all(sink, line.octets()) {
        Ok(()) => Ok(()),
        Err(failed) => Err(failed),
    }
}
