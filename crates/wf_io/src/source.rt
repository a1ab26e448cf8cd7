//! Where octets are read from.

ghost use Rattle.std.specs.Prelude.{◌≡◌, ℕ, ◌<◌, ◌≤◌, List, length, take, IfOk, OnErr, Option};
ghost use Rattle.std.specs.Io.KnownBytes.{prepend_known, IsAtEnd};
ghost use Rattle.wf_io.specs.Faults.{CountsFaults};

/// The most octets that a command reads from an input, 2^40. A longer trace, script or capture is refused
/// with a fault. A trace of 4,294,967,295 calls as `live` writes them, with at most 78 octets each, is
/// shorter.
pub const MOST_OCTETS: u64 = 1_099_511_627_776;

/// A read or a write failed. Its source or sink has counted the fault.
#[derive(Clone, Copy, Debug, PartialEq, Eq)]
pub struct Failed;

/// A source of octets.
pub trait Source {
    /// The octets still to come, if contracts know them.
    ghost left: { Self → Option (List ℕ) };

    /// How often the source has failed.
    ghost faults: { Self → ℕ };

    /// Reads octets into the beginning of `buffer`, which must not be empty, and returns how many there are.
    /// 0 means that the input has ended.
    fn read(&mut self, buffer: &mut [u8]) -> Result<usize, Failed>
        requires { 0 < length buffer.old }
        ensures count { IfOk result (λ n. n ≤ length buffer.new) }
        ensures octets { IfOk result
            (λ n. left self.old ≡ prepend_known (take n buffer.new) (left self.new)) }
        ensures end { IfOk result (λ n. n ≡ 0 → IsAtEnd (left self.old)) }
        ensures kept { OnErr result (left self.new ≡ left self.old) }
        ensures cause { CountsFaults (faults self.old) (faults self.new) result };
}
