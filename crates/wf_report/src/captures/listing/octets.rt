//! Reads or skips a given number of octets of a source.

ghost use Rattle.std.specs.Prelude.{◌≡◌, ◌<◌, ◌≤◌, ℕ, List, length, take, IfOk, MatchBool, MatchResult};
ghost use Rattle.std.specs.Io.KnownBytes.{prepend_known, IsAtEnd};
ghost use Rattle.wf_io.specs.Faults.{CountsFaults};

use wf_io::{Failed, Source};

/// Reads octets until the buffer is full or the input ends, and returns their number. If the source fails,
/// fewer octets were read than the buffer has room for.
pub fn fill<S: Source>(source: &mut S, buffer: &mut [u8]) -> Result<usize, Failed>
    ensures count { IfOk result (λ n. n ≤ length buffer.new) }
    ensures taken { (octets : List ℕ) × (S.left source.old ≡ prepend_known octets (S.left source.new))
        × MatchResult result (λ n. octets ≡ take n buffer.new) (λ failed. length octets < length buffer.new) }
    ensures over { IfOk result (λ n. n < length buffer.new → IsAtEnd (S.left source.new)) }
    ensures cause { CountsFaults (S.faults source.old) (S.faults source.new) result }
{
    let mut done = 0;
    while done < buffer.len() {
        let count = source.read(&mut buffer[done..])?;
        if count == 0 {
            return Ok(done);
        }
        done += count;
    }
    Ok(done)
}

/// Reads `count` octets and drops them. Returns false if the input ends before. If the source fails, fewer
/// octets were read.
pub fn pass<S: Source>(source: &mut S, scratch: &mut [u8], count: u64) -> Result<bool, Failed>
    requires { 0 < length scratch.old }
    ensures taken { (octets : List ℕ) × (S.left source.old ≡ prepend_known octets (S.left source.new))
        × MatchResult result (λ all. MatchBool all (length octets ≡ count)
        ((length octets < count) × IsAtEnd (S.left source.new)))
        (λ failed. length octets < count) }
    ensures cause { CountsFaults (S.faults source.old) (S.faults source.new) result }
{
    let mut wanted = count;
    while wanted > 0 {
        let most = wanted.min(scratch.len() as u64) as usize;
        let got = source.read(&mut scratch[..most])?;
        if got == 0 {
            return Ok(false);
        }
        wanted -= got as u64;
    }
    Ok(true)
}
