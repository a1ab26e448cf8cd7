ghost use Rattle.std.specs.Prelude.{◌≡◌, ◌+◌, ◌<◌, ◌≤◌, IfOk, Ok, true, false, length, drop};
ghost use Rattle.wf_octets.specs.Offsets.{IsOffsets};
ghost use Rattle.wf_octets.specs.BlockLayout.{IsBar, IsBlockAck, IsWideBa, fragment_of, head_in, request, answer};
ghost use Rattle.std.specs.Result.{result_err};
ghost use Rattle.wf_octets.specs.BlockFaults.{first_block_fault};
ghost use Rattle.wf_octets.specs.declared.block.frames.Bar.{Bar};
ghost use Rattle.wf_octets.specs.declared.block.frames.Ba.{Ba};
ghost use Rattle.wf_octets.specs.declared.block.frames.WideBa.{WideBa};

use crate::bits::{Bits64, Bits256};
use crate::block::encoding::{ANSWER, NARROW, REQUEST, WIDE};
use crate::block::{Ba, Bar, WideBa};
use crate::fields::{address_at, is_set, number_at};
use crate::seq12::Seq12;
use thiserror::Error;

/// The reason why octets are not the expected block frame.
#[derive(Clone, Copy, Debug, PartialEq, Eq, Error)]
pub enum BlockFault {
    /// The number of octets is not that of the frame.
    #[error("a block frame of {need} octets in {have}")]
    Length {
        /// The number of octets of the frame.
        need: usize,
        /// The number of octets that there are.
        have: usize,
    },
    /// The first octet belongs to another kind of frame.
    #[error("a frame of another kind, {0:#04x}")]
    Kind(u8),
    /// Compressed Bitmap is 0.
    #[error("a bitmap that is not compressed")]
    NotCompressed,
    /// Multi-TID is 1.
    #[error("a frame of several traffic identifiers")]
    MultiTid,
    /// The fragment number is not that of the bitmap: 0 for 64 bits, 4 for 256.
    #[error("fragment number {0}")]
    Fragment(u8),
    /// The fragment number is 0, that of a bitmap of 64 bits, where 256 are wanted.
    #[error("a bitmap of 64 numbers where 256 are wanted")]
    NotWide,
}

/// Reads a BlockAckReq. Returns it, or the first fault.
pub fn decode_bar(octets: &[u8]) -> Result<Bar, BlockFault>
    ensures read { IfOk result (λ bar. IsBar octets.now bar) }
    ensures tid { IfOk result (λ bar. bar.tid < 16) }
    ensures complete { (b : Bar) → IsBar octets.now b → result ≡ Ok b }

    // each fault is the first check that fails; other octets are accepted
    ensures fault { result_err result ≡ first_block_fault 20 request false octets.now }
{
    check(octets, 20, REQUEST, false)?;
    Ok(head_at(octets))
}

/// A BlockAck of this form, with this head and this bitmap.
macro_rules! answer_of {
    ($form:ident, $head:expr, $bits:expr) => {{
        let head = $head;
        $form {
            ra: head.ra,
            ta: head.ta,
            duration: head.duration,
            tid: head.tid,
            start: head.start,
            bits: $bits,
        }
    }};
}

/// Reads a BlockAck of 64 numbers. Returns it, or the first fault.
pub fn decode_ba(octets: &[u8]) -> Result<Ba, BlockFault>
    ensures read { IfOk result (λ ba. IsBlockAck octets.now ba) }
    ensures tid { IfOk result (λ ba. ba.tid < 16) }
    ensures offsets { IfOk result (λ ba. IsOffsets 64 ba.bits) }
    ensures complete { (b : Ba) → IsBlockAck octets.now b → result ≡ Ok b }

    // each fault is the first check that fails; other octets are accepted
    ensures fault { result_err result ≡ first_block_fault 28 answer false octets.now }
{
    check(octets, 28, ANSWER, false)?;
    let bits = Bits64::of_octets(bitmap_at(octets));
    Ok(answer_of!(Ba, head_at(octets), bits))
}

/// Reads a BlockAck of 256 numbers. Returns it, or the first fault.
pub fn decode_wide(octets: &[u8]) -> Result<WideBa, BlockFault>
    ensures read { IfOk result (λ ba. IsWideBa octets.now ba) }
    ensures tid { IfOk result (λ ba. ba.tid < 16) }
    ensures offsets { IfOk result (λ ba. IsOffsets 256 ba.bits) }
    ensures complete { (b : WideBa) → IsWideBa octets.now b → result ≡ Ok b }

    // each fault is the first check that fails; other octets are accepted
    ensures fault { result_err result ≡ first_block_fault 52 answer true octets.now }
{
    check(octets, 52, ANSWER, true)?;
    let bits = Bits256::of_octets(bitmap_at(octets));
    Ok(answer_of!(WideBa, head_at(octets), bits))
}

/// Checks a frame of `need` octets, and returns the first fault.
fn check(octets: &[u8], need: usize, first: u8, wide: bool) -> Result<(), BlockFault>
    requires { 20 ≤ need }
    ensures { result_err result ≡ first_block_fault need first wide octets.now }
{
    let have = octets.len();
    if have != need {
        return Err(BlockFault::Length { need, have });
    }
    if octets[0] != first {
        return Err(BlockFault::Kind(octets[0]));
    }
    let form = octets[16];
    if !is_set(form, 2) {
        return Err(BlockFault::NotCompressed);
    }
    if is_set(form, 1) {
        return Err(BlockFault::MultiTid);
    }
    let fragment = number_at(octets, 18) % 16;
    if wide && fragment == NARROW {
        return Err(BlockFault::NotWide);
    }
    if fragment != fragment_of(wide) {
        return Err(BlockFault::Fragment(fragment as u8));
    }
    Ok(())
}

/// Returns the fragment number of a frame whose bitmap, if it has one, has 256 bits or 64.
fn fragment_of(wide: bool) -> u16
    ensures { result ≡ fragment_of wide }
{
    if wide { WIDE } else { NARROW }
}

/// Returns the fields before the bitmap.
fn head_at(octets: &[u8]) -> Bar
    requires { 20 ≤ length octets.now }
    ensures { result ≡ head_in octets.now }
{
    Bar {
        ra: address_at(octets, 4),
        ta: address_at(octets, 10),
        duration: number_at(octets, 2),
        tid: octets[17] / 16,
        start: Seq12::of(u64::from(number_at(octets, 18) / 16)),
    }
}

/// Returns the bitmap: all octets after the head.
fn bitmap_at<const N: usize>(octets: &[u8]) -> [u8; N]
    requires { length octets.now ≡ 20 + N }
    ensures { result ≡ drop 20 octets.now }
{
    let mut bitmap = [0; N];
    bitmap.copy_from_slice(&octets[20..]);
    bitmap
}
