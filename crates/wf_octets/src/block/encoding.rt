ghost use Rattle.std.specs.Prelude.{◌≡◌, ◌<◌, ◌≤◌, length, take, drop};
ghost use Rattle.wf_octets.specs.BlockLayout.{IsBar, IsBlockAck, IsWideBa, HasHead, head_octets, head_of_ba, head_of_wide, request, answer, narrow_fragment, wide_fragment};

use crate::block::{Ba, Bar, WideBa};
use crate::fields::{put, two_octets};

/// The first octet of Frame Control of a BlockAckReq.
pub(crate) const REQUEST: u8 = 0x84;
/// The first octet of Frame Control of a BlockAck.
pub(crate) const ANSWER: u8 = 0x94;
/// The low octet of the control field, with only Compressed Bitmap set.
const COMPRESSED: u8 = 0x04;
/// The fragment number of a BlockAckReq and of a bitmap of 64 bits.
pub(crate) const NARROW: u16 = 0;
/// The fragment number of a bitmap of 256 bits (IEEE 802.11ax-2021, 9.3.1.8.2).
pub(crate) const WIDE: u16 = 4;

/// Writes a BlockAckReq with its free bits 0.
pub fn encode_bar(bar: &Bar, out: &mut [u8; 20])
    requires { bar.now.tid < 16 }
    ensures layout { IsBar out.new bar.now }
    ensures octets { out.new ≡ head_octets request narrow_fragment bar.now }
{
    put_head(bar, REQUEST, NARROW, out);
}

/// Writes a BlockAck of 64 numbers with its free bits 0.
pub fn encode_ba(ba: &Ba, out: &mut [u8; 28])
    requires { ba.now.tid < 16 }
    ensures layout { IsBlockAck out.new ba.now }
    ensures octets { take 20 out.new ≡ head_octets answer narrow_fragment (head_of_ba ba.now) }
{
    put_head(&ba.head(), ANSWER, NARROW, out);
    put(out, 20, &ba.bits.to_octets());
}

/// Writes a BlockAck of 256 numbers with its free bits 0.
pub fn encode_wide(ba: &WideBa, out: &mut [u8; 52])
    requires { ba.now.tid < 16 }
    ensures layout { IsWideBa out.new ba.now }
    ensures octets { take 20 out.new ≡ head_octets answer wide_fragment (head_of_wide ba.now) }
{
    put_head(&ba.head(), ANSWER, WIDE, out);
    put(out, 20, &ba.bits.to_octets());
}

/// Writes the 20 octets before the bitmap.
fn put_head(head: &Bar, first: u8, fragment: u16, out: &mut [u8])
    requires tid { head.now.tid < 16 }
    requires fragment { fragment < 16 }
    requires room { 20 ≤ length out.old }
    ensures octets { take 20 out.new ≡ head_octets first fragment head.now }
    ensures head { HasHead out.new first fragment head.now }
    ensures rest { drop 20 out.new ≡ drop 20 out.old }
{
    let end = put(out, 0, &[first, 0]);
    let end = put(out, end, &two_octets(head.duration));
    let end = put(out, end, &head.ra);
    let end = put(out, end, &head.ta);
    let end = put(out, end, &[COMPRESSED, 16 * head.tid]);
    put(out, end, &two_octets(16 * head.start.raw() + fragment));
}
