//! Reads the BlockAck to an open exchange.

ghost use Rattle.std.specs.Prelude.{◌≡◌, ◌&&◌, ℕ, IfOk};
ghost use Rattle.std.specs.Str.{bytes_eq};
ghost use Rattle.wf_frame.specs.Frames.{FrameValue};
ghost use Rattle.wf_def_world.specs.World.{World};
ghost use Rattle.wf_send_half.specs.Half.{HasWorld};
ghost use Rattle.wf_send_half_model.specs.Standing.{StandsFor};
ghost use Rattle.wf_def_air.specs.Airtime.{block_ack_octets};
ghost use Rattle.wf_octets.specs.BlockLayout.{answer};
ghost use Rattle.std.specs.Result.{result_err};
ghost use Rattle.wf_octets.specs.BlockFaults.{first_block_fault};
ghost use Rattle.wf_path.specs.Addresses.{address_in, bss_in};
ghost use Rattle.wf_path.specs.Answers.{recipient_in, transmitter_in, tid_in, answer_fault, read_fault, block_ack_in, is_read_wide};

use crate::DoneFault;
use crate::addresses::AddressBook;
use wf_frame::NARROW_WINDOW;
use wf_octets::bits::Bits256;
use wf_octets::block::{Ba, BlockFault, WideBa, decode_ba, decode_wide};
use wf_octets::seq12::Seq12;
use wf_send_half::Transmit;
use wf_send_parts::exchanges::widened;

/// The number of octets of a BlockAck of 64 numbers.
const NARROW_OCTETS: usize = 28;

/// Reads the BlockAck to the exchange with this number (IEEE 802.11-2012, 8.3.1.9). Returns its start, and
/// the offsets from the start of the numbers that arrived. A session whose window is above 64 takes the
/// BlockAck of 256 numbers and that of 64, each other one only that of 64.
pub(crate) fn read_block_ack(
    half: &Transmit,
    addresses: &AddressBook,
    number: u64,
    octets: &[u8],
) -> Result<(Seq12, Bits256), DoneFault>
    requires { HasWorld half.now }

    // refused exactly if a check fails, for the first that does
    ensures fault { (w : World) (bodies : ℕ → FrameValue) → StandsFor half.now w bodies →
        result_err result ≡ read_fault addresses.now w number octets.now }
    ensures read { IfOk result (λ read. read ≡ block_ack_in octets.now) }
{
    let Some(open) = half.exchange(number) else {
        return Err(DoneFault::NoExchange);
    };
    let wide = half.window(open.station, open.tid).size() > NARROW_WINDOW;
    let bss = half.bss(open.station);
    read_answer(addresses, open.station, bss, open.tid, wide, octets)
}

/// Reads the BlockAck from a station of a BSS, for one of its TIDs. `wide` is whether its window is above 64.
fn read_answer(
    addresses: &AddressBook,
    station: u16,
    bss: u8,
    tid: u8,
    wide: bool,
    octets: &[u8],
) -> Result<(Seq12, Bits256), DoneFault>
    ensures fault { result_err result ≡ answer_fault addresses.now wide station bss tid octets.now }
    ensures read { IfOk result (λ read. read ≡ block_ack_in octets.now) }
{
    let answer = decode(is_read_wide(wide, octets), octets)?;
    if !is_from(addresses, station, bss, &answer) {
        return Err(DoneFault::NotMine);
    }
    if answer.tid != tid {
        return Err(DoneFault::WrongTid { found: answer.tid });
    }
    Ok((answer.start, answer.bits))
}

/// Returns whether the octets to a session are read as a BlockAck of 256 numbers. A station may answer a wide
/// session by one of 64 (IEEE 802.11ax-2021, 9.3.1.8.2).
fn is_read_wide(wide: bool, octets: &[u8]) -> bool
    ensures { result ≡ is_read_wide wide octets.now }
{
    wide && octets.len() != NARROW_OCTETS
}

/// Reads a BlockAck of 256 numbers, or one of 64 as one of 256.
fn decode(wide: bool, octets: &[u8]) -> Result<WideBa, BlockFault>
    ensures fault { result_err result ≡ first_block_fault (block_ack_octets wide) answer wide octets.now }
    ensures recipient { IfOk result (λ ba. ba.ra ≡ recipient_in octets.now) }
    ensures transmitter { IfOk result (λ ba. ba.ta ≡ transmitter_in octets.now) }
    ensures tid { IfOk result (λ ba. ba.tid ≡ tid_in octets.now) }
    ensures says { IfOk result (λ ba. (ba.start, ba.bits) ≡ block_ack_in octets.now) }
{
    if wide {
        return decode_wide(octets);
    }
    let Ba {
        ra,
        ta,
        duration,
        tid,
        start,
        bits,
    } = decode_ba(octets)?;
    Ok(WideBa {
        ra,
        ta,
        duration,
        tid,
        start,
        bits: widened(bits),
    })
}

/// Returns whether a BlockAck is from a station to the access point of its BSS.
fn is_from(addresses: &AddressBook, station: u16, bss: u8, ba: &WideBa) -> bool
    ensures { result ≡ (bytes_eq ba.now.ra (bss_in addresses.now bss)
        && bytes_eq ba.now.ta (address_in addresses.now station)) }
{
    is_same(&ba.ra, &addresses.bss(bss)) && is_same(&ba.ta, &addresses.of(station))
}

/// Returns whether two addresses are equal. Each BlockAck needs this, so it compares octet by octet rather
/// than by a call.
fn is_same(one: &[u8; 6], other: &[u8; 6]) -> bool
    ensures { result ≡ bytes_eq one.now other.now }
{
    one.iter()
        .zip(other.iter())
        .all(|(octet, another)| octet == another)
}
