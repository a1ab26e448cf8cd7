//! The octets of a transmission.

ghost use Rattle.std.specs.Prelude.{◌≡◌, ◌<◌, ◌≤◌, ◌++◌, ℕ, Some, length, take, drop, IfOk, OnOk, OnErr};
ghost use Rattle.wf_frame.specs.Frames.{FrameValue};
ghost use Rattle.wf_def_world.specs.World.{World};
ghost use Rattle.wf_send_half.specs.Half.{HasWorld};
ghost use Rattle.wf_send_half_model.specs.Standing.{StandsFor};
ghost use Rattle.wf_path.specs.Transmissions.{octets_sent, header_sent};
ghost use Rattle.std.specs.Result.{result_err};
ghost use Rattle.wf_path.specs.Writing.{write_fault, room_fault, write_header_fault};

use crate::PathFault;
use crate::addresses::AddressBook;
use crate::flights::{DURATION, frame_of, header_of};
use wf_octets::block::{Bar, encode_bar};
use wf_octets::fields::put;
use wf_octets::header::{DATA_HEADER_OCTETS, encode};
use wf_send_half::Transmit;
use wf_send_parts::exchanges::Sending;

/// The length of a BlockAckReq, in octets.
const REQUEST: usize = 20;

/// Writes the octets of a transmission of the exchange with this number: a QoS Data frame with its body, or
/// the BlockAckReq (IEEE 802.11-2012, 8.3.2.1 and 8.3.1.8). `index` is the transmission's, from 0. Returns
/// their number. The rest of `out` is unchanged; after a fault all of it is.
pub(crate) fn write_transmission(
    half: &Transmit,
    addresses: &AddressBook,
    number: u64,
    index: u16,
    out: &mut [u8],
) -> Result<usize, PathFault>
    requires { HasWorld half.now }

    // refused exactly if a check fails, for the first that does
    ensures fault { (w : World) (bodies : ℕ → FrameValue) → StandsFor half.now w bodies →
        result_err result ≡ write_fault addresses.now w bodies number index (length out.old) }
    ensures unchanged { OnErr result (out.new ≡ out.old) }

    // else the first octets are the transmission's
    ensures octets { IfOk result (λ n. (w : World) (bodies : ℕ → FrameValue) → StandsFor half.now w bodies →
        octets_sent addresses.now w bodies number index ≡ Some (take n out.new)) }
    ensures within { IfOk result (λ n. n ≤ length out.new) }
    ensures rest { IfOk result (λ n. drop n out.new ≡ drop n out.old) }
{
    let Some(open) = half.exchange(number) else {
        return Err(PathFault::NoExchange);
    };
    if index >= open.count() {
        return Err(PathFault::BadIndex);
    }
    match &open.sending {
        Sending::Data(numbers) => {
            let seq = numbers.at(usize::from(index));
            let mut header = [0; DATA_HEADER_OCTETS];
            encode(&header_of(half, addresses, open, index, seq), &mut header);
            write_parts(&header, frame_of(half, open, index, seq).body(), out)
        }
        Sending::Request(start) => {
            let bar = Bar {
                ra: addresses.of(open.station),
                ta: addresses.bss(half.bss(open.station)),
                duration: DURATION,
                tid: open.tid,
                start: *start,
            };
            let mut request = [0; REQUEST];
            encode_bar(&bar, &mut request);
            write_parts(&request, &[], out)
        }
    }
}

/// Writes only the header of a data transmission of the exchange with this number (IEEE 802.11-2012,
/// 8.3.2.1). `index` is the transmission's, from 0. Returns NoExchange if the exchange is not open, or
/// BadIndex if it has no data of that index; then `out` is unchanged.
pub(crate) fn write_header(
    half: &Transmit,
    addresses: &AddressBook,
    number: u64,
    index: u16,
    out: &mut [u8; DATA_HEADER_OCTETS],
) -> Result<(), PathFault>
    requires { HasWorld half.now }
    ensures fault { (w : World) (bodies : ℕ → FrameValue) → StandsFor half.now w bodies →
        result_err result ≡ write_header_fault w number index }
    ensures unchanged { OnErr result (out.new ≡ out.old) }
    ensures octets { OnOk result ((w : World) (bodies : ℕ → FrameValue) → StandsFor half.now w bodies →
        header_sent addresses.now w bodies number index ≡ Some out.new) }
{
    let Some(open) = half.exchange(number) else {
        return Err(PathFault::NoExchange);
    };
    let Some(seq) = open.number_at(index) else {
        return Err(PathFault::BadIndex);
    };
    encode(&header_of(half, addresses, open, index, seq), out);
    Ok(())
}

/// Writes a head and a body to the front of `out`, if both fit.
fn write_parts(head: &[u8], body: &[u8], out: &mut [u8]) -> Result<usize, PathFault>
    requires { length head.now ≤ 26 }
    ensures fault { result_err result ≡ room_fault (length out.old) (Some (head.now ++ body.now)) }
    ensures unchanged { OnErr result (out.new ≡ out.old) }
    ensures octets { IfOk result (λ n. take n out.new ≡ head.now ++ body.now) }
    ensures within { IfOk result (λ n. n ≤ length out.new) }
    ensures rest { IfOk result (λ n. drop n out.new ≡ drop n out.old) }
{
    let need = head.len() + body.len();
    if out.len() < need {
        return Err(PathFault::SmallBuffer { need });
    }
    let end = put(out, 0, head);
    Ok(put(out, end, body))
}
