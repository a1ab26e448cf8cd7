//! Encodes one frame as it is on the air.

ghost use Rattle.std.specs.Prelude.{◌≡◌, ◌<◌, ◌≤◌, [], ◌∷◌, Some, length, take, true, false};
ghost use Rattle.wf_path.specs.Addresses.{made_up};
ghost use Rattle.wf_path.specs.Transmissions.{octets_sent};
ghost use Rattle.wf_report.specs.AckFrames.{ack_frame};
ghost use Rattle.wf_report.specs.BlockAcks.{block_ack_frame};
ghost use Rattle.wf_report.specs.Captures.{samples};
ghost use Rattle.wf_report.specs.Samples.{IsSampled, HasTransmission, world_behind};

use wf_cell::Cell;
use wf_octets::bits::{Bits64, Bits256};
use wf_octets::block::{Ba, WideBa, encode_ba, encode_wide};
use wf_octets::fields::put;
use wf_octets::header::{
    DATA_HEADER_OCTETS, GREATEST_MPDU, Header, Kind, base_address, encode, station_address,
};
use wf_octets::seq12::Seq12;
use wf_path::Sent;

/// The offset of a BlockAck's bitmap.
const BITMAP: usize = 20;

/// Writes a transmission of an open exchange, and returns its number of octets.
pub(crate) fn transmission(
    cell: &Cell,
    exchange: u64,
    index: u16,
    octets: &mut [u8; GREATEST_MPDU],
) -> usize
    requires samples { IsSampled cell.now }
    requires sending { HasTransmission (world_behind cell.now) exchange index }
    ensures within { result ≤ 2330 }
    ensures some { 0 < result }
    ensures octets { octets_sent made_up (world_behind cell.now) (samples (world_behind cell.now)) exchange
        index ≡ Some (take result octets.new) }
{
    match cell.path().mpdu_with_zeros(exchange, index, octets) {
        Ok(len) => len,
        Err(_) => unreachable!(),
    }
}

/// Writes the Ack of a frame, and returns its number of octets.
pub(crate) fn ack(octets: &mut [u8; DATA_HEADER_OCTETS]) -> usize
    ensures within { result ≤ length octets.new }
    ensures octets { take result octets.new ≡ ack_frame }
{
    let header = Header {
        kind: Kind::Ack,
        to_ds: false,
        from_ds: false,
        retry: false,
        power: false,
        more: false,
        duration: 0,
        a1: base_address(),
        a2: [0; 6],
        a3: [0; 6],
        seq: Seq12::of(0),
        tid: 0,
        eosp: false,
    };
    encode(&header, octets)
}

/// The content of a BlockAck: its start, 0 to 4095, and the words of its bitmap, those of the lowest offsets
/// first. A BlockAck of 64 numbers has only the first word.
#[derive(Clone, Copy)]
pub(crate) struct Shown {
    pub(crate) start: u16,
    pub(crate) b0: u64,
    pub(crate) b1: u64,
    pub(crate) b2: u64,
    pub(crate) b3: u64,
}

/// Returns the BlockAck of 64 numbers for an exchange.
pub(crate) fn narrow_ack(sent: Sent, shown: Shown) -> [u8; 28]
    requires { sent.tid < 8 }
    ensures { result ≡ block_ack_frame sent.station sent.tid shown.start (shown.b0 ∷ []) false }
{
    let head = Ba {
        ra: base_address(),
        ta: station_address(sent.station),
        duration: 0,
        tid: sent.tid,
        start: Seq12::of(u64::from(shown.start)),
        bits: Bits64::empty(),
    };
    let mut octets = [0; 28];
    encode_ba(&head, &mut octets);
    put(&mut octets, BITMAP, &shown.b0.to_le_bytes());
    octets
}

/// Returns the BlockAck of 256 numbers for an exchange.
pub(crate) fn wide_ack(sent: Sent, shown: Shown) -> [u8; 52]
    requires { sent.tid < 8 }
    ensures { result ≡ block_ack_frame sent.station sent.tid shown.start
        (shown.b0 ∷ shown.b1 ∷ shown.b2 ∷ shown.b3 ∷ []) true }
{
    let head = WideBa {
        ra: base_address(),
        ta: station_address(sent.station),
        duration: 0,
        tid: sent.tid,
        start: Seq12::of(u64::from(shown.start)),
        bits: Bits256::empty(),
    };
    let mut octets = [0; 52];
    encode_wide(&head, &mut octets);
    put(&mut octets, BITMAP, &shown.b0.to_le_bytes());
    put(&mut octets, BITMAP + 8, &shown.b1.to_le_bytes());
    put(&mut octets, BITMAP + 16, &shown.b2.to_le_bytes());
    put(&mut octets, BITMAP + 24, &shown.b3.to_le_bytes());
    octets
}
