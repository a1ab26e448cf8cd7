//! Reads octets off the air.

ghost use Rattle.std.specs.Prelude.{◌≡◌, ◌<◌, ◌&&◌, IfOk, OnOk};
ghost use Rattle.std.specs.Option.{option_or};
ghost use Rattle.std.specs.Str.{bytes_eq};
ghost use Rattle.wf_octets.specs.Fields.{part};
ghost use Rattle.wf_octets.specs.HeaderLayout.{BeginsWithHeader};
ghost use Rattle.std.specs.Result.{result_err};
ghost use Rattle.wf_recv_peer.specs.Frames.{IsDataFor};
ghost use Rattle.wf_recv_peer.specs.Plain.{data_tid, data_number, retry_of, first_data_fault};
ghost use Rattle.wf_recv_peer.specs.Receiving.{tid_read, reading_of, peer_kind_fault, block_fault, first_peer_fault};

use crate::PeerFault;
use wf_octets::block::decode_bar;
use wf_octets::header::{Header, Kind, decode};
use wf_octets::seq12::Seq12;

/// The content of a frame for the station, as its agreements need it.
#[derive(Clone, Copy)]
pub(crate) enum Reading {
    /// A number of a TID arrived.
    Data { tid: u8, number: Seq12 },
    /// The originator requests a BlockAck of a TID with this start.
    Request { tid: u8, start: Seq12 },
}

impl Reading {
    /// Returns the TID.
    pub(crate) fn tid(&self) -> u8
        ensures { result ≡ tid_read self.now }
    {
        match self {
            Reading::Data { tid, .. } | Reading::Request { tid, .. } => *tid,
        }
    }
}

/// Reads octets that reach the station with the address `own`, whose access point has the address `base`.
/// Returns the first check that fails, if any does.
pub(crate) fn read(own: [u8; 6], base: [u8; 6], octets: &[u8]) -> Result<Reading, PeerFault>
    ensures fault { result_err result ≡ first_peer_fault own base octets.now }
    ensures reading { IfOk result (λ reading. reading ≡ reading_of octets.now) }
    ensures tid { IfOk result (λ reading. tid_read reading < 8) }
{
    let (header, _) = decode(octets)?;
    let reading = carried(&header, octets)?;
    if !is_mine(own, base, &header) {
        return Err(PeerFault::NotMine);
    }
    let tid = reading.tid();
    if tid > 7 {
        return Err(PeerFault::Tid(tid));
    }
    Ok(reading)
}

/// Reads the content of a frame with this header.
fn carried(header: &Header, octets: &[u8]) -> Result<Reading, PeerFault>
    requires { BeginsWithHeader octets.now header.now }
    ensures fault { result_err result ≡ option_or (peer_kind_fault octets.now) (block_fault octets.now) }
    ensures reading { IfOk result (λ reading. reading ≡ reading_of octets.now) }
    ensures recipient { OnOk result (part octets.now 4 6 ≡ header.now.a1) }
    ensures transmitter { OnOk result (part octets.now 10 6 ≡ header.now.a2) }
{
    match header.kind {
        Kind::QosData => Ok(Reading::Data {
            tid: header.tid,
            number: header.seq,
        }),
        Kind::BlockAckReq => {
            let bar = decode_bar(octets)?;
            Ok(Reading::Request {
                tid: bar.tid,
                start: bar.start,
            })
        }
        Kind::QosNull | Kind::PsPoll | Kind::Ack | Kind::BlockAck => {
            Err(PeerFault::Kind(octets[0]))
        }
    }
}

/// Reads the header of a data frame that reaches the station with the address `own`, whose access point has
/// the address `base`. Returns the first check that fails, if any does.
pub(crate) fn read_data(own: [u8; 6], base: [u8; 6], octets: &[u8]) -> Result<Header, PeerFault>
    ensures fault { result_err result ≡ first_data_fault own base octets.now }
    ensures data { IfOk result (λ header. IsDataFor own base octets.now header) }
    ensures tid { IfOk result (λ header. header.tid ≡ data_tid octets.now) }
    ensures number { IfOk result (λ header. header.seq ≡ data_number octets.now) }
    ensures retry { IfOk result (λ header. header.retry ≡ retry_of octets.now) }
{
    let (header, _) = decode(octets)?;
    if header.kind != Kind::QosData {
        return Err(PeerFault::Kind(octets[0]));
    }
    if !is_mine(own, base, &header) {
        return Err(PeerFault::NotMine);
    }
    if header.tid > 7 {
        return Err(PeerFault::Tid(header.tid));
    }
    Ok(header)
}

/// Returns whether a frame is from the access point with the address `base` to the station with the address
/// `own`.
fn is_mine(own: [u8; 6], base: [u8; 6], header: &Header) -> bool
    ensures { result ≡ (bytes_eq header.now.a1 own && bytes_eq header.now.a2 base) }
{
    header.a1 == own && header.a2 == base
}
