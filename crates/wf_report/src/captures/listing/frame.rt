//! Recognizes the frame of a packet.

ghost use Rattle.std.specs.Prelude.{◌≡◌};
ghost use Rattle.wf_octets.specs.HeaderLayout.{BeginsWithHeader};
ghost use Rattle.wf_octets.specs.declared.header.header.Header.{Header};
ghost use Rattle.wf_octets.specs.declared.header.header.Kind.TheVariants.{QosData};
ghost use Rattle.wf_octets.specs.BlockLayout.{IsBar, IsBlockAck, IsWideBa};
ghost use Rattle.wf_octets.specs.declared.block.frames.Bar.{Bar};
ghost use Rattle.wf_octets.specs.declared.block.frames.Ba.{Ba};
ghost use Rattle.wf_octets.specs.declared.block.frames.WideBa.{WideBa};
ghost use Rattle.wf_report.specs.Frames.{frame_listed, block_in, other_in, beacon_in, tim_behind, tim_of};

use wf_octets::block::{decode_ba, decode_bar, decode_wide};
use wf_octets::fields::{is_set, number_at};
use wf_octets::header::{GROUP_HEADER_OCTETS, Kind, decode};
use wf_octets::tim::Tim;

/// The first octet of a beacon.
const BEACON: u8 = 0x80;

/// The first octet of Data without QoS.
const DATA: u8 = 0x08;

/// The offset of Sequence Control.
const SEQUENCE_AT: usize = 22;

/// The offset of the elements of a beacon: its header has 24 octets and its fixed fields have 12 (IEEE
/// 802.11-2012, 8.3.3.2).
const ELEMENTS_AT: usize = 36;

/// The number of a TIM element (8.4.2.7).
const TIM: u8 = 5;

/// The kind of a frame, and its fields that are listed.
#[derive(Clone, Copy)]
pub enum Frame {
    /// QoS Data, with its TID and its sequence number.
    Data {
        tid: u8,
        seq: u16,
    },
    /// A BlockAckReq, with its TID and the first number of the window.
    Bar {
        tid: u8,
        start: u16,
    },
    /// A BlockAck of 64 or of 256 numbers, with its TID and its first number.
    Ba {
        tid: u8,
        start: u16,
    },
    /// A beacon, with its sequence number, and the DTIM count, the DTIM period and the bit for group frames
    /// of its first TIM element.
    Beacon {
        seq: u16,
        count: u8,
        period: u8,
        group: bool,
    },
    /// Data without QoS to a group of stations, with its sequence number.
    Group {
        seq: u16,
    },
    /// Other octets.
    Other,
}

/// Returns the frame that the octets encode.
pub fn frame_of(octets: &[u8]) -> Frame
    ensures is { result ≡ frame_listed octets.now }
    ensures data { (h : Header) → BeginsWithHeader octets.now h → h.kind ≡ QosData →
        result ≡ Frame.Data h.tid h.seq }
    ensures bar { (b : Bar) → IsBar octets.now b → result ≡ Frame.Bar b.tid b.start }
    ensures ba { (b : Ba) → IsBlockAck octets.now b → result ≡ Frame.Ba b.tid b.start }
    ensures wide { (b : WideBa) → IsWideBa octets.now b → result ≡ Frame.Ba b.tid b.start }
{
    if let Ok((header, _)) = decode(octets) {
        if header.kind == Kind::QosData {
            return Frame::Data {
                tid: header.tid,
                seq: header.seq.raw(),
            };
        }
    }
    block_of(octets)
}

// Returns the BlockAckReq or BlockAck that the octets encode, or another frame.
fn block_of(octets: &[u8]) -> Frame
    ensures { result ≡ block_in octets.now }
{
    if let Ok(bar) = decode_bar(octets) {
        return Frame::Bar {
            tid: bar.tid,
            start: bar.start.raw(),
        };
    }
    if let Ok(ba) = decode_ba(octets) {
        return Frame::Ba {
            tid: ba.tid,
            start: ba.start.raw(),
        };
    }
    match decode_wide(octets) {
        Ok(ba) => Frame::Ba {
            tid: ba.tid,
            start: ba.start.raw(),
        },
        Err(_) => other(octets),
    }
}

// Returns the beacon or the group frame that the octets encode, or `Other`.
fn other(octets: &[u8]) -> Frame
    ensures { result ≡ other_in octets.now }
{
    if octets.len() < GROUP_HEADER_OCTETS {
        return Frame::Other;
    }
    let seq = number_at(octets, SEQUENCE_AT) / 16;
    match octets[0] {
        BEACON => beacon(octets, seq),
        DATA if is_set(octets[4], 0) => Frame::Group { seq },
        _ => Frame::Other,
    }
}

// Returns the beacon with this sequence number that the octets encode, or `Other` if it has no TIM element.
fn beacon(octets: &[u8], seq: u16) -> Frame
    ensures { result ≡ beacon_in seq octets.now }
{
    if octets.len() < ELEMENTS_AT {
        return Frame::Other;
    }
    match tim_among(&octets[ELEMENTS_AT..]) {
        Some(tim) => Frame::Beacon {
            seq,
            count: tim.count,
            period: tim.period,
            group: tim.group,
        },
        None => Frame::Other,
    }
}

// Returns the fields of the first TIM element among elements, if there is one and it is complete.
fn tim_among(elements: &[u8]) -> Option<Tim>
    ensures { result ≡ tim_behind 0 elements.now }
{
    let mut place = 0;
    while place + 2 <= elements.len() {
        let end = place + 2 + usize::from(elements[place + 1]);
        if elements.len() < end {
            return None;
        }
        if elements[place] == TIM {
            return tim_of(&elements[place + 2..end]);
        }
        place = end;
    }
    None
}

// Returns the fields of the TIM element with this body, if it is complete.
fn tim_of(body: &[u8]) -> Option<Tim>
    ensures { result ≡ tim_of body.now }
{
    match body {
        [count, period, control, _, ..] => Some(Tim {
            count: *count,
            period: *period,
            group: is_set(*control, 0),
        }),
        _ => None,
    }
}
