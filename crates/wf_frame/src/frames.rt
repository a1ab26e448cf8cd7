//! A frame: its body, and the facts about it.

ghost use Rattle.std.specs.Prelude.{◌≡◌, ◌<◌, ◌≤◌, ◌⊎◌, length, IfOk, IfErr};
ghost use Rattle.wf_def_lists.specs.Lengths.{greatest_body};
ghost use Rattle.wf_frame.specs.Frames.{made_up_source, source_octets, octets_of, is_bare, new_frame, bare_frame, sent_again, sent_once_less, sample_body};
ghost use Rattle.wf_frame.specs.declared.classes.Fate.TheVariants.{Held};

use crate::Fate;
use std::alloc::{AllocError, Global};
use std::marker::Model;

/// The greatest body in octets: the greatest MSDU (IEEE 802.11-2012, 8.2.3).
pub const GREATEST_BODY: u16 = 2304;

/// The greatest number of attempts that a frame counts. It is above the greatest value of the setting
/// `attempts`.
const GREATEST_ATTEMPTS: u8 = 255;

const MADE_UP_SOURCE: [u8; 6] = [0x02, 0, 0, 0x02, 0, 0];

/// Returns the source of a new frame, the placeholder `02 00 00 02 00 00`.
pub fn source_address() -> [u8; 6]
    ensures { result ≡ made_up_source }
{
    MADE_UP_SOURCE
}

/// The body of a frame.
#[derive(Drop)]
enum Body {
    /// Its octets.
    Octets(Vec<u8>),
    /// The number of its octets, which the frame's owner has.
    Length(u16),
}

/// The body of a frame of whose octets only the number is known.
static ZEROS: [u8; 2304] = [0; 2304];

/// A frame: its body of 1 to 2304 octets, its station, TID, flow and source, its owner's tag, and what a path
/// records of it.
#[derive(Drop)]
pub struct Frame {
    body: Body,
    /// The id that the frame got when it was accepted.
    pub id: u64,
    /// The clock when the frame was accepted, in microseconds.
    pub stamp: u64,
    station: u16,
    tid: u8,
    flow: u32,
    source: [u8; 6],
    tag: u64,
    /// How often the frame was sent since it was accepted, whatever its fate: at most the setting `attempts`,
    /// so at most 64.
    pub attempts: u8,
    /// Its fate.
    pub fate: Fate,
}

impl Model for Frame {
    ghost use Rattle.std.specs.Prelude.{◌≡◌, ◌<◌, ◌≤◌, length};
    ghost use Rattle.wf_def_lists.specs.Lengths.{greatest_body};
    ghost use Rattle.wf_frame.specs.Frames.{FrameValue, octets_of, is_bare, source_octets};

    ghost Value = { FrameValue };

    ghost view = { λ f. record {
      body = octets_of f.body;
      id = f.id;
      stamp = f.stamp;
      station = f.station;
      tid = f.tid;
      flow = f.flow;
      source = f.source;
      tag = f.tag;
      attempts = f.attempts;
      fate = f.fate;
      bare = is_bare f.body;
    } };

    ghost invariant = { λ f. (0 < length (octets_of f.body)) × (length (octets_of f.body) ≤ greatest_body) ×
        (length f.source ≡ source_octets) };
}

impl Frame {
    /// Returns a frame that is not accepted yet, with id 0, stamp 0, the placeholder source, tag 0, 0
    /// attempts and fate Held. Returns the body as the error if it has 0 octets or more than 2304 (the
    /// greatest MSDU, IEEE 802.11-2012, 8.2.3).
    pub fn new(station: u16, tid: u8, flow: u32, body: Vec<u8>) -> Result<Frame, Vec<u8>>
        ensures made { IfOk result (λ f. f ≡ new_frame station tid flow body.items) }
        ensures within { IfOk result (λ f. (0 < length body.items) × (length body.items ≤ greatest_body)) }
        ensures handed_back { IfErr result (λ b. b ≡ body) }
        ensures refused { IfErr result (λ b. (length body.items ≡ 0) ⊎ (greatest_body < length body.items)) }
    {
        if body.is_empty() || usize::from(GREATEST_BODY) < body.len() {
            return Err(body);
        }
        Ok(Frame::with_body(station, tid, flow, Body::Octets(body)))
    }

    /// Returns a frame that is not accepted yet, as `new` does, but of whose body only the length is known,
    /// 1 to 2304 octets: its owner has the octets. It takes no memory, and its body reads as zeros.
    pub fn bare(station: u16, tid: u8, flow: u32, len: u16) -> Frame
        requires within { (0 < len) × (len ≤ greatest_body) }
        ensures { result ≡ bare_frame station tid flow len }
    {
        Frame::with_body(station, tid, flow, Body::Length(len))
    }

    // Returns a frame with this body that is not accepted yet.
    fn with_body(station: u16, tid: u8, flow: u32, body: Body) -> Frame
        requires some { 0 < length (octets_of body) }
        requires most { length (octets_of body) ≤ greatest_body }
        ensures { result ≡ record (new_frame station tid flow (octets_of body)) { bare = is_bare body } }
    {
        Frame {
            body,
            id: 0,
            stamp: 0,
            station,
            tid,
            flow,
            source: MADE_UP_SOURCE,
            tag: 0,
            attempts: 0,
            fate: Fate::Held,
        }
    }

    /// Returns a new frame as a trace makes it: octet j of its body is `(flow + j) mod 256`. `len` must be
    /// 1 to 2304 octets. Fails if the allocation fails.
    pub fn sample(
        alloc: Global,
        station: u16,
        tid: u8,
        flow: u32,
        len: u16,
    ) -> Result<Frame, AllocError>
        requires within { (0 < len) × (len ≤ greatest_body) }
        ensures { IfOk result (λ f. f ≡ new_frame station tid flow (sample_body flow len)) }
    {
        let mut body = vec![in alloc; 0; usize::from(len)]?;
        let mut next = (flow % 256) as u8;
        for octet in body.iter_mut() {
            *octet = next;
            next = next.wrapping_add(1);
        }
        Ok(Frame::with_body(station, tid, flow, Body::Octets(body)))
    }

    /// Returns the number of the station that the frame is for.
    pub fn station(&self) -> u16
        ensures { result ≡ self.now.station }
    {
        self.station
    }

    /// Returns its TID.
    pub fn tid(&self) -> u8
        ensures { result ≡ self.now.tid }
    {
        self.tid
    }

    /// Returns its flow number.
    pub fn flow(&self) -> u32
        ensures { result ≡ self.now.flow }
    {
        self.flow
    }

    /// Returns its source: the third address of its header (IEEE 802.11-2012, 8.3.2.1). It is
    /// `source_address` until it is set.
    pub fn source(&self) -> [u8; 6]
        ensures exact { result ≡ self.now.source }
        ensures six { length self.now.source ≡ source_octets }
    {
        self.source
    }

    /// Returns its tag, by which its owner finds it again, such as an index or a pointer. It is 0 until it
    /// is set; no code here uses it.
    pub fn tag(&self) -> u64
        ensures { result ≡ self.now.tag }
    {
        self.tag
    }

    /// Returns the length of its body in octets, 1 to 2304.
    pub fn len(&self) -> u16
        ensures exact { result ≡ length self.now.body }
        ensures some { 0 < result }
        ensures most { result ≤ greatest_body }
    {
        match &self.body {
            Body::Octets(octets) => octets.len() as u16,
            Body::Length(len) => *len,
        }
    }

    /// Returns its body; zeros if it is bare.
    pub fn body(&self) -> &[u8]
        ensures { result.now ≡ self.now.body }
    {
        match &self.body {
            Body::Octets(octets) => octets.as_slice(),
            Body::Length(len) => &ZEROS[..usize::from(*len)],
        }
    }

    /// Returns whether only its owner has its octets (`bare`).
    pub fn is_bare(&self) -> bool
        ensures { result ≡ self.now.bare }
    {
        matches!(self.body, Body::Length(_))
    }

    /// Sets its source.
    pub fn set_source(&mut self, source: [u8; 6])
        ensures { self.new ≡ record self.old { source = source } }
    {
        self.source = source;
    }

    /// Sets its tag.
    pub fn set_tag(&mut self, tag: u64)
        ensures { self.new ≡ record self.old { tag = tag } }
    {
        self.tag = tag;
    }

    /// Counts one more transmission, up to 255.
    pub fn send(&mut self)
        ensures { self.new ≡ sent_again self.old }
    {
        if self.attempts < GREATEST_ATTEMPTS {
            self.attempts += 1;
        }
    }

    /// Takes back the count of one transmission, which never went on the air.
    pub fn unsend(&mut self)
        ensures { self.new ≡ sent_once_less self.old }
    {
        self.attempts = self.attempts.saturating_sub(1);
    }
}
