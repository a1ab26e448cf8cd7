//! Frames: a path accepts one, and returns a finished one.

ghost use Rattle.std.specs.Prelude.{◌≡◌, ◌⊎◌, ◌≤◌, true, false, is_some, pos, take, drop, length, IfOk, IfErr};
ghost use Rattle.wf_def_lists.specs.Lengths.{greatest_body};
ghost use Rattle.wf_path.specs.Paths.{IsSmall, RiseLittle};
ghost use Rattle.wf_c.specs.Calls.{Becomes, HoldsSmall, reserve_held};
ghost use Rattle.wf_c.specs.Bodies.{FitsCause, IsAbout, IsBadLength, IsBodyLength, IsGivenToC, IsReapedFromC, IsUntouched, ShowsBack, ShowsFrame, bad_length, frame_shown, is_small_buffer, small_buffer, source_named};
ghost use Rattle.wf_c.specs.Making.{no_memory};

use crate::exchanges::SMALL_BUFFER;
use crate::held::Held;
use crate::make::NO_MEMORY;
use crate::reply::Reply;
use crate::slot::PathSlot;
use std::alloc::{AllocError, Global};
use wf_frame::{Frame, GREATEST_BODY, source_address};
use wf_path::PathJob;
use wf_queue_parts::chain::Parcel;

/// The code of a body that is empty, or longer than 2304 octets.
pub(crate) const BAD_LENGTH: i32 = 61;

/// Why no frame was made.
#[derive(Clone, Copy)]
pub(crate) enum NoFrame {
    /// There is no memory.
    NoMemory,
    /// The body is empty, or longer than 2304 octets.
    BadLength,
}

impl From<AllocError> for NoFrame {
    ghost use Rattle.std.specs.Prelude.{◌≡◌};
    ghost use Rattle.wf_c.specs.declared.frames.NoFrame.TheVariants.{NoMemory};

    ghost from_gives = { λ _ e. e ≡ NoMemory };

    fn from(_e: AllocError) -> NoFrame {
        NoFrame::NoMemory
    }
}

/// A packet for a station, to be sent as a frame.
#[repr(C)]
#[derive(Clone, Copy)]
pub struct Packet<'a> {
    /// Its body, 1 to 2304 octets.
    pub body: &'a [u8],
    /// Identifies the packet to its owner, as an index or a pointer. The library does not use it.
    pub tag: u64,
    /// The number of its flow.
    pub flow: u32,
    /// Its source address. Six zeros mean the placeholder `02 00 00 02 00 00`.
    pub source: [u8; 6],
    /// Its TID, 0 to 7.
    pub tid: u8,
}

// The source address of the frame of a packet with this source.
pub(crate) fn named_source(source: [u8; 6]) -> [u8; 6]
    ensures { result ≡ source_named source }
{
    if source == [0; 6] {
        source_address()
    } else {
        source
    }
}

// The frame of a packet. The length of the body is checked before memory is allocated.
pub(crate) fn frame_of(alloc: Global, station: u16, packet: &Packet) -> Result<Parcel, NoFrame>
    ensures made { IfOk result (λ made. made ≡ frame_shown station packet.now) }
    ensures fits { IfOk result (λ _. IsBodyLength (length packet.now.body.now)) }
    ensures cause { IfErr result (λ why. FitsCause why (length packet.now.body.now)) }
{
    let body = packet.body;
    if body.is_empty() || usize::from(GREATEST_BODY) < body.len() {
        return Err(NoFrame::BadLength);
    }
    let octets = Vec::from_slice(alloc, body)?;
    let Ok(mut frame) = Frame::new(station, packet.tid, packet.flow, octets) else {
        return Err(NoFrame::BadLength);
    };
    frame.set_source(named_source(packet.source));
    frame.set_tag(packet.tag);
    match Parcel::new(alloc, frame) {
        Ok(parcel) => Ok(parcel),
        Err(_) => Err(NoFrame::NoMemory),
    }
}

impl Held {
    // Enqueues a frame. If it is refused, its octets are freed, and the reserve may keep its node.
    pub(crate) fn give(&mut self, parcel: Parcel) -> Reply
        requires small { IsSmall self.old.path.half }
        ensures given { IsGivenToC self.old parcel self.new result }
        ensures reserve { self.old.reserve ≤ self.new.reserve }
        ensures rises { RiseLittle self.old.path.half self.new.path.half }
    {
        let back = self.path.call(PathJob::Give(parcel), &mut self.answer);
        self.reserve.keep_any(back);
        Reply::of(self.answer.brief)
    }

    // Takes out the first finished frame. Its octets are freed, and the reserve may keep its node.
    fn reap(&mut self, taken: &mut Taken, body: &mut [u8]) -> Reply
        requires small { IsSmall self.old.path.half }
        ensures { IsReapedFromC self.old self.new result taken.old body.old taken.new body.new }
    {
        let back = self.path.call(PathJob::Reap, &mut self.answer);
        show_back(&back, taken, body);
        self.reserve.keep_any(back);
        Reply::of(self.answer.brief)
    }
}

// Shows a frame that was reaped, if any. Its body goes to the front of a buffer that has room, unless it is
// bare; the rest of the buffer is unchanged.
pub(crate) fn show_back(back: &Option<Parcel>, taken: &mut Taken, body: &mut [u8])
    ensures { ShowsBack back.now taken.old body.old taken.new body.new }
{
    if let Some(parcel) = back {
        taken.show(parcel, body);
    }
}

/// A frame that was reaped.
#[repr(C)]
#[derive(Clone, Copy)]
pub struct Taken {
    /// Its id.
    pub id: u64,
    /// The clock when it was accepted, in microseconds.
    pub stamp: u64,
    /// The tag of its packet.
    pub tag: u64,
    /// The number of its flow.
    pub flow: u32,
    /// The station that it was for.
    pub station: u16,
    /// The length of its body, 1 to 2304 octets.
    pub length: u16,
    /// Its source address.
    pub source: [u8; 6],
    /// Its TID, 0 to 7.
    pub tid: u8,
    /// Its fate, 1 to 5.
    pub fate: u8,
    /// How often it was sent, at most 64.
    pub attempts: u8,
    /// 1 if its octets stayed with its owner, else 0.
    pub bare: u8,
}

impl Taken {
    // Shows a frame, and its body in a buffer that has room, unless it is bare.
    fn show(&mut self, parcel: &Parcel, body: &mut [u8])
        ensures { ShowsFrame parcel.now self.new body.old body.new }
    {
        let frame = parcel.frame();
        *self = Taken::of(frame);
        if frame.is_bare() {
            return;
        }
        if usize::from(GREATEST_BODY) <= body.len() {
            copy_to_front(frame.body(), body);
        }
    }

    // A frame without its body.
    fn of(frame: &Frame) -> Taken
        ensures about { IsAbout frame.now result }
        ensures length { length frame.now.body ≤ greatest_body }
    {
        Taken {
            id: frame.id,
            stamp: frame.stamp,
            tag: frame.tag(),
            flow: frame.flow(),
            station: frame.station(),
            length: frame.len(),
            source: frame.source(),
            tid: frame.tid(),
            fate: frame.fate.number(),
            attempts: frame.attempts,
            bare: u8::from(frame.is_bare()),
        }
    }
}

// Returns whether a buffer is too small: it has some room, but not for the longest body.
pub(crate) fn is_small(buffer: &[u8]) -> bool
    ensures { result ≡ is_small_buffer (length buffer.now) }
{
    0 < buffer.len() && buffer.len() < usize::from(GREATEST_BODY)
}

// Copies octets to the front of a buffer.
fn copy_to_front(octets: &[u8], buffer: &mut [u8])
    requires room { length octets.now ≤ length buffer.old }
    ensures front { take (length octets.now) buffer.new ≡ octets.now }
    ensures rest { drop (length octets.now) buffer.new ≡ drop (length octets.now) buffer.old }
{
    let (front, _) = buffer.split_at_mut(octets.len());
    front.copy_from_slice(octets);
}

/// Accepts a packet for a station as a frame. Returns 0; 61 if the body is empty or longer than 2304 octets;
/// 60 if there is no memory for the frame; or the refusal of the call. After 60 and 61 nothing has changed.
#[unsafe(no_mangle)]
pub extern "C" fn wf_path_enqueue(
    alloc: Global,
    path: &mut PathSlot,
    station: u16,
    packet: &Packet,
    reply: &mut Reply,
) -> i32
    requires open { is_some path.old.value ≡ true }
    requires small { HoldsSmall path.old.value }
    ensures given { IsBodyLength (length packet.now.body.now) →
        Becomes (λ h k. IsGivenToC h (frame_shown station packet.now) k reply.new ×
        (result ≡ pos reply.new.refusal)) path.old.value path.new.value ⊎
        IsUntouched path.old.value path.new.value reply.old reply.new result no_memory }
    ensures refused { IsBadLength (length packet.now.body.now) →
        IsUntouched path.old.value path.new.value reply.old reply.new result bad_length }
    ensures reserve { reserve_held path.old.value ≤ reserve_held path.new.value }
{
    match frame_of(alloc, station, packet) {
        Ok(parcel) => {
            *reply = path.held().give(parcel);
            i32::from(reply.refusal)
        }
        Err(NoFrame::NoMemory) => NO_MEMORY,
        Err(NoFrame::BadLength) => BAD_LENGTH,
    }
}

/// Takes out the first finished frame, and copies its body to the front of a buffer. A buffer of 0 octets
/// gets no body, and a bare frame changes no buffer. Returns the refusal, or 0; or 62 if the buffer has some
/// room, but not for the longest body, and then nothing has changed.
#[unsafe(no_mangle)]
pub extern "C" fn wf_path_reap(
    path: &mut PathSlot,
    reply: &mut Reply,
    taken: &mut Taken,
    body: &mut [u8],
) -> i32
    requires open { is_some path.old.value ≡ true }
    requires small { HoldsSmall path.old.value }
    ensures reaped { is_small_buffer (length body.old) ≡ false → Becomes (λ h k. IsReapedFromC h k
        reply.new taken.old body.old taken.new body.new) path.old.value path.new.value }
    ensures code { is_small_buffer (length body.old) ≡ false → result ≡ pos reply.new.refusal }
    ensures refused { is_small_buffer (length body.old) ≡ true →
        IsUntouched path.old.value path.new.value reply.old reply.new result small_buffer }
    ensures taken_stays { is_small_buffer (length body.old) ≡ true → taken.new ≡ taken.old }
    ensures body_stays { is_small_buffer (length body.old) ≡ true → body.new ≡ body.old }
{
    if is_small(body) {
        return SMALL_BUFFER;
    }
    *reply = path.held().reap(taken, body);
    i32::from(reply.refusal)
}
