//! Frames whose octets stay with their owner, and the memory that they need.

ghost use Rattle.std.specs.Prelude.{◌≡◌, ◌⊎◌, ◌≤◌, ◌+◌, true, is_some, pos, IfSome, IfNone, OnSome, OnOk, OnErr};
ghost use Rattle.wf_path.specs.Paths.{IsSmall, RiseLittle};
ghost use Rattle.wf_c.specs.Bodies.{IsBadLength, IsBodyLength, IsGivenToC, IsUntouched, bad_length, bare_shown};
ghost use Rattle.wf_c.specs.Calls.{Becomes, HoldsSmall, reserve_held};
ghost use Rattle.wf_c.specs.Making.{no_memory};

use crate::frames::{BAD_LENGTH, named_source};
use crate::held::Held;
use crate::make::NO_MEMORY;
use crate::reply::Reply;
use crate::slot::PathSlot;
use std::alloc::{AllocError, Global};
use wf_frame::{Frame, GREATEST_BODY};

/// A packet for a station, to be sent as a frame. Its octets stay with its owner.
#[repr(C)]
#[derive(Clone, Copy)]
pub struct Bare {
    /// Identifies the packet to its owner, as an index or a pointer. The library does not use it.
    pub tag: u64,
    /// The number of its flow.
    pub flow: u32,
    /// The length of its body, 1 to 2304 octets.
    pub length: u16,
    /// Its source address. Six zeros mean the placeholder `02 00 00 02 00 00`.
    pub source: [u8; 6],
    /// Its TID, 0 to 7.
    pub tid: u8,
}

impl Bare {
    // Its frame. None if its length is 0 or above 2304.
    pub(crate) fn frame(&self, station: u16) -> Option<Frame>
        ensures made { IfSome result (λ made. made ≡ bare_shown station self.now) }
        ensures fits { OnSome result (IsBodyLength self.now.length) }
        ensures cause { IfNone result (IsBadLength self.now.length) }
    {
        if self.length == 0 || GREATEST_BODY < self.length {
            return None;
        }
        let mut frame = Frame::bare(station, self.tid, self.flow, self.length);
        frame.set_source(named_source(self.source));
        frame.set_tag(self.tag);
        Some(frame)
    }
}

impl Held {
    // Enqueues a frame in a node of the reserve, or, if the reserve has none, in a new one. If the frame is
    // refused, the reserve may keep the node. None if the reserve has no node and there is no memory; then
    // nothing has changed.
    pub(crate) fn give_frame(&mut self, alloc: Global, frame: Frame) -> Option<Reply>
        requires small { IsSmall self.old.path.half }
        ensures given { IfSome result (λ shown. IsGivenToC self.old frame self.new shown) }
        ensures reserve { self.old.reserve ≤ self.new.reserve + 1 }
        ensures empty { IfNone result (self.old.reserve ≡ 0) }
        ensures unchanged { IfNone result (self.new ≡ self.old) }
        ensures rises { OnSome result (RiseLittle self.old.path.half self.new.path.half) }
    {
        let parcel = self.reserve.node(alloc, frame)?;
        Some(self.give(parcel))
    }

    // Takes memory until this number of frames is in reserve. After an error nothing has changed.
    fn fill(&mut self, alloc: Global, frames: usize) -> Result<(), AllocError>
        ensures enough { OnOk result (frames ≤ self.new.reserve) }
        ensures kept { self.old.reserve ≤ self.new.reserve }
        ensures path { self.new.path ≡ self.old.path }
        ensures answer { self.new.answer ≡ self.old.answer }
        ensures stays { OnErr result (self.new ≡ self.old) }
    {
        self.reserve.fill(alloc, frames)
    }
}

/// Takes memory until that for `frames` frames without octets is in reserve. Returns 0; or 60 if there is no
/// memory, and then nothing has changed.
#[unsafe(no_mangle)]
pub extern "C" fn wf_path_reserve(alloc: Global, path: &mut PathSlot, frames: u32) -> i32
    requires open { is_some path.old.value ≡ true }
    ensures kept { Becomes (λ h k. (k.path ≡ h.path) × ((k.answer ≡ h.answer) ×
        (h.reserve ≤ k.reserve))) path.old.value path.new.value }
    ensures enough { result ≡ pos 0 → frames ≤ reserve_held path.new.value }
    ensures code { (result ≡ pos 0) ⊎ ((result ≡ pos no_memory) × (path.new.value ≡ path.old.value)) }
{
    match path.held().fill(alloc, frames as usize) {
        Ok(()) => 0,
        Err(_) => NO_MEMORY,
    }
}

/// Accepts a packet for a station as a frame, without its octets. Returns 0; 61 if the length is 0 or above
/// 2304; 60 if no frame is in reserve and there is no memory for one; or the refusal of the call. After 60
/// and 61 nothing has changed.
#[unsafe(no_mangle)]
pub extern "C" fn wf_path_enqueue_bare(
    alloc: Global,
    path: &mut PathSlot,
    station: u16,
    packet: &Bare,
    reply: &mut Reply,
) -> i32
    requires open { is_some path.old.value ≡ true }
    requires small { HoldsSmall path.old.value }
    ensures given { IsBodyLength packet.now.length →
        Becomes (λ h k. IsGivenToC h (bare_shown station packet.now) k reply.new ×
        (result ≡ pos reply.new.refusal)) path.old.value path.new.value ⊎
        (IsUntouched path.old.value path.new.value reply.old reply.new result no_memory ×
        (reserve_held path.old.value ≡ 0)) }
    ensures refused { IsBadLength packet.now.length →
        IsUntouched path.old.value path.new.value reply.old reply.new result bad_length }
    ensures reserve { reserve_held path.old.value ≤ reserve_held path.new.value + 1 }
{
    let Some(frame) = packet.frame(station) else {
        return BAD_LENGTH;
    };
    match path.held().give_frame(alloc, frame) {
        Some(shown) => {
            *reply = shown;
            i32::from(reply.refusal)
        }
        None => NO_MEMORY,
    }
}
