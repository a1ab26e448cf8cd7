//! Memory that a path has in reserve: nodes for frames that are accepted later.

ghost use Rattle.std.specs.Prelude.{◌≡◌, ◌<◌, ◌≤◌, ◌+◌, ◌-◌, IfSome, IfNone, OnOk, OnErr};
ghost use Rattle.wf_frame.specs.Frames.{bare_frame};

use std::alloc::{AllocError, Global};
use std::marker::Model;
use wf_frame::Frame;
use wf_queue_parts::chain::Parcel;

/// Nodes in reserve. The frame of each is bare, has one octet, and means nothing. A contract sees how many
/// there are.
#[derive(Drop)]
pub(crate) struct Reserve {
    nodes: Vec<Parcel>,
}

impl Model for Reserve {
    ghost use Rattle.std.specs.Prelude.{ℕ};
    ghost use Rattle.std.specs.Vec.{vec_len};

    ghost Value = { ℕ };

    ghost view = { λ r. vec_len r.nodes };
}

impl Reserve {
    // No nodes. It takes no memory.
    pub(crate) fn new(alloc: Global) -> Reserve
        ensures { result ≡ 0 }
    {
        Reserve {
            nodes: Vec::new(alloc),
        }
    }

    // Puts a frame into a node of the reserve, or, if it has none, into a new one. None if it has none and
    // there is no memory.
    pub(crate) fn node(&mut self, alloc: Global, frame: Frame) -> Option<Parcel>
        ensures frame { IfSome result (λ parcel. parcel ≡ frame) }
        ensures used { self.new ≡ self.old - 1 }
        ensures empty { IfNone result (self.old ≡ 0) }
    {
        match self.nodes.pop() {
            Some(mut parcel) => {
                *parcel.frame_mut() = frame;
                Some(parcel)
            }
            None => match Parcel::new(alloc, frame) {
                Ok(parcel) => Some(parcel),
                Err(_) => None,
            },
        }
    }

    // Puts a frame whose octets stay with their owner into a node, in the same way.
    #[inline(never)]
    pub(crate) fn bare_node(
        &mut self,
        alloc: Global,
        station: u16,
        tid: u8,
        flow: u32,
        len: u16,
    ) -> Option<Parcel>
        requires within { (0 < len) × (len ≤ 2304) }
        ensures frame { IfSome result (λ parcel. parcel ≡ bare_frame station tid flow len) }
        ensures used { self.new ≡ self.old - 1 }
        ensures empty { IfNone result (self.old ≡ 0) }
    {
        self.node(alloc, Frame::bare(station, tid, flow, len))
    }

    // Keeps the node of a frame that left the path, if fewer nodes are here than were reserved; otherwise
    // frees it. It allocates nothing.
    fn keep(&mut self, mut parcel: Parcel)
        ensures kept { self.old ≤ self.new }
        ensures most { self.new ≤ self.old + 1 }
    {
        if self.nodes.len() < self.nodes.capacity() {
            *parcel.frame_mut() = Frame::bare(0, 0, 0, 1);
            self.nodes.push_reserved(parcel);
        }
    }

    // Keeps or frees the node of a frame that a call returned, if it returned one.
    #[inline(never)]
    pub(crate) fn keep_any(&mut self, back: Option<Parcel>)
        ensures kept { self.old ≤ self.new }
        ensures most { self.new ≤ self.old + 1 }
    {
        if let Some(parcel) = back {
            self.keep(parcel);
        }
    }

    // Takes memory for nodes until `frames` are here. After an error as many are here as before.
    pub(crate) fn fill(&mut self, alloc: Global, frames: usize) -> Result<(), AllocError>
        ensures enough { OnOk result (frames ≤ self.new) }
        ensures kept { self.old ≤ self.new }
        ensures stays { OnErr result (self.new ≡ self.old) }
    {
        let have = self.nodes.len();
        if frames <= have {
            return Ok(());
        }
        self.nodes.reserve_exact(frames - have)?;
        for _here in have..frames {
            match Parcel::new(alloc, Frame::bare(0, 0, 0, 1)) {
                Ok(parcel) => self.nodes.push_reserved(parcel),
                Err(_) => {
                    self.nodes.truncate(have);
                    return Err(AllocError);
                }
            }
        }
        Ok(())
    }
}
