//! One frame in its own node.

ghost use Rattle.std.specs.Prelude.{◌≡◌, MatchResult};
ghost use Rattle.std.specs.Borrow.{Lends, sem};
ghost use Rattle.wf_frame.specs.contracts.frames.Frame.{the_row as FrameRow};
ghost use Rattle.wf_queue_parts.specs.contracts.chain.parcel.Parcel.{the_row};

use crate::chain::node::Node;
use crate::chain::unboxed::{OwnedNode, Unboxed};
use std::alloc::{AllocError, Global};
use std::marker::Model;
use wf_frame::Frame;

/// A frame in its own node, which is linked into a chain without further memory.
pub struct Parcel {
    owned: OwnedNode,
}

impl Model for Parcel {
    ghost use Rattle.wf_frame.specs.Frames.{FrameValue};

    ghost Value = { FrameValue };

    ghost view = { λ p. p.owned.value.frame };
}

impl Parcel {
    /// Puts a frame into a new node. If there is no memory, the error returns the frame.
    pub fn new(alloc: Global, frame: Frame) -> Result<Parcel, (AllocError, Frame)>
        ensures { MatchResult result (λ p. p ≡ frame) (λ e. e.1 ≡ frame) }
    {
        let node = Node {
            next: std::ptr::null_mut(),
            alloc,
            frame,
        };
        match Box::new(alloc, node) {
            Ok(boxed) => Ok(Parcel {
                owned: Unboxed::of(boxed),
            }),
            Err(refused) => Err((AllocError, refused.value.frame)),
        }
    }

    /// Returns the frame.
    pub fn frame(&self) -> &Frame
        ensures { result.now ≡ self.now }
    {
        &self.owned.get().frame
    }

    /// Returns the frame for writing. The last value written is the parcel's frame.
    pub fn frame_mut(&mut self) -> &mut Frame
        ensures* writes_back { sem 𝓛 (Lends the_row FrameRow self.entry result (λ f. f)) }
        ensures value { result.now ≡ self.old }
    {
        let node = self.owned.get_mut();
        &mut node.frame
    }

    /// Returns the frame, and frees the node. A driver calls it to reuse the frame after the path has
    /// returned the parcel.
    pub fn into_frame(self) -> Frame
        ensures { result ≡ self }
    {
        Box::into_inner(self.into_owned().into_box()).frame
    }

    pub(crate) fn of(owned: OwnedNode) -> Parcel
        ensures { result ≡ owned.value.frame }
    {
        Parcel { owned }
    }

    pub(crate) fn into_owned(self) -> OwnedNode
        ensures { result.value.frame ≡ self }
    {
        let Parcel { owned } = self;
        owned
    }
}

impl Drop for Parcel {
    fn drop(self) {
        let Parcel { owned } = self;
        drop(owned.into_box());
    }
}
