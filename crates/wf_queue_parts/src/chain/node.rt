//! A node: a frame, and a pointer to the next node.

use std::alloc::Global;
use std::marker::Send;
use wf_frame::Frame;

// `next` means nothing in the last node, and `alloc` is the allocator of the node's block.
#[derive(Drop)]
pub(crate) struct Node {
    pub(crate) next: *mut Node,
    pub(crate) alloc: Global,
    pub(crate) frame: Frame,
}

// `next` owns nothing.
unsafe impl Send for Node {}
