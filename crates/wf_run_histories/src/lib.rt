//! The commands that generate histories: `soak` plays a random history on one cell, and `live` runs senders
//! and drivers on threads that share a cell through a gate.
//!
//! ```text
//! let cell = soak(alloc, 1, 200_000)?;               // the cell after the soak of seed 1
//! let status = lived(rt, alloc, 1, 4, 100, &mut sink, &turnstile);   // 4 senders, each with 100 frames
//! ```
//!
//! The module `soak::workers` contains the senders and drivers of `live` without threads, over any place
//! where calls can be made.
#![tactic(auto)]

pub mod live;
pub mod soak;
