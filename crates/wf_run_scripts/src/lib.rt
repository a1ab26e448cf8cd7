//! The commands that run scripts, over any source and sink: `session` runs the messages between both ends of
//! an agreement, and `uplink` the frames that stations send to the access point.
//!
//! ```text
//! let status = session(alloc, &mut source, &mut sink);   // reads "ask 64 100", "to b 0", "to a 0", "end"
//! let status = uplink(alloc, &mut source, &mut sink);    // reads "open 0 64 0", "frame 8801..", "end"
//! ```
#![tactic(auto)]

pub mod session;
pub mod uplink;
