//! The receiving side of an access point. It takes the data frames of many stations, puts those of each TID
//! in the order of their sequence numbers (IEEE 802.11-2012, 9.21.7.6), gives up a hole after 100,000
//! microseconds, and computes what each frame is charged. The time limit is this project's own. A BlockAckReq
//! moves the window and is answered by a BlockAck. A TID without an agreement passes each frame up at once,
//! except repeats (9.3.2.10).
//!
//! ```text
//! let mut uplink = Uplink::new(alloc, 4)?;   // 4 stations
//! let mut up = Up::new();
//! uplink.open(3, 64, 100)?;                  // station 3: a window of 64 numbers, from 100 on
//! uplink.receive(&octets, &mut up)?;         // number 101 waits for 100: up.items is empty
//! uplink.tick(100_000);
//! uplink.expired(&mut up);                   // true: up.items has the gap 100 and the frame 101
//! let ba = uplink.request(&bar, &mut up)?;   // the window moves to the start of the BlockAckReq
//! uplink.open_plain(2)?;                     // station 2: no agreements
//! ```
//!
//! Contracts see an `Uplink` as a world (specs/World), in which sequence numbers are whole numbers. They hold
//! for all octets; the laws (`laws`) hold after every list of calls.
#![tactic(auto)]

mod bitmap;
mod fault;
mod items;
mod laws;
mod reading;
mod sequencer;
mod side;
mod up;
mod uplink;
mod waits;

pub use bitmap::Bitmap;
pub use fault::{Closed, OpenFault, RequestFault, UplinkFault};
pub use items::{Items, UpItem};
pub use laws::{air_law, plain_law, reading_law, request_air_law, tid_law, totals_law};
pub use up::{Totals, Up};
pub use uplink::Uplink;
