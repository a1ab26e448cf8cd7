//! Frames as octets (IEEE 802.11-2012, clause 8): MAC headers (`header`), BlockAckReq and BlockAck (`block`),
//! the TIM element (`tim`), and their parts: sequence numbers of 12 bits (`seq12`), the bitmaps of BlockAcks
//! (`bits`), and fields of octets, addresses and flags (`fields`).
//!
//! Each frame has one layout, defined in specs/. Its writer writes the layout with reserved bits 0. Its
//! reader returns Ok exactly for octets of the layout, and otherwise the first fault.
//!
//! ```text
//! let bar = Bar { ra, ta, duration: 0, tid: 5, start: Seq12::of(4100) };   // 4100 modulo 4096 is 4
//! let mut out = [0; 20];
//! encode_bar(&bar, &mut out);
//! let read = decode_bar(&out);                                             // Ok(bar)
//! ```
#![tactic(auto)]

pub mod bits;
pub mod block;
pub mod fields;
pub mod header;
pub mod seq12;
pub mod tim;
