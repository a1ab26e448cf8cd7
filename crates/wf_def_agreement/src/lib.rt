//! A block acknowledgement agreement, as definitions (IEEE 802.11-2012, 9.21.7): the originator's session
//! (specs/Session) and the recipient (specs/Receiver). Sequence numbers are unbounded whole numbers; they
//! do not wrap.
//!
//! This crate contains no code. Contracts of other crates cite its definitions.
#![tactic(auto)]
