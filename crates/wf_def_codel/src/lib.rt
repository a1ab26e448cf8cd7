//! CoDel, as definitions: the dequeue of RFC 8289 frame by frame, as in the RFC (specs/CodelLoop), the same
//! dequeue in closed form (specs/Codel), and CoDel's parameters for the rate of a station
//! (specs/Parameters).
//!
//! This crate contains no code. Contracts of other crates cite its definitions. wf_law_rules proves that
//! both forms of the dequeue are equal.
#![tactic(auto)]
