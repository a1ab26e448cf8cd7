//! The scheduler's rotations, as definitions: the loop of "Ending the Anomaly" (USENIX ATC 2017),
//! algorithms 2 and 3, one turn at a time (specs/Loop), and the pick, which gives the result of the whole
//! loop in closed form (specs/Rotation).
//!
//! This crate contains no code. Contracts of other crates cite its definitions. wf_law_rules proves that
//! the loop ends with the result of the pick, and its specs/FourKeys is a worked example.
#![tactic(auto)]
