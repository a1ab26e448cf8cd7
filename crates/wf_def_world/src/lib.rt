//! Defines the whole machine. The definitions are in specs/, and contracts of other crates refer to
//! them:
//!
//! - World is the state of the machine: stations, queues, rotations, open exchanges and accepted
//!   frames; Group has the group frames and the beacons, and Service the service periods, with their calls;
//! - FlowQueues, CanSend, Rates and Exchanges say how frames are queued, picked, sent and acknowledged;
//! - Refusals defines when a call is refused, Step the effect of one call, and Run that of a history;
//! - Text is the text that a run writes, and Stretches compares the airtime of two stations.
//!
//! In proofs/ are worked histories, whose replies, texts or charges the checker computes. The text of
//! the empty history is, by `empty_history` of proofs/Texts:
//!
//! ```text
//! calls 0
//! now 0
//! frames 0 acked 0 overlimit 0 codel 0 retries 0 left 0 held 0
//! exchanges 0 open 0
//! tim 050400010000
//! ```
//!
//! The near misses are at the edges of the rules: for each of them a slightly wrong definition would
//! give another reply or text.
#![tactic(auto)]
