//! The parts of the queues: lists of frames that are linked through their nodes (`chain`), and a tournament
//! tree that finds the greatest of numbered values (`peak`). The two modules are independent. `peak::lazy` is
//! a tree for values that change more often than the greatest is asked for.
//!
//! ```text
//! let mut chain = Chain::new();
//! chain.push_back(Parcel::new(alloc, frame)?);    // only Parcel::new allocates
//! let first = chain.pop_front();                  // Some(parcel)
//!
//! let mut peak = LazyPeak::new(alloc, 1024)?;
//! peak.set(7, 1500);
//! let best = peak.best().leaf;                    // Some(7)
//! ```
#![tactic(auto)]

pub mod chain;
pub mod peak;
