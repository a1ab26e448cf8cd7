//! The parts of a transmit half other than its queues and its scheduler: the originator's windows of all TIDs
//! (`window`), the open exchanges (`exchanges`), the live and sleeping stations with the modes of their TIDs
//! and the counts of frames by fate (`stations`), and the group frames and beacons of a BSS (`group`) and of
//! all (`groups`). Only `groups` depends on another module, `group`.
//!
//! ```text
//! let mut windows = Windows::new(alloc, 1)?;       // the eight windows of one station
//! windows.reset_all(0, Seq12::of(500), 64);        // each TID begins at 500 with a window of 64
//! let seq = windows.give(0, 5, parcel)?;           // TID 5: number 500 waits
//! let id = windows.fly(0, 5, seq, 0);              // it flies in exchange 0
//! let done = windows.settle(0, 5, seq, true, 10);  // Settled::Acked(parcel)
//! ```
#![tactic(auto)]

pub mod exchanges;
pub mod group;
pub mod groups;
pub mod stations;
pub mod window;
