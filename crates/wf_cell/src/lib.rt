//! A cell, `Cell`: the transmit path of an access point, the receive half of each of its stations, and the
//! history of the calls. For example, `cell.step(0, Job::Call(Ask::Tick { by: 1000 }), &mut answer)` moves
//! its clock on by one millisecond. Each answer is the machine's, for all calls (`wf_def_world`).
//!
//! The module `engine` has the path, the receive halves and the marks, and makes each call. `cell` adds the
//! history; the invariant of `Cell` says that a cell represents the final world of its history.
//!
//! In `air` a transmission that arrives is written as octets and read by the station, and likewise its
//! BlockAck. `machine` makes a cell a `Machine`: a call brings the answer that it fills, in a box that is
//! returned with it. No call except `Cell::new` and `Cell::of` allocates. The types prove this for the
//! history and for the list of receive halves; for the contents of these it is true by the code.
//!
//! The module `record` has a cell with the entries of its history in memory.
#![tactic(auto)]

mod agreements;
mod air;
mod cell;
mod crossing;
mod engine;
mod machine;
mod peers;
pub mod record;

pub use cell::Cell;
pub use machine::{Answered, Asking};
pub use wf_path::{Job, NewFault, Path};
