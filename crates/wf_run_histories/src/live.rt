//! The command `live`. It makes the opening calls on a record, opens a gate to it, and runs a crew of workers
//! on threads. Each worker makes its calls at a desk that has a seat at the gate. At the end the command
//! writes the trace and the summary of the record.
//!
//! `work` runs the crew and returns the seats in their order. Its contract states which calls the seats have
//! made and seen.

mod calls;
mod closed;
mod command;
mod crew;
mod desk;
mod history;
mod lives;
mod opened;
mod worker;

pub use command::lived;
pub use crew::work;
pub use lives::live;
pub use wf_gate::{Gate, Seat};
