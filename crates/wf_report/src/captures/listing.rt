//! The command `frames`. It reads the packets of a capture file one by one into one buffer, and writes a line
//! for each: its time, its captured length, and which frame it is.

mod command;
mod fault;
mod frame;
mod law;
mod lines;
mod octets;
mod reader;

pub use command::frames;
pub use fault::{Fault, FaultKind};
pub use frame::{Frame, frame_of};
pub use law::written_capture_is_listed;
