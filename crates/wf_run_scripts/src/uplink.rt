//! The command `uplink`. It runs a script of the frames that stations send and of the time that passes, and
//! answers each event.
//!
//! Each frame and each BlockAckReq is given as hexadecimal octets. The answers report the frames of each TID
//! in the order of their sequence numbers, as they are passed up, the receive charge of each frame, and the
//! BlockAck of each BlockAckReq.

mod answers;
mod command;
mod digits;
mod event;
mod frame;
mod lines;
mod reception;
mod told;
mod verb;

pub use command::uplink;
pub use event::Event;
pub use frame::Frame;
pub use lines::event_from;
pub use reception::Reception;
