//! The command `replay --pcap`. It replays a trace on a stage, and writes a capture file in which each
//! transmission of the access point and each BlockAck of a station is a packet.
//!
//! The loop is `wf_run_replay::play`, as for `replay`. `Packets` is what it writes here.

mod command;
mod packets;

pub use command::capture;
