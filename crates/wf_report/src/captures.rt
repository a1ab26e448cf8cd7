//! Captures: writes what each call of a trace puts on the air as packets of a capture file. Each transmission
//! of the access point, each BlockAck or Ack of its stations, and each beacon is a packet (IEEE 802.11-2012,
//! 8.3.1.4, 8.3.1.8, 8.3.1.9, 8.3.2.1 and 8.3.3.2). A law states that `frames` lists them.
//!
//! The module `listing` reads captures: it is the command `frames`.

mod frames;
mod group;
mod law;
pub mod listing;
mod packets;
mod standing;
mod writing;

pub use law::captured_run_is_listed;
pub use packets::write_packets;
pub use wf_io::pcap::write_head;
