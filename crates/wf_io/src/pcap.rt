//! Capture files of IEEE 802.11 frames in the format of libpcap, which packet analysers read. `write_head`
//! and `write_packet` append the file header and a packet. `read_head` and `read_packet` read them in either
//! byte order, and return the first fault if there is one.

mod laws;
mod reading;
mod writing;

pub use laws::{head_is_read_back, packet_is_read_back};
pub use reading::{
    FILE_HEAD, Form, MOST_CAPTURED, PACKET_HEAD, Packet, PcapFault, read_head, read_packet,
};
pub use writing::{write_head, write_packet};
