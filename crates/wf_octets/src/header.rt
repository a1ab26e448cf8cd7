//! MAC headers of the six kinds of frames that a block acknowledgement session exchanges, and of group frames
//! (IEEE 802.11-2012, 8.2.4 and 8.3).
//!
//! The writer writes the layout with reserved bits 0. The reader returns Ok exactly for octets of the layout,
//! and otherwise the first fault.

ghost use Rattle.std.specs.Prelude.{◌≡◌};
ghost use Rattle.wf_octets.specs.Addresses.{base, address_of_station};

use wf_frame::GREATEST_BODY;

mod decoding;
mod encoding;
mod group;
mod header;

pub use decoding::{HeaderFault, decode};
pub use encoding::encode;
pub use group::{GROUP_HEADER_OCTETS, GroupHeader, encode_group};
pub use header::{DATA_HEADER_OCTETS, Header, Kind};

/// The greatest size of a data frame in octets, without its check sequence: the header and the greatest body.
pub const GREATEST_MPDU: usize = DATA_HEADER_OCTETS + GREATEST_BODY as usize;

/// Returns the placeholder address of the access point, `02 00 00 00 00 00`.
pub fn base_address() -> [u8; 6]
    ensures { result ≡ base }
{
    [0x02, 0, 0, 0, 0, 0]
}

/// Returns the placeholder address of a station: `02 00 00 01` and the station's number, high octet first.
pub fn station_address(station: u16) -> [u8; 6]
    ensures { result ≡ address_of_station station }
{
    let [high, low] = station.to_be_bytes();
    [0x02, 0, 0, 0x01, high, low]
}
