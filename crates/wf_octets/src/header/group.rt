//! The header of a group frame: a data frame without QoS from the access point to the address of a group
//! (IEEE 802.11-2012, 8.3.2.1). No answer follows it, so its Duration is 0 (8.2.5).

ghost use Rattle.std.specs.Prelude.{◌≡◌};
ghost use Rattle.wf_octets.specs.GroupLayout.{group_flags, group_octets};

use crate::fields::{put, two_octets};
use crate::seq12::Seq12;

/// The size of the header in octets.
pub const GROUP_HEADER_OCTETS: usize = 24;

/// The fields of the header of a group frame.
#[derive(Clone, Copy, Debug, PartialEq, Eq)]
pub struct GroupHeader {
    /// Another group frame follows before the next beacon (More Data, 8.2.4.1.8).
    pub more: bool,
    /// The address of the group.
    pub group: [u8; 6],
    /// The access point's address.
    pub bss: [u8; 6],
    /// The source's address.
    pub source: [u8; 6],
    /// The sequence number.
    pub seq: Seq12,
}

/// Returns the octets of the header of a group frame.
pub fn encode_group(header: &GroupHeader) -> [u8; 24]
    ensures { result ≡ group_octets header.now }
{
    let mut out = [0; GROUP_HEADER_OCTETS];
    let end = put(&mut out, 0, &[0x08, flags_octet(header.more), 0, 0]);
    let end = put(&mut out, end, &header.group);
    let end = put(&mut out, end, &header.bss);
    let end = put(&mut out, end, &header.source);
    put(&mut out, end, &two_octets(16 * header.seq.raw()));
    out
}

/// Returns the second octet of Frame Control: From DS, and More Data.
fn flags_octet(more: bool) -> u8
    ensures { result ≡ group_flags more }
{
    if more { 0x22 } else { 0x02 }
}
