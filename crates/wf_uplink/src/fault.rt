//! The reasons why a call of the uplink is refused. The variants are in the order of the checks, and the
//! first check that fails is reported.

use wf_octets::block::BlockFault;
use wf_octets::header::HeaderFault;

/// The reason why a station cannot be opened.
#[derive(Clone, Copy, Debug, PartialEq, Eq)]
pub enum OpenFault {
    /// No station has this number.
    BadStation,
    /// The window is not from 1 to 256.
    BadWindow,
    /// The first number is above 4095.
    BadStart,
    /// The station was opened before.
    Live,
}

/// The station is not open.
#[derive(Clone, Copy, Debug, PartialEq, Eq)]
pub struct Closed;

/// The reason why octets are not a data frame of an open station.
#[derive(Clone, Copy, Debug, PartialEq, Eq)]
pub enum UplinkFault {
    /// They do not begin with a header.
    Header(HeaderFault),
    /// The frame is not QoS Data. The value is its first octet.
    Kind(u8),
    /// To DS is not set, Address 1 is not the access point's, or Address 2 is not an open station's.
    NotMine,
    /// The TID is above 7.
    Tid(u8),
    /// The size of the body, `have` octets, is not from 1 to 2304.
    Length { have: usize },
}

/// The reason why octets are not a BlockAckReq of an open station for a TID with an agreement.
#[derive(Clone, Copy, Debug, PartialEq, Eq)]
pub enum RequestFault {
    /// They do not begin with a header.
    Header(HeaderFault),
    /// The frame is not a BlockAckReq. The value is its first octet.
    Kind(u8),
    /// They have not the layout of a BlockAckReq of one TID with a compressed bitmap.
    Form(BlockFault),
    /// Address 1 is not the access point's, or Address 2 is not an open station's.
    NotMine,
    /// The TID is above 7.
    Tid(u8),
    /// The TID has no agreement.
    NotAgreed,
}
