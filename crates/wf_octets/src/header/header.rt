ghost use Rattle.std.specs.Prelude.{◌≡◌, Some};
ghost use Rattle.wf_octets.specs.HeaderLayout.{first_octet, size_of, is_qos, has_address_2};
ghost use Rattle.wf_octets.specs.HeaderFaults.{kind_of};

use crate::seq12::Seq12;

/// The size of a data header in octets: a QoS Data frame with three addresses (8.3.2.1).
pub const DATA_HEADER_OCTETS: usize = 26;

/// The kinds of frames whose headers this crate reads and writes.
#[derive(Clone, Copy, Debug, PartialEq, Eq)]
pub enum Kind {
    /// A data frame with a traffic identifier (TID).
    QosData,
    /// A QoS frame without a body.
    QosNull,
    /// The request of a sleeping station for a frame.
    PsPoll,
    /// The acknowledgement of one frame.
    Ack,
    /// The originator's request for a BlockAck, which also moves the recipient's window.
    BlockAckReq,
    /// The recipient's answer: the numbers that arrived.
    BlockAck,
}

impl Kind {
    /// Returns the size of the header in octets.
    pub fn size(self) -> usize
        ensures { result ≡ size_of self }
    {
        match self {
            Kind::QosData | Kind::QosNull => DATA_HEADER_OCTETS,
            Kind::PsPoll | Kind::BlockAckReq | Kind::BlockAck => 16,
            Kind::Ack => 10,
        }
    }

    /// Returns the first octet of Frame Control: version, type and subtype.
    pub(crate) fn first_octet(self) -> u8
        ensures { result ≡ first_octet self }
    {
        match self {
            Kind::QosData => 0x88,
            Kind::QosNull => 0xC8,
            Kind::PsPoll => 0xA4,
            Kind::Ack => 0xD4,
            Kind::BlockAckReq => 0x84,
            Kind::BlockAck => 0x94,
        }
    }

    /// Returns the kind with this first octet of Frame Control, if any.
    pub(crate) fn of_first_octet(octet: u8) -> Option<Kind>
        ensures { result ≡ kind_of octet }
    {
        match octet {
            0x88 => Some(Kind::QosData),
            0xC8 => Some(Kind::QosNull),
            0xA4 => Some(Kind::PsPoll),
            0xD4 => Some(Kind::Ack),
            0x84 => Some(Kind::BlockAckReq),
            0x94 => Some(Kind::BlockAck),
            _ => None,
        }
    }

    /// Returns whether the header has Address 3, Sequence Control and QoS Control.
    pub(crate) fn is_qos(self) -> bool
        ensures { result ≡ is_qos self }
    {
        matches!(self, Kind::QosData | Kind::QosNull)
    }

    /// Returns whether the header has Address 2.
    pub(crate) fn has_address_2(self) -> bool
        ensures { result ≡ has_address_2 self }
    {
        !matches!(self, Kind::Ack)
    }
}

/// A MAC header. `encode` takes a plain one: each field that its kind does not have is false or 0, at most
/// one DS flag is set, and the TID is below 16. Only QoS kinds have flags, `a3`, `seq`, `tid` and `eosp`; an
/// Ack has no `a2`.
#[derive(Clone, Copy, Debug, PartialEq, Eq)]
pub struct Header {
    /// The kind of frame.
    pub kind: Kind,
    /// The frame goes to the distribution system (To DS).
    pub to_ds: bool,
    /// The frame comes from the distribution system (From DS).
    pub from_ds: bool,
    /// The frame was sent before.
    pub retry: bool,
    /// The sender sleeps after this frame.
    pub power: bool,
    /// The sender has more frames for this recipient (More Data).
    pub more: bool,
    /// How long the medium is reserved after the frame, in microseconds. In a PS-Poll, the raw AID field.
    pub duration: u16,
    /// The recipient's address.
    pub a1: [u8; 6],
    /// The transmitter's address.
    pub a2: [u8; 6],
    /// The source's address if the frame comes from the distribution system, the destination's if it goes to
    /// it.
    pub a3: [u8; 6],
    /// The sequence number.
    pub seq: Seq12,
    /// The traffic identifier, below 16.
    pub tid: u8,
    /// Bit 4 of QoS Control. In a frame of an access point: the service period ends with it (EOSP,
    /// 8.2.4.5.3). In a frame of a station: the second octet of QoS Control is a queue size.
    pub eosp: bool,
}
