//! Why a station refuses octets off the air.

ghost use Rattle.std.specs.Prelude.{◌≡◌};
ghost use Rattle.wf_recv_peer.specs.declared.fault.PeerFault.TheVariants.{Header, Block};

use thiserror::Error;
use wf_octets::block::BlockFault;
use wf_octets::header::HeaderFault;

/// Why octets off the air are no frame for the station. The variants are in the order of the checks; the
/// first check that fails is the fault.
#[derive(Clone, Copy, Debug, PartialEq, Eq, Error)]
pub enum PeerFault {
    /// The octets begin with no header.
    #[error(transparent)]
    Header(HeaderFault),
    /// The frame is neither QoS Data nor a BlockAckReq. Contains its first octet.
    #[error("a frame that is neither data nor a request, {0:#04x}")]
    Kind(u8),
    /// The first octet belongs to a BlockAckReq, but the frame is none.
    #[error(transparent)]
    Block(BlockFault),
    /// Address 1 is not the station's, or Address 2 is not the access point's.
    #[error("a frame from or to another station")]
    NotMine,
    /// The TID is above 7. Contains the TID.
    #[error("traffic identifier {0}, past 7")]
    Tid(u8),
}

impl From<HeaderFault> for PeerFault {
    ghost from_gives = { λ fault e. e ≡ Header fault };

    fn from(fault: HeaderFault) -> PeerFault {
        PeerFault::Header(fault)
    }
}

impl From<BlockFault> for PeerFault {
    ghost from_gives = { λ fault e. e ≡ Block fault };

    fn from(fault: BlockFault) -> PeerFault {
        PeerFault::Block(fault)
    }
}
