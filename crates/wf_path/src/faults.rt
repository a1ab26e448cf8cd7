//! The faults of a new path, of an address, of an AID, of a transmission to write, and of a BlockAck that was
//! read.

ghost use Rattle.std.specs.Prelude.{◌≡◌};
ghost use Rattle.wf_path.specs.declared.faults.NewFault.TheVariants.{NoMemory};
ghost use Rattle.wf_path.specs.declared.faults.DoneFault.TheVariants.{Block};

use std::alloc::AllocError;
use thiserror::Error;
use wf_frame::Field;
use wf_octets::block::BlockFault;

/// Why a path was not made.
#[derive(Clone, Copy, Debug, PartialEq, Eq, Error)]
pub enum NewFault {
    /// The first setting that is out of its range.
    #[error("a setting out of its range")]
    BadConfig(Field),
    /// Out of memory.
    #[error("out of memory")]
    NoMemory,
}

impl From<AllocError> for NewFault {
    ghost from_gives = { λ _ e. e ≡ NoMemory };

    fn from(_e: AllocError) -> NewFault {
        NewFault::NoMemory
    }
}

/// Why an address is refused. The variants are in the order of the checks; the first check that fails is
/// reported.
#[derive(Clone, Copy, Debug, PartialEq, Eq, Error)]
pub enum BadAddress {
    /// The station's number is not below the setting `stations`.
    #[error("no such station")]
    NoStation,
    /// There is no BSS of that number.
    #[error("no such BSS")]
    BadBss,
    /// The address is a group's: the lowest bit of its first octet is set (IEEE 802.11-2012, 8.2.4.3).
    #[error("a group's address")]
    Group,
}

/// Why an association identifier (AID) is refused. The variants are in the order of the checks; the first
/// check that fails is reported.
#[derive(Clone, Copy, Debug, PartialEq, Eq, Error)]
pub enum AidFault {
    /// The station's number is not below the setting `stations`.
    #[error("no such station")]
    NoStation,
    /// The AID is 0 or above 2007 (IEEE 802.11-2012, 8.4.1.8).
    #[error("an AID out of its range")]
    BadAid,
}

/// Why a transmission was not written. The variants are in the order of the checks; the first check that
/// fails is reported.
#[derive(Clone, Copy, Debug, PartialEq, Eq, Error)]
pub enum PathFault {
    /// No open exchange has that number.
    #[error("no such exchange")]
    NoExchange,
    /// The exchange has no transmission of that index.
    #[error("no such transmission")]
    BadIndex,
    /// The frame of the transmission is bare.
    #[error("a frame without octets: write its `header`, and send the body from its owner's buffer")]
    NoBody,
    /// The transmission is longer than the buffer.
    #[error("a transmission of {need} octets")]
    SmallBuffer {
        /// The length of the transmission, in octets.
        need: usize,
    },
}

/// Why octets do not end an exchange as its BlockAck. The variants are in the order of the checks; the first
/// check that fails is reported.
#[derive(Clone, Copy, Debug, PartialEq, Eq, Error)]
pub enum DoneFault {
    /// No open exchange has that number.
    #[error("no such exchange")]
    NoExchange,
    /// The octets are no BlockAck that the session takes.
    #[error(transparent)]
    Block(BlockFault),
    /// The BlockAck is not to the access point, or not from the exchange's station.
    #[error("a BlockAck from or to another station")]
    NotMine,
    /// The BlockAck has another traffic identifier.
    #[error("a BlockAck of traffic identifier {found}")]
    WrongTid {
        /// The traffic identifier of the BlockAck.
        found: u8,
    },
}

impl From<BlockFault> for DoneFault {
    ghost from_gives = { λ fault e. e ≡ Block fault };

    fn from(fault: BlockFault) -> DoneFault {
        DoneFault::Block(fault)
    }
}
