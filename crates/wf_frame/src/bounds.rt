//! The bounds of the arguments of calls, and of counts. Section numbers refer to IEEE 802.11-2012. The
//! bounds of settings are `Field::least` and `Field::most`.

/// The greatest window of an agreement, in numbers: the BlockAck's bitmap of 32 octets has a bit for each
/// number (IEEE 802.11ax-2021, 9.3.1.8.2).
pub const GREATEST_WINDOW: u16 = 256;

/// The greatest window of a session that is not wide, in numbers: the BlockAck's bitmap of 8 octets has a
/// bit for each number (8.3.1.9.3).
pub const NARROW_WINDOW: u16 = 64;

/// The greatest first sequence number: sequence numbers have twelve bits (8.2.4.4.2).
pub const GREATEST_START: u16 = 4095;

/// The greatest maximum A-MPDU length exponent (8.4.2.58.3).
pub const GREATEST_EXPONENT: u8 = 3;

/// The least and the greatest number of octets that `ampdu` may state for a station. One subframe of the
/// greatest body with its encryption fits the least, which is this project's own; the greatest is the body
/// of a receiver of HE (IEEE 802.11ax-2021, 26.6.1).
pub const LEAST_AMPDU: u32 = 4_096;

pub const GREATEST_AMPDU: u32 = 6_500_631;

/// The greatest weight of a station, in quanta.
pub const GREATEST_WEIGHT: u8 = 16;

/// The greatest TID that is a user priority (9.2.4.2).
pub const GREATEST_TID: u8 = 7;

/// The greatest number of a set of classes: that of all four.
pub const GREATEST_CLASSES: u8 = 15;

/// The greatest step of the clock in one call, in microseconds.
pub const GREATEST_TICK: u32 = 10_000_000;

/// The greatest airtime of one receive charge, in microseconds.
pub const GREATEST_AIR: u32 = 65_535;

/// The clock and the counts are below this, 2^62.
pub const COUNT_LIMIT: u64 = 1 << 62;
