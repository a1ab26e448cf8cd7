ghost use Rattle.std.specs.Prelude.{◌≡◌, ◌≤◌, length, slice_index, IfOk, Ok, true, false};
ghost use Rattle.wf_octets.specs.HeaderLayout.{BeginsWithHeader, IsPlain, size_of, is_qos, first_octet};
ghost use Rattle.std.specs.Result.{result_err};
ghost use Rattle.wf_octets.specs.HeaderFaults.{first_header_fault, is_malformed};
ghost use Rattle.wf_octets.specs.declared.header.header.Header.{Header};

use crate::fields::{address_at, is_set, number_at};
use crate::header::{Header, Kind};
use crate::seq12::Seq12;
use thiserror::Error;

/// The offsets of a header's fields in octets (8.2.4): the second octet of Frame Control, Duration, the
/// addresses, and Sequence Control and QoS Control of a QoS frame.
const FLAGS_AT: usize = 1;

const DURATION_AT: usize = 2;

const ADDRESS_1_AT: usize = 4;

const ADDRESS_2_AT: usize = 10;

const ADDRESS_3_AT: usize = 16;

const SEQUENCE_AT: usize = 22;

const QOS_AT: usize = 24;

/// The reason why octets do not begin with a header.
#[derive(Clone, Copy, Debug, PartialEq, Eq, Error)]
pub enum HeaderFault {
    /// There are fewer octets than Frame Control has, or than a header of this kind has.
    #[error("a header of {need} octets in {have}")]
    Short {
        /// The number of octets that are needed.
        need: usize,
        /// The number of octets that there are.
        have: usize,
    },
    /// The protocol version is not 0.
    #[error("protocol version {0}")]
    Version(u8),
    /// No kind has this first octet.
    #[error("a frame of another kind, {0:#04x}")]
    Kind(u8),
    /// A QoS frame has both DS flags, More Fragments, Protected, Order, a fragment number or an A-MSDU.
    #[error("a frame of another form")]
    Form,
}

/// Reads the header at the beginning of `octets`. Returns it with its size in octets, or the first fault.
pub fn decode(octets: &[u8]) -> Result<(Header, usize), HeaderFault>
    ensures read { IfOk result (λ read. BeginsWithHeader octets.now read.0) }
    ensures plain { IfOk result (λ read. IsPlain read.0) }
    ensures size { IfOk result (λ read. read.1 ≡ size_of read.0.kind) }
    ensures complete { (h : Header) → BeginsWithHeader octets.now h → result ≡ Ok (h, size_of h.kind) }

    // each fault is the first check that fails; other octets are accepted
    ensures fault { result_err result ≡ first_header_fault octets.now }
{
    let have = octets.len();
    if have < 2 {
        return Err(HeaderFault::Short { need: 2, have });
    }
    let version = octets[0] % 4;
    if version != 0 {
        return Err(HeaderFault::Version(version));
    }
    let Some(kind) = Kind::of_first_octet(octets[0]) else {
        return Err(HeaderFault::Kind(octets[0]));
    };
    let need = kind.size();
    if have < need {
        return Err(HeaderFault::Short { need, have });
    }
    if !kind.is_qos() {
        return Ok((short_header(kind, octets), need));
    }
    if is_malformed(octets) {
        return Err(HeaderFault::Form);
    }
    Ok((qos_header(kind, octets), need))
}

/// Returns whether a QoS header has a flag or a number that this project does not support.
fn is_malformed(octets: &[u8]) -> bool
    requires { 26 ≤ length octets.now }
    ensures { result ≡ is_malformed octets.now }
{
    let flags = octets[FLAGS_AT];
    is_set(flags, 0) && is_set(flags, 1)
        || is_set(flags, 2)
        || is_set(flags, 6)
        || is_set(flags, 7)
        || number_at(octets, SEQUENCE_AT) % 16 != 0
        || is_set(octets[QOS_AT], 7)
}

/// Returns the header of a QoS frame.
fn qos_header(kind: Kind, octets: &[u8]) -> Header
    requires long { 26 ≤ length octets.now }
    requires qos { is_qos kind ≡ true }
    requires first { slice_index octets.now 0 ≡ first_octet kind }
    requires formed { is_malformed octets.now ≡ false }
    ensures kind { result.kind ≡ kind }
    ensures read { BeginsWithHeader octets.now result }
{
    let flags = octets[FLAGS_AT];
    Header {
        kind,
        to_ds: is_set(flags, 0),
        from_ds: is_set(flags, 1),
        retry: is_set(flags, 3),
        power: is_set(flags, 4),
        more: is_set(flags, 5),
        duration: number_at(octets, DURATION_AT),
        a1: address_at(octets, ADDRESS_1_AT),
        a2: address_at(octets, ADDRESS_2_AT),
        a3: address_at(octets, ADDRESS_3_AT),
        seq: Seq12::of(u64::from(number_at(octets, SEQUENCE_AT) / 16)),
        tid: octets[QOS_AT] % 16,
        eosp: is_set(octets[QOS_AT], 4),
    }
}

/// Returns the header of a frame that is not a QoS frame.
fn short_header(kind: Kind, octets: &[u8]) -> Header
    requires long { size_of kind ≤ length octets.now }
    requires short { is_qos kind ≡ false }
    requires first { slice_index octets.now 0 ≡ first_octet kind }
    ensures kind { result.kind ≡ kind }
    ensures read { BeginsWithHeader octets.now result }
{
    Header {
        kind,
        to_ds: false,
        from_ds: false,
        retry: false,
        power: false,
        more: false,
        duration: number_at(octets, DURATION_AT),
        a1: address_at(octets, ADDRESS_1_AT),
        a2: if kind.has_address_2() {
            address_at(octets, ADDRESS_2_AT)
        } else {
            [0; 6]
        },
        a3: [0; 6],
        seq: Seq12::of(0),
        tid: 0,
        eosp: false,
    }
}
