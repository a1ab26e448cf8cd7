//! The checks of a received frame or BlockAckReq that depend only on its octets.

ghost use Rattle.std.specs.Prelude.{◌≡◌, ◌<◌, ◌≤◌, ◌+◌, ◌&&◌, nat_lt, None, Some, IfOk, length, if◌then◌else◌};
ghost use Rattle.std.specs.Option.{option_or};
ghost use Rattle.std.specs.Str.{bytes_eq};
ghost use Rattle.wf_def_lists.specs.Lengths.{greatest_body};
ghost use Rattle.wf_octets.specs.Addresses.{base, address_of_station};
ghost use Rattle.wf_octets.specs.HeaderLayout.{BeginsWithHeader};
ghost use Rattle.wf_octets.specs.declared.header.header.Kind.TheVariants.{QosData};
ghost use Rattle.wf_uplink.specs.Frames.{address_number, header_fault, kind_fault, length_fault};
ghost use Rattle.wf_octets.specs.BlockLayout.{IsBar};
ghost use Rattle.wf_uplink.specs.Requests.{request_tid, request_start, request_header_fault, request_kind_fault, request_form_fault};
ghost use Rattle.std.specs.Result.{result_err};

use crate::fault::{RequestFault, UplinkFault};
use wf_frame::GREATEST_BODY;
use wf_octets::block::{Bar, decode_bar};
use wf_octets::header::{Header, Kind, base_address, decode, station_address};

/// Returns the header of a data frame, or the first fault.
pub(crate) fn data_header(octets: &[u8]) -> Result<Header, UplinkFault>
    ensures fault { result_err result ≡ option_or (header_fault octets.now) (kind_fault octets.now) }
    ensures read { IfOk result (λ header. BeginsWithHeader octets.now header) }
    ensures kind { IfOk result (λ header. header.kind ≡ QosData) }
{
    let (header, _) = decode(octets).map_err(UplinkFault::Header)?;
    if header.kind != Kind::QosData {
        return Err(UplinkFault::Kind(octets[0]));
    }
    Ok(header)
}

/// Returns whether a frame goes from the station to the access point.
pub(crate) fn is_from(header: &Header, station: u16) -> bool
    ensures { result ≡
        (header.now.to_ds && bytes_eq header.now.a1 base &&
        bytes_eq header.now.a2 (address_of_station station)) }
{
    header.to_ds && header.a1 == base_address() && header.a2 == station_address(station)
}

/// Returns the number in the last two octets of Address 2, the high one first.
pub(crate) fn sender_of(header: &Header) -> u16
    ensures { result ≡ address_number header.now.a2 }
{
    u16::from_be_bytes([header.a2[4], header.a2[5]])
}

/// Checks the TID and the length, and returns the size of the body in octets.
pub(crate) fn body_of(tid: u8, octets: &[u8]) -> Result<u32, UplinkFault>
    requires { 26 ≤ length octets.now }
    ensures fault { result_err result ≡
        option_or (if nat_lt tid 8 then None else Some (UplinkFault.Tid tid)) (length_fault octets.now) }
    ensures body { IfOk result (λ body. body + 26 ≡ length octets.now) }
    ensures small { IfOk result (λ body. body ≤ greatest_body) }
    ensures tid { IfOk result (λ body. tid < 8) }
{
    if tid > 7 {
        return Err(UplinkFault::Tid(tid));
    }
    let have = octets.len() - Kind::QosData.size();
    if have < 1 || have > usize::from(GREATEST_BODY) {
        return Err(UplinkFault::Length { have });
    }
    Ok(have as u32)
}

/// Returns a BlockAckReq, or the first fault of its octets.
pub(crate) fn request_in(octets: &[u8]) -> Result<Bar, RequestFault>
    ensures fault { result_err result ≡
        option_or (request_header_fault octets.now)
        (option_or (request_kind_fault octets.now) (request_form_fault octets.now)) }
    ensures read { IfOk result (λ bar. IsBar octets.now bar) }
    ensures tid { IfOk result (λ bar. bar.tid ≡ request_tid octets.now) }
    ensures start { IfOk result (λ bar. bar.start ≡ request_start octets.now) }
    ensures long { IfOk result (λ _. length octets.now ≡ 20) }
{
    let (header, _) = decode(octets).map_err(RequestFault::Header)?;
    if header.kind != Kind::BlockAckReq {
        return Err(RequestFault::Kind(octets[0]));
    }
    decode_bar(octets).map_err(RequestFault::Form)
}

/// Returns whether a BlockAckReq goes from the station to the access point.
pub(crate) fn is_request_from(bar: &Bar, station: u16) -> bool
    ensures { result ≡
        (bytes_eq bar.now.ra base && bytes_eq bar.now.ta (address_of_station station)) }
{
    bar.ra == base_address() && bar.ta == station_address(station)
}

/// Returns the number in the last two octets of the transmitter's address, the high one first.
pub(crate) fn requester_of(bar: &Bar) -> u16
    ensures { result ≡ address_number bar.now.ta }
{
    u16::from_be_bytes([bar.ta[4], bar.ta[5]])
}
