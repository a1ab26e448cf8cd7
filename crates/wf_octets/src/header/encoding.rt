ghost use Rattle.std.specs.Prelude.{◌≡◌, ◌<◌, take, drop};
ghost use Rattle.wf_octets.specs.HeaderLayout.{BeginsWithHeader, IsPlain, size_of, header_as_octets, flags_octet, qos_octet};

use crate::fields::{put, two_octets};
use crate::header::{DATA_HEADER_OCTETS, Header};

/// Writes a header with its free bits 0, and returns its size in octets. Octets after the header are
/// unchanged.
pub fn encode(header: &Header, out: &mut [u8; DATA_HEADER_OCTETS]) -> usize
    requires plain { IsPlain header.now }
    ensures size { result ≡ size_of header.now.kind }
    ensures layout { BeginsWithHeader out.new header.now }
    ensures octets { take result out.new ≡ header_as_octets header.now }
    ensures rest { drop result out.new ≡ drop result out.old }
{
    let kind = header.kind;
    let end = put(out, 0, &[kind.first_octet(), flags_octet(header)]);
    let end = put(out, end, &two_octets(header.duration));
    let end = put(out, end, &header.a1);
    if kind.has_address_2() {
        let end = put(out, end, &header.a2);
        if kind.is_qos() {
            let end = put(out, end, &header.a3);
            let end = put(out, end, &two_octets(16 * header.seq.raw()));
            put(out, end, &[qos_octet(header), 0])
        } else {
            end
        }
    } else {
        end
    }
}

/// Returns the second octet of Frame Control.
fn flags_octet(header: &Header) -> u8
    ensures { result ≡ flags_octet header.now }
{
    u8::from(header.to_ds)
        + 2 * u8::from(header.from_ds)
        + 8 * u8::from(header.retry)
        + 16 * u8::from(header.power)
        + 32 * u8::from(header.more)
}

/// Returns the first octet of QoS Control.
fn qos_octet(header: &Header) -> u8
    requires { header.now.tid < 16 }
    ensures { result ≡ qos_octet header.now }
{
    header.tid + 16 * u8::from(header.eosp)
}
