//! The reader of a capture file's headers.

ghost use Rattle.std.specs.Prelude.{◌≡◌, ◌+◌, ◌≤◌, IfOk, Ok, Some, length};
ghost use Rattle.wf_io.specs.Capture.{number_in_order, IsHead, packet_in};
ghost use Rattle.std.specs.Result.{result_err};
ghost use Rattle.wf_io.specs.CaptureFaults.{precision_of, form_of, head_fault, packet_fault};
ghost use Rattle.wf_io.specs.declared.pcap.reading.Form.{Form};

use byteorder::{BigEndian, ByteOrder, LittleEndian};

/// The size of a file header in octets.
pub const FILE_HEAD: usize = 24;
/// The size of a packet header in octets.
pub const PACKET_HEAD: usize = 16;
/// The magic number of a file whose times are in microseconds.
pub(crate) const MICROSECONDS: u32 = 0xa1b2_c3d4;
/// The magic number of a file whose times are in nanoseconds.
const NANOSECONDS: u32 = 0xa1b2_3c4d;
/// The version of the format: 2.4.
pub(crate) const MAJOR: u16 = 2;

pub(crate) const MINOR: u16 = 4;
/// The link type of IEEE 802.11 frames without radio fields before them.
pub(crate) const FRAMES: u32 = 105;
/// The greatest number of captured octets of a packet.
pub const MOST_CAPTURED: u32 = 262_144;

/// How a capture file writes numbers and times.
#[derive(Clone, Copy, Debug, PartialEq, Eq)]
pub struct Form {
    /// Numbers are big-endian.
    pub big: bool,
    /// Fractions of a second are in nanoseconds, not in microseconds.
    pub nanos: bool,
}

/// A packet header.
#[derive(Clone, Copy, Debug, PartialEq, Eq)]
pub struct Packet {
    /// When the packet was captured, in whole seconds.
    pub seconds: u32,
    /// The fraction of a second after that, in the file's microseconds or nanoseconds.
    pub fraction: u32,
    /// The number of octets that follow the header, at most 262,144.
    pub captured: u32,
    /// The number of octets that the packet had on the air.
    pub original: u32,
}

/// The reason why octets are not a header of a capture file of frames.
#[derive(Clone, Copy, Debug, PartialEq, Eq)]
pub enum PcapFault {
    /// There are fewer octets than the header has.
    Short {
        /// The size of the header: 24 octets of a file, 16 of a packet.
        need: usize,
        /// The number of octets that there are.
        have: usize,
    },
    /// The first number is not a magic number in either byte order.
    Magic,
    /// The version is not 2.4.
    Version {
        /// The first number of the version.
        major: u16,
        /// The second number of the version.
        minor: u16,
    },
    /// The low 16 bits of the link type field are not 105. The value is the whole field.
    Link(u32),
    /// The number of captured octets exceeds 262,144.
    Long {
        /// The number of captured octets in the header.
        captured: u32,
    },
}

/// Reads the header at the beginning of a capture file, and returns its form or the first fault. It ignores
/// zone, accuracy and snap length, and octets after the header.
pub fn read_head(octets: &[u8]) -> Result<Form, PcapFault>
    ensures read { IfOk result (λ form. IsHead octets.now form) }
    ensures complete { (form : Form) → IsHead octets.now form → result ≡ Ok form }
    ensures form { IfOk result (λ form. form_of octets.now ≡ Some form) }

    // each fault is the first check that fails; other octets are accepted
    ensures fault { result_err result ≡ head_fault octets.now }
{
    let have = octets.len();
    if have < FILE_HEAD {
        return Err(PcapFault::Short {
            need: FILE_HEAD,
            have,
        });
    }
    let Some(form) = form_at(octets) else {
        return Err(PcapFault::Magic);
    };
    let major = two_at(form.big, octets, 4);
    let minor = two_at(form.big, octets, 6);
    if major != MAJOR || minor != MINOR {
        return Err(PcapFault::Version { major, minor });
    }
    let link = four_at(form.big, octets, 20);
    if link % 0x1_0000 != FRAMES {
        return Err(PcapFault::Link(link));
    }
    Ok(form)
}

/// Reads the header at the beginning of a packet, in the form of its file. Returns its fields or the first
/// fault. It ignores octets after the header.
pub fn read_packet(form: Form, octets: &[u8]) -> Result<Packet, PcapFault>
    ensures read { IfOk result (λ packet. packet ≡ packet_in form octets.now) }

    // each fault is the first check that fails; other octets are accepted
    ensures fault { result_err result ≡ packet_fault form octets.now }
{
    let have = octets.len();
    if have < PACKET_HEAD {
        return Err(PcapFault::Short {
            need: PACKET_HEAD,
            have,
        });
    }
    let captured = four_at(form.big, octets, 8);
    if captured > MOST_CAPTURED {
        return Err(PcapFault::Long { captured });
    }
    Ok(Packet {
        seconds: four_at(form.big, octets, 0),
        fraction: four_at(form.big, octets, 4),
        captured,
        original: four_at(form.big, octets, 12),
    })
}

// Returns the form that the magic number determines, if it is one.
fn form_at(octets: &[u8]) -> Option<Form>
    requires { 4 ≤ length octets.now }
    ensures { result ≡ form_of octets.now }
{
    if let Some(nanos) = precision(four_at(false, octets, 0)) {
        return Some(Form { big: false, nanos });
    }
    let nanos = precision(four_at(true, octets, 0))?;
    Some(Form { big: true, nanos })
}

// Returns whether a magic number means nanoseconds, if it is a magic number.
fn precision(magic: u32) -> Option<bool>
    ensures { result ≡ precision_of magic }
{
    match magic {
        MICROSECONDS => Some(false),
        NANOSECONDS => Some(true),
        _ => None,
    }
}

// Returns the number in the two octets at a place.
fn two_at(big: bool, octets: &[u8], place: usize) -> u16
    requires { place + 2 ≤ length octets.now }
    ensures { result ≡ number_in_order big 2 octets.now place }
{
    let field = &octets[place..];
    if big {
        BigEndian::read_u16(field)
    } else {
        LittleEndian::read_u16(field)
    }
}

// Returns the number in the four octets at a place.
fn four_at(big: bool, octets: &[u8], place: usize) -> u32
    requires { place + 4 ≤ length octets.now }
    ensures { result ≡ number_in_order big 4 octets.now place }
{
    let field = &octets[place..];
    if big {
        BigEndian::read_u32(field)
    } else {
        LittleEndian::read_u32(field)
    }
}
