//! The writer of capture files, which are little-endian and in microseconds.

ghost use Rattle.std.specs.Prelude.{◌≡◌, ℕ, ◌≤◌, length, take, OnOk};
ghost use Rattle.std.specs.Io.KnownBytes.{append_known};
ghost use Rattle.wf_io.specs.Faults.{CountsFaults};
ghost use Rattle.wf_io.specs.Capture.{file_head_octets, packet_head, packet_octets};

use crate::pcap::reading::{FILE_HEAD, FRAMES, MAJOR, MICROSECONDS, MINOR, PACKET_HEAD};
use crate::{Failed, Sink, write_all};
use byteorder::{ByteOrder, LittleEndian};

/// The greatest size of a packet in octets, as the file header states it.
const SNAP_LENGTH: u32 = 65_535;

/// Writes the header of a capture file. After a fault, a prefix of it has been written.
pub fn write_head<K: Sink>(sink: &mut K) -> Result<(), Failed>
    ensures written { OnOk result (K.held sink.new ≡ append_known (K.held sink.old) file_head_octets) }
    ensures prefix { (n : ℕ) × (n ≤ length file_head_octets)
        × (K.held sink.new ≡ append_known (K.held sink.old) (take n file_head_octets)) }
    ensures cause { CountsFaults (K.faults sink.old) (K.faults sink.new) result }
{
    write_all(sink, &head())
}

/// Writes a packet that was captured as a whole, at a time in microseconds: its header and its octets. The
/// header has 32 bits for the seconds, so 0 follows 4,294,967,295. After a fault, a prefix of the packet has
/// been written.
pub fn write_packet<K: Sink>(sink: &mut K, at: u64, octets: &[u8]) -> Result<(), Failed>
    requires some { 1 ≤ length octets.now }
    requires most { length octets.now ≤ 65535 }
    ensures written { OnOk result (K.held sink.new
        ≡ append_known (K.held sink.old) (packet_octets at octets.now)) }
    ensures prefix { (n : ℕ) × (n ≤ length (packet_octets at octets.now))
        × (K.held sink.new ≡ append_known (K.held sink.old) (take n (packet_octets at octets.now))) }
    ensures cause { CountsFaults (K.faults sink.old) (K.faults sink.new) result }
{
    write_all(sink, &packet_head(at, octets.len() as u32))?;
    write_all(sink, octets)
}

// Returns the file header.
fn head() -> [u8; FILE_HEAD]
    ensures { result ≡ file_head_octets }
{
    let mut head = [0; FILE_HEAD];
    LittleEndian::write_u32(&mut head, MICROSECONDS);
    LittleEndian::write_u16(&mut head[4..], MAJOR);
    LittleEndian::write_u16(&mut head[6..], MINOR);
    LittleEndian::write_u32(&mut head[16..], SNAP_LENGTH);
    LittleEndian::write_u32(&mut head[20..], FRAMES);
    head
}

// Returns the header of a packet of `count` octets.
#[tactic(auto, using(crate::proofs::CaptureSeconds::seconds_wrap))]
fn packet_head(at: u64, count: u32) -> [u8; PACKET_HEAD]
    ensures { result ≡ packet_head at count }
{
    let mut head = [0; PACKET_HEAD];
    LittleEndian::write_u32(&mut head, (at / 1_000_000 % (1 << 32)) as u32);
    LittleEndian::write_u32(&mut head[4..], (at % 1_000_000) as u32);
    LittleEndian::write_u32(&mut head[8..], count);
    LittleEndian::write_u32(&mut head[12..], count);
    head
}
