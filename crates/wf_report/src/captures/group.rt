//! Encodes beacons and group frames as they are on the air.

ghost use Rattle.std.specs.Prelude.{◌≡◌, ◌+◌, ◌<◌, ◌≤◌, ◌++◌, length, take};
ghost use Rattle.wf_def_world.specs.Group.{bss_count};
ghost use Rattle.wf_frame.specs.Frames.{sample_body};
ghost use Rattle.wf_report.specs.GroupFrames.{group_frame, beacon_head, beacon_frame};
ghost use Rattle.wf_report.specs.Samples.{world_behind};

use crate::captures::standing::numbers;
use crate::standing::traffic;
use wf_cell::Cell;
use wf_frame::{GREATEST_BODY, source_address};
use wf_octets::fields::{put, two_octets};
use wf_octets::header::{GREATEST_MPDU, GroupHeader, base_address, encode_group};
use wf_octets::seq12::Seq12;

/// The address of all stations (IEEE 802.11-2012, 8.2.4.3.4).
const EVERYONE: [u8; 6] = [255; 6];

/// The size of a beacon up to its TIM element, in octets.
const BEACON_HEAD: usize = 48;

/// The greatest size of a beacon in octets: its TIM element has at most 256.
pub(crate) const GREATEST_BEACON: usize = BEACON_HEAD + 256;

/// The fields of a beacon after its Timestamp and before its TIM element: a Beacon Interval of 100 units
/// (8.4.1.3), the Capability Information of a BSS (8.4.1.4), an SSID of no octets (8.4.2.2), and the rates of
/// 6 to 54 Mbit/s (8.4.2.3).
const BEACON_FIELDS: [u8; 16] = [
    0x64, 0x00, 0x01, 0x00, 0x00, 0x00, 0x01, 0x08, 0x8C, 0x12, 0x98, 0x24, 0xB0, 0x48, 0x60, 0x6C,
];

/// Writes a group frame of a trace with this sequence number, this More Data bit and the length of its body,
/// and returns its number of octets. If a body is too long, only the greatest number of octets is written.
pub(crate) fn group_frame(
    number: u16,
    more: bool,
    len: u16,
    octets: &mut [u8; GREATEST_MPDU],
) -> usize
    ensures within { result ≤ 2328 }
    ensures octets { take result octets.new ≡ group_frame number more len }
{
    let header = GroupHeader {
        more,
        group: EVERYONE,
        bss: base_address(),
        source: source_address(),
        seq: Seq12::of(u64::from(number)),
    };
    let place = put(octets, 0, &encode_group(&header));
    put_body(octets, place, len.min(GREATEST_BODY))
}

// Writes the body of a group frame at `place`, and returns the place after it.
fn put_body(octets: &mut [u8], place: usize, len: u16) -> usize
    requires { place + len ≤ length octets.old }
    ensures place { result ≡ place + len }
    ensures octets { take result octets.new ≡ take place octets.old ++ sample_body 0 len }
{
    let mut end = place;
    for j in 0..len {
        end = put(octets, end, &[(j % 256) as u8]);
    }
    end
}

/// Writes the beacon of a BSS that the cell's last call sent, and returns its number of octets.
pub(crate) fn beacon(cell: &Cell, bss: u8, octets: &mut [u8; GREATEST_BEACON]) -> usize
    requires { bss < bss_count (world_behind cell.now).config.bsses }
    ensures within { result ≤ 304 }
    ensures octets { take result octets.new ≡ beacon_frame (world_behind cell.now) bss }
{
    let head = beacon_head(numbers(cell, bss).saturating_sub(1), cell.clock());
    let mut map = [0; 256];
    let len = traffic(cell, bss, &mut map);
    let place = put(octets, 0, &head);
    put(octets, place, &map[..len])
}

// Returns the octets of a beacon up to its TIM element, with this number at this clock.
fn beacon_head(number: u64, clock: u64) -> [u8; 48]
    ensures { result ≡ beacon_head number clock }
{
    let mut out = [0; BEACON_HEAD];
    let end = put(&mut out, 0, &[0x80, 0, 0, 0]);
    let end = put(&mut out, end, &EVERYONE);
    let end = put(&mut out, end, &base_address());
    let end = put(&mut out, end, &base_address());
    let end = put(&mut out, end, &two_octets(16 * Seq12::of(number).raw()));
    let end = put(&mut out, end, &clock.to_le_bytes());
    put(&mut out, end, &BEACON_FIELDS);
    out
}
