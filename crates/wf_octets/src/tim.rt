//! The TIM element, which says for which sleeping stations frames are buffered (IEEE 802.11-2012, 8.4.2.7).
//!
//! The writer writes the shortest element. The reader returns Ok exactly for octets of the layout, and
//! otherwise the first fault.

ghost use Rattle.std.specs.Prelude.{◌≡◌, ℕ, ◌+◌, ◌*◌, ◌/◌, ◌%◌, ◌<◌, ◌≤◌, Bool, false, List, Some, None, Ok, IfSome, IfOk, OnOk, OnErr, length, slice_index, slice_index_or, take, drop};
ghost use Rattle.wf_octets.specs.Tim.{IsTim, aids_of, ends_of, octets_between, whole_octet, first_octet_of_bitmap};
ghost use Rattle.wf_def_tim.specs.Tim.{map_octet, tim_element, with_group_bit};
ghost use Rattle.wf_octets.specs.Fields.{is_set};
ghost use Rattle.std.specs.Result.{result_err};
ghost use Rattle.wf_octets.specs.TimFaults.{first_tim_fault};
ghost use Rattle.wf_octets.specs.declared.tim.Tim.{Tim};

use crate::fields::{is_set, put};
use thiserror::Error;

/// The size of the whole bitmap in octets.
const WHOLE: usize = 251;

/// The fields of a TIM element without its bitmap.
#[derive(Clone, Copy, Debug, PartialEq, Eq)]
pub struct Tim {
    /// The number of beacons before the next DTIM.
    pub count: u8,
    /// The number of beacons from one DTIM to the next.
    pub period: u8,
    /// Group traffic is buffered.
    pub group: bool,
}

/// The reason why octets are not a TIM element.
#[derive(Clone, Copy, Debug, PartialEq, Eq, Error)]
pub enum TimFault {
    /// There are fewer than six octets.
    #[error("a TIM element in {have} octets")]
    Short {
        /// The number of octets that there are.
        have: usize,
    },
    /// The first octet, the element's number, is not 5.
    #[error("element {0}")]
    Id(u8),
    /// The element's length does not match the number of octets, or the bitmap ends after octet 250.
    #[error("a TIM element of length {said}")]
    Length {
        /// The length in the element.
        said: u8,
    },
}

/// Writes the shortest TIM element with these fields and the association identifiers (AID) that are present,
/// and returns its size in octets. `present[n]` is for AID n. Octets after the element are unchanged.
pub fn encode_tim(present: &[bool], tim: Tim, out: &mut [u8; 256]) -> usize
    requires room { length present.now ≤ 2008 }
    requires no_group { slice_index_or present.now 0 false ≡ false }
    ensures octets { take result out.new ≡
        with_group_bit tim.group (tim_element tim.count tim.period (aids_of present.now)) }
    ensures size { result ≡
        length (with_group_bit tim.group (tim_element tim.count tim.period (aids_of present.now))) }
    ensures rest { drop result out.new ≡ drop result out.old }
    ensures layout { IsTim (take result out.new) tim present.now }
{
    let (bitmap, ends) = bitmap_of(present);
    let (first, last) = octets_of(ends);
    let control = first as u8 + u8::from(tim.group);
    let end = put(
        out,
        0,
        &[5, (last - first + 4) as u8, tim.count, tim.period, control],
    );
    put(out, end, &bitmap[first..last + 1])
}

/// Returns the first and the last octet of the whole bitmap that the element contains: from the greatest even
/// octet below which all are 0 to the last that is not 0.
fn octets_of(ends: Option<(usize, usize)>) -> (usize, usize)
    ensures { result ≡ octets_between ends }
{
    match ends {
        Some((lowest, greatest)) => (2 * (lowest / 16), greatest / 8),
        None => (0, 0),
    }
}

/// Returns the whole bitmap, and the lowest and the greatest AID that is present.
fn bitmap_of(present: &[bool]) -> ([u8; 251], Option<(usize, usize)>)
    requires { length present.now ≤ 2008 }
    ensures octets { (k : ℕ) → k < 251 → slice_index result.0 k ≡ map_octet (aids_of present.now) k }
    ensures ends { result.1 ≡ ends_of (aids_of present.now) }
    ensures within { IfSome result.1 (λ e. (e.0 ≤ e.1) × (e.1 < length present.now)) }
{
    let mut bitmap = [0; WHOLE];
    let mut ends = None;
    for (aid, &here) in present.iter().enumerate() {
        if here {
            bitmap[aid / 8] += 1 << (aid % 8);
            ends = match ends {
                Some((lowest, _)) => Some((lowest, aid)),
                None => Some((aid, aid)),
            };
        }
    }
    (bitmap, ends)
}

/// Reads a TIM element, whose bitmap may begin and end anywhere up to octet 250. Returns its fields, or the
/// first fault, and writes each AID's bit to `present`, which a fault leaves unchanged.
///
/// A station or a monitor can use it; this repository calls it only in tests.
pub fn decode_tim(octets: &[u8], present: &mut [bool; 2008]) -> Result<Tim, TimFault>
    ensures read { IfOk result (λ tim. IsTim octets.now tim present.new) }
    ensures complete { (t : Tim) (aids : List Bool) → length aids ≡ 2008 → IsTim octets.now t aids →
        OnOk result (present.new ≡ aids) }
    ensures told { (t : Tim) (aids : List Bool) → IsTim octets.now t aids → result ≡ Ok t }

    // each fault is the first check that fails; other octets are accepted
    ensures fault { result_err result ≡ first_tim_fault octets.now }
    ensures unchanged { OnErr result (present.new ≡ present.old) }
{
    let have = octets.len();
    if have < 6 {
        return Err(TimFault::Short { have });
    }
    if octets[0] != 5 {
        return Err(TimFault::Id(octets[0]));
    }
    let said = octets[1];
    let first = usize::from(octets[4] / 2) * 2;
    if usize::from(said) + 2 != have || first + (have - 5) > WHOLE {
        return Err(TimFault::Length { said });
    }
    read_stations(octets, first, present);
    Ok(Tim {
        count: octets[2],
        period: octets[3],
        group: is_set(octets[4], 0),
    })
}

/// Reads the bit of each AID. The element's part of the bitmap begins with octet `first` of the whole one.
fn read_stations(octets: &[u8], first: usize, present: &mut [bool; 2008])
    requires { first ≡ first_octet_of_bitmap octets.now }
    ensures { (n : ℕ) → n < 2008 → slice_index_or present.new n false
        ≡ is_set (whole_octet octets.now (n / 8)) (n % 8) }
{
    for (aid, here) in present.iter_mut().enumerate() {
        let octet = whole_octet(octets, first, aid / 8);
        *here = is_set(octet, (aid % 8) as u32);
    }
}

/// Returns octet `k` of the whole bitmap. Octets that the element does not contain are 0.
fn whole_octet(octets: &[u8], first: usize, k: usize) -> u8
    requires first { first ≡ first_octet_of_bitmap octets.now }
    requires room { k < 251 }
    ensures { result ≡ whole_octet octets.now k }
{
    match k.checked_sub(first) {
        Some(place) => octets.get(5 + place).copied().unwrap_or(0),
        None => 0,
    }
}
