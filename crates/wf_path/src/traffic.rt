//! The TIM element, which lists the sleeping stations that have traffic.

ghost use Rattle.std.specs.Prelude.{◌≡◌, ◌<◌, ◌≤◌, ℕ, false, length, take, drop, replicate};
ghost use Rattle.wf_frame.specs.Frames.{FrameValue};
ghost use Rattle.wf_def_world.specs.Group.{bss_count};
ghost use Rattle.wf_def_world.specs.World.{World};
ghost use Rattle.wf_def_world.specs.Text.{beacon_map, with_traffic};
ghost use Rattle.wf_send_half_model.specs.Standing.{StandsFor};
ghost use Rattle.wf_path.specs.Addresses.{made_up_aids};
ghost use Rattle.wf_path.specs.Traffic.{is_awaited_of, aids_shown, identifiers, tim_shown, ArePresent};

use crate::Path;
use crate::addresses::AddressBook;
use wf_octets::tim::{Tim, encode_tim};
use wf_send_half::Transmit;

/// The numbers from 0 to the greatest association identifier.
const IDENTIFIERS: usize = 2008;

impl Path {
    /// Writes the TIM element (IEEE 802.11-2012, 8.4.2.7) of the live stations of a BSS that sleep and have
    /// traffic, and returns its length in octets. It has the DTIM count and period of the BSS's latest
    /// beacon, and whether that announced group frames; before the first beacon the count is 0. It shows the
    /// association identifier of each station (`set_aid`), at first s + 1 for station s. The rest of `out`
    /// is unchanged.
    pub fn tim(&self, bss: u8, out: &mut [u8; 256]) -> usize
        requires { bss < bss_count self.now.half.config.bsses }
        ensures octets { (w : World) (bodies : ℕ → FrameValue) → StandsFor self.now.half w bodies →
            take result out.new ≡ beacon_map w bss (aids_shown self.now.addresses bss w) }
        ensures size { (w : World) (bodies : ℕ → FrameValue) → StandsFor self.now.half w bodies →
            result ≡ length (beacon_map w bss (aids_shown self.now.addresses bss w)) }
        ensures rest { drop result out.new ≡ drop result out.old }

        // with the identifiers of a new path it is the element of a run
        ensures made_up { self.now.addresses.aids ≡ made_up_aids → (w : World) (bodies : ℕ → FrameValue) →
            StandsFor self.now.half w bodies →
            take result out.new ≡ beacon_map w bss (with_traffic w bss) }
    {
        let beacon = self.half.beacon(bss);
        let tim = Tim {
            count: beacon.count,
            period: beacon.period,
            group: beacon.announced,
        };
        self.tim_with(tim, bss, out)
    }

    /// Writes the TIM element of a BSS with these fields: for a driver whose hardware counts beacons, or
    /// has a queue for group frames. The TIM of a BSS that does not exist shows no station.
    pub fn tim_with(&self, tim: Tim, bss: u8, out: &mut [u8; 256]) -> usize
        ensures octets { (w : World) (bodies : ℕ → FrameValue) → StandsFor self.now.half w bodies →
            take result out.new ≡ tim_shown tim self.now.addresses bss w }
        ensures size { (w : World) (bodies : ℕ → FrameValue) → StandsFor self.now.half w bodies →
            result ≡ length (tim_shown tim self.now.addresses bss w) }
        ensures rest { drop result out.new ≡ drop result out.old }
    {
        let mut present = [false; IDENTIFIERS];
        mark_present(&self.half, &self.addresses, bss, &mut present);
        encode_tim(&present, tim, out)
    }
}

/// Marks the association identifiers of the stations of a BSS that sleep and have traffic. No entry may be
/// marked before. It returns no array, since that would take twice the stack.
fn mark_present(half: &Transmit, addresses: &AddressBook, bss: u8, present: &mut [bool; 2008])
    requires few { half.now.config.stations ≤ 256 }
    requires none { present.old ≡ replicate identifiers false }
    ensures { ArePresent present.new addresses.now (is_awaited_of half.now bss) half.now.config.stations }
{
    for number in 0..half.config().stations {
        let station = number as u16;
        if half.has_traffic(station) && half.bss(station) == bss {
            present[usize::from(addresses.aid(station))] = true;
        }
    }
}
