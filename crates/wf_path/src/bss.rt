//! The BSSs of a path, and the association identifiers (AID) of its stations.

ghost use Rattle.std.specs.Prelude.{◌≡◌, ◌≤◌, ℕ, OnOk, OnErr};
ghost use Rattle.std.specs.Result.{result_err};
ghost use Rattle.wf_frame.specs.Frames.{FrameValue};
ghost use Rattle.wf_def_world.specs.Group.{bss_count};
ghost use Rattle.wf_def_world.specs.World.{World, station as world_station};
ghost use Rattle.wf_send_half_model.specs.Standing.{StandsFor};
ghost use Rattle.wf_path.specs.Addresses.{bss_in, aid_in, with_bss, with_aid, bss_fault, aid_fault};
ghost use Rattle.wf_path.specs.Traffic.{bss_of};

use crate::addresses::check_group;
use crate::{AidFault, BadAddress, Path};

/// The greatest AID (IEEE 802.11-2012, 8.4.1.8).
const GREATEST_AID: u16 = 2007;

impl Path {
    /// Returns the number of BSSs, 1 to 16: the setting `bsses`, or 1 if that is 0. Their numbers are below
    /// it.
    pub fn bss_count(&self) -> u32
        ensures value { result ≡ bss_count self.now.half.config.bsses }
        ensures world { (w : World) (bodies : ℕ → FrameValue) → StandsFor self.now.half w bodies →
            result ≡ bss_count w.config.bsses }
        ensures range { (1 ≤ result) × (result ≤ 16) }
    {
        self.half.bss_count()
    }

    /// Returns the number of a station's BSS (`PathAsk::Bss`). That of a station that is not live is 0.
    pub fn bss(&self, station: u16) -> u8
        ensures value { result ≡ bss_of self.now.half station }
        ensures world { (w : World) (bodies : ℕ → FrameValue) → StandsFor self.now.half w bodies →
            result ≡ (world_station w station).bss }
    {
        self.half.bss(station)
    }

    /// Returns the access point's address (BSSID) in a BSS: that of `set_bss_address`, or `base`.
    pub fn bss_address(&self, bss: u8) -> [u8; 6]
        ensures { result ≡ bss_in self.now.addresses bss }
    {
        self.addresses.bss(bss)
    }

    /// Sets the access point's address (BSSID) in a BSS; then `set_base` no longer changes it.
    /// Frames of the BSS have it: those to and from its stations, and its group frames. Refused as BadBss if
    /// there is no BSS of that number, then as Group if the address is a group's.
    pub fn set_bss_address(&mut self, bss: u8, address: [u8; 6]) -> Result<(), BadAddress>
        ensures fault { result_err result ≡ bss_fault self.old.half.config.bsses bss address }
        ensures set { OnOk result (self.new ≡ record self.old {
          addresses = with_bss self.old.addresses bss address;
        }) }
        ensures kept { OnOk result (bss_in self.new.addresses bss ≡ address) }
        ensures unchanged { OnErr result (self.new ≡ self.old) }
    {
        if u32::from(bss) >= self.half.bss_count() {
            return Err(BadAddress::BadBss);
        }
        check_group(address)?;
        self.addresses.set_bss(bss, address);
        Ok(())
    }

    /// Sets the AID of a station, live or not, which the TIM shows; a join or a leave changes none. A new
    /// path has the station's number plus 1. Stations may share an AID: the TIM shows it if one of them has
    /// traffic. A driver gives each live station of a BSS its own. Refused as NoStation if the number is not
    /// below the setting `stations`, then as BadAid if the AID is not 1 to 2007 (IEEE 802.11-2012, 8.4.1.8).
    pub fn set_aid(&mut self, station: u16, aid: u16) -> Result<(), AidFault>
        ensures fault { result_err result ≡ aid_fault self.old.half.config.stations station aid }
        ensures set { OnOk result (self.new ≡ record self.old {
          addresses = with_aid self.old.addresses station aid;
        }) }
        ensures kept { OnOk result (aid_in self.new.addresses station ≡ aid) }
        ensures unchanged { OnErr result (self.new ≡ self.old) }
    {
        if u32::from(station) >= self.half.config().stations {
            return Err(AidFault::NoStation);
        }
        if aid == 0 || aid > GREATEST_AID {
            return Err(AidFault::BadAid);
        }
        self.addresses.set_aid(station, aid);
        Ok(())
    }
}
