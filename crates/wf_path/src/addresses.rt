//! The addresses of a path, and the association identifiers (AID) of its stations.

ghost use Rattle.std.specs.Prelude.{◌≡◌, ◌<◌, Some, IfOk, OnOk, OnErr};
ghost use Rattle.std.specs.Result.{result_err};
ghost use Rattle.wf_path.specs.Addresses.{made_up, address_in, bss_in, aid_in, IsAid, with_base, with_address, with_bss, with_aid, address_told, group_fault, set_fault};

use crate::{BadAddress, Path};
use std::alloc::{AllocError, Global};
use std::marker::Model;
use wf_octets::header::{base_address, station_address};

/// The station numbers, 0 to 255.
const NUMBERS: u16 = 256;

/// The BSS numbers, 0 to 15.
const BSSES: usize = 16;

/// The access point's address, that of each BSS, and for each station number the station's and its AID.
#[derive(Drop)]
pub(crate) struct AddressBook {
    base: [u8; 6],
    /// By station number.
    stations: Vec<[u8; 6]>,
    /// The access point's address in a BSS, by BSS number. None means `base`.
    bsses: [Option<[u8; 6]>; BSSES],
    /// By station number, each 1 to 2007.
    aids: Vec<u16>,
}

impl Model for AddressBook {
    ghost use Rattle.std.specs.Prelude.{◌≡◌, ◌<◌, ℕ, length, slice_index_or};
    ghost use Rattle.wf_path.specs.Addresses.{Addresses, station_numbers, IsAid, HasAids, aid_of_station};

    ghost Value = { Addresses };

    ghost view = { λ b. record {
      base = b.base;
      stations = b.stations.items;
      bsses = b.bsses;
      aids = b.aids.items;
    } };

    ghost invariant = { λ b. (length b.stations.items ≡ station_numbers) × HasAids b.aids.items };
}

impl AddressBook {
    // Makes the placeholder addresses.
    pub(crate) fn new(alloc: Global) -> Result<AddressBook, AllocError>
        ensures { IfOk result (λ made. made ≡ made_up) }
    {
        let mut stations = Vec::new(alloc);
        let mut aids = Vec::new(alloc);
        for station in 0..NUMBERS {
            stations.push(station_address(station))?;
            aids.push(station + 1)?;
        }
        Ok(AddressBook {
            base: base_address(),
            stations,
            bsses: [None; BSSES],
            aids,
        })
    }

    // Returns the access point's address.
    pub(crate) fn base(&self) -> [u8; 6]
        ensures { result ≡ self.now.base }
    {
        self.base
    }

    // Returns a station's address.
    pub(crate) fn of(&self, station: u16) -> [u8; 6]
        ensures { result ≡ address_in self.now station }
    {
        match self.stations.get(usize::from(station)) {
            Some(address) => *address,
            None => station_address(station),
        }
    }

    // Returns the access point's address in a BSS.
    pub(crate) fn bss(&self, bss: u8) -> [u8; 6]
        ensures { result ≡ bss_in self.now bss }
    {
        match self.bsses.get(usize::from(bss)) {
            Some(Some(address)) => *address,
            _ => self.base,
        }
    }

    // Returns a station's AID.
    pub(crate) fn aid(&self, station: u16) -> u16
        requires { station < 256 }
        ensures value { result ≡ aid_in self.now station }
        ensures range { IsAid result }
    {
        self.aids[usize::from(station)]
    }

    // Replaces the access point's address.
    fn set_base(&mut self, address: [u8; 6])
        ensures { self.new ≡ with_base self.old address }
    {
        self.base = address;
    }

    // Replaces a station's address.
    fn set(&mut self, station: u16, address: [u8; 6])
        requires { station < 256 }
        ensures set { self.new ≡ with_address self.old station address }
        ensures kept { address_in self.new station ≡ address }
    {
        self.stations[usize::from(station)] = address;
    }

    // Replaces the access point's address in a BSS.
    pub(crate) fn set_bss(&mut self, bss: u8, address: [u8; 6])
        requires { bss < 16 }
        ensures set { self.new ≡ with_bss self.old bss address }
        ensures kept { bss_in self.new bss ≡ address }
    {
        self.bsses[usize::from(bss)] = Some(address);
    }

    // Replaces a station's AID.
    pub(crate) fn set_aid(&mut self, station: u16, aid: u16)
        requires within { station < 256 }
        requires range { IsAid aid }
        ensures set { self.new ≡ with_aid self.old station aid }
        ensures kept { aid_in self.new station ≡ aid }
    {
        self.aids[usize::from(station)] = aid;
    }
}

// Refuses an address that is a group's.
pub(crate) fn check_group(address: [u8; 6]) -> Result<(), BadAddress>
    ensures { result_err result ≡ group_fault address }
{
    if address[0] % 2 == 1 {
        return Err(BadAddress::Group);
    }
    Ok(())
}

impl Path {
    /// Returns the access point's address, which sends the transmissions and receives the BlockAcks, except
    /// those of a BSS whose address was set (`set_bss_address`). A new path has 02:00:00:00:00:00.
    pub fn base(&self) -> [u8; 6]
        ensures { result ≡ self.now.addresses.base }
    {
        self.addresses.base()
    }

    /// Returns a station's address. A new path has 02:00:00:01:hh:ll, with the two octets of the station's
    /// number. None exactly if the number is not below the setting `stations`.
    pub fn address(&self, station: u16) -> Option<[u8; 6]>
        ensures { result ≡ address_told self.now.half.config.stations self.now.addresses station }
    {
        if u32::from(station) < self.half.config().stations {
            Some(self.addresses.of(station))
        } else {
            None
        }
    }

    /// Sets the access point's address. Refused as Group if it is a group's: the lowest bit of its first
    /// octet is set (IEEE 802.11-2012, 8.2.4.3).
    pub fn set_base(&mut self, address: [u8; 6]) -> Result<(), BadAddress>
        ensures fault { result_err result ≡ group_fault address }
        ensures set { OnOk result (self.new ≡ record self.old {
          addresses = with_base self.old.addresses address;
        }) }
        ensures unchanged { OnErr result (self.new ≡ self.old) }
    {
        check_group(address)?;
        self.addresses.set_base(address);
        Ok(())
    }

    /// Sets a station's address, whether the station is live or not; a join or a leave changes no address.
    /// The caller ensures that no two live stations have the same address. Refused as NoStation if the number
    /// is not below the setting `stations`, then as Group if the address is a group's.
    pub fn set_address(&mut self, station: u16, address: [u8; 6]) -> Result<(), BadAddress>
        ensures fault { result_err result ≡ set_fault self.old.half.config.stations station address }
        ensures set { OnOk result (self.new ≡ record self.old {
          addresses = with_address self.old.addresses station address;
        }) }
        ensures kept { OnOk result (address_in self.new.addresses station ≡ address) }
        ensures unchanged { OnErr result (self.new ≡ self.old) }
    {
        if u32::from(station) >= self.half.config().stations {
            return Err(BadAddress::NoStation);
        }
        check_group(address)?;
        self.addresses.set(station, address);
        Ok(())
    }
}
