//! The flags: which stations are ready, by class.

ghost use Rattle.std.specs.Prelude.{◌≡◌, ◌<◌, length, IfOk};
ghost use Rattle.std.specs.List.{list_any};
ghost use Rattle.wf_send_half_model.specs.Half.{is_ready_of};
ghost use Rattle.wf_send_half.specs.Flags.{all_down, flags_in, with_flag, with_flags, FlagsHaveRoom};

use crate::half::Half;
use std::alloc::{AllocError, Global};
use std::marker::Model;
use wf_frame::Class;

/// For each class and station, whether the station is ready in the class.
#[derive(Drop)]
pub(crate) struct Ready {
    /// By class, the least urgent first, then by station.
    flags: [Vec<bool>; 4],
    /// By class, the number of flags that are up.
    counts: [u32; 4],
}

impl Model for Ready {
    ghost use Rattle.std.specs.Prelude.{◌≡◌, Bool, length, map};
    ghost use Rattle.std.specs.declared.alloc.Global.{Global};
    ghost use Rattle.std.specs.declared.vec.Vec.{Vec};
    ghost use Rattle.wf_send_half.specs.Flags.{Flags, AreCounts};

    ghost Value = { Flags };

    ghost view = { λ r. map (λ (v : Vec Bool Global). v.items) r.flags };

    ghost invariant = { λ r. AreCounts (map (λ (v : Vec Bool Global). v.items) r.flags) r.counts };
}

impl Ready {
    // Makes flags that are all down.
    pub(crate) fn new(alloc: Global, stations: u32) -> Result<Ready, AllocError>
        ensures { IfOk result (λ made. made ≡ all_down stations) }
    {
        let count = stations as usize;
        Ok(Ready {
            flags: [
                vec![in alloc; false; count]?,
                vec![in alloc; false; count]?,
                vec![in alloc; false; count]?,
                vec![in alloc; false; count]?,
            ],
            counts: [0; 4],
        })
    }

    // Returns the flags of a class, by station.
    pub(crate) fn of(&self, class: Class) -> &[bool]
        ensures { result.now ≡ flags_in self.now class }
    {
        self.flags[class.number()].as_slice()
    }

    // Returns whether some station is ready in a class. Constant time.
    pub(crate) fn has_any(&self, class: Class) -> bool
        ensures { result ≡ list_any (λ up. up) (flags_in self.now class) }
    {
        self.counts[class.number()] > 0
    }

    // Sets the flag of a station in a class.
    pub(crate) fn set(&mut self, station: u16, class: Class, is_ready: bool)
        requires room { station < length (flags_in self.old class) }
        ensures { self.new ≡ with_flag self.old class station is_ready }
    {
        let place = class.number();
        let flag = &mut self.flags[place][usize::from(station)];
        if *flag == is_ready {
            return;
        }
        *flag = is_ready;
        if is_ready {
            self.counts[place] += 1;
        } else {
            self.counts[place] -= 1;
        }
    }

    // Sets the flag of a station in a class as the half has it, unless it is `known`, which is set already.
    pub(crate) fn set_other(&mut self, half: &Half, station: u16, class: Class, known: (u16, Class))
        requires within { station < half.now.config.stations }
        requires room { station < length (flags_in self.old class) }
        requires known { with_flag self.old known.1 known.0 (is_ready_of half.now known.1 known.0)
            ≡ self.old }
        ensures { self.new ≡ with_flag self.old class station (is_ready_of half.now class station) }
    {
        if station == known.0 && class == known.1 {
            return;
        }
        self.set(station, class, half.is_ready(station, class));
    }

    // Sets the four flags of a station as the half has them.
    pub(crate) fn set_all(&mut self, half: &Half, station: u16)
        requires within { station < half.now.config.stations }
        requires room { FlagsHaveRoom self.old station }
        ensures { self.new ≡ with_flags self.old half.now station }
    {
        self.set(station, Class::Bk, half.is_ready(station, Class::Bk));
        self.set(station, Class::Be, half.is_ready(station, Class::Be));
        self.set(station, Class::Vi, half.is_ready(station, Class::Vi));
        self.set(station, Class::Vo, half.is_ready(station, Class::Vo));
    }
}
