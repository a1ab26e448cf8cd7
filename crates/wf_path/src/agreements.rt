//! The calls about block acknowledgement agreements (IEEE 802.11-2012, 10.5).

ghost use Rattle.std.specs.Prelude.{◌≡◌};
ghost use Rattle.wf_frame.specs.declared.notes.Ask.TheVariants.{Plain, Hold, Begin, Free, Cease};
ghost use Rattle.wf_path.specs.Paths.{IsAnsweredBriefly};

use crate::Path;
use wf_frame::Brief;

impl Path {
    // Makes a station join without agreements.
    pub(crate) fn plain(&mut self, station: u16, start: u16, exponent: u8, weight: u8) -> Brief
        ensures { IsAnsweredBriefly self.old (Plain station start exponent weight) self.new result }
    {
        match self.half.plain(station, start, exponent, weight) {
            Ok(()) => Brief::Joined,
            Err(reason) => Brief::Refused(reason),
        }
    }

    // Gives no frame of a TID a number from now on.
    pub(crate) fn hold(&mut self, station: u16, tid: u8) -> Brief
        ensures { IsAnsweredBriefly self.old (Hold station tid) self.new result }
    {
        match self.half.hold(station, tid) {
            Ok(start) => Brief::Held { start },
            Err(reason) => Brief::Refused(reason),
        }
    }

    // Begins the agreement of a TID that is held.
    pub(crate) fn begin(&mut self, station: u16, tid: u8, window: u16) -> Brief
        ensures { IsAnsweredBriefly self.old (Begin station tid window) self.new result }
    {
        match self.half.begin(station, tid, window) {
            Ok(()) => Brief::Begun,
            Err(reason) => Brief::Refused(reason),
        }
    }

    // Lets a TID that is held send its frames one at a time.
    pub(crate) fn free(&mut self, station: u16, tid: u8) -> Brief
        ensures { IsAnsweredBriefly self.old (Free station tid) self.new result }
    {
        match self.half.free(station, tid) {
            Ok(()) => Brief::Freed,
            Err(reason) => Brief::Refused(reason),
        }
    }

    // Ends the agreement of a TID.
    pub(crate) fn cease(&mut self, station: u16, tid: u8) -> Brief
        ensures { IsAnsweredBriefly self.old (Cease station tid) self.new result }
    {
        match self.half.cease(station, tid) {
            Ok(dropped) => Brief::Ceased { dropped },
            Err(reason) => Brief::Refused(reason),
        }
    }
}
