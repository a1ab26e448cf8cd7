//! Group frames and beacons.

ghost use Rattle.std.specs.Prelude.{◌≡◌, ◌<◌, ◌≤◌, ◌^◌, ℕ, option_map, IfErr, OnOk};
ghost use Rattle.wf_frame.specs.Calls.{in_bss};
ghost use Rattle.wf_frame.specs.Frames.{FrameValue};
ghost use Rattle.wf_frame.specs.declared.notes.Ask.TheVariants.{Group};
ghost use Rattle.wf_frame.specs.declared.notes.GroupAsk.TheVariants.{Accept, Beacon as Beacons, Pull, Done as Ends};
ghost use Rattle.wf_frame.specs.declared.notes.GroupReply.TheVariants.{Queued};
ghost use Rattle.wf_frame.specs.declared.notes.Note.TheVariants.{Asked};
ghost use Rattle.wf_frame.specs.declared.notes.ReplyNote.TheVariants.{Group as Groups};
ghost use Rattle.wf_def_world.specs.Group.{bss_count, dtim_period};
ghost use Rattle.wf_def_world.specs.World.{World, group_of, is_any_asleep};
ghost use Rattle.wf_send_parts.specs.Group.{HasGroupBelow, world_flight, world_frame, group_counts, latest_beacon};
ghost use Rattle.wf_send_half_model.specs.Changes.{after_group_call};
ghost use Rattle.wf_send_half_model.specs.Half.{group_in, is_any_asleep_of, is_asleep_of};
ghost use Rattle.wf_send_half_model.specs.Standing.{StandsFor, Meets};
ghost use Rattle.wf_send_half.specs.Group.{counts_in_state, beacon_in_state, everyone};
ghost use Rattle.wf_send_half.specs.Half.{HasUnheardWorld};
ghost use Rattle.wf_send_half.specs.Replies.{reply_of_result};

use crate::Transmit;
use crate::half::Half;
use wf_frame::{GroupAsk, GroupCall, GroupReply, Refusal};
use wf_send_parts::group::{Beacon, GroupCounts, GroupFlight, GroupFrame};

/// The destination of all stations (IEEE 802.11-2012, 8.2.4.3.4).
const EVERYONE: [u8; 6] = [255; 6];

impl Half {
    // Makes a call about the group frames of a BSS (`Transmit::group`).
    pub(crate) fn group(&mut self, call: GroupCall) -> Result<GroupReply, Refusal>
        requires small { HasGroupBelow (2 ^ 62) (group_in self.old call.bss) }
        ensures meets { (w : World) (bodies : ℕ → FrameValue) → StandsFor self.old w bodies →
            Meets w bodies (Asked (Group call)) self.new (reply_of_result Groups result) }
        ensures changed { OnOk result (self.new ≡ after_group_call self.old call 0 everyone) }
        ensures refused { IfErr result (λ _. self.new ≡ self.old) }
    {
        let bss = call.bss;
        match call.ask {
            GroupAsk::Accept { len } => {
                let id = self.accept_group(bss, len, 0, EVERYONE)?;
                Ok(GroupReply::Queued { id })
            }
            GroupAsk::Beacon => self.send_beacon(bss),
            GroupAsk::Pull => self.pull_group(bss),
            GroupAsk::Done => self.end_group(bss),
        }
    }

    // Accepts a group frame of a BSS (`Transmit::accept_group`).
    pub(crate) fn accept_group(
        &mut self,
        bss: u8,
        len: u16,
        tag: u64,
        to: [u8; 6],
    ) -> Result<u64, Refusal>
        requires small { HasGroupBelow (2 ^ 62) (group_in self.old bss) }
        ensures meets { (w : World) (bodies : ℕ → FrameValue) → StandsFor self.old w bodies →
            Meets w bodies (Asked (Group (in_bss bss (Accept len)))) self.new
            (reply_of_result (λ id. Groups (Queued id)) result) }
        ensures changed { OnOk result (self.new
            ≡ after_group_call self.old (in_bss bss (Accept len)) tag to) }
        ensures refused { IfErr result (λ _. self.new ≡ self.old) }
    {
        self.check_bss(bss)?;
        self.groups.accept(bss, len, tag, to)
    }

    // A beacon of a BSS goes out.
    fn send_beacon(&mut self, bss: u8) -> Result<GroupReply, Refusal>
        requires small { HasGroupBelow (2 ^ 62) (group_in self.old bss) }
        ensures meets { (w : World) (bodies : ℕ → FrameValue) → StandsFor self.old w bodies →
            Meets w bodies (Asked (Group (in_bss bss Beacons))) self.new (reply_of_result Groups result) }
        ensures changed { OnOk result (self.new ≡ after_group_call self.old (in_bss bss Beacons) 0 everyone) }
        ensures refused { IfErr result (λ _. self.new ≡ self.old) }
    {
        self.check_bss(bss)?;
        let period = self.dtim_period();
        Ok(self.groups.beacon(bss, period))
    }

    // Puts the next group frame of a BSS on the air.
    fn pull_group(&mut self, bss: u8) -> Result<GroupReply, Refusal>
        requires small { HasGroupBelow (2 ^ 62) (group_in self.old bss) }
        ensures meets { (w : World) (bodies : ℕ → FrameValue) → StandsFor self.old w bodies →
            Meets w bodies (Asked (Group (in_bss bss Pull))) self.new (reply_of_result Groups result) }
        ensures changed { OnOk result (self.new ≡ after_group_call self.old (in_bss bss Pull) 0 everyone) }
        ensures refused { IfErr result (λ _. self.new ≡ self.old) }
    {
        self.check_bss(bss)?;
        let sleeps = self.is_any_asleep(bss);
        self.groups.pull(bss, sleeps, self.config.overhead)
    }

    // Ends the transmission of the group frame of a BSS that is on the air.
    fn end_group(&mut self, bss: u8) -> Result<GroupReply, Refusal>
        requires small { HasGroupBelow (2 ^ 62) (group_in self.old bss) }
        ensures meets { (w : World) (bodies : ℕ → FrameValue) → StandsFor self.old w bodies →
            Meets w bodies (Asked (Group (in_bss bss Ends))) self.new (reply_of_result Groups result) }
        ensures changed { OnOk result (self.new ≡ after_group_call self.old (in_bss bss Ends) 0 everyone) }
        ensures refused { IfErr result (λ _. self.new ≡ self.old) }
    {
        self.check_bss(bss)?;
        let id = self.groups.done(bss, self.config.overhead)?;
        Ok(GroupReply::Done { id })
    }

    // Returns the DTIM period in beacons, 1 to 255.
    pub(crate) fn dtim_period(&self) -> u8
        ensures exact { result ≡ dtim_period self.now.config.period }
        ensures some { 1 ≤ result }
    {
        self.config.period.max(1) as u8
    }

    // Returns whether some live station of a BSS sleeps.
    pub(crate) fn is_any_asleep(&self, bss: u8) -> bool
        ensures { result ≡ is_any_asleep_of self.now bss }
    {
        for station in 0..self.config.stations {
            if self.is_asleep(bss, station as u16) {
                return true;
            }
        }
        false
    }

    // Returns whether a station is live, sleeps, and is of a BSS.
    fn is_asleep(&self, bss: u8, station: u16) -> bool
        requires { station < self.now.config.stations }
        ensures { result ≡ is_asleep_of self.now bss station }
    {
        self.members.is_live(station)
            && self.sleepers.asleep(station)
            && self.sleepers.bss(station) == bss
    }
}

impl Transmit {
    /// Makes a call about the group frames of a BSS: data frames whose first address is the address of a
    /// group of stations. The octets of a group frame stay with their owner. One that is accepted here has
    /// the tag 0, and all stations are its destination. Each is refused as BadBss if there is no BSS of that
    /// number; Accept as Buffered if as many are queued as the setting `buffered` allows; Pull as Flying if
    /// one is on the air, or as Idle if none may go now; Done as Nothing if none is on the air.
    pub fn group(&mut self, call: GroupCall) -> Result<GroupReply, Refusal>
        requires small { HasGroupBelow (2 ^ 62) (group_in self.old call.bss) }
        ensures meets { (w : World) (bodies : ℕ → FrameValue) → StandsFor self.old w bodies →
            Meets w bodies (Asked (Group call)) self.new (reply_of_result Groups result) }
        ensures changed { OnOk result (self.new ≡ after_group_call self.old call 0 everyone) }
        ensures refused { IfErr result (λ _. self.new ≡ self.old) }
        ensures unheard { HasUnheardWorld self.new }
    {
        self.half.group(call)
    }

    /// Accepts a group frame of a BSS with a body of `len` octets, and returns its id. `tag` identifies it to
    /// its owner, and `to` is its destination. Refused as BadBss, or as Buffered if as many are queued as the
    /// setting `buffered` allows.
    pub fn accept_group(&mut self, bss: u8, len: u16, tag: u64, to: [u8; 6]) -> Result<u64, Refusal>
        requires small { HasGroupBelow (2 ^ 62) (group_in self.old bss) }
        ensures meets { (w : World) (bodies : ℕ → FrameValue) → StandsFor self.old w bodies →
            Meets w bodies (Asked (Group (in_bss bss (Accept len)))) self.new
            (reply_of_result (λ id. Groups (Queued id)) result) }
        ensures changed { OnOk result (self.new
            ≡ after_group_call self.old (in_bss bss (Accept len)) tag to) }
        ensures refused { IfErr result (λ _. self.new ≡ self.old) }
        ensures unheard { HasUnheardWorld self.new }
    {
        self.half.accept_group(bss, len, tag, to)
    }

    /// Returns the group frame of a BSS that is on the air, if there is one.
    pub fn group_frame(&self, bss: u8) -> Option<GroupFrame>
        requires { bss < bss_count self.now.config.bsses }
        ensures value { result ≡ option_map (λ x. x.frame) (group_in self.now bss).flying }
        ensures world { (w : World) (bodies : ℕ → FrameValue) → StandsFor self.now w bodies →
            option_map world_frame result ≡ (group_of w bss).flying }
    {
        match self.half.groups.flight(bss) {
            Some(flight) => Some(flight.frame),
            None => None,
        }
    }

    /// Returns the group frame of a BSS that is on the air, with its sequence number and its More Data bit,
    /// if there is one.
    pub fn group_flight(&self, bss: u8) -> Option<GroupFlight>
        requires { bss < bss_count self.now.config.bsses }
        ensures value { result ≡ (group_in self.now bss).flying }
        ensures world { (w : World) (bodies : ℕ → FrameValue) → StandsFor self.now w bodies →
            option_map world_flight result ≡ (group_of w bss).flying }
    {
        self.half.groups.flight(bss)
    }

    /// Returns the counts of the group frames of a BSS.
    pub fn group_counts(&self, bss: u8) -> GroupCounts
        requires { bss < bss_count self.now.config.bsses }
        ensures value { result ≡ group_counts (group_in self.now bss) }
        ensures world { (w : World) (bodies : ℕ → FrameValue) → StandsFor self.now w bodies →
            result ≡ counts_in_state (group_of w bss) }
    {
        self.half.groups.counts(bss)
    }

    /// Returns the latest beacon of a BSS, as its TIM element shows it.
    pub fn beacon(&self, bss: u8) -> Beacon
        requires { bss < bss_count self.now.config.bsses }
        ensures value { result ≡ latest_beacon (dtim_period self.now.config.period) (group_in self.now bss) }
        ensures world { (w : World) (bodies : ℕ → FrameValue) → StandsFor self.now w bodies →
            result ≡ beacon_in_state (dtim_period w.config.period) (group_of w bss) }
    {
        self.half.groups.latest_beacon(bss, self.half.dtim_period())
    }

    /// Returns whether some live station of a BSS sleeps: the next group frame then waits for a DTIM beacon.
    pub fn is_any_asleep(&self, bss: u8) -> bool
        ensures value { result ≡ is_any_asleep_of self.now bss }
        ensures world { (w : World) (bodies : ℕ → FrameValue) → StandsFor self.now w bodies →
            result ≡ is_any_asleep w bss }
    {
        self.half.is_any_asleep(bss)
    }
}
