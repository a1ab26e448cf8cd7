//! Group frames: data frames whose first address is the address of a group of stations (IEEE 802.11-2012,
//! 10.2.1.4). The path keeps the length, the tag and the destination of each; its octets stay with its owner.
//! `PathAsk::Group` makes the calls about them.

ghost use Rattle.std.specs.Prelude.{◌≡◌, ◌<◌, ℕ, option_map, IfErr, OnOk};
ghost use Rattle.wf_frame.specs.Calls.{in_bss};
ghost use Rattle.wf_frame.specs.Frames.{FrameValue};
ghost use Rattle.wf_frame.specs.declared.notes.Ask.TheVariants.{Group};
ghost use Rattle.wf_frame.specs.declared.notes.GroupAsk.TheVariants.{Accept};
ghost use Rattle.wf_frame.specs.declared.notes.GroupReply.TheVariants.{Queued};
ghost use Rattle.wf_frame.specs.declared.notes.Note.TheVariants.{Asked};
ghost use Rattle.wf_frame.specs.declared.notes.ReplyNote.TheVariants.{Group as Groups};
ghost use Rattle.wf_def_world.specs.Group.{bss_count, dtim_period};
ghost use Rattle.wf_def_world.specs.World.{World, group_of, is_any_asleep};
ghost use Rattle.wf_octets.specs.GroupLayout.{group_octets};
ghost use Rattle.wf_send_parts.specs.Group.{world_frame, group_counts, latest_beacon};
ghost use Rattle.wf_send_half.specs.Group.{counts_in_state, beacon_in_state, everyone};
ghost use Rattle.wf_send_half.specs.Replies.{reply_of_result};
ghost use Rattle.wf_send_half_model.specs.Changes.{after_group_call};
ghost use Rattle.wf_send_half_model.specs.Half.{group_in, is_any_asleep_of};
ghost use Rattle.wf_send_half_model.specs.Standing.{StandsFor, Meets};
ghost use Rattle.wf_path.specs.Group.{group_header_of};
ghost use Rattle.wf_path.specs.Paths.{IsPath, IsSmall, RiseLittle, IsAnsweredBriefly};

use crate::Path;
use wf_frame::{Brief, GroupCall, Refusal};
use wf_octets::header::{GROUP_HEADER_OCTETS, GroupHeader, encode_group};
use wf_octets::seq12::Seq12;
use wf_send_parts::group::{Beacon, GroupCounts, GroupFrame};

impl Path {
    // Makes a call about the group frames of a BSS.
    pub(crate) fn group(&mut self, call: GroupCall) -> Brief
        requires small { IsSmall self.old.half }
        ensures { IsAnsweredBriefly self.old (Group call) self.new result }
    {
        match self.half.group(call) {
            Ok(answer) => Brief::Group(answer),
            Err(reason) => Brief::Refused(reason),
        }
    }

    /// Accepts a group frame of a BSS with a body of `len` octets, 1 to 2304, and returns its id. `tag`
    /// identifies it to its owner, and `to` is its destination, the address of a group. Refused as BadBss, or
    /// as Buffered if as many are queued as the setting `buffered` allows.
    pub fn accept_group(&mut self, bss: u8, len: u16, tag: u64, to: [u8; 6]) -> Result<u64, Refusal>
        requires small { IsSmall self.old.half }
        ensures meets { (w : World) (bodies : ℕ → FrameValue) → StandsFor self.old.half w bodies →
            Meets w bodies (Asked (Group (in_bss bss (Accept len)))) self.new.half
            (reply_of_result (λ id. Groups (Queued id)) result) }
        ensures queued { OnOk result (self.new ≡ record self.old {
          half = after_group_call self.old.half (in_bss bss (Accept len)) tag to;
        }) }
        ensures refused { IfErr result (λ _. self.new ≡ self.old) }
        ensures addresses { self.new.addresses ≡ self.old.addresses }
        ensures path { IsPath self.new.half }
        ensures rises { RiseLittle self.old.half self.new.half }
    {
        self.half.accept_group(bss, len, tag, to)
    }

    /// Returns the group frame of a BSS that is on the air, if there is one.
    pub fn group_frame(&self, bss: u8) -> Option<GroupFrame>
        requires { bss < bss_count self.now.half.config.bsses }
        ensures value { result ≡ option_map (λ x. x.frame) (group_in self.now.half bss).flying }
        ensures world { (w : World) (bodies : ℕ → FrameValue) → StandsFor self.now.half w bodies →
            option_map world_frame result ≡ (group_of w bss).flying }
    {
        self.half.group_frame(bss)
    }

    /// Returns the header of the group frame of a BSS that is on the air, with this source, or None if there
    /// is none (8.3.2.1): from the access point to the frame's destination, with its sequence number, and
    /// with More Data as its pull was answered. The driver sends it before the body.
    pub fn group_header(&self, bss: u8, source: [u8; 6]) -> Option<[u8; GROUP_HEADER_OCTETS]>
        requires { bss < bss_count self.now.half.config.bsses }
        ensures { result ≡ option_map (λ x. group_octets (group_header_of self.now.addresses bss source x))
            (group_in self.now.half bss).flying }
    {
        let flight = self.half.group_flight(bss)?;
        let group = flight.frame.to;
        let bss = self.addresses.bss(bss);
        Some(encode_group(&GroupHeader {
            more: flight.more,
            group,
            bss,
            source,
            seq: Seq12::of(u64::from(flight.number)),
        }))
    }

    /// Returns the counts of the group frames of a BSS.
    pub fn group_counts(&self, bss: u8) -> GroupCounts
        requires { bss < bss_count self.now.half.config.bsses }
        ensures value { result ≡ group_counts (group_in self.now.half bss) }
        ensures world { (w : World) (bodies : ℕ → FrameValue) → StandsFor self.now.half w bodies →
            result ≡ counts_in_state (group_of w bss) }
    {
        self.half.group_counts(bss)
    }

    /// Returns the latest beacon of a BSS, as `tim` shows it.
    pub fn beacon(&self, bss: u8) -> Beacon
        requires { bss < bss_count self.now.half.config.bsses }
        ensures value { result
            ≡ latest_beacon (dtim_period self.now.half.config.period) (group_in self.now.half bss) }
        ensures world { (w : World) (bodies : ℕ → FrameValue) → StandsFor self.now.half w bodies →
            result ≡ beacon_in_state (dtim_period w.config.period) (group_of w bss) }
    {
        self.half.beacon(bss)
    }

    /// Returns whether some live station of a BSS sleeps: the next group frame then waits for a DTIM beacon.
    pub fn is_any_asleep(&self, bss: u8) -> bool
        ensures value { result ≡ is_any_asleep_of self.now.half bss }
        ensures world { (w : World) (bodies : ℕ → FrameValue) → StandsFor self.now.half w bodies →
            result ≡ is_any_asleep w bss }
    {
        self.half.is_any_asleep(bss)
    }
}
