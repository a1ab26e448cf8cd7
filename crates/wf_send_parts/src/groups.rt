//! The group frames and the beacons of each BSS (`Groups`).

ghost use Rattle.std.specs.Prelude.{◌≡◌, ◌<◌, ◌≤◌, ◌^◌, ℕ, IfOk, IfErr, OnOk, false, length, replicate};
ghost use Rattle.std.specs.Result.{result_err};
ghost use Rattle.wf_frame.specs.declared.notes.GroupAsk.TheVariants.{Accept, Pull, Done as Ends};
ghost use Rattle.wf_frame.specs.declared.notes.GroupReply.TheVariants.{Beacon as Beacons};
ghost use Rattle.wf_def_world.specs.Group.{id_of};
ghost use Rattle.wf_send_parts.specs.Group.{GroupValue, HasGroupBelow, GroupsHaveRoom, group_state, no_group_frames, with_group_frame, with_beacon, with_flight, with_flight_ended, group_refusal, flight_reply, group_counts, latest_beacon, group_at, with_group};

use crate::group::{Beacon, GroupCounts, GroupFlight, GroupQueue};
use std::alloc::{AllocError, Global};
use std::marker::Model;
use wf_frame::{GroupReply, Refusal};

/// The group frames and the beacons of each BSS. Contracts see them as a list, by the number of the BSS. Only
/// `new` allocates.
pub struct Groups {
    queues: Vec<GroupQueue>,
}

// Written by hand so that dropping a `Groups` needs the proof of one call, not of the drop of each queue.
impl Drop for Groups {
    fn drop(self) {
        let Groups { queues: _queues } = self;
    }
}

impl Model for Groups {
    ghost use Rattle.std.specs.Prelude.{List};
    ghost use Rattle.wf_send_parts.specs.Group.{GroupValue};

    ghost Value = { List GroupValue };

    ghost view = { λ g. g.queues.items };
}

impl Groups {
    /// Creates it for this number of BSSs, at most 16. Each has no group frame, and room for `buffered`
    /// queued ones, at most 65,535. Fails only if memory runs out.
    pub fn new(alloc: Global, bsses: u32, buffered: u32) -> Result<Groups, AllocError>
        requires bsses { bsses ≤ 16 }
        requires buffered { buffered ≤ 65535 }
        ensures { IfOk result (λ made. made ≡ replicate bsses (no_group_frames buffered)) }
    {
        let mut queues = Vec::with_capacity(alloc, bsses as usize)?;
        'making: for _ in 0..bsses {
            queues.push_reserved(GroupQueue::new(alloc, buffered)?);
        }
        Ok(Groups { queues })
    }

    /// Accepts a frame of a BSS, as `GroupQueue::accept`.
    pub fn accept(&mut self, bss: u8, len: u16, tag: u64, to: [u8; 6]) -> Result<u64, Refusal>
        requires within { bss < length self.old }
        requires small { HasGroupBelow (2 ^ 62) (group_at self.old bss) }
        ensures fault { result_err result ≡ group_refusal false (Accept len) (group_at self.old bss) }
        ensures id { IfOk result (λ id. id ≡ (group_at self.old bss).accepted) }
        ensures queued { OnOk result (self.new
            ≡ with_group self.old bss (with_group_frame len tag to (group_at self.old bss))) }
        ensures refused { IfErr result (λ _. self.new ≡ self.old) }
        ensures room { (n : ℕ) → GroupsHaveRoom n self.old → GroupsHaveRoom n self.new }
        ensures count { length self.new ≡ length self.old }
    {
        self.queues[usize::from(bss)].accept(len, tag, to)
    }

    /// A beacon of a BSS goes out, as `GroupQueue::beacon`.
    pub fn beacon(&mut self, bss: u8, period: u8) -> GroupReply
        requires within { bss < length self.old }
        requires small { HasGroupBelow (2 ^ 62) (group_at self.old bss) }
        requires some { 1 ≤ period }
        ensures answer { let v : GroupValue = with_beacon period (group_at self.old bss) in
            result ≡ Beacons v.count v.announced }
        ensures counted { self.new ≡ with_group self.old bss (with_beacon period (group_at self.old bss)) }
        ensures room { (n : ℕ) → GroupsHaveRoom n self.old → GroupsHaveRoom n self.new }
        ensures count { length self.new ≡ length self.old }
    {
        self.queues[usize::from(bss)].beacon(period)
    }

    /// Puts the first queued frame of a BSS on the air, as `GroupQueue::pull`. `sleeps` is whether a station
    /// of the BSS sleeps.
    pub fn pull(&mut self, bss: u8, sleeps: bool, overhead: u32) -> Result<GroupReply, Refusal>
        requires within { bss < length self.old }
        requires small { HasGroupBelow (2 ^ 62) (group_at self.old bss) }
        requires overhead { overhead ≤ 32 }
        ensures fault { result_err result ≡ group_refusal sleeps Pull (group_at self.old bss) }
        ensures answer { IfOk result (λ answer.
            answer ≡ flight_reply overhead sleeps (group_at self.old bss)) }
        ensures flies { OnOk result (self.new
            ≡ with_group self.old bss (with_flight sleeps (group_at self.old bss))) }
        ensures refused { IfErr result (λ _. self.new ≡ self.old) }
        ensures room { (n : ℕ) → GroupsHaveRoom n self.old → GroupsHaveRoom n self.new }
        ensures count { length self.new ≡ length self.old }
    {
        self.queues[usize::from(bss)].pull(sleeps, overhead)
    }

    /// Ends the transmission of the frame of a BSS that is on the air, as `GroupQueue::done`.
    pub fn done(&mut self, bss: u8, overhead: u32) -> Result<u64, Refusal>
        requires within { bss < length self.old }
        requires small { HasGroupBelow (2 ^ 62) (group_at self.old bss) }
        requires overhead { overhead ≤ 32 }
        ensures fault { result_err result ≡ group_refusal false Ends (group_at self.old bss) }
        ensures id { IfOk result (λ id. id ≡ id_of (group_state (group_at self.old bss)).flying) }
        ensures ended { OnOk result (self.new
            ≡ with_group self.old bss (with_flight_ended overhead (group_at self.old bss))) }
        ensures refused { IfErr result (λ _. self.new ≡ self.old) }
        ensures room { (n : ℕ) → GroupsHaveRoom n self.old → GroupsHaveRoom n self.new }
        ensures count { length self.new ≡ length self.old }
    {
        self.queues[usize::from(bss)].done(overhead)
    }

    /// Returns the frame of a BSS that is on the air, if there is one.
    pub fn flight(&self, bss: u8) -> Option<GroupFlight>
        requires { bss < length self.now }
        ensures { result ≡ (group_at self.now bss).flying }
    {
        self.queues[usize::from(bss)].flight()
    }

    /// Returns the counts of the group frames of a BSS.
    pub fn counts(&self, bss: u8) -> GroupCounts
        requires { bss < length self.now }
        ensures { result ≡ group_counts (group_at self.now bss) }
    {
        self.queues[usize::from(bss)].counts()
    }

    /// Returns the latest beacon of a BSS. Its DTIM period is `period`.
    pub fn latest_beacon(&self, bss: u8, period: u8) -> Beacon
        requires { bss < length self.now }
        ensures { result ≡ latest_beacon period (group_at self.now bss) }
    {
        self.queues[usize::from(bss)].latest_beacon(period)
    }
}
