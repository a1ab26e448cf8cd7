//! Group frames and beacons of each BSS.
//!
//! The octets of a group frame stay with its owner: a path has its length, its owner's tag and its address.

ghost use Rattle.std.specs.Prelude.{◌≡◌, ◌⊎◌, ℕ, true, false, is_some, option_map, pos};
ghost use Rattle.wf_frame.specs.Calls.{in_bss};
ghost use Rattle.wf_frame.specs.Frames.{FrameValue};
ghost use Rattle.wf_frame.specs.declared.notes.Ask.TheVariants.{Group as AboutGroups};
ghost use Rattle.wf_frame.specs.declared.notes.GroupAsk.TheVariants.{Beacon};
ghost use Rattle.wf_def_world.specs.World.{World, group_of};
ghost use Rattle.wf_send_half.specs.Group.{counts_in_state};
ghost use Rattle.wf_path.specs.Addresses.{is_group};
ghost use Rattle.wf_path.specs.Paths.{IsSmall};
ghost use Rattle.wf_c.specs.Bodies.{IsBadLength, IsBodyLength, IsUntouched, bad_length};
ghost use Rattle.wf_c.specs.Calls.{Becomes, HoldsFor, HoldsSmall, IsCalled};
ghost use Rattle.wf_c.specs.Groups.{IsGroupAccepted, IsGroupEnded, IsGroupPulled, accepted_brief, bad_address, bss_code, flying_in, flying_shown, group_counts_shown, group_shown, has_bss, header_code, header_told, is_refusal, shown_or};

use crate::addresses::BAD_ADDRESS;
use crate::burst::is_body_length;
use crate::frames::BAD_LENGTH;
use crate::held::Held;
use crate::reply::{Reply, refusal_code};
use crate::slot::PathSlot;
use wf_frame::{Brief, GroupAsk, GroupCall, GroupReply, Refusal};
use wf_path::PathAsk;
use wf_send_parts::group::GroupFrame;

/// A group frame: a data frame to a group address. Its octets stay with its owner.
#[repr(C)]
#[derive(Clone, Copy)]
pub struct Group {
    /// Its id. The ids of group frames count from 0, apart from those of other frames.
    pub id: u64,
    /// Identifies the frame to its owner.
    pub tag: u64,
    /// The number of its octets: 1 to 2304.
    pub length: u16,
    /// The group address.
    pub to: [u8; 6],
}

impl Group {
    // The caller's struct for a group frame.
    fn of(frame: GroupFrame) -> Group
        ensures { result ≡ group_shown frame }
    {
        let to = frame.to;
        Group {
            id: frame.id,
            tag: frame.tag,
            length: frame.len,
            to,
        }
    }
}

/// How many group frames of a BSS were accepted, and what became of them.
#[repr(C)]
#[derive(Clone, Copy)]
pub struct GroupTally {
    /// All accepted group frames.
    pub accepted: u64,
    /// Sent.
    pub sent: u64,
    /// The airtime of those that were sent, in microseconds.
    pub air: u64,
    /// The sequence numbers that were taken: one for each beacon of the BSS, and one for each group frame
    /// that went on the air.
    pub numbers: u64,
    /// Those that wait to be sent, at most 65,535.
    pub queued: u32,
    /// 1 if one is on the air, else 0.
    pub flying: u32,
}

// Returns whether an address belongs to a group: the lowest bit of its first octet is set.
fn is_group(address: &[u8; 6]) -> bool
    ensures { result ≡ is_group address.now }
{
    address[0] % 2 == 1
}

// The answer to the acceptance of a group frame.
fn accepted(accepted: Result<u64, Refusal>) -> Brief
    ensures { result ≡ accepted_brief accepted }
{
    match accepted {
        Ok(id) => Brief::Group(GroupReply::Queued { id }),
        Err(reason) => Brief::Refused(reason),
    }
}

// Returns whether an answer is a refusal.
fn is_refusal(answer: &Brief) -> bool
    ensures { result ≡ is_refusal answer.now }
{
    matches!(answer, Brief::Refused(_))
}

impl Held {
    // Returns whether there is a BSS of this number.
    fn has_bss(&self, bss: u8) -> bool
        ensures { result ≡ has_bss self.now bss }
    {
        u32::from(bss) < self.path.bss_count()
    }

    // Accepts a group frame of a BSS, with its owner's tag.
    fn accept_group(&mut self, bss: u8, len: u16, tag: u64, to: [u8; 6]) -> Reply
        requires small { IsSmall self.old.path.half }
        ensures { IsGroupAccepted self.old bss len tag to self.new result }
    {
        let given = self.path.accept_group(bss, len, tag, to);
        self.answer.brief = accepted(given);
        Reply::of(self.answer.brief)
    }

    // Takes out the first group frame of a BSS, and shows it if the call is not refused.
    fn pull_group(&mut self, bss: u8, frame: &mut Group) -> Reply
        requires small { IsSmall self.old.path.half }
        ensures { IsGroupPulled self.old bss self.new result frame.old frame.new }
    {
        let ask = GroupAsk::Pull;
        let reply = self.ask(PathAsk::Group(GroupCall { bss, ask }));
        if !is_refusal(&self.answer.brief) {
            self.show_flying(bss, frame);
        }
        reply
    }

    // Ends the transmission of the group frame of a BSS on the air, and shows the frame, if there is one.
    fn end_group(&mut self, bss: u8, frame: &mut Group) -> Reply
        requires small { IsSmall self.old.path.half }
        ensures { IsGroupEnded self.old bss self.new result frame.old frame.new }
    {
        self.show_flying(bss, frame);
        let ask = GroupAsk::Done;
        self.ask(PathAsk::Group(GroupCall { bss, ask }))
    }

    // The group frame of a BSS on the air, if there is one.
    fn group_flying(&self, bss: u8) -> Option<GroupFrame>
        ensures { result ≡ option_map (λ x. x.frame) (flying_in self.now bss) }
    {
        if self.has_bss(bss) {
            self.path.group_frame(bss)
        } else {
            None
        }
    }

    // Shows the group frame of a BSS on the air, if there is one.
    fn show_flying(&self, bss: u8, frame: &mut Group)
        ensures { frame.new ≡ shown_or frame.old (flying_shown self.now bss) }
    {
        if let Some(flying) = self.group_flying(bss) {
            *frame = Group::of(flying);
        }
    }
}

/// Accepts a group frame of a BSS for this address, with its owner's tag. Returns 0; 61 if the length is 0
/// or above 2304; else 64 if the address is no group address; else 43 if there is no BSS of this number; or
/// else 40 if as many of the BSS are queued as the setting `buffered` allows. After 61 and 64 nothing has
/// changed.
#[unsafe(no_mangle)]
pub extern "C" fn wf_path_group(
    path: &mut PathSlot,
    bss: u8,
    to: &[u8; 6],
    length: u16,
    tag: u64,
    reply: &mut Reply,
) -> i32
    requires open { is_some path.old.value ≡ true }
    requires small { HoldsSmall path.old.value }
    ensures accepted { IsBodyLength length → is_group to.now ≡ true → Becomes (λ h k.
        IsGroupAccepted h bss length tag to.now k reply.new × (result ≡ pos reply.new.refusal))
        path.old.value path.new.value }
    ensures length { IsBadLength length →
        IsUntouched path.old.value path.new.value reply.old reply.new result bad_length }
    ensures address { IsBodyLength length → is_group to.now ≡ false →
        IsUntouched path.old.value path.new.value reply.old reply.new result bad_address }
{
    if !is_body_length(length) {
        return BAD_LENGTH;
    }
    if !is_group(to) {
        return BAD_ADDRESS;
    }
    *reply = path.held().accept_group(bss, length, tag, *to);
    i32::from(reply.refusal)
}

/// Says that a beacon of a BSS goes out: `count` of the reply is its DTIM count, and `more` whether it
/// announces group frames. Returns 0; or 43 if there is no BSS of this number.
#[unsafe(no_mangle)]
pub extern "C" fn wf_path_beacon(path: &mut PathSlot, bss: u8, reply: &mut Reply) -> i32
    requires open { is_some path.old.value ≡ true }
    requires small { HoldsSmall path.old.value }
    ensures called { Becomes (λ h k. IsCalled h (AboutGroups (in_bss bss Beacon)) k reply.new)
        path.old.value path.new.value }
    ensures code { result ≡ pos reply.new.refusal }
{
    let ask = GroupAsk::Beacon;
    path.ask(PathAsk::Group(GroupCall { bss, ask }), reply)
}

/// Takes the first group frame of a BSS out of the queue to send it. Returns 0; 43 if there is no BSS of
/// this number; 41 if a frame of the BSS is on the air; or 18 if none is queued, or if a station of the BSS
/// sleeps and the latest beacon did not announce it. After an error nothing has changed, nor `frame`.
#[unsafe(no_mangle)]
pub extern "C" fn wf_path_group_pull(
    path: &mut PathSlot,
    bss: u8,
    frame: &mut Group,
    reply: &mut Reply,
) -> i32
    requires open { is_some path.old.value ≡ true }
    requires small { HoldsSmall path.old.value }
    ensures pulled { Becomes (λ h k. IsGroupPulled h bss k reply.new frame.old frame.new)
        path.old.value path.new.value }
    ensures code { result ≡ pos reply.new.refusal }
{
    *reply = path.held().pull_group(bss, frame);
    i32::from(reply.refusal)
}

/// Writes the header of the group frame of a BSS on the air, from the access point's address in the BSS,
/// with this source address. Returns 0; 43 if there is no BSS of this number; or 21 if none of its frames is
/// on the air. After an error it writes nothing.
#[unsafe(no_mangle)]
pub extern "C" fn wf_path_group_header(
    path: &mut PathSlot,
    bss: u8,
    source: &[u8; 6],
    out: &mut [u8; 24],
) -> i32
    requires open { is_some path.old.value ≡ true }
    ensures code { result ≡ pos (header_code path.old.value bss source.now) }
    ensures shown { out.new ≡ shown_or out.old (header_told path.old.value bss source.now) }
    ensures unchanged { path.new.value ≡ path.old.value }
{
    let held = path.held();
    if !held.has_bss(bss) {
        return refusal_code(Refusal::BadBss);
    }
    match held.path.group_header(bss, *source) {
        Some(header) => {
            *out = header;
            0
        }
        None => refusal_code(Refusal::Nothing),
    }
}

/// Says that the transmission of the group frame of a BSS on the air has ended. Returns 0; 43 if there is no
/// BSS of this number; or 21 if none of its frames is on the air. After an error nothing has changed, nor
/// `frame`.
#[unsafe(no_mangle)]
pub extern "C" fn wf_path_group_done(
    path: &mut PathSlot,
    bss: u8,
    frame: &mut Group,
    reply: &mut Reply,
) -> i32
    requires open { is_some path.old.value ≡ true }
    requires small { HoldsSmall path.old.value }
    ensures ended { Becomes (λ h k. IsGroupEnded h bss k reply.new frame.old frame.new)
        path.old.value path.new.value }
    ensures code { result ≡ pos reply.new.refusal }
{
    *reply = path.held().end_group(bss, frame);
    i32::from(reply.refusal)
}

/// Writes how many group frames of a BSS were accepted, sent, and are queued or on the air, and how many
/// sequence numbers they and the beacons of the BSS took. Returns 0; or 43 if there is no BSS of this number,
/// and then writes nothing.
#[unsafe(no_mangle)]
pub extern "C" fn wf_path_group_counts(path: &mut PathSlot, bss: u8, counts: &mut GroupTally) -> i32
    requires open { is_some path.old.value ≡ true }
    ensures code { result ≡ pos (bss_code path.old.value bss) }
    ensures world { (w : World) (bodies : ℕ → FrameValue) → HoldsFor path.old.value w bodies →
        result ≡ pos 0 → group_counts_shown counts.new ≡ counts_in_state (group_of w bss) }
    ensures kept { (result ≡ pos 0) ⊎ (counts.new ≡ counts.old) }
    ensures unchanged { path.new.value ≡ path.old.value }
{
    let held = path.held();
    if !held.has_bss(bss) {
        return refusal_code(Refusal::BadBss);
    }
    let found = held.path.group_counts(bss);
    *counts = GroupTally {
        accepted: found.accepted,
        sent: found.sent,
        air: found.air,
        numbers: found.numbers,
        queued: found.queued,
        flying: found.flying,
    };
    0
}
