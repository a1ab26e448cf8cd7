//! Whether the counts of a path are small enough for its calls.

ghost use Rattle.std.specs.Prelude.{◌≡◌, ◌<◌, ◌≤◌, ℕ, ◌+◌, ◌*◌, ◌^◌, true};
ghost use Rattle.wf_def_world.specs.Group.{bss_count};
ghost use Rattle.wf_def_lists.specs.Bounds.{greatest_tick};
ghost use Rattle.wf_frame.specs.declared.classes.Class.{Class as ClassName};
ghost use Rattle.wf_send_half.specs.Half.{IsLive};
ghost use Rattle.wf_send_parts.specs.Group.{HasGroupBelow};
ghost use Rattle.wf_send_half_model.specs.Half.{TransmitValue, group_in};
ghost use Rattle.wf_path.specs.Paths.{HasCountsBelow, IsSmall};
ghost use Rattle.wf_path.specs.Small.{IsSmallIn};

use crate::Path;
use wf_frame::{COUNT_LIMIT, Class};
use wf_send_parts::group::GROUP_AIR_LIMIT;

impl Path {
    /// Returns whether the clock, the counts of exchanges and of accepted frames, the airtime of each live
    /// station in each class, and the counts of group frames of each BSS are below 2^62, as `call`,
    /// `accept_group`, `done_bits` and `done_bytes` require. A driver need not ask before each call: if all
    /// of them are below a number, they are below this number plus 10,000,000 after a call (clause `rises`).
    /// So they stay small for the first 2^38 calls (`first_calls_law`).
    pub fn has_small_counts(&self) -> bool
        ensures small { result ≡ true → IsSmall self.now.half }
        ensures large { IsSmall self.now.half → result ≡ true }
    {
        self.now() < COUNT_LIMIT
            && self.exchanges() < COUNT_LIMIT
            && self.tally().accepted < COUNT_LIMIT
            && self.has_small_groups()
            && self.has_small_sums()
    }

    // Returns whether the counts of group frames of each BSS are small.
    fn has_small_groups(&self) -> bool
        ensures small { result ≡ true → (b : ℕ) → HasGroupBelow (2 ^ 62) (group_in self.now.half b) }
        ensures large { ((b : ℕ) → HasGroupBelow (2 ^ 62) (group_in self.now.half b)) → result ≡ true }
    {
        let _ = &self.half;
        for bss in 0..self.bss_count() {
            if !self.has_small_group(bss as u8) {
                return false;
            }
        }
        true
    }

    // Returns whether the counts of group frames of a BSS are small.
    fn has_small_group(&self, bss: u8) -> bool
        requires { bss < bss_count self.now.half.config.bsses }
        ensures small { result ≡ true → HasGroupBelow (2 ^ 62) (group_in self.now.half bss) }
        ensures large { HasGroupBelow (2 ^ 62) (group_in self.now.half bss) → result ≡ true }
    {
        let counts = self.group_counts(bss);
        counts.accepted < COUNT_LIMIT
            && counts.numbers < COUNT_LIMIT
            && counts.sent < COUNT_LIMIT / GROUP_AIR_LIMIT
    }

    // Returns whether the airtimes of each station are small.
    fn has_small_sums(&self) -> bool
        ensures small { result ≡ true → (s : ℕ) (c : ClassName) → IsSmallIn self.now.half s c }
        ensures large { ((s : ℕ) (c : ClassName) → IsSmallIn self.now.half s c) → result ≡ true }
    {
        let _ = &self.half;
        for station in 0..256u16 {
            if !self.is_small_at(station) {
                return false;
            }
        }
        true
    }

    // Returns whether the airtimes of a station are small in each class.
    fn is_small_at(&self, station: u16) -> bool
        ensures small { result ≡ true → (c : ClassName) → IsSmallIn self.now.half station c }
        ensures large { ((c : ClassName) → IsSmallIn self.now.half station c) → result ≡ true }
    {
        !self.live(station)
            || (self.is_small_in(station, Class::Bk)
                && self.is_small_in(station, Class::Be)
                && self.is_small_in(station, Class::Vi)
                && self.is_small_in(station, Class::Vo))
    }

    // Returns whether the airtimes of a live station are small in a class.
    fn is_small_in(&self, station: u16, class: Class) -> bool
        requires live { IsLive self.now.half station }
        ensures small { result ≡ true → IsSmallIn self.now.half station class }
        ensures large { IsSmallIn self.now.half station class → result ≡ true }
    {
        self.charged(station, class) < COUNT_LIMIT && self.received(station, class) < COUNT_LIMIT
    }
}

/// After at most 2^38 calls the counts of a path are small: those of a new path are below 1 (clause `none` of
/// `Path::new`), and each call adds at most 10,000,000 to this bound (clause `rises`).
pub fn first_calls_law()
    ensures { (v : TransmitValue) (calls : ℕ) → calls ≤ 2 ^ 38 →
        HasCountsBelow (1 + calls * greatest_tick) v → IsSmall v }
{}
