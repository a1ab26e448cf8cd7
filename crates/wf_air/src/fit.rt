//! The size of an aggregate (A-MPDU) and its limits: IEEE 802.11-2012, 8.6.1 (subframes and their padding)
//! and 9.12.2 (the length limit). Lengths are octets, times whole microseconds.

ghost use Rattle.std.specs.Prelude.{◌≡◌, ◌+◌, ◌-◌, ◌≤◌, ◌++◌, [], ◌∷◌, ℕ, max, List, length, false, IsTrue, IsFalse};
ghost use Rattle.wf_def_lists.specs.Lengths.{greatest_protected};
ghost use Rattle.wf_def_lists.specs.Bounds.{greatest_ampdu};
ghost use Rattle.wf_def_air.specs.Airtime.{legacy_of, is_single, data_charge, plain_charge, longest_answer};
ghost use Rattle.wf_def_air.specs.Fit.{aggregate_octets, plain_octets, fits, longest_alone, alone_at};
ghost use Rattle.wf_air.specs.Rates.{longest_single};
ghost use Rattle.wf_air.specs.Sizes.{empty_size, time_with_next, SizeStandsFor};

use crate::time::{Rate, SIFS, answer_time};
use std::marker::Model;

/// The size of the delimiter before an MPDU, in octets (8.6.1).
pub(crate) const DELIMITER_OCTETS: u32 = 4;

/// The size of the MAC header of a QoS Data frame with three addresses, in octets (8.3.2.1).
const HEADER_OCTETS: u32 = 26;

/// The size of a frame check sequence, in octets (8.2.4.8).
const CHECK_OCTETS: u32 = 4;

/// The octets of a data subframe in addition to its body: delimiter, header and check sequence.
pub const OVERHEAD_OCTETS: u32 = DELIMITER_OCTETS + HEADER_OCTETS + CHECK_OCTETS;

/// Each subframe except the last is padded to a multiple of this, in octets (8.6.1).
const PADDING: u32 = 4;

/// The data time that a frame alone may take whatever the limit is, in microseconds, with the setting
/// `legacy` 0, 1 and 2. At every rate that it allows the greatest body with its encryption fits it.
const LONGEST_ALONE: u32 = 3_000;

const LONGEST_OFDM_ALONE: u32 = 3_200;

const LONGEST_DSSS_ALONE: u32 = 19_200;

// Returns the data time that a frame alone may take whatever the limit is, in microseconds, by the setting
// `legacy`.
pub(crate) fn longest_alone(legacy: u32) -> u32
    ensures exact { result ≡ longest_alone legacy }
    ensures most { result ≤ 19200 }
{
    match legacy {
        0 => LONGEST_ALONE,
        1 => LONGEST_OFDM_ALONE,
        _ => LONGEST_DSSS_ALONE,
    }
}

/// The limits of an aggregate: its octets, its frames, and its data time in microseconds.
#[derive(Clone, Copy, Debug, PartialEq, Eq)]
pub struct SizeLimits {
    pub octets: u32,
    pub frames: u16,
    pub time: u32,
}

/// The size of an aggregate to which frames are added one at a time.
#[derive(Drop)]
pub struct AggregateSize {
    rate: Rate,
    limits: SizeLimits,
    /// The setting `answers`: 1 if control frames go at a rate that depends on that of the data.
    answers: u32,
    wide: bool,
    count: u16,
    octets: u32,
    /// The duration of the octets, if there is a frame.
    time: u32,
}

impl Model for AggregateSize {
    ghost use Rattle.wf_air.specs.Sizes.{AggregateSizeValue};

    ghost Value = { AggregateSizeValue };

    ghost use Rattle.wf_air.specs.SizeView.{value_of, IsSize};

    ghost view = { value_of };

    ghost invariant = { IsSize };
}

impl AggregateSize {
    /// Returns the size of an empty aggregate for a station with this rate. It takes at most
    /// `limits.octets`, 2370 to 6,500,631, at most `limits.frames`, 1 or more, and data of at most
    /// `limits.time` microseconds; a frame alone may take 3000, one of OFDM 3200, and one of DSSS 19,200.
    /// `answers` is the setting of that name. `wide` says that the session's window is above 64.
    pub fn new(rate: Rate, limits: SizeLimits, answers: u32, wide: bool) -> AggregateSize
        requires octets_least { longest_single ≤ limits.octets }
        requires octets_most { limits.octets ≤ greatest_ampdu }
        requires frames_in { 1 ≤ limits.frames }
        ensures made { result ≡ empty_size rate limits answers wide }
        ensures empty { SizeStandsFor result [] }
    {
        AggregateSize {
            rate,
            limits,
            answers,
            wide,
            count: 0,
            octets: 0,
            time: 0,
        }
    }

    // Returns the greatest data time after one more frame, in microseconds.
    fn time_with_next(&self) -> u32
        ensures { result ≡ time_with_next self.now }
    {
        if self.count == 0 {
            self.limits.time.max(longest_alone(self.rate.legacy()))
        } else {
            self.limits.time
        }
    }

    /// Adds a frame at the end. `len` is the length of its body with its encryption, 1 to 2336 octets.
    /// Returns false, without a change, exactly if it does not fit. The first frame always fits.
    pub fn add(&mut self, len: u16) -> bool
        requires { (1 ≤ len) × (len ≤ greatest_protected) }
        ensures exact { (lens : List ℕ) → SizeStandsFor self.old lens → result ≡
            fits self.old.rate self.old.limits.octets self.old.limits.frames self.old.limits.time (lens ++ len ∷ []) }
        ensures taken { (lens : List ℕ) → SizeStandsFor self.old lens → IsTrue result →
            SizeStandsFor self.new (lens ++ len ∷ []) }
        ensures kept { self.new ≡ record self.old { count = self.new.count; octets = self.new.octets } }
        ensures refused { IsFalse result → self.new ≡ self.old }
        ensures first { self.old.count ≡ 0 → IsTrue result }
    {
        let octets = self.octets.next_multiple_of(PADDING) + OVERHEAD_OCTETS + u32::from(len);
        if self.count >= self.limits.frames || octets > self.limits.octets {
            return false;
        }
        let time = self.rate.data_time(octets);
        if time > self.time_with_next() {
            return false;
        }
        self.count += 1;
        self.octets = octets;
        self.time = time;
        true
    }

    /// Returns the number of frames, at most `limits.frames`.
    pub fn count(&self) -> u16
        ensures exact { (lens : List ℕ) → SizeStandsFor self.now lens → result ≡ length lens }
        ensures value { result ≡ self.now.count }
        ensures most { result ≤ self.now.limits.frames }
    {
        self.count
    }

    /// Returns whether the rate has no aggregates: it is one of OFDM or DSSS.
    pub fn is_single(&self) -> bool
        ensures { result ≡ is_single self.now.rate }
    {
        self.rate.is_single()
    }

    /// Returns the charge of a data exchange of the frames in microseconds: at most `limits.time`, or 3000 if
    /// that is less, SIFS and the longest BlockAck. The rate is not one of OFDM or DSSS.
    pub fn air(&self) -> u32
        requires { 1 ≤ self.now.count }
        ensures exact { (lens : List ℕ) → SizeStandsFor self.now lens →
            result ≡ data_charge self.now.answers self.now.rate (aggregate_octets lens) self.now.wide }
        ensures most { is_single self.now.rate ≡ false →
            result ≤ max self.now.limits.time (longest_alone 0) + longest_answer self.now.answers 0 }
    {
        self.time + SIFS + answer_time(self.rate.control_mbps(self.answers), self.wide)
    }

    /// Returns the charge of an exchange of the frames in microseconds if an Ack answers them: at most
    /// `limits.time`, or what a frame alone may take if that is less, SIFS and the longest answer.
    pub fn plain_air(&self) -> u32
        requires { 1 ≤ self.now.count }
        ensures exact { (lens : List ℕ) → SizeStandsFor self.now lens →
            result ≡ plain_charge self.now.answers self.now.rate (plain_octets self.now.rate lens) }
        ensures most { result ≤ max self.now.limits.time (alone_at self.now.rate)
            + longest_answer self.now.answers (legacy_of self.now.rate) }
    {
        let octets = self.rate.plain_octets(self.octets);
        self.rate.plain_charge(octets, self.answers)
    }
}
