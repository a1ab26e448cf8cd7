//! The rates, and how long transmissions take, with the pauses of 5 GHz. Data are sent in HT mixed format
//! (IEEE 802.11-2012, clause 20), in VHT to one station (802.11-2016, clause 21) or in HE to one station
//! (802.11ax-2021, clause 27), with convolutional codes; or in OFDM (802.11-2012, clause 18) or DSSS with its
//! long preamble (clause 17), one frame at a time. Control frames are sent in OFDM at 6, 12 or 24 Mbit/s, or
//! in DSSS at 1 or 2. Durations are whole microseconds, except if a name says tenths; lengths are octets.

ghost use Rattle.std.specs.Prelude.{◌≡◌, ℕ, List, ◌+◌, ◌/◌, ◌==◌, ◌≤◌, ◌<◌, if◌then◌else◌, max, true, false, IfOk, IfErr, IfSome};
ghost use Rattle.wf_def_lists.specs.Table.{has};
ghost use Rattle.wf_def_air.specs.Airtime.{Ht, Vht, He, Ofdm, Dsss, IsRate, is_rate, ofdm_rates, dsss_rates, legacy_of, is_single, lowest_rate, carriers_of_312, carriers_of_78, vht_encoders, is_wide_width, are_streams, streams_left_out, streams, modulation, carriers, coded_bits, bits, symbol_tenths, kbps, encoders, octet_bits, service_and_tails, preamble_tenths, data_time, dsss_mbps, control_mbps, control_time, dsss_control_time, ofdm_control_time, answer_time, longest_answer, data_charge, plain_charge, request_charge};
ghost use Rattle.wf_def_lists.specs.Bounds.{least_ampdu, greatest_ampdu};
ghost use Rattle.wf_def_air.specs.Fit.{aggregate_octets, plain_octets, most_octets, longest_alone, alone_at};
ghost use Rattle.wf_air.specs.Rates.{rate_of, unit_tenths, timing_of, least_kbps, most_kbps, longest_aggregate, longest_single, longest_time, IsControl};

use crate::fit::{DELIMITER_OCTETS, longest_alone};
use std::marker::Model;
use thiserror::Error;

/// The greatest MCS of HT with two spatial streams (20.6), of VHT (21.5) and of HE (27.5).
const GREATEST_HT_MCS: u8 = 15;

const GREATEST_VHT_MCS: u8 = 9;

const GREATEST_HE_MCS: u8 = 11;

/// The most spatial streams of VHT and HE to one station.
const GREATEST_STREAMS: u8 = 8;

/// The data bits of twelve carriers by modulation and code, from BPSK at 1/2 to 1024-QAM at 5/6 (20.6, 21.5,
/// 27.5).
const BITS_OF_TWELVE: [u32; 12] = [6, 12, 18, 24, 36, 48, 54, 60, 72, 80, 90, 100];

/// The most data bits of a symbol for one encoder of VHT (21.5).
const ENCODER_BITS: u32 = 2160;

/// The SERVICE field, and the tail of each encoder, in bits (18.4.3, 20.4.3).
const SERVICE_BITS: u32 = 16;

const TAIL_BITS: u32 = 6;

/// The duration of a symbol of HT and VHT with the short and with the long guard interval, in tenths of a
/// microsecond.
const SHORT_SYMBOL: u32 = 36;

const LONG_SYMBOL: u32 = 40;

/// The duration of a symbol of HE without its guard interval, in tenths of a microsecond.
const HE_SYMBOL: u32 = 128;

/// The number of tenths in a microsecond, in which DSSS is counted.
const TENTHS: u32 = 10;

/// The preamble without its long training fields, in tenths of a microsecond: of HT (20.3.7); and of VHT,
/// including VHT-SIG-B (21.3.2), and HE.
const HT_PREAMBLE: u32 = 320;

const LONG_PREAMBLE: u32 = 360;

/// A long training field of HT and VHT, in tenths of a microsecond.
const TRAINING: u32 = 40;

/// A long training field of HE without its guard interval, in tenths of a microsecond: the 2x field, and the
/// 4x field, which is used with the guard interval of 3200 ns.
const SHORT_HE_TRAINING: u32 = 64;

const LONG_HE_TRAINING: u32 = 128;

/// The preamble and SIGNAL field of OFDM, 20 microseconds (18.4.3), and the long preamble and header of DSSS,
/// 192 (17.2.2.2), in tenths of a microsecond.
const OFDM_PREAMBLE: u32 = 200;

const DSSS_PREAMBLE: u32 = 1920;

/// The bits of an octet; DSSS counts halves of a bit.
const OCTET_BITS: u32 = 8;

const OCTET_HALVES: u32 = 16;

/// The number of long training fields for 1 to 8 spatial streams.
const TRAINING_FIELDS: [u32; 8] = [1, 2, 4, 4, 6, 6, 8, 8];

/// The OFDM preamble and SIGNAL field of a control frame, in microseconds (18.4.3).
const CONTROL_PREAMBLE_TIME: u32 = 20;

/// An OFDM symbol, in microseconds (18.4.3). It has 4 data bits for each Mbit/s (18.3.2.3).
const CONTROL_SYMBOL_TIME: u32 = 4;

/// The long preamble and header of DSSS before a control frame, in microseconds (17.2.2.2), and the rates of
/// DSSS for control frames, in Mbit/s.
const DSSS_PREAMBLE_TIME: u32 = 192;

const SLOW_DSSS_MBPS: u32 = 1;

const FAST_DSSS_MBPS: u32 = 2;

/// The mandatory rates of OFDM, in Mbit/s (18.4.3).
const SLOW_MBPS: u32 = 6;

const MIDDLE_MBPS: u32 = 12;

const FAST_MBPS: u32 = 24;

/// The kbit/s in a Mbit/s, and in half a Mbit/s.
const KBPS: u32 = 1_000;

const HALF_KBPS: u32 = 500;

/// The octets of an Ack with its check sequence (8.3.1.4), of a BlockAckReq (8.3.1.8), of a BlockAck with a
/// bitmap of 8 octets (8.3.1.9), and of one with a bitmap of 32.
const ACK_OCTETS: u32 = 14;

const REQUEST_OCTETS: u32 = 24;

const ANSWER_OCTETS: u32 = 32;

const WIDE_ANSWER_OCTETS: u32 = 56;

/// An HT receiver with the length exponent x takes 2^(13+x) - 1 octets (8.4.2.58.3), more than a frame of
/// OFDM or DSSS has.
const LEAST_HT_EXPONENT: u8 = 13;

/// A VHT or HE receiver takes 2^(17+x) - 1 octets, if no other number was stated. Its own exponent is x + 4:
/// that the exponents 0 to 3 here mean 4 to 7 there is this project's own rule.
const LEAST_EXPONENT: u8 = 17;

/// The pause between a frame and its answer at 5 GHz, in microseconds (18.4.4).
pub(crate) const SIFS: u32 = 16;

/// The format of a transmission, with the parameters of each.
#[derive(Clone, Copy, Debug, PartialEq, Eq)]
pub(crate) enum Format {
    Ht {
        mcs: u8,
        mhz: u8,
        short: bool,
    },
    Vht {
        mcs: u8,
        mhz: u8,
        short: bool,
        streams: u8,
    },
    He {
        mcs: u8,
        mhz: u8,
        guard: u16,
        streams: u8,
    },
    Ofdm {
        mbps: u8,
    },
    Dsss {
        half_mbps: u8,
    },
}

/// The parts of a rate's durations, computed once.
#[derive(Clone, Copy, Debug, PartialEq, Eq)]
struct Timing {
    /// The data bits of a symbol, rounded down; of DSSS the halves of a bit in a microsecond.
    bits: u32,
    /// The bits of an octet; of DSSS the halves of a bit.
    octet: u32,
    /// The SERVICE field and the tail of each encoder, in bits.
    service_and_tails: u32,
    /// A symbol with its guard interval, in tenths of a microsecond.
    symbol: u32,
    /// The preamble, in tenths of a microsecond.
    preamble: u32,
    /// The payload's time is rounded up to a multiple of this, in tenths of a microsecond: a long symbol for
    /// HT and VHT, otherwise one tenth.
    unit: u32,
    /// The data rate in kbit/s, rounded down.
    kbps: u32,
}

/// A rate of HT with one or two spatial streams, of VHT or HE with one to eight, of OFDM, or of DSSS.
#[derive(Clone, Copy, Debug, PartialEq, Eq)]
pub struct Rate {
    pub(crate) format: Format,
    timing: Timing,
}

impl Model for Rate {
    ghost use Rattle.std.specs.Prelude.{◌≡◌};
    ghost use Rattle.std.proofs.Common.{sym};
    ghost use Rattle.wf_def_air.specs.Airtime.{Rate as RateValue, IsRate};
    ghost use Rattle.wf_air.specs.Rates.{rate_of, format_of, same_format, timing_of};

    ghost Value = { RateValue };

    ghost view = { λ r. rate_of r.format };

    // the timing belongs to the format
    ghost invariant = { λ r. IsRate (rate_of r.format) × (r.timing ≡ timing_of (rate_of r.format)) };

    ghost inverse = { λ v. record { format = format_of v; timing = timing_of v } };

    ghost inverse_ok = { λ r h i. record { format = same_format r.format i; timing = sym h.1 i } };
}

/// The refusal of a rate that does not exist: the MCS is above the format's greatest, the format does not
/// have the channel width, the guard interval or the speed, the number of spatial streams is not 1 to 8, or
/// it is one of the ten combinations that VHT excludes.
#[derive(Clone, Copy, Debug, PartialEq, Eq, Error)]
#[error("there is no such rate")]
pub struct BadRate;

// Returns whether VHT and HE have this channel width, in MHz.
fn is_wide_width(mhz: u8) -> bool
    ensures { result ≡ is_wide_width mhz }
{
    matches!(mhz, 20 | 40 | 80 | 160)
}

// Returns whether VHT and HE have this number of spatial streams.
fn are_streams(streams: u8) -> bool
    ensures { result ≡ are_streams streams }
{
    1 <= streams && streams <= GREATEST_STREAMS
}

// Returns whether VHT excludes this MCS on this width with this number of streams (21.5).
fn is_left_out(mcs: u8, mhz: u8, streams: u8) -> bool
    ensures { result ≡ has (streams_left_out mcs mhz) streams }
{
    match (mcs, mhz) {
        (9, 20) => matches!(streams, 1 | 2 | 4 | 5 | 7 | 8),
        (6, 80) => matches!(streams, 3 | 7),
        (9, 80) => streams == 6,
        (9, 160) => streams == 3,
        _ => false,
    }
}

// Returns the number of data carriers of HT and VHT on a width in MHz.
fn carriers_of_312(mhz: u8) -> u32
    ensures exact { result ≡ carriers_of_312 mhz }
    ensures most { result ≤ 1960 }
{
    match mhz {
        40 => 108,
        80 => 234,
        160 => 468,
        _ => 52,
    }
}

// Returns the number of data carriers of HE on a width in MHz.
fn carriers_of_78(mhz: u8) -> u32
    ensures exact { result ≡ carriers_of_78 mhz }
    ensures most { result ≤ 1960 }
{
    match mhz {
        40 => 468,
        80 => 980,
        160 => 1960,
        _ => 234,
    }
}

// Returns the number of encoders of a VHT rate with `bits` data bits in a symbol (21.5).
#[tactic(auto, using(crate::proofs::Ceilings::same_ceiling))]
fn vht_encoders(mcs: u8, mhz: u8, streams: u8, bits: u32) -> u32
    ensures { result ≡ vht_encoders mcs mhz streams bits }
{
    match (mhz, streams, mcs) {
        (80, 7, 2) => 3,
        (80, 7, 7) | (80, 7, 8) | (80, 8, 7) | (160, 4, 7) | (160, 7, 4) => 6,
        (160, 5, 8) | (160, 6, 7) | (160, 8, 5) => 8,
        (160, 7, 7) => 9,
        (160, 7, 8) | (160, 7, 9) | (160, 8, 8) => 12,
        _ => bits.div_ceil(ENCODER_BITS),
    }
}

// Returns the duration of a long training field of HE, in tenths of a microsecond, for a guard interval in
// nanoseconds.
fn he_training(guard: u16) -> u32
    requires { guard ≤ 3200 }
    ensures exact { result ≡ (if guard == 3200 then 128 else 64) + guard / 100 }
    ensures most { result ≤ 160 }
{
    let field = if guard == 3200 {
        LONG_HE_TRAINING
    } else {
        SHORT_HE_TRAINING
    };
    field + u32::from(guard / 100)
}

impl Format {
    // Returns the number of spatial streams.
    fn streams(self) -> u32
        requires { IsRate (rate_of self) }
        ensures exact { result ≡ streams (rate_of self) }
        ensures least { 1 ≤ result }
        ensures most { result ≤ 8 }
    {
        match self {
            Format::Ht { mcs, .. } => 1 + u32::from(mcs / 8),
            Format::Vht { streams, .. } | Format::He { streams, .. } => u32::from(streams),
            Format::Ofdm { .. } | Format::Dsss { .. } => 1,
        }
    }

    // Returns the index of the modulation and code in `BITS_OF_TWELVE`.
    fn modulation(self) -> usize
        requires { IsRate (rate_of self) }
        ensures exact { result ≡ modulation (rate_of self) }
        ensures most { result < 12 }
    {
        match self {
            Format::Ht { mcs, .. } => usize::from(mcs % 8),
            Format::Vht { mcs, .. } | Format::He { mcs, .. } => usize::from(mcs),
            Format::Ofdm { .. } | Format::Dsss { .. } => 0,
        }
    }

    // Returns the number of data carriers.
    fn carriers(self) -> u32
        requires { IsRate (rate_of self) }
        ensures exact { result ≡ carriers (rate_of self) }
        ensures most { result ≤ 1960 }
    {
        match self {
            Format::Ht { mhz, .. } | Format::Vht { mhz, .. } => carriers_of_312(mhz),
            Format::He { mhz, .. } => carriers_of_78(mhz),
            Format::Ofdm { .. } => 48,
            Format::Dsss { .. } => 1,
        }
    }

    // Returns the data bits of a symbol of a rate with an MCS, rounded down.
    fn coded_bits(self) -> u32
        requires { IsRate (rate_of self) }
        ensures exact { result ≡ coded_bits (rate_of self) }
        ensures most { result ≤ 130666 }
    {
        self.carriers() * self.streams() * BITS_OF_TWELVE[self.modulation()] / 12
    }

    // Returns the data bits of a symbol, rounded down; of DSSS the halves of a bit in a microsecond.
    #[tactic(auto, using(crate::proofs::Bounds::bits_least))]
    fn bits(self) -> u32
        requires { IsRate (rate_of self) }
        ensures exact { result ≡ bits (rate_of self) }
        ensures least { 2 ≤ result }
        ensures most { result ≤ 130666 }
    {
        match self {
            Format::Ht { .. } | Format::Vht { .. } | Format::He { .. } => self.coded_bits(),
            Format::Ofdm { mbps } => CONTROL_SYMBOL_TIME * u32::from(mbps),
            Format::Dsss { half_mbps } => u32::from(half_mbps),
        }
    }

    // Returns the bits of an octet; of DSSS the halves of a bit.
    fn octet(self) -> u32
        ensures exact { result ≡ octet_bits (rate_of self) }
        ensures most { result ≤ 16 }
    {
        match self {
            Format::Ht { .. } | Format::Vht { .. } | Format::He { .. } | Format::Ofdm { .. } => {
                OCTET_BITS
            }
            Format::Dsss { .. } => OCTET_HALVES,
        }
    }

    // Returns the bits of the SERVICE field and of the tails.
    fn service_and_tails(self) -> u32
        requires { IsRate (rate_of self) }
        ensures { result ≡ service_and_tails (rate_of self) }
    {
        match self {
            Format::Dsss { .. } => 0,
            _ => SERVICE_BITS + TAIL_BITS * self.encoders(),
        }
    }

    // Returns the number of encoders, each of which has a tail.
    fn encoders(self) -> u32
        requires { IsRate (rate_of self) }
        ensures exact { result ≡ encoders (rate_of self) }
        ensures most { result ≤ 15 }
    {
        match self {
            Format::Vht {
                mcs,
                mhz,
                streams,
                ..
            } => vht_encoders(mcs, mhz, streams, self.bits()),
            Format::Ht { .. } | Format::He { .. } | Format::Ofdm { .. } => 1,
            Format::Dsss { .. } => 0,
        }
    }

    // Returns the duration of a symbol with its guard interval, in tenths of a microsecond.
    fn symbol(self) -> u32
        requires { IsRate (rate_of self) }
        ensures exact { result ≡ symbol_tenths (rate_of self) }
        ensures least { 10 ≤ result }
        ensures most { result ≤ 160 }
    {
        match self {
            Format::Ht { short, .. } | Format::Vht { short, .. } => {
                if short { SHORT_SYMBOL } else { LONG_SYMBOL }
            }
            Format::He { guard, .. } => HE_SYMBOL + u32::from(guard / 100),
            Format::Ofdm { .. } => LONG_SYMBOL,
            Format::Dsss { .. } => TENTHS,
        }
    }

    // Returns the duration of the preamble, in tenths of a microsecond.
    fn preamble(self) -> u32
        requires { IsRate (rate_of self) }
        ensures exact { result ≡ preamble_tenths (rate_of self) }
        ensures most { result ≤ 1920 }
    {
        let fields = TRAINING_FIELDS[self.streams() as usize - 1];
        match self {
            Format::Ht { .. } => HT_PREAMBLE + TRAINING * fields,
            Format::Vht { .. } => LONG_PREAMBLE + TRAINING * fields,
            Format::He { guard, .. } => LONG_PREAMBLE + he_training(guard) * fields,
            Format::Ofdm { .. } => OFDM_PREAMBLE,
            Format::Dsss { .. } => DSSS_PREAMBLE,
        }
    }

    // Returns the unit of the payload's time, in tenths of a microsecond.
    fn unit(self) -> u32
        ensures { result ≡ unit_tenths (rate_of self) }
    {
        match self {
            Format::Ht { .. } | Format::Vht { .. } => LONG_SYMBOL,
            Format::He { .. } | Format::Ofdm { .. } | Format::Dsss { .. } => 1,
        }
    }

    // Returns the data rate in kbit/s, rounded down.
    fn kbps(self) -> u32
        requires { IsRate (rate_of self) }
        ensures { result ≡ kbps (rate_of self) }
    {
        match self {
            Format::Ht { .. } | Format::Vht { .. } | Format::He { .. } => {
                10_000 * self.bits() / self.symbol()
            }
            Format::Ofdm { mbps } => KBPS * u32::from(mbps),
            Format::Dsss { half_mbps } => HALF_KBPS * u32::from(half_mbps),
        }
    }

    // Returns the parts of the durations.
    fn timing(self) -> Timing
        requires { IsRate (rate_of self) }
        ensures { result ≡ timing_of (rate_of self) }
    {
        Timing {
            bits: self.bits(),
            octet: self.octet(),
            service_and_tails: self.service_and_tails(),
            symbol: self.symbol(),
            preamble: self.preamble(),
            unit: self.unit(),
            kbps: self.kbps(),
        }
    }
}

impl Rate {
    // Returns the rate of a format.
    fn of(format: Format) -> Rate
        requires { IsRate (rate_of format) }
        ensures { result ≡ rate_of format }
    {
        Rate {
            format,
            timing: format.timing(),
        }
    }

    /// Returns the HT rate of an MCS, 0 to 15, a channel width of 20 or 40 MHz and a short (400 ns) or long
    /// (800 ns) guard interval (20.6). Fails if there is no such rate.
    pub fn ht(mcs: u8, mhz: u8, short: bool) -> Result<Rate, BadRate>
        ensures made { IfOk result (λ r. r ≡ Ht mcs mhz short) }
        ensures within { IfOk result (λ _. is_rate (Ht mcs mhz short) ≡ true) }
        ensures refused { IfErr result (λ _. is_rate (Ht mcs mhz short) ≡ false) }
    {
        if mcs > GREATEST_HT_MCS || (mhz != 20 && mhz != 40) {
            return Err(BadRate);
        }
        Ok(Rate::of(Format::Ht { mcs, mhz, short }))
    }

    /// Returns the VHT rate of an MCS, 0 to 9, a channel width of 20, 40, 80 or 160 MHz, a short (400 ns) or
    /// long (800 ns) guard interval and 1 to 8 spatial streams. Fails if there is no such rate, which
    /// includes ten combinations of these values (21.5).
    pub fn vht(mcs: u8, mhz: u8, short: bool, streams: u8) -> Result<Rate, BadRate>
        ensures made { IfOk result (λ r. r ≡ Vht mcs mhz short streams) }
        ensures within { IfOk result (λ _. is_rate (Vht mcs mhz short streams) ≡ true) }
        ensures refused { IfErr result (λ _. is_rate (Vht mcs mhz short streams) ≡ false) }
    {
        if mcs > GREATEST_VHT_MCS
            || !is_wide_width(mhz)
            || !are_streams(streams)
            || is_left_out(mcs, mhz, streams)
        {
            return Err(BadRate);
        }
        Ok(Rate::of(Format::Vht {
            mcs,
            mhz,
            short,
            streams,
        }))
    }

    /// Returns the HE rate of an MCS, 0 to 11, a channel width of 20, 40, 80 or 160 MHz, a guard interval of
    /// 800, 1600 or 3200 ns and 1 to 8 spatial streams (27.5). Fails if there is no such rate.
    pub fn he(mcs: u8, mhz: u8, guard: u16, streams: u8) -> Result<Rate, BadRate>
        ensures made { IfOk result (λ r. r ≡ He mcs mhz guard streams) }
        ensures within { IfOk result (λ _. is_rate (He mcs mhz guard streams) ≡ true) }
        ensures refused { IfErr result (λ _. is_rate (He mcs mhz guard streams) ≡ false) }
    {
        if mcs > GREATEST_HE_MCS
            || !is_wide_width(mhz)
            || !are_streams(streams)
            || !matches!(guard, 800 | 1600 | 3200)
        {
            return Err(BadRate);
        }
        Ok(Rate::of(Format::He {
            mcs,
            mhz,
            guard,
            streams,
        }))
    }

    /// Returns the rate of OFDM of 6, 9, 12, 18, 24, 36, 48 or 54 Mbit/s (18.3.2.3). Fails if there
    /// is none.
    pub fn ofdm(mbps: u8) -> Result<Rate, BadRate>
        ensures made { IfOk result (λ r. r ≡ Ofdm mbps) }
        ensures within { IfOk result (λ _. is_rate (Ofdm mbps) ≡ true) }
        ensures refused { IfErr result (λ _. is_rate (Ofdm mbps) ≡ false) }
    {
        if !is_ofdm(mbps) {
            return Err(BadRate);
        }
        Ok(Rate::of(Format::Ofdm { mbps }))
    }

    /// Returns the rate of DSSS, with its long preamble, of 2, 4, 11 or 22 half Mbit/s (17.2.3.3). Fails if
    /// there is none.
    pub fn dsss(half_mbps: u8) -> Result<Rate, BadRate>
        ensures made { IfOk result (λ r. r ≡ Dsss half_mbps) }
        ensures within { IfOk result (λ _. is_rate (Dsss half_mbps) ≡ true) }
        ensures refused { IfErr result (λ _. is_rate (Dsss half_mbps) ≡ false) }
    {
        if !is_dsss(half_mbps) {
            return Err(BadRate);
        }
        Ok(Rate::of(Format::Dsss { half_mbps }))
    }

    /// Returns the most robust rate: HT MCS 0, 20 MHz, long guard interval.
    pub fn lowest() -> Rate
        ensures { result ≡ lowest_rate }
    {
        Rate::of(Format::Ht {
            mcs: 0,
            mhz: 20,
            short: false,
        })
    }

    /// Returns the least value of the setting `legacy` with which a station may have this rate: 0 for HT, VHT
    /// and HE, 1 for OFDM and 2 for DSSS.
    pub fn legacy(self) -> u32
        ensures exact { result ≡ legacy_of self }
        ensures most { result ≤ 2 }
    {
        match self.format {
            Format::Ht { .. } | Format::Vht { .. } | Format::He { .. } => 0,
            Format::Ofdm { .. } => 1,
            Format::Dsss { .. } => 2,
        }
    }

    /// Returns whether data at this rate is one frame, which an Ack answers: it is a rate of OFDM or DSSS.
    pub fn is_single(self) -> bool
        ensures { result ≡ is_single self }
    {
        self.legacy() > 0
    }

    /// Returns the data rate in kbit/s, rounded down. In each of HT, VHT and HE, only MCS 0 on 20 MHz with
    /// one stream is below 12,000.
    #[tactic(auto, using(crate::proofs::Bounds::kbps_least, crate::proofs::Bounds::kbps_most))]
    pub fn kbps(self) -> u32
        ensures exact { result ≡ kbps self }
        ensures least { least_kbps self ≤ result }
        ensures most { result ≤ most_kbps }
    {
        self.timing.kbps
    }

    /// Returns the duration of an aggregate of `octets` octets in microseconds: preamble and payload (TXTIME:
    /// 20.4.3, 21.4.3, 27.4.3, 18.4.3, 17.3.4). The time of an HE aggregate is rounded up. An aggregate of
    /// one frame takes at most 3000 microseconds, one frame of OFDM at most 3200, and one of DSSS at most
    /// 19,200.
    pub fn data_time(self, octets: u32) -> u32
        requires { octets ≤ longest_aggregate }
        ensures exact { result ≡ data_time self octets }
        ensures most { result ≤ longest_time }
        ensures single { octets ≤ longest_single → result ≤ alone_at self }
    {
        let timing = self.timing;
        let symbols = (timing.octet * octets + timing.service_and_tails).div_ceil(timing.bits);
        let payload = (timing.symbol * symbols).div_ceil(timing.unit) * timing.unit;
        (timing.preamble + payload).div_ceil(TENTHS)
    }

    /// Returns the charge of a data exchange in microseconds: its data time, SIFS and the BlockAck. `answers`
    /// is the setting of that name, and `wide` says that the session's window is above 64, whose BlockAck
    /// takes longer.
    pub fn data_charge(self, octets: u32, answers: u32, wide: bool) -> u32
        requires { octets ≤ longest_aggregate }
        ensures exact { result ≡ data_charge answers self octets wide }
        ensures most { is_single self ≡ false → result ≤ data_time self octets + longest_answer answers 0 }
    {
        self.data_time(octets) + SIFS + answer_time(self.control_mbps(answers), wide)
    }

    /// Returns the octets of a frame that an Ack answers, if an aggregate of it has `octets`. It has a
    /// delimiter only at a rate of VHT or HE.
    pub fn plain_octets(self, octets: u32) -> u32
        ensures exact { (lens : List ℕ) → octets ≡ aggregate_octets lens → result ≡ plain_octets self lens }
        ensures most { result ≤ octets }
    {
        match self.format {
            Format::Ht { .. } | Format::Ofdm { .. } | Format::Dsss { .. } => {
                octets.saturating_sub(DELIMITER_OCTETS)
            }
            Format::Vht { .. } | Format::He { .. } => octets,
        }
    }

    /// Returns the charge of a frame that an Ack answers in microseconds: its data time, SIFS and the Ack.
    /// `answers` is the setting of that name.
    pub fn plain_charge(self, octets: u32, answers: u32) -> u32
        requires { octets ≤ longest_aggregate }
        ensures exact { result ≡ plain_charge answers self octets }
        ensures most { result ≤ data_time self octets + longest_answer answers (legacy_of self) }
    {
        self.data_time(octets) + SIFS + control_time(self.control_mbps(answers), ACK_OCTETS)
    }

    /// Returns the charge of an exchange of a BlockAckReq in microseconds: the request, SIFS and its
    /// BlockAck. `answers` is the setting of that name, and `wide` says that the session's window is above
    /// 64.
    pub fn request_charge(self, answers: u32, wide: bool) -> u32
        ensures exact { result ≡ request_charge answers self wide }
        ensures most { result ≤ 1040 }
    {
        let mbps = self.control_mbps(answers);
        control_time(mbps, REQUEST_OCTETS) + SIFS + answer_time(mbps, wide)
    }

    /// Returns the rate of control frames in Mbit/s, for a station with this rate of data. If the setting
    /// `answers` is not 0 it is the highest of 6, 12 and 24 that is not above the data's (IEEE 802.11-2012,
    /// 9.7.6.5.2), and for data of DSSS 1 or 2, of DSSS too; otherwise 24.
    pub fn control_mbps(self, answers: u32) -> u32
        ensures exact { result ≡ control_mbps answers self }
        ensures known { IsControl result }
    {
        if answers == 0 {
            FAST_MBPS
        } else if self.legacy() > 1 {
            self.dsss_mbps()
        } else if self.kbps() >= KBPS * FAST_MBPS {
            FAST_MBPS
        } else if self.kbps() >= KBPS * MIDDLE_MBPS {
            MIDDLE_MBPS
        } else {
            SLOW_MBPS
        }
    }

    // Returns the rate of DSSS in Mbit/s at which control frames answer data of DSSS.
    fn dsss_mbps(self) -> u32
        ensures exact { result ≡ dsss_mbps self }
        ensures known { IsControl result }
    {
        if self.kbps() >= KBPS * FAST_DSSS_MBPS {
            FAST_DSSS_MBPS
        } else {
            SLOW_DSSS_MBPS
        }
    }

    /// Returns the most octets of an aggregate for a receiver with this maximum A-MPDU length exponent, 0 to
    /// 3. At a rate of VHT or HE it is `stated`, 4,096 to 6,500,631, or `2^(17+exponent) - 1` if nothing was
    /// stated. At any other rate it is `2^(13+exponent) - 1`.
    pub fn most_octets(self, exponent: u8, stated: Option<u32>) -> u32
        requires exponent_in { exponent ≤ 3 }
        requires stated_in { IfSome stated (λ n. (least_ampdu ≤ n) × (n ≤ greatest_ampdu)) }
        ensures exact { result ≡ most_octets self exponent stated }
        ensures least { longest_single ≤ result }
        ensures most { result ≤ greatest_ampdu }
    {
        match self.format {
            Format::Ht { .. } | Format::Ofdm { .. } | Format::Dsss { .. } => {
                (1 << (LEAST_HT_EXPONENT + exponent)) - 1
            }
            Format::Vht { .. } | Format::He { .. } => match stated {
                Some(octets) => octets,
                None => (1 << (LEAST_EXPONENT + exponent)) - 1,
            },
        }
    }
}

/// Returns the greatest charge of an exchange in microseconds, if the data of an aggregate take at most
/// `time` microseconds: its data, which a frame alone may exceed, SIFS and the longest answer. `answers` and
/// `legacy` are the settings of these names.
pub fn longest_charge(time: u32, answers: u32, legacy: u32) -> u32
    requires { time ≤ 65535 }
    ensures { result ≡ max time (longest_alone legacy) + longest_answer answers legacy }
{
    time.max(longest_alone(legacy)) + longest_answer(answers, legacy)
}

// Returns the time of the pause and the longest answer in microseconds, by the settings `answers` and
// `legacy`.
fn longest_answer(answers: u32, legacy: u32) -> u32
    ensures exact { result ≡ longest_answer answers legacy }
    ensures most { result ≤ 320 }
{
    if answers == 0 {
        SIFS + answer_time(FAST_MBPS, true)
    } else if legacy <= 1 {
        SIFS + answer_time(SLOW_MBPS, true)
    } else {
        SIFS + control_time(SLOW_DSSS_MBPS, ACK_OCTETS)
    }
}

// Returns whether there is a rate of OFDM of this speed in Mbit/s.
fn is_ofdm(mbps: u8) -> bool
    ensures { result ≡ has ofdm_rates mbps }
{
    matches!(mbps, 6 | 9 | 12 | 18 | 24 | 36 | 48 | 54)
}

// Returns whether there is a rate of DSSS of this speed in half Mbit/s.
fn is_dsss(half_mbps: u8) -> bool
    ensures { result ≡ has dsss_rates half_mbps }
{
    matches!(half_mbps, 2 | 4 | 11 | 22)
}

// Returns the duration in microseconds of a control frame of at most 64 octets, at a rate in Mbit/s.
fn control_time(mbps: u32, octets: u32) -> u32
    requires mbps_in { IsControl mbps }
    requires octets_in { octets ≤ 64 }
    ensures exact { result ≡ control_time mbps octets }
    ensures most { result ≤ 704 }
{
    if mbps <= FAST_DSSS_MBPS {
        dsss_control_time(mbps, octets)
    } else {
        ofdm_control_time(mbps, octets)
    }
}

// Returns the duration in microseconds of a control frame of at most 64 octets, in DSSS at a rate in Mbit/s.
#[tactic(auto, using(crate::proofs::Ceilings::same_ceiling))]
fn dsss_control_time(mbps: u32, octets: u32) -> u32
    requires mbps_in { 1 ≤ mbps }
    requires octets_in { octets ≤ 64 }
    ensures exact { result ≡ dsss_control_time mbps octets }
    ensures most { result ≤ 704 }
{
    DSSS_PREAMBLE_TIME + (OCTET_BITS * octets).div_ceil(mbps)
}

// Returns the duration in microseconds of a control frame of at most 64 octets, in OFDM at a rate in Mbit/s.
#[tactic(auto, using(crate::proofs::Ceilings::same_ceiling))]
fn ofdm_control_time(mbps: u32, octets: u32) -> u32
    requires mbps_in { (6 ≤ mbps) × (mbps ≤ 24) }
    requires octets_in { octets ≤ 64 }
    ensures exact { result ≡ ofdm_control_time mbps octets }
    ensures most { result ≤ 704 }
{
    let bits = OCTET_BITS * octets + SERVICE_BITS + TAIL_BITS;
    CONTROL_PREAMBLE_TIME + CONTROL_SYMBOL_TIME * bits.div_ceil(CONTROL_SYMBOL_TIME * mbps)
}

// Returns the duration of a BlockAck at a rate in Mbit/s, in microseconds.
pub(crate) fn answer_time(mbps: u32, wide: bool) -> u32
    requires { IsControl mbps }
    ensures exact { result ≡ answer_time mbps wide }
    ensures most { result ≤ 704 }
{
    control_time(
        mbps,
        if wide {
            WIDE_ANSWER_OCTETS
        } else {
            ANSWER_OCTETS
        },
    )
}
