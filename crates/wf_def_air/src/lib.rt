//! Airtime and aggregate sizes, as definitions: the rates and durations of HT (IEEE 802.11-2012, clause
//! 20), VHT (802.11-2016, clause 21) and HE (802.11ax-2021, clause 27), the charges of exchanges
//! (specs/Airtime), and which frames fit one aggregate (specs/Fit).
//!
//! This crate contains no code. Contracts of other crates cite its definitions. For example, proofs/Rates
//! computes that 1538 octets take 60 microseconds at VHT MCS 9, 80 MHz, short guard interval and 2 streams.
#![tactic(auto)]
