//! Airtime: the rates of HT, VHT, HE, OFDM and DSSS, how long transmissions take and what exchanges are
//! charged (`time`), and which frames fit into an aggregate (`fit`).
//!
//! ```text
//! let rate = Rate::vht(9, 80, true, 2)?;       // VHT MCS 9, 80 MHz, short guard interval, 2 streams
//! let kbps = rate.kbps();                      // 866_666
//! let limits = SizeLimits { octets: rate.most_octets(3, None), frames: 64, time: 4_000 };
//! let mut size = AggregateSize::new(rate, limits, 0, false);
//! while size.add(1_500) {}                     // frames of 1,500 octets, until one does not fit
//! let charge = size.air();                     // the exchange's airtime in microseconds
//! ```
#![tactic(auto)]

pub mod fit;
pub mod time;
