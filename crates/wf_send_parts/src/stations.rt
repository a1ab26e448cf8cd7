//! The stations: rate, length exponent, turns and sums of airtime of each live one (`Members`); which of
//! their TIDs have a block acknowledgement agreement (`Modes`); which of them sleep, the credits of their
//! polls and their service periods (`Sleepers`; IEEE 802.11-2012, 10.2.1); and the counts of frames by fate
//! (`Tally`).

mod laws;
mod members;
mod modes;
mod sleepers;
mod tally;

pub use laws::many_settle_one_by_one;
pub use members::{Member, Members};
pub use modes::{Mode, Modes};
pub use sleepers::{Sleeper, Sleepers};
pub use tally::Tally;
