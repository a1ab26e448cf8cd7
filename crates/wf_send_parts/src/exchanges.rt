//! The open exchanges, at most 32, in the order of their numbers: what each sends, to which station, and its
//! charge (`Opened`). Only `new` allocates. `widened` converts a bitmap of 64 bits to one of 256.

mod narrow;
mod opened;

pub use narrow::widened;
pub use opened::{MOST_OPEN, MOST_STATIONS, Numbers, Open, Opened, Sending};
