//! The command `soak`: the cell after the random history of a seed and a number of calls.
//!
//! The module `workers` contains the senders and drivers of `live` without threads, and the standard stations
//! of both commands.

mod soaks;
pub mod workers;

pub use soaks::{SoakKind, soak};
