//! The workers of the command `live`, without threads: senders, which enqueue frames (`send`), and drivers,
//! which send them (`drive`). A worker makes its calls at a `Desk`, which counts the calls that are left and
//! keeps those that were made. The code that runs the workers gives each one a desk at a gate.
//!
//! The module also contains the opening calls, which are made before the gate opens (`open_stations`, over
//! any type that `Opens`); the standard stations, which a soak has as well (`standard_join`,
//! `standard_rate`); and the laws of the calls in a history: each call can be printed, since an exchange that
//! a driver's call names has begun before it.

mod desk;
mod driver;
mod laws;
mod opening;
mod sender;
mod stations;

pub use desk::{Desk, Spent};
pub use driver::drive;
pub use laws::{sender_law, walk_law};
pub use opening::{Opens, open_stations};
pub use sender::send;
pub use stations::{standard_join, standard_rate};
