//! The originator's windows (IEEE 802.11-2012, 9.21.7). A `Window` holds the numbers of one TID from the
//! first unsettled one on. If it represents a session before a call, it represents the session with the
//! definition's change after it. `has_waiting` takes constant time. `Windows` holds the windows of all TIDs
//! by station and TID; each call changes one window only.
//!
//! The modules `sessions` and `many_sessions` have laws for callers' loops over a window, and for many
//! windows at once.

mod ending;
pub mod many_sessions;
mod passed;
mod place;
mod ring;
pub mod sessions;
mod window;
mod windows;

pub use ending::End;
pub use window::{Settled, Window};
pub use windows::Windows;
