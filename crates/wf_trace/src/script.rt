//! The loop of commands that answer scripts. A script has lines that are events, up to the line `end`; each
//! event is answered before the next is read.
//!
//! A command implements `Answers`: what its lines mean, and how it answers an event. `converse` does the
//! rest: it cuts the lines, checks them, writes the answers or the line of the first fault, and returns a
//! status.
//!
//! The module `history` writes the trace of a history.

mod answers;
mod conversation;
mod ending;
pub mod history;
mod reading;

pub use answers::{Answers, Unanswered, write_line};
pub use conversation::converse;
pub use ending::Ending;
