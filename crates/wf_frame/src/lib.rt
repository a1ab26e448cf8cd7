//! The plain types that all other crates share.
//!
//! - `Frame` is a body of 1 to 2304 octets with its station, TID and flow, its source, tag and fate, and
//!   the number of its transmissions.
//! - `Config` has the settings of a cell, and `Field` their words, ranges and standard values.
//! - `Class`, `Fate` and `Cause` are the access classes, what became of a frame, and why it was dropped.
//! - `Note` is a call as numbers, and `CallForm` the table of the calls' words and arguments.
//! - `Answer` is the buffer that a caller lends to a call, and `Brief` what happened, in a few numbers.
//!   `Refusal` is why a call was refused.
//!
//! For example, with an allocator `alloc`:
//!
//! ```text
//! let mut frame = Frame::sample(alloc, 3, 5, 7, 1500)?; // station 3, TID 5, flow 7, 1500 octets
//! frame.set_tag(42);
//! Class::of_tid(frame.tid()); // Class::Vi
//! Config::standard().check(); // None: each setting is in its range
//! ```
#![tactic(auto)]

mod answers;
mod bounds;
mod calls;
mod classes;
mod frames;
mod lists;
mod notes;
mod refusals;
mod settings;
mod values;

pub use answers::{Answer, Brief, Kind};
pub use bounds::{
    COUNT_LIMIT, GREATEST_AIR, GREATEST_AMPDU, GREATEST_CLASSES, GREATEST_EXPONENT, GREATEST_START,
    GREATEST_TICK, GREATEST_TID, GREATEST_WEIGHT, GREATEST_WINDOW, LEAST_AMPDU, NARROW_WINDOW,
};
pub use calls::{Arg, Argument, CallForm, RateFormat, Value};
pub use classes::{Cause, Class, Fate, tid_number};
pub use frames::{Frame, GREATEST_BODY, source_address};
pub use lists::{FixedList, Ids, Pairs};
pub use notes::{
    Ask, AskedRate, GroupAsk, GroupCall, GroupReply, Limits, Note, Part, Refusal, ReplyNote,
    ServiceAsk, ServiceReply,
};
pub use settings::{Config, Field};
