//! Input and output of octets. A `Source` and a `Sink` count their faults; there are some in memory (`Given`,
//! `Kept`) and over std (`StdSource`, `StdSink`). A `Line` is a buffer in which a line of text is built,
//! `value_of` reads decimal digits, and `Status` says how a command ends. The module `pcap` reads and writes
//! capture files in the format of libpcap.
//!
//! ```text
//! let mut sink = Kept::new(alloc, 64, 64, failing)?;
//! let mut line = Line::new();
//! line.push_line(b"now", &[Word::Number(5)]);
//! write_line(&mut sink, &line)?;                   // sink.octets() is b"now 5\n"
//! ```
#![tactic(auto)]

mod digits;
mod given;
mod kept;
mod line;
pub mod pcap;
mod sink;
mod source;
mod standard;
mod status;

pub use digits::value_of;
pub use given::Given;
pub use kept::Kept;
pub use line::{Line, Word};
pub use sink::{Sink, write_all, write_line};
pub use source::{Failed, MOST_OCTETS, Source};
pub use standard::{StdSink, StdSource};
pub use status::Status;
