//! Reads and writes traces: histories of calls as text, one call per line.
//!
//! - `Cut` cuts the octets of a source into numbered lines, and skips comments and lines without words.
//! - `TraceReader` reads those lines as a head with settings, calls, and the line `end`, or as the first
//!   fault.
//! - `print_note` writes the line of a call, which is read back as the same call.
//! - The module `script` has the loop of commands that answer scripts of lines, and writes the trace of a
//!   history.
//!
//! Reading does not depend on how the source cuts its octets. `will_read` says whether the next call of
//! `next` may read the source. For example, `TraceReader` reads this trace as a head, two entries and the
//! end:
//!
//! ```text
//! cell stations=4
//! join 0 64 0 3
//! @7 enq 0 0 1 1500
//! end
//! ```
#![tactic(auto)]

mod args;
mod cut;
mod fault;
mod meaning;
mod print;
mod reader;
pub mod script;
mod settings;
mod values;
mod words;

pub use args::read_all;
pub use cut::{Cut, Piece};
pub use fault::{Fault, FaultKind, first_of, print_fault};
pub use print::print_note;
pub use reader::{Item, TraceReader};
pub use settings::parts_of;
pub use values::{end_at, long_at};
pub use wf_frame::{Arg, Value};
pub use words::{in_range, is_plain_number, next_word};
