//! The commands that replay a trace, over any source and sink: `replay` writes an answer line for each call,
//! and `capture::capture` writes a capture file.
//!
//! ```text
//! let status = replay(alloc, &mut source, &mut sink);    // reads "cell", "join 0 64 100 3", "end"
//! ```
//!
//! Both run the loop `play`. It makes the calls of the trace on any type that `Plays`, and any type that
//! `Tells` says what to write for each of them. The one `impl` of `Plays` is `Stage`: a cell, and the
//! allocator of its frames. `AnswerLines` is the `impl` of `Tells` for `replay`: it collects the answer lines
//! in an `Outgoing`, and writes them before the source is read again. `capture::Packets` is the one for
//! captures.
#![tactic(auto)]

mod answers;
pub mod capture;
mod command;
mod outgoing;
mod runner;
mod stage;
mod tells;

pub use command::replay;
pub use runner::play;
pub use stage::{Plays, Stage};
pub use tells::Tells;
