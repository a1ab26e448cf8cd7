//! All commands of the program `wf`, over any source and sink.
//!
//! `run` runs the command that the words of a command line ask for: a replay of a trace, its capture, a soak,
//! a run on threads, a session, an uplink, the list of a capture, the help or the version. `soaked` runs a
//! soak alone. Their contracts state what the status of each command means.
//!
//! ```text
//! let status = run(rt, alloc, &words, &mut source, &mut sink, &Free);    // the words "soak", "1", "200000"
//! ```
//!
//! The module `help` parses the words of the command line, and writes the help and the version.
#![tactic(auto)]

mod commands;
pub mod help;

pub use commands::{run, soaked};
pub use help::Command;
pub use wf_io::Status;
pub use wf_run_replay::replay;
