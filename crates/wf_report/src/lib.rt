//! Writes the output of a run: `print_reply` writes the answer line of an answer, `summary` the summary of a
//! cell, and the module `captures` what each call puts on the air, as packets of a capture file.
//!
//! ```text
//! print_reply(&answer, &mut line);    // "accepted 0" and the octet 10
//! summary(&cell, &mut sink)?;         // "calls 10", "now 0", ..
//! ```
#![tactic(auto)]

pub mod captures;
mod parts;
mod reply;
mod report;
mod standing;

pub use reply::print_reply;
pub use report::summary;
