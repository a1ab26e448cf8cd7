//! Writes the trace of a history with the standard settings: `write_trace` writes its text, several lines
//! at once. `trace_law` says that the text is read as the same history.

mod history;
mod law;
mod writing;

pub use history::Entries;
pub use law::trace_law;
pub use writing::write_trace;
