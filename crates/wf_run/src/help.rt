//! Parses the words of the command line (`command_from`), and writes what the program says of itself: `help`
//! writes the help on a topic, `version` writes the version, and `usage` returns the text for words that are
//! no command.

mod telling;
mod texts;
mod topic;
mod words;

pub use telling::{help, usage, version};
pub use topic::Topic;
pub use words::{Command, command_from};
