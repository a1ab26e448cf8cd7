//! The command `session`. It runs a script of the events at both ends of one TID's agreement, and answers
//! each event.
//!
//! Each end receives the other's messages as octets. The script says which of the messages that were sent
//! arrive, in any order, any number of times or never.

mod answers;
mod command;
mod lines;
mod message;
mod parley;
mod refusal;
mod verb;

pub use command::session;
pub use lines::event_from;
pub use message::Message;
pub use parley::Parley;
pub use refusal::Refusal;
