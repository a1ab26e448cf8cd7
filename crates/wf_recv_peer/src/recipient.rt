//! The recipient's side of one agreement (IEEE 802.11-2012, 9.21.7): the scoreboard, which says which numbers
//! of its window arrived (`Score`), and the reordering buffer, which passes items up in the order of their
//! numbers (`Reorder`). Both accept every sequence of numbers, also with jumps.

mod reorder;
mod score;

pub use reorder::Reorder;
pub use score::Score;
