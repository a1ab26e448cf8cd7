//! How a script ends.

use crate::Fault;

/// How a script ends.
#[derive(Clone, Copy)]
pub enum Ending {
    /// By the line `end`.
    Finish,
    /// By the first fault.
    Bad(Fault),
}
