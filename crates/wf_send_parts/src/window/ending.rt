//! How an exchange ends for one of its numbers.

/// How an exchange ends for one of its numbers.
#[derive(Clone, Copy)]
pub enum End {
    /// The number is acknowledged.
    Acknowledged,
    /// The number was sent and is not acknowledged.
    Missed,
    /// The number was sent and is not acknowledged, and the device will not try it again.
    GivenUp,
    /// The number never went on the air.
    Unsent,
}
