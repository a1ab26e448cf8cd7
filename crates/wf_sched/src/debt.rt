//! The refusal of a receive charge.

/// A receive charge was refused, because it would take the station's deficit further below 0 than the debt
/// that it may leave. Nothing has changed.
#[derive(Clone, Copy)]
pub struct Debt {
    /// The station's deficit in microseconds, which is unchanged.
    pub deficit: i64,
}
