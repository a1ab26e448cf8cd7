//! Cells for test benches in C: the transmit path, the receive halves of the stations, and the history of the
//! calls.

pub(crate) mod answers;
pub(crate) mod asks;
pub(crate) mod burst;
pub(crate) mod calls;
pub(crate) mod frames;
pub(crate) mod held;
pub(crate) mod make;
pub(crate) mod readers;
pub(crate) mod slot;
