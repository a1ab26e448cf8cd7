//! Gates with two seats, and threads that call through one gate.

mod busy;
mod clock;
mod pair;
mod threads;
