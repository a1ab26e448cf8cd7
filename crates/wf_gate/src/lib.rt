//! A ticket gate: many threads make calls on one machine, one after another.
//!
//! A gate is a ticket lock with ghost state: each seat knows a prefix of the machine's history. A call of a
//! seat draws a ticket, waits until its ticket is served, makes one step of the machine, and serves the next
//! ticket. So the history contains each call exactly once, in the order of the tickets. A burst of calls
//! draws a ticket for each of them, with consecutive numbers, and waits once.
//!
//! ```text
//! let (gate, mut seats) = Gate::new(alloc, machine, &[9, 1])?;   // seat 0 may make 9 calls, seat 1 one
//! let mut one = seats.pop().expect(&rt, "a seat");
//! let mut zero = seats.pop().expect(&rt, "a seat");
//! gate.call(&rt, &mut zero, call)?;                              // waits for its turn
//! gate.try_call(&mut one, call)?;                                // or fails, if another call is under way
//! gate.call_all(&rt, &mut zero, &mut calls, &mut replies)?;      // waits once and makes many calls
//! let machine = gate.close(seats);                               // once both seats are pushed back
//! ```
#![tactic(auto)]

mod bursts;
mod crossing;
mod dealing;
mod gate;
mod plays;
mod seat;
mod tries;
mod turn;
mod turnstile;
mod view;

pub use gate::{Gate, Spent};
pub use seat::{Seat, SeatOf};
pub use tries::TryFault;
pub use turnstile::{Free, Turnstile};
pub use wf_machine::Machine;
