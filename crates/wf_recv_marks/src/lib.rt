//! The marks of a simulated receiver: which transmissions of each open exchange arrived, and the BlockAck
//! that was made from them. Only `Marks::new` allocates.
//!
//! ```text
//! let mut marks = Marks::new(alloc)?;
//! marks.open(7);                                   // exchange 7
//! marks.arrive(7, 0);                              // its first transmission arrived
//! marks.keep(7, start, bits);                      // the station's answer
//! let found = marks.find_at(7);                    // Some((0, mark))
//! marks.close_at(0);
//! ```
#![tactic(auto)]

mod marks;

pub use marks::{Mark, Marks};
