//! Deficit round robin over numbered keys, as in "Ending the Anomaly" (USENIX ATC 2017): algorithm 2 picks a
//! flow queue and algorithm 3 a station, and both are the same loop. A `Rota` holds many disjoint rotations.
//! Each rotation has a list of new keys and a list of old keys; each key has a deficit and a quantum.
//!
//! ```text
//! let mut rota = Rota::new(alloc, 4, 1, 300)?;    // 4 keys, 1 rotation, a quantum of 300
//! rota.add_new(0, 2);                             // key 2 goes last on the new list of rotation 0
//! let pick = rota.pick(0, ready);                 // key 2, if ready[2]
//! rota.charge(2, 1500);                           // its deficit is -1200: it waits for 5 quanta
//! rota.remove(2);
//! ```
//!
//! The lists are linked both ways, so a key is added, moved and removed in constant time, and `where_is` and
//! `deficit` take constant time too. `pick` runs the paper's loop for at most 32 visits. If the loop has not
//! ended by then, `pick` finishes in closed form: one scan of the rotation finds the winner, and one pass
//! rebuilds the lists. For n listed keys a pick takes at most 32 + 2n + 2 steps, and it counts them.
#![tactic(auto)]

mod links;
mod pass;
mod rota;
mod scan;
mod side;

pub use rota::{Pick, Rota};
pub use side::Side;
