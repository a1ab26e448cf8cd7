//! The airtime scheduler of stations ("Ending the Anomaly", USENIX ATC 2017, section 3.2): it decides which
//! station of an access class sends next. Each of the four classes has a rotation of stations with deficits
//! in microseconds of airtime. The contracts state each call exactly.
//!
//! ```text
//! let mut sched = Sched::new(alloc, 2, 300)?;        // 2 stations, a quantum of 300 us
//! sched.join(0, 1);                                  // station 0 joins with weight 1
//! sched.list(0, Class::Be, true);                    // it has a frame
//! let station = sched.pick(Class::Be, ready);        // Some(0), if ready[0]
//! sched.charge(0, Class::Be, 1200);                  // the exchange took 1,200 us
//! ```
#![tactic(auto)]

mod debt;
mod sched;

pub use debt::Debt;
pub use sched::Sched;
pub use wf_rotation::Side;
