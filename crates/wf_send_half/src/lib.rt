//! The transmit half of an access point, `Transmit`: the flow queues, the scheduler, the windows, the live
//! stations, the sleepers, the open exchanges and the group frames, and which stations are ready. It has a
//! method for each call of the machine (`wf_def_world`) except those of receivers, and methods that read it.
//!
//! A refused call changes nothing, except, without the setting `pending`, a pull that is idle. Only `new`
//! allocates memory. `Transmit` stores the flags and the parts, which are a `Half`: the methods of `Half`
//! change the parts, and those of `Transmit` set the flags afterwards. `unheard` has the law of a half whose
//! driver knows receivers by BlockAcks alone.
#![tactic(auto)]

mod bounds;
mod calls;
mod clock;
mod enqueue;
mod fill;
mod finish;
mod flags;
mod flush;
mod frames;
mod group;
mod half;
mod leave;
mod marks;
mod modes;
mod pending;
mod pull;
mod queues;
mod readers;
mod ready;
mod refuse;
mod service;
mod stations;
mod transmit;
pub mod unheard;
mod weigh;

pub use enqueue::Admission;
pub use finish::Ended;
pub use transmit::Transmit;
