//! The transmit path that drivers use, `Path`: the transmit half, and the octets that it sends and reads.
//!
//! `call` makes any call except those about an open exchange. `done_bits` and `done_bytes` end an exchange by
//! the BlockAck that the driver heard, and `done_ack` a plain one, which an Ack answers. `has_small_counts`
//! returns whether these calls may be made.
//!
//! `sent`, `frame_id`, `frame_tag`, `header` and `mpdu` describe the transmissions of an open exchange, as
//! values and as octets (IEEE 802.11-2012, 8.2.4, 8.3.1.8, 8.3.2.1; specs/Transmissions). `done_bytes` reads
//! a BlockAck (8.3.1.9), and `tim` writes the TIM element of a BSS for its sleeping stations (8.4.2.7).
//! `accept_group`, `group_frame` and `group_header` are for the group frames of a BSS, and `beacon` describes
//! its latest beacon (10.2.1.4). A new path has placeholder addresses, which `set_base`, `set_address`,
//! `set_bss_address` and `set_aid` replace. Only `new` allocates memory.
//!
//! By the invariant of `Path` its transmit half represents an unheard world of a run, so each clause that
//! holds for every such world says something.
#![tactic(auto)]

mod addresses;
mod agreements;
mod answers;
mod asks;
mod bss;
mod calls;
mod clock;
mod driver;
mod each;
mod faults;
mod flights;
mod group;
mod job;
mod path;
mod queues;
mod reading;
mod service;
mod small;
mod standing;
mod traffic;
mod unsettled;
mod writing;

pub use asks::{ExchangeAsk, PathAsk, PathJob};
pub use each::Outcome;
pub use faults::{AidFault, BadAddress, DoneFault, NewFault, PathFault};
pub use job::{Job, each_time_that_a_frame_is_sent_counts};
pub use path::Path;
pub use reading::Sent;
pub use small::first_calls_law;
