//! The flow queues of "Ending the Anomaly" (USENIX ATC 2017, section 3.1, algorithms 1 and 2), with CoDel
//! (RFC 8289). `Flows::put` is the paper's enqueue, `Flows::take` its dequeue, and `Flows::purge` drops the
//! frames of a TID whose station leaves; the contracts state each exactly. A flow's number selects a shared
//! queue, a queue belongs to the TID whose rotation lists it, CoDel takes the frames out, and at the limit
//! the head of the longest queue is dropped.
//!
//! ```text
//! let mut flows = Flows::new(alloc, config)?;
//! let lost = flows.put(parcel, now);              // Some(lost) if the limit drops a frame
//! let taken = flows.take(station, tid, now, params);
//! while let Some(parcel) = flows.reap() { .. }    // the frames that were dropped or are finished
//! ```
//!
//! A `Flows` holds a `Backlog`: the numbered queues, each with a CoDel state, and the list of the finished
//! frames, with one shared room. It finds the longest queue when the limit asks for it. CoDel itself, over
//! any lane of frames, is the module `codel`.
#![tactic(auto)]

ghost use Rattle.std.specs.Prelude.{◌≡◌, ℕ};
ghost use Rattle.wf_def_codel.specs.Codel.{octets};
ghost use Rattle.wf_def_world.specs.World.{World, queue};
ghost use Rattle.wf_def_world.specs.FlowQueues.{longest_queue};
ghost use Rattle.wf_queue_flows.specs.Backlog.{BacklogValue, frames_at, queue_octets, IsLongest};

mod backlog;
pub mod codel;
mod flows;
mod lane;

pub use backlog::{Backlog, Taken};
pub use flows::{Flows, Lost};

/// States that the longest queue of a backlog is the longest queue of each world whose queues have the same
/// octets.
pub fn longest_is_the_worlds()
    ensures { (v : BacklogValue) (w : World) (q : ℕ) →
        ((k : ℕ) → queue_octets (frames_at v k) ≡ octets (queue w k).items) →
        IsLongest v q → longest_queue w ≡ q }
{}
