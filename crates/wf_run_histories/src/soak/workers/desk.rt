//! The desk, at which a worker makes its calls.

ghost use Rattle.std.specs.Prelude.{◌≡◌, ℕ, List, true, false, OnOk, OnErr, length};
ghost use Rattle.wf_frame.specs.Answers.{reply_of};
ghost use Rattle.wf_frame.specs.declared.notes.Note.TheVariants.{Enqueue, Asked};
ghost use Rattle.wf_frame.specs.declared.notes.ReplyNote.{ReplyNote};
ghost use Rattle.wf_run_histories.specs.Workloads.{Made, is_done};
ghost use Rattle.wf_run_histories.specs.Desks.{Adds, Refuses};

use wf_frame::{Answer, Ask};
use wf_queue_parts::chain::Parcel;

/// The error that no call is left.
#[derive(Debug, Drop)]
pub struct Spent;

/// A place for one worker to make a limited number of calls.
pub trait Desk {
    /// The place of the desk, which no call changes.
    type Place;

    /// The desk is at this place, and these are all calls that were made there, in order, each with its
    /// reply.
    ghost has: { Self → Self.Place → List Made → Type 0 };

    /// The number of calls that are left.
    ghost left: { Self → ℕ };

    /// The reply to the last call.
    ghost reply: { Self → ReplyNote };

    /// Returns the number of calls that are left.
    fn left(&self) -> u32
        ensures { result ≡ left self.now };

    /// Returns the answer to the last call.
    fn answer(&self) -> &Answer
        ensures { reply_of result.now ≡ reply self.now };

    /// Enqueues a frame. A frame that the call returns is dropped. Fails if no call is left.
    fn give(&mut self, parcel: Parcel) -> Result<(), Spent>
        ensures made { OnOk result (Adds has left self.old self.new
            (Enqueue parcel.station parcel.tid parcel.flow (length parcel.body)) (reply self.new)) }
        ensures spent { OnErr result (Refuses has left self.old self.new) };

    /// Makes a call that has no frame and ends no exchange, and waits for its turn. Fails if no call is left.
    fn ask(&mut self, ask: Ask) -> Result<(), Spent>
        requires in_turn { is_done ask ≡ false }
        ensures made { OnOk result (Adds has left self.old self.new (Asked ask) (reply self.new)) }
        ensures spent { OnErr result (Refuses has left self.old self.new) };

    /// Ends an exchange. It tries the call first, so that it waits only if other seats are at the gate. Fails
    /// if no call is left.
    fn ask_at_once(&mut self, ask: Ask) -> Result<(), Spent>
        requires at_once { is_done ask ≡ true }
        ensures made { OnOk result (Adds has left self.old self.new (Asked ask) (reply self.new)) }
        ensures spent { OnErr result (Refuses has left self.old self.new) };
}
