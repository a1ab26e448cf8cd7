//! One queue of a backlog, from which CoDel dequeues.

ghost use Rattle.std.specs.Prelude.{◌≡◌, ◌+◌, ◌<◌, ◌^◌, ◌↔◌, [], length, option_map, IfSome, IsNone, MatchOption};
ghost use Rattle.wf_queue_flows.specs.CodelParams.{params_of};
ghost use Rattle.wf_queue_flows.specs.Backlog.{frames_at, held_in_backlog, item_of, drops_at, given_at, backlog_after_take};

use crate::backlog::{Backlog, Taken, settle};
use crate::codel::{Lane, Params, Sight};
use wf_frame::{Cause, Fate};
use wf_queue_parts::chain::Parcel;

/// One queue of a backlog. The frames that it discards go last on the finished list as `Dropped(Codel)`.
#[derive(Drop)]
struct OneQueue<'a> {
    backlog: &'a mut Backlog,
    queue: u32,
    ghost within: { queue < length backlog.now.queues },
}

impl<'a> Lane for OneQueue<'a> {
    ghost use Rattle.std.specs.Prelude.{◌≡◌};
    ghost use Rattle.std.proofs.Common.{refl};
    ghost use Rattle.wf_frame.specs.declared.classes.Fate.TheVariants.{Dropped};
    ghost use Rattle.wf_frame.specs.declared.classes.Cause.TheVariants.{Codel as By_codel};
    ghost use Rattle.wf_queue_flows.specs.Backlog.{item_of, frame_with_fate, frames_at, spare_of};
    ghost use Rattle.wf_queue_flows.specs.OneQueue.{SameLane, SameLane-refl, SameLane-trans};

    type Item = Parcel;

    ghost look = { item_of };

    ghost tossed = { frame_with_fate (Dropped By_codel) };

    ghost rest = { λ l. frames_at l.backlog.now l.queue };

    ghost thrown = { λ l. l.backlog.now.finished };

    ghost same = { SameLane };

    ghost spare = { λ l. spare_of l.backlog.now };

    ghost same_refl = { SameLane-refl };

    ghost same_trans = { SameLane-trans };

    ghost tossed_look = { λ x. refl };

    fn pop(&mut self) -> Option<(Parcel, Sight)> {
        let parcel = self.backlog.pop(self.queue)?;
        let backlog: &Backlog = self.backlog;
        let sight = Sight {
            stamp: parcel.frame().stamp,
            left: backlog.octets.value(self.queue),
        };
        Some((parcel, sight))
    }

    fn discard(&mut self, item: Parcel) {
        self.backlog
            .finish(settle(item, Fate::Dropped(Cause::Codel)));
    }
}

impl Backlog {
    /// Takes a parcel from a queue by CoDel (RFC 8289, section 5.5), or returns None if the queue is empty.
    /// The frames before it that have waited too long go in order last on the finished list as
    /// `Dropped(Codel)`. `now` is the clock in microseconds, below 2^62; a frame whose stamp is past the
    /// clock has waited for 0.
    pub fn take(&mut self, q: u32, now: u64, params: Params) -> Option<Taken>
        requires queue { q < length self.old.queues }
        requires time { now < 2 ^ 62 }
        ensures given { option_map (λ t. t.parcel) result ≡ given_at (params_of params) now self.old q }
        ensures dropped { IfSome result (λ t. t.dropped ≡ drops_at (params_of params) now self.old q) }
        ensures none { IsNone result ↔ (frames_at self.old q ≡ []) }
        ensures taken { self.new ≡ backlog_after_take (params_of params) now self.old q }
        ensures held { MatchOption result (held_in_backlog self.new ≡ held_in_backlog self.old)
            (λ _. held_in_backlog self.new + 1 ≡ held_in_backlog self.old) }
    {
        let before = self.queued;
        let mut codel = self.codels[q as usize];
        let mut lane = OneQueue {
            backlog: self,
            queue: q,
        };
        let given = codel.dequeue(now, params, &mut lane);
        self.codels[q as usize] = codel;
        let parcel = given?;
        let dropped = before - 1 - self.queued;
        Some(Taken { parcel, dropped })
    }
}
