//! Counts of the accepted frames, by fate.

ghost use Rattle.std.specs.Prelude.{◌≡◌, ◌≢◌, ◌+◌, ◌≤◌};
ghost use Rattle.wf_frame.specs.declared.classes.Fate.TheVariants.{Held};

use wf_frame::{Cause, Fate};

/// Counts of frames. Each accepted frame is acknowledged, dropped for one cause, or still held.
#[derive(Clone, Copy)]
pub struct Tally {
    /// All accepted frames.
    pub accepted: u64,
    /// Acknowledged.
    pub acked: u64,
    /// Dropped because the flow queues were full.
    pub overlimit: u64,
    /// Dropped by CoDel.
    pub codel: u64,
    /// Dropped after as many attempts as are allowed, or given up.
    pub retries: u64,
    /// Dropped because their station left.
    pub left: u64,
    /// Dropped because their TID was flushed.
    pub flushed: u64,
    /// Dropped because the agreement of their TID ended.
    pub ended: u64,
    ghost counted: { acked + overlimit + codel + retries + left + flushed + ended ≤ accepted },
}

impl Tally {
    ghost use Rattle.wf_send_parts.specs.Tally.{counts_of, held_in, many_settled_as, no_counts, settled_count, settled_as};

    /// Returns counts of no frames.
    pub fn new() -> Tally
        ensures { counts_of result ≡ no_counts }
    {
        Tally {
            accepted: 0,
            acked: 0,
            overlimit: 0,
            codel: 0,
            retries: 0,
            left: 0,
            flushed: 0,
            ended: 0,
        }
    }

    /// Counts a held frame as one with this fate, which is not Held.
    pub fn settle(&mut self, fate: Fate)
        requires settled { fate ≢ Held }
        requires held { 1 ≤ held_in (counts_of self.old) }
        ensures counted { counts_of self.new ≡ settled_as fate (counts_of self.old) }
        ensures held { held_in (counts_of self.new) + 1 ≡ held_in (counts_of self.old) }
    {
        match fate {
            Fate::Held => unreachable!(),
            Fate::Acked => self.acked += 1,
            Fate::Dropped(Cause::Overlimit) => self.overlimit += 1,
            Fate::Dropped(Cause::Codel) => self.codel += 1,
            Fate::Dropped(Cause::Retries) => self.retries += 1,
            Fate::Dropped(Cause::Left) => self.left += 1,
            Fate::Dropped(Cause::Flushed) => self.flushed += 1,
            Fate::Dropped(Cause::Ended) => self.ended += 1,
        }
    }

    /// Counts `count` held frames as ones with this fate, which is not Held.
    pub fn settle_all(&mut self, fate: Fate, count: u32)
        requires settled { fate ≢ Held }
        requires held { count ≤ held_in (counts_of self.old) }
        ensures counted { counts_of self.new ≡ many_settled_as fate count (counts_of self.old) }
        ensures held { held_in (counts_of self.new) + count ≡ held_in (counts_of self.old) }
    {
        let count = u64::from(count);
        match fate {
            Fate::Held => unreachable!(),
            Fate::Acked => self.acked += count,
            Fate::Dropped(Cause::Overlimit) => self.overlimit += count,
            Fate::Dropped(Cause::Codel) => self.codel += count,
            Fate::Dropped(Cause::Retries) => self.retries += count,
            Fate::Dropped(Cause::Left) => self.left += count,
            Fate::Dropped(Cause::Flushed) => self.flushed += count,
            Fate::Dropped(Cause::Ended) => self.ended += count,
        }
    }

    /// Returns how many frames are still held.
    pub fn held(&self) -> u64
        ensures held { result ≡ held_in (counts_of self.now) }

        // accepted is the sum of held and the other seven counts
        ensures sum { settled_count (counts_of self.now) + result ≡ self.now.accepted }
    {
        self.accepted
            - self.acked
            - self.overlimit
            - self.codel
            - self.retries
            - self.left
            - self.flushed
            - self.ended
    }
}
