//! A machine: a clock. A call is a number of ticks, which are added to the time, and the reply is the time.

ghost use Rattle.std.specs.Prelude.{◌≡◌};

use wf_gate::Machine;
use wf_machine::History;

/// A clock with room for `left` more calls.
#[derive(Drop)]
pub struct Clock {
    now: u64,
    steps: u64,
    left: u32,
    // It takes no memory, because only contracts read it.
    history: History<u32>,
}

impl Clock {
    /// A clock that shows 0, with room for this many calls.
    pub(crate) fn new(calls: u32) -> Clock
        ensures { result.left ≡ calls }
    {
        Clock {
            now: 0,
            steps: 0,
            left: calls,
            history: History::new(),
        }
    }

    /// The time, and how many calls were made.
    pub(crate) fn shown(&self) -> (u64, u64) {
        (self.now, self.steps)
    }
}

impl Machine for Clock {
    type Call = u32;

    type Reply = u64;

    type Note = u32;

    type Settings = ();

    ghost past = { λ c. c.history };

    ghost settings = { λ _. tt };

    ghost calls_left = { λ c. c.left };

    ghost note = { λ ticks. ticks };

    // The tests compare the replies.
    ghost right = { λ _ _ _ _ _. Unit {0} };

    fn calls_left(&self) -> u64 {
        u64::from(self.left)
    }

    fn step(&mut self, caller: u32, call: u32) -> u64 {
        if self.left > 0 {
            self.left -= 1;
            self.history.push(caller, &call);
            self.steps = self.steps.saturating_add(1);
            self.now = self.now.saturating_add(u64::from(call));
        }
        self.now
    }
}
