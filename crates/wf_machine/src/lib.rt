//! `Machine`, the trait of types that make one step for each call and keep a history, so that a gate may
//! share them among threads. `History` is a history that takes no memory: `history.push(caller, &note)`
//! appends an entry that only contracts see.
#![tactic(auto)]

mod history;

ghost use Rattle.std.specs.Prelude.{◌≡◌, ℕ, ◌+◌, ◌<◌, List, [], ◌∷◌, ◌++◌};

pub use history::History;

/// A machine that makes one step for each call and keeps a history of its calls.
pub trait Machine {
    /// A call, which a step consumes.
    type Call;

    /// The reply to a call.
    type Reply;

    /// The note of a call, which its entry in the history has.
    type Note;

    /// The settings of the machine.
    type Settings;

    /// The entries of the history: the caller and the note of each step.
    ghost past: { Self → List (ℕ × Self.Note) };

    /// The settings, which no step changes.
    ghost settings: { Self → Self.Settings };

    /// How many more entries the history has room for.
    ghost calls_left: { Self → ℕ };

    /// The note of a call.
    ghost note: { Self.Call → Self.Note };

    /// Whether a reply is right, for the settings, the entries before the call, the caller, the call and the
    /// reply.
    ghost right: { Self.Settings → List (ℕ × Self.Note) → ℕ → Self.Call → Self.Reply → Type 0 };

    /// Returns how many more entries the history has room for.
    fn calls_left(&self) -> u64
        ensures calls_left { result ≡ calls_left self.now };

    /// Makes one step. If there is room, it adds one entry to the history, and its reply is right.
    fn step(&mut self, caller: u32, call: Self::Call) -> Self::Reply
        ensures past { 0 < calls_left self.old → past self.new ≡ past self.old ++ (caller, note call) ∷ [] }
        ensures calls_left { 0 < calls_left self.old → calls_left self.new + 1 ≡ calls_left self.old }
        ensures settings { settings self.new ≡ settings self.old }
        ensures reply { 0 < calls_left self.old →
            right (settings self.old) (past self.old) caller call result };
}
