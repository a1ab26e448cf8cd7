//! The table of a script's lines: the word of each event, and the values that its arguments may have.

ghost use Rattle.std.specs.Prelude.{◌≡◌, ◌≤◌, length};
ghost use Rattle.wf_run_scripts.specs.SessionLines.{session_word, verb_named, session_args};

use wf_frame::{GREATEST_START, GREATEST_WINDOW};
use wf_trace::Arg;

/// The events of a script, by the first word of the line.
#[derive(Clone, Copy)]
pub enum Verb {
    Ask,
    Again,
    To,
    Close,
    Restart,
}

const WINDOW: Arg = Arg::Number {
    low: 1,
    high: GREATEST_WINDOW as u32,
};

const START: Arg = Arg::Number {
    low: 0,
    high: GREATEST_START as u32,
};

const VERBS: [Verb; 5] = [Verb::Ask, Verb::Again, Verb::To, Verb::Close, Verb::Restart];

impl Verb {
    /// Returns the word of the event.
    pub fn word(self) -> &'static [u8]
        ensures { result.now ≡ session_word self }
    {
        match self {
            Verb::Ask => b"ask",
            Verb::Again => b"again",
            Verb::To => b"to",
            Verb::Close => b"close",
            Verb::Restart => b"restart",
        }
    }

    /// Returns the event that has this word.
    pub fn named(word: &[u8]) -> Option<Verb>
        ensures { result ≡ verb_named word.now }
    {
        VERBS.iter().copied().find(|verb| verb.word() == word)
    }

    /// Returns the kinds of its arguments, in order.
    pub fn args(self) -> &'static [Arg]
        ensures args { result.now ≡ session_args self }
        ensures most { length result.now ≤ 5 }
    {
        match self {
            Verb::Ask => &[WINDOW, START],
            Verb::Again => &[],
            Verb::To => &[Arg::End, Arg::Long],
            Verb::Close | Verb::Restart => &[Arg::End],
        }
    }
}
