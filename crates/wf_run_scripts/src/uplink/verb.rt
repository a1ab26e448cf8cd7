//! The first words of a script's lines.

ghost use Rattle.std.specs.Prelude.{◌≡◌};
ghost use Rattle.wf_run_scripts.specs.UplinkLines.{uplink_word, verb_named};

/// The events of a script, by the first word of the line.
#[derive(Clone, Copy)]
pub enum Verb {
    Open,
    Plain,
    Rate,
    Tick,
    Frame,
    Bar,
}

const VERBS: [Verb; 6] = [
    Verb::Open,
    Verb::Plain,
    Verb::Rate,
    Verb::Tick,
    Verb::Frame,
    Verb::Bar,
];

impl Verb {
    /// Returns the word of the event.
    pub fn word(self) -> &'static [u8]
        ensures { result.now ≡ uplink_word self }
    {
        match self {
            Verb::Open => b"open",
            Verb::Plain => b"plain",
            Verb::Rate => b"rate",
            Verb::Tick => b"tick",
            Verb::Frame => b"frame",
            Verb::Bar => b"bar",
        }
    }

    /// Returns the event that has this word.
    pub fn named(word: &[u8]) -> Option<Verb>
        ensures { result ≡ verb_named word.now }
    {
        VERBS.iter().copied().find(|verb| verb.word() == word)
    }
}
