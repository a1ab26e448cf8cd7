//! The topics of the help.

ghost use Rattle.std.specs.Prelude.{◌≡◌};
ghost use Rattle.wf_run.specs.Topics.{help_text, topic_word, topic_named};

use crate::help::texts;

/// A topic of the help: all commands, one command, or the faults of inputs.
#[derive(Clone, Copy)]
pub enum Topic {
    Overview,
    Replay,
    Soak,
    Live,
    Session,
    Uplink,
    Frames,
    /// The faults that a trace or a script can have.
    Faults,
}

const NAMED: [Topic; 7] = [
    Topic::Replay,
    Topic::Soak,
    Topic::Live,
    Topic::Session,
    Topic::Uplink,
    Topic::Frames,
    Topic::Faults,
];

impl Topic {
    /// Returns the word of a topic: the command's, or `help` for all commands.
    pub fn word(self) -> &'static [u8]
        ensures { result.now ≡ topic_word self }
    {
        match self {
            Topic::Overview => b"help",
            Topic::Replay => b"replay",
            Topic::Soak => b"soak",
            Topic::Live => b"live",
            Topic::Session => b"session",
            Topic::Uplink => b"uplink",
            Topic::Frames => b"frames",
            Topic::Faults => b"faults",
        }
    }

    /// Returns the topic that has this word. `help`, the word for all commands, is not accepted.
    #[tactic(auto, unfolding(crate::specs::Topics::topic_named))]
    pub fn named(word: &[u8]) -> Option<Topic>
        ensures { result ≡ topic_named word.now }
    {
        NAMED.iter().copied().find(|topic| topic.word() == word)
    }

    /// Returns the help on a topic: lines of at most 95 printable characters, each of which ends in the octet
    /// 10.
    pub fn text(self) -> &'static [u8]
        ensures { result.now ≡ help_text self }
    {
        match self {
            Topic::Overview => texts::OVERVIEW,
            Topic::Replay => texts::REPLAY,
            Topic::Soak => texts::SOAK,
            Topic::Live => texts::LIVE,
            Topic::Session => texts::SESSION,
            Topic::Uplink => texts::UPLINK,
            Topic::Frames => texts::FRAMES,
            Topic::Faults => texts::FAULTS,
        }
    }
}
