//! Parses the words of the command line.

ghost use Rattle.std.specs.Prelude.{◌≡◌, ◌≤◌, IfSome, map, string_bytes};
ghost use Rattle.std.specs.List.{list_any};
ghost use Rattle.wf_run.specs.Commands.{number_within, soak_of, live_of, asks_help, topic_among, help_on, word_command, two_words_command, soak_command, live_command, four_words_command, played_command_of, command_of, HasCallsInRange};

use crate::help::Topic;
use wf_io::value_of;
use wf_run_histories::soak::SoakKind;
use wf_trace::is_plain_number;

/// A command, as the words of the command line ask for it.
#[derive(Clone, Copy)]
pub enum Command {
    /// Replay the trace on standard input.
    Replay,
    /// Replay the trace on standard input, and write a capture file.
    Capture,
    /// Run the soak of this seed and kind with `calls` calls, 1 to 1,000,000.
    Soak {
        seed: u64,
        calls: u32,
        kind: SoakKind,
    },
    /// Run `senders` senders, 1 to 8, each with `frames` frames, 1 to 10,000, and four drivers on threads.
    Live {
        seed: u64,
        senders: u32,
        frames: u32,
    },
    /// Run the script on standard input on both ends of an agreement.
    Session,
    /// Run the script on standard input on the uplink of 256 stations.
    Uplink,
    /// List the packets of the capture file on standard input.
    Frames,
    /// Write the help on a topic.
    Help(Topic),
    /// Write the version.
    Version,
}

/// Returns the number that a word is, if it is at least `low` and at most `high`.
#[tactic(auto, unfolding(crate::specs::Commands::number_within))]
fn number_within(low: u64, high: u64, word: &[u8]) -> Option<u64>
    ensures value { result ≡ number_within low high word.now }
    ensures within { IfSome result (λ n. (low ≤ n) × (n ≤ high)) }
{
    if !is_plain_number(word) {
        return None;
    }
    match value_of(word) {
        None => None,
        Some(value) => {
            if low <= value && value <= high {
                Some(value)
            } else {
                None
            }
        }
    }
}

#[tactic(auto, unfolding(crate::specs::Commands::soak_of))]
fn soak_of(seed: Option<u64>, calls: Option<u64>, kind: SoakKind) -> Option<Command>
    requires { IfSome calls (λ n. (1 ≤ n) × (n ≤ 1000000)) }
    ensures command { result ≡ soak_of seed calls kind }
    ensures calls { IfSome result HasCallsInRange }
{
    match (seed, calls) {
        (Some(seed), Some(calls)) => Some(Command::Soak {
            seed,
            calls: calls as u32,
            kind,
        }),
        _ => None,
    }
}

#[tactic(auto, unfolding(crate::specs::Commands::live_of))]
fn live_of(seed: Option<u64>, senders: Option<u64>, frames: Option<u64>) -> Option<Command>
    requires senders { IfSome senders (λ n. (1 ≤ n) × (n ≤ 8)) }
    requires frames { IfSome frames (λ n. (1 ≤ n) × (n ≤ 10000)) }
    ensures command { result ≡ live_of seed senders frames }
    ensures calls { IfSome result HasCallsInRange }
{
    match (seed, senders, frames) {
        (Some(seed), Some(senders), Some(frames)) => Some(Command::Live {
            seed,
            senders: senders as u32,
            frames: frames as u32,
        }),
        _ => None,
    }
}

// Returns whether a word asks for help, wherever it is in the command line.
fn asks_help(word: &[u8]) -> bool
    ensures { result ≡ asks_help word.now }
{
    word == b"--help".as_slice() || word == b"-h".as_slice()
}

// Returns whether one of the words asks for help.
fn any_asks_help(words: &[String]) -> bool
    ensures { result ≡ list_any asks_help (map string_bytes words.now) }
{
    match words {
        [] => false,
        [word, rest @ ..] => asks_help(word.as_bytes()) || any_asks_help(rest),
    }
}

// Returns the topic of the first word that has one, or all commands.
fn topic_among(words: &[String]) -> Topic
    ensures { result ≡ topic_among (map string_bytes words.now) }
{
    match words {
        [] => Topic::Overview,
        [word, rest @ ..] => match Topic::named(word.as_bytes()) {
            Some(topic) => topic,
            None => topic_among(rest),
        },
    }
}

// Returns the command that writes the help on the topic with this word.
#[tactic(auto, unfolding(crate::specs::Commands::help_on))]
fn help_on(word: &[u8]) -> Option<Command>
    ensures command { result ≡ help_on word.now }
    ensures calls { IfSome result HasCallsInRange }
{
    match Topic::named(word) {
        Some(topic) => Some(Command::Help(topic)),
        None => None,
    }
}

/// Returns the command that the words ask for, if they are a command.
pub fn command_from(words: &[String]) -> Option<Command>
    ensures command { result ≡ command_of (map string_bytes words.now) }
    ensures calls { IfSome result HasCallsInRange }
{
    if any_asks_help(words) {
        Some(Command::Help(topic_among(words)))
    } else {
        played_command_from(words)
    }
}

// Returns the command that the words ask for, if none of them is `--help` or `-h`.
fn played_command_from(words: &[String]) -> Option<Command>
    ensures command { result ≡ played_command_of (map string_bytes words.now) }
    ensures calls { IfSome result HasCallsInRange }
{
    match words {
        [word] => word_command(word.as_bytes()),
        [word, option] => two_words_command(word.as_bytes(), option.as_bytes()),
        [word, seed, calls] => soak_command(
            word.as_bytes(),
            seed.as_bytes(),
            calls.as_bytes(),
            SoakKind::Standard,
        ),
        [word, one, two, three] => four_words_command(
            word.as_bytes(),
            one.as_bytes(),
            two.as_bytes(),
            three.as_bytes(),
        ),
        _ => None,
    }
}

// Returns the command of one word.
#[tactic(auto, unfolding(crate::specs::Commands::word_command))]
fn word_command(word: &[u8]) -> Option<Command>
    ensures command { result ≡ word_command word.now }
    ensures calls { IfSome result HasCallsInRange }
{
    if word == b"replay".as_slice() {
        Some(Command::Replay)
    } else if word == b"session".as_slice() {
        Some(Command::Session)
    } else if word == b"uplink".as_slice() {
        Some(Command::Uplink)
    } else if word == b"frames".as_slice() {
        Some(Command::Frames)
    } else if word == b"help".as_slice() {
        Some(Command::Help(Topic::Overview))
    } else if word == b"--version".as_slice() {
        Some(Command::Version)
    } else {
        None
    }
}

// Returns the command of two words.
#[tactic(auto, unfolding(crate::specs::Commands::two_words_command))]
fn two_words_command(word: &[u8], option: &[u8]) -> Option<Command>
    ensures command { result ≡ two_words_command word.now option.now }
    ensures calls { IfSome result HasCallsInRange }
{
    if word == b"replay".as_slice() && option == b"--pcap".as_slice() {
        Some(Command::Capture)
    } else if word == b"help".as_slice() {
        help_on(option)
    } else {
        None
    }
}

// Returns the command of three words, and of these and the word for a kind of soak.
#[tactic(auto, unfolding(crate::specs::Commands::soak_command))]
fn soak_command(word: &[u8], seed: &[u8], calls: &[u8], kind: SoakKind) -> Option<Command>
    ensures command { result ≡ soak_command word.now seed.now calls.now kind }
    ensures calls { IfSome result HasCallsInRange }
{
    if word == b"soak".as_slice() {
        soak_of(
            number_within(0, u64::MAX, seed),
            number_within(1, 1_000_000, calls),
            kind,
        )
    } else {
        None
    }
}

// Returns the command of four words.
#[tactic(auto, unfolding(crate::specs::Commands::four_words_command))]
fn four_words_command(word: &[u8], one: &[u8], two: &[u8], three: &[u8]) -> Option<Command>
    ensures command { result ≡ four_words_command word.now one.now two.now three.now }
    ensures calls { IfSome result HasCallsInRange }
{
    if three == b"device".as_slice() {
        soak_command(word, one, two, SoakKind::Devices)
    } else if three == b"agreements".as_slice() {
        soak_command(word, one, two, SoakKind::Agreements)
    } else {
        live_command(word, one, two, three)
    }
}

// Returns the command of four words, of which the last is not the word for a kind of soak.
#[tactic(auto, unfolding(crate::specs::Commands::live_command))]
fn live_command(word: &[u8], seed: &[u8], senders: &[u8], frames: &[u8]) -> Option<Command>
    ensures command { result ≡ live_command word.now seed.now senders.now frames.now }
    ensures calls { IfSome result HasCallsInRange }
{
    if word == b"live".as_slice() {
        live_of(
            number_within(0, u64::MAX, seed),
            number_within(1, 8, senders),
            number_within(1, 10_000, frames),
        )
    } else {
        None
    }
}
