//! Explains why words are no command.

ghost use Rattle.std.specs.Prelude.{◌≡◌};
ghost use Rattle.wf.specs.Slips.{is_slip_of, is_swap_of};

use wf_run::help::Topic;

// Returns whether the first two octets of a word are swapped, and the rest equals the known word.
fn is_swap_of(word: &[u8], known: &[u8]) -> bool
    ensures { result ≡ is_swap_of word.now known.now }
{
    match (word, known) {
        ([one, two, rest @ ..], [first, second, others @ ..]) => {
            one == second && two == first && rest == others
        }
        _ => false,
    }
}

// Returns whether a word equals a known one, or differs from it by one typing error: an extra octet, a
// missing one, a wrong one, or two neighbours that are swapped.
fn is_slip_of(word: &[u8], known: &[u8]) -> bool
    ensures { result ≡ is_slip_of word.now known.now }
{
    match (word, known) {
        ([], _) => known.len() <= 1,
        ([_, rest @ ..], []) => rest.is_empty(),
        ([one, rest @ ..], [first, others @ ..]) => {
            if one == first {
                is_slip_of(rest, others)
            } else {
                rest == known || word == others || rest == others || is_swap_of(word, known)
            }
        }
    }
}

// Returns a letter in lower case.
fn small(octet: u8) -> u8 {
    if b'A' <= octet && octet <= b'Z' {
        octet + 32
    } else {
        octet
    }
}

// Returns whether a word equals a known one after its capital letters are put in lower case.
fn is_in_capitals(word: &[u8], known: &[u8]) -> bool {
    for (i, octet) in word.iter().enumerate() {
        match known.get(i) {
            Some(other) if *other == small(*octet) => {}
            _ => return false,
        }
    }
    word.len() == known.len()
}

/// Returns whether a word differs from a known one by at most one typing error, or only by capital letters.
pub fn is_near(word: &[u8], known: &[u8]) -> bool {
    is_slip_of(word, known) || is_in_capitals(word, known)
}

const WORDS: [Topic; 7] = [
    Topic::Replay,
    Topic::Soak,
    Topic::Live,
    Topic::Session,
    Topic::Uplink,
    Topic::Frames,
    Topic::Overview,
];

// Returns the first command from which a word differs by at most one typing error.
fn meant(word: &[u8]) -> Option<Topic> {
    WORDS
        .iter()
        .copied()
        .find(|topic| is_slip_of(word, topic.word()))
}

// Returns the message for a mistyped command.
fn question(topic: Topic) -> &'static str {
    match topic {
        Topic::Overview => "wf: no such command; did you mean help?\n",
        Topic::Replay => "wf: no such command; did you mean replay?\n",
        Topic::Soak => "wf: no such command; did you mean soak?\n",
        Topic::Live => "wf: no such command; did you mean live?\n",
        Topic::Session => "wf: no such command; did you mean session?\n",
        Topic::Uplink => "wf: no such command; did you mean uplink?\n",
        Topic::Frames => "wf: no such command; did you mean frames?\n",
        Topic::Faults => "wf: no such command; did you mean help faults?\n",
    }
}

// Returns the message for a command with wrong words after it.
fn correction(topic: Topic) -> &'static str {
    match topic {
        Topic::Overview => {
            "wf: there is help on replay, frames, session, uplink, soak, live and faults\n"
        }
        Topic::Replay => {
            "wf: replay takes no file name, only the option --pcap: wf replay < FILE\n"
        }
        Topic::Soak => "wf: soak takes SEED, 0..18446744073709551615, and CALLS, 1..1000000\n",
        Topic::Live => {
            "wf: live takes SEED, 0..18446744073709551615, SENDERS, 1..8, and FRAMES, 1..10000\n"
        }
        Topic::Session => "wf: session takes no file name: wf session < FILE\n",
        Topic::Uplink => "wf: uplink takes no file name: wf uplink < FILE\n",
        Topic::Frames => "wf: frames takes no file name: wf frames < FILE\n",
        Topic::Faults => "wf: no such command; did you mean help faults?\n",
    }
}

// Returns the message for words that begin with this one.
fn said_of(word: &[u8]) -> &'static str {
    if word == b"help".as_slice() {
        return correction(Topic::Overview);
    }
    match (Topic::named(word), meant(word)) {
        (Some(topic), _) => correction(topic),
        (None, Some(topic)) => question(topic),
        (None, None) => "wf: no such command\n",
    }
}

/// Returns the message for words that are no command, which is written before the usage: one line, or nothing
/// if there are no words.
pub fn advice(words: &[String]) -> &'static str {
    match words {
        [] => "",
        [word, ..] => said_of(word.as_bytes()),
    }
}
