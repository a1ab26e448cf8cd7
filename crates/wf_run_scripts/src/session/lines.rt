//! Parses a line of a script.

ghost use Rattle.std.specs.Prelude.{◌≡◌, IfOk};
ghost use Rattle.wf_trace.specs.Words.{words};
ghost use Rattle.wf_run_scripts.specs.SessionLines.{AreInRange, IsValidEvent, event_of, by_end, meant};

use crate::session::verb::Verb;
use wf_octets::seq12::Seq12;
use wf_session::Event;
use wf_trace::{FaultKind, Value, end_at, long_at, next_word, read_all};

// Returns the event for the originator, or the one for the recipient.
fn by_end(recipient: bool, originators: Event, recipients: Event) -> Event
    ensures { result ≡ by_end recipient originators recipients }
{
    if recipient { recipients } else { originators }
}

// Returns the event with these arguments.
fn made(verb: Verb, values: &[Value]) -> Event
    requires { AreInRange verb values.now }
    ensures event { result ≡ event_of verb values.now }
    ensures valid { IsValidEvent result }
{
    match verb {
        Verb::Ask => Event::Ask {
            window: long_at(values, 0) as u16,
            start: Seq12::of(u64::from(long_at(values, 1))),
        },
        Verb::Again => Event::Again,
        Verb::To => {
            let index = long_at(values, 1);
            by_end(
                end_at(values, 0),
                Event::ToOriginator(index),
                Event::ToRecipient(index),
            )
        }
        Verb::Close => by_end(
            end_at(values, 0),
            Event::CloseOriginator,
            Event::CloseRecipient,
        ),
        Verb::Restart => by_end(
            end_at(values, 0),
            Event::RestartOriginator,
            Event::RestartRecipient,
        ),
    }
}

/// Returns the event of a line, or the first fault of the line: `word` if the first word is not an event, or
/// an end is neither `a` nor `b`; `count` if the number of words is wrong; `number` if an argument is not a
/// number; `range` if it is out of its range.
pub fn event_from(line: &[u8]) -> Result<Event, FaultKind>
    ensures says { result ≡ meant (words line.now) }
    ensures valid { IfOk result IsValidEvent }
{
    let Some((word, rest)) = next_word(line) else {
        return Err(FaultKind::Word);
    };
    let Some(verb) = Verb::named(word) else {
        return Err(FaultKind::Word);
    };
    match read_all(verb.args(), rest) {
        Ok(values) => Ok(made(verb, values.as_slice())),
        Err(kind) => Err(kind),
    }
}
