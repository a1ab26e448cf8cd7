//! Writes the answer to an event, and the lines after the line `end`.

ghost use Rattle.std.specs.Prelude.{◌≡◌, ◌+◌, ◌≤◌, ◌++◌, [], length};
ghost use Rattle.wf_run_scripts.specs.SessionAnswers.{answer_of, ends_line, session_refusal_words, side_word, join_line, closing};
ghost use Rattle.wf_frame.specs.Words.{line};
ghost use Rattle.std.specs.Prelude.{◌∷◌, codes};

use crate::session::parley::Parley;
use crate::session::refusal::Refusal;
use wf_io::{Line, Word};
use wf_session::Agreement;

// Appends the agreement of one end, or `-` if none is open.
fn push_side(agreement: Option<Agreement>, out: &mut Line)
    requires { length out.old + 62 ≤ 8192 }
    ensures text { out.new ≡ out.old ++ side_word agreement }
    ensures len { length out.new ≤ length out.old + 62 }
{
    match agreement {
        None => out.push(b'-'),
        Some(agreement) => {
            out.push_number(u64::from(agreement.token));
            out.push(b':');
            out.push_number(u64::from(agreement.window));
            out.push(b':');
            out.push_number(u64::from(agreement.start.raw()));
        }
    }
}

// Writes the state of both ends to an empty line.
fn print_ends(parley: &Parley, out: &mut Line)
    requires { out.old ≡ [] }
    ensures { out.new ≡ ends_line parley.now }
{
    out.push_all(b"a ");
    push_side(parley.originators(), out);
    out.push_all(b" b ");
    push_side(parley.recipients(), out);
    out.push(b'\n');
}

// Writes a refusal to an empty line.
fn print_refusal(refusal: Refusal, out: &mut Line)
    requires { out.old ≡ [] }
    ensures { out.new ≡ line (codes "refused" ∷ session_refusal_words refusal) }
{
    out.push_all(b"refused");
    match refusal {
        Refusal::Spent => out.push_all(b" spent"),
        Refusal::Open { token } => out.push_words(&[
            Word::Text(b"open"),
            Word::Number(u64::from(token)),
        ]),
        Refusal::NotAsked => out.push_all(b" not-asked"),
        Refusal::NotOpen => out.push_all(b" not-open"),
        Refusal::NoMessage => out.push_all(b" no-message"),
    }
    out.push(b'\n');
}

/// Writes the answer to an event to an empty line: the state of both ends after it, or why it was refused.
pub fn print_answer(refusal: Option<Refusal>, parley: &Parley, out: &mut Line)
    requires { out.old ≡ [] }
    ensures { out.new ≡ answer_of refusal parley.now }
{
    match refusal {
        None => print_ends(parley, out),
        Some(refusal) => print_refusal(refusal, out),
    }
}

// Appends the `join` line of a trace with the parameters of the agreement, or `no agreement`.
fn push_join(originators: Option<Agreement>, recipients: Option<Agreement>, out: &mut Line)
    requires { length out.old ≤ 100 }
    ensures { out.new ≡ out.old ++ join_line originators recipients }
{
    match (originators, recipients) {
        (Some(agreement), Some(_)) => {
            out.push_all(b"join");
            out.push_words(&[
                Word::Text(b"0"),
                Word::Number(u64::from(agreement.window)),
                Word::Number(u64::from(agreement.start.raw())),
                Word::Text(b"3"),
            ]);
            out.push(b'\n');
        }
        _ => out.push_all(b"no agreement\n"),
    }
}

/// Writes the text after the line `end` to an empty line: how many messages each end sent, and the agreement.
pub fn print_closing(parley: &Parley, out: &mut Line)
    requires { out.old ≡ [] }
    ensures { out.new ≡ closing parley.now }
{
    out.push_all(b"sent");
    out.push_words(&[Word::Number(parley.asks()), Word::Number(parley.answers())]);
    out.push(b'\n');
    push_join(parley.originators(), parley.recipients(), out);
}
