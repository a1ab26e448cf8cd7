//! Writes the answers that are one short line: those to `open`, `plain`, `rate` and `tick`, a refused frame
//! or BlockAckReq, and the totals after the line `end`.

ghost use Rattle.std.specs.Prelude.{◌≡◌, ◌≤◌, [], length, is_ok, if◌then◌else◌};
ghost use Rattle.std.specs.Result.{result_err};
ghost use Rattle.wf_uplink.specs.World.{open_answer, Set, NotSet, Now, NotReceived, NotRequested};
ghost use Rattle.wf_run_scripts.specs.UplinkAnswers.{open_word, fault_word, request_word, refused_line, answer_text, totals_line};

use wf_io::{Line, Word};
use wf_uplink::{Closed, OpenFault, RequestFault, Totals, UplinkFault};

// Returns the word for why a station is not opened.
fn open_word(fault: OpenFault) -> &'static [u8]
    ensures word { result.now ≡ open_word fault }
    ensures short { length result.now ≤ 11 }
{
    match fault {
        OpenFault::BadStation => b"bad-station",
        OpenFault::BadWindow => b"bad-window",
        OpenFault::BadStart => b"bad-start",
        OpenFault::Live => b"live",
    }
}

// Returns the word for why octets are not a data frame of an open station.
fn fault_word(fault: UplinkFault) -> &'static [u8]
    ensures word { result.now ≡ fault_word fault }
    ensures short { length result.now ≤ 11 }
{
    match fault {
        UplinkFault::Header(_) => b"header",
        UplinkFault::Kind(_) => b"kind",
        UplinkFault::NotMine => b"not-mine",
        UplinkFault::Tid(_) => b"tid",
        UplinkFault::Length { .. } => b"length",
    }
}

// Returns the word for why octets are not a BlockAckReq of an open station.
fn request_word(fault: RequestFault) -> &'static [u8]
    ensures word { result.now ≡ request_word fault }
    ensures short { length result.now ≤ 11 }
{
    match fault {
        RequestFault::Header(_) => b"header",
        RequestFault::Kind(_) => b"kind",
        RequestFault::Form(_) => b"form",
        RequestFault::NotMine => b"not-mine",
        RequestFault::Tid(_) => b"tid",
        RequestFault::NotAgreed => b"not-agreed",
    }
}

// Writes a refusal to an empty line.
fn print_refused(word: &'static [u8], out: &mut Line)
    requires empty { out.old ≡ [] }
    requires short { length word.now ≤ 11 }
    ensures { out.new ≡ refused_line word.now }
{
    out.push_line(b"refused", &[Word::Text(word)]);
}

/// Writes the answer to an `open` or a `plain` to an empty line.
pub fn print_opened(opened: Result<(), OpenFault>, out: &mut Line)
    requires { out.old ≡ [] }
    ensures { out.new ≡ answer_text (open_answer (result_err opened)) }
{
    match opened {
        Ok(()) => out.push_all(b"opened\n"),
        Err(fault) => print_refused(open_word(fault), out),
    }
}

/// Writes the answer to a `rate` to an empty line.
pub fn print_set(set: Result<(), Closed>, out: &mut Line)
    requires { out.old ≡ [] }
    ensures { out.new ≡ answer_text (if is_ok set then Set else NotSet) }
{
    match set {
        Ok(()) => out.push_all(b"set\n"),
        Err(Closed) => print_refused(b"closed", out),
    }
}

/// Writes the clock to an empty line.
pub fn print_now(now: u64, out: &mut Line)
    requires { out.old ≡ [] }
    ensures { out.new ≡ answer_text (Now now) }
{
    out.push_line(b"now", &[Word::Number(now)]);
}

/// Writes why a frame is refused to an empty line.
pub fn print_fault(fault: UplinkFault, out: &mut Line)
    requires { out.old ≡ [] }
    ensures { out.new ≡ answer_text (NotReceived fault) }
{
    print_refused(fault_word(fault), out);
}

/// Writes why a BlockAckReq is refused to an empty line.
pub fn print_request_fault(fault: RequestFault, out: &mut Line)
    requires { out.old ≡ [] }
    ensures { out.new ≡ answer_text (NotRequested fault) }
{
    print_refused(request_word(fault), out);
}

/// Writes the text after the line `end` to an empty line: the number of frames, and how many had each
/// outcome.
pub fn print_totals(totals: Totals, out: &mut Line)
    requires { out.old ≡ [] }
    ensures { out.new ≡ totals_line totals }
{
    out.push_line(
        b"frames",
        &[
            Word::Number(totals.frames),
            Word::Text(b"up"),
            Word::Number(totals.up),
            Word::Text(b"old"),
            Word::Number(totals.old),
            Word::Text(b"held"),
            Word::Number(totals.held),
            Word::Text(b"missing"),
            Word::Number(totals.missing),
        ],
    );
}
