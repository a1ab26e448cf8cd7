//! Writes the line of what a TID passes up, which can be longer than the buffer of a line.

ghost use Rattle.std.specs.Prelude.{◌≡◌, ◌≢◌, ℕ, ◌+◌, ◌≤◌, ◌++◌, ◌∷◌, [], List, Option, decimal, length, OnOk, OnErr, Err, if◌then◌else◌};
ghost use Rattle.std.specs.List.{join_with_byte};
ghost use Rattle.std.specs.Io.KnownBytes.{append_known};
ghost use Rattle.wf_io.specs.Faults.{HasRisen};
ghost use Rattle.wf_io.specs.Words.{spaced};
ghost use Rattle.wf_io.specs.Fronts.{HoldsFront};
ghost use Rattle.wf_run_scripts.specs.UplinkAnswers.{item_words, bitmap_words, last_words, told_line, up_line, request_line};
ghost use Rattle.wf_run_scripts.specs.UplinkPieces.{IsBegun, head_text};

use crate::uplink::digits::push_bits;
use wf_io::{Line, Sink, Word};
use wf_trace::script::{Unanswered, write_line};
use wf_uplink::{Bitmap, Up, UpItem};

/// How the line of what a TID passes up ends.
#[derive(Clone, Copy)]
pub enum Ending {
    /// The end of a frame or of a timeout: whether the frame was returned, and whether an Ack answers it.
    Frame { old: bool, ack: bool },
    /// The end of a BlockAckReq: the BlockAck that answers it.
    Request(Bitmap),
}

/// If the buffer has more octets than this, it is written and emptied.
const FULL: usize = 8000;

// Appends two numbers with an octet between them.
fn push_pair(one: u64, between: u8, two: u64, out: &mut Line)
    requires { length out.old + 41 ≤ 8192 }
    ensures text { out.new ≡ out.old ++ join_with_byte between (decimal one ∷ decimal two ∷ []) }
    ensures len { length out.new ≤ length out.old + 41 }
{
    out.push_number(one);
    out.push(between);
    out.push_number(two);
}

// Appends one item: a frame, or a gap of sequence numbers.
fn push_item(item: UpItem, out: &mut Line)
    requires { length out.old ≤ 8000 }
    ensures text { out.new ≡ out.old ++ spaced (item_words item) }
    ensures len { length out.new ≤ length out.old + 46 }
{
    match item {
        UpItem::Frame { id, seq } => {
            out.push(b' ');
            push_pair(id, b':', u64::from(seq), out);
        }
        UpItem::Gap { from, count } => {
            out.push_all(b" gap ");
            push_pair(u64::from(from), b'+', u64::from(count), out);
        }
    }
}

// Writes the beginning of the line: the station, its TID, and the charge if it has one.
fn push_head(up: &Up, has_air: bool, out: &mut Line)
    requires { out.old ≡ [] }
    ensures text { out.new ≡ head_text has_air up.now }
    ensures len { length out.new ≤ 8000 }
{
    out.push_all(b"up");
    out.push_words(&[
        Word::Text(b"sta"),
        Word::Number(u64::from(up.station)),
        Word::Text(b"tid"),
        Word::Number(u64::from(up.tid)),
    ]);
    if has_air {
        out.push_words(&[Word::Text(b"air"), Word::Number(u64::from(up.air))]);
    }
}

// Appends a word and a space before it, or nothing.
fn push_if(holds: bool, word: &'static [u8], out: &mut Line)
    requires { length out.old + (length word.now + 1) ≤ 8192 }
    ensures text { out.new ≡ out.old ++ spaced (if holds then word.now ∷ [] else []) }
    ensures len { length out.new ≤ length out.old + (length word.now + 1) }
{
    if holds {
        out.push_words(&[Word::Text(word)]);
    }
}

// Appends the words of a BlockAck.
fn push_bitmap(bitmap: &Bitmap, out: &mut Line)
    requires { length out.old ≤ 8000 }
    ensures text { out.new ≡ out.old ++ spaced (bitmap_words bitmap.now) }
    ensures len { length out.new ≤ length out.old + 100 }
{
    out.push_words(&[
        Word::Text(b"ba"),
        Word::Number(u64::from(bitmap.start.raw())),
    ]);
    out.push(b' ');
    push_bits(bitmap.bits, bitmap.wide, out);
}

// Appends the last words of the line.
fn push_last(ending: Ending, out: &mut Line)
    requires { length out.old ≤ 8000 }
    ensures text { out.new ≡ out.old ++ spaced (last_words ending) }
    ensures len { length out.new ≤ length out.old + 100 }
{
    match ending {
        Ending::Frame { old, ack } => {
            push_if(old, b"old", out);
            push_if(ack, b"ack", out);
        }
        Ending::Request(bitmap) => push_bitmap(&bitmap, out),
    }
}

// Ends the line with its last words.
fn push_end(ending: Ending, out: &mut Line)
    requires { length out.old ≤ 8000 }
    ensures { out.new ≡ out.old ++ (spaced (last_words ending) ++ 10 ∷ []) }
{
    push_last(ending, out);
    out.push(b'\n');
}

// Writes and empties the buffer if it is full.
fn spill<K: Sink>(line: &mut Line, sink: &mut K) -> Result<(), Unanswered>
    ensures begun { OnOk result ((held : Option (List ℕ)) (text : List ℕ) →
        IsBegun held (K.held sink.old) line.old text → IsBegun held (K.held sink.new) line.new text) }
    ensures room { OnOk result (length line.new ≤ 8000) }
    ensures front { OnErr result (HoldsFront (K.held sink.old) (K.held sink.new) line.old) }
    ensures memory { result ≢ Err Unanswered.Memory }
    ensures counted { K.faults sink.old ≤ K.faults sink.new }
    ensures cause { result ≡ Err Unanswered.Sink → HasRisen (K.faults sink.old) (K.faults sink.new) }
    ensures quiet { result ≢ Err Unanswered.Sink → K.faults sink.new ≡ K.faults sink.old }
{
    if line.octets().len() > FULL {
        write_line(sink, line)?;
        line.clear();
    }
    Ok(())
}

/// Writes the line of what a TID passes up. After an error the sink holds a prefix of it.
fn write_told<K: Sink>(
    up: &Up,
    has_air: bool,
    ending: Ending,
    sink: &mut K,
) -> Result<(), Unanswered>
    ensures written { OnOk result (K.held sink.new
        ≡ append_known (K.held sink.old) (told_line has_air up.now ending)) }
    ensures front { OnErr result
        (HoldsFront (K.held sink.old) (K.held sink.new) (told_line has_air up.now ending)) }
    ensures memory { result ≢ Err Unanswered.Memory }
    ensures counted { K.faults sink.old ≤ K.faults sink.new }
    ensures cause { result ≡ Err Unanswered.Sink → HasRisen (K.faults sink.old) (K.faults sink.new) }
    ensures quiet { result ≢ Err Unanswered.Sink → K.faults sink.new ≡ K.faults sink.old }
{
    let mut line = Line::new();
    push_head(up, has_air, &mut line);
    for i in 0..up.items.len() {
        push_item(up.items.at(i), &mut line);
        spill(&mut line, sink)?;
    }
    push_end(ending, &mut line);
    write_line(sink, &line)
}

/// Writes the line of what a frame or a timeout passes up. After an error the sink holds a prefix of it.
pub fn write_up<K: Sink>(up: &Up, is_frame: bool, sink: &mut K) -> Result<(), Unanswered>
    ensures written { OnOk result (K.held sink.new
        ≡ append_known (K.held sink.old) (up_line is_frame up.now)) }
    ensures front { OnErr result (HoldsFront (K.held sink.old) (K.held sink.new) (up_line is_frame up.now)) }
    ensures memory { result ≢ Err Unanswered.Memory }
    ensures counted { K.faults sink.old ≤ K.faults sink.new }
    ensures cause { result ≡ Err Unanswered.Sink → HasRisen (K.faults sink.old) (K.faults sink.new) }
    ensures quiet { result ≢ Err Unanswered.Sink → K.faults sink.new ≡ K.faults sink.old }
{
    let ending = Ending::Frame {
        old: up.old,
        ack: up.ack,
    };
    write_told(up, is_frame, ending, sink)
}

/// Writes the line of what a BlockAckReq passes up, with the BlockAck that answers it. After an error the
/// sink holds a prefix of it.
pub fn write_request<K: Sink>(up: &Up, bitmap: Bitmap, sink: &mut K) -> Result<(), Unanswered>
    ensures written { OnOk result (K.held sink.new
        ≡ append_known (K.held sink.old) (request_line up.now bitmap)) }
    ensures front { OnErr result
        (HoldsFront (K.held sink.old) (K.held sink.new) (request_line up.now bitmap)) }
    ensures memory { result ≢ Err Unanswered.Memory }
    ensures counted { K.faults sink.old ≤ K.faults sink.new }
    ensures cause { result ≡ Err Unanswered.Sink → HasRisen (K.faults sink.old) (K.faults sink.new) }
    ensures quiet { result ≢ Err Unanswered.Sink → K.faults sink.new ≡ K.faults sink.old }
{
    write_told(up, true, Ending::Request(bitmap), sink)
}
