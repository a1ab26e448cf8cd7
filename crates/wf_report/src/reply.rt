//! Writes the answer line of an answer.

ghost use Rattle.std.specs.Prelude.{◌≡◌, ◌+◌, ◌≤◌, ◌++◌, ◌∷◌, [], length, map, decimal, codes, slice_index, ◌*◌, true};
ghost use Rattle.wf_io.specs.Words.{spaced};
ghost use Rattle.wf_def_world.specs.Text.{answer_line, more_words, eosp_words, part_words, score_digits};
ghost use Rattle.wf_frame.specs.Answers.{part_sent, reply_of, reply_with};
ghost use Rattle.wf_frame.specs.declared.notes.ReplyNote.TheVariants.{Accepted, Done, Reaped, Refused};
ghost use Rattle.wf_frame.specs.declared.notes.ReplyNote.TheVariants as reply;
ghost use Rattle.wf_frame.specs.declared.notes.GroupReply.TheVariants.{Beacon};
ghost use Rattle.wf_frame.specs.Words.{line};
ghost use Rattle.wf_report.specs.Replies.{is_one_or_two_words, pair_text};

use crate::parts::{bit_word, push_hex};
use wf_frame::{Answer, Brief, Fate, GroupReply, Ids, Kind, Pairs, Refusal, ServiceReply};
use wf_io::{Line, Word};

// Writes the line of a refusal, with its number if it has one.
fn push_refusal(out: &mut Line, refusal: Refusal)
    requires { out.old ≡ [] }
    ensures { out.new ≡ answer_line (Refused refusal) }
{
    let word = Word::Text(refusal.word());
    match refusal.number_told() {
        None => out.push_line(b"refused", &[word]),
        Some(number) => out.push_line(b"refused", &[word, Word::Signed(number)]),
    }
}

// Writes the line of a word and a number.
fn push_numbered(out: &mut Line, word: &'static [u8], number: u64)
    requires empty { out.old ≡ [] }
    requires short { length word.now ≤ 8 }
    ensures { out.new ≡ line (word.now ∷ decimal number ∷ []) }
{
    out.push_all(word);
    out.push(b' ');
    out.push_number(number);
    out.push(b'\n');
}

// Appends the frames of an exchange, each with its sequence number.
fn push_pairs(out: &mut Line, pairs: &Pairs)
    requires { length out.old ≤ 200 }
    ensures text { out.new ≡ out.old ++ spaced (map pair_text pairs.now) }
    ensures len { length out.new ≤ length out.old + 27 * 256 }
{
    for i in 0..pairs.len() {
        let (id, number) = pairs.at(i);
        out.push(b' ');
        out.push_number(id);
        out.push(b':');
        push_short(out, number);
    }
}

// Appends a number of at most five digits.
fn push_short(out: &mut Line, number: u16)
    requires { length out.old + 20 ≤ 8192 }
    ensures text { out.new ≡ out.old ++ decimal number }
    ensures len { length out.new ≤ length out.old + 5 }
{
    out.push_number(u64::from(number));
}

// Appends the ids of the frames that were passed up.
fn push_ids(out: &mut Line, ids: &Ids)
    requires { length out.old ≤ 200 }
    ensures text { out.new ≡ out.old ++ spaced (map decimal ids.now) }
    ensures len { length out.new ≤ length out.old + 21 * 256 }
{
    for i in 0..ids.len() {
        out.push(b' ');
        out.push_number(ids.at(i));
    }
}

// Appends the ids of the frames of a batch.
fn push_batch(out: &mut Line, pairs: &Pairs)
    requires { length out.old ≤ 200 }
    ensures text { out.new ≡ out.old ++ spaced (map decimal (map (λ p. p.0) pairs.now)) }
    ensures len { length out.new ≤ length out.old + 21 * 256 }
{
    for i in 0..pairs.len() {
        out.push(b' ');
        out.push_number(pairs.at(i).0);
    }
}

// Appends the frames or the request of an exchange, after the word for how it sends them.
fn push_part(out: &mut Line, request: Option<u16>, kind: Kind, pairs: &Pairs)
    requires { length out.old ≤ 190 }
    ensures text { out.new ≡ out.old ++ spaced (part_words (part_sent request kind pairs.now)) }
    ensures len { length out.new ≤ 7200 }
{
    match (request, kind) {
        (Some(start), _) => {
            out.push_words(&[Word::Text(b"bar"), Word::Number(u64::from(start))]);
        }
        (None, Kind::Aggregate) => {
            out.push_words(&[Word::Text(b"data")]);
            push_pairs(out, pairs);
        }
        (None, Kind::Batch) => {
            out.push_words(&[Word::Text(b"batch")]);
            push_batch(out, pairs);
        }
        (None, Kind::Plain) => {
            out.push_words(&[Word::Text(b"plain")]);
            push_pairs(out, pairs);
        }
    }
}

// Appends `more` if the More Data bit is set.
fn push_more(out: &mut Line, more: bool)
    requires { length out.old ≤ 7200 }
    ensures text { out.new ≡ out.old ++ spaced (more_words more) }
    ensures len { length out.new ≤ length out.old + 5 }
{
    if more {
        out.push_all(b" more");
    }
}

// Appends `more` if the More Data bit is set and `eosp` if the EOSP bit is, and ends the line.
fn push_header_bits(out: &mut Line, more: bool, eosp: bool)
    requires { length out.old ≤ 7200 }
    ensures { out.new ≡ out.old ++ (spaced (more_words more ++ eosp_words eosp) ++ 10 ∷ []) }
{
    push_more(out, more);
    if eosp {
        out.push_all(b" eosp\n");
    } else {
        out.push(b'\n');
    }
}

// Appends the bits of a wide BlockAck, offset 255 first.
fn push_wide(out: &mut Line, words: &[u64; 4])
    requires { length out.old ≤ 100 }
    ensures text { out.new ≡ out.old ++ score_digits (slice_index words.now 0) (slice_index words.now 1)
        (slice_index words.now 2) (slice_index words.now 3) true }
    ensures len { length out.new ≤ length out.old + 64 }
{
    push_hex(out, 16, words[3]);
    push_hex(out, 16, words[2]);
    push_hex(out, 16, words[1]);
    push_hex(out, 16, words[0]);
}

// Appends the bits of a BlockAck.
fn push_bits(out: &mut Line, words: &[u64; 4], wide: bool)
    requires { length out.old ≤ 100 }
    ensures text { out.new ≡ out.old ++ score_digits (slice_index words.now 0) (slice_index words.now 1)
        (slice_index words.now 2) (slice_index words.now 3) wide }
    ensures len { length out.new ≤ length out.old + 64 }
{
    if wide {
        push_wide(out, words);
    } else {
        push_hex(out, 16, words[0]);
    }
}

// Writes the line of a BlockAck: its start and its bits.
fn push_answer(out: &mut Line, first: u16, words: &[u64; 4], wide: bool)
    requires { out.old ≡ [] }
    ensures { out.new ≡ line (codes "ba" ∷ decimal first
        ∷ score_digits (slice_index words.now 0) (slice_index words.now 1) (slice_index words.now 2)
        (slice_index words.now 3) wide ∷ []) }
{
    out.push_all(b"ba");
    out.push_words(&[Word::Number(u64::from(first))]);
    out.push(b' ');
    push_bits(out, words, wide);
    out.push(b'\n');
}

// Writes the line of a `done`: how many frames were acknowledged, wait for another transmission, and failed.
fn push_ended(out: &mut Line, acked: u16, waiting: u16, failed: u16)
    requires { out.old ≡ [] }
    ensures { out.new ≡ answer_line (Done acked waiting failed) }
{
    out.push_line(
        b"done",
        &[
            Word::Text(b"acked"),
            Word::Number(u64::from(acked)),
            Word::Text(b"waiting"),
            Word::Number(u64::from(waiting)),
            Word::Text(b"failed"),
            Word::Number(u64::from(failed)),
        ],
    );
}

// Writes the line of an accepted frame, and of the frame that was dropped for the limit, if any.
fn push_accepted(out: &mut Line, id: u64, dropped: Option<u64>)
    requires { out.old ≡ [] }
    ensures { out.new ≡ answer_line (Accepted id dropped) }
{
    out.push_all(b"accepted ");
    out.push_number(id);
    if let Some(dropped) = dropped {
        out.push_all(b" dropped ");
        out.push_number(dropped);
    }
    out.push(b'\n');
}

// Writes the line of a pull, up to the frames or the request.
fn push_exchange(out: &mut Line, exchange: u64, station: u16, tid: u8, air: u32)
    requires { out.old ≡ [] }
    ensures text { out.new ≡ codes "send" ++ spaced
        (decimal exchange ∷ codes "sta" ∷ decimal station ∷ codes "tid" ∷ decimal tid ∷ codes "air"
        ∷ decimal air ∷ []) }
    ensures len { length out.new ≤ 190 }
{
    let words = [
        Word::Number(exchange),
        Word::Text(b"sta"),
        Word::Number(u64::from(station)),
        Word::Text(b"tid"),
        Word::Number(u64::from(tid)),
        Word::Text(b"air"),
        Word::Number(u64::from(air)),
    ];
    out.push_all(b"send");
    out.push_words(&words);
}

// Writes the line of a reaped frame and its fate.
fn push_reaped(out: &mut Line, id: u64, fate: Fate)
    requires { out.old ≡ [] }
    ensures { out.new ≡ answer_line (Reaped id fate) }
{
    out.push_line(b"reaped", &[Word::Number(id), Word::Text(fate.word())]);
}

// Writes the line of the frames that a receiver passed up.
fn push_released(out: &mut Line, ids: &Ids)
    requires { out.old ≡ [] }
    ensures { out.new ≡ line (codes "released" ∷ map decimal ids.now) }
{
    out.push_all(b"released");
    push_ids(out, ids);
    out.push(b'\n');
}

// Writes the line of an agreement that ended: how many frames were dropped, and those that the receiver
// passed up.
fn push_ceased(out: &mut Line, dropped: u32, ids: &Ids)
    requires { out.old ≡ [] }
    ensures { out.new ≡ line (codes "ceased" ∷ decimal dropped ∷ map decimal ids.now) }
{
    out.push_all(b"ceased");
    out.push_words(&[Word::Number(u64::from(dropped))]);
    push_ids(out, ids);
    out.push(b'\n');
}

// Appends the numbers of a group frame that is sent, after its word: its id, its sequence number and its
// airtime.
fn push_group_frame(out: &mut Line, id: u64, number: u16, air: u32)
    requires { out.old ≡ [] }
    ensures text { out.new ≡ codes "gsend"
        ++ spaced (decimal id ∷ decimal number ∷ codes "air" ∷ decimal air ∷ []) }
    ensures len { length out.new ≤ 100 }
{
    out.push_all(b"gsend");
    out.push_words(&[
        Word::Number(id),
        Word::Number(u64::from(number)),
        Word::Text(b"air"),
        Word::Number(u64::from(air)),
    ]);
}

// Writes the line of a beacon: its DTIM count, and whether it announces group frames.
fn push_beacon(out: &mut Line, count: u8, follows: bool)
    requires { out.old ≡ [] }
    ensures { out.new ≡ answer_line (reply.Group (Beacon count follows)) }
{
    out.push_line(
        b"beacon",
        &[
            Word::Number(u64::from(count)),
            Word::Text(bit_word(follows)),
        ],
    );
}

// Writes the line of an answer about group frames.
fn push_group(out: &mut Line, answer: GroupReply)
    requires { out.old ≡ [] }
    ensures { out.new ≡ answer_line (reply.Group answer) }
{
    match answer {
        GroupReply::Queued { id } => push_numbered(out, b"queued", id),
        GroupReply::Beacon { count, follows } => push_beacon(out, count, follows),
        GroupReply::Send {
            id,
            number,
            air,
            more,
        } => {
            push_group_frame(out, id, number, air);
            push_more(out, more);
            out.push(b'\n');
        }
        GroupReply::Done { id } => push_numbered(out, b"gdone", id),
    }
}

// Writes the line of an answer about service periods.
fn push_service(out: &mut Line, answer: ServiceReply)
    requires { out.old ≡ [] }
    ensures { out.new ≡ answer_line (reply.Service answer) }
{
    match answer {
        ServiceReply::Set => out.push_line(b"set", &[]),
        ServiceReply::Triggered { class } => {
            out.push_line(b"triggered", &[Word::Text(class.word())]);
        }
        ServiceReply::Ended => out.push_line(b"ended", &[]),
    }
}

// Writes the line of an answer that is one or two words; there is no other answer here.
fn push_one_or_two(out: &mut Line, brief: Brief)
    requires empty { out.old ≡ [] }
    requires words { is_one_or_two_words brief ≡ true }
    ensures { out.new ≡ answer_line (reply_with brief [] []) }
{
    match brief {
        Brief::Joined => out.push_line(b"joined", &[]),
        Brief::Set => out.push_line(b"set", &[]),
        Brief::Slept => out.push_line(b"slept", &[]),
        Brief::Woken => out.push_line(b"woken", &[]),
        Brief::Stopped => out.push_line(b"stopped", &[]),
        Brief::Started => out.push_line(b"started", &[]),
        Brief::Marked => out.push_line(b"marked", &[]),
        Brief::Ack => out.push_line(b"ack", &[]),
        Brief::Begun => out.push_line(b"begun", &[]),
        Brief::Freed => out.push_line(b"freed", &[]),
        Brief::Left { dropped } => push_numbered(out, b"left", u64::from(dropped)),
        Brief::Flushed { dropped } => push_numbered(out, b"flushed", u64::from(dropped)),
        Brief::Now { now } => push_numbered(out, b"now", now),
        Brief::Held { start } => push_numbered(out, b"held", u64::from(start)),
        Brief::Polled { class } => out.push_line(b"polled", &[Word::Text(class.word())]),
        Brief::Charged { deficit } => out.push_line(b"charged", &[Word::Signed(deficit)]),
        _ => {}
    }
}

/// Writes the line of an answer, with its octet 10, to an empty line.
pub fn print_reply(answer: &Answer, out: &mut Line)
    requires { out.old ≡ [] }
    ensures { out.new ≡ answer_line (reply_of answer.now) }
{
    match answer.brief {
        Brief::Ceased { dropped } => push_ceased(out, dropped, &answer.ids),
        Brief::Accepted { id, dropped } => push_accepted(out, id, dropped),
        Brief::Send {
            exchange,
            station,
            tid,
            air,
            request,
            kind,
            more,
            eosp,
        } => {
            push_exchange(out, exchange, station, tid, air);
            push_part(out, request, kind, &answer.pairs);
            push_header_bits(out, more, eosp);
        }
        Brief::Released => push_released(out, &answer.ids),
        Brief::Ba {
            start,
            b0,
            b1,
            b2,
            b3,
            wide,
        } => push_answer(out, start, &[b0, b1, b2, b3], wide),
        Brief::Done {
            acked,
            waiting,
            failed,
        } => push_ended(out, acked, waiting, failed),
        Brief::Reaped { id, fate } => push_reaped(out, id, fate),
        Brief::Group(answer) => push_group(out, answer),
        Brief::Service(answer) => push_service(out, answer),
        Brief::Refused(refusal) => push_refusal(out, refusal),
        brief => push_one_or_two(out, brief),
    }
}
