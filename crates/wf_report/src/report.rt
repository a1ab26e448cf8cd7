//! Writes the summary of a cell.

ghost use Rattle.std.specs.Prelude.{◌≡◌, ◌+◌, ◌≤◌, ◌==◌, ◌++◌, [], ◌∷◌, codes, decimal, if◌then◌else◌, length, map, OnOk, ◌*◌, ◌<◌, true};
ghost use Rattle.std.specs.List.{concat};
ghost use Rattle.std.specs.Io.KnownBytes.{append_known};
ghost use Rattle.wf_io.specs.Faults.{CountsFaults};
ghost use Rattle.wf_def_world.specs.Group.{bss_count};
ghost use Rattle.wf_def_world.specs.World.{is_live, share};
ghost use Rattle.wf_def_world.specs.Run.{world_of};
ghost use Rattle.wf_frame.specs.Words.{line};
ghost use Rattle.wf_def_world.specs.Text.{summary as summary_of, tally_words, share_line, share_lines, bss_words, group_line, tim_line, bss_lines, hex};
ghost use Rattle.wf_io.specs.Fronts.{HoldsFront};
ghost use Rattle.wf_io.specs.Words.{spaced};
ghost use Rattle.wf_report.specs.Parts.{counts_of_summary, lines_of, shares_of, lines_of_bsses};

use crate::parts::push_hex;
use crate::standing;
use wf_cell::Cell;
use wf_frame::Class;
use wf_io::{Failed, Line, Sink, Word, write_line};

// Appends how many frames were dropped for a cause, if any were.
fn push_dropped(out: &mut Line, cause: &'static [u8], count: u64)
    requires room { length out.old ≤ 4096 }
    requires short { length cause.now ≤ 8 }
    ensures text { out.new ≡ out.old ++ spaced (if count == 0 then [] else cause.now ∷ decimal count ∷ []) }
    ensures len { length out.new ≤ length out.old + 30 }
{
    if count != 0 {
        out.push_words(&[Word::Text(cause), Word::Number(count)]);
    }
}

// Appends the line of the frames: how many were accepted, and how many of them have each fate.
fn push_frames(cell: &Cell, out: &mut Line)
    requires { length out.old ≤ 200 }
    ensures text { out.new ≡ out.old ++ line (tally_words (world_of cell.now.past)) }
    ensures len { length out.new ≤ length out.old + 300 }
{
    let tally = standing::tally(cell);
    out.push_all(b"frames");
    out.push_words(&[
        Word::Number(tally.accepted),
        Word::Text(b"acked"),
        Word::Number(tally.acked),
        Word::Text(b"overlimit"),
        Word::Number(tally.overlimit),
        Word::Text(b"codel"),
        Word::Number(tally.codel),
        Word::Text(b"retries"),
        Word::Number(tally.retries),
        Word::Text(b"left"),
        Word::Number(tally.left),
        Word::Text(b"held"),
        Word::Number(tally.held()),
    ]);
    push_dropped(out, b"flushed", tally.flushed);
    push_dropped(out, b"ended", tally.ended);
    out.push(b'\n');
}

// Writes the lines of the calls, the clock, the frames and the exchanges.
fn push_counts(cell: &Cell, out: &mut Line)
    requires { out.old ≡ [] }
    ensures { out.new ≡ counts_of_summary (world_of cell.now.past) (length cell.now.past.history) }
{
    out.push_line(b"calls", &[Word::Number(cell.len())]);
    out.push_line(b"now", &[Word::Number(cell.clock())]);
    push_frames(cell, out);
    out.push_line(
        b"exchanges",
        &[
            Word::Number(standing::exchanges(cell)),
            Word::Text(b"open"),
            Word::Number(standing::open_exchanges(cell)),
        ],
    );
}

// Appends the line of a live station in a class, if it used any airtime.
fn push_share(cell: &Cell, station: u16, class: Class, out: &mut Line)
    requires live { is_live (world_of cell.now.past) station ≡ true }
    requires room { length out.old ≤ 4096 }
    ensures text { out.new ≡ out.old
        ++ share_line station class (share (world_of cell.now.past) station class) }
    ensures len { length out.new ≤ length out.old + 150 }
{
    let charged = standing::charged(cell, station, class);
    let received = standing::received(cell, station, class);
    if charged == 0 && received == 0 {
        return;
    }
    out.push_line(
        b"sta",
        &[
            Word::Number(u64::from(station)),
            Word::Text(class.word()),
            Word::Text(b"charged"),
            Word::Number(charged),
            Word::Text(b"rx"),
            Word::Number(received),
            Word::Text(b"deficit"),
            Word::Signed(standing::deficit(cell, station, class)),
        ],
    );
}

// Writes the lines of a live station, class by class.
fn push_shares(cell: &Cell, station: u16, out: &mut Line)
    requires live { is_live (world_of cell.now.past) station ≡ true }
    requires empty { out.old ≡ [] }
    ensures { out.new ≡ share_lines (world_of cell.now.past) station }
{
    push_share(cell, station, Class::Bk, out);
    push_share(cell, station, Class::Be, out);
    push_share(cell, station, Class::Vi, out);
    push_share(cell, station, Class::Vo, out);
}

// Writes the lines of a station, if it is live.
fn write_station<K: Sink>(cell: &Cell, station: u16, sink: &mut K) -> Result<(), Failed>
    ensures written { OnOk result
        (K.held sink.new ≡ append_known (K.held sink.old) (lines_of (world_of cell.now.past) station)) }
    ensures front { HoldsFront (K.held sink.old) (K.held sink.new)
        (lines_of (world_of cell.now.past) station) }
    ensures cause { CountsFaults (K.faults sink.old) (K.faults sink.new) result }
{
    let mut line = Line::new();
    if standing::live(cell, station) {
        push_shares(cell, station, &mut line);
    }
    write_line(sink, &line)
}

// Writes the lines of the live stations, by number.
fn write_shares<K: Sink>(cell: &Cell, sink: &mut K) -> Result<(), Failed>
    ensures written { OnOk result
        (K.held sink.new ≡ append_known (K.held sink.old) (shares_of (world_of cell.now.past))) }
    ensures front { HoldsFront (K.held sink.old) (K.held sink.new) (shares_of (world_of cell.now.past)) }
    ensures cause { CountsFaults (K.faults sink.old) (K.faults sink.new) result }
{
    for station in 0..standing::stations(cell) {
        match write_station(cell, station, sink) {
            Ok(()) => {}
            Err(failed) => return Err(failed),
        }
    }
    Ok(())
}

// Appends octets as hexadecimal digits.
fn push_octets(out: &mut Line, octets: &[u8])
    requires few { length octets.now ≤ 256 }
    requires room { length out.old ≤ 200 }
    ensures text { out.new ≡ out.old ++ concat (map (hex 2) octets.now) }
    ensures len { length out.new ≤ length out.old + 2 * length octets.now }
{
    for octet in octets {
        push_hex(out, 2, u64::from(*octet));
    }
}

// Appends the number of a BSS, if there are several.
fn push_bss(cell: &Cell, bss: u8, out: &mut Line)
    requires room { length out.old ≤ 4096 }
    ensures text { out.new ≡ out.old ++ spaced (bss_words (world_of cell.now.past) bss) }
    ensures len { length out.new ≤ length out.old + 30 }
{
    if standing::bsses(cell) > 1 {
        out.push_words(&[Word::Text(b"bss"), Word::Number(u64::from(bss))]);
    }
}

// Writes the line of the group frames of a BSS, if the settings allow any.
fn push_group(cell: &Cell, bss: u8, out: &mut Line)
    requires within { bss < bss_count (world_of cell.now.past).config.bsses }
    requires empty { out.old ≡ [] }
    ensures text { out.new ≡ group_line (world_of cell.now.past) bss }
    ensures len { length out.new ≤ 180 }
{
    if standing::buffered(cell) == 0 {
        return;
    }
    let counts = standing::group_counts(cell, bss);
    out.push_all(b"group");
    out.push_words(&[
        Word::Number(counts.accepted),
        Word::Text(b"sent"),
        Word::Number(counts.sent),
        Word::Text(b"held"),
        Word::Number(u64::from(counts.queued) + u64::from(counts.flying)),
        Word::Text(b"air"),
        Word::Number(counts.air),
    ]);
    push_bss(cell, bss, out);
    out.push(b'\n');
}

// Appends the line of the TIM element of a BSS.
fn push_map(cell: &Cell, bss: u8, out: &mut Line)
    requires within { bss < bss_count (world_of cell.now.past).config.bsses }
    requires room { length out.old ≤ 180 }
    ensures { out.new ≡ out.old ++ tim_line (world_of cell.now.past) bss }
{
    let mut octets = [0; 256];
    let count = standing::traffic(cell, bss, &mut octets);
    out.push_all(b"tim ");
    push_octets(out, &octets[..count]);
    push_bss(cell, bss, out);
    out.push(b'\n');
}

// Writes the lines of a BSS.
fn write_bss<K: Sink>(cell: &Cell, bss: u8, sink: &mut K) -> Result<(), Failed>
    requires within { bss < bss_count (world_of cell.now.past).config.bsses }
    ensures written { OnOk result
        (K.held sink.new ≡ append_known (K.held sink.old) (bss_lines (world_of cell.now.past) bss)) }
    ensures front { HoldsFront (K.held sink.old) (K.held sink.new)
        (bss_lines (world_of cell.now.past) bss) }
    ensures cause { CountsFaults (K.faults sink.old) (K.faults sink.new) result }
{
    let mut lines = Line::new();
    push_group(cell, bss, &mut lines);
    push_map(cell, bss, &mut lines);
    write_line(sink, &lines)
}

// Writes the lines of all BSSs, by number.
fn write_bsses<K: Sink>(cell: &Cell, sink: &mut K) -> Result<(), Failed>
    ensures written { OnOk result
        (K.held sink.new ≡ append_known (K.held sink.old) (lines_of_bsses (world_of cell.now.past))) }
    ensures front { HoldsFront (K.held sink.old) (K.held sink.new) (lines_of_bsses (world_of cell.now.past)) }
    ensures cause { CountsFaults (K.faults sink.old) (K.faults sink.new) result }
{
    for bss in 0..standing::bsses(cell) {
        write_bss(cell, bss, sink)?;
    }
    Ok(())
}

/// Writes the summary of a cell: the state of its world after all calls. After a failed write the sink holds
/// a prefix of it.
pub fn summary<K: Sink>(cell: &Cell, sink: &mut K) -> Result<(), Failed>
    ensures written { OnOk result
        (K.held sink.new ≡ append_known (K.held sink.old)
        (summary_of (world_of cell.now.past) (length cell.now.past.history))) }
    ensures front { HoldsFront (K.held sink.old) (K.held sink.new)
        (summary_of (world_of cell.now.past) (length cell.now.past.history)) }
    ensures cause { CountsFaults (K.faults sink.old) (K.faults sink.new) result }
{
    let mut counts = Line::new();
    push_counts(cell, &mut counts);
    write_line(sink, &counts)?;
    write_shares(cell, sink)?;
    write_bsses(cell, sink)
}
