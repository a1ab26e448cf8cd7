//! Writes the lines of a list.

ghost use Rattle.std.specs.Prelude.{◌≡◌, ◌+◌, ◌≤◌, ◌∷◌, ◌++◌, [], ℕ, length, take, codes, decimal, OnOk};
ghost use Rattle.std.specs.Io.KnownBytes.{append_known};
ghost use Rattle.wf_io.specs.Faults.{CountsFaults};
ghost use Rattle.wf_io.specs.Words.{spaced};
ghost use Rattle.wf_report.specs.declared.captures.listing.frame.Frame.TheVariants.{Beacon};
ghost use Rattle.wf_report.specs.ListingLines.{frame_words, packet_line, capture_fault_line, count_line};

use crate::captures::listing::fault::Fault;
use crate::captures::listing::frame::{Frame, frame_of};
use crate::parts::bit_word;
use wf_io::pcap::Packet;
use wf_io::{Failed, Line, Sink, Word, write_all};

// Appends the words of a frame.
fn push_frame(frame: Frame, out: &mut Line)
    requires { length out.old ≤ 1000 }
    ensures text { out.new ≡ out.old ++ spaced (frame_words frame) }
    ensures len { length out.new ≤ length out.old + 100 }
{
    match frame {
        Frame::Data { tid, seq } => push_numbered(b"data", tid, b"seq", seq, out),
        Frame::Bar { tid, start } => push_numbered(b"bar", tid, b"start", start, out),
        Frame::Ba { tid, start } => push_numbered(b"ba", tid, b"start", start, out),
        Frame::Beacon {
            seq,
            count,
            period,
            group,
        } => push_beacon(seq, count, period, group, out),
        Frame::Group { seq } => {
            out.push_words(&[
                Word::Text(b"group"),
                Word::Text(b"seq"),
                Word::Number(u64::from(seq)),
            ]);
        }
        Frame::Other => out.push_words(&[Word::Text(b"other")]),
    }
}

// Appends the words of a frame that has a TID and a number.
fn push_numbered(kind: &'static [u8], tid: u8, name: &'static [u8], number: u16, out: &mut Line)
    requires room { length out.old ≤ 1000 }
    requires kind { length kind.now ≤ 10 }
    requires name { length name.now ≤ 10 }
    ensures text { out.new ≡ out.old
        ++ spaced (kind.now ∷ codes "tid" ∷ decimal tid ∷ name.now ∷ decimal number ∷ []) }
    ensures len { length out.new ≤ length out.old + 100 }
{
    out.push_words(&[
        Word::Text(kind),
        Word::Text(b"tid"),
        Word::Number(u64::from(tid)),
        Word::Text(name),
        Word::Number(u64::from(number)),
    ]);
}

// Appends the words of a beacon.
fn push_beacon(seq: u16, count: u8, period: u8, group: bool, out: &mut Line)
    requires { length out.old ≤ 1000 }
    ensures text { out.new ≡ out.old ++ spaced (frame_words (Beacon seq count period group)) }
    ensures len { length out.new ≤ length out.old + 100 }
{
    out.push_words(&[
        Word::Text(b"beacon"),
        Word::Text(b"seq"),
        Word::Number(u64::from(seq)),
        Word::Text(b"count"),
        Word::Number(u64::from(count)),
        Word::Text(b"period"),
        Word::Number(u64::from(period)),
        Word::Text(b"group"),
        Word::Text(bit_word(group)),
    ]);
}

// Writes the line of a packet to an empty line, from its header and its captured octets.
fn print_packet(packet: Packet, octets: &[u8], out: &mut Line)
    requires { out.old ≡ [] }
    ensures { out.new ≡ packet_line (record { header = packet; octets = octets.now }) }
{
    out.push_number(u64::from(packet.seconds));
    out.push_words(&[
        Word::Number(u64::from(packet.fraction)),
        Word::Text(b"len"),
        Word::Number(u64::from(packet.captured)),
    ]);
    push_frame(frame_of(octets), out);
    out.push(b'\n');
}

// Writes the line of a fault to an empty line.
fn print_fault(fault: Fault, out: &mut Line)
    requires { out.old ≡ [] }
    ensures { out.new ≡ capture_fault_line fault }
{
    out.push_line(
        b"fault",
        &[
            Word::Text(b"packet"),
            Word::Number(fault.packet),
            Word::Text(fault.kind.word()),
        ],
    );
}

// Writes the number of packets to an empty line.
fn print_count(count: u64, out: &mut Line)
    requires { out.old ≡ [] }
    ensures { out.new ≡ count_line count }
{
    out.push_line(b"packets", &[Word::Number(count)]);
}

/// Writes the line of a packet. After a failed write the sink holds a prefix of it.
pub fn write_packet<K: Sink>(packet: Packet, octets: &[u8], sink: &mut K) -> Result<(), Failed>
    ensures written { OnOk result
        (K.held sink.new ≡ append_known (K.held sink.old)
        (packet_line (record { header = packet; octets = octets.now }))) }
    ensures prefix { (n : ℕ) × (n ≤ length (packet_line (record { header = packet; octets = octets.now })))
        × (K.held sink.new ≡ append_known (K.held sink.old)
        (take n (packet_line (record { header = packet; octets = octets.now })))) }
    ensures cause { CountsFaults (K.faults sink.old) (K.faults sink.new) result }
{
    let mut line = Line::new();
    print_packet(packet, octets, &mut line);
    write_all(sink, line.octets())
}

/// Writes the line of the first fault. After a failed write the sink holds a prefix of it.
pub fn write_fault<K: Sink>(fault: Fault, sink: &mut K) -> Result<(), Failed>
    ensures written { OnOk result
        (K.held sink.new ≡ append_known (K.held sink.old) (capture_fault_line fault)) }
    ensures prefix { (n : ℕ) × (n ≤ length (capture_fault_line fault))
        × (K.held sink.new ≡ append_known (K.held sink.old) (take n (capture_fault_line fault))) }
    ensures cause { CountsFaults (K.faults sink.old) (K.faults sink.new) result }
{
    let mut line = Line::new();
    print_fault(fault, &mut line);
    write_all(sink, line.octets())
}

/// Writes the line with the number of packets. After a failed write the sink holds a prefix of it.
pub fn write_count<K: Sink>(count: u64, sink: &mut K) -> Result<(), Failed>
    ensures written { OnOk result (K.held sink.new ≡ append_known (K.held sink.old) (count_line count)) }
    ensures prefix { (n : ℕ) × (n ≤ length (count_line count))
        × (K.held sink.new ≡ append_known (K.held sink.old) (take n (count_line count))) }
    ensures cause { CountsFaults (K.faults sink.old) (K.faults sink.new) result }
{
    let mut line = Line::new();
    print_count(count, &mut line);
    write_all(sink, line.octets())
}
