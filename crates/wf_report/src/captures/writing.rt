//! Writes what a call puts on the air, as packets, from its answer and the cell after it.

ghost use Rattle.std.specs.Prelude.{◌≡◌, ◌<◌, [], ◌∷◌, IfSome, OnOk};
ghost use Rattle.std.specs.Io.KnownBytes.{append_known};
ghost use Rattle.wf_frame.specs.Answers.{reply_of};
ghost use Rattle.wf_io.specs.Faults.{CountsFaults};
ghost use Rattle.wf_io.specs.Fronts.{HoldsFront};
ghost use Rattle.wf_def_world.specs.Group.{bss_count};
ghost use Rattle.wf_def_world.specs.World.{exchange as exchange_in, group_of};
ghost use Rattle.wf_report.specs.AckFrames.{ack_frame};
ghost use Rattle.wf_report.specs.Captures.{samples};
ghost use Rattle.wf_report.specs.GroupFrames.{beacon_frame, group_frames};
ghost use Rattle.wf_report.specs.Packets.{frames_sent, block_acks, exchange_answered, bss_named, frames_of_group, frames_by, packets_at, octets_of_packets};
ghost use Rattle.wf_report.specs.Samples.{IsSampled, world_behind};

use crate::captures::frames::{Shown, ack, narrow_ack, transmission, wide_ack};
use crate::captures::group::{GREATEST_BEACON, beacon, group_frame};
use crate::captures::standing::{flying, sent};
use crate::standing::bsses;
use wf_cell::Cell;
use wf_frame::{Answer, Ask, Brief, GroupReply, Note};
use wf_io::pcap::write_packet;
use wf_io::{Failed, Sink};
use wf_octets::header::{DATA_HEADER_OCTETS, GREATEST_MPDU};

/// Returns the exchange that a call answers.
fn exchange_answered(note: &Note) -> Option<u64>
    ensures { result ≡ exchange_answered note.now }
{
    match note {
        Note::Asked(Ask::Answer { exchange }) => Some(*exchange),
        _ => None,
    }
}

/// Returns the BSS that a call about group frames names, if there is one of that number.
fn bss_named(cell: &Cell, note: &Note) -> Option<u8>
    ensures named { result ≡ bss_named (world_behind cell.now) note.now }
    ensures within { IfSome result (λ bss. bss < bss_count (world_behind cell.now).config.bsses) }
{
    match note {
        Note::Asked(Ask::Group(call)) if call.bss < bsses(cell) => Some(call.bss),
        _ => None,
    }
}

/// Writes a packet for each transmission of an exchange, in order, or nothing if the exchange is not open.
fn write_sent<K: Sink>(cell: &Cell, exchange: u64, sink: &mut K) -> Result<(), Failed>
    requires { IsSampled cell.now }
    ensures written { OnOk result (K.held sink.new ≡ append_known (K.held sink.old)
        (octets_of_packets (packets_at (world_behind cell.now).clock
        (frames_sent (world_behind cell.now) (samples (world_behind cell.now)) exchange)))) }
    ensures front { HoldsFront (K.held sink.old) (K.held sink.new)
        (octets_of_packets (packets_at (world_behind cell.now).clock
        (frames_sent (world_behind cell.now) (samples (world_behind cell.now)) exchange))) }
    ensures cause { CountsFaults (K.faults sink.old) (K.faults sink.new) result }
{
    let Some(sent) = sent(cell, exchange) else {
        return Ok(());
    };
    let at = cell.clock();
    let mut octets = [0; GREATEST_MPDU];
    for index in 0..sent.count {
        let len = transmission(cell, exchange, index, &mut octets);
        write_packet(sink, at, &octets[..len])?;
    }
    Ok(())
}

/// Writes a packet for the BlockAck of an exchange, of 64 numbers or of 256 (`wide`), or nothing if the
/// exchange is not open.
fn write_block_ack<K: Sink>(
    cell: &Cell,
    exchange: u64,
    shown: Shown,
    wide: bool,
    sink: &mut K,
) -> Result<(), Failed>
    ensures written { OnOk result (K.held sink.new ≡ append_known (K.held sink.old)
        (octets_of_packets (packets_at (world_behind cell.now).clock
        (block_acks shown.start (shown.b0 ∷ shown.b1 ∷ shown.b2 ∷ shown.b3 ∷ []) wide
        (exchange_in (world_behind cell.now) exchange))))) }
    ensures front { HoldsFront (K.held sink.old) (K.held sink.new)
        (octets_of_packets (packets_at (world_behind cell.now).clock
        (block_acks shown.start (shown.b0 ∷ shown.b1 ∷ shown.b2 ∷ shown.b3 ∷ []) wide
        (exchange_in (world_behind cell.now) exchange)))) }
    ensures cause { CountsFaults (K.faults sink.old) (K.faults sink.new) result }
{
    let Some(sent) = sent(cell, exchange) else {
        return Ok(());
    };
    let at = cell.clock();
    if wide {
        write_packet(sink, at, &wide_ack(sent, shown))
    } else {
        write_packet(sink, at, &narrow_ack(sent, shown))
    }
}

/// Writes a packet for the Ack of a plain exchange.
fn write_ack<K: Sink>(cell: &Cell, sink: &mut K) -> Result<(), Failed>
    ensures written { OnOk result (K.held sink.new ≡ append_known (K.held sink.old)
        (octets_of_packets (packets_at (world_behind cell.now).clock (ack_frame ∷ [])))) }
    ensures front { HoldsFront (K.held sink.old) (K.held sink.new)
        (octets_of_packets (packets_at (world_behind cell.now).clock (ack_frame ∷ []))) }
    ensures cause { CountsFaults (K.faults sink.old) (K.faults sink.new) result }
{
    let mut octets = [0; DATA_HEADER_OCTETS];
    let len = ack(&mut octets);
    write_packet(sink, cell.clock(), &octets[..len])
}

/// Writes a packet for the beacon of a BSS that the last call sent.
fn write_beacon<K: Sink>(cell: &Cell, bss: u8, sink: &mut K) -> Result<(), Failed>
    requires { bss < bss_count (world_behind cell.now).config.bsses }
    ensures written { OnOk result (K.held sink.new ≡ append_known (K.held sink.old)
        (octets_of_packets (packets_at (world_behind cell.now).clock
        (beacon_frame (world_behind cell.now) bss ∷ [])))) }
    ensures front { HoldsFront (K.held sink.old) (K.held sink.new)
        (octets_of_packets (packets_at (world_behind cell.now).clock
        (beacon_frame (world_behind cell.now) bss ∷ []))) }
    ensures cause { CountsFaults (K.faults sink.old) (K.faults sink.new) result }
{
    let mut octets = [0; GREATEST_BEACON];
    let len = beacon(cell, bss, &mut octets);
    write_packet(sink, cell.clock(), &octets[..len])
}

/// Writes a packet for the group frame of a BSS that is on the air, with this sequence number and this More
/// Data bit, or nothing if there is none.
fn write_group_frame<K: Sink>(
    cell: &Cell,
    bss: u8,
    number: u16,
    more: bool,
    sink: &mut K,
) -> Result<(), Failed>
    requires { bss < bss_count (world_behind cell.now).config.bsses }
    ensures written { OnOk result (K.held sink.new ≡ append_known (K.held sink.old)
        (octets_of_packets (packets_at (world_behind cell.now).clock
        (group_frames number more (group_of (world_behind cell.now) bss).flying)))) }
    ensures front { HoldsFront (K.held sink.old) (K.held sink.new)
        (octets_of_packets (packets_at (world_behind cell.now).clock
        (group_frames number more (group_of (world_behind cell.now) bss).flying))) }
    ensures cause { CountsFaults (K.faults sink.old) (K.faults sink.new) result }
{
    let Some(frame) = flying(cell, bss) else {
        return Ok(());
    };
    let mut octets = [0; GREATEST_MPDU];
    let len = group_frame(number, more, frame.len, &mut octets);
    write_packet(sink, cell.clock(), &octets[..len])
}

/// Writes the packets of a call about the group frames of a BSS, from its answer and the cell after it.
fn write_group<K: Sink>(
    cell: &Cell,
    bss: u8,
    answer: GroupReply,
    sink: &mut K,
) -> Result<(), Failed>
    requires { bss < bss_count (world_behind cell.now).config.bsses }
    ensures written { OnOk result (K.held sink.new ≡ append_known (K.held sink.old)
        (octets_of_packets (packets_at (world_behind cell.now).clock
        (frames_of_group (world_behind cell.now) bss answer)))) }
    ensures front { HoldsFront (K.held sink.old) (K.held sink.new)
        (octets_of_packets (packets_at (world_behind cell.now).clock
        (frames_of_group (world_behind cell.now) bss answer))) }
    ensures cause { CountsFaults (K.faults sink.old) (K.faults sink.new) result }
{
    match answer {
        GroupReply::Beacon { .. } => write_beacon(cell, bss, sink),
        GroupReply::Send { number, more, .. } => {
            write_group_frame(cell, bss, number, more, sink)
        }
        GroupReply::Queued { .. } | GroupReply::Done { .. } => Ok(()),
    }
}

/// Writes the packets of a call, from its answer and the cell after it.
pub(crate) fn write_frames<K: Sink>(
    cell: &Cell,
    note: &Note,
    answer: &Answer,
    sink: &mut K,
) -> Result<(), Failed>
    requires { IsSampled cell.now }
    ensures written { OnOk result (K.held sink.new ≡ append_known (K.held sink.old)
        (octets_of_packets (packets_at (world_behind cell.now).clock
        (frames_by (world_behind cell.now) (samples (world_behind cell.now)) note.now
        (reply_of answer.now))))) }
    ensures front { HoldsFront (K.held sink.old) (K.held sink.new)
        (octets_of_packets (packets_at (world_behind cell.now).clock
        (frames_by (world_behind cell.now) (samples (world_behind cell.now)) note.now
        (reply_of answer.now)))) }
    ensures cause { CountsFaults (K.faults sink.old) (K.faults sink.new) result }
{
    match answer.brief {
        Brief::Send { exchange, .. } => write_sent(cell, exchange, sink),
        Brief::Ba {
            start,
            b0,
            b1,
            b2,
            b3,
            wide,
        } => match exchange_answered(note) {
            None => Ok(()),
            Some(exchange) => {
                let shown = Shown {
                    start,
                    b0,
                    b1,
                    b2,
                    b3,
                };
                write_block_ack(cell, exchange, shown, wide, sink)
            }
        },
        Brief::Ack => write_ack(cell, sink),
        Brief::Group(answer) => match bss_named(cell, note) {
            None => Ok(()),
            Some(bss) => write_group(cell, bss, answer, sink),
        },
        _ => Ok(()),
    }
}
