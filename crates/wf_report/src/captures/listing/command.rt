//! The command `frames`, over any source and sink.

ghost use Rattle.std.specs.Prelude.{◌≡◌, ◌≢◌, ℕ, List, Some, length};
ghost use Rattle.wf_trace.specs.CommandEnds.{CommandEnds};
ghost use Rattle.wf_report.specs.ListedPackets.{behind_head};
ghost use Rattle.wf_report.specs.ListingOutcome.{OutcomeOf, AnsweredOf, FramesOutcome, FramesAnswered};
ghost use Rattle.wf_report.specs.ListingLaw.{FramesLaw};

use crate::captures::listing::fault::{Fault, FaultKind};
use crate::captures::listing::lines::{write_count, write_fault, write_packet};
use crate::captures::listing::octets::fill;
use crate::captures::listing::reader::{Next, next_packet};
use std::alloc::Global;
use wf_io::pcap::{FILE_HEAD, Form, MOST_CAPTURED, PACKET_HEAD, read_head};
use wf_io::{Sink, Source, Status};

/// Reads a capture file from the source, and writes a line for each packet before it reads the next one. At
/// the end it writes the number of packets, or the line of the first fault.
///
/// If the source fails, exactly the lines of the packets that were read completely have been written. It
/// allocates room for the octets of one packet, and only before it reads.
pub fn frames<S: Source, K: Sink>(alloc: Global, source: &mut S, sink: &mut K) -> Status
    ensures ends { CommandEnds S.left S.faults K.held K.faults FramesOutcome FramesAnswered
        source.old source.new sink.old sink.new result }

    // memory can run out only before anything is read or written
    ensures unread { result ≡ Status.NoMemory → S.left source.new ≡ S.left source.old }
    ensures unwritten { result ≡ Status.NoMemory → K.held sink.new ≡ K.held sink.old }
    ensures law { (input : List ℕ) → S.left source.old ≡ Some input → FramesLaw input }
{
    let Ok(mut body) = vec![in alloc; 0; MOST_CAPTURED as usize] else {
        return Status::NoMemory;
    };
    list_capture(&mut body, source, sink)
}

// Lists a capture from its file header on. The buffer has room for the octets of one packet.
fn list_capture<S: Source, K: Sink>(body: &mut [u8], source: &mut S, sink: &mut K) -> Status
    requires { length body.old ≡ 262144 }
    ensures ends { CommandEnds S.left S.faults K.held K.faults FramesOutcome FramesAnswered
        source.old source.new sink.old sink.new result }
    ensures memory { result ≢ Status.NoMemory }
{
    let mut head = [0; FILE_HEAD];
    let Ok(have) = fill(source, &mut head) else {
        return Status::ReadFault;
    };
    match read_head(&head[..have]) {
        Ok(form) => list_packets(form, body, source, sink),
        Err(fault) => {
            let kind = FaultKind::of(fault);
            match write_fault(Fault { packet: 0, kind }, sink) {
                Ok(()) => Status::BadTrace,
                Err(_) => Status::WriteFault,
            }
        }
    }
}

// Lists the packets after a file header.
fn list_packets<S: Source, K: Sink>(
    form: Form,
    body: &mut [u8],
    source: &mut S,
    sink: &mut K,
) -> Status
    requires { length body.old ≡ 262144 }
    ensures ends { CommandEnds S.left S.faults K.held K.faults (OutcomeOf (behind_head form))
        (AnsweredOf (behind_head form)) source.old source.new sink.old sink.new result }
    ensures memory { result ≢ Status.NoMemory }
{
    let mut place = FILE_HEAD as u64;
    let mut count = 0;
    'packets: loop {
        match next_packet(form, place, body, source) {
            Err(_) => return Status::ReadFault,
            Ok(Next::Packet(packet)) => {
                let octets = &body[..packet.captured as usize];
                match write_packet(packet, octets, sink) {
                    Ok(()) => {}
                    Err(_) => return Status::WriteFault,
                }
                place += PACKET_HEAD as u64 + u64::from(packet.captured);
                count += 1;
            }
            Ok(Next::Bad(kind)) => {
                let packet = count + 1;
                match write_fault(Fault { packet, kind }, sink) {
                    Ok(()) => return Status::BadTrace,
                    Err(_) => return Status::WriteFault,
                }
            }
            Ok(Next::Over) => match write_count(count, sink) {
                Ok(()) => return Status::Done,
                Err(_) => return Status::WriteFault,
            },
        }
    }
}
