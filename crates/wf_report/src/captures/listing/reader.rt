//! Reads the packets of a capture, one by one.

ghost use Rattle.std.specs.Prelude.{◌≡◌, ◌+◌, ◌<◌, ◌≤◌, ℕ, List, length, MatchResult};
ghost use Rattle.std.specs.Io.KnownBytes.{prepend_known};
ghost use Rattle.wf_io.specs.Faults.{CountsFaults};
ghost use Rattle.wf_report.specs.ListedPackets.{most_octets_read};
ghost use Rattle.wf_report.specs.ListingReading.{TakesPacket, TakesBehind, GoesPast, captured_of};

use crate::captures::listing::fault::FaultKind;
use crate::captures::listing::octets::{fill, pass};
use wf_io::pcap::{Form, PACKET_HEAD, Packet, PcapFault, read_packet};
use wf_io::{Failed, MOST_OCTETS, Source};

/// The next item of a capture.
#[derive(Clone, Copy)]
pub enum Next {
    /// A packet, with its header.
    Packet(Packet),
    /// The fault of the next packet.
    Bad(FaultKind),
    /// The end of the input.
    Over,
}

/// Reads the packet that follows the first `place` octets, and stores its captured octets at the front of the
/// buffer. If the source fails, the octets that were read are an incomplete packet, from which no fault
/// follows.
pub fn next_packet<S: Source>(
    form: Form,
    place: u64,
    body: &mut [u8],
    source: &mut S,
) -> Result<Next, Failed>
    requires place { place ≤ most_octets_read }
    requires room { length body.old ≡ 262144 }
    ensures takes { TakesPacket form place (S.left source.old) result body.new (S.left source.new) }
    ensures cause { CountsFaults (S.faults source.old) (S.faults source.new) result }
{
    let mut head = [0; PACKET_HEAD];
    let wanted = (MOST_OCTETS + 1 - place).min(PACKET_HEAD as u64) as usize;
    let have = fill(source, &mut head[..wanted])?;
    if have == 0 {
        Ok(Next::Over)
    } else if place + have as u64 > MOST_OCTETS {
        Ok(Next::Bad(FaultKind::TooBig))
    } else if have < PACKET_HEAD {
        Ok(Next::Bad(FaultKind::Short))
    } else {
        body_behind(form, place, &head, body, source)
    }
}

// Reads the captured octets of the packet with this header, which follows the first `place` octets.
fn body_behind<S: Source>(
    form: Form,
    place: u64,
    head: &[u8],
    body: &mut [u8],
    source: &mut S,
) -> Result<Next, Failed>
    requires place { place + 16 ≤ most_octets_read }
    requires head { length head.now ≡ 16 }
    requires room { length body.old ≡ 262144 }
    ensures takes { TakesBehind form place head.now (S.left source.old) result body.new (S.left source.new) }
    ensures cause { CountsFaults (S.faults source.old) (S.faults source.new) result }
{
    let behind = place + PACKET_HEAD as u64;
    match read_packet(form, head) {
        Ok(packet) => {
            if behind + u64::from(packet.captured) > MOST_OCTETS {
                return past_limit(behind, FaultKind::Short, body, source);
            }
            let captured = packet.captured as usize;
            if fill(source, &mut body[..captured])? < captured {
                return Ok(Next::Bad(FaultKind::Short));
            }
            Ok(Next::Packet(packet))
        }
        Err(fault) => {
            let kind = FaultKind::of(fault);
            if behind + u64::from(captured_of(fault)) > MOST_OCTETS {
                return past_limit(behind, kind, body, source);
            }
            Ok(Next::Bad(kind))
        }
    }
}

// Returns the captured length of a header that is refused for its length alone, or 0.
fn captured_of(fault: PcapFault) -> u32
    ensures { result ≡ captured_of fault }
{
    match fault {
        PcapFault::Long { captured } => captured,
        _ => 0,
    }
}

// Returns the fault of a packet that goes beyond the octets that are read: `TooBig` if the input goes beyond
// them too, otherwise `kind`.
fn past_limit<S: Source>(
    behind: u64,
    kind: FaultKind,
    scratch: &mut [u8],
    source: &mut S,
) -> Result<Next, Failed>
    requires behind { behind ≤ most_octets_read }
    requires room { 0 < length scratch.old }
    ensures takes { (octets : List ℕ) × (S.left source.old ≡ prepend_known octets (S.left source.new))
        × MatchResult result (λ next. GoesPast behind kind next (S.left source.new) octets)
        (λ failed. behind + length octets ≤ most_octets_read) }
    ensures cause { CountsFaults (S.faults source.old) (S.faults source.new) result }
{
    if pass(source, scratch, MOST_OCTETS + 1 - behind)? {
        Ok(Next::Bad(FaultKind::TooBig))
    } else {
        Ok(Next::Bad(kind))
    }
}
