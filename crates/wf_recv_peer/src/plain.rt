//! The receive half of a station for the traffic identifiers (TIDs) that have no agreement.

ghost use Rattle.std.specs.Prelude.{◌≡◌, ◌<◌, IsOk, IfOk, OnOk, OnErr};
ghost use Rattle.std.specs.Result.{result_err};
ghost use Rattle.wf_octets.specs.declared.header.header.Header.{Header};
ghost use Rattle.wf_recv_peer.specs.Frames.{IsDataFor};
ghost use Rattle.wf_recv_peer.specs.Plain.{is_repeat, new_plain_peer, last_passed, with_last, repeats_last, after_data, first_data_fault};

use crate::PeerFault;
use crate::reading::read_data;
use std::marker::Model;
use wf_octets::seq12::Seq12;

/// The receive half of one station for TIDs without an agreement: its own address and the access point's, and
/// for each TID, 0 to 7, the number of the frame that was passed up last.
#[derive(Drop)]
pub struct PlainPeer {
    own: [u8; 6],
    base: [u8; 6],
    last: [Option<Seq12>; 8],
}

impl Model for PlainPeer {
    ghost use Rattle.wf_recv_peer.specs.Plain.{PlainPeerValue};

    ghost Value = { PlainPeerValue };

    ghost view = { λ p. record { own = p.own; base = p.base; last = p.last } };
}

/// Returns whether a frame repeats the frame of its TID that was passed up last (IEEE 802.11-2012, 9.3.2.10):
/// it has the Retry bit, and its number is the last one. `last` is None if no frame was passed up.
pub fn is_repeat(last: Option<Seq12>, retry: bool, seq: Seq12) -> bool
    ensures { result ≡ is_repeat last retry seq }
{
    match last {
        Some(last) => retry && last == seq,
        None => false,
    }
}

impl PlainPeer {
    /// Returns the receive half of the station with the address `own`, at the access point with the address
    /// `base`. No frame was passed up.
    pub fn new(own: [u8; 6], base: [u8; 6]) -> PlainPeer
        ensures { result ≡ new_plain_peer own base }
    {
        PlainPeer {
            own,
            base,
            last: [None; 8],
        }
    }

    /// Handles octets that reached the station: a data frame. Returns whether it is a repeat, which is
    /// discarded; any other frame is passed up at once. An Ack answers both. If the octets are no data frame
    /// for the station, returns the first check that fails and changes nothing.
    pub fn receive(&mut self, octets: &[u8]) -> Result<bool, PeerFault>
        // refused exactly if a check fails, with the first that does
        ensures fault { result_err result ≡ first_data_fault self.old.own self.old.base octets.now }
        ensures unchanged { OnErr result (self.new ≡ self.old) }

        // so each data frame for the station is accepted, and read as its header says
        ensures data { (h : Header) → IsDataFor self.old.own self.old.base octets.now h →
            IsOk result ×
            (repeats_last octets.now self.old ≡ is_repeat (last_passed self.old h.tid) h.retry h.seq) }

        // then its number is the last one of its TID
        ensures repeat { IfOk result (λ repeat. repeat ≡ repeats_last octets.now self.old) }
        ensures after { OnOk result (self.new ≡ after_data octets.now self.old) }
    {
        let header = read_data(self.own, self.base, octets)?;
        let last = &mut self.last[usize::from(header.tid)];
        let repeat = is_repeat(*last, header.retry, header.seq);
        *last = Some(header.seq);
        Ok(repeat)
    }

    /// Sets the number of the frame of a TID, 0 to 7, that was passed up last: after an agreement, that of
    /// the last frame that the agreement passed up; None if no frame can be repeated.
    pub fn set_last(&mut self, tid: u8, last: Option<Seq12>)
        requires { tid < 8 }
        ensures { self.new ≡ with_last tid last self.old }
    {
        self.last[usize::from(tid)] = last;
    }
}
