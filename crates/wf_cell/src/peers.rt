//! The receive halves of all stations.

ghost use Rattle.std.specs.Prelude.{◌≡◌, ℕ, ◌<◌, ◌≤◌, [], length, nat_lt, IfOk};
ghost use Rattle.wf_recv_peer.specs.Agreements.{new_agreement, new_peer, with_agreement};
ghost use Rattle.wf_recv_peer.specs.Buffer.{request_outcome as buffer_requested};
ghost use Rattle.wf_cell_model.specs.Arriving.{buffer_outcome_of_transmission, peer_after, peer_requested};
ghost use Rattle.wf_def_world.specs.World.{Content};
ghost use Rattle.wf_cell_model.specs.Hearing.{AreNew, HasAddresses, agreement_of, peer_of, with_peer};
ghost use Rattle.wf_cell.specs.Octets.{IsForStation, IsSentTo};

use std::alloc::{AllocError, Global};
use std::marker::Model;
use wf_frame::Ids;
use wf_octets::bits::Bits256;
use wf_octets::block::{decode_ba, decode_wide};
use wf_octets::header::{base_address, station_address};
use wf_octets::seq12::Seq12;
use wf_recv_peer::Peer;
use wf_send_parts::exchanges::widened;

/// The octets of a BlockAck of 256 numbers.
const WIDE: usize = 52;

/// The content of a station's BlockAck.
#[derive(Clone, Copy)]
pub(crate) struct BlockAck {
    /// The first number of its bitmap.
    pub(crate) start: Seq12,
    /// The bitmap: a bit for each number from the start on.
    pub(crate) bits: Bits256,
    /// Whether its bitmap has 256 bits, not 64.
    pub(crate) wide: bool,
}

/// The receive half of each station, by its number. Contracts see them as a list. Only `new` allocates.
#[derive(Drop)]
pub(crate) struct Peers {
    list: Vec<Peer>,
}

impl Model for Peers {
    ghost use Rattle.std.specs.Prelude.{◌≡◌, List, vec_len, vec_capacity};
    ghost use Rattle.wf_recv_peer.specs.Agreements.{PeerValue};

    ghost Value = { List PeerValue };

    ghost view = { λ p. p.list.items };

    // there is memory for these halves, and for no more
    ghost invariant = { λ p. vec_capacity p.list ≡ vec_len p.list };
}

impl Peers {
    /// Makes the receive halves of this many stations, without any frame. Each has its own placeholder
    /// address and the access point's.
    pub(crate) fn new(alloc: Global, stations: u32) -> Result<Peers, AllocError>
        requires { stations ≤ 256 }
        ensures { IfOk result (λ made. AreNew stations made) }
    {
        let mut list = Vec::with_capacity(alloc, stations as usize)?;
        for station in 0..stations as u16 {
            let peer = Peer::new(alloc, station_address(station), base_address())?;
            list.push_reserved(peer);
        }
        Ok(Peers { list })
    }

    /// Resets the receive half of a station that joins, to its first number and its window of 1 to 256
    /// numbers.
    pub(crate) fn reset(&mut self, station: u16, start: Seq12, size: u16)
        requires within { station < length self.old }
        requires size { (1 ≤ size) × (size ≤ 256) }
        ensures { let p = peer_of self.old station in
            self.new ≡ with_peer station (new_peer p.own p.base start size) self.old }
    {
        self.list[usize::from(station)].reset(start, size);
    }

    /// Passes octets for a station to its receive half. `up`, which must be empty, gets the ids of the frames
    /// that it passes up.
    pub(crate) fn receive(&mut self, station: u16, octets: &[u8], id: u64, up: &mut Ids)
        requires within { station < length self.old }
        requires addresses { HasAddresses station (peer_of self.old station) }
        requires sent { IsForStation station octets.now }
        requires empty { up.old ≡ [] }
        ensures heard { (tid i : ℕ) (content : Content) →
            IsSentTo station tid i content octets.now →
            self.new ≡ with_peer station (peer_after tid i id content (peer_of self.old station)) self.old }
        ensures up { (tid i : ℕ) (content : Content) →
            IsSentTo station tid i content octets.now →
            up.new ≡ (buffer_outcome_of_transmission i id content
            (agreement_of self.old station tid).buffer).up }
    {
        if self.list[usize::from(station)]
            .receive(octets, id, up)
            .is_err()
        {
            unreachable!();
        }
    }

    /// The window of a TID below 8 of a station's receive half moves to this start, as by a BlockAckReq.
    /// `up`, which must be empty, gets the ids of the frames that it passes up.
    pub(crate) fn move_to(&mut self, station: u16, tid: u8, start: Seq12, up: &mut Ids)
        requires within { station < length self.old }
        requires tid { tid < 8 }
        requires empty { up.old ≡ [] }
        ensures moved { self.new ≡ with_peer station
            (peer_requested tid start (peer_of self.old station)) self.old }
        ensures up { up.new ≡ (buffer_requested start (agreement_of self.old station tid).buffer).up }
    {
        self.list[usize::from(station)].move_to(tid, start, up);
    }

    /// A TID below 8 of a station's receive half begins again, with first number `start` and a window of
    /// `size`, 1 to 256. Nothing of it is stored.
    pub(crate) fn renew(&mut self, station: u16, tid: u8, start: Seq12, size: u16)
        requires within { station < length self.old }
        requires tid { tid < 8 }
        requires size { (1 ≤ size) × (size ≤ 256) }
        ensures { self.new ≡ with_peer station
            (with_agreement tid (new_agreement start size) (peer_of self.old station)) self.old }
    {
        self.list[usize::from(station)].reset_tid(tid, start, size);
    }

    /// A station's BlockAck for a TID below 8, written as octets and read back.
    pub(crate) fn answer(&self, station: u16, tid: u8) -> BlockAck
        requires within { station < length self.now }
        requires tid { tid < 8 }
        ensures start { result.start ≡ (agreement_of self.now station tid).board.start }
        ensures bits { result.bits ≡ (agreement_of self.now station tid).board.offsets }
        ensures wide { result.wide ≡ nat_lt 64 (agreement_of self.now station tid).board.size }
    {
        let mut octets = [0; WIDE];
        let len = self.list[usize::from(station)].answer(tid, &mut octets);
        if len == WIDE {
            match decode_wide(&octets[..len]) {
                Ok(ba) => BlockAck {
                    start: ba.start,
                    bits: ba.bits,
                    wide: true,
                },
                Err(_) => unreachable!(),
            }
        } else {
            match decode_ba(&octets[..len]) {
                Ok(ba) => BlockAck {
                    start: ba.start,
                    bits: widened(ba.bits),
                    wide: false,
                },
                Err(_) => unreachable!(),
            }
        }
    }
}
