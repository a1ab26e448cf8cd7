//! The receive half of one station.

ghost use Rattle.std.specs.Prelude.{◌≡◌, ◌≤◌, ◌<◌, [], IfOk, IsOk, OnOk, OnErr, length, replicate, take, drop};
ghost use Rattle.wf_octets.specs.declared.header.header.Header.{Header};
ghost use Rattle.wf_octets.specs.declared.block.frames.Bar.{Bar};
ghost use Rattle.wf_recv_peer.specs.declared.reading.Reading.TheVariants.{Data, Request};
ghost use Rattle.wf_recv_peer.specs.Frames.{IsDataFor, IsRequestFor};
ghost use Rattle.std.specs.Result.{result_err};
ghost use Rattle.wf_recv_peer.specs.Receiving.{reading_of, first_peer_fault};
ghost use Rattle.wf_recv_peer.specs.Agreements.{new_agreement, ended_agreement, new_peer, with_agreement, agreement, after_frame, outcome_of_frame, IsEachOnce, buffer_of_tid};
ghost use Rattle.wf_recv_peer.specs.Buffer.{items_of};
ghost use Rattle.wf_recv_peer.specs.Answering.{answer_size, IsAnswer};

use crate::PeerFault;
use crate::agreement::Agreement;
use crate::reading::{Reading, read};
use std::alloc::{AllocError, Global};
use std::marker::Model;
use wf_frame::Ids;
use wf_octets::seq12::Seq12;

/// The number of TIDs that have an agreement.
const TIDS: usize = 8;

/// The receive half of one station: its own address and the access point's, and a block acknowledgement
/// agreement with the access point for each TID, 0 to 7.
#[derive(Drop)]
pub struct Peer {
    own: [u8; 6],
    base: [u8; 6],
    agreements: Vec<Agreement>,
}

impl Model for Peer {
    ghost use Rattle.std.specs.Prelude.{◌≡◌, length};
    ghost use Rattle.wf_recv_peer.specs.Agreements.{PeerValue};

    ghost Value = { PeerValue };

    ghost view = { λ p. record { own = p.own; base = p.base; agreements = p.agreements.items } };

    ghost invariant = { λ p. length p.agreements.items ≡ 8 };
}

fn new_agreements(alloc: Global) -> Result<Vec<Agreement>, AllocError>
    ensures { IfOk result (λ made. made.items ≡ replicate 8 (new_agreement 0 256)) }
{
    let mut made = Vec::with_capacity(alloc, TIDS)?;
    for _ in 0..TIDS {
        made.push(Agreement::new(alloc)?)?;
    }
    Ok(made)
}

fn reset_all(agreements: &mut [Agreement], start: Seq12, size: u16)
    requires { (1 ≤ size) × (size ≤ 256) }
    ensures { agreements.new ≡ replicate (length agreements.old) (new_agreement start size) }
{
    for agreement in agreements {
        agreement.reset(start, size);
    }
}

impl Peer {
    /// Creates the receive half of the station with the address `own`, at the access point with the address
    /// `base`. It accepts frames from `base` to `own`, and its BlockAcks go from `own` to `base`. An address
    /// has its octets in the order of a frame (IEEE 802.11-2012, 8.2.4.3). All addresses are allowed, group
    /// addresses included. Each window is of 256 numbers from 0 on, of which none arrived.
    ///
    /// Fails only if memory runs out; no other call allocates.
    pub fn new(alloc: Global, own: [u8; 6], base: [u8; 6]) -> Result<Peer, AllocError>
        ensures { IfOk result (λ p. p ≡ new_peer own base 0 256) }
    {
        let agreements = new_agreements(alloc)?;
        Ok(Peer {
            own,
            base,
            agreements,
        })
    }

    /// Begins new agreements for all eight TIDs, with first number `start` and a window of `size`, 1 to 256.
    /// Stored items are dropped.
    pub fn reset(&mut self, start: Seq12, size: u16)
        requires { (1 ≤ size) × (size ≤ 256) }
        ensures { self.new ≡ new_peer self.old.own self.old.base start size }
    {
        reset_all(&mut self.agreements, start, size);
    }

    /// Begins a new agreement for one TID, 0 to 7, with first number `start` and a window of `size`, 1 to
    /// 256. Its stored items are dropped; to have them passed up, call `end_tid` before.
    pub fn reset_tid(&mut self, tid: u8, start: Seq12, size: u16)
        requires tid { tid < 8 }
        requires size { (1 ≤ size) × (size ≤ 256) }
        ensures after { self.new ≡ with_agreement tid (new_agreement start size) self.old }
        ensures eight { length self.new.agreements ≡ 8 }
    {
        self.agreements[usize::from(tid)].reset(start, size);
    }

    /// Ends the agreement of one TID, 0 to 7. `up` must be empty, and gets all its stored items, in the order
    /// of their numbers: what an ended agreement passes up. Its window is then past their numbers;
    /// `reset_tid` begins the next agreement.
    pub fn end_tid(&mut self, tid: u8, up: &mut Ids)
        requires tid { tid < 8 }
        requires empty { up.old ≡ [] }
        ensures up { up.new ≡ items_of (agreement self.old tid).buffer.places }
        ensures after { self.new ≡ with_agreement tid (ended_agreement (agreement self.old tid)) self.old }
        ensures eight { length self.new.agreements ≡ 8 }
    {
        self.agreements[usize::from(tid)].end(up);
    }

    /// Handles octets that reached the station: a data frame, whose item has this id, or a BlockAckReq. The
    /// scoreboard and the reordering buffer of its TID handle it. `up` must be empty, and gets the items that
    /// the buffer passes up, in the order of their numbers. Returns the id if, and only if, its item is
    /// discarded because its number is already stored or is before the window. If the octets are no frame for
    /// the station, returns the first check that fails and changes nothing.
    pub fn receive(
        &mut self,
        octets: &[u8],
        id: u64,
        up: &mut Ids,
    ) -> Result<Option<u64>, PeerFault>
        requires { up.old ≡ [] }

        // refused exactly if a check fails, with the first that does
        ensures fault { result_err result ≡ first_peer_fault self.old.own self.old.base octets.now }
        ensures unchanged { OnErr result (self.new ≡ self.old) }
        ensures nothing_up { OnErr result (up.new ≡ []) }

        // so each frame for the station is accepted, and read as its header or its fields say
        ensures data { (h : Header) → IsDataFor self.old.own self.old.base octets.now h →
            IsOk result × (reading_of octets.now ≡ Data h.tid h.seq) }
        ensures request { (b : Bar) → IsRequestFor self.old.own self.old.base octets.now b →
            IsOk result × (reading_of octets.now ≡ Request b.tid b.start) }

        // then one agreement handles it, and the others are unchanged
        ensures after { OnOk result (self.new ≡ after_frame (reading_of octets.now) id self.old) }
        ensures up { OnOk result (up.new ≡ (outcome_of_frame (reading_of octets.now) id self.old).up) }
        ensures back { IfOk result (λ back. back
            ≡ (outcome_of_frame (reading_of octets.now) id self.old).back) }
        ensures each_once { IfOk result (λ back. let reading = reading_of octets.now in
            IsEachOnce reading id up.new back (buffer_of_tid reading self.old)
            (buffer_of_tid reading self.new)) }
        ensures eight { length self.new.agreements ≡ 8 }
    {
        let reading = read(self.own, self.base, octets)?;
        let agreement = &mut self.agreements[usize::from(reading.tid())];
        Ok(agreement.hear(reading, id, up))
    }

    /// The window of a TID, 0 to 7, moves to this start, as by a BlockAckReq. `up` must be empty, and gets
    /// the items that the buffer passes up.
    pub fn move_to(&mut self, tid: u8, start: Seq12, up: &mut Ids)
        requires tid { tid < 8 }
        requires empty { up.old ≡ [] }
        ensures after { self.new ≡ after_frame (Request tid start) 0 self.old }
        ensures up { up.new ≡ (outcome_of_frame (Request tid start) 0 self.old).up }
        ensures eight { length self.new.agreements ≡ 8 }
    {
        let request = Reading::Request { tid, start };
        let _ = self.agreements[usize::from(tid)].hear(request, 0, up);
    }

    /// Writes the BlockAck of a TID, 0 to 7, and returns its size in octets: 52 if the window is above 64,
    /// otherwise 28. The rest of `out` is unchanged.
    pub fn answer(&self, tid: u8, out: &mut [u8; 52]) -> usize
        requires { tid < 8 }
        ensures length { result ≡ answer_size (agreement self.now tid).board }
        ensures octets { IsAnswer self.now.own self.now.base tid (agreement self.now tid).board
            (take result out.new) }
        ensures rest { drop result out.new ≡ drop result out.old }
    {
        self.agreements[usize::from(tid)].answer(self.own, self.base, tid, out)
    }
}
