//! The recipient's side of one block acknowledgement agreement.

ghost use Rattle.std.specs.Prelude.{◌≡◌, ◌≤◌, ◌<◌, [], nat_lt, IfOk, take, drop};
ghost use Rattle.wf_octets.specs.Offsets.{IsOffsets};
ghost use Rattle.wf_recv_peer.specs.Agreements.{new_agreement, ended_agreement, agreement_after, buffer_outcome, IsEachOnce};
ghost use Rattle.wf_recv_peer.specs.Buffer.{items_of};
ghost use Rattle.wf_recv_peer.specs.Answering.{answer_size, narrow_answer, wide_answer, IsWritten, IsWrittenWide, IsAnswer};

use crate::reading::Reading;
use crate::recipient::{Reorder, Score};
use std::alloc::{AllocError, Global};
use std::marker::Model;
use wf_frame::{GREATEST_WINDOW, Ids, NARROW_WINDOW};
use wf_octets::bits::{Bits64, Bits256};
use wf_octets::block::{Ba, WideBa, encode_ba, encode_wide};
use wf_octets::fields::put;
use wf_octets::seq12::Seq12;

/// The scoreboard and the reordering buffer of one TID.
#[derive(Drop)]
pub(crate) struct Agreement {
    score: Score,
    reorder: Reorder,
}

impl Model for Agreement {
    ghost use Rattle.std.specs.Prelude.{◌≡◌};
    ghost use Rattle.wf_recv_peer.specs.Agreements.{AgreementValue};

    ghost Value = { AgreementValue };

    ghost view = { λ a. record { board = a.score; buffer = a.reorder } };

    ghost invariant = { λ a. a.reorder.capacity ≡ 256 };
}

impl Agreement {
    /// Creates an agreement with a window of 256 numbers from 0 on, of which none arrived. Fails only if
    /// memory runs out.
    pub(crate) fn new(alloc: Global) -> Result<Agreement, AllocError>
        ensures { IfOk result (λ a. a ≡ new_agreement 0 256) }
    {
        let reorder = Reorder::new(alloc, GREATEST_WINDOW)?;
        Ok(Agreement {
            score: Score::new(),
            reorder,
        })
    }

    /// Begins a new agreement with first number `start` and a window of `size`, 1 to 256.
    pub(crate) fn reset(&mut self, start: Seq12, size: u16)
        requires { (1 ≤ size) × (size ≤ 256) }
        ensures { self.new ≡ new_agreement start size }
    {
        self.score.reset(start, size);
        self.reorder.reset(start, size);
    }

    /// Ends the agreement: all stored items go up, in the order of their numbers. `up` must be empty.
    pub(crate) fn end(&mut self, up: &mut Ids)
        requires { up.old ≡ [] }
        ensures after { self.new ≡ ended_agreement self.old }
        ensures up { up.new ≡ items_of self.old.buffer.places }
    {
        self.reorder.end(up);
        self.score.reset(self.reorder.start(), self.reorder.size());
    }

    /// Handles a frame of its TID. `id` is the id of a data frame. `up` must be empty, and gets the ids that
    /// the buffer passes up. Returns `id` if, and only if, the frame is discarded.
    pub(crate) fn hear(&mut self, reading: Reading, id: u64, up: &mut Ids) -> Option<u64>
        requires { up.old ≡ [] }
        ensures after { self.new ≡ agreement_after reading id self.old }
        ensures up { up.new ≡ (buffer_outcome reading id self.old.buffer).up }
        ensures back { result ≡ (buffer_outcome reading id self.old.buffer).back }
        ensures each_once { IsEachOnce reading id up.new result self.old.buffer self.new.buffer }
    {
        match reading {
            Reading::Data { number, .. } => {
                self.score.arrive(number);
                self.reorder.arrive(number, id, up)
            }
            Reading::Request { start, .. } => {
                self.score.bar(start);
                self.reorder.bar(start, up);
                None
            }
        }
    }

    /// Returns whether the window is above 64, the number of bits of the compressed BlockAck.
    fn is_wide(&self) -> bool
        ensures { result ≡ nat_lt 64 self.now.board.size }
    {
        self.score.size() > NARROW_WINDOW
    }

    /// Writes the BlockAck of a TID, from the station with the address `own` to the access point with the
    /// address `base`, and returns its size in octets.
    pub(crate) fn answer(&self, own: [u8; 6], base: [u8; 6], tid: u8, out: &mut [u8; 52]) -> usize
        requires { tid < 8 }
        ensures length { result ≡ answer_size self.now.board }
        ensures octets { IsAnswer own base tid self.now.board (take result out.new) }
        ensures rest { drop result out.new ≡ drop result out.old }
    {
        if self.is_wide() {
            write_wide(&self.score, own, base, tid, out);
            52
        } else {
            write_narrow(&self.score, own, base, tid, out);
            28
        }
    }
}

/// Writes the BlockAck of 256 bits.
fn write_wide(score: &Score, own: [u8; 6], base: [u8; 6], tid: u8, out: &mut [u8; 52])
    requires { tid < 8 }
    ensures { IsWrittenWide out.new (wide_answer own base tid score.now) }
{
    let (start, bits) = score.answer();
    let ba = WideBa {
        ra: base,
        ta: own,
        duration: 0,
        tid,
        start,
        bits,
    };
    encode_wide(&ba, out);
}

/// Writes the BlockAck of 64 bits.
fn write_narrow(score: &Score, own: [u8; 6], base: [u8; 6], tid: u8, out: &mut [u8; 52])
    requires tid { tid < 8 }
    requires narrow { score.now.size ≤ 64 }
    ensures octets { IsWritten (take 28 out.new) (narrow_answer own base tid score.now) }
    ensures rest { drop 28 out.new ≡ drop 28 out.old }
{
    let (start, bits) = score.answer();
    let ba = Ba {
        ra: base,
        ta: own,
        duration: 0,
        tid,
        start,
        bits: narrowed(bits),
    };
    let mut octets = [0; 28];
    encode_ba(&ba, &mut octets);
    put(out, 0, &octets);
}

/// Returns a bitmap of 64 bits with the same offsets, all of which are below 64.
fn narrowed(bits: Bits256) -> Bits64
    requires { IsOffsets 64 bits }
    ensures { result ≡ bits }
{
    let mut low = [0; 8];
    low.copy_from_slice(&bits.to_octets()[..8]);
    Bits64::of_octets(low)
}
