//! The transmissions of an open exchange, without their octets.

ghost use Rattle.std.specs.Prelude.{◌≡◌, ◌<◌, ◌==◌, ℕ, [], find, option_map};
ghost use Rattle.wf_frame.specs.Frames.{FrameValue};
ghost use Rattle.wf_def_lists.specs.Table.{has};
ghost use Rattle.wf_def_world.specs.Refusals.{exchange_has};
ghost use Rattle.wf_def_world.specs.World.{World, exchange as exchange_in};
ghost use Rattle.wf_law_runs.specs.Delivery.{is_batch};
ghost use Rattle.wf_send_half.specs.Half.{IsLive};
ghost use Rattle.wf_send_half_model.specs.Standing.{StandsFor};
ghost use Rattle.wf_path.specs.Heard.{AreNumbersNear, offsets_at, shown_at};
ghost use Rattle.wf_path.specs.Transmissions.{sent_of, id_sent, tag_sent, bare_sent, start_on_air, start_announced};

use crate::Path;
use crate::flights::frame_of;
use wf_octets::bits::Bits256;
use wf_octets::seq12::Seq12;
use wf_send_parts::exchanges::{Numbers, Sending};

/// The transmissions of an open exchange.
#[derive(Clone, Copy, Debug, PartialEq, Eq)]
pub struct Sent {
    /// The station that receives them.
    pub station: u16,
    /// The traffic identifier, 0 to 7.
    pub tid: u8,
    /// Their number: one for each frame, or 1 for a BlockAckReq.
    pub count: u16,
    /// Whether the exchange sends a BlockAckReq (IEEE 802.11-2012, 8.3.1.8).
    pub request: bool,
}

/// Returns the distances from `first` of the numbers with these indices.
fn offsets_of(first: Seq12, numbers: &Numbers, indices: &Bits256) -> Bits256
    requires near { AreNumbersNear first numbers.now }
    ensures { result ≡ offsets_at first [] 0 numbers.now indices.now }
{
    let mut offsets = Bits256::empty();
    for i in 0..numbers.len() {
        if indices.has(i as u16) {
            offsets.set(numbers.at(i).ahead(first));
        }
    }
    offsets
}

impl Path {
    /// Returns the station and the TID of an open exchange, and how many transmissions it has. None if the
    /// exchange is not open.
    pub fn sent(&self, exchange: u64) -> Option<Sent>
        ensures { (w : World) (bodies : ℕ → FrameValue) → StandsFor self.now.half w bodies →
            result ≡ option_map sent_of (exchange_in w exchange) }
    {
        let open = self.half.exchange(exchange)?;
        Some(Sent {
            station: open.station,
            tid: open.tid,
            count: open.count(),
            request: open.is_request(),
        })
    }

    /// Returns whether an exchange is open and is a batch: the station's device numbers, aggregates and
    /// repeats its frames.
    pub fn is_batch(&self, exchange: u64) -> bool
        ensures { (w : World) (bodies : ℕ → FrameValue) → StandsFor self.now.half w bodies →
            result ≡ is_batch (exchange_in w exchange) }
    {
        match self.half.exchange(exchange) {
            Some(open) => open.batch,
            None => false,
        }
    }

    /// Returns the BlockAck that shows exactly the numbers of these transmissions of an open exchange, by
    /// their indices. None if there are none, if the exchange sends a BlockAckReq, or if it is not open.
    pub fn shown_at(&self, exchange: u64, indices: &Bits256) -> Option<(Seq12, Bits256)>
        ensures { result ≡ shown_at (find (λ x. x.number == exchange) self.now.half.opened) indices.now }
    {
        let open = self.half.exchange(exchange)?;
        match &open.sending {
            Sending::Data(numbers) if indices.count() != 0 && numbers.len() != 0 => {
                let first = numbers.at(0);
                Some((first, offsets_of(first, numbers, indices)))
            }
            _ => None,
        }
    }

    /// Returns whether an exchange is open and is plain: it sends one frame without an agreement, which an
    /// Ack answers.
    pub fn is_plain(&self, exchange: u64) -> bool
        ensures { (w : World) (bodies : ℕ → FrameValue) → StandsFor self.now.half w bodies →
            result ≡ exchange_has (exchange_in w exchange) (λ x. x.plain) }
    {
        match self.half.exchange(exchange) {
            Some(open) => open.plain,
            None => false,
        }
    }

    /// Returns the start of the window of a live station's TID, 0 to 7 (WinStartO; IEEE 802.11-2012,
    /// 9.21.7.2): the first number that is not settled.
    pub fn start_of(&self, station: u16, tid: u8) -> Seq12
        requires live { IsLive self.now.half station }
        requires tid { tid < 8 }
        ensures { (w : World) (bodies : ℕ → FrameValue) → StandsFor self.now.half w bodies →
            result ≡ start_on_air w station tid }
    {
        self.half.window(station, tid).start()
    }

    /// Returns the start of a TID's window, 0 to 7, that its receiver has without a BlockAckReq: the TID has
    /// no agreement. The device of an offloaded station announces the start of the window to its peer; a
    /// receiver of single frames takes each of them. None if the station is not live or the TID has an
    /// agreement.
    pub fn start_announced(&self, station: u16, tid: u8) -> Option<Seq12>
        requires { tid < 8 }
        ensures { (w : World) (bodies : ℕ → FrameValue) → StandsFor self.now.half w bodies →
            result ≡ start_announced w station tid }
    {
        if !self.live(station) || self.half.mode(station, tid).is_agreed() {
            None
        } else {
            Some(self.start_of(station, tid))
        }
    }

    /// Returns whether a transmission of an open exchange never went on the air, as the call Unsent says.
    /// `index` counts the transmissions from 0, and is at most 255. False if the exchange is not open.
    pub fn is_unsent(&self, exchange: u64, index: u16) -> bool
        requires { index < 256 }
        ensures { (w : World) (bodies : ℕ → FrameValue) → StandsFor self.now.half w bodies →
            result ≡ exchange_has (exchange_in w exchange) (λ x. has x.unsent index) }
    {
        match self.half.exchange(exchange) {
            Some(open) => open.unsent.has(index),
            None => false,
        }
    }

    /// Returns the id of the frame of a transmission. None if the exchange is not open, is a request, or has
    /// no transmission of that index.
    pub fn frame_id(&self, exchange: u64, index: u16) -> Option<u64>
        ensures { (w : World) (bodies : ℕ → FrameValue) → StandsFor self.now.half w bodies →
            result ≡ id_sent w exchange index }
    {
        let open = self.half.exchange(exchange)?;
        let seq = open.number_at(index)?;
        Some(frame_of(&self.half, open, index, seq).id)
    }

    /// Returns the tag of the frame of a transmission, by which its owner finds it again. None exactly if
    /// `frame_id` is None.
    pub fn frame_tag(&self, exchange: u64, index: u16) -> Option<u64>
        ensures { (w : World) (bodies : ℕ → FrameValue) → StandsFor self.now.half w bodies →
            result ≡ tag_sent w bodies exchange index }
    {
        let open = self.half.exchange(exchange)?;
        let seq = open.number_at(index)?;
        Some(frame_of(&self.half, open, index, seq).tag())
    }

    /// Returns whether the frame of a transmission is bare: only its owner has its octets. None exactly if
    /// `frame_id` is None.
    pub fn frame_is_bare(&self, exchange: u64, index: u16) -> Option<bool>
        ensures { (w : World) (bodies : ℕ → FrameValue) → StandsFor self.now.half w bodies →
            result ≡ bare_sent w bodies exchange index }
    {
        let open = self.half.exchange(exchange)?;
        let seq = open.number_at(index)?;
        Some(frame_of(&self.half, open, index, seq).is_bare())
    }
}
