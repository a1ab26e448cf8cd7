//! The octets of an open exchange, and how a driver ends one.

ghost use Rattle.std.specs.Prelude.{◌≡◌, ◌≤◌, ℕ, Some, option_map, take, drop, length, IfOk, OnOk, OnErr};
ghost use Rattle.wf_frame.specs.Frames.{FrameValue};
ghost use Rattle.wf_def_world.specs.World.{World};
ghost use Rattle.wf_send_half_model.specs.Standing.{StandsFor};
ghost use Rattle.std.specs.Result.{result_err};
ghost use Rattle.wf_path.specs.Answers.{block_ack_in};
ghost use Rattle.wf_path.specs.Transmissions.{octets_sent, header_sent};
ghost use Rattle.wf_path.specs.Writing.{write_fault, mpdu_fault, write_header_fault};
ghost use Rattle.wf_path.specs.Driver.{IsEnded, end_fault};
ghost use Rattle.wf_path.specs.Paths.{IsPath, IsSmall, RiseLittle};

use crate::answers::read_block_ack;
use crate::writing::{write_header, write_transmission};
use crate::{DoneFault, Path, PathFault};
use wf_frame::Brief;
use wf_octets::bits::Bits256;
use wf_octets::header::DATA_HEADER_OCTETS;
use wf_octets::seq12::Seq12;

impl Path {
    /// Ends an exchange: its station is charged, and each frame that it sent is settled. `heard` is the start
    /// and the bits of the BlockAck that was heard (IEEE 802.11-2012, 8.3.1.9), if one was; the first 64 bits
    /// count, or all 256 if the TID's window is above 64. A number that never went on the air waits again,
    /// whatever the BlockAck shows. Each other number that it shows is acknowledged; a number that it does
    /// not show fails if the device will not try it again or if it was sent `attempts` times, else it waits
    /// again. A request is heard if anything was. If `air` is given, the station is charged `air`
    /// microseconds instead of the computed charge. Refused as NoExchange if the exchange is not open, as
    /// NoAnswer if something was heard though nothing of it went on the air and it is no batch, then as
    /// BadAir if `air` is 0 or above the setting `charge`.
    ///
    /// The numbers of a batch are not those on the air, so `done_each` ends it. Here the bits would have to
    /// show its own numbers, and each of these that they do not show fails.
    pub fn done_bits(
        &mut self,
        exchange: u64,
        heard: Option<(Seq12, Bits256)>,
        air: Option<u32>,
    ) -> Brief
        requires small { IsSmall self.old.half }
        ensures { IsEnded self.old exchange heard air self.new result }
    {
        match self.half.done(exchange, heard, air) {
            Ok(ended) => Brief::Done {
                acked: ended.acked,
                waiting: ended.waiting,
                failed: ended.failed,
            },
            Err(reason) => Brief::Refused(reason),
        }
    }

    /// Ends an exchange as `done_bits` does, by the octets of the BlockAck that was heard. Returns the fault
    /// NoExchange if the exchange is not open, else the first check of the octets that fails; a fault changes
    /// nothing. If the octets pass, the answer may still be the refusal NoAnswer or BadAir.
    pub fn done_bytes(
        &mut self,
        exchange: u64,
        heard: Option<&[u8]>,
        air: Option<u32>,
    ) -> Result<Brief, DoneFault>
        requires small { IsSmall self.old.half }
        ensures fault { (w : World) (bodies : ℕ → FrameValue) → StandsFor self.old.half w bodies →
            result_err result ≡ end_fault self.old.addresses w exchange
            (option_map (λ octets. octets.now) heard.entry) }
        ensures unchanged { OnErr result (self.new ≡ self.old) }
        ensures ended { IfOk result (λ brief. IsEnded self.old exchange
            (option_map (λ octets. block_ack_in octets.now) heard.entry) air self.new brief) }
        ensures addresses { self.new.addresses ≡ self.old.addresses }
        ensures path { IsPath self.new.half }
        ensures rises { RiseLittle self.old.half self.new.half }
    {
        let shown = match heard {
            Some(octets) => Some(read_block_ack(&self.half, &self.addresses, exchange, octets)?),
            None if self.sent(exchange).is_some() => None,
            None => return Err(DoneFault::NoExchange),
        };
        Ok(self.done_bits(exchange, shown, air))
    }

    /// Writes only the header of a data transmission of an open exchange (8.3.2.1), for a driver that sends
    /// the body from its own buffer. Returns NoExchange if the exchange is not open, or BadIndex if it has no
    /// data of that index, as a BlockAckReq has none; then `out` is unchanged.
    pub fn header(
        &self,
        exchange: u64,
        index: u16,
        out: &mut [u8; DATA_HEADER_OCTETS],
    ) -> Result<(), PathFault>
        ensures fault { (w : World) (bodies : ℕ → FrameValue) → StandsFor self.now.half w bodies →
            result_err result ≡ write_header_fault w exchange index }
        ensures unchanged { OnErr result (out.new ≡ out.old) }
        ensures octets { OnOk result ((w : World) (bodies : ℕ → FrameValue) →
            StandsFor self.now.half w bodies →
            header_sent self.now.addresses w bodies exchange index ≡ Some out.new) }
    {
        write_header(&self.half, &self.addresses, exchange, index, out)
    }

    /// Writes the octets of one transmission of an open exchange, a data frame or a BlockAckReq (8.3.2.1 and
    /// 8.3.1.8), and returns their number. The rest of `out` is unchanged; after a fault all of it is. If the
    /// transmission exists and its frame is bare, the fault is NoBody: call `header`, and send the body from
    /// its owner's buffer.
    pub fn mpdu(&self, exchange: u64, index: u16, out: &mut [u8]) -> Result<usize, PathFault>
        ensures fault { (w : World) (bodies : ℕ → FrameValue) → StandsFor self.now.half w bodies →
            result_err result ≡ mpdu_fault self.now.addresses w bodies exchange index
            (length out.old) }
        ensures unchanged { OnErr result (out.new ≡ out.old) }
        ensures octets { IfOk result (λ n. (w : World) (bodies : ℕ → FrameValue) →
            StandsFor self.now.half w bodies →
            octets_sent self.now.addresses w bodies exchange index ≡ Some (take n out.new)) }
        ensures within { IfOk result (λ n. n ≤ length out.new) }
        ensures rest { IfOk result (λ n. drop n out.new ≡ drop n out.old) }
    {
        match self.frame_is_bare(exchange, index) {
            Some(true) => Err(PathFault::NoBody),
            _ => self.mpdu_with_zeros(exchange, index, out),
        }
    }

    /// Writes the octets of one transmission as `mpdu` does, but with zeros for the body of a bare frame, as
    /// a capture or a receiver that is simulated has it.
    pub fn mpdu_with_zeros(
        &self,
        exchange: u64,
        index: u16,
        out: &mut [u8],
    ) -> Result<usize, PathFault>
        ensures fault { (w : World) (bodies : ℕ → FrameValue) → StandsFor self.now.half w bodies →
            result_err result ≡ write_fault self.now.addresses w bodies exchange index
            (length out.old) }
        ensures unchanged { OnErr result (out.new ≡ out.old) }
        ensures octets { IfOk result (λ n. (w : World) (bodies : ℕ → FrameValue) →
            StandsFor self.now.half w bodies →
            octets_sent self.now.addresses w bodies exchange index ≡ Some (take n out.new)) }
        ensures within { IfOk result (λ n. n ≤ length out.new) }
        ensures rest { IfOk result (λ n. drop n out.new ≡ drop n out.old) }
    {
        write_transmission(&self.half, &self.addresses, exchange, index, out)
    }
}
