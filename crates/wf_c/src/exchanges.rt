//! Open exchanges: what they send, and how they end.

ghost use Rattle.std.specs.Prelude.{◌≡◌, ◌≤◌, ◌⊎◌, ℕ, ◌%◌, true, is_some, pos, Option, Some, None, option_map, take, drop, length, IfOk, OnErr};
ghost use Rattle.wf_frame.specs.Frames.{FrameValue};
ghost use Rattle.wf_def_world.specs.World.{World, exchange as exchange_in};
ghost use Rattle.wf_octets.specs.Offsets.{offsets_in};
ghost use Rattle.wf_send_half_model.specs.Standing.{StandsFor};
ghost use Rattle.std.specs.Result.{result_err};
ghost use Rattle.wf_path.specs.Answers.{block_ack_in};
ghost use Rattle.wf_path.specs.Transmissions.{sent_of, id_sent, tag_sent, octets_sent, header_sent};
ghost use Rattle.wf_path.specs.Writing.{mpdu_fault, write_header_fault};
ghost use Rattle.wf_path.specs.Driver.{end_fault};
ghost use Rattle.wf_path.specs.Paths.{IsSmall};
ghost use Rattle.wf_c.specs.Calls.{Becomes, HoldsFor, HoldsSmall, addresses_held, reserve_held};
ghost use Rattle.wf_send_half.specs.Bits.{end_refusal};
ghost use Rattle.wf_c.specs.Ends.{IsExchangeEnded, end_code, end_refused, id_code, needs, octets_code, refused_code, sent_code, sent_shown, write_code};
ghost use Rattle.wf_c.specs.Numbers.{given_number};

use crate::held::Held;
use crate::reply::{Reply, refusal_code};
use crate::slot::PathSlot;
use wf_frame::Refusal;
use wf_octets::bits::Bits256;
use wf_octets::block::BlockFault;
use wf_octets::seq12::Seq12;
use wf_path::{DoneFault, PathFault};

/// The station of an open exchange, and what it sends.
#[repr(C)]
#[derive(Clone, Copy)]
pub struct Sent {
    /// The station.
    pub station: u16,
    /// The number of transmissions: one for each frame, or 1 for a BlockAckReq.
    pub count: u16,
    /// The TID, 0 to 7.
    pub tid: u8,
    /// 1 if the exchange sends a BlockAckReq, else 0.
    pub request: u8,
}

/// Writes the station of an exchange, and what it sends. Returns 0; or 12 if the exchange is not open, and
/// then writes nothing.
#[unsafe(no_mangle)]
pub extern "C" fn wf_path_sent(path: &mut PathSlot, exchange: u64, sent: &mut Sent) -> i32
    requires open { is_some path.old.value ≡ true }
    ensures code { (w : World) (bodies : ℕ → FrameValue) → HoldsFor path.old.value w bodies →
        result ≡ pos (sent_code (exchange_in w exchange)) }
    ensures shown { (w : World) (bodies : ℕ → FrameValue) → HoldsFor path.old.value w bodies →
        result ≡ pos 0 → option_map sent_of (exchange_in w exchange) ≡ Some (sent_shown sent.new) }
    ensures kept { (result ≡ pos 0) ⊎ (sent.new ≡ sent.old) }
    ensures unchanged { path.new.value ≡ path.old.value }
{
    match path.held().path.sent(exchange) {
        Some(found) => {
            *sent = Sent {
                station: found.station,
                count: found.count,
                tid: found.tid,
                request: u8::from(found.request),
            };
            0
        }
        None => refusal_code(Refusal::NoExchange),
    }
}

/// Writes the id of the frame of a transmission. Returns 0; or 9 if the exchange is not open, is a
/// BlockAckReq, or has no transmission with that index, and then writes nothing.
#[unsafe(no_mangle)]
pub extern "C" fn wf_path_frame_id(
    path: &mut PathSlot,
    exchange: u64,
    index: u16,
    id: &mut u64,
) -> i32
    requires open { is_some path.old.value ≡ true }
    ensures code { (w : World) (bodies : ℕ → FrameValue) → HoldsFor path.old.value w bodies →
        result ≡ pos (id_code (id_sent w exchange index)) }
    ensures shown { (w : World) (bodies : ℕ → FrameValue) → HoldsFor path.old.value w bodies →
        result ≡ pos 0 → id_sent w exchange index ≡ Some id.new }
    ensures kept { (result ≡ pos 0) ⊎ (id.new ≡ id.old) }
    ensures unchanged { path.new.value ≡ path.old.value }
{
    match path.held().path.frame_id(exchange, index) {
        Some(found) => {
            *id = found;
            0
        }
        None => refusal_code(Refusal::BadIndex),
    }
}

/// Writes the tag of the frame of a transmission. Returns 0; or 9 if the exchange is not open, is a
/// BlockAckReq, or has no transmission with that index, and then writes nothing.
#[unsafe(no_mangle)]
pub extern "C" fn wf_path_frame_tag(
    path: &mut PathSlot,
    exchange: u64,
    index: u16,
    tag: &mut u64,
) -> i32
    requires open { is_some path.old.value ≡ true }
    ensures code { (w : World) (bodies : ℕ → FrameValue) → HoldsFor path.old.value w bodies →
        result ≡ pos (id_code (tag_sent w bodies exchange index)) }
    ensures shown { (w : World) (bodies : ℕ → FrameValue) → HoldsFor path.old.value w bodies →
        result ≡ pos 0 → tag_sent w bodies exchange index ≡ Some tag.new }
    ensures kept { (result ≡ pos 0) ⊎ (tag.new ≡ tag.old) }
    ensures unchanged { path.new.value ≡ path.old.value }
{
    match path.held().path.frame_tag(exchange, index) {
        Some(found) => {
            *tag = found;
            0
        }
        None => refusal_code(Refusal::BadIndex),
    }
}

/// Writes the header of a data transmission, 26 octets, without its body. Returns 0; 12 if the exchange is
/// not open; or 9 if it has no data with that index. After an error `out` is unchanged.
#[unsafe(no_mangle)]
pub extern "C" fn wf_path_header(
    path: &mut PathSlot,
    exchange: u64,
    index: u16,
    out: &mut [u8; 26],
) -> i32
    requires open { is_some path.old.value ≡ true }
    ensures code { (w : World) (bodies : ℕ → FrameValue) → HoldsFor path.old.value w bodies →
        result ≡ pos (write_code (write_header_fault w exchange index)) }
    ensures octets { (w : World) (bodies : ℕ → FrameValue) → HoldsFor path.old.value w bodies →
        result ≡ pos 0 → header_sent (addresses_held path.old.value) w bodies exchange index ≡ Some out.new }
    ensures kept { (result ≡ pos 0) ⊎ (out.new ≡ out.old) }
    ensures unchanged { path.new.value ≡ path.old.value }
{
    match path.held().path.header(exchange, index, out) {
        Ok(()) => 0,
        Err(PathFault::NoExchange) => refusal_code(Refusal::NoExchange),
        Err(PathFault::BadIndex) => refusal_code(Refusal::BadIndex),
        Err(PathFault::NoBody) => NO_BODY,
        Err(PathFault::SmallBuffer { .. }) => SMALL_BUFFER,
    }
}

/// Writes the octets of one transmission, and their number to `size`. Returns 0; 12 if the exchange is not
/// open; 9 if it has no transmission with that index; 65 if its frame is bare; or 62 if `out` is too small.
/// After an error `out` is unchanged; after 62 `size` is the number of octets that are needed, and after the
/// other errors it is unchanged.
#[unsafe(no_mangle)]
pub extern "C" fn wf_path_mpdu(
    path: &mut PathSlot,
    exchange: u64,
    index: u16,
    out: &mut [u8],
    size: &mut usize,
) -> i32
    requires open { is_some path.old.value ≡ true }
    ensures code { (w : World) (bodies : ℕ → FrameValue) → HoldsFor path.old.value w bodies →
        result ≡ pos (write_code (mpdu_fault (addresses_held path.old.value) w bodies exchange index
        (length out.old))) }
    ensures octets { (w : World) (bodies : ℕ → FrameValue) → HoldsFor path.old.value w bodies →
        result ≡ pos 0 →
        octets_sent (addresses_held path.old.value) w bodies exchange index ≡ Some (take size.new out.new) }
    ensures within { result ≡ pos 0 → size.new ≤ length out.new }
    ensures rest { result ≡ pos 0 → drop size.new out.new ≡ drop size.new out.old }
    ensures fault { (result ≡ pos 0) ⊎ (out.new ≡ out.old) }
    ensures need { (w : World) (bodies : ℕ → FrameValue) → HoldsFor path.old.value w bodies →
        needs (mpdu_fault (addresses_held path.old.value) w bodies exchange index (length out.old))
        size.old size.new }
    ensures unchanged { path.new.value ≡ path.old.value }
{
    match path.held().path.mpdu(exchange, index, out) {
        Ok(count) => {
            *size = count;
            0
        }
        Err(PathFault::NoExchange) => refusal_code(Refusal::NoExchange),
        Err(PathFault::BadIndex) => refusal_code(Refusal::BadIndex),
        Err(PathFault::NoBody) => NO_BODY,
        Err(PathFault::SmallBuffer { need }) => {
            *size = need;
            SMALL_BUFFER
        }
    }
}

/// The code of a buffer that is too small.
pub(crate) const SMALL_BUFFER: i32 = 62;

/// The code of a transmission whose frame is bare.
const NO_BODY: i32 = 65;

// The airtime or the limit that a number gives; 0 gives none.
pub(crate) fn given_number(number: u32) -> Option<u32>
    ensures { result ≡ given_number number }
{
    if number == 0 { None } else { Some(number) }
}

impl Held {
    // Ends an exchange by its BlockAck, or without one.
    pub(crate) fn end(
        &mut self,
        exchange: u64,
        heard: Option<(Seq12, Bits256)>,
        air: Option<u32>,
    ) -> Reply
        requires small { IsSmall self.old.path.half }
        ensures { IsExchangeEnded self.old exchange heard air self.new result }
    {
        self.answer.brief = self.path.done_bits(exchange, heard, air);
        Reply::of(self.answer.brief)
    }

    // Ends an exchange by the octets of a BlockAck.
    fn end_by(&mut self, exchange: u64, octets: &[u8], air: Option<u32>) -> Result<Reply, DoneFault>
        requires small { IsSmall self.old.path.half }
        ensures fault { (w : World) (bodies : ℕ → FrameValue) → StandsFor self.old.path.half w bodies →
            result_err result ≡ end_fault self.old.path.addresses w exchange (Some octets.now) }
        ensures unchanged { OnErr result (self.new.path ≡ self.old.path) }
        ensures ended { IfOk result (λ shown. IsExchangeEnded self.old exchange
            (Some (block_ack_in octets.now)) air self.new shown) }
        ensures refused { IfOk result (λ shown. shown.refusal ≡ refused_code (end_refusal self.old.path.half
            exchange (Some (block_ack_in octets.now)) air)) }
        ensures stays { IfOk result (λ shown. (shown.refusal ≡ 0) ⊎ (self.new.path ≡ self.old.path)) }
        ensures reserve { self.old.reserve ≤ self.new.reserve }
    {
        self.answer.brief = self.path.done_bytes(exchange, Some(octets), air)?;
        Ok(Reply::of(self.answer.brief))
    }
}

impl PathSlot {
    // Ends an exchange of the path that the handle holds.
    fn end_exchange(
        &mut self,
        exchange: u64,
        heard: Option<(Seq12, Bits256)>,
        air: u32,
        reply: &mut Reply,
    ) -> i32
        requires open { is_some self.old.value ≡ true }
        requires small { HoldsSmall self.old.value }
        ensures ended { Becomes (λ h k. IsExchangeEnded h exchange heard
            (given_number air) k reply.new) self.old.value self.new.value }
        ensures code { result ≡ pos reply.new.refusal }
    {
        *reply = self.held().end(exchange, heard, given_number(air));
        i32::from(reply.refusal)
    }
}

/// Ends an exchange of which no BlockAck was heard. The station is charged `air` microseconds, or the
/// computed charge if `air` is 0. Returns 0; 12 if the exchange is not open; or 8 if `air` is above the
/// setting `charge`.
#[unsafe(no_mangle)]
pub extern "C" fn wf_path_done_lost(
    path: &mut PathSlot,
    exchange: u64,
    air: u32,
    reply: &mut Reply,
) -> i32
    requires open { is_some path.old.value ≡ true }
    requires small { HoldsSmall path.old.value }
    ensures ended { Becomes (λ h k. IsExchangeEnded h exchange None
        (given_number air) k reply.new) path.old.value path.new.value }
    ensures code { result ≡ pos reply.new.refusal }
{
    path.end_exchange(exchange, None, air, reply)
}

/// Ends an exchange by the start and the bitmap of a BlockAck that was heard. The station is charged `air`
/// microseconds, or the computed charge if `air` is 0. Returns 0; 12 if the exchange is not open; 13 if
/// nothing of it went on the air; or 8 if `air` is above the setting `charge`.
#[unsafe(no_mangle)]
pub extern "C" fn wf_path_done_bits(
    path: &mut PathSlot,
    exchange: u64,
    start: u16,
    bits: &[u8; 32],
    air: u32,
    reply: &mut Reply,
) -> i32
    requires open { is_some path.old.value ≡ true }
    requires small { HoldsSmall path.old.value }
    ensures ended { Becomes (λ h k. IsExchangeEnded h exchange
        (Some (start % 4096, offsets_in bits.now)) (given_number air)
        k reply.new) path.old.value path.new.value }
    ensures code { result ≡ pos reply.new.refusal }
{
    let heard = (Seq12::of(u64::from(start)), Bits256::of_octets(*bits));
    path.end_exchange(exchange, Some(heard), air, reply)
}

/// Ends an exchange by the octets of a BlockAck that was heard. The station is charged `air` microseconds, or
/// the computed charge if `air` is 0. Returns 0; 12 if the exchange is not open; 71 to 78 if the octets are
/// not a BlockAck to it; 13 if nothing of it went on the air; or else 8 if `air` is above the setting
/// `charge`. After an error the exchange is still open, and `reply` is unchanged.
#[unsafe(no_mangle)]
pub extern "C" fn wf_path_done_octets(
    path: &mut PathSlot,
    exchange: u64,
    octets: &[u8],
    air: u32,
    reply: &mut Reply,
) -> i32
    requires open { is_some path.old.value ≡ true }
    requires small { HoldsSmall path.old.value }
    ensures code { (w : World) (bodies : ℕ → FrameValue) → HoldsFor path.old.value w bodies →
        result ≡ pos (octets_code (end_fault (addresses_held path.old.value) w exchange (Some octets.now))
        (end_refused path.old.value exchange (Some (block_ack_in octets.now)) (given_number air))) }
    ensures ended { (result ≡ pos 0 → Becomes
        (λ h k. IsExchangeEnded h exchange (Some
        (block_ack_in octets.now)) (given_number air) k reply.new) path.old.value path.new.value) }
    ensures fault { (result ≡ pos 0) ⊎ Becomes (λ h k. k.path ≡ h.path) path.old.value path.new.value }
    ensures kept { (result ≡ pos 0) ⊎ (reply.new ≡ reply.old) }
    ensures reserve { reserve_held path.old.value ≤ reserve_held path.new.value }
{
    match path.held().end_by(exchange, octets, given_number(air)) {
        Ok(shown) if shown.refusal != 0 => i32::from(shown.refusal),
        Ok(shown) => {
            *reply = shown;
            0
        }
        Err(fault) => i32::from(number_of_done_fault(fault)),
    }
}

// The code of octets that are not a BlockAck to an exchange: 12, or 71 to 78.
fn number_of_done_fault(fault: DoneFault) -> u8
    ensures { result ≡ end_code (Some fault) }
{
    match fault {
        DoneFault::NoExchange => Refusal::NoExchange.number(),
        DoneFault::Block(BlockFault::Length { .. }) => 71,
        DoneFault::Block(BlockFault::Kind(_)) => 72,
        DoneFault::Block(BlockFault::NotCompressed) => 73,
        DoneFault::Block(BlockFault::MultiTid) => 74,
        DoneFault::Block(BlockFault::Fragment(_)) => 75,
        DoneFault::Block(BlockFault::NotWide) => 76,
        DoneFault::NotMine => 77,
        DoneFault::WrongTid { .. } => 78,
    }
}
