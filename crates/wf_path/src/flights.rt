//! The frame and the header of a data transmission.

ghost use Rattle.std.specs.Prelude.{◌≡◌, ◌+◌, ◌==◌, ◌&&◌, ◌||◌, not, ℕ, true};
ghost use Rattle.wf_frame.specs.Frames.{FrameValue};
ghost use Rattle.wf_octets.specs.HeaderLayout.{IsPlain};
ghost use Rattle.wf_octets.specs.declared.header.header.Kind.TheVariants.{QosData};
ghost use Rattle.wf_def_world.specs.World.{World, Exchange, Mpdu};
ghost use Rattle.wf_send_parts.specs.Exchanges.{transmissions_of};
ghost use Rattle.wf_path.specs.Transmissions.{duration, header_of};
ghost use Rattle.wf_path.specs.Flights.{IsInFlight, Flies};

use crate::addresses::AddressBook;
use wf_frame::Frame;
use wf_octets::header::{Header, Kind};
use wf_octets::seq12::Seq12;
use wf_send_half::Transmit;
use wf_send_parts::exchanges::Open;

/// The Duration field of a transmission that a BlockAck answers, in microseconds: the interframe space, 16,
/// and a BlockAck of 64 numbers at 24 Mbit/s, 32.
pub(crate) const DURATION: u16 = 48;

/// The Duration field of a transmission that an Ack answers, in microseconds: the interframe space, 16, and
/// an Ack at 24 Mbit/s, 28.
const PLAIN_DURATION: u16 = 44;

/// Returns the Duration field of a data transmission, in microseconds.
fn duration_of(plain: bool) -> u16
    ensures { result ≡ duration plain }
{
    if plain { PLAIN_DURATION } else { DURATION }
}

/// Returns the frame of a transmission that carries this number.
pub(crate) fn frame_of<'a>(half: &'a Transmit, open: &Open, index: u16, seq: Seq12) -> &'a Frame
    requires { Flies half.now open.now index seq }
    ensures { (w : World) (bodies : ℕ → FrameValue) (x : Exchange) (m : Mpdu) →
        IsInFlight half.now open.now index w bodies x m →
        result.now ≡ bodies m.id }
{
    half.window(open.station, open.tid).frame(seq)
}

/// Returns the More Data bit of a data transmission: that of its exchange. If the exchange ends a service
/// period, each transmission but the last has it too.
fn has_more(open: &Open, index: u16) -> bool
    ensures { result ≡ (open.now.more
        || (open.now.eosp && not (index + 1 == transmissions_of open.now.sending))) }
{
    open.more || (open.eosp && usize::from(index) + 1 != usize::from(open.count()))
}

/// Returns the EOSP bit of a data transmission: its exchange ends a service period, and it is the last one.
fn ends_service(open: &Open, index: u16) -> bool
    ensures { result ≡ (open.now.eosp && (index + 1 == transmissions_of open.now.sending)) }
{
    open.eosp && usize::from(index) + 1 == usize::from(open.count())
}

/// Returns the header of a transmission that carries this number.
pub(crate) fn header_of(
    half: &Transmit,
    addresses: &AddressBook,
    open: &Open,
    index: u16,
    seq: Seq12,
) -> Header
    requires { Flies half.now open.now index seq }
    ensures kind { result.kind ≡ QosData }
    ensures plain { IsPlain result }
    ensures header { (w : World) (bodies : ℕ → FrameValue) (x : Exchange) (m : Mpdu) →
        IsInFlight half.now open.now index w bodies x m →
        result ≡ header_of addresses.now w bodies x m }
{
    let attempts = half.window(open.station, open.tid).attempts(seq);
    Header {
        kind: Kind::QosData,
        to_ds: false,
        from_ds: true,
        retry: attempts > 0,
        power: false,
        more: has_more(open, index),
        duration: duration_of(open.plain),
        a1: addresses.of(open.station),
        a2: addresses.bss(half.bss(open.station)),
        a3: frame_of(half, open, index, seq).source(),
        seq,
        tid: open.tid,
        eosp: ends_service(open, index),
    }
}
