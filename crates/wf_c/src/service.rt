//! Service periods of stations that sleep (U-APSD; IEEE 802.11-2012, 10.2.1.5).

ghost use Rattle.std.specs.Prelude.{◌≡◌, ℕ, true, is_some, pos};
ghost use Rattle.wf_frame.specs.Frames.{FrameValue};
ghost use Rattle.wf_frame.specs.declared.notes.Ask.TheVariants.{Service};
ghost use Rattle.wf_frame.specs.declared.notes.ServiceAsk.TheVariants.{Set, Trigger, End};
ghost use Rattle.wf_def_world.specs.World.{World, station as station_of};
ghost use Rattle.wf_c.specs.Calls.{Becomes, HoldsFor, HoldsSmall, IsCalled};
ghost use Rattle.wf_c.specs.Numbers.{flag_of};

use crate::readers::number_of_flag;
use crate::reply::Reply;
use crate::slot::PathSlot;
use wf_frame::ServiceAsk;
use wf_path::PathAsk;

/// Sets the delivery-enabled classes of a station, 0 to 15 (bit c is 1 if class number c is one), and the
/// most frames of a service period, 0 for no limit.
#[unsafe(no_mangle)]
pub extern "C" fn wf_path_apsd(
    path: &mut PathSlot,
    station: u16,
    classes: u8,
    most: u8,
    reply: &mut Reply,
) -> i32
    requires open { is_some path.old.value ≡ true }
    requires small { HoldsSmall path.old.value }
    ensures called { Becomes (λ h k. IsCalled h
        (Service (Set station classes most)) k reply.new) path.old.value path.new.value }
    ensures code { result ≡ pos reply.new.refusal }
{
    let ask = ServiceAsk::Set {
        station,
        classes,
        most,
    };
    path.ask(PathAsk::Service(ask), reply)
}

/// Opens a service period of a sleeping station that sent a trigger frame. `class` of the reply is the first
/// class to pull.
#[unsafe(no_mangle)]
pub extern "C" fn wf_path_trigger(path: &mut PathSlot, station: u16, reply: &mut Reply) -> i32
    requires open { is_some path.old.value ≡ true }
    requires small { HoldsSmall path.old.value }
    ensures called { Becomes (λ h k. IsCalled h
        (Service (Trigger station)) k reply.new) path.old.value path.new.value }
    ensures code { result ≡ pos reply.new.refusal }
{
    path.ask(PathAsk::Service(ServiceAsk::Trigger { station }), reply)
}

/// Ends the service period of a station to which the device sent a QoS Null frame with the EOSP bit.
#[unsafe(no_mangle)]
pub extern "C" fn wf_path_end_service(path: &mut PathSlot, station: u16, reply: &mut Reply) -> i32
    requires open { is_some path.old.value ≡ true }
    requires small { HoldsSmall path.old.value }
    ensures called { Becomes (λ h k. IsCalled h
        (Service (End station)) k reply.new) path.old.value path.new.value }
    ensures code { result ≡ pos reply.new.refusal }
{
    path.ask(PathAsk::Service(ServiceAsk::End { station }), reply)
}

/// Returns 1 if a service period of a station is open, else 0, as for a station that is not live.
#[unsafe(no_mangle)]
pub extern "C" fn wf_path_in_service(path: &mut PathSlot, station: u16) -> i32
    requires open { is_some path.old.value ≡ true }
    ensures world { (w : World) (bodies : ℕ → FrameValue) → HoldsFor path.old.value w bodies →
        result ≡ pos (flag_of (is_some (station_of w station).service)) }
    ensures unchanged { path.new.value ≡ path.old.value }
{
    number_of_flag(path.held().path.is_in_service(station))
}
