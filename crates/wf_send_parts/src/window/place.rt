//! The content of a number in a window.

ghost use Rattle.std.specs.Prelude.{◌≡◌};
ghost use Rattle.wf_send_parts.specs.Flying.{flies};
ghost use Rattle.wf_send_parts.specs.Window.{waits};

use wf_queue_parts::chain::Parcel;

/// The content of a number that was not acknowledged. `attempts` counts its unacknowledged transmissions.
#[derive(Drop)]
pub(crate) enum Place {
    Waiting {
        parcel: Parcel,
        attempts: u8,
    },
    Flying {
        parcel: Parcel,
        attempts: u8,
        exchange: u64,
    },
    Failed,
}

pub(crate) fn is_waiting(place: &Option<Place>) -> bool
    ensures { result ≡ waits place.now }
{
    matches!(place, Some(Place::Waiting { .. }))
}

pub(crate) fn is_flying(place: &Option<Place>) -> bool
    ensures { result ≡ flies place.now }
{
    matches!(place, Some(Place::Flying { .. }))
}
