//! The transmit half with its flags.

ghost use Rattle.std.specs.Prelude.{◌≡◌, ℕ, None, IfOk};
ghost use Rattle.wf_frame.specs.Frames.{FrameValue};
ghost use Rattle.wf_frame.specs.Settings.{first_out_of_range};
ghost use Rattle.wf_def_world.specs.World.{opening};
ghost use Rattle.wf_send_half_model.specs.Standing.{StandsFor};
ghost use Rattle.wf_send_half.specs.Half.{HasUnheardWorld};

use crate::flags::Ready;
use crate::half::Half;
use std::alloc::{AllocError, Global};
use std::marker::Model;
use wf_frame::Config;

/// The transmit half of an access point. It stores by class which stations are ready, so that a pull need not
/// compute it for each station.
///
/// A contract sees the parts of the half, and says what a call makes of each world of a run that the half
/// represents (`wf_send_half_model`). By the invariant there is always such a world, and an unheard one: no
/// receiver in it has a frame that its sender does not know to have arrived.
pub struct Transmit {
    pub(crate) half: Half,
    pub(crate) ready: Ready,
}

// Written by hand, so that the proof of a drop is one call rather than the drop of each list.
impl Drop for Transmit {
    fn drop(self) {
        let Transmit {
            half: _half,
            ready: _ready,
        } = self;
    }
}

impl Model for Transmit {
    ghost use Rattle.wf_send_half_model.specs.Half.{TransmitValue};
    ghost use Rattle.wf_send_half.specs.Flags.{IsTracked};

    ghost Value = { TransmitValue };

    ghost view = { λ t. t.half };

    ghost invariant = { λ t. IsTracked t.half t.ready };
}

impl Transmit {
    /// Makes a half in which no station is live and to which no frame came. Each setting must be in its range
    /// (`Config::check`). Only this function allocates memory.
    pub fn new(alloc: Global, config: Config) -> Result<Transmit, AllocError>
        requires { first_out_of_range config ≡ None }
        ensures stands { IfOk result (λ made. (bodies : ℕ → FrameValue) →
            StandsFor made (opening config) bodies) }
        ensures unheard { IfOk result HasUnheardWorld }
    {
        let ready = Ready::new(alloc, config.stations)?;
        let half = Half::new(alloc, config)?;
        Ok(Transmit { half, ready })
    }
}
