//! The numbers of a window that are on the air, and whether all are settled.

ghost use Rattle.std.specs.Prelude.{◌≡◌, ℕ, count_by, length};
ghost use Rattle.wf_frame.specs.Frames.{FrameValue};
ghost use Rattle.wf_def_agreement.specs.Session.{Session};
ghost use Rattle.wf_send_parts.specs.Flying.{flies, flying_numbers, is_drained};
ghost use Rattle.wf_send_parts.specs.Window.{WindowStandsFor};

use crate::window::place::is_flying;
use crate::window::window::Window;

impl Window {
    /// Returns how many numbers are on the air. It looks at each number from F on.
    pub fn flying_count(&self) -> u32
        ensures shown { result ≡ count_by flies self.now.places }
        ensures flying { (s : Session) (bodies : ℕ → FrameValue) → WindowStandsFor self.now s bodies →
            result ≡ length (flying_numbers s) }
    {
        let mut count = 0;
        for i in 0..self.ring.len() {
            count += u32::from(is_flying(self.ring.at(i)));
        }
        count
    }

    /// Returns whether all numbers are settled, so that none waits or is on the air. Constant time.
    pub fn is_drained(&self) -> bool
        ensures { (s : Session) (bodies : ℕ → FrameValue) → WindowStandsFor self.now s bodies →
            result ≡ is_drained s }
    {
        self.ring.len() == 0
    }
}
