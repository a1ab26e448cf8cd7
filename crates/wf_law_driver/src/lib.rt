//! Laws of drivers that report receivers only by BlockAcks.
//!
//! A transmit path has no receivers: when an exchange ends, a driver gives it the start and the bitmap of
//! the BlockAck. From a BlockAck the laws *infer* calls of the machine just before the Done: exactly the
//! exchange's numbers that it shows arrive, and the receiver answers. So for any bits that a driver gives
//! there is a run of the machine, and the path is in the world of that run. Such worlds are *unheard*: no
//! receiver has anything that its sender does not know of.
//!
//! Each function here has no body; its contract states a law. For example, if the BlockAck of exchange 0
//! shows only the second of its numbers, the inferred calls and the Done are
//!
//! ```text
//! arrive 0 1
//! answer 0
//! done 0 heard
//! ```
#![tactic(auto)]

ghost use Rattle.std.specs.Prelude.{ℕ, List};
ghost use Rattle.wf_frame.specs.declared.settings.Config.{Config};
ghost use Rattle.wf_frame.specs.Settings.{IsInRange};
ghost use Rattle.wf_def_world.specs.Run.{Entry};
ghost use Rattle.wf_def_world.specs.World.{World, opening};
ghost use Rattle.wf_law_driver.specs.Driven.{Deed, DrivenLaw};
ghost use Rattle.wf_law_driver.specs.Shown.{EndsAsLost, SettlesAlike};
ghost use Rattle.wf_law_driver.specs.Inferred.{RunLaw, InferredLaw};
ghost use Rattle.wf_law_driver.specs.Transmit.{TransmitLaw};
ghost use Rattle.wf_law_driver.specs.Unheard.{IsUnheard, SilentLaw};

/// In an unheard world of a run, take an open exchange of which something went on the air, and a BlockAck
/// for it that shows only such numbers; or a batch, and what its device said of each frame that went on the
/// air. The calls that are inferred are all answered. If there are any, the exchange then keeps an answer
/// that shows exactly those of its numbers that the BlockAck shows; of a batch exactly those have arrived.
/// After the Done, with any airtime that it may give, exactly these numbers are acknowledged, and the world
/// is unheard. If the BlockAck shows none of an aggregate's numbers, no calls are inferred, and the Done is
/// not heard.
pub fn inferred_law()
    ensures inferred { (config : Config) (history : List Entry) → InferredLaw config history }
{}

/// The world before the first call is unheard.
pub fn opening_law()
    ensures unheard { (config : Config) → IsUnheard (opening config) }
{}

/// Each call that reports nothing of a receiver keeps a world of a run unheard: each call except an Arrive,
/// an Answer and a Done that is heard.
pub fn silent_law()
    ensures silent { (config : Config) (history : List Entry) → SilentLaw config history }
{}

/// The calls that are inferred from a BlockAck continue a run, and bring no frame.
pub fn run_law()
    ensures run { (config : Config) (history : List Entry) → RunLaw config history }
{}

/// An Arrive and an Answer, and so all inferred calls, do not change what a transmit path keeps.
pub fn transmit_law()
    ensures transmit { (config : Config) (history : List Entry) → IsInRange config →
        TransmitLaw config history }
{}

/// For any calls of a driver, in any order, there is a history of the machine with these calls and, just
/// before each Done, the calls that are inferred from its BlockAck. A BlockAck is not believed for numbers
/// that never went on the air, and the Done of an exchange of which nothing went on the air is refused unless
/// it is a batch. This history leaves the machine in an unheard world.
pub fn driven_law()
    ensures driven { (config : Config) (deeds : List (ℕ × Deed)) → DrivenLaw config deeds }
{}

/// A Done depends only on how the exchange ends for its own numbers. If the kept answer shows none of an
/// aggregate's numbers, the Done has the same outcome as one that is not heard.
pub fn shown_law()
    ensures alike { (w : World) → SettlesAlike w }
    ensures none { (w : World) → EndsAsLost w }
{}
