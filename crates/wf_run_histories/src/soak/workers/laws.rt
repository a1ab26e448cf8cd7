//! The laws of the calls that the workers of `live` make: each call can be printed as a line of a trace.
//!
//! Each law is a relation in specs/; a function without a body has it as its contract.

ghost use Rattle.std.specs.Prelude.{ℕ, List};
ghost use Rattle.wf_frame.specs.declared.settings.Config.{Config};
ghost use Rattle.wf_def_world.specs.Run.{Entry};
ghost use Rattle.wf_run_histories.specs.Walks.{SenderLaw, WalkLaw};

/// Each call of a driver's walk can be printed, in a history of at most 2^32 entries.
pub fn walk_law()
    ensures { (config : Config) → (past calls : List Entry) → WalkLaw config past calls }
{}

/// Each call of a sender can be printed.
pub fn sender_law()
    ensures { (seed s frames : ℕ) → SenderLaw seed s frames }
{}
