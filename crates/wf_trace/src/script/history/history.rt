//! The interface to a history that is written as a trace.

ghost use Rattle.std.specs.Prelude.{◌≡◌, ◌<◌, List, Some, length, slice_get};
ghost use Rattle.wf_def_world.specs.Run.{Entry};

use wf_frame::Note;

/// A history whose entries can be read one by one.
pub trait Entries {
    /// The entries: the caller and the call of each.
    ghost entries: { Self → List Entry };

    /// Returns the number of entries.
    fn len(&self) -> u64
        ensures { result ≡ length (entries self.now) };

    /// Returns entry `place`, counted from 0: its caller and its call. `place` must be less than the number
    /// of entries.
    fn entry(&self, place: u64) -> (u32, Note)
        requires { place < length (entries self.now) }
        ensures { slice_get (entries self.now) place ≡ Some result };
}
