//! The version of the library and of its header.

ghost use Rattle.std.specs.Prelude.{◌≡◌};
ghost use Rattle.wf_c.specs.Versions.{this_version};

/// A version in three parts.
#[repr(C)]
#[derive(Clone, Copy)]
pub struct Version {
    /// If it differs, anything may have changed.
    pub major: u16,
    /// If it is greater, there may be more, and older programs run unchanged.
    pub minor: u16,
    /// If it differs, nothing that the header says has changed.
    pub patch: u16,
}

/// Writes the version of this library.
#[unsafe(no_mangle)]
pub extern "C" fn wf_version(version: &mut Version)
    ensures { version.new ≡ this_version }
{
    *version = Version {
        major: 1,
        minor: 0,
        patch: 0,
    };
}
