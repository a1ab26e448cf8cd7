//! Comparing values in tests.

use std::fmt::Debug;
use std::process::Abort;

/// Ends the test if two values differ, and prints both. Being a function, this is proved once; an
/// `assert_eq!` would be proved at each place.
pub(crate) fn same<T: PartialEq + Debug + Drop>(rt: &impl Abort, got: T, want: T) {
    assert_eq!(rt; got, want);
}
