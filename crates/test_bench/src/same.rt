//! What a test wants, as calls: an `assert_eq!` in place costs its function a second or more of
//! proof.

ghost use Rattle.std.specs.Prelude.{◌≡◌, true};

use std::fmt::Debug;
use std::process::Abort;

/// Ends the test unless the two are equal, and tells them.
pub(crate) fn same<T: PartialEq + Debug + Drop>(rt: &impl Abort, what: &str, found: T, want: T) {
    assert!(rt; found == want, "{what}: {found:?}, and not {want:?}");
}

/// Ends the test unless this is so.
pub(crate) fn holds(rt: &impl Abort, what: &str, is: bool)
    ensures { is ≡ true }
{
    assert!(rt; is, "{what}");
}
