//! Looks at what is found. An assertion in a function beside values that are dropped is dear to prove, so nearly all of them stand here.

ghost use Rattle.std.specs.Prelude.{◌≡◌, true};

use std::fmt::Debug;
use std::process::Abort;

/// Looks whether something is so.
pub fn check_that(rt: &impl Abort, is_so: bool, what: &str)
    ensures { is_so ≡ true }
{
    assert!(rt; is_so, "{what}");
}

/// Looks whether a value is the wanted one.
pub fn check_same<T: PartialEq + Debug>(rt: &impl Abort, found: &T, wanted: &T, what: &str) {
    assert_eq!(rt; *found, *wanted, "{what}");
}
