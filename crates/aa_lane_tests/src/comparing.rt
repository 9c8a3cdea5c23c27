//! What tests compare, each in a function without a clause: so a proof pays once for the message of a failure.

use std::fmt::Debug;
use std::process::Abort;

/// Both are the same.
pub(crate) fn equal<T: PartialEq + Debug + Copy>(rt: &impl Abort, found: T, expected: T) {
    assert_eq!(rt; found, expected);
}

/// It is so.
pub(crate) fn holds(rt: &impl Abort, it: bool) {
    assert!(rt; it);
}
