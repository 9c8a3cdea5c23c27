//! What tests compare, each in a function without a clause: so a proof pays once for the message of a failure.

use std::fmt::Debug;
use std::process::Abort;

/// Both are the same, of this text.
pub(crate) fn equal_in<T: PartialEq + Debug + Copy>(
    rt: &impl Abort,
    found: T,
    wanted: T,
    text: &str,
) {
    assert_eq!(rt; found, wanted, "in {text}");
}

/// Both are the same.
pub(crate) fn equal<T: PartialEq + Debug + Copy>(rt: &impl Abort, found: T, wanted: T) {
    assert_eq!(rt; found, wanted);
}

/// It is so.
pub(crate) fn holds(rt: &impl Abort, it: bool) {
    assert!(rt; it);
}

/// It is so of this text.
pub(crate) fn holds_in(rt: &impl Abort, it: bool, text: &str) {
    assert!(rt; it, "in {text}");
}
