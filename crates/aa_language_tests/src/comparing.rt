//! What tests compare, each in a function without a clause: so a proof pays once for the message of a failure.

use std::fmt::Debug;
use std::process::Abort;

/// Both are the same, of this text.
pub(crate) fn equal_in<T: PartialEq + Debug + Copy>(
    rt: &impl Abort,
    found: T,
    wanted: T,
    text: &str,
) {
    if found != wanted {
        panic!(rt; "{found:?} in place of {wanted:?} in {text}");
    }
}

/// Both are the same.
pub(crate) fn equal<T: PartialEq + Debug + Copy>(rt: &impl Abort, found: T, wanted: T) {
    equal_in(rt, found, wanted, "the test");
}

/// It is so of this text.
pub(crate) fn holds_in(rt: &impl Abort, it: bool, text: &str) {
    assert!(rt; it, "in {text}");
}

/// It is so.
pub(crate) fn holds(rt: &impl Abort, it: bool) {
    assert!(rt; it);
}
