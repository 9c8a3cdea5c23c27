//! What tests compare and write, each in a function without a clause: so a proof pays once for the message of a failure.

use std::alloc::AllocError;
use std::fmt::Debug;
use std::process::Abort;

/// Both are the same.
pub(crate) fn equal<T: PartialEq + Debug + Copy>(rt: &impl Abort, found: T, expected: T) {
    assert_eq!(rt; found, expected);
}

/// It is so.
pub(crate) fn holds(rt: &impl Abort, it: bool) {
    assert!(rt; it);
}

/// Writes more behind a text.
pub(crate) fn push(rt: &impl Abort, text: &mut String, more: &str) {
    text.push_str(more).expect(rt, "memory");
}

/// The same of what was formatted.
pub(crate) fn push_part(rt: &impl Abort, text: &mut String, part: Result<String, AllocError>) {
    push(rt, text, part.expect(rt, "memory").as_str());
}
