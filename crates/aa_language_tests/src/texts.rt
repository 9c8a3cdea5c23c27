//! The calls that several modules make of what is tested, each in a function without clauses: a proof that uses one pays for
//! no contract. Those that give plain values end the test where the call fails.

use crate::comparing::equal_in;
use aa_base::{PolicyFault, PolicyKind};
use aa_glob::{Vars, expand, read_pattern};
use aa_pattern::Pattern;
use aa_words::{Sources, WordList, words};
use std::process::Abort;

/// As many bytes of a kind.
pub(crate) fn filled(rt: &(impl Abort + AllocGlobal), byte: u8, len: usize) -> Vec<u8> {
    vec![in rt.alloc(); byte; len].expect(rt, "memory")
}

/// Puts a text behind another.
pub(crate) fn extend(rt: &(impl Abort + AllocGlobal), whole: &mut Vec<u8>, text: &[u8]) {
    whole.extend_from_slice(text).expect(rt, "memory");
}

/// As many times the first text, and the second behind them.
pub(crate) fn row(
    rt: &(impl Abort + AllocGlobal),
    each: &[u8],
    times: u32,
    behind: &[u8],
) -> Vec<u8> {
    let mut whole = Vec::new(rt.alloc());
    for _ in 0..times {
        extend(rt, &mut whole, each);
    }
    extend(rt, &mut whole, behind);
    whole
}

/// The words of a text and of what it includes.
pub(crate) fn words_of<'s>(
    rt: &(impl Abort + AllocGlobal),
    sources: &'s Sources,
    text: &'s [u8],
) -> Result<WordList<'s>, PolicyFault> {
    words(rt.alloc(), sources, text)
}

/// The pattern that a text is, or why it is none.
pub(crate) fn pattern_of(
    rt: &(impl Abort + AllocGlobal),
    text: &[u8],
) -> Result<Pattern, PolicyKind> {
    read_pattern(rt.alloc(), text)
}

/// The same, of a text that is one.
pub(crate) fn pattern_read(rt: &(impl Abort + AllocGlobal), text: &[u8]) -> Pattern {
    pattern_of(rt, text).expect(rt, "a pattern")
}

/// Whether a pattern matches a path.
pub(crate) fn is_matched(pattern: &Pattern, path: &[u8]) -> bool {
    pattern.matches(path)
}

/// The patterns that a word expands to.
pub(crate) fn expansions(
    rt: &(impl Abort + AllocGlobal),
    vars: &Vars,
    raw: &[u8],
) -> Result<Vec<Pattern>, PolicyKind> {
    expand(rt.alloc(), vars, raw)
}

/// Sets a variable.
pub(crate) fn set(vars: &mut Vars, name: &str, values: &[&[u8]]) -> Result<(), PolicyKind> {
    vars.set(name.as_bytes(), values)
}

/// Adds to a variable.
pub(crate) fn add(vars: &mut Vars, name: &str, values: &[&[u8]]) -> Result<(), PolicyKind> {
    vars.add(name.as_bytes(), values)
}

/// The variable is set to these values.
pub(crate) fn is_set(
    rt: &(impl Abort + AllocGlobal),
    vars: &mut Vars,
    name: &str,
    values: &[&[u8]],
) {
    equal_in(rt, set(vars, name, values), Ok(()), name);
}
