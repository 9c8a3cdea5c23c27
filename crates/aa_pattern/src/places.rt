//! The two laws of the places of a text.

ghost use Rattle.aa_pattern.specs.Places.{DecideMatching, DecideNext};

use crate::pattern::Pattern;

/// A law and no work: the places of a text decide which patterns match it.
pub fn places_decide_matching(patterns: &[Pattern])
    ensures { DecideMatching patterns.now }
{}

/// A law and no work: the places of a text and a byte decide the places of the text with that byte behind it.
pub fn places_decide_next(patterns: &[Pattern])
    ensures { DecideNext patterns.now }
{}
