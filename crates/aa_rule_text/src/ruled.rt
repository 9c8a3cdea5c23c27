//! The text of a rule and of a head, as it is shown.

ghost use Rattle.std.specs.Prelude.{◌≡◌, ◌++◌, ◌∷◌, [], ◌==◌, ◌||◌, ◌&&◌, OnOk, IfOk};
ghost use Rattle.aa_words.specs.Runs.{is_sign, begins_with};
ghost use Rattle.aa_rule_text.specs.RuleTexts.{word_rest, rule_start, place_within, place_between, place_next, ends_rule, space_if, shown_between, shown_at, rule_from, words_from, words_text, rule_begin, rule_text, head_text};

use crate::short::{before, from_place, shortened};
use aa_words::{comment_length, is_white_space, name_length, path_length, quoted_length};
use std::alloc::{AllocError, Global};

/// A place in a rule: how many bytes of a word or of a comment are left, and whether white space or a comment stands before, or the
/// comment that it is in.
#[derive(Clone, Copy)]
pub(crate) struct RulePlace {
    left: usize,
    blank: bool,
}

fn is_sign(b: u8) -> bool
    ensures { result ≡ is_sign b }
{
    b == b'{' || b == b'}' || b == b',' || b == b'=' || b == b'(' || b == b')'
}

/// Whether a byte stands first.
fn begins_with(b: u8, text: &[u8]) -> bool
    ensures { result ≡ begins_with b text.now }
{
    match text {
        [first, ..] => *first == b,
        [] => false,
    }
}

fn begins_path(b: u8, rest: &[u8]) -> bool
    ensures { result ≡ (b == 47 || (b == 64 && begins_with 123 rest.now)) }
{
    b == b'/' || (b == b'@' && begins_with(b'{', rest))
}

/// How long a word goes on behind its first byte.
fn word_rest(b: u8, rest: &[u8]) -> usize
    ensures { result ≡ word_rest b rest.now }
{
    if b == b'"' {
        return quoted_length(rest).unwrap_or(0);
    }
    if begins_path(b, rest) {
        return path_length(rest);
    }
    if is_sign(b) {
        return 0;
    }
    if b == b'-' && begins_with(b'>', rest) {
        return 1;
    }
    name_length(rest)
}

/// Where a rule goes on behind a byte that stands between words.
fn place_between(b: u8, rest: &[u8]) -> RulePlace
    ensures { result ≡ place_between b rest.now }
{
    if is_white_space(b) {
        return RulePlace {
            left: 0,
            blank: true,
        };
    }
    if b == b'#' {
        return RulePlace {
            left: comment_length(rest),
            blank: true,
        };
    }
    RulePlace {
        left: word_rest(b, rest),
        blank: false,
    }
}

fn place_within(place: RulePlace) -> RulePlace
    ensures { result ≡ place_within place }
{
    RulePlace {
        left: place.left.saturating_sub(1),
        blank: place.blank,
    }
}

fn place_next(place: RulePlace, b: u8, rest: &[u8]) -> RulePlace
    ensures { result ≡ place_next place b rest.now }
{
    if place.left == 0 {
        place_between(b, rest)
    } else {
        place_within(place)
    }
}

fn ends_rule(place: RulePlace, b: u8) -> bool
    ensures { result ≡ ends_rule place b }
{
    place.left == 0 && b == b','
}

fn push_byte(out: &mut Vec<u8>, b: u8) -> Result<(), AllocError>
    ensures { OnOk result (out.new.items ≡ out.old.items ++ b ∷ []) }
{
    out.push(b)?;
    Ok(())
}

fn push_space_if(out: &mut Vec<u8>, blank: bool) -> Result<(), AllocError>
    ensures { OnOk result (out.new.items ≡ out.old.items ++ space_if blank) }
{
    if blank { push_byte(out, b' ') } else { Ok(()) }
}

fn push_word_begin(out: &mut Vec<u8>, blank: bool, b: u8) -> Result<(), AllocError>
    ensures { OnOk result (out.new.items ≡ out.old.items ++ (space_if blank ++ b ∷ [])) }
{
    push_space_if(out, blank)?;
    push_byte(out, b)
}

/// Appends what is shown of a byte between words.
fn push_between(out: &mut Vec<u8>, blank: bool, b: u8) -> Result<(), AllocError>
    ensures { OnOk result (out.new.items ≡ out.old.items ++ shown_between blank b) }
{
    if is_white_space(b) || b == b'#' {
        return Ok(());
    }
    if b == b',' {
        return push_byte(out, b);
    }
    push_word_begin(out, blank, b)
}

/// Appends what is shown of a byte.
fn push_at(out: &mut Vec<u8>, place: RulePlace, b: u8) -> Result<(), AllocError>
    ensures { OnOk result (out.new.items ≡ out.old.items ++ shown_at place b) }
{
    if place.left == 0 {
        return push_between(out, place.blank, b);
    }
    if place.blank {
        return Ok(());
    }
    push_byte(out, b)
}

/// Appends the rule that stands first, up to its comma.
#[tactic(auto, unfolding(crate::specs::RuleTexts::rule_from))]
fn push_rule(out: &mut Vec<u8>, text: &[u8]) -> Result<(), AllocError>
    ensures { OnOk result (out.new.items ≡ out.old.items ++ rule_from rule_start text.now) }
{
    let mut place = RulePlace {
        left: 0,
        blank: false,
    };
    let mut rest = text;
    while let [b, after @ ..] = rest {
        push_at(out, place, *b)?;
        if ends_rule(place, *b) {
            return Ok(());
        }
        place = place_next(place, *b, after);
        rest = after;
    }
    Ok(())
}

/// Appends the words of a text.
#[tactic(auto, unfolding(crate::specs::RuleTexts::words_from))]
fn push_words(out: &mut Vec<u8>, text: &[u8]) -> Result<(), AllocError>
    ensures { OnOk result (out.new.items ≡ out.old.items ++ words_from rule_start text.now) }
{
    let mut place = RulePlace {
        left: 0,
        blank: false,
    };
    let mut rest = text;
    while let [b, after @ ..] = rest {
        push_at(out, place, *b)?;
        place = place_next(place, *b, after);
        rest = after;
    }
    Ok(())
}

/// The words between two places of a text, in bytes from 0, with one space where white space and comments stand between them.
pub fn words_text(
    alloc: Global,
    text: &[u8],
    start: usize,
    end: usize,
) -> Result<Vec<u8>, AllocError>
    ensures { IfOk result (λ words. words.items ≡ words_text text.now start end) }
{
    let mut words = Vec::new(alloc);
    let part = before(from_place(text, start), end.saturating_sub(start));
    push_words(&mut words, part)?;
    Ok(words)
}

/// Where the first word of a rule begins.
fn rule_begin(text: &[u8], byte: usize) -> usize
    ensures { result ≡ rule_begin text.now byte }
{
    if byte == 0 {
        return 0;
    }
    match text.get(byte - 1) {
        Some(b'"') => byte - 1,
        _ => byte,
    }
}

/// The text of the rule whose place this byte is, from its first word to its comma, with one space where white space and comments
/// stand between its words: at most 120 bytes of it, in whole characters.
pub fn rule_text(alloc: Global, text: &[u8], byte: usize) -> Result<Vec<u8>, AllocError>
    ensures { IfOk result (λ rule. rule.items ≡ rule_text text.now byte) }
{
    let mut whole = Vec::new(alloc);
    push_rule(&mut whole, from_place(text, rule_begin(text, byte)))?;
    Vec::from_slice(alloc, shortened(whole.as_slice()))
}

/// The text of the head whose place this byte is, from its first word to before the byte `end`, with one space where white space and
/// comments stand between its words: at most 120 bytes of it, in whole characters.
pub fn head_text(alloc: Global, text: &[u8], byte: usize, end: usize) -> Result<Vec<u8>, AllocError>
    ensures { IfOk result (λ head. head.items ≡ head_text text.now byte end) }
{
    let whole = words_text(alloc, text, rule_begin(text, byte), end)?;
    Vec::from_slice(alloc, shortened(whole.as_slice()))
}
