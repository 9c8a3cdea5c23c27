//! Kinds of claims.

ghost use Rattle.std.specs.Prelude.{◌≡◌, option_map};
ghost use Rattle.aa_assert.specs.Kinds.{never_kind, kind_by, kind_of, kind_name};

use crate::asked::is_enforced;
use aa_claims::{ClaimWord, is_reach, is_word, keyword_of};

/// What kind of claim it is.
#[derive(Clone, Copy)]
pub(crate) enum Kind {
    Never,
    /// That executions or a change don't lead to labels.
    NeverTo,
    Always,
    Enforced,
    NeverReach,
}

/// A claim that begins with never, with the keyword `to` or without.
fn never_kind(to: Option<&ClaimWord>) -> Kind
    ensures { result ≡ never_kind (option_map (λ w. w.now) to.entry) }
{
    match to {
        Some(_) => Kind::NeverTo,
        None => Kind::Never,
    }
}

fn kind_by(words: &[ClaimWord], head: &ClaimWord, asked: &ClaimWord) -> Kind
    ensures { result ≡ kind_by words.now head.now asked.now }
{
    if is_enforced(head, asked) {
        return Kind::Enforced;
    }
    if is_reach(head, asked) {
        return Kind::NeverReach;
    }
    if is_word(head, "never") {
        return never_kind(keyword_of(words, "to"));
    }
    Kind::Always
}

/// The kind of a claim of these words.
pub(crate) fn kind_of(words: &[ClaimWord]) -> Kind
    ensures { result ≡ kind_of words.now }
{
    match words {
        [head, asked, ..] => kind_by(words, head, asked),
        _ => Kind::Always,
    }
}

/// What it is called.
pub(crate) fn kind_name(kind: Kind) -> &'static str
    ensures { result.now ≡ kind_name kind }
{
    match kind {
        Kind::Never => "never",
        Kind::NeverTo => "never-to",
        Kind::Always => "always",
        Kind::Enforced => "enforced",
        Kind::NeverReach => "never-reach",
    }
}
