//! Where the heads of profiles stand, and their flags without effect.

ghost use Rattle.std.specs.Prelude.{◌≡◌, ◌<◌, ◌≤◌, ◌++◌, length, flat_map, OnOk, IfOk};
ghost use Rattle.aa_words.specs.Splits.{word_data, words_data};
ghost use Rattle.aa_rules.specs.Reading.{rest_of};
ghost use Rattle.aa_explain.specs.Heads.{is_idle, if_idle, is_paren, behind_paren, IsPlacedHead};

use crate::places::Extent;
use aa_policy::is_idle_flag;
use aa_rules::spot_of;
use aa_words::{Word, WordKind};
use std::alloc::{AllocError, Global};

/// Where a head stands, up to its opening brace, and its flags that have no effect.
#[derive(Drop)]
pub(crate) struct PlacedHead {
    pub(crate) place: Extent,
    pub(crate) flags: Vec<Extent>,
}

/// Whether a word among flags is such a flag.
fn is_idle(kind: WordKind, text: &[u8]) -> bool
    ensures { result ≡ is_idle kind text.now }
{
    match kind {
        WordKind::Name => is_idle_flag(text),
        _ => false,
    }
}

/// Adds from where to where a word goes, if it is a flag without effect.
fn push_if_idle(flags: &mut Vec<Extent>, word: &Word<'_>) -> Result<(), AllocError>
    ensures { OnOk result (flags.new.items ≡ flags.old.items ++ if_idle (word_data word.now)) }
{
    if is_idle(word.kind, word.text) {
        flags.push(Extent {
            at: spot_of(word),
            end: word.span.end,
        })?;
    }
    Ok(())
}

/// Those of some words that are flags without effect.
fn idle_in(alloc: Global, words: &[Word<'_>]) -> Result<Vec<Extent>, AllocError>
    ensures { IfOk result (λ flags. flags.items ≡ flat_map if_idle (words_data words.now)) }
{
    let mut flags = Vec::new(alloc);
    for word in words {
        push_if_idle(&mut flags, word)?;
    }
    Ok(flags)
}

fn is_paren(kind: WordKind) -> bool
    ensures { result ≡ is_paren kind }
{
    kind == WordKind::LeftParen
}

/// The words behind the first parenthesis that opens: a head has one where its flags do.
#[tactic(auto, unfolding(crate::specs::Heads::behind_paren))]
fn behind_paren<'w, 's>(words: &'w [Word<'s>]) -> &'w [Word<'s>]
    ensures { words_data result.now ≡ behind_paren (words_data words.now) }
{
    let mut rest = words;
    while let [word, after @ ..] = rest {
        if is_paren(word.kind) {
            return after;
        }
        rest = after;
    }
    rest
}

/// The head whose words go from one place to before another, the last of them its opening brace.
pub(crate) fn placed_head(
    alloc: Global,
    words: &[Word<'_>],
    at: usize,
    body: usize,
) -> Result<PlacedHead, AllocError>
    requires some { at < body }
    requires within { body ≤ length words.now }
    ensures { IfOk result (λ head. IsPlacedHead (rest_of words.now at) head.place head.flags.items (rest_of words.now body)) }
{
    let first = &words[at];
    let brace = &words[body - 1];
    let place = Extent {
        at: spot_of(first),
        end: brace.span.start,
    };
    let flags = idle_in(alloc, behind_paren(&words[at..body - 1]))?;
    Ok(PlacedHead { place, flags })
}
