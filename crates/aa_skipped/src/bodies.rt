//! Words outside of bodies.

ghost use Rattle.std.specs.Prelude.{◌≡◌, ◌<◌, ◌^◌, ◌++◌, IfOk, OnOk};
ghost use Rattle.aa_words.specs.Splits.{word_data, words_data};
ghost use Rattle.aa_skipped.specs.Bodies.{open_after, stands_outside, if_outside, without_bodies};

use aa_words::{Word, WordKind};
use std::alloc::{AllocError, Global};

/// How many bodies are open behind a word.
fn open_after(depth: usize, kind: WordKind) -> usize
    requires { depth < 2 ^ 63 }
    ensures { result ≡ open_after depth kind }
{
    match kind {
        WordKind::Open => depth + 1,
        WordKind::Close => depth.saturating_sub(1),
        _ => depth,
    }
}

/// Whether a word stands in no body. The braces of an outermost body stand outside of it.
fn stands_outside(depth: usize, kind: WordKind) -> bool
    ensures { result ≡ stands_outside depth kind }
{
    match kind {
        WordKind::Close => depth.saturating_sub(1) == 0,
        _ => depth == 0,
    }
}

/// Appends a word that stands in no body.
fn push_outside<'s>(
    kept: &mut Vec<Word<'s>>,
    depth: usize,
    word: Word<'s>,
) -> Result<(), AllocError>
    ensures { OnOk result (words_data kept.new.items ≡ words_data kept.old.items ++ if_outside depth (word_data word.entry)) }
{
    if stands_outside(depth, word.kind) {
        kept.push(word)?;
    }
    Ok(())
}

/// The words that stand in no body.
#[tactic(auto, unfolding(crate::specs::Bodies::without_bodies))]
pub(crate) fn without_bodies<'s>(
    alloc: Global,
    words: &[Word<'s>],
) -> Result<Vec<Word<'s>>, AllocError>
    ensures { IfOk result (λ kept. words_data kept.items ≡ without_bodies 0 (words_data words.entry.now)) }
{
    let mut depth: usize = 0;
    let mut kept = Vec::new(alloc);
    let mut rest = words;
    while let [word, after @ ..] = rest {
        push_outside(&mut kept, depth, *word)?;
        depth = open_after(depth, word.kind);
        rest = after;
    }
    Ok(kept)
}
