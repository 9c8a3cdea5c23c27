//! Heads without flags.

ghost use Rattle.std.specs.Prelude.{◌≡◌, ◌++◌, not, false, if◌then◌else◌, IfOk, OnOk};
ghost use Rattle.aa_words.specs.Splits.{word_data, words_data};
ghost use Rattle.aa_skipped.specs.Flags.{is_open, ends_flags, is_flag_word, goes_on, if_no_flag, without_flags};

use aa_words::{Word, WordKind};
use std::alloc::{AllocError, Global};

fn is_open(kind: WordKind) -> bool
    ensures { result ≡ is_open kind }
{
    matches!(kind, WordKind::Open)
}

/// Whether a list of flags ends with it, or else the head.
fn ends_flags(kind: WordKind) -> bool
    ensures { result ≡ ends_flags kind }
{
    matches!(kind, WordKind::Open | WordKind::RightParen)
}

/// Whether it is the keyword of flags, or of conditions on a program's extended attributes.
fn is_flag_word(kind: WordKind, text: &[u8]) -> bool
    ensures { result ≡ is_flag_word kind text.now }
{
    match kind {
        WordKind::Name => text == "flags".as_bytes() || text == "xattrs".as_bytes(),
        _ => false,
    }
}

/// Whether a list of flags goes on behind a word.
fn goes_on(inside: bool, word: Word<'_>) -> bool
    ensures { result ≡ goes_on inside (word_data word.entry) }
{
    if inside {
        !ends_flags(word.kind)
    } else {
        is_flag_word(word.kind, word.text)
    }
}

/// Whether no list of flags has the word.
fn is_kept(inside: bool, word: Word<'_>) -> bool
    ensures { result ≡ (if inside then is_open word.entry.kind else not (is_flag_word word.entry.kind word.entry.text.now)) }
{
    if inside {
        is_open(word.kind)
    } else {
        !is_flag_word(word.kind, word.text)
    }
}

/// Appends a word that no list of flags has.
fn push_no_flag<'s>(
    kept: &mut Vec<Word<'s>>,
    inside: bool,
    word: Word<'s>,
) -> Result<(), AllocError>
    ensures { OnOk result (words_data kept.new.items ≡ words_data kept.old.items ++ if_no_flag inside (word_data word.entry)) }
{
    if is_kept(inside, word) {
        kept.push(word)?;
    }
    Ok(())
}

/// The words that no list of flags has.
#[tactic(auto, unfolding(crate::specs::Flags::without_flags))]
pub(crate) fn without_flags<'s>(
    alloc: Global,
    words: &[Word<'s>],
) -> Result<Vec<Word<'s>>, AllocError>
    ensures { IfOk result (λ kept. words_data kept.items ≡ without_flags false (words_data words.entry.now)) }
{
    let mut inside = false;
    let mut kept = Vec::new(alloc);
    let mut rest = words;
    while let [word, after @ ..] = rest {
        push_no_flag(&mut kept, inside, *word)?;
        inside = goes_on(inside, *word);
        rest = after;
    }
    Ok(kept)
}
