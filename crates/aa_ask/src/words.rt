//! The request words of a call.

ghost use Rattle.std.specs.Prelude.{◌≡◌, ◌⊎◌, ◌+◌, ◌<◌, ◌≤◌, ◌++◌, length, vec_len, OnOk, IfErr};
ghost use Rattle.aa_ask.specs.Words.{texts, word_if, word_of, word_lines};

use aa_base::Unread;
use aa_text::without_return;
use std::alloc::Global;

/// The most request words of a call.
pub const MAX_WORDS: usize = 65536;

/// Adds a word, unless it is empty, if there are few enough.
fn push_word(alloc: Global, word: &[u8], words: &mut Vec<Vec<u8>>) -> Result<(), Unread>
    ensures added { OnOk result (texts words.new.items ≡ texts words.old.items ++ word_if word.now) }
    ensures within { OnOk result (vec_len words.old ≤ MAX_WORDS → vec_len words.new ≤ MAX_WORDS) }
    ensures refused { IfErr result (λ why. (why ≡ Unread.NoMemory) ⊎ ((why ≡ Unread.TooLarge) × (MAX_WORDS < vec_len words.old + length (word_if word.now)))) }
{
    if word.is_empty() {
        return Ok(());
    }
    if words.len() >= MAX_WORDS {
        return Err(Unread::TooLarge);
    }
    words.push(Vec::from_slice(alloc, word)?)?;
    Ok(())
}

/// Adds a line as a word, without the CR before its end.
fn push_line(alloc: Global, line: &[u8], words: &mut Vec<Vec<u8>>) -> Result<(), Unread>
    ensures added { OnOk result (texts words.new.items ≡ texts words.old.items ++ word_of line.now) }
    ensures within { OnOk result (vec_len words.old ≤ MAX_WORDS → vec_len words.new ≤ MAX_WORDS) }
    ensures refused { IfErr result (λ why. (why ≡ Unread.NoMemory) ⊎ ((why ≡ Unread.TooLarge) × (MAX_WORDS < vec_len words.old + length (word_of line.now)))) }
{
    push_word(alloc, without_return(line), words)
}

/// Adds the lines of a text without their ends (a CR before a line's end belongs to it), but for empty ones. Refused where there are more words then than a call may have.
pub fn push_words(alloc: Global, text: &[u8], words: &mut Vec<Vec<u8>>) -> Result<(), Unread>
    ensures added { OnOk result (texts words.new.items ≡ texts words.old.items ++ word_lines text.now) }
    ensures within { OnOk result (vec_len words.old ≤ MAX_WORDS → vec_len words.new ≤ MAX_WORDS) }
    ensures refused { IfErr result (λ why. (why ≡ Unread.NoMemory) ⊎ ((why ≡ Unread.TooLarge) × (MAX_WORDS < vec_len words.old + length (word_lines text.now)))) }
{
    for line in text.split(|b| *b == b'\n') {
        push_line(alloc, line, words)?;
    }
    Ok(())
}
