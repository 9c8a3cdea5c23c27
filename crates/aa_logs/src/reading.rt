//! The words of a line, and the value of a key.

ghost use Rattle.std.specs.Prelude.{◌≡◌, IfOk, option_map, find, reverse};
ghost use Rattle.std.specs.Str.{bytes_eq};
ghost use Rattle.aa_logs.specs.Words.{words_of, last_of, words_data};

use crate::keyed::keyed_words;
use crate::word::LogWord;
use std::alloc::{AllocError, Global};

/// The words of a line without its end, in their order: its fields, and the runs that are none. Words stand apart by spaces, tabs
/// and the byte 0x1d, and a word may follow straight behind a value in quotes. A field is `KEY="TEXT"`, else `KEY=RUN`; of
/// `KEY='..'` the words inside stand for themselves. In a value nothing is taken out and nothing is put in.
pub fn read_line<'s>(alloc: Global, line: &'s [u8]) -> Result<Vec<LogWord<'s>>, AllocError>
    ensures { IfOk result (λ words. words_data words.items ≡ words_of line.entry.now) }
{
    Ok(keyed_words(alloc, line)?.into_words())
}

/// The field with that key; where it comes twice, the last.
pub fn last_of<'w, 's>(words: &'w [LogWord<'s>], key: &[u8]) -> Option<&'w LogWord<'s>>
    ensures { option_map (λ w. w.now) result ≡ last_of key.now words.entry.now }
{
    words.iter().rev().find(|word| word.key == key)
}
