//! The command line as a terminal may be handed it.

use std::alloc::{AllocError, Global};

/// A word with `?` for each control character but tab.
fn shown_word(alloc: Global, word: &str) -> Result<String, AllocError> {
    let mut shown = String::new(alloc);
    for c in word.chars() {
        let is_shown = c == '\t' || !c.is_control();
        shown.push(if is_shown { c } else { '?' })?;
    }
    Ok(shown)
}

/// The words of a command line, which is refused as it is with these.
pub(crate) fn shown_words(alloc: Global, words: &[String]) -> Result<Vec<String>, AllocError> {
    let mut shown = Vec::new(alloc);
    for word in words {
        shown.push(shown_word(alloc, word.as_str())?)?;
    }
    Ok(shown)
}
