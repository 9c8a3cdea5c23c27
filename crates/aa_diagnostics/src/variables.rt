//! Variables of one name.

ghost use Rattle.std.specs.Prelude.{◌≡◌, [], Some};
ghost use Rattle.aa_base.specs.declared.fault.Spot.{Spot};
ghost use Rattle.aa_words.specs.Splits.{word_data, words_data};
ghost use Rattle.aa_policy.specs.Preamble.{IsTwice};
ghost use Rattle.aa_diagnostics.specs.Earlier.{sets, sets_next, word_stands_at, set_first, set_again, IsSetFirst};

use aa_base::Spot;
use aa_rules::spot_of;
use aa_words::{Word, WordKind, WordList};

fn sets(kind: WordKind) -> bool
    ensures { result ≡ sets kind }
{
    matches!(kind, WordKind::Equals)
}

/// Whether the sign stands first with which a variable is set.
fn sets_next(words: &[Word]) -> bool
    ensures { result ≡ sets_next (words_data words.now) }
{
    match words {
        [word, ..] => sets(word.kind),
        [] => false,
    }
}

fn word_stands_at(word: &Word, at: Spot) -> bool
    ensures { result ≡ word_stands_at at (word_data word.now) }
{
    let spot = spot_of(word);
    spot.file == at.file && spot.byte == at.byte
}

/// Where a variable is set first, by the word that names it.
fn set_first(name: &[u8], words: &[Word]) -> Option<Spot>
    ensures { result ≡ set_first name.now (words_data words.now) }
{
    let mut rest = words;
    while let [word, after @ ..] = rest {
        if word.text == name && sets_next(after) {
            return Some(spot_of(word));
        }
        rest = after;
    }
    None
}

/// Where words set a variable first, of the first word at a place that sets one again.
fn set_again(words: &[Word], at: Spot) -> Option<Spot>
    ensures { result ≡ set_again at [] (words_data words.now) }
{
    let mut number: usize = 0;
    let mut rest = words;
    while let [word, after @ ..] = rest {
        if word_stands_at(word, at) && sets_next(after) {
            let first = set_first(word.text, &words[..number]);
            if first.is_some() {
                return first;
            }
        }
        number += 1;
        rest = after;
    }
    None
}

/// Where the variable is set first that is set again at a place.
pub fn earlier_variable(words: &WordList, at: Spot) -> Option<Spot>
    ensures found { result ≡ set_again at [] (words_data words.now.list.items) }
    ensures twice { IsTwice (words_data words.now.list.items) at → ((first : Spot) × (result ≡ Some first) × IsSetFirst (words_data words.now.list.items) at first) }
{
    set_again(words.list.as_slice(), at)
}
