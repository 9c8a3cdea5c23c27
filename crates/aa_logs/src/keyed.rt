//! The words of a line, by the keys that records are read by.

ghost use Rattle.std.specs.Prelude.{◌≡◌, ◌++◌, ◌∷◌, [], option_map, option_to_list, slice_get, OnOk, IfOk};
ghost use Rattle.aa_logs.specs.Words.{words_of, word_data, words_data};
ghost use Rattle.aa_logs.specs.Fields.{field_in};
ghost use Rattle.aa_logs.specs.Keys.{key_name, placed};

use crate::key::{KEYS, Key, key_of, number};
use crate::piece::first_piece;
use crate::word::LogWord;
use std::alloc::{AllocError, Global};
use std::marker::Model;

/// For how many words there is room at first: as many as most records have.
const MANY: usize = 24;

/// The words of a line in their order, with the places of the last that have the keys of records: seen as the words.
#[derive(Drop)]
pub(crate) struct KeyedWords<'s> {
    words: Vec<LogWord<'s>>,
    /// For each key the place of its last word, from 1; 0 where there is none.
    places: [usize; KEYS],
}

impl<'s> Model for KeyedWords<'s> {
    ghost use Rattle.std.specs.Prelude.{List};
    ghost use Rattle.aa_logs.specs.Words.{WordData, words_data};
    ghost use Rattle.aa_logs.specs.Keys.{IsPlaced};

    ghost Value = { List WordData };

    ghost view = { λ k. words_data k.words.items };

    ghost invariant = { λ k. IsPlaced k.places (words_data k.words.items) };
}

/// Notes the place of a word that has that key.
fn put_place(places: &mut [usize; KEYS], key: Option<Key>, place: usize)
    ensures { places.new ≡ placed key place places.old }
{
    if let Some(key) = key {
        places[number(key)] = place;
    }
}

fn word_at<'s>(words: &[LogWord<'s>], at: usize) -> Option<LogWord<'s>>
    ensures { result ≡ slice_get words.now at }
{
    words.get(at).copied()
}

impl<'s> KeyedWords<'s> {
    fn none(alloc: Global) -> Result<KeyedWords<'s>, AllocError>
        ensures { IfOk result (λ k. k ≡ []) }
    {
        Ok(KeyedWords {
            words: Vec::with_capacity(alloc, MANY)?,
            places: [0; KEYS],
        })
    }

    /// Adds a word behind those before it.
    fn push(&mut self, word: LogWord<'s>) -> Result<(), AllocError>
        ensures { OnOk result (self.new ≡ self.old ++ word_data word.entry ∷ []) }
    {
        let place = self.words.len() + 1;
        self.words.push(word)?;
        put_place(&mut self.places, key_of(word.key), place);
        Ok(())
    }

    /// Adds a word to those before it, if there is one.
    fn push_any(&mut self, word: Option<LogWord<'s>>) -> Result<(), AllocError>
        ensures { OnOk result (self.new ≡ self.old ++ option_to_list (option_map word_data word.entry)) }
    {
        match word {
            Some(word) => self.push(word),
            None => Ok(()),
        }
    }

    /// The words in their order.
    pub(crate) fn words(&self) -> &[LogWord<'s>]
        ensures { words_data result.now ≡ self.entry.now }
    {
        self.words.as_slice()
    }

    pub(crate) fn into_words(self) -> Vec<LogWord<'s>>
        ensures { words_data result.items ≡ self.entry }
    {
        self.words
    }

    /// The last word that has a key.
    pub(crate) fn last(&self, key: Key) -> Option<LogWord<'s>>
        ensures { option_map word_data result ≡ field_in (key_name key) self.now }
    {
        let at = self.places[number(key)].checked_sub(1)?;
        word_at(self.words.as_slice(), at)
    }
}

/// The words of a line without its end.
pub(crate) fn keyed_words<'s>(alloc: Global, line: &'s [u8]) -> Result<KeyedWords<'s>, AllocError>
    ensures { IfOk result (λ words. words ≡ words_of line.entry.now) }
{
    let mut words = KeyedWords::none(alloc)?;
    let mut rest = line;
    while !rest.is_empty() {
        let piece = first_piece(rest);
        words.push_any(piece.word)?;
        rest = &rest[piece.bytes..];
    }
    Ok(words)
}
