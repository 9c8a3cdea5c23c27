//! The name that was meant by a word that is none.

ghost use Rattle.std.specs.Prelude.{◌≡◌, ◌≤◌, length, map, find, option_map};
ghost use Rattle.std.specs.Str.{bytes_eq};
ghost use Rattle.aa_text.specs.Nearest.{common, edited, is_within_one, is_within_two, is_near, nearest_name};

/// How short a word may be of which two edits make a name.
const TELLING: usize = 4;

/// With how many bytes both texts begin.
fn common(first: &[u8], second: &[u8]) -> usize
    ensures count { result ≡ common first.now second.now }
    ensures within_first { result ≤ length first.now }
    ensures within_second { result ≤ length second.now }
{
    for (i, b) in first.iter().enumerate() {
        if i >= second.len() {
            return i;
        }
        if second[i] != *b {
            return i;
        }
    }
    first.len()
}

fn is_same(first: &[u8], second: &[u8]) -> bool
    ensures { result ≡ bytes_eq first.now second.now }
{
    first == second
}

fn is_edited(first: &[u8], second: &[u8]) -> bool
    ensures { result ≡ edited bytes_eq first.now second.now }
{
    match (first, second) {
        ([], []) => true,
        ([], [_, ys @ ..]) => is_same(first, ys),
        ([_, xs @ ..], []) => is_same(xs, second),
        ([_, xs @ ..], [_, ys @ ..]) => {
            is_same(xs, ys) || is_same(xs, second) || is_same(first, ys)
        }
    }
}

#[tactic(auto, unfolding(crate::specs::Nearest::is_within_one))]
fn is_within_one(first: &[u8], second: &[u8]) -> bool
    ensures { result ≡ is_within_one first.now second.now }
{
    let same = common(first, second);
    is_edited(&first[same..], &second[same..])
}

fn is_edited_twice(first: &[u8], second: &[u8]) -> bool
    ensures { result ≡ edited is_within_one first.now second.now }
{
    match (first, second) {
        ([], []) => true,
        ([], [_, ys @ ..]) => is_within_one(first, ys),
        ([_, xs @ ..], []) => is_within_one(xs, second),
        ([_, xs @ ..], [_, ys @ ..]) => {
            is_within_one(xs, ys) || is_within_one(xs, second) || is_within_one(first, ys)
        }
    }
}

#[tactic(auto, unfolding(crate::specs::Nearest::is_within_two))]
fn is_within_two(first: &[u8], second: &[u8]) -> bool
    ensures { result ≡ is_within_two first.now second.now }
{
    let same = common(first, second);
    is_edited_twice(&first[same..], &second[same..])
}

fn is_near(word: &[u8], name: &[u8]) -> bool
    ensures { result ≡ is_near word.now name.now }
{
    word.len() >= TELLING && is_within_two(word, name)
}

/// The first of some names that one edit makes of a word.
fn first_within_one<'n>(names: &[&'n str], word: &[u8]) -> Option<&'n str>
    ensures { option_map (λ name. name.now) result ≡ find (is_within_one word.now) (map (λ name. name.now) names.now) }
{
    for name in names {
        if is_within_one(word, name.as_bytes()) {
            return Some(*name);
        }
    }
    None
}

/// The first of some names that two edits at most make of a word.
fn first_near<'n>(names: &[&'n str], word: &[u8]) -> Option<&'n str>
    ensures { option_map (λ name. name.now) result ≡ find (is_near word.now) (map (λ name. name.now) names.now) }
{
    for name in names {
        if is_near(word, name.as_bytes()) {
            return Some(*name);
        }
    }
    None
}

/// The name that may have been meant by a word that is none of some names: the first that is made of it by one byte that is put in,
/// left out or changed, or else, of a word of four bytes at least, by two.
pub fn nearest_name<'n>(names: &[&'n str], word: &[u8]) -> Option<&'n str>
    ensures { option_map (λ name. name.now) result ≡ nearest_name (map (λ name. name.now) names.now) word.now }
{
    match first_within_one(names, word) {
        Some(name) => Some(name),
        None => first_near(names, word),
    }
}
