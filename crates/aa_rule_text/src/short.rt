//! Parts of a text.

ghost use Rattle.std.specs.Prelude.{◌≡◌, drop, take, slice_index};
ghost use Rattle.aa_text.specs.Places.{goes_on};
ghost use Rattle.aa_text.specs.Excerpts.{character_end};
ghost use Rattle.aa_rule_text.specs.RuleTexts.{shortened};

/// The most bytes that are shown.
const SHOWN: usize = 120;

/// The bytes from a place on.
pub(crate) fn from_place(text: &[u8], byte: usize) -> &[u8]
    ensures { result.now ≡ drop byte text.now }
{
    if byte < text.len() {
        &text[byte..]
    } else {
        &[]
    }
}

/// The bytes before a place.
pub(crate) fn before(text: &[u8], byte: usize) -> &[u8]
    ensures { result.now ≡ take byte text.now }
{
    if byte < text.len() {
        &text[..byte]
    } else {
        text
    }
}

/// Whether a character of UTF-8 would be cut before the byte at this place.
fn is_cut_at(text: &[u8], at: usize) -> bool
    ensures { result ≡ goes_on (slice_index text.now at) }
{
    match text.get(at) {
        Some(b) => *b >= 0x80 && *b <= 0xBF,
        None => false,
    }
}

/// The last place up to this one at which no character is cut.
fn last_whole(text: &[u8], at: usize) -> usize
    ensures { result ≡ character_end text.now at }
{
    let mut end = at;
    while end > 0 {
        if !is_cut_at(text, end) {
            return end;
        }
        end -= 1;
    }
    end
}

/// A text, or what of its first 120 bytes is whole characters.
pub fn shortened(text: &[u8]) -> &[u8]
    ensures { result.now ≡ shortened text.now }
{
    if text.len() <= SHOWN {
        return text;
    }
    before(text, last_whole(text, SHOWN))
}
