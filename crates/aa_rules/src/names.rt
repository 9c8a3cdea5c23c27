//! Names of profiles (apparmor.d(5), "Profile Head"), and words that are left out.

ghost use Rattle.std.specs.Prelude.{◌≡◌, ◌==◌, ◌&&◌, true};
ghost use Rattle.std.specs.Bool.{nat_eq};
ghost use Rattle.std.specs.List.{list_any, starts_with};
ghost use Rattle.std.specs.Str.{bytes_eq};
ghost use Rattle.aa_rules.specs.Faults.{is_word_fault};
ghost use Rattle.aa_rules.specs.Names.{begins_with, holds_pair, holds, is_single_name, is_full_name, is_right_name, is_plain_name, is_target_name, name_fault, is_left_out};

use aa_base::PolicyKind;

/// Whether the first byte is this one.
pub fn begins_with(text: &[u8], b: u8) -> bool
    ensures { result ≡ begins_with b text.now }
{
    match text {
        [first, ..] => *first == b,
        [] => false,
    }
}

/// Whether a text begins with two bytes, of which the first is given apart.
fn begins_pair(first: u8, rest: &[u8], a: u8, b: u8) -> bool
    ensures { result ≡ (first == a && begins_with b rest.now) }
{
    first == a && begins_with(rest, b)
}

/// Whether two bytes stand side by side somewhere in a text.
pub fn holds_pair(text: &[u8], a: u8, b: u8) -> bool
    ensures { result ≡ holds_pair a b text.now }
{
    for (i, first) in text.iter().enumerate() {
        let rest = &text[i + 1..];
        if begins_pair(*first, rest, a, b) {
            return true;
        }
    }
    false
}

/// Whether a text begins with these bytes.
pub fn begins_with_all(text: &[u8], part: &[u8]) -> bool
    ensures { result ≡ starts_with nat_eq text.now part.now }
{
    text.starts_with(part)
}

/// Whether bytes stand somewhere in a text, side by side.
pub fn holds(text: &[u8], part: &[u8]) -> bool
    ensures { result ≡ holds part.now text.now }
{
    for i in 0..text.len() {
        if begins_with_all(&text[i..], part) {
            return true;
        }
    }
    false
}

/// Whether a name is written without a namespace or a stack.
#[tactic(auto, unfolding(crate::specs::Names::is_single_name))]
fn is_single_name(name: &[u8]) -> bool
    ensures { result ≡ is_single_name name.now }
{
    !name.is_empty()
        && !begins_with(name, b':')
        && !begins_with(name, b'&')
        && !holds(name, "//&".as_bytes())
}

/// Whether a word names a profile behind an arrow.
#[tactic(auto, unfolding(crate::specs::Names::is_target_name))]
pub fn is_target_name(name: &[u8]) -> bool
    ensures { result ≡ is_target_name name.now }
{
    is_single_name(name) && !holds_pair(name, b'@', b'{')
}

/// Whether a name can be a full one.
#[tactic(auto, unfolding(crate::specs::Names::is_full_name))]
fn is_full_name(name: &[u8]) -> bool
    ensures { result ≡ is_full_name name.now }
{
    name != "unconfined".as_bytes() && !holds_pair(name, b'/', b'/')
}

/// Whether a word names a profile, of the top level or a child.
#[tactic(auto, unfolding(crate::specs::Names::is_right_name))]
pub fn is_right_name(name: &[u8], top: bool) -> bool
    ensures { result ≡ is_right_name top name.now }
{
    is_single_name(name) && (!top || is_full_name(name))
}

/// Whether a word names a profile behind the keyword: a variable isn't put in there.
#[tactic(auto, unfolding(crate::specs::Names::is_plain_name))]
pub fn is_plain_name(name: &[u8], top: bool) -> bool
    ensures { result ≡ is_plain_name top name.now }
{
    is_right_name(name, top) && !holds_pair(name, b'@', b'{')
}

/// Why a word names no profile.
pub fn name_fault(name: &[u8]) -> PolicyKind
    ensures kind { result ≡ name_fault name.now }
    ensures cause { is_word_fault result ≡ true }
{
    if name.is_empty() {
        PolicyKind::Syntax
    } else {
        PolicyKind::Unsupported
    }
}

/// Words that are left out where a rule begins.
const LEFT_OUT: [&str; 11] = [
    "alias",
    "link",
    "hat",
    "change_hat",
    "if",
    "else",
    "priority",
    "quiet",
    "prompt",
    "other",
    "all",
];

fn is_word(word: &str, name: &[u8]) -> bool
    ensures { result ≡ bytes_eq name.now word.now }
{
    name == word.as_bytes()
}

/// Whether a name is one of the words.
fn is_among(words: &[&str], name: &[u8]) -> bool
    ensures { result ≡ list_any (λ word. bytes_eq name.now word.now) words.now }
{
    words.iter().any(|word| is_word(word, name))
}

/// Whether a word is left out where a rule begins.
#[tactic(auto, unfolding(crate::specs::Names::is_left_out))]
pub fn is_left_out(name: &[u8]) -> bool
    ensures { result ≡ is_left_out name.now }
{
    begins_with(name, b'$') || begins_with(name, b'^') || is_among(&LEFT_OUT, name)
}
