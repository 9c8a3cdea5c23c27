//! What of the language is left out, by the word at which it was found.

ghost use Rattle.std.specs.Prelude.{◌≡◌, ◌==◌, ◌&&◌, ◌≤◌, ◌||◌, ◌-◌, length, take, drop, reverse, codes, not, option_map};
ghost use Rattle.std.specs.List.{prefix_len};
ghost use Rattle.std.specs.Str.{bytes_eq};
ghost use Rattle.std.specs.Bool.{nat_eq};
ghost use Rattle.std.specs.List.{starts_with};
ghost use Rattle.aa_rules.specs.Names.{holds};
ghost use Rattle.aa_diagnostics.specs.Words.{ends_word, word_in, is_quoted, ends_piece, piece_in, is_blank, before_blanks, last_bytes, is_behind_change, part_by_word, part_of_head, part_of_rule, part_by_sign, begins_letter, keeps_letter, part_by_bytes, part_behind_slash, part_of_path, is_mixed, part_of_mode, part_of, part_in_quotes, part_of_change, or_part, left_out};

use aa_rules::begins_with;

/// Whether a word is that one.
fn is_word(word: &[u8], name: &str) -> bool
    ensures { result ≡ bytes_eq word.now name.now }
{
    word == name.as_bytes()
}

fn is_hat(word: &[u8]) -> bool
    ensures { result ≡ (bytes_eq word.now (codes "hat") || bytes_eq word.now (codes "change_hat")) }
{
    is_word(word, "hat") || is_word(word, "change_hat")
}

fn is_conditional(word: &[u8]) -> bool
    ensures { result ≡ (bytes_eq word.now (codes "if") || bytes_eq word.now (codes "else")) }
{
    is_word(word, "if") || is_word(word, "else")
}

fn is_qualifier(word: &[u8]) -> bool
    ensures { result ≡ (bytes_eq word.now (codes "priority") || bytes_eq word.now (codes "quiet") || bytes_eq word.now (codes "other")) }
{
    is_word(word, "priority") || is_word(word, "quiet") || is_word(word, "other")
}

/// The part of the language that a word stands for by itself.
fn part_by_word(word: &[u8]) -> Option<&'static str>
    ensures { option_map (λ p. p.now) result ≡ part_by_word word.now }
{
    if is_word(word, "alias") {
        Some("an alias")
    } else if is_word(word, "link") {
        Some("a link rule")
    } else if is_hat(word) {
        Some("a hat")
    } else if is_conditional(word) {
        Some("a conditional")
    } else if is_qualifier(word) {
        Some("a qualifier")
    } else if is_word(word, "prompt") {
        Some("prompt, a flag or a qualifier")
    } else if is_word(word, "all") {
        Some("a rule on all")
    } else if is_word(word, "xattrs") {
        Some("xattrs")
    } else {
        None
    }
}

fn is_kill(word: &[u8]) -> bool
    ensures { result ≡ (bytes_eq word.now (codes "kill") || bytes_eq word.now (codes "default_allow")) }
{
    is_word(word, "kill") || is_word(word, "default_allow")
}

/// The part of heads of profiles that a word stands for.
fn part_of_head(word: &[u8]) -> Option<&'static str>
    ensures { option_map (λ p. p.now) result ≡ part_of_head word.now }
{
    if is_word(word, "unconfined") {
        Some("a flag or a profile called so")
    } else if is_kill(word) {
        Some("a flag called so")
    } else if is_word(word, "profile") {
        Some("a profile in a child")
    } else {
        None
    }
}

fn is_address(word: &[u8]) -> bool
    ensures { result ≡ (bytes_eq word.now (codes "ip") || bytes_eq word.now (codes "port") || bytes_eq word.now (codes "peer")) }
{
    is_word(word, "ip") || is_word(word, "port") || is_word(word, "peer")
}

/// The part of rules that a word stands for.
fn part_of_rule(word: &[u8]) -> Option<&'static str>
    ensures { option_map (λ p. p.now) result ≡ part_of_rule word.now }
{
    if is_word(word, "->") {
        Some("a target without an execution")
    } else if is_word(word, "icmp") {
        Some("icmp")
    } else if is_address(word) {
        Some("an address")
    } else {
        None
    }
}

/// The part of the language that a word stands for by the sign with which it begins.
fn part_by_sign(piece: &[u8]) -> Option<&'static str>
    ensures { option_map (λ p. p.now) result ≡ part_by_sign piece.now }
{
    match piece {
        [b'^', ..] => Some("a hat"),
        [b'$', ..] => Some("a Boolean variable"),
        [b':', ..] => Some("a namespace"),
        [b'&', ..] => Some("stacking"),
        [b'{', ..] => Some("a block behind a qualifier"),
        [b'(', ..] => Some("an access list"),
        [b'=', ..] => Some("a value of a flag or a condition"),
        _ => None,
    }
}

fn begins_so(text: &[u8], part: &str) -> bool
    ensures { result ≡ starts_with nat_eq text.now part.now }
{
    text.starts_with(part.as_bytes())
}

/// Whether bytes stand somewhere in a text, side by side.
fn holds(text: &[u8], part: &str) -> bool
    ensures { result ≡ holds part.now text.now }
{
    for i in 0..text.len() {
        if begins_so(&text[i..], part) {
            return true;
        }
    }
    false
}

fn begins_letter(text: &[u8]) -> bool
    ensures { result ≡ begins_letter text.now }
{
    match text {
        [b, ..] => {
            (*b >= b'0' && *b <= b'9') || (*b >= b'A' && *b <= b'Z') || (*b >= b'a' && *b <= b'z')
        }
        [] => false,
    }
}

fn is_kept_letter(b: u8, rest: &[u8]) -> bool
    ensures { result ≡ (b == 92 && begins_letter rest.now) }
{
    b == b'\\' && begins_letter(rest)
}

/// Whether a letter or a digit stands behind a backslash.
fn keeps_letter(text: &[u8]) -> bool
    ensures { result ≡ keeps_letter text.now }
{
    for (i, b) in text.iter().enumerate() {
        let rest = &text[i + 1..];
        if is_kept_letter(*b, rest) {
            return true;
        }
    }
    false
}

/// The part that is left out of a path or a name, by what it holds.
fn part_by_bytes(piece: &[u8]) -> Option<&'static str>
    ensures { option_map (λ p. p.now) result ≡ part_by_bytes piece.now }
{
    if holds(piece, "//&") {
        Some("stacking")
    } else if keeps_letter(piece) {
        Some("a backslash before a letter or a digit")
    } else if holds(piece, "@{exec_path}") {
        Some("the variable @{exec_path}")
    } else if holds(piece, "@{profile_name}") {
        Some("the variable @{profile_name}")
    } else {
        None
    }
}

fn part_behind_slash(piece: &[u8]) -> &'static str
    ensures { result.now ≡ part_behind_slash piece.now }
{
    if holds(piece, "@{") {
        "a profile in a child, or what a variable here stands for"
    } else if holds(piece, "//") {
        "a profile in a child, or a name of the top level with //"
    } else {
        "a profile in a child"
    }
}

/// The part that is left out of a path or a name, by what it may be.
fn part_of_path(piece: &[u8]) -> Option<&'static str>
    ensures { option_map (λ p. p.now) result ≡ part_of_path piece.now }
{
    if begins_with(piece, b'/') {
        Some(part_behind_slash(piece))
    } else if holds(piece, "@{") {
        Some("a variable here, or what it stands for")
    } else if holds(piece, "//") {
        Some("a name of the top level with //")
    } else {
        None
    }
}

fn is_mixed(word: &[u8]) -> bool
    ensures { result ≡ is_mixed word.now }
{
    holds(word, "pUx") || holds(word, "Pux") || holds(word, "cUx") || holds(word, "Cux")
}

fn part_of_mode(word: &[u8]) -> Option<&'static str>
    ensures { option_map (λ p. p.now) result ≡ part_of_mode word.now }
{
    if is_mixed(word) {
        Some("a mode of mixed case")
    } else {
        None
    }
}

/// The first part, or else the other.
fn or_part(first: Option<&'static str>, other: Option<&'static str>) -> Option<&'static str>
    ensures { option_map (λ p. p.now) result ≡ or_part (option_map (λ p. p.now) first.entry) (option_map (λ p. p.now) other.entry) }
{
    match first {
        Some(part) => Some(part),
        None => other,
    }
}

fn path_or_mode(word: &[u8], piece: &[u8]) -> Option<&'static str>
    ensures { option_map (λ p. p.now) result ≡ or_part (part_by_sign piece.now) (or_part (part_by_bytes piece.now) (or_part (part_of_path piece.now) (part_of_mode word.now))) }
{
    let path = or_part(part_of_path(piece), part_of_mode(word));
    or_part(part_by_sign(piece), or_part(part_by_bytes(piece), path))
}

/// The part that a word and its piece tell by themselves.
#[tactic(auto, unfolding(crate::specs::Words::part_of))]
fn part_of(word: &[u8], piece: &[u8]) -> Option<&'static str>
    ensures { option_map (λ p. p.now) result ≡ part_of word.now piece.now }
{
    let rule = or_part(part_of_rule(word), path_or_mode(word, piece));
    or_part(part_by_word(word), or_part(part_of_head(word), rule))
}

/// The part straight behind the keyword of a change.
fn part_of_change(word: &[u8]) -> &'static str
    ensures { result.now ≡ part_of_change word.now }
{
    if is_word(word, "safe") || is_word(word, "unsafe") {
        "a change that says so"
    } else {
        "a condition on the program"
    }
}

fn ends_word(b: u8) -> bool
    ensures { result ≡ ends_word b }
{
    matches!(
        b,
        b' ' | b'\t' | b'\r' | b'\n' | b',' | b'"' | b'(' | b')' | b'=' | b'{' | b'}'
    )
}

fn run_length(text: &[u8]) -> usize
    ensures length { result ≡ prefix_len (λ b. not (ends_word b)) text.now }
    ensures within { result ≤ length text.now }
{
    text.iter().take_while(|b| !ends_word(**b)).count()
}

/// The bytes from a place on.
pub(crate) fn from_place(text: &[u8], byte: usize) -> &[u8]
    ensures { result.now ≡ drop byte text.now }
{
    if byte < text.len() {
        &text[byte..]
    } else {
        &[]
    }
}

/// The run of bytes that begins at a byte of a text.
fn word_at(text: &[u8], byte: usize) -> &[u8]
    ensures { result.now ≡ word_in text.entry.now byte }
{
    let rest = from_place(text, byte);
    &rest[..run_length(rest)]
}

/// Whether a quote stands before a byte of a text.
fn is_quoted(text: &[u8], byte: usize) -> bool
    ensures { result ≡ is_quoted text.now byte }
{
    byte >= 1 && byte <= text.len() && text[byte - 1] == b'"'
}

fn ends_piece(quoted: bool, b: u8) -> bool
    ensures { result ≡ ends_piece quoted b }
{
    b == b'"' || (!quoted && (b == b' ' || b == b'\t' || b == b'\r' || b == b'\n'))
}

fn piece_length(quoted: bool, text: &[u8]) -> usize
    ensures length { result ≡ prefix_len (λ b. not (ends_piece quoted b)) text.now }
    ensures within { result ≤ length text.now }
{
    text.iter().take_while(|b| !ends_piece(quoted, **b)).count()
}

/// The path or the name that begins at a byte of a text.
fn piece_at(text: &[u8], byte: usize) -> &[u8]
    ensures { result.now ≡ piece_in text.entry.now byte }
{
    let rest = from_place(text, byte);
    &rest[..piece_length(is_quoted(text, byte), rest)]
}

fn is_blank(b: u8) -> bool
    ensures { result ≡ is_blank b }
{
    b == b' ' || b == b'\t'
}

/// How many blanks stand at the end of a text.
fn blanks(text: &[u8]) -> usize
    ensures { result ≡ prefix_len is_blank (reverse text.now) }
{
    text.iter().rev().take_while(|b| is_blank(**b)).count()
}

fn before_blanks(text: &[u8]) -> &[u8]
    ensures { result.now ≡ before_blanks text.entry.now }
{
    &text[..text.len().saturating_sub(blanks(text))]
}

fn front_of(text: &[u8], byte: usize) -> &[u8]
    ensures { result.now ≡ take byte text.entry.now }
{
    if byte < text.len() {
        &text[..byte]
    } else {
        text
    }
}

fn last_bytes(count: usize, text: &[u8]) -> &[u8]
    ensures { result.now ≡ last_bytes count text.entry.now }
{
    &text[text.len().saturating_sub(count)..]
}

/// Whether what begins at a byte of a text stands straight behind the keyword of a change.
fn is_behind_change(text: &[u8], byte: usize) -> bool
    ensures { result ≡ is_behind_change text.now byte }
{
    is_word(
        last_bytes(14, before_blanks(front_of(text, byte))),
        "change_profile",
    )
}

fn part_in_quotes(quoted: bool) -> Option<&'static str>
    ensures { option_map (λ p. p.now) result ≡ part_in_quotes quoted }
{
    if quoted {
        Some("a profile in a child")
    } else {
        None
    }
}

/// The part of the language that is left out, where a byte of a text tells.
#[tactic(auto, unfolding(crate::specs::Words::left_out))]
pub(crate) fn part_at(text: &[u8], byte: usize) -> Option<&'static str>
    ensures { option_map (λ p. p.now) result ≡ left_out text.now byte }
{
    if is_behind_change(text, byte) {
        return Some(part_of_change(word_at(text, byte)));
    }
    let part = part_of(word_at(text, byte), piece_at(text, byte));
    or_part(part, part_in_quotes(is_quoted(text, byte)))
}
