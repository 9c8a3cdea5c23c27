//! The pieces that a text is cut into, and the places between them.

ghost use Rattle.std.specs.Prelude.{◌≡◌, ◌+◌, ◌^◌, ◌<◌, ◌≤◌};
ghost use Rattle.std.specs.List.{list_any};
ghost use Rattle.std.specs.Str.{bytes_eq};
ghost use Rattle.aa_words.specs.Runs.{is_variable};
ghost use Rattle.aa_words.specs.Splits.{kind_of, is_include, is_in_quotes, is_one_of, qualifiers, passed_over, may_skip, is_among_values, behind_name_word, behind_blank, behind_assigning, rule_after, parens_after, is_run, place_after, is_beginning, start};

use crate::runs::is_whole_variable;
use crate::word::WordKind;

/// What a text begins with.
#[derive(Clone, Copy)]
pub(crate) enum Piece {
    Blank,
    /// A backslash and the line end behind it, among values.
    JoinedLine,
    Comment,
    /// An include, which stands for the words of a source.
    Include,
    /// A Path word that is a variable before a sign of assignment.
    Variable,
    /// A Value word that stands in quotes.
    QuotedValue,
    Token(WordKind),
}

/// The kind of word that a piece is.
pub(crate) fn word_kind(piece: Piece) -> Option<WordKind>
    ensures { result ≡ kind_of piece }
{
    match piece {
        Piece::Blank | Piece::JoinedLine | Piece::Comment | Piece::Include => None,
        Piece::Variable => Some(WordKind::Path),
        Piece::QuotedValue => Some(WordKind::Value),
        Piece::Token(kind) => Some(kind),
    }
}

/// Whether a piece is an include.
pub(crate) fn stands_for_source(piece: Piece) -> bool
    ensures { result ≡ is_include piece }
{
    matches!(piece, Piece::Include)
}

/// Whether a piece is a word in quotes.
pub(crate) fn stands_in_quotes(piece: Piece) -> bool
    ensures { result ≡ is_in_quotes piece }
{
    matches!(piece, Piece::QuotedValue | Piece::Token(WordKind::Quoted))
}

/// Where in a rule a text goes on.
#[derive(Clone, Copy)]
pub(crate) enum RulePlace {
    /// A rule begins: at the start, behind `{`, `}`, a comma outside parentheses, an include, and an assignment's line.
    Begins,
    /// Behind the qualifiers that a rule begins with.
    Qualified,
    Within,
    /// Behind a variable, which `=` or `+=` makes an assignment.
    BehindVariable,
    /// Among the values of an assignment, up to the line's end.
    Values,
}

/// A place between two pieces.
#[derive(Clone, Copy)]
pub(crate) struct Place {
    pub rule: RulePlace,
    /// How many parentheses are open.
    pub parens: usize,
    /// Whether a word that is a run ends right here.
    pub behind_run: bool,
}

impl Place {
    /// The start of a text.
    pub(crate) const START: Place = Place {
        rule: RulePlace::Begins,
        parens: 0,
        behind_run: false,
    };
}

fn is_qualifier(text: &[u8]) -> bool
    ensures { result ≡ is_one_of qualifiers text.now }
{
    text == "audit".as_bytes() || text == "allow".as_bytes() || text == "deny".as_bytes()
}

/// The words with which rules begin of kinds that are passed over.
const PASSED_OVER: [&str; 12] = [
    "signal",
    "ptrace",
    "dbus",
    "unix",
    "mount",
    "remount",
    "umount",
    "pivot_root",
    "set",
    "userns",
    "mqueue",
    "io_uring",
];

fn is_word(word: &str, text: &[u8]) -> bool
    ensures { result ≡ bytes_eq text.now word.now }
{
    text == word.as_bytes()
}

/// Whether a text is one of the words.
fn is_among(words: &[&str], text: &[u8]) -> bool
    ensures { result ≡ list_any (λ word. bytes_eq text.now word.now) words.now }
{
    words.iter().any(|word| is_word(word, text))
}

/// Whether a rule of a kind that is passed over begins with this word.
pub(crate) fn is_passed_over(text: &[u8]) -> bool
    ensures { result ≡ is_one_of passed_over text.now }
{
    is_among(&PASSED_OVER, text)
}

/// Whether a rule begins here, with no qualifier before it.
pub(crate) fn begins_rule(rule: RulePlace) -> bool
    ensures { result ≡ is_beginning rule }
{
    matches!(rule, RulePlace::Begins)
}

/// Whether a rule that is passed over may begin here.
pub(crate) fn may_begin_skipped(rule: RulePlace) -> bool
    ensures { result ≡ may_skip rule }
{
    matches!(rule, RulePlace::Begins | RulePlace::Qualified)
}

/// Whether the values of an assignment stand here.
pub(crate) fn stands_among_values(rule: RulePlace) -> bool
    ensures { result ≡ is_among_values rule }
{
    matches!(rule, RulePlace::Values)
}

fn rule_behind_name(rule: RulePlace, text: &[u8]) -> RulePlace
    ensures { result ≡ behind_name_word rule text.now }
{
    if may_begin_skipped(rule) && is_qualifier(text) {
        RulePlace::Qualified
    } else {
        RulePlace::Within
    }
}

fn rule_behind_blank(rule: RulePlace, text: &[u8]) -> RulePlace
    ensures { result ≡ behind_blank rule text.now }
{
    if stands_among_values(rule) && matches!(text, [b'\n', ..]) {
        RulePlace::Begins
    } else {
        rule
    }
}

fn rule_behind_assigning(rule: RulePlace) -> RulePlace
    ensures { result ≡ behind_assigning rule }
{
    match rule {
        RulePlace::BehindVariable => RulePlace::Values,
        _ => RulePlace::Within,
    }
}

fn rule_behind(place: Place, piece: Piece, text: &[u8]) -> RulePlace
    ensures { result ≡ rule_after place piece text.now }
{
    match piece {
        Piece::Blank => rule_behind_blank(place.rule, text),
        Piece::JoinedLine | Piece::Comment => place.rule,
        Piece::Variable => RulePlace::BehindVariable,
        Piece::QuotedValue | Piece::Token(WordKind::Value) => RulePlace::Values,
        Piece::Include | Piece::Token(WordKind::Open | WordKind::Close) => RulePlace::Begins,
        Piece::Token(WordKind::Comma) if place.parens == 0 => RulePlace::Begins,
        Piece::Token(WordKind::Equals | WordKind::PlusEquals) => rule_behind_assigning(place.rule),
        Piece::Token(WordKind::Path) if is_whole_variable(text) => RulePlace::BehindVariable,
        Piece::Token(WordKind::Name) => rule_behind_name(place.rule, text),
        Piece::Token(_) => RulePlace::Within,
    }
}

fn parens_behind(parens: usize, piece: Piece) -> usize
    requires { parens + 1 < 2 ^ 64 }
    ensures after { result ≡ parens_after parens piece }
    ensures one_more { result ≤ parens + 1 }
{
    match piece {
        Piece::Token(WordKind::LeftParen) => parens + 1,
        Piece::Token(WordKind::RightParen) => parens.saturating_sub(1),
        _ => parens,
    }
}

fn ends_in_run(piece: Piece) -> bool
    ensures { result ≡ is_run piece }
{
    matches!(
        piece,
        Piece::Variable
            | Piece::QuotedValue
            | Piece::Token(WordKind::Path | WordKind::Name | WordKind::Quoted | WordKind::Value)
    )
}

/// The place behind a piece.
pub(crate) fn place_behind(place: Place, piece: Piece, text: &[u8]) -> Place
    requires { place.parens + 1 < 2 ^ 64 }
    ensures after { result ≡ place_after place piece text.now }
    ensures one_more { result.parens ≤ place.parens + 1 }
{
    Place {
        rule: rule_behind(place, piece, text),
        parens: parens_behind(place.parens, piece),
        behind_run: ends_in_run(piece),
    }
}
