//! Words, and where they stand.

use aa_base::Spot;

/// Where a word stands in its source.
#[derive(Clone, Copy, Debug, PartialEq, Eq)]
pub struct Span {
    /// The reading of a source in which it was met: 0 is that of the main text, and each splice opens a new one.
    pub reading: u32,
    /// The source's number: 0 is the main text, added ones are 1, 2, .. in order.
    pub file: u16,
    /// The word's first byte, counted from 0.
    pub start: u32,
    /// The byte behind the word's last.
    pub end: u32,
}

/// The kinds of words of a policy (apparmor.d(5), section Format).
#[derive(Clone, Copy, Debug, PartialEq, Eq)]
pub enum WordKind {
    /// `{`
    Open,
    /// `}`
    Close,
    /// `,` outside a path's braces and brackets
    Comma,
    /// `=`
    Equals,
    /// `+=`
    PlusEquals,
    /// `->`
    Arrow,
    /// `(`
    LeftParen,
    /// `)`
    RightParen,
    /// A run that begins with `/` or `@{`.
    Path,
    /// A text in quotes.
    Quoted,
    /// A value of a variable's assignment, a run or in quotes.
    Value,
    /// A rule of a kind that is passed over, without the comma that ends it.
    Skipped,
    /// Any other run.
    Name,
}

/// A word of a policy: a slice of its source.
#[derive(Clone, Copy, Debug)]
pub struct Word<'s> {
    /// What kind of word it is.
    pub kind: WordKind,
    /// Its bytes, as they stand in the source, without the quotes that it stands in.
    pub text: &'s [u8],
    /// Where it stands.
    pub span: Span,
}

/// The words of a text in order, and the place behind it.
#[derive(Drop)]
pub struct WordList<'s> {
    /// The words; the spans of one reading rise.
    pub list: Vec<Word<'s>>,
    /// The main text's end, where a policy that ends too early is at fault.
    pub end: Spot,
}
