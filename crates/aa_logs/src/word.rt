//! A word of a line.

/// How a word stands in its line.
#[derive(Clone, Copy, Debug, PartialEq, Eq)]
pub enum Form {
    /// A field whose value stands in quotes.
    Quoted,
    /// A field whose value begins with a quote that isn't closed.
    Open,
    /// A field whose value is a run.
    Plain,
    /// A run that is no field.
    Run,
}

/// A word of a line: a slice of it.
#[derive(Clone, Copy, Debug)]
pub struct LogWord<'s> {
    pub form: Form,
    /// The field's key; empty for a run.
    pub key: &'s [u8],
    /// The field's value without its quotes, or the run.
    pub text: &'s [u8],
}
