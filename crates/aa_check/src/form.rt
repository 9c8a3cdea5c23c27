//! How findings are written.

/// A form in which findings are written.
#[derive(Clone, Copy, Debug, PartialEq, Eq)]
pub enum Form {
    /// For people.
    Text,
    /// One JSON object.
    Json,
    /// A line for each, as compilers and their readers have them.
    Gcc,
    /// One SARIF log, as code scanning takes it.
    Sarif,
}
