//! Readings of sources, and how much may be read.

/// A reading of a source.
#[derive(Clone, Copy)]
pub(crate) struct Reading {
    /// 0 is that of the main text, and each splice opens a new one.
    pub number: u32,
    /// The source's number: 0 is the main text.
    pub file: u16,
}

/// How much was read.
#[derive(Clone, Copy)]
pub(crate) struct Count {
    /// How many readings there were, that of the main text among them.
    pub readings: u32,
    /// How many bytes they have together.
    pub bytes: usize,
}
