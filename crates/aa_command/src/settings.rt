//! How the files of a policy are read.

/// Which files are read, and how.
#[derive(Clone, Copy, Debug)]
pub struct Settings<'a> {
    pub base: &'a [u8],
    /// The folders in which includes are searched, in order.
    pub folders: &'a [&'a [u8]],
    /// How many states an automaton may have.
    pub states: u32,
}
