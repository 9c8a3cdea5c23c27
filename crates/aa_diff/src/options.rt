//! What is compared, and what is shown of it.

/// Which findings are shown.
#[derive(Clone, Copy)]
pub struct Wanted<'a> {
    /// Whether gains alone are.
    pub gains: bool,
    /// The profiles whose findings are, by their full names; of all where there are none.
    pub profiles: &'a [Vec<u8>],
    /// The names by which they are asked for, each a full name, or one in hexadecimal digits: one by which nobody is called is refused.
    pub names: &'a [Vec<u8>],
}

/// How differences are printed.
#[derive(Clone, Copy)]
pub enum DiffForm {
    /// Lines, those of a profile behind its heading.
    Text,
    /// One object.
    Json,
    /// A page.
    Html,
    /// The lines as lists below headings, as for the text of a merge request.
    Markdown,
}

/// What is compared, and what is shown of it.
#[derive(Clone, Copy)]
pub struct DiffOptions<'a> {
    /// The files of the old policy.
    pub old: &'a [Vec<u8>],
    /// The files of the new policy.
    pub new: &'a [Vec<u8>],
    pub wanted: Wanted<'a>,
    pub form: DiffForm,
    /// Whether files that are refused are skipped.
    pub skips: bool,
    /// The findings that are accepted, which are left out: each its line behind its heading, a colon and a space.
    pub accepted: &'a [Vec<u8>],
    /// A file of the new side with findings that are accepted in place of these, as they are printed.
    pub known: Option<&'a [u8]>,
    /// Whether requests at unclean paths count as others.
    pub unclean: bool,
}
