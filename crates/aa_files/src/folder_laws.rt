//! What a folder's text includes.

ghost use Rattle.aa_files.specs.Folders.{LinesIncludeTheirPaths};

/// A law and no work: a line of a folder's text includes the path that it is made of.
pub fn lines_include_their_paths()
    ensures { LinesIncludeTheirPaths }
{}
