//! The lines of a report.

ghost use Rattle.std.specs.Prelude.{◌≡◌, codes, option_map, IfOk};
ghost use Rattle.aa_files.specs.Texts.{texts, slices};
ghost use Rattle.aa_report.specs.Lines.{lines_in, behind, body_of, deep_body_of, is_indented, is_deep, is_below, after_digits};

use aa_text::without_return;
use std::alloc::{AllocError, Global};

/// The lines of a text, without their ends.
pub fn lines_in<'t>(alloc: Global, text: &'t [u8]) -> Result<Vec<&'t [u8]>, AllocError>
    ensures { IfOk result (λ lines. slices lines.items ≡ lines_in text.entry.now) }
{
    let mut lines = Vec::new(alloc);
    for line in text.split(|b| *b == b'\n') {
        lines.push(without_return(line))?;
    }
    Ok(lines)
}

/// The same lines, lent.
pub fn slices_of(alloc: Global, lines: &[Vec<u8>]) -> Result<Vec<&[u8]>, AllocError>
    ensures { IfOk result (λ those. slices those.items ≡ texts lines.now) }
{
    let mut those = Vec::new(alloc);
    for line in lines {
        those.push(line.as_slice())?;
    }
    Ok(those)
}

/// What stands behind a front, where the text begins so.
fn behind<'t>(text: &'t [u8], front: &str) -> Option<&'t [u8]>
    ensures { option_map (λ t. t.now) result ≡ behind front.now text.entry.now }
{
    text.strip_prefix(front.as_bytes())
}

/// What stands on a line below a heading.
pub(crate) fn body_of(line: &[u8]) -> Option<&[u8]>
    ensures { option_map (λ t. t.now) result ≡ body_of line.entry.now }
{
    behind(line, "  ")
}

/// What stands on a line below such a line.
pub(crate) fn deep_body_of(line: &[u8]) -> Option<&[u8]>
    ensures { option_map (λ t. t.now) result ≡ deep_body_of line.entry.now }
{
    behind(line, "      ")
}

/// Whether a line stands below a heading.
pub(crate) fn is_indented(line: &[u8]) -> bool
    ensures { result ≡ is_indented line.now }
{
    line.starts_with("  ".as_bytes())
}

/// Whether a line stands below such a line.
pub(crate) fn is_deep(line: &[u8]) -> bool
    ensures { result ≡ is_deep line.now }
{
    line.starts_with("      ".as_bytes())
}

/// Whether these lines begin below a heading, so that the line before them is one.
pub(crate) fn is_below(lines: &[&[u8]]) -> bool
    ensures { result ≡ is_below (slices lines.now) }
{
    match lines {
        [line, ..] => is_indented(*line),
        [] => false,
    }
}

/// What stands behind the digits at the front.
pub fn after_digits(line: &[u8]) -> &[u8]
    ensures { result.now ≡ after_digits line.now }
{
    let mut rest = line;
    while let [first, after @ ..] = rest {
        if *first < b'0' || *first > b'9' {
            return rest;
        }
        rest = after;
    }
    rest
}
