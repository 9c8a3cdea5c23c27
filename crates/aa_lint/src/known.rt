//! Findings that are accepted.

ghost use Rattle.std.specs.Prelude.{◌≡◌, ◌++◌, ◌∷◌, [], map, flat_map, filter, OnOk, IfOk};
ghost use Rattle.aa_files.specs.Texts.{texts, slices};
ghost use Rattle.aa_report.specs.Accepted.{all_gone};
ghost use Rattle.aa_report.specs.Sets.{AreIn};
ghost use Rattle.aa_lint.specs.Telling.{telling};
ghost use Rattle.aa_lint.specs.Shown.{line_of};
ghost use Rattle.aa_lint.specs.Known.{unknown_if, is_count, is_aside, is_entry};

use crate::shown::push_line_of;
use crate::told::Told;
use aa_report::{after_digits, is_among, push_all_gone};
use std::alloc::{AllocError, Global};
use std::collections::HashMap;

/// How a finding is printed, without the end of its line.
fn line_of(alloc: Global, told: &Told) -> Result<Vec<u8>, AllocError>
    ensures { IfOk result (λ line. line.items ≡ line_of (telling told.now)) }
{
    let mut line = Vec::new(alloc);
    push_line_of(&mut line, alloc, told)?;
    Ok(line)
}

/// How findings are printed.
pub(crate) fn lines_of(alloc: Global, all: &[Told]) -> Result<Vec<Vec<u8>>, AllocError>
    ensures { IfOk result (λ lines. texts lines.items ≡ map line_of (map telling all.now)) }
{
    let mut lines = Vec::new(alloc);
    for told in all {
        lines.push(line_of(alloc, told)?)?;
    }
    Ok(lines)
}

/// Adds a finding, unless it is printed as one of the lines.
fn push_unknown(
    unknown: &mut Vec<Told>,
    alloc: Global,
    set: &HashMap<Vec<u8>, usize>,
    lines: &[&[u8]],
    told: Told,
) -> Result<(), AllocError>
    requires { AreIn set.now (slices lines.now) }
    ensures { OnOk result (map telling unknown.new.items ≡ map telling unknown.old.items ++ unknown_if (slices lines.now) (telling told)) }
{
    let line = line_of(alloc, &told)?;
    if is_among(set, lines, line.as_slice()) {
        return Ok(());
    }
    unknown.push(told)?;
    Ok(())
}

/// The findings of which no line is there.
pub(crate) fn unknown_of(
    alloc: Global,
    set: &HashMap<Vec<u8>, usize>,
    lines: &[&[u8]],
    all: Vec<Told>,
) -> Result<Vec<Told>, AllocError>
    requires { AreIn set.now (slices lines.now) }
    ensures { IfOk result (λ unknown. map telling unknown.items ≡ flat_map (unknown_if (slices lines.now)) (map telling all.items)) }
{
    let mut unknown = Vec::new(alloc);
    for told in all {
        push_unknown(&mut unknown, alloc, set, lines, told)?;
    }
    Ok(unknown)
}

/// Whether a line says how many findings there were, or how many files were skipped.
fn is_count(line: &[u8]) -> bool
    ensures { result ≡ is_count line.now }
{
    let rest = after_digits(line);
    rest.len() < line.len()
        && (rest == " findings".as_bytes() || rest == " files skipped".as_bytes())
}

/// Whether a line is no finding's.
fn is_aside(line: &[u8]) -> bool
    ensures { result ≡ is_aside line.now }
{
    line.is_empty() || line.starts_with("#".as_bytes()) || is_count(line)
}

/// Adds a line that may be a finding's.
fn push_entry<'t>(entries: &mut Vec<&'t [u8]>, line: &'t [u8]) -> Result<(), AllocError>
    ensures { OnOk result (slices entries.new.items ≡ slices entries.old.items ++ filter is_entry (line.entry.now ∷ [])) }
{
    if !is_aside(line) {
        entries.push(line)?;
    }
    Ok(())
}

/// Those of the lines that may be findings'.
fn entries_of<'t>(alloc: Global, lines: &[&'t [u8]]) -> Result<Vec<&'t [u8]>, AllocError>
    ensures { IfOk result (λ entries. slices entries.items ≡ filter is_entry (slices lines.now)) }
{
    let mut entries = Vec::new(alloc);
    for line in lines {
        push_entry(&mut entries, *line)?;
    }
    Ok(entries)
}

/// Appends of which lines the finding isn't among these.
pub(crate) fn push_gone_among(
    out: &mut Vec<u8>,
    alloc: Global,
    found: &[Vec<u8>],
    lines: &[&[u8]],
) -> Result<(), AllocError>
    ensures { OnOk result (out.new.items ≡ out.old.items ++ all_gone (texts found.now) (filter is_entry (slices lines.now))) }
{
    let entries = entries_of(alloc, lines)?;
    push_all_gone(out, alloc, found, entries.as_slice())
}
