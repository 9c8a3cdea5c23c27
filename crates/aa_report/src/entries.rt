//! What a text accepts that has findings in blocks.

ghost use Rattle.std.specs.Prelude.{◌≡◌, ◌++◌, [], ◌∷◌, None, filter, OnOk, IfOk};
ghost use Rattle.aa_files.specs.Texts.{texts, slices};
ghost use Rattle.aa_report.specs.Entries.{is_read, holds, is_counted, is_total, is_doubt, is_aside, in_block, entry_by, entry_of, heading_behind, entries_from, entries_in};

use crate::lines::{after_digits, body_of, is_below, is_deep, is_indented, lines_in};
use aa_text::push_text;
use std::alloc::{AllocError, Global};

/// Whether a line is read, which is neither empty, a comment nor below a finding.
fn is_read(line: &[u8]) -> bool
    ensures { result ≡ is_read line.now }
{
    !(line.is_empty() || line.starts_with("#".as_bytes()) || is_deep(line))
}

/// Adds a line that is read.
fn push_read<'t>(read: &mut Vec<&'t [u8]>, line: &'t [u8]) -> Result<(), AllocError>
    ensures { OnOk result (slices read.new.items ≡ slices read.old.items ++ filter is_read (line.entry.now ∷ [])) }
{
    if is_read(line) {
        read.push(line)?;
    }
    Ok(())
}

/// Those of the lines that are read.
fn read_of<'t>(alloc: Global, lines: &[&'t [u8]]) -> Result<Vec<&'t [u8]>, AllocError>
    ensures { IfOk result (λ read. slices read.items ≡ filter is_read (slices lines.now)) }
{
    let mut read = Vec::new(alloc);
    for line in lines {
        push_read(&mut read, *line)?;
    }
    Ok(read)
}

/// Whether the word stands somewhere in the line.
pub fn holds(word: &str, line: &[u8]) -> bool
    ensures { result ≡ holds word.now line.now }
{
    let mut rest = line;
    while let [_, after @ ..] = rest {
        if rest.starts_with(word.as_bytes()) {
            return true;
        }
        rest = after;
    }
    false
}

/// Whether a number counts profiles that were compared, one or more, or files that were skipped.
fn is_counted(rest: &[u8]) -> bool
    ensures { result ≡ is_counted rest.now }
{
    rest.starts_with(" profiles compared: ".as_bytes())
        || rest.starts_with(" profile compared: ".as_bytes())
        || rest == " files skipped".as_bytes()
}

/// Whether a line says how many profiles were compared, or how many files were skipped.
fn is_total(line: &[u8]) -> bool
    ensures { result ≡ is_total line.now }
{
    let rest = after_digits(line);
    rest.len() < line.len() && is_counted(rest)
}

/// Whether a line says what isn't told.
fn is_doubt(line: &[u8]) -> bool
    ensures { result ≡ is_doubt line.now }
{
    holds(" undecided: ", line) || holds(" not compared: ", line)
}

/// Whether a line that isn't indented is no finding's.
fn is_aside(heads: bool, line: &[u8]) -> bool
    ensures { result ≡ is_aside heads line.now }
{
    heads || is_total(line) || is_doubt(line)
}

/// How a line stands by itself: behind the heading of its block.
fn in_block(alloc: Global, heading: &[u8], body: &[u8]) -> Result<Vec<u8>, AllocError>
    ensures { IfOk result (λ entry. entry.items ≡ in_block heading.now body.now) }
{
    let mut entry = Vec::from_slice(alloc, heading)?;
    push_text(&mut entry, ": ")?;
    entry.extend_from_slice(body)?;
    Ok(entry)
}

fn push_in_block(
    entries: &mut Vec<Vec<u8>>,
    alloc: Global,
    heading: &[u8],
    body: &[u8],
) -> Result<(), AllocError>
    ensures { OnOk result (texts entries.new.items ≡ texts entries.old.items ++ (in_block heading.now body.now ∷ [])) }
{
    entries.push(in_block(alloc, heading, body)?)?;
    Ok(())
}

/// Adds a line that isn't indented, if it is a finding's.
fn push_alone(
    entries: &mut Vec<Vec<u8>>,
    alloc: Global,
    heads: bool,
    line: &[u8],
) -> Result<(), AllocError>
    ensures { OnOk result (texts entries.new.items ≡ texts entries.old.items ++ entry_by [] heads line.now None) }
{
    if !is_aside(heads, line) {
        entries.push(Vec::from_slice(alloc, line)?)?;
    }
    Ok(())
}

/// Adds the finding of a line, if it is one's.
fn push_entry(
    entries: &mut Vec<Vec<u8>>,
    alloc: Global,
    heading: &[u8],
    heads: bool,
    line: &[u8],
) -> Result<(), AllocError>
    ensures { OnOk result (texts entries.new.items ≡ texts entries.old.items ++ entry_of heading.now heads line.now) }
{
    match body_of(line) {
        Some(body) => push_in_block(entries, alloc, heading, body),
        None => push_alone(entries, alloc, heads, line),
    }
}

/// The heading of what stands behind a line.
fn heading_behind<'t>(heading: &'t [u8], line: &'t [u8]) -> &'t [u8]
    ensures { result.now ≡ heading_behind heading.now line.now }
{
    if is_indented(line) { heading } else { line }
}

/// The findings of lines.
fn entries_of(alloc: Global, lines: &[&[u8]]) -> Result<Vec<Vec<u8>>, AllocError>
    ensures { IfOk result (λ entries. texts entries.items ≡ entries_from [] (slices lines.now)) }
{
    let mut entries = Vec::new(alloc);
    let mut heading: &[u8] = &[];
    let mut rest = lines;
    while let [line, after @ ..] = rest {
        push_entry(&mut entries, alloc, heading, is_below(after), *line)?;
        heading = heading_behind(heading, *line);
        rest = after;
    }
    Ok(entries)
}

/// The findings of a text that has them in blocks: each its line, without what indents it, behind the heading of its block, a colon and a
/// space, or by itself where it isn't indented. Empty lines, comments, what stands below a finding, totals and what isn't told are none.
pub fn entries_in(alloc: Global, text: &[u8]) -> Result<Vec<Vec<u8>>, AllocError>
    ensures { IfOk result (λ entries. texts entries.items ≡ entries_in text.now) }
{
    let lines = lines_in(alloc, text)?;
    let read = read_of(alloc, lines.as_slice())?;
    entries_of(alloc, read.as_slice())
}
