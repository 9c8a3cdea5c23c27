//! A report as Markdown.

ghost use Rattle.std.specs.Prelude.{◌≡◌, ◌++◌, false, None, OnOk};
ghost use Rattle.aa_files.specs.Texts.{slices};
ghost use Rattle.aa_report.specs.Markdown.{item_text, gap, heading_text, paragraph_text, outer_text, upper_text, text_by, line_text, lines_text, markdown_of};

use crate::lines::{body_of, deep_body_of, is_below, lines_in};
use crate::spans::push_shown_span;
use aa_text::push_text;
use std::alloc::{AllocError, Global};

/// Appends a line of a list behind what stands before it.
fn push_item(out: &mut Vec<u8>, alloc: Global, front: &str, line: &[u8]) -> Result<(), AllocError>
    ensures { OnOk result (out.new.items ≡ out.old.items ++ item_text front.now line.now) }
{
    match line {
        [] => Ok(()),
        [sign] => {
            push_text(out, front)?;
            push_shown_span(out, alloc, &[*sign])?;
            push_text(out, "\n")
        }
        [sign, _, rest @ ..] => {
            push_text(out, front)?;
            push_shown_span(out, alloc, &[*sign])?;
            push_text(out, " ")?;
            push_shown_span(out, alloc, rest)?;
            push_text(out, "\n")
        }
    }
}

/// Appends an empty line, where something stands before.
fn push_gap(out: &mut Vec<u8>, before: bool) -> Result<(), AllocError>
    ensures { OnOk result (out.new.items ≡ out.old.items ++ gap before) }
{
    push_text(out, if before { "\n" } else { "" })
}

#[tactic(auto, unfolding(crate::specs::Markdown::heading_text))]
fn push_heading(
    out: &mut Vec<u8>,
    alloc: Global,
    before: bool,
    line: &[u8],
) -> Result<(), AllocError>
    ensures { OnOk result (out.new.items ≡ out.old.items ++ heading_text before line.now) }
{
    push_gap(out, before)?;
    push_text(out, "### ")?;
    push_shown_span(out, alloc, line)?;
    push_text(out, "\n\n")
}

#[tactic(auto, unfolding(crate::specs::Markdown::paragraph_text))]
fn push_paragraph(
    out: &mut Vec<u8>,
    alloc: Global,
    before: bool,
    line: &[u8],
) -> Result<(), AllocError>
    ensures { OnOk result (out.new.items ≡ out.old.items ++ paragraph_text before line.now) }
{
    push_gap(out, before)?;
    push_shown_span(out, alloc, line)?;
    push_text(out, "\n")
}

/// Appends a line that isn't indented: a heading, where one stands behind it that is.
fn push_outer(
    out: &mut Vec<u8>,
    alloc: Global,
    before: bool,
    heads: bool,
    line: &[u8],
) -> Result<(), AllocError>
    ensures { OnOk result (out.new.items ≡ out.old.items ++ outer_text before heads line.now) }
{
    if heads {
        return push_heading(out, alloc, before, line);
    }
    push_paragraph(out, alloc, before, line)
}

/// Appends a line that isn't indented further.
fn push_upper(
    out: &mut Vec<u8>,
    alloc: Global,
    before: bool,
    heads: bool,
    line: &[u8],
) -> Result<(), AllocError>
    ensures { OnOk result (out.new.items ≡ out.old.items ++ text_by before heads line.now None) }
{
    match body_of(line) {
        Some(body) => push_item(out, alloc, "- ", body),
        None => push_outer(out, alloc, before, heads, line),
    }
}

/// Appends a line.
fn push_line(
    out: &mut Vec<u8>,
    alloc: Global,
    before: bool,
    heads: bool,
    line: &[u8],
) -> Result<(), AllocError>
    ensures { OnOk result (out.new.items ≡ out.old.items ++ line_text before heads line.now) }
{
    if line.is_empty() {
        return Ok(());
    }
    match deep_body_of(line) {
        Some(body) => push_item(out, alloc, "  - ", body),
        None => push_upper(out, alloc, before, heads, line),
    }
}

fn push_lines(out: &mut Vec<u8>, alloc: Global, lines: &[&[u8]]) -> Result<(), AllocError>
    ensures { OnOk result (out.new.items ≡ out.old.items ++ lines_text false (slices lines.now)) }
{
    let mut before = false;
    let mut rest = lines;
    while let [line, after @ ..] = rest {
        push_line(out, alloc, before, is_below(after), *line)?;
        before = true;
        rest = after;
    }
    Ok(())
}

/// Appends a report as Markdown: a line below which others are indented is a heading, those are a list, and what is indented further is a
/// list in it; each begins with a sign, a space and its text. Another line is a paragraph. All texts stand in code spans, which none ends.
pub fn push_markdown(out: &mut Vec<u8>, alloc: Global, text: &[u8]) -> Result<(), AllocError>
    ensures { OnOk result (out.new.items ≡ out.old.items ++ markdown_of text.now) }
{
    let lines = lines_in(alloc, text)?;
    push_lines(out, alloc, lines.as_slice())
}
