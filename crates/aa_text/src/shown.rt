//! The line of a place with a caret below it.

ghost use Rattle.std.specs.Prelude.{◌≡◌, ◌≤◌, ◌<◌, ◌+◌, ◌-◌, ◌++◌, ◌^◌, length, flat_map, take, replicate, decimal, codes, chars, nat_lt, OnOk, IfOk, if◌then◌else◌, []};
ghost use Rattle.aa_text.specs.Excerpts.{dots, columns, below, blank, all_below, shown_from, blanks_from, aligned, behind_cut, character_end, excerpt_at, excerpt_of};

use crate::cut::{SHOWN, from_cut, last_whole, window_begin};
use crate::line::{line_at, line_offset};
use crate::place::{before, continues, place_of};
use crate::visible::push_visible;
use itoa::Buffer;
use std::alloc::{AllocError, Global};
use unicode_width::UnicodeWidthChar;

/// How wide the column of line numbers is.
const WIDTH: usize = 5;

fn push_spaces(out: &mut Vec<u8>, count: usize) -> Result<(), AllocError>
    ensures { OnOk result (out.new.items ≡ out.old.items ++ replicate count 32) }
{
    for _i in 0..count {
        out.push(b' ')?;
    }
    Ok(())
}

/// Appends a number, right-aligned.
#[tactic(auto, unfolding(crate::specs::Excerpts::aligned))]
fn push_aligned(out: &mut Vec<u8>, number: usize) -> Result<(), AllocError>
    ensures { OnOk result (out.new.items ≡ out.old.items ++ aligned number) }
{
    let mut buffer = Buffer::new();
    let digits = buffer.format(number);
    push_spaces(out, WIDTH.saturating_sub(digits.len()))?;
    out.extend_from_slice(digits.as_bytes())
}

fn dots_of(is_cut: bool) -> &'static [u8]
    ensures { result.now ≡ dots is_cut }
{
    if is_cut { ".." } else { "" }.as_bytes()
}

/// Appends what is shown of a line from this byte on.
#[tactic(auto, unfolding(crate::specs::Excerpts::shown_from))]
fn push_shown(out: &mut Vec<u8>, line: &[u8], start: usize) -> Result<(), AllocError>
    requires { start ≤ length line.now }
    ensures { OnOk result (out.new.items ≡ out.old.items ++ shown_from start line.now) }
{
    let end = start + SHOWN;
    out.extend_from_slice(dots_of(start > 0))?;
    push_visible(out, from_cut(start, before(line, last_whole(line, end))))?;
    out.extend_from_slice(dots_of(end < line.len()))
}

fn blank_of(b: u8) -> &'static [u8]
    ensures { result.now ≡ blank b }
{
    if b == b'\t' {
        return "\t".as_bytes();
    }
    if continues(b) { "" } else { " " }.as_bytes()
}

fn push_blank(out: &mut Vec<u8>, bytes: &[u8]) -> Result<(), AllocError>
    ensures { OnOk result (out.new.items ≡ out.old.items ++ flat_map blank bytes.now) }
{
    for b in bytes {
        out.extend_from_slice(blank_of(*b))?;
    }
    Ok(())
}

/// How many columns of a terminal a character takes.
fn columns_of(c: char) -> usize
    ensures { result ≡ columns c }
{
    c.width().unwrap_or(1)
}

fn push_below(out: &mut Vec<u8>, c: char) -> Result<(), AllocError>
    ensures { OnOk result (out.new.items ≡ out.old.items ++ below c) }
{
    if c == '\t' {
        out.push(b'\t')?;
        return Ok(());
    }
    push_spaces(out, columns_of(c))
}

fn push_below_text(out: &mut Vec<u8>, text: &str) -> Result<(), AllocError>
    ensures { OnOk result (out.new.items ≡ out.old.items ++ flat_map below (chars text.now)) }
{
    for c in text.chars() {
        push_below(out, c)?;
    }
    Ok(())
}

/// Appends what stands below bytes.
#[tactic(auto, using(crate::proofs::Below::below_text, crate::proofs::Below::below_others))]
fn push_all_below(out: &mut Vec<u8>, bytes: &[u8]) -> Result<(), AllocError>
    ensures { OnOk result (out.new.items ≡ out.old.items ++ all_below bytes.now) }
{
    match std::str::from_utf8(bytes) {
        Ok(text) => push_below_text(out, text),
        Err(_) => push_blank(out, bytes),
    }
}

fn margin(is_cut: bool) -> &'static [u8]
    ensures { result.now ≡ (if is_cut then codes "  " else []) }
{
    if is_cut { "  " } else { "" }.as_bytes()
}

/// Appends what stands below a line up to the caret.
#[tactic(auto, unfolding(crate::specs::Excerpts::blanks_from))]
fn push_blanks(
    out: &mut Vec<u8>,
    line: &[u8],
    start: usize,
    offset: usize,
) -> Result<(), AllocError>
    ensures { OnOk result (out.new.items ≡ out.old.items ++ blanks_from start offset line.now) }
{
    out.extend_from_slice(margin(start > 0))?;
    push_all_below(out, from_cut(start, before(line, offset)))
}

/// Appends a numbered line, and a caret below one of its bytes.
fn push_excerpt(
    out: &mut Vec<u8>,
    number: usize,
    line: &[u8],
    offset: usize,
) -> Result<(), AllocError>
    ensures { OnOk result (out.new.items ≡ out.old.items ++ excerpt_at number line.now offset) }
{
    let start = window_begin(line, offset);
    push_aligned(out, number)?;
    out.extend_from_slice(" | ".as_bytes())?;
    push_shown(out, line, start)?;
    out.extend_from_slice("\n      | ".as_bytes())?;
    push_blanks(out, line, start, offset)?;
    out.extend_from_slice("^\n".as_bytes())
}

/// The line of a byte with its number, and a caret below that byte: two lines, each with its end. Control bytes but tab are
/// shown as `?`, and so that the caret stands right whatever the width of tabs, a tab of the line stands below it too, and as many
/// spaces below each other character as it takes columns. Of a line over 160 bytes 160 are shown, from 80 before the place on, or the first or the last 160, without a character that is
/// cut, and with two dots where the line is cut. Other bytes stand as they are, also where they are no UTF-8.
pub fn excerpt(alloc: Global, text: &[u8], byte: usize) -> Result<Vec<u8>, AllocError>
    ensures { IfOk result (λ lines. lines.items ≡ excerpt_of text.now byte) }
{
    let mut out = Vec::new(alloc);
    let number = place_of(text, byte).line;
    push_excerpt(
        &mut out,
        number,
        line_at(text, byte),
        line_offset(text, byte),
    )?;
    Ok(out)
}
