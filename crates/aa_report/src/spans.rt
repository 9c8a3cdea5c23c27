//! Code spans of Markdown, which no text in them ends.

ghost use Rattle.std.specs.Prelude.{◌≡◌, ◌++◌, ◌==◌, codes, flat_map, OnOk, IfOk};
ghost use Rattle.std.specs.List.{list_any};
ghost use Rattle.aa_report.specs.Spans.{tick_if, fence, is_blank_first, is_padded, pad, span, shown_span};

use aa_text::{push_text, push_visible};
use std::alloc::{AllocError, Global};

fn push_tick_if(out: &mut Vec<u8>, byte: u8) -> Result<(), AllocError>
    ensures { OnOk result (out.new.items ≡ out.old.items ++ tick_if byte) }
{
    if byte == b'`' {
        out.push(byte)?;
    }
    Ok(())
}

fn push_ticks(out: &mut Vec<u8>, text: &[u8]) -> Result<(), AllocError>
    ensures { OnOk result (out.new.items ≡ out.old.items ++ flat_map tick_if text.now) }
{
    for byte in text {
        push_tick_if(out, *byte)?;
    }
    Ok(())
}

/// Appends what stands before and behind a text.
#[tactic(auto, unfolding(crate::specs::Spans::fence))]
fn push_fence(out: &mut Vec<u8>, text: &[u8]) -> Result<(), AllocError>
    ensures { OnOk result (out.new.items ≡ out.old.items ++ fence text.now) }
{
    push_ticks(out, text)?;
    push_text(out, "`")
}

fn is_blank_first(text: &[u8]) -> bool
    ensures { result ≡ is_blank_first text.now }
{
    match text {
        [first, ..] => *first == b' ',
        [] => true,
    }
}

fn has_tick(text: &[u8]) -> bool
    ensures { result ≡ list_any (λ b. b == 96) text.now }
{
    text.iter().any(|byte| *byte == b'`')
}

/// Whether a space, which isn't read, stands between a text and what stands before and behind it.
fn is_padded(text: &[u8]) -> bool
    ensures { result ≡ is_padded text.now }
{
    is_blank_first(text) || has_tick(text)
}

fn pad(text: &[u8]) -> &'static str
    ensures { result.now ≡ pad text.now }
{
    if is_padded(text) { " " } else { "" }
}

/// Appends a text as a code span.
#[tactic(auto, unfolding(crate::specs::Spans::span))]
fn push_span(out: &mut Vec<u8>, text: &[u8]) -> Result<(), AllocError>
    ensures { OnOk result (out.new.items ≡ out.old.items ++ span text.now) }
{
    push_fence(out, text)?;
    push_text(out, pad(text))?;
    out.extend_from_slice(text)?;
    push_text(out, pad(text))?;
    push_fence(out, text)
}

/// Appends bytes as they are shown, each control byte but tab as `?`, as a code span.
pub(crate) fn push_shown_span(
    out: &mut Vec<u8>,
    alloc: Global,
    bytes: &[u8],
) -> Result<(), AllocError>
    ensures { OnOk result (out.new.items ≡ out.old.items ++ shown_span bytes.now) }
{
    let mut text = Vec::new(alloc);
    push_visible(&mut text, bytes)?;
    push_span(out, text.as_slice())
}
