//! Texts as HTML has them.

ghost use Rattle.std.specs.Prelude.{◌≡◌, ◌++◌, flat_map, OnOk};
ghost use Rattle.aa_page.specs.Escaped.{escaped_byte, escaped, shown, code_text};

use aa_text::{push_text, push_visible};
use std::alloc::{AllocError, Global};

/// Appends a byte, by its reference where it could begin or end a tag, a reference or an attribute's value.
fn push_byte(out: &mut Vec<u8>, byte: u8) -> Result<(), AllocError>
    ensures { OnOk result (out.new.items ≡ out.old.items ++ escaped_byte byte) }
{
    match byte {
        b'<' => push_text(out, "&lt;"),
        b'>' => push_text(out, "&gt;"),
        b'&' => push_text(out, "&amp;"),
        b'"' => push_text(out, "&quot;"),
        b'\'' => push_text(out, "&#39;"),
        _ => {
            out.push(byte)?;
            Ok(())
        }
    }
}

/// Appends a text as it stands between tags, or between the quotes of an attribute.
#[tactic(auto, unfolding(crate::specs::Escaped::escaped))]
fn push_escaped(out: &mut Vec<u8>, text: &[u8]) -> Result<(), AllocError>
    ensures { OnOk result (out.new.items ≡ out.old.items ++ escaped text.now) }
{
    for byte in text {
        push_byte(out, *byte)?;
    }
    Ok(())
}

/// Appends bytes as they are shown, each control byte but tab as `?`. Bytes that are no UTF-8 stand as they are.
pub fn push_shown(out: &mut Vec<u8>, alloc: Global, bytes: &[u8]) -> Result<(), AllocError>
    ensures { OnOk result (out.new.items ≡ out.old.items ++ shown bytes.now) }
{
    let mut text = Vec::new(alloc);
    push_visible(&mut text, bytes)?;
    push_escaped(out, text.as_slice())
}

/// Appends bytes as they are shown, as a piece of a policy or of a command line.
#[tactic(auto, unfolding(crate::specs::Escaped::code_text))]
pub fn push_code(out: &mut Vec<u8>, alloc: Global, bytes: &[u8]) -> Result<(), AllocError>
    ensures { OnOk result (out.new.items ≡ out.old.items ++ code_text bytes.now) }
{
    push_text(out, "<code>")?;
    push_shown(out, alloc, bytes)?;
    push_text(out, "</code>")
}
