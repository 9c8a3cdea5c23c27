//! Texts and numbers, appended.

ghost use Rattle.std.specs.Prelude.{◌≡◌, ◌++◌, OnOk};

use itoa::{Buffer, Integer};
use std::alloc::AllocError;

/// Appends a text.
pub fn push_text(out: &mut Vec<u8>, text: &str) -> Result<(), AllocError>
    ensures { OnOk result (out.new.items ≡ out.old.items ++ text.now) }
{
    out.extend_from_slice(text.as_bytes())
}

/// Appends a number in decimal.
pub fn push_number<I: Integer>(out: &mut Vec<u8>, number: I) -> Result<(), AllocError>
    ensures { OnOk result (out.new.items ≡ out.old.items ++ I.text number) }
{
    let mut buffer = Buffer::new();
    push_text(out, buffer.format(number))
}
