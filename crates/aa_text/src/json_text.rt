//! JSON texts.

ghost use Rattle.std.specs.Prelude.{◌≡◌, ◌++◌, OnOk};
ghost use Rattle.std.specs.Str.{is_utf8};
ghost use Rattle.aa_text.specs.Jsons.{json_text, in_digits, json_bytes, key_text, bool_text};

use crate::text::push_text;
use aa_base::push_small_hex;
use serde_json::Value;
use std::alloc::{AllocError, Global};

/// Appends a text as JSON has it.
#[tactic(auto, unfolding(crate::specs::Jsons::json_text))]
pub fn push_json_text(out: &mut Vec<u8>, alloc: Global, text: &str) -> Result<(), AllocError>
    ensures { OnOk result (out.new.items ≡ out.old.items ++ json_text text.now) }
{
    let value = Value::String(String::from_str(alloc, text)?);
    let bytes = value.to_vec(alloc)?;
    out.extend_from_slice(bytes.as_slice())
}

/// Whether bytes are UTF-8.
#[tactic(auto, using(crate::proofs::Utf8::is_text, crate::proofs::Utf8::is_no_text))]
pub fn is_text(bytes: &[u8]) -> bool
    ensures { result ≡ is_utf8 bytes.now }
{
    match std::str::from_utf8(bytes) {
        Ok(_) => true,
        Err(_) => false,
    }
}

/// Appends an object with the hexadecimal digits of bytes.
#[tactic(auto, unfolding(crate::specs::Jsons::in_digits))]
fn push_digits(out: &mut Vec<u8>, bytes: &[u8]) -> Result<(), AllocError>
    ensures { OnOk result (out.new.items ≡ out.old.items ++ in_digits bytes.now) }
{
    push_text(out, "{\"hex\":\"")?;
    push_small_hex(out, bytes)?;
    push_text(out, "\"}")
}

/// Appends bytes as a JSON text, or where they are no UTF-8, as an object with their hexadecimal digits.
#[tactic(auto, using(crate::proofs::Utf8::json_of_text, crate::proofs::Utf8::json_of_others))]
pub fn push_json_bytes(out: &mut Vec<u8>, alloc: Global, bytes: &[u8]) -> Result<(), AllocError>
    ensures { OnOk result (out.new.items ≡ out.old.items ++ json_bytes bytes.now) }
{
    match std::str::from_utf8(bytes) {
        Ok(text) => push_json_text(out, alloc, text),
        Err(_) => push_digits(out, bytes),
    }
}

/// Appends a member's key and its colon.
#[tactic(auto, unfolding(crate::specs::Jsons::key_text))]
pub fn push_key(out: &mut Vec<u8>, key: &str) -> Result<(), AllocError>
    ensures { OnOk result (out.new.items ≡ out.old.items ++ key_text key.now) }
{
    push_text(out, "\"")?;
    push_text(out, key)?;
    push_text(out, "\":")
}

/// Appends `true` or `false`.
pub fn push_bool(out: &mut Vec<u8>, value: bool) -> Result<(), AllocError>
    ensures { OnOk result (out.new.items ≡ out.old.items ++ bool_text value) }
{
    push_text(out, if value { "true" } else { "false" })
}
