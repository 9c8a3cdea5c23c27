//! Upper-case hexadecimal digits.

ghost use Rattle.std.specs.Prelude.{◌≡◌, nat_lt};
ghost use Rattle.std.specs.List.{list_all};
ghost use Rattle.aa_notation.specs.Read.{hex_in, Reads};

use crate::read::WordFault;
use std::alloc::Global;

fn has_no_small_letter(text: &[u8]) -> bool
    ensures { result ≡ list_all (λ b. nat_lt b 97) text.now }
{
    text.iter().all(|b| *b < b'a')
}

/// The bytes that some digits are, two for each.
pub(crate) fn from_hex(alloc: Global, text: &[u8]) -> Result<Vec<u8>, WordFault>
    ensures { Reads (λ bytes. bytes.items) result (hex_in text.now) }
{
    if text.is_empty() || !has_no_small_letter(text) {
        return Err(WordFault::NoRequest);
    }
    match aa_base::from_hex(alloc, text)? {
        Some(bytes) => Ok(bytes),
        None => Err(WordFault::NoRequest),
    }
}
