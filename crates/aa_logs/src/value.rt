//! What the value of a field stands for.

ghost use Rattle.std.specs.Prelude.{◌≡◌, if◌then◌else◌, IfOk};
ghost use Rattle.std.specs.Cow.{cow_slice_items};
ghost use Rattle.aa_base.specs.Hex.{is_hex, bytes_of_hex};
ghost use Rattle.aa_logs.specs.Words.{word_data};
ghost use Rattle.aa_logs.specs.Values.{is_plain, name_in};

use crate::word::{Form, LogWord};
use aa_base::from_hex;
use std::alloc::{AllocError, Global};
use std::borrow::CowSlice;

fn is_plain(form: Form) -> bool
    ensures { result ≡ is_plain form }
{
    match form {
        Form::Plain => true,
        Form::Quoted | Form::Open | Form::Run => false,
    }
}

/// The bytes that a text of hexadecimal digits is, else the text itself.
#[tactic(auto, using(crate::proofs::Hex::of_others))]
fn plain_name<'s>(alloc: Global, text: &'s [u8]) -> Result<CowSlice<'s, u8, Global>, AllocError>
    ensures { IfOk result (λ name. cow_slice_items name ≡ (if is_hex text.entry.now then bytes_of_hex text.entry.now else text.entry.now)) }
{
    match from_hex(alloc, text)? {
        Some(bytes) => Ok(CowSlice::Owned(bytes)),
        None => Ok(CowSlice::Borrowed(text)),
    }
}

/// What the value of a field stands for that is a name. Memory is taken only for one in hexadecimal digits.
pub(crate) fn name_in<'s>(
    alloc: Global,
    word: &LogWord<'s>,
) -> Result<CowSlice<'s, u8, Global>, AllocError>
    ensures { IfOk result (λ name. cow_slice_items name ≡ name_in (word_data word.entry.now)) }
{
    if is_plain(word.form) {
        return plain_name(alloc, word.text);
    }
    Ok(CowSlice::Borrowed(word.text))
}

/// What the value of a field stands for that is a name: the bytes that an even number of hexadecimal digits without quotes are,
/// else the value itself.
pub fn name_of(alloc: Global, word: &LogWord) -> Result<Vec<u8>, AllocError>
    ensures { IfOk result (λ name. name.items ≡ name_in (word_data word.now)) }
{
    let name = name_in(alloc, word)?;
    Vec::from_slice(alloc, name.as_slice())
}
