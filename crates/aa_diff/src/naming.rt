//! Names that no profile has.

ghost use Rattle.std.specs.Prelude.{◌≡◌, option_map, IfOk};
ghost use Rattle.aa_files.specs.Texts.{texts};
ghost use Rattle.aa_ask.specs.Asked.{no_profile};
ghost use Rattle.aa_diff.specs.Naming.{is_on_side, is_called, is_named_so, unnamed};

use crate::part::Part;
use crate::untold::files_holding;
use aa_ask::name_in_digits;
use aa_passed_over::number_named;
use aa_text::{push_text, push_visible};
use std::alloc::{AllocError, Global};

/// Whether a profile of a side has that name, or one of a skipped file may.
fn is_on_side(alloc: Global, part: Part<'_>, name: &[u8]) -> Result<bool, AllocError>
    ensures { IfOk result (λ is. is ≡ is_on_side part.entry name.now) }
{
    if number_named(part.decided.policies, name).is_some() {
        return Ok(true);
    }
    let files = files_holding(alloc, part, name)?;
    Ok(!files.as_slice().is_empty())
}

/// Whether somebody is called so on one of the sides.
fn is_called(alloc: Global, old: Part<'_>, new: Part<'_>, name: &[u8]) -> Result<bool, AllocError>
    ensures { IfOk result (λ is. is ≡ is_called old.entry new.entry name.now) }
{
    if name == "unconfined".as_bytes() {
        return Ok(true);
    }
    if is_on_side(alloc, old, name)? {
        return Ok(true);
    }
    is_on_side(alloc, new, name)
}

/// The same, or by the name that stands so in hexadecimal digits.
fn is_named_so(alloc: Global, old: Part<'_>, new: Part<'_>, name: &[u8]) -> Result<bool, AllocError>
    ensures { IfOk result (λ is. is ≡ is_named_so old.entry new.entry name.now) }
{
    if is_called(alloc, old, new, name)? {
        return Ok(true);
    }
    match name_in_digits(alloc, name)? {
        Some(name) => is_called(alloc, old, new, name.as_slice()),
        None => Ok(false),
    }
}

/// The first of some names by which nobody is called.
pub(crate) fn unnamed<'n>(
    alloc: Global,
    old: Part<'_>,
    new: Part<'_>,
    names: &'n [Vec<u8>],
) -> Result<Option<&'n [u8]>, AllocError>
    ensures { IfOk result (λ name. option_map (λ n. n.now) name ≡ unnamed old.entry new.entry (texts names.entry.now)) }
{
    let mut rest = names;
    while let [name, after @ ..] = rest {
        if !is_named_so(alloc, old, new, name.as_slice())? {
            return Ok(Some(name.as_slice()));
        }
        rest = after;
    }
    Ok(None)
}

/// What is said of such a name.
pub(crate) fn no_profile(alloc: Global, name: &[u8]) -> Result<Vec<u8>, AllocError>
    ensures { IfOk result (λ line. line.items ≡ no_profile name.now) }
{
    let mut line = Vec::new(alloc);
    push_text(&mut line, "error: no profile is called ")?;
    push_visible(&mut line, name)?;
    push_text(&mut line, "\n")?;
    Ok(line)
}
