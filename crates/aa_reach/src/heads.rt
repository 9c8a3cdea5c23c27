//! Names that profiles of skipped files may have.

ghost use Rattle.std.specs.Prelude.{◌≡◌, ◌++◌, codes, IfOk};
ghost use Rattle.std.specs.List.{list_any};
ghost use Rattle.aa_reach.specs.Heads.{may_be, may_hold, one_may_hold};
ghost use Rattle.aa_ask.specs.Wildcards.{stands_for, may_stand_for};

use aa_ask::{may_stand_for, stands_for};
use aa_skipped::Skipped;
use aa_skipping::Head;
use std::alloc::{AllocError, Global};

/// The front of the full names of a profile's children.
fn front_of(alloc: Global, head: &Head) -> Result<Vec<u8>, AllocError>
    ensures { IfOk result (λ front. front.items ≡ head.now.name ++ codes "//") }
{
    let mut front = Vec::from_slice(alloc, head.name.as_slice())?;
    front.extend_from_slice(b"//")?;
    Ok(front)
}

/// Whether a profile with that head, or a child of it, may have a name for which the text stands.
fn may_be(alloc: Global, text: &[u8], head: &Head) -> Result<bool, AllocError>
    ensures { IfOk result (λ may. may ≡ may_be text.now head.now) }
{
    if stands_for(alloc, text, head.name.as_slice())? {
        return Ok(true);
    }
    may_stand_for(alloc, text, front_of(alloc, head)?.as_slice())
}

fn one_may_be(alloc: Global, text: &[u8], heads: &[Head]) -> Result<bool, AllocError>
    ensures { IfOk result (λ may. may ≡ list_any (may_be text.now) heads.now) }
{
    for head in heads {
        if may_be(alloc, text, head)? {
            return Ok(true);
        }
    }
    Ok(false)
}

/// Whether a skipped file may hold a profile that a text names.
pub(crate) fn may_hold(alloc: Global, text: &[u8], file: &Skipped) -> Result<bool, AllocError>
    ensures { IfOk result (λ may. may ≡ may_hold text.now file.now) }
{
    if file.unread.others {
        return Ok(true);
    }
    one_may_be(alloc, text, file.unread.heads.as_slice())
}

/// Whether one of the skipped files may.
pub(crate) fn one_may_hold(
    alloc: Global,
    text: &[u8],
    skipped: &[Skipped],
) -> Result<bool, AllocError>
    ensures { IfOk result (λ may. may ≡ one_may_hold text.now skipped.now) }
{
    for file in skipped {
        if may_hold(alloc, text, file)? {
            return Ok(true);
        }
    }
    Ok(false)
}
