//! Differences that no skipped file could decide.

ghost use Rattle.std.specs.Prelude.{◌≡◌, ◌++◌, ◌∷◌, [], filter, true, OnOk, IfOk};
ghost use Rattle.aa_undecided.specs.Answers.{files_deciding};
ghost use Rattle.aa_compile.specs.FileRules.{is_nil};
ghost use Rattle.aa_diff.specs.Untold.{is_decided, decided_if, decided_of};

use crate::part::Part;
use aa_differences::Difference;
use aa_model::{Label, Request};
use aa_undecided::files_deciding;
use std::alloc::{AllocError, Global};

/// Whether no skipped file of a side could decide a request at a label.
fn is_sure(
    alloc: Global,
    part: Part<'_>,
    label: Label,
    request: &Request,
) -> Result<bool, AllocError>
    ensures { IfOk result (λ b. b ≡ is_nil (files_deciding part.entry.decided.policies.now part.entry.skipped.now label request.now)) }
{
    let files = files_deciding(alloc, part.decided.policies, part.skipped, label, request)?;
    Ok(files.as_slice().is_empty())
}

/// Whether skipped files of neither side could decide a difference.
fn is_decided(
    alloc: Global,
    old: Part<'_>,
    new: Part<'_>,
    difference: &Difference,
) -> Result<bool, AllocError>
    ensures { IfOk result (λ b. b ≡ is_decided old.entry new.entry difference.now) }
{
    if !is_sure(alloc, old, difference.from, &difference.request)? {
        return Ok(false);
    }
    is_sure(alloc, new, difference.to, &difference.request)
}

/// Adds a difference, if it is so.
fn push_if_decided(
    alloc: Global,
    kept: &mut Vec<Difference>,
    old: Part<'_>,
    new: Part<'_>,
    difference: Difference,
) -> Result<(), AllocError>
    ensures { OnOk result (kept.new.items ≡ kept.old.items ++ decided_if old.entry new.entry difference) }
{
    if is_decided(alloc, old, new, &difference)? {
        kept.push(difference)?;
    }
    Ok(())
}

/// The differences that no skipped file could decide.
pub(crate) fn decided_of(
    alloc: Global,
    old: Part<'_>,
    new: Part<'_>,
    differences: Vec<Difference>,
) -> Result<Vec<Difference>, AllocError>
    ensures { IfOk result (λ kept. kept.items ≡ decided_of old.entry new.entry differences.items) }
{
    let mut kept = Vec::new(alloc);
    for difference in differences {
        push_if_decided(alloc, &mut kept, old, new, difference)?;
    }
    Ok(kept)
}
