//! By what a claim is broken at unclean paths alone, as it is printed.

ghost use Rattle.std.specs.Prelude.{◌≡◌, ◌++◌, codes, map, flat_map, OnOk};
ghost use Rattle.aa_text.specs.Jsons.{member_text, list_text};
ghost use Rattle.aa_assert.specs.Findings.{found};
ghost use Rattle.aa_assert.specs.Shown.{only_text, apart_text};
ghost use Rattle.aa_assert.specs.Json.{json_found, json_apart};

use crate::finding::Finding;
use crate::shown::push_by;
use aa_text::{push_list_member, push_number, push_text, push_visible};
use std::alloc::{AllocError, Global};

#[tactic(auto, unfolding(crate::specs::Shown::only_text))]
fn push_only(out: &mut Vec<u8>, path: &[u8], number: usize) -> Result<(), AllocError>
    ensures { OnOk result (out.new.items ≡ out.old.items ++ only_text path.now number) }
{
    push_visible(out, path)?;
    push_text(out, ":")?;
    push_number(out, number)?;
    push_text(out, ": only at unclean paths: ")
}

fn push_finding(
    out: &mut Vec<u8>,
    alloc: Global,
    path: &[u8],
    number: usize,
    finding: &Finding,
) -> Result<(), AllocError>
    ensures { OnOk result (out.new.items ≡ out.old.items ++ apart_text path.now number (found finding.now)) }
{
    push_only(out, path, number)?;
    push_by(out, alloc, finding)
}

/// Appends by what the claim on a line is broken at unclean paths alone, with the rules.
pub(crate) fn push_apart(
    out: &mut Vec<u8>,
    alloc: Global,
    path: &[u8],
    number: usize,
    findings: &[Finding],
) -> Result<(), AllocError>
    ensures { OnOk result (out.new.items ≡ out.old.items ++ flat_map (apart_text path.now number) (map found findings.now)) }
{
    for finding in findings {
        push_finding(out, alloc, path, number, finding)?;
    }
    Ok(())
}

fn push_unclean(out: &mut Vec<u8>, alloc: Global, list: &[Finding]) -> Result<(), AllocError>
    ensures { OnOk result (out.new.items ≡ out.old.items ++ member_text (codes "unclean") (list_text (map json_found (map found list.now)))) }
{
    push_list_member(out, alloc, "unclean", list)?;
    Ok(())
}

/// Appends the same as a member of an object, if there is some.
pub(crate) fn push_apart_member(
    out: &mut Vec<u8>,
    alloc: Global,
    list: &[Finding],
) -> Result<(), AllocError>
    ensures { OnOk result (out.new.items ≡ out.old.items ++ json_apart (map found list.now)) }
{
    match list {
        [] => Ok(()),
        [_, ..] => push_unclean(out, alloc, list),
    }
}
