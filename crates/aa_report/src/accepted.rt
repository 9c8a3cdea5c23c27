//! Findings that are accepted.

ghost use Rattle.std.specs.Prelude.{◌≡◌, ◌++◌, flat_map, OnOk};
ghost use Rattle.aa_files.specs.Texts.{texts, slices};
ghost use Rattle.aa_report.specs.Accepted.{gone_text, gone_if, all_gone};
ghost use Rattle.aa_report.specs.Sets.{AreIn};

use crate::lines::slices_of;
use crate::sets::{is_among, lines_as_set};
use aa_text::{push_text, push_visible};
use std::alloc::{AllocError, Global};
use std::collections::HashMap;

#[tactic(auto, unfolding(crate::specs::Accepted::gone_text))]
fn push_gone(out: &mut Vec<u8>, line: &[u8]) -> Result<(), AllocError>
    ensures { OnOk result (out.new.items ≡ out.old.items ++ gone_text line.now) }
{
    push_text(out, "warning: accepted and not found: ")?;
    push_visible(out, line)?;
    push_text(out, "\n")
}

/// Appends that the finding of a line isn't found, where so it is.
fn push_gone_if(
    out: &mut Vec<u8>,
    set: &HashMap<Vec<u8>, usize>,
    found: &[&[u8]],
    line: &[u8],
) -> Result<(), AllocError>
    requires { AreIn set.now (slices found.now) }
    ensures { OnOk result (out.new.items ≡ out.old.items ++ gone_if (slices found.now) line.now) }
{
    if is_among(set, found, line) {
        return Ok(());
    }
    push_gone(out, line)
}

fn push_each_gone(
    out: &mut Vec<u8>,
    set: &HashMap<Vec<u8>, usize>,
    found: &[&[u8]],
    lines: &[&[u8]],
) -> Result<(), AllocError>
    requires { AreIn set.now (slices found.now) }
    ensures { OnOk result (out.new.items ≡ out.old.items ++ flat_map (gone_if (slices found.now)) (slices lines.now)) }
{
    for line in lines {
        push_gone_if(out, set, found, *line)?;
    }
    Ok(())
}

/// Appends of which lines the finding isn't among these.
pub fn push_all_gone(
    out: &mut Vec<u8>,
    alloc: Global,
    found: &[Vec<u8>],
    lines: &[&[u8]],
) -> Result<(), AllocError>
    ensures { OnOk result (out.new.items ≡ out.old.items ++ all_gone (texts found.now) (slices lines.now)) }
{
    let those = slices_of(alloc, found)?;
    let set = lines_as_set(alloc, those.as_slice())?;
    push_each_gone(out, &set, those.as_slice(), lines)
}
