//! What people are told of the files that are skipped.

ghost use Rattle.std.specs.Prelude.{◌≡◌, ◌++◌, codes, flat_map, OnOk, IfOk};
ghost use Rattle.aa_text.specs.Visible.{all_visible};
ghost use Rattle.aa_command.specs.Printed.{printed};
ghost use Rattle.aa_skipped.specs.Telling.{listed_head, listed_heads, what_is_known, skipped_words, skipped_line, skipped_text, behind_skipped, count_text};

use crate::skipped::Skipped;
use aa_command::Output;
use aa_skipping::{Head, Unread};
use aa_text::{push_fault, push_name, push_number, push_text, push_visible};
use std::alloc::{AllocError, Global};

fn push_head(out: &mut Vec<u8>, alloc: Global, head: &Head) -> Result<(), AllocError>
    ensures { OnOk result (out.new.items ≡ out.old.items ++ listed_head head.now) }
{
    push_text(out, " ")?;
    push_name(out, alloc, head.name.as_slice())
}

fn push_each_head(out: &mut Vec<u8>, alloc: Global, heads: &[Head]) -> Result<(), AllocError>
    ensures { OnOk result (out.new.items ≡ out.old.items ++ flat_map listed_head heads.now) }
{
    for head in heads {
        push_head(out, alloc, head)?;
    }
    Ok(())
}

#[tactic(auto, unfolding(crate::specs::Telling::listed_heads))]
fn push_heads(out: &mut Vec<u8>, alloc: Global, heads: &[Head]) -> Result<(), AllocError>
    ensures { OnOk result (out.new.items ≡ out.old.items ++ listed_heads heads.now) }
{
    push_number(out, heads.len())?;
    push_text(out, " profiles")?;
    push_each_head(out, alloc, heads)
}

/// Appends which profiles a file seems to hold.
fn push_known(out: &mut Vec<u8>, alloc: Global, unread: &Unread) -> Result<(), AllocError>
    ensures { OnOk result (out.new.items ≡ out.old.items ++ what_is_known unread.now) }
{
    if unread.others {
        return push_text(out, "any profiles");
    }
    push_heads(out, alloc, unread.heads.as_slice())
}

#[tactic(auto, unfolding(crate::specs::Telling::skipped_words))]
fn push_words(out: &mut Vec<u8>) -> Result<(), AllocError>
    ensures { OnOk result (out.new.items ≡ out.old.items ++ skipped_words) }
{
    push_text(out, " is skipped: ")
}

/// Appends the path of a file that is skipped.
fn push_path(out: &mut Vec<u8>, path: &[u8]) -> Result<(), AllocError>
    ensures { OnOk result (out.new.items ≡ out.old.items ++ (codes "warning: " ++ (all_visible path.now ++ skipped_words))) }
{
    push_text(out, "warning: ")?;
    push_visible(out, path)?;
    push_words(out)
}

/// Appends that a file is skipped.
#[tactic(auto, unfolding(crate::specs::Telling::skipped_line))]
fn push_line(out: &mut Vec<u8>, alloc: Global, skipped: &Skipped) -> Result<(), AllocError>
    ensures { OnOk result (out.new.items ≡ out.old.items ++ skipped_line skipped.now) }
{
    push_path(out, skipped.path.as_slice())?;
    push_known(out, alloc, &skipped.unread)?;
    push_text(out, "\n")
}

/// Appends why a file is skipped, and that it is.
#[tactic(auto, unfolding(crate::specs::Telling::skipped_text))]
fn push_skipped(out: &mut Vec<u8>, alloc: Global, skipped: &Skipped) -> Result<(), AllocError>
    ensures { OnOk result (out.new.items ≡ out.old.items ++ skipped_text skipped.now) }
{
    push_fault(out, &skipped.fault)?;
    push_line(out, alloc, skipped)
}

fn push_all(out: &mut Vec<u8>, alloc: Global, skipped: &[Skipped]) -> Result<(), AllocError>
    ensures { OnOk result (out.new.items ≡ out.old.items ++ flat_map skipped_text skipped.now) }
{
    for one in skipped {
        push_skipped(out, alloc, one)?;
    }
    Ok(())
}

/// What is printed, behind the fault of each file that is skipped, and what its heads tell of its profiles.
pub fn behind_skipped(alloc: Global, skipped: &[Skipped], own: Output) -> Result<Output, AllocError>
    ensures { IfOk result (λ out. printed out ≡ behind_skipped skipped.now (printed own)) }
{
    let mut faults = Vec::new(alloc);
    push_all(&mut faults, alloc, skipped)?;
    faults.extend_from_slice(own.faults.as_slice())?;
    Ok(Output {
        answers: own.answers,
        faults,
        refusal: own.refusal,
        status: own.status,
    })
}

/// Appends how many files are skipped, where some are.
pub fn push_skipped_count(out: &mut Vec<u8>, count: usize) -> Result<(), AllocError>
    ensures { OnOk result (out.new.items ≡ out.old.items ++ count_text count) }
{
    if count == 0 {
        return Ok(());
    }
    push_number(out, count)?;
    push_text(out, " files skipped\n")
}
