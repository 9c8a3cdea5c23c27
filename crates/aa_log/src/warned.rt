//! What is warned of besides.

ghost use Rattle.std.specs.Prelude.{◌≡◌, ◌++◌, map, codes, OnOk};
ghost use Rattle.aa_log.specs.Printed.{labelled, place_text};
ghost use Rattle.aa_log.specs.Said.{unclear_line, unclear_text};

use crate::logging::LinePlace;
use crate::printing::{push_count, push_line_place};
use crate::said::SaidReport;
use aa_text::push_text;
use std::alloc::AllocError;

fn push_unclear_count(out: &mut Vec<u8>, count: u64) -> Result<(), AllocError>
    ensures { OnOk result (out.new.items ≡ out.old.items ++ labelled (codes "warning: lines that aren't understood: ") count) }
{
    push_count(out, "warning: lines that aren't understood: ", count)
}

#[tactic(auto, unfolding(crate::specs::Said::unclear_line))]
fn push_unclear_line(
    out: &mut Vec<u8>,
    logs: &[&[u8]],
    count: u64,
    first: &LinePlace,
) -> Result<(), AllocError>
    ensures { OnOk result (out.new.items ≡ out.old.items ++ unclear_line (map (λ log. log.now) logs.now) count first.now) }
{
    push_unclear_count(out, count)?;
    push_text(out, ", the first at ")?;
    push_line_place(out, logs, first)?;
    push_text(out, "\n")
}

/// Appends how many lines aren't understood, and where the first is, where there are some.
pub fn push_unclear(
    out: &mut Vec<u8>,
    logs: &[&[u8]],
    said: &SaidReport<'_>,
) -> Result<(), AllocError>
    ensures { OnOk result (out.new.items ≡ out.old.items ++ unclear_text (map (λ log. log.now) logs.now) said.now) }
{
    match &said.first_unclear {
        Some(first) => push_unclear_line(out, logs, said.unclear, first),
        None => Ok(()),
    }
}
