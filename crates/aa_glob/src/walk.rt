//! The walk of a text, left to right and into the values of its variables depth first. It visits each variable once, and keeps
//! its own stack.
//!
//! It ends by the bytes that it has still to read. It promises a table that knows each variable that its texts need, and that
//! none lies deeper than the table has entries. So the builder answers NoMemory only where a growth was refused.

ghost use Rattle.std.specs.Prelude.{◌≡◌, ◌≢◌, ◌<◌, ◌∷◌, IfOk, IfErr, List, ℕ, length};
ghost use Rattle.aa_glob.specs.Pieces.{Use, pieces_from};
ghost use Rattle.aa_glob.specs.Known.{IsWalked};
ghost use Rattle.aa_glob.specs.Ways.{IsWalkFault, IsWalking, pieces_left, walk_left};

use crate::pieces::{Part, next_part};
use crate::summary::{Done, variable_summary};
use crate::vars::Vars;
use aa_base::PolicyKind;
use std::alloc::Global;
use std::collections::BTreeMap;

/// A text on the way: the raw text, or a value.
#[derive(Clone, Copy, Debug)]
pub(crate) struct Step<'t> {
    /// The variable that the text is a value of.
    pub name: &'t [u8],
    /// All values of the variable.
    pub all: &'t [Vec<u8>],
    /// What is left of the text, and whether a backslash keeps its first byte.
    pub rest: &'t [u8],
    pub kept: bool,
    /// The values behind it.
    pub later: &'t [Vec<u8>],
}

/// Where a step has come to a variable: behind it if its walk is done, else before its values.
fn enter<'t>(
    vars: &'t Vars,
    done: &mut Done<'t>,
    stack: &mut Vec<Step<'t>>,
    top: Step<'t>,
    name: &'t [u8],
    behind: &'t [u8],
    keep: bool,
) -> Result<Step<'t>, PolicyKind>
    requires next { pieces_left top ≡ Use name.now ∷ pieces_from keep 0 behind.now }
    requires shorter { length behind.now < length top.rest.now }
    ensures ok { IfOk result (λ next. (raw : List ℕ) → IsWalking vars.now raw stack.old.items top.entry done.old.entries → IsWalking vars.now raw stack.new.items next done.new.entries) }
    ensures less { IfOk result (λ next. walk_left vars.now done.new.entries stack.new.items next < walk_left vars.now done.old.entries stack.old.items top.entry) }
    ensures err { IfErr result (λ e. e ≢ PolicyKind.NoMemory → (raw : List ℕ) → IsWalking vars.now raw stack.old.items top.entry done.old.entries → IsWalkFault vars.now raw e) }
{
    match done.get(name) {
        Some(Some(_)) => Ok(Step {
            rest: behind,
            kept: keep,
            ..top
        }),
        Some(None) => Err(PolicyKind::VariableCircle),
        None => {
            let values = match vars.values(name) {
                Ok(values) => values,
                Err(fault) => return Err(fault),
            };
            done.insert(name, None)?;
            stack.push(top)?;
            Ok(Step {
                name,
                all: values,
                rest: &[],
                kept: false,
                later: values,
            })
        }
    }
}

/// Walks a text, and gives the summary of each variable on the way.
pub(crate) fn walk<'t>(alloc: Global, vars: &'t Vars, raw: &'t [u8]) -> Result<Done<'t>, PolicyKind>
    ensures ok { IfOk result (λ done. IsWalked vars.now raw.now done.entries) }
    ensures err { IfErr result (λ e. e ≢ PolicyKind.NoMemory → IsWalkFault vars.now raw.now e) }
{
    let mut done: Done<'t> = BTreeMap::new(alloc);
    let mut stack: Vec<Step<'t>> = Vec::new(alloc);
    let mut top = Step {
        name: &[],
        all: &[],
        rest: raw,
        kept: false,
        later: &[],
    };
    loop {
        if let Some((part, behind, keep)) = next_part(top.rest, top.kept) {
            top = match part {
                Part::Plain(_) => Step {
                    rest: behind,
                    kept: keep,
                    ..top
                },
                Part::Broken => return Err(PolicyKind::BadPattern),
                Part::Use(name) => match enter(
                    vars, &mut done, &mut stack, top, name, behind, keep,
                ) {
                    Ok(next) => next,
                    Err(fault) => return Err(fault),
                },
            };
        } else if let Some((value, others)) = top.later.split_first() {
            top = Step {
                rest: value.as_slice(),
                kept: false,
                later: others,
                ..top
            };
        } else {
            let Some(below) = stack.pop() else {
                return Ok(done);
            };
            let summary = variable_summary(alloc, top.all, &done)?;
            done.insert(top.name, Some(summary))?;
            top = below;
        }
    }
}
