//! How a task goes on beside files that are skipped.

ghost use Rattle.std.specs.Prelude.{◌≡◌, ◌+◌, IfOk};
ghost use Rattle.std.specs.List.{list_any};
ghost use Rattle.aa_undecided.specs.Holding.{unreads};
ghost use Rattle.aa_reachability.specs.Course.{unreads_of};
ghost use Rattle.aa_reach.specs.Doubts.{is_opened_in, is_opened, AreOpened};
ghost use Rattle.aa_command.specs.Counts.{count_of};

use aa_command::count_of;
use aa_compile::Compiled;
use aa_differences::label_is_open;
use aa_model::Label;
use aa_reachability::Course;
use aa_skipped::Skipped;
use aa_skipping::Unread;
use std::alloc::{AllocError, Global};

/// How a task goes on, and the files that are skipped.
#[derive(Clone, Copy)]
pub(crate) struct Beside<'a> {
    pub(crate) course: Course<'a>,
    pub(crate) skipped: &'a [Skipped],
}

/// What is known of the profiles of skipped files.
pub(crate) fn unreads_of<'a>(
    alloc: Global,
    skipped: &'a [Skipped],
) -> Result<Vec<&'a Unread>, AllocError>
    ensures { IfOk result (λ us. unreads_of us.items ≡ unreads skipped.entry.now) }
{
    let mut unreads = Vec::new(alloc);
    for file in skipped {
        unreads.push(&file.unread)?;
    }
    Ok(unreads)
}

/// Whether a skipped file could change what is answered at a label.
fn is_opened_in(
    alloc: Global,
    compiled: &Compiled,
    skipped: &[Skipped],
    label: Label,
) -> Result<bool, AllocError>
    ensures { IfOk result (λ b. b ≡ is_opened_in skipped.now label compiled.now) }
{
    for file in skipped {
        if label_is_open(alloc, compiled, &file.unread, label)? {
            return Ok(true);
        }
    }
    Ok(false)
}

/// The same by the one policy.
#[tactic(auto, unfolding(crate::specs::Doubts::is_opened))]
fn is_opened(
    alloc: Global,
    policies: &[Compiled],
    skipped: &[Skipped],
    label: Label,
) -> Result<bool, AllocError>
    ensures { IfOk result (λ b. b ≡ is_opened policies.now skipped.now label) }
{
    match policies.get(0) {
        Some(compiled) => is_opened_in(alloc, compiled, skipped, label),
        None => Ok(true),
    }
}

/// Of each label whether a skipped file could change what is answered there: first of that of tasks without a profile.
pub(crate) fn openings_of(
    alloc: Global,
    policies: &[Compiled],
    skipped: &[Skipped],
) -> Result<Vec<bool>, AllocError>
    ensures { IfOk result (λ os. AreOpened policies.now skipped.now (count_of policies.now + 1) os.items) }
{
    let mut openings = Vec::new(alloc);
    openings.push(is_opened(alloc, policies, skipped, Label::Unconfined(0))?)?;
    for number in 0..count_of(policies) {
        let label = Label::Confined(0, number);
        openings.push(is_opened(alloc, policies, skipped, label)?)?;
    }
    Ok(openings)
}
