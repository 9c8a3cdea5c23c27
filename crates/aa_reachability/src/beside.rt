//! How a task goes on, where profiles that weren't read could change what is answered.

ghost use Rattle.std.specs.Prelude.{◌≡◌, List, map, true, false, not, IfOk};
ghost use Rattle.std.specs.Borrow.{Bor};
ghost use Rattle.std.specs.List.{list_any};
ghost use Rattle.aa_skipping.specs.declared.unread.Unread.{Unread};
ghost use Rattle.aa_skipping.specs.Undecided.{undecided};
ghost use Rattle.aa_reachability.specs.Granted.{IsGranted};
ghost use Rattle.aa_reachability.specs.Moves.{is_left_out};
ghost use Rattle.aa_reachability.specs.Beside.{one_doubts, is_doubted, number_of, is_sure};
ghost use Rattle.aa_reachability.specs.Course.{unreads_of, label_on};

use crate::going::{Going, label_at};
use aa_compile::Compiled;
use aa_model::{Label, Request};
use aa_skipping::{Unread, is_undecided};
use aa_unclean_paths::is_at_unclean_path;
use std::alloc::{AllocError, Global};

/// How a task goes on, and what isn't known of the policies: a request of which that could change the answer leads nowhere.
#[derive(Clone, Copy)]
pub struct Course<'p> {
    pub going: Going<'p>,
    /// Profiles that weren't read, file by file.
    pub unreads: &'p [&'p Unread],
    /// Whether they could change an answer at a label: first at that of tasks without a profile, then at that of each profile.
    pub openings: &'p [bool],
    /// Whether requests at unclean paths lead nowhere too.
    pub only_clean: bool,
}

/// Whether profiles of one of the files could change what is answered to a request.
fn one_doubts(
    alloc: Global,
    compiled: &Compiled,
    unreads: &[&Unread],
    label: Label,
    request: &Request,
) -> Result<bool, AllocError>
    ensures { IfOk result (λ b. b ≡ list_any (λ (u : Bor Unread). undecided compiled.now.profiles u.now label request.now) unreads.now) }
{
    for unread in unreads {
        if is_undecided(alloc, compiled, unread, label, request)? {
            return Ok(true);
        }
    }
    Ok(false)
}

/// Whether profiles that weren't read could change what is answered to a request.
pub fn is_doubted(
    alloc: Global,
    course: Course<'_>,
    label: Label,
    request: &Request,
) -> Result<bool, AllocError>
    ensures { IfOk result (λ b. b ≡ is_doubted course.entry.going.policies.now (unreads_of course.entry.unreads.now) label request.now) }
{
    match course.going.policies.get(0) {
        Some(compiled) => one_doubts(alloc, compiled, course.unreads, label, request),
        None => Ok(false),
    }
}

fn number_of(label: Label) -> usize
    ensures { result ≡ number_of label }
{
    match label {
        Label::Unconfined(_) => 0,
        Label::Confined(_, number) => number as usize + 1,
    }
}

/// Whether profiles that weren't read could change no answer at a label.
pub fn is_sure(course: Course<'_>, label: Label) -> bool
    ensures { result ≡ is_sure (unreads_of course.entry.unreads.now) course.entry.openings.now label }
{
    if course.unreads.is_empty() {
        return true;
    }
    match course.openings.get(number_of(label)) {
        Some(opens) => !*opens,
        None => false,
    }
}

/// The same as `is_doubted`, where no request may be doubted at the label at all.
fn is_doubted_there(
    alloc: Global,
    course: Course<'_>,
    label: Label,
    request: &Request,
    are_sure: bool,
) -> Result<bool, AllocError>
    requires { are_sure ≡ true → is_doubted course.going.policies.now (unreads_of course.unreads.now) label request.now ≡ false }
    ensures { IfOk result (λ b. b ≡ is_doubted course.entry.going.policies.now (unreads_of course.entry.unreads.now) label request.now) }
{
    if are_sure {
        return Ok(false);
    }
    is_doubted(alloc, course, label, request)
}

/// Whether a request is at an unclean path, and clean ones alone count.
fn is_left_out(only_clean: bool, request: &Request) -> bool
    ensures { result ≡ is_left_out only_clean request.now }
{
    only_clean && is_at_unclean_path(request)
}

/// The label of a task after a request: this one, where profiles that weren't read could change what is answered, or where clean paths alone
/// count and it is at an unclean one. It may be known that they couldn't, and that rules grant the change that is asked for.
pub(crate) fn label_on(
    alloc: Global,
    course: Course<'_>,
    label: Label,
    request: &Request,
    is_granted: bool,
    are_sure: bool,
) -> Result<Label, AllocError>
    requires granted { is_granted ≡ true → IsGranted course.going.policies.now label request.now }
    requires sure { are_sure ≡ true → is_doubted course.going.policies.now (unreads_of course.unreads.now) label request.now ≡ false }
    ensures { IfOk result (λ l. l ≡ label_on course.entry label request.now) }
{
    if is_left_out(course.only_clean, request) {
        return Ok(label);
    }
    if is_doubted_there(alloc, course, label, request, are_sure)? {
        Ok(label)
    } else {
        Ok(label_at(course.going, label, request, is_granted))
    }
}
