//! What is found of all profiles.

ghost use Rattle.std.specs.Prelude.{◌≡◌, ◌<◌, ◌≤◌, IfOk, OnOk};
ghost use Rattle.aa_pattern.specs.Limits.{most_states};
ghost use Rattle.aa_files.specs.Texts.{texts};
ghost use Rattle.aa_load.specs.UnitPolicy.{limit_of};
ghost use Rattle.aa_findings.specs.Below.{AreAttached};
ghost use Rattle.aa_lint.specs.Lint.{lint_data, with_found, with_untold, AddsWhy, AddsOf, AddsLint, AreTold};
ghost use Rattle.aa_command.specs.Counts.{count_of};

use crate::telling::push_all_told;
use crate::told::Told;
use crate::untold::untold_of;
use aa_command::{Decided, Untold, count_of};
use aa_compile::{first_profiles, profile_of};
use aa_findings::{Attached, Finding, FindingsFault, attached_of, findings_of};
use aa_model::Profile;
use std::alloc::{AllocError, Global};

/// How many states an automaton may have.
fn limit_of(states: u32) -> usize
    ensures is { result ≡ limit_of states }
    ensures some { 0 < result }
    ensures bounded { result ≤ most_states }
{
    states.max(1).min(1_000_000) as usize
}

/// What is found of all profiles, and those of which nothing can be.
#[derive(Drop)]
pub(crate) struct Lint {
    pub(crate) told: Vec<Told>,
    pub(crate) untold: Vec<Untold>,
}

/// Adds what is found of a profile, but for what is left out.
fn push_found(
    lint: &mut Lint,
    alloc: Global,
    decided: Decided<'_>,
    except: &[Vec<u8>],
    number: u16,
    profile: &Profile,
    findings: &[Finding],
) -> Result<(), AllocError>
    ensures { OnOk result (lint_data lint.new ≡ with_found decided.entry (texts except.now) number profile.now findings.now (lint_data lint.old)) }
{
    let profiles = first_profiles(decided.policies);
    let number = number as usize;
    push_all_told(
        &mut lint.told,
        alloc,
        decided,
        except,
        profiles,
        number,
        profile,
        findings,
    )
}

/// Adds that nothing can be found of a profile, and why.
fn push_untold(
    lint: &mut Lint,
    alloc: Global,
    profile: &Profile,
    why: &str,
) -> Result<(), AllocError>
    ensures { OnOk result (lint_data lint.new ≡ with_untold profile.now why.now (lint_data lint.old)) }
{
    lint.untold
        .push(untold_of(alloc, profile.name.as_slice(), why)?)?;
    Ok(())
}

/// Adds why nothing can be found of a profile.
fn push_unfound(
    lint: &mut Lint,
    alloc: Global,
    profile: &Profile,
    fault: FindingsFault,
) -> Result<(), AllocError>
    ensures { OnOk result (AddsWhy profile.now fault (lint_data lint.old) (lint_data lint.new)) }
{
    match fault {
        FindingsFault::NoMemory => Err(AllocError),
        FindingsFault::TooManyPatterns => push_untold(
            lint,
            alloc,
            profile,
            "there are more than 65535 patterns",
        ),
        FindingsFault::TooManyStates => push_untold(
            lint,
            alloc,
            profile,
            "its patterns need too many states together; --states allows more",
        ),
    }
}

/// Adds what is found of a profile, or why nothing can be.
fn push_lint(
    lint: &mut Lint,
    alloc: Global,
    decided: Decided<'_>,
    attached: &Attached,
    limit: usize,
    except: &[Vec<u8>],
    number: u16,
    profile: &Profile,
) -> Result<(), AllocError>
    requires some { 0 < limit }
    requires bounded { limit ≤ most_states }
    requires attached { AreAttached decided.policies.now limit attached.now }
    ensures { OnOk result (AddsOf decided.entry limit (texts except.now) number profile.now (lint_data lint.old) (lint_data lint.new)) }
{
    match findings_of(alloc, decided.policies, attached, number, limit) {
        Ok(findings) => {
            push_found(
                lint,
                alloc,
                decided,
                except,
                number,
                profile,
                findings.as_slice(),
            )?;
            Ok(())
        }
        Err(fault) => {
            push_unfound(lint, alloc, profile, fault)?;
            Ok(())
        }
    }
}

/// The same of the profile with that number, if it is there.
fn push_lint_at(
    lint: &mut Lint,
    alloc: Global,
    decided: Decided<'_>,
    attached: &Attached,
    limit: usize,
    except: &[Vec<u8>],
    number: u16,
) -> Result<(), AllocError>
    requires some { 0 < limit }
    requires bounded { limit ≤ most_states }
    requires attached { AreAttached decided.policies.now limit attached.now }
    ensures { OnOk result (AddsLint decided.entry limit (texts except.now) number (lint_data lint.old) (lint_data lint.new)) }
{
    let Some(profile) = profile_of(decided.policies, 0, number) else {
        return Ok(());
    };
    push_lint(
        lint, alloc, decided, attached, limit, except, number, profile,
    )
}

/// What is found of all profiles, in order, by automata of at most so many states.
fn lint_within(
    alloc: Global,
    decided: Decided<'_>,
    limit: usize,
    except: &[Vec<u8>],
) -> Result<Lint, AllocError>
    requires some { 0 < limit }
    requires bounded { limit ≤ most_states }
    ensures { IfOk result (λ lint. AreTold decided.entry limit (texts except.now) (count_of decided.entry.policies.now) (lint_data lint)) }
{
    let attached = attached_of(alloc, decided.policies, limit)?;
    let mut lint = Lint {
        told: Vec::new(alloc),
        untold: Vec::new(alloc),
    };
    for number in 0..count_of(decided.policies) {
        push_lint_at(&mut lint, alloc, decided, &attached, limit, except, number)?;
    }
    Ok(lint)
}

/// What is found of all profiles, in order.
pub(crate) fn lint_all(
    alloc: Global,
    decided: Decided<'_>,
    states: u32,
    except: &[Vec<u8>],
) -> Result<Lint, AllocError>
    ensures { IfOk result (λ lint. AreTold decided.entry (limit_of states) (texts except.now) (count_of decided.entry.policies.now) (lint_data lint)) }
{
    lint_within(alloc, decided, limit_of(states), except)
}
