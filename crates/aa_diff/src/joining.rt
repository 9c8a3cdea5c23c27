//! Findings that differ in a permission or in whose object it is alone, joined.

ghost use Rattle.std.specs.Prelude.{◌≡◌, ◌<◌, [], length, OnOk, IfOk, position};
ghost use Rattle.aa_diff.specs.Gathered.{changed_at};
ghost use Rattle.aa_diff.specs.Joined.{is_one_object, is_same_letters, is_same_who, joins, joined_who, both_of, joined, joined_all};

use crate::finding::{Finding, Who, copy_of, is_of_class, who_number};
use aa_base::Perms;
use aa_model::Request;
use std::alloc::{AllocError, Global};

/// Whether both are requests of one kind for one object.
fn is_one_object(one: &Request, other: &Request) -> bool
    ensures { result ≡ is_one_object one.now other.now }
{
    match (one, other) {
        (Request::File(one), Request::File(other)) => one.path() == other.path(),
        (Request::Exec(one), Request::Exec(other)) => one.path() == other.path(),
        (Request::Link(one), Request::Link(other)) => {
            one.link() == other.link() && one.target() == other.target()
        }
        _ => false,
    }
}

fn is_same_letters(one: &Finding, other: &Finding) -> bool
    ensures { result ≡ is_same_letters one.now other.now }
{
    one.letters.0 == other.letters.0
}

fn is_same_who(one: &Finding, other: &Finding) -> bool
    ensures { result ≡ is_same_who one.now other.now }
{
    who_number(one.who) == who_number(other.who)
}

/// Whether two findings become one.
fn joins(one: &Finding, other: &Finding) -> bool
    ensures { result ≡ joins one.now other.now }
{
    is_of_class(one, other)
        && one.more == other.more
        && is_one_object(&one.request, &other.request)
        && is_same_letters(one, other) != is_same_who(one, other)
}

fn joined_who(one: &Finding, other: &Finding) -> Who
    ensures { result ≡ joined_who one.now other.now }
{
    if is_same_who(one, other) {
        one.who
    } else {
        Who::Anybody
    }
}

fn place_of(findings: &[Finding], finding: &Finding) -> Option<usize>
    ensures { result ≡ position (λ f. joins f finding.now) findings.now }
{
    findings.iter().position(|known| joins(known, finding))
}

/// Makes two findings one.
fn join(known: &mut Finding, finding: &Finding)
    ensures { known.new ≡ both_of finding.now known.old }
{
    known.who = joined_who(known, finding);
    known.letters = Perms(known.letters.0 | finding.letters.0);
}

fn join_at(findings: &mut Vec<Finding>, number: usize, finding: &Finding)
    requires { number < length findings.old.items }
    ensures { findings.new.items ≡ changed_at (both_of finding.now) findings.old.items number }
{
    join(&mut findings[number], finding);
}

fn add_joined(
    alloc: Global,
    findings: &mut Vec<Finding>,
    finding: &Finding,
) -> Result<(), AllocError>
    ensures { OnOk result (findings.new.items ≡ joined findings.old.items finding.now) }
{
    if let Some(number) = place_of(findings.as_slice(), finding) {
        join_at(findings, number, finding);
        return Ok(());
    }
    findings.push(copy_of(alloc, finding)?)?;
    Ok(())
}

/// The findings, where each that differs from an earlier one in a permission or in whose object it is alone is joined with that.
pub(crate) fn join_all(alloc: Global, findings: &[Finding]) -> Result<Vec<Finding>, AllocError>
    ensures { IfOk result (λ fs. fs.items ≡ joined_all [] findings.now) }
{
    let mut joined = Vec::new(alloc);
    for finding in findings {
        add_joined(alloc, &mut joined, finding)?;
    }
    Ok(joined)
}
