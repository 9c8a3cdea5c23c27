//! Differences, gathered into findings.

ghost use Rattle.std.specs.Prelude.{◌≡◌, ◌++◌, ◌<◌, ◌∷◌, [], ◌≤◌, true, length, OnOk, IfOk, if◌then◌else◌, Some, None, position};
ghost use Rattle.std.specs.List.{list_any};
ghost use Rattle.aa_diff.specs.declared.finding.Finding.{Finding};
ghost use Rattle.aa_diff.specs.Findings.{is_alike, finding_of};
ghost use Rattle.aa_diff.specs.Gathered.{is_single, is_mixed, is_part_of, is_part, is_as_well, covers, recent, hides, is_cleaner, is_shorter, is_preferred, counted_up, changed_at, added, gathered, gathered_next};
ghost use Rattle.aa_diff.specs.Rules.{AreOwn};

use crate::change::is_same;
use crate::finding::{Finding, finding_of, is_alike};
use crate::rules::{OwnRules, own_beside, own_rules};
use crate::signs::{Sign, sign_number, sign_of};
use crate::witness::compare_shortness;
use aa_base::Perms;
use aa_command::Decided;
use aa_compile::Compiled;
use aa_differences::Difference;
use aa_model::{FileRequest, Label, Request};
use aa_unclean_paths::is_at_unclean_path;
use std::alloc::{AllocError, Global};

/// How many requests there are for one file at most: by each mask that can be asked for, of the owner and of others.
const RECENT: usize = 62;

/// Whether it is one permission of those that can be asked for.
fn is_single(mask: Perms) -> bool
    ensures { result ≡ is_single mask.0 }
{
    mask.0 == 1 || mask.0 == 2 || mask.0 == 4 || mask.0 == 16 || mask.0 == 32
}

/// Whether a file is asked for by several permissions.
fn is_mixed(request: &Request) -> bool
    ensures { result ≡ is_mixed request.now }
{
    match request {
        Request::File(file) => !is_single(file.mask()),
        _ => false,
    }
}

/// Whether both ask for one file of the same user, the former by one permission of the latter's.
fn is_part_of(one: &FileRequest, other: &FileRequest) -> bool
    ensures { result ≡ is_part_of one.now other.now }
{
    is_single(one.mask())
        && one.mask().0 & other.mask().0 == one.mask().0
        && one.owned() == other.owned()
        && one.path() == other.path()
}

fn is_part(one: &Request, other: &Request) -> bool
    ensures { result ≡ is_part one.now other.now }
{
    match (one, other) {
        (Request::File(one), Request::File(other)) => is_part_of(one, other),
        _ => false,
    }
}

/// Whether one sign tells of a difference with the other as well.
fn is_as_well(one: Sign, other: Sign) -> bool
    ensures { result ≡ is_as_well one other }
{
    sign_number(one) == sign_number(other) || sign_number(other) == 2
}

/// Whether a difference by one permission tells of one by several.
fn covers(old: &[Compiled], new: &[Compiled], one: &Difference, other: &Difference) -> bool
    ensures { result ≡ covers old.now new.now one.now other.now }
{
    is_same(one.from, other.from)
        && is_part(&one.request, &other.request)
        && is_as_well(sign_of(old, new, one), sign_of(old, new, other))
}

/// The differences that stand just before.
fn recent(before: &[Difference]) -> &[Difference]
    ensures { result.now ≡ recent before.now }
{
    let (_, recent) = before.split_at(before.len() - before.len().min(RECENT));
    recent
}

fn is_covered(
    old: &[Compiled],
    new: &[Compiled],
    before: &[Difference],
    difference: &Difference,
) -> bool
    ensures { result ≡ list_any (λ d. covers old.now new.now d difference.now) before.now }
{
    before.iter().any(|one| covers(old, new, one, difference))
}

/// Whether a difference has no line, since one that stands before tells of it.
fn hides(old: &[Compiled], new: &[Compiled], before: &[Difference], difference: &Difference) -> bool
    ensures { result ≡ hides old.now new.now before.now difference.now }
{
    is_mixed(&difference.request) && is_covered(old, new, recent(before), difference)
}

/// The number of the first finding of that line.
fn place_of(findings: &[Finding], finding: &Finding) -> Option<usize>
    ensures { result ≡ position (λ f. is_alike f finding.now) findings.now }
{
    findings.iter().position(|known| is_alike(known, finding))
}

/// Whether the request of a known finding alone is at an unclean path.
fn is_cleaner(finding: &Finding, known: &Finding) -> bool
    ensures { result ≡ is_cleaner finding.now known.now }
{
    is_at_unclean_path(&known.request) && !is_at_unclean_path(&finding.request)
}

/// Whether both requests are at unclean paths or neither, and a finding's is shorter than a known one's, or as long and first in byte order.
fn is_shorter(finding: &Finding, known: &Finding) -> bool
    ensures { result ≡ is_shorter finding.now known.now }
{
    is_at_unclean_path(&known.request) == is_at_unclean_path(&finding.request)
        && compare_shortness(&finding.request, &known.request).is_lt()
}

/// Whether a finding stands for itself and for a known one.
fn is_preferred(finding: &Finding, known: &Finding) -> bool
    ensures { result ≡ is_preferred finding.now known.now }
{
    is_cleaner(finding, known) || is_shorter(finding, known)
}

/// Counts one more at a finding of its line, one of which stands for both.
fn count_up(known: &mut Finding, finding: Finding)
    ensures { known.new ≡ counted_up finding known.old }
{
    let more = known.more.saturating_add(1);
    if is_preferred(&finding, known) {
        *known = finding;
    }
    known.more = more;
}

/// Counts one more at the finding with that number.
fn raise(findings: &mut Vec<Finding>, number: usize, finding: Finding)
    requires { number < length findings.old.items }
    ensures { findings.new.items ≡ changed_at (counted_up finding) findings.old.items number }
{
    count_up(&mut findings[number], finding);
}

/// Counts a finding at the line that it is of, or adds a line.
fn add(findings: &mut Vec<Finding>, finding: Finding) -> Result<(), AllocError>
    ensures { OnOk result (findings.new.items ≡ added findings.old.items finding) }
{
    if let Some(number) = place_of(findings.as_slice(), &finding) {
        raise(findings, number, finding);
        return Ok(());
    }
    findings.push(finding)?;
    Ok(())
}

/// The rules that each of the profiles of a difference alone has, where they are known of other profiles.
fn own_of(
    alloc: Global,
    old: Decided<'_>,
    new: Decided<'_>,
    known: OwnRules,
    difference: &Difference,
) -> Result<OwnRules, AllocError>
    requires { AreOwn old.policies.now new.policies.now known.from known.to known }
    ensures { IfOk result (λ own. AreOwn old.entry.policies.now new.entry.policies.now difference.now.from difference.now.to own) }
{
    own_beside(
        alloc,
        old.policies,
        new.policies,
        known,
        difference.from,
        difference.to,
    )
}

/// Adds the finding of a difference, unless one that stands before tells of it.
fn add_next(
    alloc: Global,
    old: Decided<'_>,
    new: Decided<'_>,
    own: &OwnRules,
    before: &[Difference],
    difference: &Difference,
    findings: &mut Vec<Finding>,
) -> Result<(), AllocError>
    requires { AreOwn old.policies.now new.policies.now difference.now.from difference.now.to own.now }
    ensures { OnOk result (findings.new.items ≡ gathered_next old.entry new.entry before.now difference.now findings.old.items) }
{
    if hides(old.policies, new.policies, before, difference) {
        return Ok(());
    }
    add(findings, finding_of(alloc, old, new, own, difference)?)
}

/// The findings that differences are.
pub(crate) fn gather(
    alloc: Global,
    old: Decided<'_>,
    new: Decided<'_>,
    differences: &[Difference],
) -> Result<Vec<Finding>, AllocError>
    ensures { IfOk result (λ fs. fs.items ≡ gathered old.entry new.entry [] differences.now []) }
{
    let free = Label::Unconfined(0);
    let mut findings = Vec::new(alloc);
    let mut own = own_rules(alloc, old.policies, new.policies, free, free)?;
    for number in 0..differences.len() {
        let (before, _) = differences.split_at(number);
        let difference = &differences[number];
        own = own_of(alloc, old, new, own, difference)?;
        add_next(alloc, old, new, &own, before, difference, &mut findings)?;
    }
    Ok(findings)
}
