//! Findings: requests that are answered differently in the same way, for the same reason.

ghost use Rattle.std.specs.Prelude.{◌≡◌, IfOk};
ghost use Rattle.std.specs.List.{list_any};
ghost use Rattle.aa_diff.specs.Findings.{who_number, whose, who_of, letters_of, kind_number, is_profile, is_change, is_of_class, is_alike, is_link, is_minor, told_change, is_unreported, finding_of, is_uncounted, does_count, is_counted};
ghost use Rattle.aa_diff.specs.Rules.{AreOwn};

use crate::change::{change_text, is_same};
use crate::heads::with_heads;
use crate::rules::{OwnRules, Rule, copies_of, rules_text, told_rules};
use crate::signs::{Sign, sign_number, sign_of};
use aa_ask::is_confined;
use aa_base::{Perms, Seq, Text};
use aa_command::Decided;
use aa_compile::Compiled;
use aa_differences::Difference;
use aa_model::{Label, Request};
use std::alloc::{AllocError, Global};

/// Whose objects a finding is about.
#[derive(Clone, Copy, Debug, PartialEq, Eq)]
pub enum Who {
    /// Everybody's, or the request has no object.
    Anybody,
    /// Those of the task's user.
    Owner,
    /// Those of others.
    Others,
}

/// Requests at one label of the old policy that are answered differently in the same way, for the same reason.
#[derive(Drop)]
pub struct Finding {
    pub from: Label,
    /// The label of the new policy at which the first of them is answered.
    pub to: Label,
    pub sign: Sign,
    /// The first of them at a clean path, or the first where all are at unclean ones.
    pub request: Request,
    /// All permissions of which it holds, where the request is for a file.
    pub letters: Perms,
    pub who: Who,
    /// How they were answered and are answered.
    pub change: Text,
    /// The lines of the rules that account for it.
    pub rules: Text,
    /// Those of the old policy.
    pub old_rules: Seq<Rule>,
    /// Those of the new one.
    pub new_rules: Seq<Rule>,
    /// How many paths, names or entries there are besides, for each permission.
    pub more: u64,
    /// Whether they were reported, and nothing of them is any more; not told of links of which other permissions are reported.
    pub unreported: bool,
    /// Whether it is told as one at unclean paths alone, which doesn't count.
    pub unclean: bool,
}

/// Tells apart whose objects there are.
pub(crate) fn who_number(who: Who) -> u8
    ensures { result ≡ who_number who }
{
    match who {
        Who::Anybody => 0,
        Who::Owner => 1,
        Who::Others => 2,
    }
}

fn whose(owned: bool) -> Who
    ensures { result ≡ whose owned }
{
    if owned { Who::Owner } else { Who::Others }
}

fn who_of(request: &Request) -> Who
    ensures { result ≡ who_of request.now }
{
    match request {
        Request::File(file) => whose(file.owned()),
        Request::Link(link) => whose(link.owned()),
        Request::Exec(exec) => whose(exec.owned()),
        _ => Who::Anybody,
    }
}

fn letters_of(request: &Request) -> Perms
    ensures { result ≡ letters_of request.now }
{
    match request {
        Request::File(file) => file.mask(),
        _ => Perms(0),
    }
}

/// Tells kinds of requests apart.
pub(crate) fn kind_number(request: &Request) -> u8
    ensures { result ≡ kind_number request.now }
{
    match request {
        Request::File(_) => 0,
        Request::Link(_) => 1,
        Request::Exec(_) => 2,
        Request::Cap(_) => 3,
        Request::Net(_, _) => 4,
        Request::Change(_) => 5,
        Request::Reload(_) => 6,
    }
}

fn is_change(request: &Request) -> bool
    ensures { result ≡ is_change request.now }
{
    match request {
        Request::Change(_) => true,
        _ => false,
    }
}

/// Whether an unconfined task can change to a profile in one policy alone, so that the profile is gone or new.
pub(crate) fn is_profile(finding: &Finding) -> bool
    ensures { result ≡ is_profile finding.now }
{
    !is_confined(finding.from) && is_change(&finding.request)
}

/// Whether both are of one label, sign and kind, told alike for the same reason.
pub(crate) fn is_of_class(one: &Finding, other: &Finding) -> bool
    ensures { result ≡ is_of_class one.now other.now }
{
    is_same(one.from, other.from)
        && sign_number(one.sign) == sign_number(other.sign)
        && kind_number(&one.request) == kind_number(&other.request)
        && one.change.as_slice() == other.change.as_slice()
        && one.rules.as_slice() == other.rules.as_slice()
}

/// Whether both are findings of one line. A profile that is gone or new has a line of its own.
pub(crate) fn is_alike(one: &Finding, other: &Finding) -> bool
    ensures { result ≡ is_alike one.now other.now }
{
    is_of_class(one, other)
        && one.letters.0 == other.letters.0
        && who_number(one.who) == who_number(other.who)
        && !is_profile(one)
}

fn is_link(request: &Request) -> bool
    ensures { result ≡ is_link request.now }
{
    match request {
        Request::Link(_) => true,
        _ => false,
    }
}

/// Whether a difference is about what is reported of a link alone.
pub(crate) fn is_minor(sign: Sign, request: &Request) -> bool
    ensures { result ≡ is_minor sign request.now }
{
    sign_number(sign) == 2 && is_link(request)
}

/// What is told of a difference: all links of which other permissions are reported are told alike.
fn told_change(
    alloc: Global,
    old: &[Compiled],
    new: &[Compiled],
    is_minor: bool,
    difference: &Difference,
) -> Result<Text, AllocError>
    ensures { IfOk result (λ text. text ≡ told_change old.now new.now is_minor difference.now) }
{
    if is_minor {
        return Text::copy_of(alloc, "reported otherwise".as_bytes());
    }
    change_text(alloc, old, new, difference)
}

/// Whether what was reported is no more.
fn is_unreported(difference: &Difference) -> bool
    ensures { result ≡ is_unreported difference.now }
{
    difference.old.note.is_some() && !difference.new.note.is_some()
}

/// The finding that a difference is by itself, where it is known which rules each of the profiles there alone has.
pub(crate) fn finding_of(
    alloc: Global,
    old: Decided<'_>,
    new: Decided<'_>,
    own: &OwnRules,
    difference: &Difference,
) -> Result<Finding, AllocError>
    requires { AreOwn old.policies.now new.policies.now difference.now.from difference.now.to own.now }
    ensures { IfOk result (λ finding. finding ≡ finding_of old.entry new.entry difference.now) }
{
    let sign = sign_of(old.policies, new.policies, difference);
    let is_minor = is_minor(sign, &difference.request);
    let request = &difference.request;
    let (from, to) = (difference.from, difference.to);
    let told = told_rules(alloc, is_minor, old, &own.old, from, request)?;
    let old_rules = with_heads(alloc, old, new.policies, from, to, request, told)?;
    let told = told_rules(alloc, is_minor, new, &own.new, to, request)?;
    let new_rules = with_heads(alloc, new, old.policies, to, from, request, told)?;
    let rules = rules_text(alloc, old_rules.as_slice(), new_rules.as_slice())?;
    let change = told_change(alloc, old.policies, new.policies, is_minor, difference)?;
    Ok(Finding {
        from,
        to,
        sign,
        request: difference.request.try_clone()?,
        letters: letters_of(&difference.request),
        who: who_of(&difference.request),
        change,
        rules,
        old_rules,
        new_rules,
        more: 0,
        unreported: !is_minor && is_unreported(difference),
        unclean: false,
    })
}

/// Whether a finding is told as one at unclean paths alone, and doesn't count.
pub(crate) fn is_uncounted(finding: &Finding) -> bool
    ensures { result ≡ is_uncounted finding.now }
{
    finding.unclean
}

pub(crate) fn does_count(finding: &Finding) -> bool
    ensures { result ≡ does_count finding.now }
{
    !is_uncounted(finding)
}

/// Whether a finding counts.
pub(crate) fn is_one_counted(findings: &[Finding]) -> bool
    ensures { result ≡ list_any does_count findings.now }
{
    findings.iter().any(|finding| does_count(finding))
}

/// Whether a finding has a line with that sign, and counts.
pub(crate) fn is_counted(sign: Sign, finding: &Finding) -> bool
    ensures { result ≡ is_counted sign finding.now }
{
    sign_number(finding.sign) == sign_number(sign) && !is_profile(finding) && does_count(finding)
}

/// The same finding again.
pub(crate) fn copy_of(alloc: Global, finding: &Finding) -> Result<Finding, AllocError>
    ensures { IfOk result (λ copy. copy ≡ finding.now) }
{
    Ok(Finding {
        from: finding.from,
        to: finding.to,
        sign: finding.sign,
        request: finding.request.try_clone()?,
        letters: finding.letters,
        who: finding.who,
        change: finding.change.try_clone()?,
        rules: finding.rules.try_clone()?,
        old_rules: copies_of(alloc, finding.old_rules.as_slice())?,
        new_rules: copies_of(alloc, finding.new_rules.as_slice())?,
        more: finding.more,
        unreported: finding.unreported,
        unclean: finding.unclean,
    })
}
