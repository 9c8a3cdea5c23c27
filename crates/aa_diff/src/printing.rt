//! Findings as they are printed.

ghost use Rattle.std.specs.Prelude.{◌≡◌, ◌++◌, codes, Option, Some, None, flat_map, map, option_map, OnOk, IfOk, if◌then◌else◌};
ghost use Rattle.std.specs.List.{list_any};
ghost use Rattle.aa_base.specs.Values.{value};
ghost use Rattle.aa_notation.specs.Kinds.{word_text};
ghost use Rattle.aa_diff.specs.declared.finding.Finding.{Finding};
ghost use Rattle.aa_diff.specs.Printed.{is_owner, shown_letters, asked_by, asked_of, others_text, asked_text, sign_text, more_text, only_text, asked_part, change_part, finding_part, line_start, line_end, line_text, gone_text, name_asked, profile_part, profile_text, profile_if, free_if, is_free, is_behind, heading, side_text, rule_part, passed_over_text, told_text, confined_text, free_text};
ghost use Rattle.aa_passed_over.specs.Apart.{apart};
ghost use Rattle.aa_diff.specs.Lines.{told};

use crate::change::is_same;
use crate::finding::{Finding, Who, is_profile, who_number};
use crate::lines::{Line, label_of};
use crate::signs::Sign;
use aa_ask::is_confined;
use aa_base::Perms;
use aa_compile::{Compiled, name_of_label};
use aa_model::{Label, Request, RequestFault};
use aa_notation::push_word;
use aa_passed_over::{Apart, Side};
use aa_rule_text::shortened;
use aa_text::{push_name, push_number, push_text, push_visible};
use bitflags::Flags;
use std::alloc::{AllocError, Global};

fn is_owner(who: Who) -> bool
    ensures { result ≡ is_owner who }
{
    match who {
        Who::Owner => true,
        _ => false,
    }
}

/// The permissions that a line shows: what writes may append too, as in a rule.
fn shown_letters(letters: Perms) -> Perms
    ensures { result ≡ shown_letters letters }
{
    if letters.intersects(Perms::WRITE) {
        letters.difference(Perms::APPEND)
    } else {
        letters
    }
}

// The request of a finding can be asked for, so that with its permissions can: what refuses it is answered with want of memory,
// which the contracts leave free.
fn asked_by(
    alloc: Global,
    letters: Perms,
    owned: bool,
    request: &Request,
) -> Result<Request, RequestFault>
    ensures { IfOk result (λ asked. asked ≡ asked_by letters owned request.now) }
{
    match request {
        Request::File(file) => Request::file(alloc, file.path(), letters, owned),
        Request::Link(link) => Request::link(alloc, link.link(), link.target(), owned),
        Request::Exec(exec) => Request::exec(alloc, exec.path(), owned),
        other => match other.try_clone() {
            Ok(request) => Ok(request),
            Err(_) => Err(RequestFault::NoMemory),
        },
    }
}

/// The first request of a finding, by all its permissions as they are shown.
fn asked_of(alloc: Global, finding: &Finding) -> Result<Request, AllocError>
    ensures { IfOk result (λ request. request ≡ asked_of finding.now) }
{
    let letters = shown_letters(finding.letters);
    match asked_by(alloc, letters, is_owner(finding.who), &finding.request) {
        Ok(request) => Ok(request),
        Err(_) => Err(AllocError),
    }
}

/// What stands before the word of an object that is others' alone.
fn others_text(who: Who) -> &'static str
    ensures { result.now ≡ others_text who }
{
    match who {
        Who::Others => "other:",
        _ => "",
    }
}

/// Appends the first request of a finding as one word, which tells whose objects it holds of.
pub(crate) fn push_asked(
    out: &mut Vec<u8>,
    alloc: Global,
    finding: &Finding,
) -> Result<(), AllocError>
    ensures { OnOk result (out.new.items ≡ out.old.items ++ asked_text finding.now) }
{
    let request = asked_of(alloc, finding)?;
    push_text(out, others_text(finding.who))?;
    push_word(out, &request)
}

/// The sign at the head of a line.
pub(crate) fn sign_text(sign: Sign) -> &'static str
    ensures { result.now ≡ sign_text sign }
{
    match sign {
        Sign::Gain => "+",
        Sign::Loss => "-",
        Sign::Other => "~",
    }
}

pub(crate) fn push_more(out: &mut Vec<u8>, more: u64) -> Result<(), AllocError>
    ensures { OnOk result (out.new.items ≡ out.old.items ++ more_text more) }
{
    if more == 0 {
        return Ok(());
    }
    push_text(out, ", and ")?;
    push_number(out, more)?;
    push_text(out, " more")
}

/// Appends that a line is about unclean paths alone, if so it is.
pub(crate) fn push_only(out: &mut Vec<u8>, unclean: bool) -> Result<(), AllocError>
    ensures { OnOk result (out.new.items ≡ out.old.items ++ only_text unclean) }
{
    push_text(
        out,
        if unclean {
            "only at unclean paths "
        } else {
            ""
        },
    )
}

/// Appends the sign of a line, that it is about unclean paths alone, and the request.
#[tactic(auto, unfolding(crate::specs::Printed::asked_part))]
fn push_asked_part(out: &mut Vec<u8>, alloc: Global, finding: &Finding) -> Result<(), AllocError>
    ensures { OnOk result (out.new.items ≡ out.old.items ++ asked_part finding.now) }
{
    push_text(out, sign_text(finding.sign))?;
    push_text(out, " ")?;
    push_only(out, finding.unclean)?;
    push_asked(out, alloc, finding)
}

/// Appends how it was answered and is, and how many there are besides.
#[tactic(auto, unfolding(crate::specs::Printed::change_part))]
fn push_change_part(out: &mut Vec<u8>, finding: &Finding) -> Result<(), AllocError>
    ensures { OnOk result (out.new.items ≡ out.old.items ++ change_part finding.now) }
{
    push_text(out, " ")?;
    out.extend_from_slice(finding.change.as_slice())?;
    push_more(out, finding.more)
}

/// Appends what stands on the line of a finding.
pub(crate) fn push_finding_part(
    out: &mut Vec<u8>,
    alloc: Global,
    finding: &Finding,
) -> Result<(), AllocError>
    ensures { OnOk result (out.new.items ≡ out.old.items ++ finding_part finding.now) }
{
    push_asked_part(out, alloc, finding)?;
    push_change_part(out, finding)
}

/// Begins the line of a finding.
#[tactic(auto, unfolding(crate::specs::Printed::line_start))]
fn push_start(out: &mut Vec<u8>, alloc: Global, finding: &Finding) -> Result<(), AllocError>
    ensures { OnOk result (out.new.items ≡ out.old.items ++ line_start finding.now) }
{
    push_text(out, "  ")?;
    push_finding_part(out, alloc, finding)
}

/// Ends a line, and appends the lines of its rules.
#[tactic(auto, unfolding(crate::specs::Printed::line_end))]
fn push_end(out: &mut Vec<u8>, finding: &Finding) -> Result<(), AllocError>
    ensures { OnOk result (out.new.items ≡ out.old.items ++ line_end finding.now) }
{
    push_text(out, "\n")?;
    out.extend_from_slice(finding.rules.as_slice())
}

/// Appends the line of a finding, and the lines of its rules.
fn push_line(out: &mut Vec<u8>, alloc: Global, finding: &Finding) -> Result<(), AllocError>
    ensures { OnOk result (out.new.items ≡ out.old.items ++ line_text finding.now) }
{
    push_start(out, alloc, finding)?;
    push_end(out, finding)
}

pub(crate) fn gone_text(sign: Sign) -> &'static str
    ensures { result.now ≡ gone_text sign }
{
    match sign {
        Sign::Gain => " is new, and with it ",
        Sign::Loss => " is gone, and with it ",
        Sign::Other => " is another, and with it ",
    }
}

/// The name that a request to change to it asks for.
pub(crate) fn name_asked(request: &Request) -> &[u8]
    ensures { result.now ≡ name_asked request.now }
{
    match request {
        Request::Change(change) => change.name(),
        _ => &[],
    }
}

/// Appends what is said of a profile that is gone or new.
#[tactic(auto, unfolding(crate::specs::Printed::profile_part))]
pub(crate) fn push_profile_part(
    out: &mut Vec<u8>,
    alloc: Global,
    finding: &Finding,
) -> Result<(), AllocError>
    ensures { OnOk result (out.new.items ≡ out.old.items ++ profile_part finding.now) }
{
    push_text(out, "profile ")?;
    push_name(out, alloc, name_asked(&finding.request))?;
    push_text(out, gone_text(finding.sign))?;
    push_word(out, &finding.request)
}

/// Appends the line of a profile that is gone or new.
fn push_profile(out: &mut Vec<u8>, alloc: Global, finding: &Finding) -> Result<(), AllocError>
    ensures { OnOk result (out.new.items ≡ out.old.items ++ profile_text finding.now) }
{
    push_profile_part(out, alloc, finding)?;
    push_text(out, "\n")
}

fn push_profile_if(out: &mut Vec<u8>, alloc: Global, finding: &Finding) -> Result<(), AllocError>
    ensures { OnOk result (out.new.items ≡ out.old.items ++ profile_if finding.now) }
{
    if !is_profile(finding) {
        return Ok(());
    }
    push_profile(out, alloc, finding)
}

/// Appends the lines of profiles that are gone or new.
pub(crate) fn push_profiles(
    out: &mut Vec<u8>,
    alloc: Global,
    findings: &[Finding],
) -> Result<(), AllocError>
    ensures { OnOk result (out.new.items ≡ out.old.items ++ flat_map profile_if findings.now) }
{
    for finding in findings {
        push_profile_if(out, alloc, finding)?;
    }
    Ok(())
}

/// Whether it is about what else unconfined tasks are answered.
pub(crate) fn is_free(finding: &Finding) -> bool
    ensures { result ≡ is_free finding.now }
{
    !is_confined(finding.from) && !is_profile(finding)
}

pub(crate) fn is_one_free(findings: &[Finding]) -> bool
    ensures { result ≡ list_any is_free findings.now }
{
    findings.iter().any(|finding| is_free(finding))
}

fn push_free_if(out: &mut Vec<u8>, alloc: Global, finding: &Finding) -> Result<(), AllocError>
    ensures { OnOk result (out.new.items ≡ out.old.items ++ free_if finding.now) }
{
    if !is_free(finding) {
        return Ok(());
    }
    push_line(out, alloc, finding)
}

fn push_each_free(out: &mut Vec<u8>, alloc: Global, findings: &[Finding]) -> Result<(), AllocError>
    ensures { OnOk result (out.new.items ≡ out.old.items ++ flat_map free_if findings.now) }
{
    for finding in findings {
        push_free_if(out, alloc, finding)?;
    }
    Ok(())
}

/// Appends the lines of unconfined tasks behind their heading, if there are any.
pub(crate) fn push_free(
    out: &mut Vec<u8>,
    alloc: Global,
    findings: &[Finding],
) -> Result<(), AllocError>
    ensures { OnOk result (out.new.items ≡ out.old.items ++ free_text findings.now) }
{
    if !is_one_free(findings) {
        return Ok(());
    }
    push_text(out, "unconfined\n")?;
    push_each_free(out, alloc, findings)
}

/// Whether a label is that of the line before.
pub(crate) fn is_behind(before: Option<Label>, label: Label) -> bool
    ensures { result ≡ is_behind before label }
{
    match before {
        Some(before) => is_same(before, label),
        None => false,
    }
}

/// Appends the heading of a profile, where the line before is of another.
fn push_heading(
    out: &mut Vec<u8>,
    alloc: Global,
    policies: &[Compiled],
    before: Option<Label>,
    label: Label,
) -> Result<(), AllocError>
    ensures { OnOk result (out.new.items ≡ out.old.items ++ heading policies.now before label) }
{
    if is_behind(before, label) {
        return Ok(());
    }
    push_text(out, "profile ")?;
    push_name(out, alloc, name_of_label(policies, label))?;
    push_text(out, "\n")
}

/// The policy that alone has a rule.
pub(crate) fn side_text(side: Side) -> &'static str
    ensures { result.now ≡ side_text side }
{
    match side {
        Side::Old => "OLD",
        Side::New => "NEW",
    }
}

/// Appends what stands on the line of a rule that is passed over.
#[tactic(auto, unfolding(crate::specs::Printed::rule_part))]
pub(crate) fn push_rule_part(out: &mut Vec<u8>, rule: &Apart) -> Result<(), AllocError>
    ensures { OnOk result (out.new.items ≡ out.old.items ++ rule_part (apart rule.now)) }
{
    push_text(out, "? ")?;
    push_visible(out, shortened(rule.rule.text.as_slice()))?;
    push_text(out, " only in ")?;
    push_text(out, side_text(rule.side))
}

/// Appends the line of a rule that is passed over.
#[tactic(auto, unfolding(crate::specs::Printed::passed_over_text))]
fn push_passed_over(out: &mut Vec<u8>, rule: &Apart) -> Result<(), AllocError>
    ensures { OnOk result (out.new.items ≡ out.old.items ++ passed_over_text (apart rule.now)) }
{
    push_text(out, "  ")?;
    push_rule_part(out, rule)?;
    push_text(out, "\n")
}

fn push_told(out: &mut Vec<u8>, alloc: Global, line: Line<'_>) -> Result<(), AllocError>
    ensures { OnOk result (out.new.items ≡ out.old.items ++ told_text (told line.entry)) }
{
    match line {
        Line::Found(finding) => push_line(out, alloc, finding),
        Line::PassedOver(rule) => push_passed_over(out, rule),
    }
}

/// Appends the lines about profiles, each profile's behind its heading.
pub(crate) fn push_confined(
    out: &mut Vec<u8>,
    alloc: Global,
    policies: &[Compiled],
    lines: &[Line<'_>],
) -> Result<(), AllocError>
    ensures { OnOk result (out.new.items ≡ out.old.items ++ confined_text policies.now None (map told lines.now)) }
{
    let mut before: Option<Label> = None;
    let mut rest = lines;
    while let [line, after @ ..] = rest {
        let label = label_of(*line);
        if is_confined(label) {
            push_heading(out, alloc, policies, before, label)?;
            push_told(out, alloc, *line)?;
            before = Some(label);
        }
        rest = after;
    }
    Ok(())
}
