//! Redundant rules as a SARIF log.

ghost use Rattle.std.specs.Prelude.{◌≡◌, ◌++◌, Some, codes, map, OnOk, IfOk};
ghost use Rattle.aa_text.specs.Jsons.{member_text};
ghost use Rattle.aa_check.specs.Sarif.{message_text, location_text};
ghost use Rattle.aa_redundant.specs.Told.{telling, explaining};
ghost use Rattle.aa_command.specs.Untold.{untelling};
ghost use Rattle.aa_redundant.specs.Shown.{finding_text};
ghost use Rattle.aa_redundant.specs.Sarif.{result_text, results_member, sarif_rules};
ghost use Rattle.aa_redundant.specs.Listed.{found};

use crate::explained::ExplainedRule;
use crate::shown::push_finding;
use crate::told::ToldRule;
use aa_check::{Level, Location, Message, push_rule_members, push_run, push_sarif_head};
use aa_command::Untold;
use aa_text::{ToJson, push_list_member, push_member, push_text};
use std::alloc::{AllocError, Global};

/// Appends why a rule is redundant, as a member.
fn push_message(out: &mut Vec<u8>, alloc: Global, rule: &ExplainedRule) -> Result<(), AllocError>
    ensures { OnOk result (out.new.items ≡ out.old.items ++ member_text (codes "message") (message_text (finding_text (explaining rule.now)))) }
{
    let mut text = Vec::new(alloc);
    push_finding(&mut text, rule)?;
    let bytes = text.as_slice();
    push_member(out, alloc, "message", &Message { bytes })
}

/// Appends where it stands, as a member.
fn push_location(out: &mut Vec<u8>, alloc: Global, rule: &ToldRule) -> Result<(), AllocError>
    ensures { OnOk result (out.new.items ≡ out.old.items ++ member_text (codes "locations") (location_text (telling rule.now).path (Some (telling rule.now).place))) }
{
    let path = rule.path.as_slice();
    let place = Some(rule.place);
    push_member(out, alloc, "locations", &Location { path, place })
}

#[tactic(auto, unfolding(crate::specs::Sarif::result_text))]
fn push_result(out: &mut Vec<u8>, alloc: Global, rule: &ExplainedRule) -> Result<(), AllocError>
    ensures { OnOk result (out.new.items ≡ out.old.items ++ result_text (explaining rule.now)) }
{
    push_rule_members(out, alloc, Level::Warning, "redundant")?;
    push_message(out, alloc, rule)?;
    push_location(out, alloc, &rule.rule)?;
    push_text(out, "}")
}

/// A redundant rule as it stands among the results.
#[derive(Clone, Copy)]
struct Found<'a> {
    rule: &'a ExplainedRule,
}

impl ToJson for Found<'_> {
    ghost use Rattle.aa_redundant.specs.Told.{explaining};
    ghost use Rattle.aa_redundant.specs.Sarif.{result_text};

    ghost json = { λ f. result_text (explaining f.rule.now) };

    fn push_json(&self, out: &mut Vec<u8>, alloc: Global) -> Result<(), AllocError> {
        push_result(out, alloc, self.rule)
    }
}

/// The redundant rules as results.
fn results_of<'a>(alloc: Global, rules: &'a [ExplainedRule]) -> Result<Vec<Found<'a>>, AllocError>
    ensures { IfOk result (λ list. found list.items ≡ map result_text (map explaining rules.now)) }
{
    let mut list = Vec::new(alloc);
    for rule in rules {
        list.push(Found { rule })?;
    }
    Ok(list)
}

/// Appends the redundant rules, as a member.
fn push_results(out: &mut Vec<u8>, alloc: Global, rules: &[ExplainedRule]) -> Result<(), AllocError>
    ensures { OnOk result (out.new.items ≡ out.old.items ++ results_member (map explaining rules.now)) }
{
    let list = results_of(alloc, rules)?;
    push_list_member(out, alloc, "results", list.as_slice())
}

/// Appends the rules that can go by themselves, as one SARIF log (version 2.1.0) and a line end, with a notification for each profile of
/// which it can't be told.
pub(crate) fn push_sarif_rules(
    out: &mut Vec<u8>,
    alloc: Global,
    rules: &[ExplainedRule],
    untold: &[Untold],
) -> Result<(), AllocError>
    ensures { OnOk result (out.new.items ≡ out.old.items ++ sarif_rules (map explaining rules.now) (map untelling untold.now)) }
{
    push_sarif_head(out)?;
    push_results(out, alloc, rules)?;
    push_run(out, alloc, untold)?;
    push_text(out, "}]}\n")
}
