//! What is found, as a SARIF log.

ghost use Rattle.std.specs.Prelude.{◌≡◌, ◌++◌, Some, codes, map, OnOk, IfOk};
ghost use Rattle.aa_text.specs.Jsons.{member_text};
ghost use Rattle.aa_check.specs.Sarif.{message_text, location_text};
ghost use Rattle.aa_lint.specs.Telling.{standing, telling};
ghost use Rattle.aa_command.specs.Untold.{untelling};
ghost use Rattle.aa_lint.specs.Shown.{finding_text};
ghost use Rattle.aa_lint.specs.Sarif.{result_text, results_member, sarif_lint};
ghost use Rattle.aa_lint.specs.Listed.{found};

use crate::finding_names::name_of;
use crate::shown::push_finding;
use crate::told::{Site, Told};
use aa_check::{Level, Location, Message, push_rule_members, push_run, push_sarif_head};
use aa_command::Untold;
use aa_text::{ToJson, push_list_member, push_member, push_text};
use std::alloc::{AllocError, Global};

/// Appends what is found, as a member.
fn push_message(out: &mut Vec<u8>, alloc: Global, told: &Told) -> Result<(), AllocError>
    ensures { OnOk result (out.new.items ≡ out.old.items ++ member_text (codes "message") (message_text (finding_text (telling told.now)))) }
{
    let mut text = Vec::new(alloc);
    push_finding(&mut text, alloc, told)?;
    let bytes = text.as_slice();
    push_member(out, alloc, "message", &Message { bytes })
}

/// Appends where it is found, as a member.
fn push_location(out: &mut Vec<u8>, alloc: Global, at: &Site) -> Result<(), AllocError>
    ensures { OnOk result (out.new.items ≡ out.old.items ++ member_text (codes "locations") (location_text (standing at.now).path (Some (standing at.now).place))) }
{
    let path = at.path.as_slice();
    let place = Some(at.place);
    push_member(out, alloc, "locations", &Location { path, place })
}

#[tactic(auto, unfolding(crate::specs::Sarif::result_text))]
fn push_result(out: &mut Vec<u8>, alloc: Global, told: &Told) -> Result<(), AllocError>
    ensures { OnOk result (out.new.items ≡ out.old.items ++ result_text (telling told.now)) }
{
    push_rule_members(out, alloc, Level::Warning, name_of(told.kind))?;
    push_message(out, alloc, told)?;
    push_location(out, alloc, &told.at)?;
    push_text(out, "}")
}

/// A finding as it stands among the results.
#[derive(Clone, Copy)]
struct Found<'a> {
    told: &'a Told,
}

impl ToJson for Found<'_> {
    ghost use Rattle.aa_lint.specs.Telling.{telling};
    ghost use Rattle.aa_lint.specs.Sarif.{result_text};

    ghost json = { λ f. result_text (telling f.told.now) };

    fn push_json(&self, out: &mut Vec<u8>, alloc: Global) -> Result<(), AllocError> {
        push_result(out, alloc, self.told)
    }
}

/// The findings as results.
fn results_of<'a>(alloc: Global, all: &'a [Told]) -> Result<Vec<Found<'a>>, AllocError>
    ensures { IfOk result (λ list. found list.items ≡ map result_text (map telling all.now)) }
{
    let mut list = Vec::new(alloc);
    for told in all {
        list.push(Found { told })?;
    }
    Ok(list)
}

/// Appends the findings, as a member.
fn push_results(out: &mut Vec<u8>, alloc: Global, told: &[Told]) -> Result<(), AllocError>
    ensures { OnOk result (out.new.items ≡ out.old.items ++ results_member (map telling told.now)) }
{
    let list = results_of(alloc, told)?;
    push_list_member(out, alloc, "results", list.as_slice())
}

/// Appends what is found, as one SARIF log (version 2.1.0) and a line end: a result for each finding, and a notification for each
/// profile of which nothing can be found.
pub(crate) fn push_sarif_lint(
    out: &mut Vec<u8>,
    alloc: Global,
    told: &[Told],
    untold: &[Untold],
) -> Result<(), AllocError>
    ensures { OnOk result (out.new.items ≡ out.old.items ++ sarif_lint (map telling told.now) (map untelling untold.now)) }
{
    push_sarif_head(out)?;
    push_results(out, alloc, told)?;
    push_run(out, alloc, untold)?;
    push_text(out, "}]}\n")
}
