//! Redundant rules as they are printed in JSON.

ghost use Rattle.std.specs.Prelude.{◌≡◌, ◌++◌, codes, map, OnOk};
ghost use Rattle.aa_text.specs.Jsons.{key_text, member_text, list_text};
ghost use Rattle.aa_redundant.specs.Told.{telling, explaining};
ghost use Rattle.aa_command.specs.Untold.{untelling};
ghost use Rattle.aa_redundant.specs.Json.{json_told, json_rule, reason_key, json_explained, json_listed, json_counts, json_rules};

use crate::explained::ExplainedRule;
use crate::told::ToldRule;
use aa_command::{Untold, push_untold_member};
use aa_text::{
    ToJson, push_json_place, push_key, push_list, push_list_member, push_member, push_text,
};
use std::alloc::{AllocError, Global};

/// Appends where a rule stands, and how it reads.
#[tactic(auto, unfolding(crate::specs::Json::json_told))]
fn push_json_told(out: &mut Vec<u8>, alloc: Global, rule: &ToldRule) -> Result<(), AllocError>
    ensures { OnOk result (out.new.items ≡ out.old.items ++ json_told (telling rule.now)) }
{
    push_text(out, "{")?;
    push_json_place(out, alloc, rule.path.as_slice(), Some(rule.place))?;
    push_member(out, alloc, "rule", &rule.text)
}

impl ToJson for ToldRule {
    ghost use Rattle.aa_redundant.specs.Told.{telling};
    ghost use Rattle.aa_redundant.specs.Json.{json_rule};

    ghost json = { λ rule. json_rule (telling rule) };

    fn push_json(&self, out: &mut Vec<u8>, alloc: Global) -> Result<(), AllocError> {
        push_json_told(out, alloc, self)?;
        push_text(out, "}")
    }
}

fn reason_key(is_covered: bool) -> &'static str
    ensures { result.now ≡ reason_key is_covered }
{
    if is_covered {
        "covered_by"
    } else {
        "overruled_by"
    }
}

/// Appends the others as a member.
fn push_others(
    out: &mut Vec<u8>,
    alloc: Global,
    key: &str,
    rules: &[ToldRule],
) -> Result<(), AllocError>
    ensures { OnOk result (out.new.items ≡ out.old.items ++ member_text key.now (list_text (map json_rule (map telling rules.now)))) }
{
    push_list_member(out, alloc, key, rules)?;
    Ok(())
}

impl ToJson for ExplainedRule {
    ghost use Rattle.aa_redundant.specs.Told.{explaining};
    ghost use Rattle.aa_redundant.specs.Json.{json_explained};

    ghost json = { λ rule. json_explained (explaining rule) };

    #[tactic(auto, unfolding(crate::specs::Json::json_explained))]
    fn push_json(&self, out: &mut Vec<u8>, alloc: Global) -> Result<(), AllocError> {
        push_json_told(out, alloc, &self.rule)?;
        let others = self.others.as_slice();
        push_others(out, alloc, reason_key(self.is_covered), others)?;
        push_text(out, "}")
    }
}

/// Opens an object with a key.
fn push_first(out: &mut Vec<u8>, key: &str) -> Result<(), AllocError>
    ensures { OnOk result (out.new.items ≡ out.old.items ++ (codes "{" ++ key_text key.now)) }
{
    push_text(out, "{")?;
    push_key(out, key)
}

fn push_explained(
    out: &mut Vec<u8>,
    alloc: Global,
    rules: &[ExplainedRule],
) -> Result<(), AllocError>
    ensures { OnOk result (out.new.items ≡ out.old.items ++ list_text (map json_explained (map explaining rules.now))) }
{
    push_list(out, alloc, rules)?;
    Ok(())
}

/// Appends the rules that can go by themselves, those that can go together, and those that may lead to profiles of skipped files.
#[tactic(auto, unfolding(crate::specs::Json::json_listed))]
fn push_listed(
    out: &mut Vec<u8>,
    alloc: Global,
    redundant: &[ExplainedRule],
    undecided: &[ToldRule],
    going: &[ToldRule],
) -> Result<(), AllocError>
    ensures { OnOk result (out.new.items ≡ out.old.items ++ json_listed (map explaining redundant.now) (map telling undecided.now) (map telling going.now)) }
{
    push_first(out, "redundant")?;
    push_explained(out, alloc, redundant)?;
    push_others(out, alloc, "may_go", going)?;
    push_others(out, alloc, "undecided", undecided)
}

/// Appends how many rules decide nothing, and how many files are skipped.
#[tactic(auto, unfolding(crate::specs::Json::json_counts))]
fn push_counts(
    out: &mut Vec<u8>,
    alloc: Global,
    passed: usize,
    skipped: usize,
) -> Result<(), AllocError>
    ensures { OnOk result (out.new.items ≡ out.old.items ++ json_counts passed skipped) }
{
    push_member(out, alloc, "passed_over", &passed)?;
    push_member(out, alloc, "skipped_files", &skipped)
}

/// Appends these rules, the profiles of which it can't be told, how many rules decide nothing, and how many files are skipped, as one JSON
/// object and a line end.
#[tactic(auto, unfolding(crate::specs::Json::json_rules))]
pub(crate) fn push_json_rules(
    out: &mut Vec<u8>,
    alloc: Global,
    passed: usize,
    skipped: usize,
    redundant: &[ExplainedRule],
    untold: &[Untold],
    undecided: &[ToldRule],
    going: &[ToldRule],
) -> Result<(), AllocError>
    ensures { OnOk result (out.new.items ≡ out.old.items ++ json_rules passed skipped (map explaining redundant.now) (map untelling untold.now) (map telling undecided.now) (map telling going.now)) }
{
    push_listed(out, alloc, redundant, undecided, going)?;
    push_untold_member(out, alloc, untold)?;
    push_counts(out, alloc, passed, skipped)?;
    push_text(out, "}\n")
}
