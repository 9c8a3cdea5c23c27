//! The report of the differences of two policies, as JSON.

ghost use Rattle.std.specs.Prelude.{◌≡◌, ◌++◌, codes, decimal, map, length, OnOk, IfOk};
ghost use Rattle.aa_text.specs.Jsons.{key_text, bool_text, member_text, list_text};
ghost use Rattle.std.specs.List.{list_any};
ghost use Rattle.aa_diff.specs.declared.signs.Sign.TheVariants.{Gain, Loss};
ghost use Rattle.aa_passed_over.specs.Apart.{apart};
ghost use Rattle.aa_diff.specs.Findings.{is_uncounted};
ghost use Rattle.aa_diff.specs.Lines.{told, lines_with};
ghost use Rattle.aa_diff.specs.Printed.{asked_text};
ghost use Rattle.aa_diff.specs.Untold.{doubts_data};
ghost use Rattle.aa_diff.specs.Jsons.{json_accounting, json_profile, json_sign, json_start, json_told, json_line, json_lines, json_unclean_lines, json_unclean, json_names, json_profile_counts, json_line_counts, json_counts, json_paths, json_head, json_rule_side, json_rule_text, json_all_passed_over, json_profiles, json_found, json_report};

use crate::finding::{Finding, does_count, is_profile, is_uncounted};
use crate::lines::{Line, lines_with};
use crate::options::DiffOptions;
use crate::printing::{name_asked, push_asked, side_text, sign_text};
use crate::report::{count_lines, count_profiles, headed, is_profile_with, profiles_counted};
use crate::rules::Rule;
use crate::signs::Sign;
use crate::untold::Doubts;
use crate::untold_shown::push_json_untold;
use aa_ask::is_confined;
use aa_compile::{Compiled, name_of_label};
use aa_model::Label;
use aa_passed_over::Apart;
use aa_text::{
    ListItem, ToJson, push_comma, push_json_bytes, push_json_place, push_key, push_list,
    push_list_in, push_list_member, push_member, push_next_key, push_number, push_text,
};
use std::alloc::{AllocError, Global};

/// A rule: where it stands, and how it reads.
impl ToJson for Rule {
    ghost use Rattle.aa_diff.specs.Jsons.{json_rule};

    ghost json = { json_rule };

    #[tactic(auto, unfolding(crate::specs::Jsons::json_rule))]
    fn push_json(&self, out: &mut Vec<u8>, alloc: Global) -> Result<(), AllocError> {
        push_text(out, "{")?;
        push_json_place(out, alloc, self.path.as_slice(), Some(self.place))?;
        push_member(out, alloc, "rule", &self.text.as_slice())?;
        push_text(out, "}")
    }
}

/// Appends the rules that account for a line, as members.
fn push_json_accounting(
    out: &mut Vec<u8>,
    alloc: Global,
    finding: &Finding,
) -> Result<(), AllocError>
    ensures { OnOk result (out.new.items ≡ out.old.items ++ json_accounting finding.now) }
{
    push_list_member(out, alloc, "old_rules", finding.old_rules.as_slice())?;
    push_list_member(out, alloc, "new_rules", finding.new_rules.as_slice())
}

fn push_json_profile(
    out: &mut Vec<u8>,
    alloc: Global,
    policies: &[Compiled],
    label: Label,
) -> Result<(), AllocError>
    ensures { OnOk result (out.new.items ≡ out.old.items ++ json_profile policies.now label) }
{
    if is_confined(label) {
        return push_json_bytes(out, alloc, name_of_label(policies, label));
    }
    push_text(out, "null")
}

#[tactic(auto, unfolding(aa_text::specs::Jsons::member_text))]
fn push_json_sign(out: &mut Vec<u8>, sign: Sign) -> Result<(), AllocError>
    ensures { OnOk result (out.new.items ≡ out.old.items ++ json_sign sign) }
{
    push_next_key(out, "sign")?;
    push_text(out, "\"")?;
    push_text(out, sign_text(sign))?;
    push_text(out, "\"")
}

/// The first request of a finding as one word, which tells whose objects it holds of.
pub(crate) fn asked_word(alloc: Global, finding: &Finding) -> Result<Vec<u8>, AllocError>
    ensures { IfOk result (λ word. word.items ≡ asked_text finding.now) }
{
    let mut word = Vec::new(alloc);
    push_asked(&mut word, alloc, finding)?;
    Ok(word)
}

/// Opens the object of a line, and appends its profile, its sign and its request.
#[tactic(auto, unfolding(crate::specs::Jsons::json_start))]
fn push_json_start(
    out: &mut Vec<u8>,
    alloc: Global,
    policies: &[Compiled],
    finding: &Finding,
) -> Result<(), AllocError>
    ensures { OnOk result (out.new.items ≡ out.old.items ++ json_start policies.now finding.now) }
{
    let word = asked_word(alloc, finding)?;
    push_text(out, "{")?;
    push_key(out, "profile")?;
    push_json_profile(out, alloc, policies, finding.from)?;
    push_json_sign(out, finding.sign)?;
    push_member(out, alloc, "request", &word)
}

/// Appends how it was answered and is, and how many there are besides.
#[tactic(auto, unfolding(crate::specs::Jsons::json_told))]
fn push_json_told(out: &mut Vec<u8>, alloc: Global, finding: &Finding) -> Result<(), AllocError>
    ensures { OnOk result (out.new.items ≡ out.old.items ++ json_told finding.now) }
{
    push_member(out, alloc, "change", &finding.change.as_slice())?;
    push_member(out, alloc, "more", &finding.more)
}

/// Appends a line with its rules.
fn push_json_line(
    out: &mut Vec<u8>,
    alloc: Global,
    policies: &[Compiled],
    finding: &Finding,
) -> Result<(), AllocError>
    ensures { OnOk result (out.new.items ≡ out.old.items ++ json_line policies.now finding.now) }
{
    push_json_start(out, alloc, policies, finding)?;
    push_json_told(out, alloc, finding)?;
    push_json_accounting(out, alloc, finding)?;
    push_text(out, "}")
}

/// The policies by which profiles are called.
#[derive(Clone, Copy)]
struct Naming<'a> {
    policies: &'a [Compiled],
}

/// It stands among the lines, unless it is a profile that is gone or new, or doesn't count.
impl<'a> ListItem<Naming<'a>> for Finding {
    ghost use Rattle.aa_diff.specs.Jsons.{is_line, json_line};

    ghost stands = { λ naming finding. is_line finding };

    ghost item = { λ naming finding. json_line naming.policies.now finding };

    fn stands(&self, _naming: &Naming<'a>) -> bool {
        !is_profile(self) && does_count(self)
    }

    fn push_item(
        &self,
        out: &mut Vec<u8>,
        alloc: Global,
        naming: &Naming<'a>,
    ) -> Result<(), AllocError> {
        push_json_line(out, alloc, naming.policies, self)
    }
}

/// The policies by which profiles are called, where lines about unclean paths alone are listed.
#[derive(Clone, Copy)]
struct NamingUnclean<'a> {
    policies: &'a [Compiled],
}

/// It stands among these lines, if it is about such paths alone.
impl<'a> ListItem<NamingUnclean<'a>> for Finding {
    ghost use Rattle.aa_diff.specs.Findings.{is_uncounted};
    ghost use Rattle.aa_diff.specs.Jsons.{json_line};

    ghost stands = { λ naming finding. is_uncounted finding };

    ghost item = { λ naming finding. json_line naming.policies.now finding };

    fn stands(&self, _naming: &NamingUnclean<'a>) -> bool {
        is_uncounted(self)
    }

    fn push_item(
        &self,
        out: &mut Vec<u8>,
        alloc: Global,
        naming: &NamingUnclean<'a>,
    ) -> Result<(), AllocError> {
        push_json_line(out, alloc, naming.policies, self)
    }
}

/// It stands among the profiles that are gone, or that are new, as the sign says, with its name.
impl ListItem<Sign> for Finding {
    ghost use Rattle.aa_diff.specs.Report.{is_profile_with};
    ghost use Rattle.aa_diff.specs.Jsons.{json_name};

    ghost stands = { λ sign finding. is_profile_with sign finding };

    ghost item = { λ sign finding. json_name finding };

    fn stands(&self, sign: &Sign) -> bool {
        is_profile_with(*sign, self)
    }

    fn push_item(&self, out: &mut Vec<u8>, alloc: Global, _sign: &Sign) -> Result<(), AllocError> {
        push_json_bytes(out, alloc, name_asked(&self.request))
    }
}

fn push_json_lines(
    out: &mut Vec<u8>,
    alloc: Global,
    policies: &[Compiled],
    findings: &[Finding],
) -> Result<(), AllocError>
    ensures { OnOk result (out.new.items ≡ out.old.items ++ json_lines policies.now findings.now) }
{
    let naming = Naming { policies };
    push_list_in(out, alloc, &naming, findings)?;
    Ok(())
}

fn push_unclean_lines(
    out: &mut Vec<u8>,
    alloc: Global,
    policies: &[Compiled],
    findings: &[Finding],
) -> Result<(), AllocError>
    ensures { OnOk result (out.new.items ≡ out.old.items ++ json_unclean_lines policies.now findings.now) }
{
    let naming = NamingUnclean { policies };
    push_list_in(out, alloc, &naming, findings)?;
    Ok(())
}

fn push_json_names(
    out: &mut Vec<u8>,
    alloc: Global,
    sign: Sign,
    findings: &[Finding],
) -> Result<(), AllocError>
    ensures { OnOk result (out.new.items ≡ out.old.items ++ json_names sign findings.now) }
{
    push_list_in(out, alloc, &sign, findings)?;
    Ok(())
}

#[tactic(auto, unfolding(aa_text::specs::Jsons::member_text))]
fn push_lines_member(
    out: &mut Vec<u8>,
    alloc: Global,
    policies: &[Compiled],
    findings: &[Finding],
) -> Result<(), AllocError>
    ensures { OnOk result (out.new.items ≡ out.old.items ++ member_text (codes "lines") (json_lines policies.now findings.now)) }
{
    push_next_key(out, "lines")?;
    push_json_lines(out, alloc, policies, findings)
}

#[tactic(auto, unfolding(aa_text::specs::Jsons::member_text))]
fn push_unclean_member(
    out: &mut Vec<u8>,
    alloc: Global,
    policies: &[Compiled],
    findings: &[Finding],
) -> Result<(), AllocError>
    ensures { OnOk result (out.new.items ≡ out.old.items ++ member_text (codes "unclean") (json_unclean_lines policies.now findings.now)) }
{
    push_next_key(out, "unclean")?;
    push_unclean_lines(out, alloc, policies, findings)
}

fn is_one_unclean(findings: &[Finding]) -> bool
    ensures { result ≡ list_any is_uncounted findings.now }
{
    findings.iter().any(|finding| is_uncounted(finding))
}

/// Appends the lines about unclean paths alone, as a member, if there are some.
fn push_unclean(
    out: &mut Vec<u8>,
    alloc: Global,
    policies: &[Compiled],
    findings: &[Finding],
) -> Result<(), AllocError>
    ensures { OnOk result (out.new.items ≡ out.old.items ++ json_unclean policies.now findings.now) }
{
    if !is_one_unclean(findings) {
        return Ok(());
    }
    push_unclean_member(out, alloc, policies, findings)
}

#[tactic(auto, unfolding(aa_text::specs::Jsons::member_text))]
fn push_names_member(
    out: &mut Vec<u8>,
    alloc: Global,
    key: &str,
    sign: Sign,
    findings: &[Finding],
) -> Result<(), AllocError>
    ensures { OnOk result (out.new.items ≡ out.old.items ++ member_text key.now (json_names sign findings.now)) }
{
    push_next_key(out, key)?;
    push_json_names(out, alloc, sign, findings)
}

#[tactic(auto, unfolding(crate::specs::Jsons::json_profile_counts))]
fn push_profile_counts(
    out: &mut Vec<u8>,
    alloc: Global,
    policies: &[Compiled],
    left_out: usize,
    lines: &[Line<'_>],
    findings: &[Finding],
) -> Result<(), AllocError>
    ensures { OnOk result (out.new.items ≡ out.old.items ++ json_profile_counts policies.now left_out (map told lines.now) findings.now) }
{
    push_key(out, "compared")?;
    push_number(out, profiles_counted(policies, left_out, findings))?;
    push_member(out, alloc, "differ", &headed(lines))?;
    push_member(out, alloc, "gone", &count_profiles(Sign::Loss, findings))?;
    push_member(out, alloc, "new", &count_profiles(Sign::Gain, findings))
}

#[tactic(auto, unfolding(crate::specs::Jsons::json_line_counts))]
fn push_line_counts(
    out: &mut Vec<u8>,
    alloc: Global,
    findings: &[Finding],
    rules: usize,
) -> Result<(), AllocError>
    ensures { OnOk result (out.new.items ≡ out.old.items ++ json_line_counts findings.now rules) }
{
    push_member(out, alloc, "gain", &count_lines(Sign::Gain, findings))?;
    push_member(out, alloc, "lose", &count_lines(Sign::Loss, findings))?;
    push_member(out, alloc, "other", &count_lines(Sign::Other, findings))?;
    push_member(out, alloc, "passed_over", &rules)
}

fn push_counts(
    out: &mut Vec<u8>,
    alloc: Global,
    policies: &[Compiled],
    left_out: usize,
    lines: &[Line<'_>],
    findings: &[Finding],
    rules: usize,
) -> Result<(), AllocError>
    ensures { OnOk result (out.new.items ≡ out.old.items ++ json_counts policies.now left_out (map told lines.now) findings.now rules) }
{
    push_text(out, "{")?;
    push_profile_counts(out, alloc, policies, left_out, lines, findings)?;
    push_line_counts(out, alloc, findings, rules)?;
    push_text(out, "}")
}

/// Appends how many there are, as a member.
#[tactic(auto, unfolding(aa_text::specs::Jsons::member_text))]
fn push_counts_member(
    out: &mut Vec<u8>,
    alloc: Global,
    policies: &[Compiled],
    left_out: usize,
    findings: &[Finding],
    rules: &[Apart],
) -> Result<(), AllocError>
    ensures { OnOk result (out.new.items ≡ out.old.items ++ member_text (codes "counts") (json_counts policies.now left_out (lines_with policies.now findings.now (map apart rules.now)) findings.now (length (map apart rules.now)))) }
{
    let lines = lines_with(alloc, policies, findings, rules)?;
    push_next_key(out, "counts")?;
    push_counts(
        out,
        alloc,
        policies,
        left_out,
        lines.as_slice(),
        findings,
        rules.len(),
    )
}

/// Appends the profile of a rule that is passed over, and which policy alone has it.
#[tactic(auto, unfolding(crate::specs::Jsons::json_rule_side))]
fn push_rule_side(
    out: &mut Vec<u8>,
    alloc: Global,
    policies: &[Compiled],
    rule: &Apart,
) -> Result<(), AllocError>
    ensures { OnOk result (out.new.items ≡ out.old.items ++ json_rule_side policies.now (apart rule.now)) }
{
    let label = Label::Confined(0, rule.profile);
    push_key(out, "profile")?;
    push_json_bytes(out, alloc, name_of_label(policies, label))?;
    push_member(out, alloc, "only_in", &side_text(rule.side).as_bytes())
}

/// Appends where a rule that is passed over stands, and how it reads.
#[tactic(auto, unfolding(crate::specs::Jsons::json_rule_text))]
fn push_rule_text(out: &mut Vec<u8>, alloc: Global, rule: &Apart) -> Result<(), AllocError>
    ensures { OnOk result (out.new.items ≡ out.old.items ++ json_rule_text (apart rule.now)) }
{
    push_json_place(out, alloc, rule.rule.path.as_slice(), Some(rule.rule.place))?;
    push_member(out, alloc, "rule", &rule.rule.text)
}

/// A rule that is passed over and that one policy alone has.
impl<'a> ListItem<Naming<'a>> for Apart {
    ghost use Rattle.std.specs.Prelude.{true};
    ghost use Rattle.aa_passed_over.specs.Apart.{apart};
    ghost use Rattle.aa_diff.specs.Jsons.{json_passed_over};

    ghost stands = { λ naming rule. true };

    ghost item = { λ naming rule. json_passed_over naming.policies.now (apart rule) };

    fn stands(&self, _naming: &Naming<'a>) -> bool {
        true
    }

    fn push_item(
        &self,
        out: &mut Vec<u8>,
        alloc: Global,
        naming: &Naming<'a>,
    ) -> Result<(), AllocError> {
        push_text(out, "{")?;
        push_rule_side(out, alloc, naming.policies, self)?;
        push_comma(out, true)?;
        push_rule_text(out, alloc, self)?;
        push_text(out, "}")
    }
}

fn push_json_passed_over(
    out: &mut Vec<u8>,
    alloc: Global,
    policies: &[Compiled],
    rules: &[Apart],
) -> Result<(), AllocError>
    ensures { OnOk result (out.new.items ≡ out.old.items ++ json_all_passed_over policies.now (map apart rules.now)) }
{
    let naming = Naming { policies };
    push_list_in(out, alloc, &naming, rules)?;
    Ok(())
}

#[tactic(auto, unfolding(aa_text::specs::Jsons::member_text))]
fn push_rules_apart(
    out: &mut Vec<u8>,
    alloc: Global,
    policies: &[Compiled],
    rules: &[Apart],
) -> Result<(), AllocError>
    ensures { OnOk result (out.new.items ≡ out.old.items ++ member_text (codes "passed_over") (json_all_passed_over policies.now (map apart rules.now))) }
{
    push_next_key(out, "passed_over")?;
    push_json_passed_over(out, alloc, policies, rules)
}

/// Appends the profiles that are gone and those that are new, as members.
#[tactic(auto, unfolding(crate::specs::Jsons::json_profiles))]
fn push_json_profiles(
    out: &mut Vec<u8>,
    alloc: Global,
    findings: &[Finding],
) -> Result<(), AllocError>
    ensures { OnOk result (out.new.items ≡ out.old.items ++ json_profiles findings.now) }
{
    push_names_member(out, alloc, "gone_profiles", Sign::Loss, findings)?;
    push_names_member(out, alloc, "new_profiles", Sign::Gain, findings)
}

fn push_json_paths(out: &mut Vec<u8>, alloc: Global, paths: &[Vec<u8>]) -> Result<(), AllocError>
    ensures { OnOk result (out.new.items ≡ out.old.items ++ json_paths paths.now) }
{
    push_list(out, alloc, paths)?;
    Ok(())
}

/// Appends the paths of the new side, as a member.
#[tactic(auto, unfolding(aa_text::specs::Jsons::member_text))]
fn push_new_paths(out: &mut Vec<u8>, alloc: Global, paths: &[Vec<u8>]) -> Result<(), AllocError>
    ensures { OnOk result (out.new.items ≡ out.old.items ++ member_text (codes "new") (json_paths paths.now)) }
{
    push_next_key(out, "new")?;
    push_json_paths(out, alloc, paths)
}

/// Opens the object, and appends what is compared and whether gains alone are listed.
#[tactic(auto, unfolding(crate::specs::Jsons::json_head))]
fn push_json_head(
    out: &mut Vec<u8>,
    alloc: Global,
    options: &DiffOptions<'_>,
) -> Result<(), AllocError>
    ensures { OnOk result (out.new.items ≡ out.old.items ++ json_head options.now) }
{
    push_text(out, "{")?;
    push_key(out, "old")?;
    push_json_paths(out, alloc, options.old)?;
    push_new_paths(out, alloc, options.new)?;
    push_member(out, alloc, "gains_alone", &options.wanted.gains)
}

/// Appends the lines, those about unclean paths alone, the rules that are passed over, the profiles that are gone and that are new, how many there are, and what isn't told.
fn push_json_found(
    out: &mut Vec<u8>,
    alloc: Global,
    policies: &[Compiled],
    findings: &[Finding],
    rules: &[Apart],
    doubts: &Doubts,
) -> Result<(), AllocError>
    ensures { OnOk result (out.new.items ≡ out.old.items ++ json_found policies.now findings.now (map apart rules.now) (doubts_data doubts.now)) }
{
    push_lines_member(out, alloc, policies, findings)?;
    push_unclean(out, alloc, policies, findings)?;
    push_rules_apart(out, alloc, policies, rules)?;
    push_json_profiles(out, alloc, findings)?;
    push_counts_member(out, alloc, policies, doubts.left_out, findings, rules)?;
    push_json_untold(out, alloc, doubts)
}

/// Appends findings and rules that are passed over as one JSON object and a line end: what is compared, the lines, those about unclean paths alone, these rules, the profiles
/// that are gone and that are new, how many there are, and what isn't told.
pub(crate) fn push_json_report(
    out: &mut Vec<u8>,
    alloc: Global,
    options: &DiffOptions<'_>,
    policies: &[Compiled],
    findings: &[Finding],
    rules: &[Apart],
    doubts: &Doubts,
) -> Result<(), AllocError>
    ensures { OnOk result (out.new.items ≡ out.old.items ++ json_report options.now policies.now findings.now (map apart rules.now) (doubts_data doubts.now)) }
{
    push_json_head(out, alloc, options)?;
    push_json_found(out, alloc, policies, findings, rules, doubts)?;
    push_text(out, "}\n")
}
