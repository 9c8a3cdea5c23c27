//! The report of the differences of two policies, as a page.

ghost use Rattle.std.specs.Prelude.{◌≡◌, ◌++◌, None, codes, map, flat_map, OnOk, IfOk};
ghost use Rattle.std.specs.List.{list_any};
ghost use Rattle.aa_files.specs.Texts.{texts};
ghost use Rattle.aa_passed_over.specs.Apart.{apart};
ghost use Rattle.aa_diff.specs.Findings.{is_profile};
ghost use Rattle.aa_diff.specs.Untold.{untold, large, doubts_data};
ghost use Rattle.aa_diff.specs.UntoldShown.{untold_words, large_words};
ghost use Rattle.aa_diff.specs.Lines.{told, lines_with};
ghost use Rattle.aa_diff.specs.Html.{mark_of, side_mark, html_rule, html_accounting, html_asked, html_change, html_line, html_only, html_rule_alone, html_passed_over, html_told, profile_title, section_open, section_close, html_closing, html_heading, html_confined, html_gone, html_profile, html_profile_if, profiles_section, html_profiles, html_free_if, html_free, html_path, html_paths, html_gains, html_head, html_counts, html_untold, html_large, html_all_untold, skipped_paragraph, html_skipped, html_known, html_sections, html_report};

use crate::finding::{Finding, is_profile};
use crate::json::asked_word;
use crate::lines::{Line, label_of, lines_with};
use crate::options::DiffOptions;
use crate::printing::{
    gone_text, is_behind, is_free, is_one_free, name_asked, push_more, push_only as push_unclean,
    side_text,
};
use crate::report::{push_line_counts, push_profile_counts, push_rules_count};
use crate::rules::Rule;
use crate::signs::Sign;
use crate::untold::{Doubt, Doubts, TooLarge};
use crate::untold_shown::{count_of, push_large_words, push_skipped, push_words};
use aa_ask::is_confined;
use aa_compile::{Compiled, name_of_label};
use aa_model::Label;
use aa_notation::push_word;
use aa_page::{
    Mark, push_code, push_line_end, push_line_start, push_list_end, push_list_start, push_page_end,
    push_page_start, push_paragraph, push_rule, push_section_end, push_section_start, push_shown,
};
use aa_passed_over::{Apart, Side};
use aa_text::{push_name, push_text};
use std::alloc::{AllocError, Global};

fn mark_of(sign: Sign) -> Mark
    ensures { result ≡ mark_of sign }
{
    match sign {
        Sign::Gain => Mark::Gain,
        Sign::Loss => Mark::Loss,
        Sign::Other => Mark::Other,
    }
}

fn side_mark(side: Side) -> Mark
    ensures { result ≡ side_mark side }
{
    match side {
        Side::Old => Mark::Old,
        Side::New => Mark::New,
    }
}

/// Appends the rules of one side.
fn push_rules(
    out: &mut Vec<u8>,
    alloc: Global,
    mark: Mark,
    rules: &[Rule],
) -> Result<(), AllocError>
    ensures { OnOk result (out.new.items ≡ out.old.items ++ flat_map (html_rule mark) rules.now) }
{
    for rule in rules {
        push_rule(
            out,
            alloc,
            mark,
            rule.path.as_slice(),
            rule.place,
            rule.text.as_slice(),
        )?;
    }
    Ok(())
}

/// Appends the rules that account for a line.
#[tactic(auto, unfolding(crate::specs::Html::html_accounting))]
fn push_accounting(out: &mut Vec<u8>, alloc: Global, finding: &Finding) -> Result<(), AllocError>
    ensures { OnOk result (out.new.items ≡ out.old.items ++ html_accounting finding.now) }
{
    push_list_start(out)?;
    push_rules(out, alloc, Mark::Old, finding.old_rules.as_slice())?;
    push_rules(out, alloc, Mark::New, finding.new_rules.as_slice())?;
    push_list_end(out)
}

/// Begins the line of a finding, and appends that it is about unclean paths alone, if so it is, and its first request.
#[tactic(auto, unfolding(crate::specs::Html::html_asked))]
fn push_asked(out: &mut Vec<u8>, alloc: Global, finding: &Finding) -> Result<(), AllocError>
    ensures { OnOk result (out.new.items ≡ out.old.items ++ html_asked finding.now) }
{
    let word = asked_word(alloc, finding)?;
    push_line_start(out, mark_of(finding.sign))?;
    push_unclean(out, finding.unclean)?;
    push_code(out, alloc, word.as_slice())
}

/// Appends how it was answered and is, and how many there are besides.
#[tactic(auto, unfolding(crate::specs::Html::html_change))]
fn push_change(out: &mut Vec<u8>, alloc: Global, finding: &Finding) -> Result<(), AllocError>
    ensures { OnOk result (out.new.items ≡ out.old.items ++ html_change finding.now) }
{
    push_text(out, " ")?;
    push_shown(out, alloc, finding.change.as_slice())?;
    push_more(out, finding.more)
}

/// Appends the line of a finding, with its rules.
#[tactic(auto, unfolding(crate::specs::Html::html_line))]
fn push_line(out: &mut Vec<u8>, alloc: Global, finding: &Finding) -> Result<(), AllocError>
    ensures { OnOk result (out.new.items ≡ out.old.items ++ html_line finding.now) }
{
    push_asked(out, alloc, finding)?;
    push_change(out, alloc, finding)?;
    push_accounting(out, alloc, finding)?;
    push_line_end(out)
}

/// Appends which policy alone has a rule.
#[tactic(auto, unfolding(crate::specs::Html::html_only))]
fn push_only(out: &mut Vec<u8>, side: Side) -> Result<(), AllocError>
    ensures { OnOk result (out.new.items ≡ out.old.items ++ html_only side) }
{
    push_text(out, "only in ")?;
    push_text(out, side_text(side))
}

/// Appends a rule that one policy alone has, in a list.
#[tactic(auto, unfolding(crate::specs::Html::html_rule_alone))]
fn push_rule_alone(out: &mut Vec<u8>, alloc: Global, rule: &Apart) -> Result<(), AllocError>
    ensures { OnOk result (out.new.items ≡ out.old.items ++ html_rule_alone (apart rule.now)) }
{
    push_list_start(out)?;
    push_rule(
        out,
        alloc,
        side_mark(rule.side),
        rule.rule.path.as_slice(),
        rule.rule.place,
        rule.rule.text.as_slice(),
    )?;
    push_list_end(out)
}

/// Appends the line of a rule that is passed over.
#[tactic(auto, unfolding(crate::specs::Html::html_passed_over))]
fn push_passed_over(out: &mut Vec<u8>, alloc: Global, rule: &Apart) -> Result<(), AllocError>
    ensures { OnOk result (out.new.items ≡ out.old.items ++ html_passed_over (apart rule.now)) }
{
    push_line_start(out, Mark::PassedOver)?;
    push_only(out, rule.side)?;
    push_rule_alone(out, alloc, rule)?;
    push_line_end(out)
}

fn push_told(out: &mut Vec<u8>, alloc: Global, line: Line<'_>) -> Result<(), AllocError>
    ensures { OnOk result (out.new.items ≡ out.old.items ++ html_told (told line.entry)) }
{
    match line {
        Line::Found(finding) => push_line(out, alloc, finding),
        Line::PassedOver(rule) => push_passed_over(out, alloc, rule),
    }
}

/// Begins a section with a list.
#[tactic(auto, unfolding(crate::specs::Html::section_open))]
fn push_section_open(out: &mut Vec<u8>, alloc: Global, title: &[u8]) -> Result<(), AllocError>
    ensures { OnOk result (out.new.items ≡ out.old.items ++ section_open title.now) }
{
    push_section_start(out, alloc, true, title)?;
    push_list_start(out)
}

/// Ends a section with a list.
#[tactic(auto, unfolding(crate::specs::Html::section_close))]
fn push_section_close(out: &mut Vec<u8>) -> Result<(), AllocError>
    ensures { OnOk result (out.new.items ≡ out.old.items ++ section_close) }
{
    push_list_end(out)?;
    push_section_end(out)
}

/// What a profile is called, as the title of its section.
fn profile_title(alloc: Global, policies: &[Compiled], label: Label) -> Result<Vec<u8>, AllocError>
    ensures { IfOk result (λ title. title.items ≡ profile_title policies.now label) }
{
    let mut title = Vec::new(alloc);
    push_text(&mut title, "profile ")?;
    push_name(&mut title, alloc, name_of_label(policies, label))?;
    Ok(title)
}

/// Ends the section of the line before, if there is one.
fn push_closing(out: &mut Vec<u8>, before: Option<Label>) -> Result<(), AllocError>
    ensures { OnOk result (out.new.items ≡ out.old.items ++ html_closing before) }
{
    match before {
        Some(_) => push_section_close(out),
        None => Ok(()),
    }
}

/// Begins the section of a profile, where the line before is of another.
fn push_heading(
    out: &mut Vec<u8>,
    alloc: Global,
    policies: &[Compiled],
    before: Option<Label>,
    label: Label,
) -> Result<(), AllocError>
    ensures { OnOk result (out.new.items ≡ out.old.items ++ html_heading policies.now before label) }
{
    if is_behind(before, label) {
        return Ok(());
    }
    let title = profile_title(alloc, policies, label)?;
    push_closing(out, before)?;
    push_section_open(out, alloc, title.as_slice())
}

/// Appends the lines about profiles, those of each profile in a section.
fn push_confined(
    out: &mut Vec<u8>,
    alloc: Global,
    policies: &[Compiled],
    lines: &[Line<'_>],
) -> Result<(), AllocError>
    ensures { OnOk result (out.new.items ≡ out.old.items ++ html_confined policies.now None (map told lines.now)) }
{
    let mut before: Option<Label> = None;
    let mut rest = lines;
    while let [line, after @ ..] = rest {
        let label = label_of(*line);
        if is_confined(label) {
            push_heading(out, alloc, policies, before, label)?;
            push_told(out, alloc, *line)?;
            before = Some(label);
        }
        rest = after;
    }
    push_closing(out, before)
}

/// Begins the line of a profile that is gone or new.
#[tactic(auto, unfolding(crate::specs::Html::html_gone))]
fn push_gone(out: &mut Vec<u8>, alloc: Global, finding: &Finding) -> Result<(), AllocError>
    ensures { OnOk result (out.new.items ≡ out.old.items ++ html_gone finding.now) }
{
    let mut name = Vec::new(alloc);
    push_name(&mut name, alloc, name_asked(&finding.request))?;
    push_line_start(out, mark_of(finding.sign))?;
    push_text(out, "profile ")?;
    push_code(out, alloc, name.as_slice())?;
    push_text(out, gone_text(finding.sign))
}

/// Appends the line of a profile that is gone or new.
#[tactic(auto, unfolding(crate::specs::Html::html_profile))]
fn push_profile(out: &mut Vec<u8>, alloc: Global, finding: &Finding) -> Result<(), AllocError>
    ensures { OnOk result (out.new.items ≡ out.old.items ++ html_profile finding.now) }
{
    let mut word = Vec::new(alloc);
    push_word(&mut word, &finding.request)?;
    push_gone(out, alloc, finding)?;
    push_code(out, alloc, word.as_slice())?;
    push_line_end(out)
}

fn push_profile_if(out: &mut Vec<u8>, alloc: Global, finding: &Finding) -> Result<(), AllocError>
    ensures { OnOk result (out.new.items ≡ out.old.items ++ html_profile_if finding.now) }
{
    if !is_profile(finding) {
        return Ok(());
    }
    push_profile(out, alloc, finding)
}

fn push_each_profile(
    out: &mut Vec<u8>,
    alloc: Global,
    findings: &[Finding],
) -> Result<(), AllocError>
    ensures { OnOk result (out.new.items ≡ out.old.items ++ flat_map html_profile_if findings.now) }
{
    for finding in findings {
        push_profile_if(out, alloc, finding)?;
    }
    Ok(())
}

fn is_one_profile(findings: &[Finding]) -> bool
    ensures { result ≡ list_any is_profile findings.now }
{
    findings.iter().any(|finding| is_profile(finding))
}

/// Appends the profiles that are gone or new in a section.
#[tactic(auto, unfolding(crate::specs::Html::profiles_section))]
fn push_profiles_section(
    out: &mut Vec<u8>,
    alloc: Global,
    findings: &[Finding],
) -> Result<(), AllocError>
    ensures { OnOk result (out.new.items ≡ out.old.items ++ profiles_section findings.now) }
{
    push_section_open(out, alloc, "gone, new".as_bytes())?;
    push_each_profile(out, alloc, findings)?;
    push_section_close(out)
}

/// Appends the profiles that are gone or new in a section, if there are any.
fn push_profiles(out: &mut Vec<u8>, alloc: Global, findings: &[Finding]) -> Result<(), AllocError>
    ensures { OnOk result (out.new.items ≡ out.old.items ++ html_profiles findings.now) }
{
    if !is_one_profile(findings) {
        return Ok(());
    }
    push_profiles_section(out, alloc, findings)
}

fn push_free_if(out: &mut Vec<u8>, alloc: Global, finding: &Finding) -> Result<(), AllocError>
    ensures { OnOk result (out.new.items ≡ out.old.items ++ html_free_if finding.now) }
{
    if !is_free(finding) {
        return Ok(());
    }
    push_line(out, alloc, finding)
}

fn push_each_free(out: &mut Vec<u8>, alloc: Global, findings: &[Finding]) -> Result<(), AllocError>
    ensures { OnOk result (out.new.items ≡ out.old.items ++ flat_map html_free_if findings.now) }
{
    for finding in findings {
        push_free_if(out, alloc, finding)?;
    }
    Ok(())
}

/// Appends the findings of unconfined tasks in a section, if there are any.
fn push_free(out: &mut Vec<u8>, alloc: Global, findings: &[Finding]) -> Result<(), AllocError>
    ensures { OnOk result (out.new.items ≡ out.old.items ++ html_free findings.now) }
{
    if !is_one_free(findings) {
        return Ok(());
    }
    push_section_open(out, alloc, "unconfined".as_bytes())?;
    push_each_free(out, alloc, findings)?;
    push_section_close(out)
}

fn push_path(out: &mut Vec<u8>, alloc: Global, path: &[u8]) -> Result<(), AllocError>
    ensures { OnOk result (out.new.items ≡ out.old.items ++ html_path path.now) }
{
    push_text(out, " ")?;
    push_code(out, alloc, path)
}

fn push_each_path(out: &mut Vec<u8>, alloc: Global, paths: &[Vec<u8>]) -> Result<(), AllocError>
    ensures { OnOk result (out.new.items ≡ out.old.items ++ flat_map html_path (texts paths.now)) }
{
    for path in paths {
        push_path(out, alloc, path.as_slice())?;
    }
    Ok(())
}

/// Appends the files of a side.
#[tactic(auto, unfolding(crate::specs::Html::html_paths))]
fn push_paths(
    out: &mut Vec<u8>,
    alloc: Global,
    side: &str,
    paths: &[Vec<u8>],
) -> Result<(), AllocError>
    ensures { OnOk result (out.new.items ≡ out.old.items ++ html_paths side.now (texts paths.now)) }
{
    push_text(out, "<p>")?;
    push_text(out, side)?;
    push_each_path(out, alloc, paths)?;
    push_text(out, "</p>\n")
}

fn push_gains(out: &mut Vec<u8>, gains: bool) -> Result<(), AllocError>
    ensures { OnOk result (out.new.items ≡ out.old.items ++ html_gains gains) }
{
    push_text(out, if gains { "<p>gains alone</p>\n" } else { "" })
}

/// Begins the page with what is compared.
#[tactic(auto, unfolding(crate::specs::Html::html_head))]
fn push_head(out: &mut Vec<u8>, alloc: Global, options: &DiffOptions<'_>) -> Result<(), AllocError>
    ensures { OnOk result (out.new.items ≡ out.old.items ++ html_head options.now) }
{
    push_page_start(out, alloc, "aapolicy diff".as_bytes())?;
    push_paths(out, alloc, "OLD", options.old)?;
    push_paths(out, alloc, "NEW", options.new)?;
    push_gains(out, options.wanted.gains)
}

/// Appends how many there are.
#[tactic(auto, unfolding(crate::specs::Html::html_counts))]
fn push_counts(
    out: &mut Vec<u8>,
    policies: &[Compiled],
    left_out: usize,
    lines: &[Line<'_>],
    findings: &[Finding],
    rules: usize,
) -> Result<(), AllocError>
    ensures { OnOk result (out.new.items ≡ out.old.items ++ html_counts policies.now left_out (map told lines.now) findings.now rules) }
{
    push_text(out, "<p>")?;
    push_profile_counts(out, policies, left_out, lines, findings)?;
    push_line_counts(out, findings)?;
    push_rules_count(out, rules)?;
    push_text(out, "</p>\n")
}

/// Appends that something isn't told, as a paragraph.
#[tactic(auto, unfolding(crate::specs::Html::html_untold))]
fn push_untold(
    out: &mut Vec<u8>,
    alloc: Global,
    words: &str,
    doubt: &Doubt,
) -> Result<(), AllocError>
    ensures { OnOk result (out.new.items ≡ out.old.items ++ html_untold words.now (untold doubt.now)) }
{
    let mut text = Vec::new(alloc);
    push_words(&mut text, alloc, words, doubt)?;
    push_paragraph(out, alloc, text.as_slice())
}

fn push_each_untold(
    out: &mut Vec<u8>,
    alloc: Global,
    words: &str,
    doubts: &[Doubt],
) -> Result<(), AllocError>
    ensures { OnOk result (out.new.items ≡ out.old.items ++ flat_map (html_untold words.now) (map untold doubts.now)) }
{
    for doubt in doubts {
        push_untold(out, alloc, words, doubt)?;
    }
    Ok(())
}

/// Appends who isn't compared, and why, as a paragraph.
#[tactic(auto, unfolding(crate::specs::Html::html_large))]
fn push_large(out: &mut Vec<u8>, alloc: Global, one: &TooLarge) -> Result<(), AllocError>
    ensures { OnOk result (out.new.items ≡ out.old.items ++ html_large (large one.now)) }
{
    let mut text = Vec::new(alloc);
    push_large_words(&mut text, alloc, one)?;
    push_paragraph(out, alloc, text.as_slice())
}

fn push_each_large(
    out: &mut Vec<u8>,
    alloc: Global,
    too_large: &[TooLarge],
) -> Result<(), AllocError>
    ensures { OnOk result (out.new.items ≡ out.old.items ++ flat_map html_large (map large too_large.now)) }
{
    for one in too_large {
        push_large(out, alloc, one)?;
    }
    Ok(())
}

/// Appends at which labels something is undecided, and which profiles aren't compared.
fn push_all_untold(out: &mut Vec<u8>, alloc: Global, doubts: &Doubts) -> Result<(), AllocError>
    ensures { OnOk result (out.new.items ≡ out.old.items ++ html_all_untold (doubts_data doubts.now)) }
{
    push_each_untold(out, alloc, " undecided: ", doubts.undecided.as_slice())?;
    push_each_untold(
        out,
        alloc,
        " not compared: ",
        doubts.not_compared.as_slice(),
    )?;
    push_each_large(out, alloc, doubts.too_large.as_slice())
}

/// Appends how many files are skipped, as a paragraph.
#[tactic(auto, unfolding(crate::specs::Html::skipped_paragraph))]
fn push_skipped_paragraph(out: &mut Vec<u8>, doubts: &Doubts) -> Result<(), AllocError>
    ensures { OnOk result (out.new.items ≡ out.old.items ++ skipped_paragraph (doubts_data doubts.now)) }
{
    push_text(out, "<p>")?;
    push_skipped(out, doubts)?;
    push_text(out, "</p>\n")
}

/// The same, if there are any.
fn push_skipped_if(out: &mut Vec<u8>, doubts: &Doubts) -> Result<(), AllocError>
    ensures { OnOk result (out.new.items ≡ out.old.items ++ html_skipped (doubts_data doubts.now)) }
{
    if count_of(doubts.old.as_slice(), doubts.new.as_slice()) == 0 {
        return Ok(());
    }
    push_skipped_paragraph(out, doubts)
}

/// Appends how many there are, how many files are skipped, and what isn't told for that.
fn push_known(
    out: &mut Vec<u8>,
    alloc: Global,
    policies: &[Compiled],
    lines: &[Line<'_>],
    findings: &[Finding],
    rules: usize,
    doubts: &Doubts,
) -> Result<(), AllocError>
    ensures { OnOk result (out.new.items ≡ out.old.items ++ html_known policies.now (map told lines.now) findings.now rules (doubts_data doubts.now)) }
{
    push_counts(out, policies, doubts.left_out, lines, findings, rules)?;
    push_skipped_if(out, doubts)?;
    push_all_untold(out, alloc, doubts)
}

fn push_sections(
    out: &mut Vec<u8>,
    alloc: Global,
    policies: &[Compiled],
    lines: &[Line<'_>],
    findings: &[Finding],
) -> Result<(), AllocError>
    ensures { OnOk result (out.new.items ≡ out.old.items ++ html_sections policies.now (map told lines.now) findings.now) }
{
    push_confined(out, alloc, policies, lines)?;
    push_profiles(out, alloc, findings)?;
    push_free(out, alloc, findings)
}

/// Appends the page of findings, of rules that are passed over and that one policy alone has, and of what isn't told.
pub(crate) fn push_html_report(
    out: &mut Vec<u8>,
    alloc: Global,
    options: &DiffOptions<'_>,
    policies: &[Compiled],
    findings: &[Finding],
    rules: &[Apart],
    doubts: &Doubts,
) -> Result<(), AllocError>
    ensures { OnOk result (out.new.items ≡ out.old.items ++ html_report options.now policies.now findings.now (map apart rules.now) (doubts_data doubts.now)) }
{
    let lines = lines_with(alloc, policies, findings, rules)?;
    push_head(out, alloc, options)?;
    push_known(
        out,
        alloc,
        policies,
        lines.as_slice(),
        findings,
        rules.len(),
        doubts,
    )?;
    push_sections(out, alloc, policies, lines.as_slice(), findings)?;
    push_page_end(out)
}
