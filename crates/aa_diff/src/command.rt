//! What `diff` prints.

ghost use Rattle.std.specs.Prelude.{◌≡◌, ◌++◌, ◌<◌, ◌≤◌, ◌==◌, ◌&&◌, ◌↔◌, [], map, Contains, IfOk, OnOk, if◌then◌else◌};
ghost use Rattle.aa_pattern.specs.Limits.{most_states};
ghost use Rattle.aa_differences.specs.declared.at_labels.Difference.{Difference};
ghost use Rattle.aa_differences.specs.declared.comparison.UntoldLabels.{UntoldLabels};
ghost use Rattle.aa_differences.specs.Same.{SamePolicies};
ghost use Rattle.aa_differences.specs.Differences.{IsDifference, IsUntold, ListAllBut};
ghost use Rattle.aa_command.specs.Setting.{setting_of};
ghost use Rattle.aa_command.specs.Printed.{printed, faults_alone};
ghost use Rattle.aa_load.specs.UnitPolicy.{limit_of};
ghost use Rattle.aa_files.specs.Texts.{texts};
ghost use Rattle.aa_files.specs.FilesData.{IsMainText};
ghost use Rattle.aa_ask.specs.Asked.{no_profile};
ghost use Rattle.aa_report.specs.Markdown.{markdown_of};
ghost use Rattle.aa_passed_over.specs.Apart.{apart};
ghost use Rattle.aa_diff.specs.Report.{report_text};
ghost use Rattle.aa_diff.specs.Accepted.{gone_of};
ghost use Rattle.aa_diff.specs.Untold.{doubts_data};
ghost use Rattle.aa_diff.specs.Sides.{IsMarked};
ghost use Rattle.aa_diff.specs.Command.{findings_in, status_by, status_of, reported, reported_but, printed_lines, compared, AreCompared, IsCompared, IsComparedBeside, IsNewSide, IsNewBeside, IsDiffBut, accepting, IsDiffBy, IsDiffOutput};

use crate::accepted::{findings_left, push_gone, rules_left};
use crate::deciding::decided_of;
use crate::finding::{Finding, is_one_counted};
use crate::html::push_html_report;
use crate::json::push_json_report;
use crate::naming::{no_profile, unnamed};
use crate::options::{DiffForm, DiffOptions};
use crate::order::in_order;
use crate::part::Part;
use crate::report::{lines_of, push_report};
use crate::sides::{mark, note, of_side};
use crate::unclean::all_told_unclean;
use crate::untold::{Doubts, all_untold};
use crate::untold_shown::push_large_faults;
use aa_command::{Decided, Output, Settings, Use, path_refused, unanswered, with_policy};
use aa_compile::Compiled;
use aa_differences::{Comparison, Difference, policy_differences};
use aa_files::{Tree, main_text};
use aa_passed_over::{Apart, rules_apart};
use aa_report::{entries_in, push_markdown};
use aa_skipped::{Skipped, UsePart, with_read_policy};
use aa_text::NoMemory;
use std::alloc::{AllocError, Global};

/// How many states an automaton may have.
fn limit_of(states: u32) -> usize
    ensures is { result ≡ limit_of states }
    ensures some { 0 < result }
    ensures bounded { result ≤ most_states }
{
    states.max(1).min(1_000_000) as usize
}

/// 4 where a finding counts or rules are passed over, else 5 where skipped files could tell something.
fn status_by(counts: bool, rules: usize, undecided: usize, apart: usize) -> u8
    ensures { result ≡ status_by counts rules undecided apart }
{
    if counts || rules != 0 {
        return 4;
    }
    if undecided == 0 && apart == 0 { 0 } else { 5 }
}

/// 1 where there are labels whose patterns are too many, before those.
fn status_of(too_large: usize, counts: bool, rules: usize, undecided: usize, apart: usize) -> u8
    ensures { result ≡ status_of too_large counts rules undecided apart }
{
    if too_large != 0 {
        return 1;
    }
    status_by(counts, rules, undecided, apart)
}

/// Appends the text of findings, of rules that are passed over, and of what isn't told, as Markdown.
fn push_markdown_report(
    out: &mut Vec<u8>,
    alloc: Global,
    policies: &[Compiled],
    findings: &[Finding],
    rules: &[Apart],
    doubts: &Doubts,
) -> Result<(), AllocError>
    ensures { OnOk result (out.new.items ≡ out.old.items ++ markdown_of (report_text policies.now findings.now (map apart rules.now) (doubts_data doubts.now))) }
{
    let mut text = Vec::new(alloc);
    push_report(&mut text, alloc, policies, findings, rules, doubts)?;
    push_markdown(out, alloc, text.as_slice())
}

/// Appends findings, rules that are passed over, and what isn't told, in the form that is wanted.
fn push_findings(
    out: &mut Vec<u8>,
    alloc: Global,
    options: &DiffOptions<'_>,
    policies: &[Compiled],
    findings: &[Finding],
    rules: &[Apart],
    doubts: &Doubts,
) -> Result<(), AllocError>
    ensures { OnOk result (out.new.items ≡ out.old.items ++ findings_in options.now.form options.now policies.now findings.now (map apart rules.now) (doubts_data doubts.now)) }
{
    match options.form {
        DiffForm::Text => push_report(out, alloc, policies, findings, rules, doubts),
        DiffForm::Json => push_json_report(out, alloc, options, policies, findings, rules, doubts),
        DiffForm::Html => push_html_report(out, alloc, options, policies, findings, rules, doubts),
        DiffForm::Markdown => {
            push_markdown_report(out, alloc, policies, findings, rules, doubts)
        }
    }
}

/// Prints findings, rules that are passed over, and what isn't told, beside which accepted findings there aren't and whose patterns are
/// too many.
fn print_found(
    alloc: Global,
    options: &DiffOptions<'_>,
    policies: &[Compiled],
    findings: &[Finding],
    rules: &[Apart],
    gone: Vec<u8>,
    doubts: &Doubts,
) -> Result<Output, NoMemory>
    ensures { IfOk result (λ out. printed out ≡ reported options.now policies.now findings.now (map apart rules.now) gone.items (doubts_data doubts.now)) }
{
    let mut output = Output::new(alloc);
    push_large_faults(&mut output.faults, alloc, doubts.too_large.as_slice())?;
    output.faults.extend_from_slice(gone.as_slice())?;
    push_findings(
        &mut output.answers,
        alloc,
        options,
        policies,
        findings,
        rules,
        doubts,
    )?;
    output.status = status_of(
        doubts.too_large.len(),
        is_one_counted(findings),
        rules.len(),
        doubts.undecided.len(),
        doubts.not_compared.len(),
    );
    Ok(output)
}

/// Which accepted findings there aren't.
fn gone_of(
    alloc: Global,
    policies: &[Compiled],
    accepted: &[Vec<u8>],
    findings: &[Finding],
    rules: &[Apart],
) -> Result<Vec<u8>, AllocError>
    ensures { IfOk result (λ gone. gone.items ≡ gone_of policies.now (texts accepted.now) findings.now (map apart rules.now)) }
{
    let mut gone = Vec::new(alloc);
    push_gone(&mut gone, alloc, policies, accepted, findings, rules)?;
    Ok(gone)
}

/// Prints those of findings and of rules that are passed over which are shown and not accepted.
fn print_but(
    alloc: Global,
    options: &DiffOptions<'_>,
    policies: &[Compiled],
    findings: &[Finding],
    rules: &[Apart],
    doubts: &Doubts,
) -> Result<Output, NoMemory>
    ensures { IfOk result (λ out. printed out ≡ reported_but options.now (texts options.now.accepted.now) policies.now findings.now (map apart rules.now) (doubts_data doubts.now)) }
{
    let accepted = options.accepted;
    let gone = gone_of(alloc, policies, accepted, findings, rules)?;
    let left = findings_left(alloc, policies, options.wanted, accepted, findings)?;
    let findings = in_order(policies, left)?;
    let rules = rules_left(alloc, policies, options.wanted, accepted, rules)?;
    print_found(
        alloc,
        options,
        policies,
        findings.as_slice(),
        rules.as_slice(),
        gone,
        doubts,
    )
}

/// Prints differences that no skipped file could decide.
fn print_decided(
    alloc: Global,
    options: &DiffOptions<'_>,
    old: Decided<'_>,
    new: Decided<'_>,
    differences: &[Difference],
    doubts: &Doubts,
) -> Result<Output, NoMemory>
    ensures { IfOk result (λ out. printed out ≡ printed_lines options.now old.entry new.entry differences.now (doubts_data doubts.now)) }
{
    let lines = lines_of(alloc, old, new, differences)?;
    let findings = all_told_unclean(alloc, options.unclean, lines)?;
    let rules = rules_apart(alloc, old, new)?;
    print_but(
        alloc,
        options,
        old.policies,
        findings.as_slice(),
        rules.as_slice(),
        doubts,
    )
}

/// Prints what comparing with so many states gave.
fn print_differences(
    alloc: Global,
    options: &DiffOptions<'_>,
    limit: usize,
    old: Part<'_>,
    new: Part<'_>,
    found: Comparison,
) -> Result<Output, NoMemory>
    ensures { IfOk result (λ out. printed out ≡ compared options.now limit old.entry new.entry found.differences.items found.untold.items) }
{
    let untold = found.untold.as_slice();
    let doubts = all_untold(alloc, options.wanted, limit, old, new, untold)?;
    let decided = decided_of(alloc, old, new, found.differences)?;
    print_decided(
        alloc,
        options,
        old.decided,
        new.decided,
        decided.as_slice(),
        &doubts,
    )
}

/// The differences of two policies. More lists of policies than a job may have never come here: they are answered with want of
/// memory, which the contracts leave free.
fn differences_of(
    alloc: Global,
    old: Decided<'_>,
    new: Decided<'_>,
    limit: usize,
) -> Result<Comparison, AllocError>
    requires some { 0 < limit }
    requires limit { limit ≤ most_states }
    ensures each { IfOk result (λ found. (d : Difference) → Contains found.differences.items d → IsDifference old.entry.policies.now new.entry.policies.now d) }
    ensures untold { IfOk result (λ found. (u : UntoldLabels) → Contains found.untold.items u → IsUntold old.entry.policies.now new.entry.policies.now limit u) }
    ensures all { IfOk result (λ found. ListAllBut old.entry.policies.now new.entry.policies.now found.untold.items found.differences.items) }
    ensures none { IfOk result (λ found. found.untold.items ≡ [] → (found.differences.items ≡ []) ↔ SamePolicies old.entry.policies.now new.entry.policies.now) }
{
    if old.policies.len() > 65536 || new.policies.len() > 65536 {
        return Err(AllocError);
    }
    policy_differences(alloc, old.policies, new.policies, limit)
}

/// Prints how two policies differ, and at which labels that can't be told.
fn compare_all(
    alloc: Global,
    options: &DiffOptions<'_>,
    states: u32,
    old: Part<'_>,
    new: Part<'_>,
) -> Result<Output, NoMemory>
    ensures compared { IfOk result (λ out. AreCompared options.now states old.entry new.entry (printed out)) }
    ensures low { IfOk result (λ out. out.status < 128) }
{
    let limit = limit_of(states);
    let found = differences_of(alloc, old.decided, new.decided, limit)?;
    print_differences(alloc, options, limit, old, new, found)
}

fn say_unnamed(alloc: Global, name: &[u8]) -> Result<Output, NoMemory>
    ensures { IfOk result (λ out. printed out ≡ faults_alone (no_profile name.now) 1) }
{
    let line = no_profile(alloc, name)?;
    Ok(unanswered(alloc, line))
}

/// The same, where somebody is called by each of the names that are wanted; else that nobody is by the first of the others.
fn compare(
    alloc: Global,
    options: &DiffOptions<'_>,
    states: u32,
    old: Part<'_>,
    new: Part<'_>,
) -> Result<Output, NoMemory>
    ensures compared { IfOk result (λ out. IsCompared options.now states old.entry new.entry (printed out)) }
    ensures low { IfOk result (λ out. out.status < 128) }
{
    match unnamed(alloc, old, new, options.wanted.names)? {
        Some(name) => say_unnamed(alloc, name),
        None => compare_all(alloc, options, states, old, new),
    }
}

/// The same, behind how many files the new side skips.
fn compare_beside(
    alloc: Global,
    options: &DiffOptions<'_>,
    states: u32,
    old: Part<'_>,
    skipped: &[Skipped],
    decided: Decided<'_>,
) -> Result<Output, NoMemory>
    ensures compared { IfOk result (λ out. IsComparedBeside options.now states old.entry skipped.now decided.entry (printed out)) }
    ensures low { IfOk result (λ out. out.status < 128) }
{
    let new = Part { decided, skipped };
    let own = compare(alloc, options, states, old, new)?;
    note(alloc, "NEW", skipped.len(), own)
}

/// Compares the policy of the old files with that of new ones.
#[derive(Drop)]
struct Comparing<'a> {
    options: &'a DiffOptions<'a>,
    states: u32,
    old: Part<'a>,
}

impl UsePart for Comparing<'_> {
    ghost gives = { λ a skipped d out. IsMarked (λ e q. IsComparedBeside a.options.now a.states a.old skipped e q) d out };

    fn use_part(
        &self,
        alloc: Global,
        skipped: &[Skipped],
        decided: Decided<'_>,
    ) -> Result<Output, NoMemory> {
        let output = compare_beside(alloc, self.options, self.states, self.old, skipped, decided)?;
        Ok(mark(output))
    }
}

impl Use for Comparing<'_> {
    ghost gives = { λ a d out. IsMarked (λ e q. IsComparedBeside a.options.now a.states a.old [] e q) d out };

    fn use_policy(&self, alloc: Global, decided: Decided<'_>) -> Result<Output, NoMemory> {
        self.use_part(alloc, &[], decided)
    }
}

/// Compares the policy of old files with that of the new ones.
#[derive(Drop)]
struct Reading<'a, T: Tree> {
    /// What lies on the new side.
    tree: &'a T,
    settings: &'a Settings<'a>,
    options: &'a DiffOptions<'a>,
}

/// Compiles the new files, or those that aren't skipped, and compares their policy with that of the old ones.
fn compare_new<T: Tree>(
    alloc: Global,
    tree: &T,
    settings: &Settings<'_>,
    options: &DiffOptions<'_>,
    old: Part<'_>,
) -> Result<Output, NoMemory>
    ensures of { IfOk result (λ out. IsNewSide (setting_of (T.files tree.now) (T.taken tree.now) (T.input tree.now) settings.now) options.now old.entry (printed out)) }
    ensures low { IfOk result (λ out. out.status < 128) }
{
    let comparing = Comparing {
        options,
        states: settings.states,
        old,
    };
    if options.skips {
        let output = with_read_policy(alloc, tree, settings, options.new, &comparing)?;
        return of_side(alloc, "NEW", output);
    }
    let output = with_policy(alloc, tree, settings, options.new, &comparing)?;
    of_side(alloc, "NEW", output)
}

/// The same, behind how many files the old side skips.
fn compare_new_beside<T: Tree>(
    alloc: Global,
    tree: &T,
    settings: &Settings<'_>,
    options: &DiffOptions<'_>,
    skipped: &[Skipped],
    decided: Decided<'_>,
) -> Result<Output, NoMemory>
    ensures of { IfOk result (λ out. IsNewBeside (setting_of (T.files tree.now) (T.taken tree.now) (T.input tree.now) settings.now) options.now skipped.now decided.entry (printed out)) }
    ensures low { IfOk result (λ out. out.status < 128) }
{
    let old = Part { decided, skipped };
    let own = compare_new(alloc, tree, settings, options, old)?;
    note(alloc, "OLD", skipped.len(), own)
}

impl<T: Tree> UsePart for Reading<'_, T> {
    ghost gives = { λ a skipped d out. IsMarked (λ e q. IsNewBeside (setting_of (T.files a.tree.now) (T.taken a.tree.now) (T.input a.tree.now) a.settings.now) a.options.now skipped e q) d out };

    fn use_part(
        &self,
        alloc: Global,
        skipped: &[Skipped],
        decided: Decided<'_>,
    ) -> Result<Output, NoMemory> {
        let output = compare_new_beside(
            alloc,
            self.tree,
            self.settings,
            self.options,
            skipped,
            decided,
        )?;
        Ok(mark(output))
    }
}

impl<T: Tree> Use for Reading<'_, T> {
    ghost gives = { λ a d out. IsMarked (λ e q. IsNewBeside (setting_of (T.files a.tree.now) (T.taken a.tree.now) (T.input a.tree.now) a.settings.now) a.options.now [] e q) d out };

    fn use_policy(&self, alloc: Global, decided: Decided<'_>) -> Result<Output, NoMemory> {
        self.use_part(alloc, &[], decided)
    }
}

/// Compares the old files with the new ones.
fn diff_but<T: Tree>(
    alloc: Global,
    before: &T,
    after: &T,
    old: &Settings<'_>,
    new: &Settings<'_>,
    options: &DiffOptions<'_>,
) -> Result<Output, NoMemory>
    ensures { IfOk result (λ out. IsDiffBut (setting_of (T.files before.now) (T.taken before.now) (T.input before.now) old.now) (setting_of (T.files after.now) (T.taken after.now) (T.input after.now) new.now) options.now (printed out)) }
{
    let reading = Reading {
        tree: after,
        settings: new,
        options,
    };
    if options.skips {
        let output = with_read_policy(alloc, before, old, options.old, &reading)?;
        return of_side(alloc, "OLD", output);
    }
    let output = with_policy(alloc, before, old, options.old, &reading)?;
    of_side(alloc, "OLD", output)
}

/// The same, where the findings of a text are accepted.
fn diff_accepting<T: Tree>(
    alloc: Global,
    before: &T,
    after: &T,
    old: &Settings<'_>,
    new: &Settings<'_>,
    options: &DiffOptions<'_>,
    accepted: &[Vec<u8>],
) -> Result<Output, NoMemory>
    ensures { IfOk result (λ out. IsDiffBut (setting_of (T.files before.now) (T.taken before.now) (T.input before.now) old.now) (setting_of (T.files after.now) (T.taken after.now) (T.input after.now) new.now) (accepting options.now accepted.entry) (printed out)) }
{
    let options = DiffOptions {
        old: options.old,
        new: options.new,
        wanted: options.wanted,
        form: options.form,
        skips: options.skips,
        accepted,
        known: options.known,
        unclean: options.unclean,
    };
    diff_but(alloc, before, after, old, new, &options)
}

/// The same by the text of the file with them.
fn diff_text<T: Tree>(
    alloc: Global,
    before: &T,
    after: &T,
    old: &Settings<'_>,
    new: &Settings<'_>,
    options: &DiffOptions<'_>,
    path: &[u8],
    text: &[u8],
) -> Result<Output, NoMemory>
    requires { IsMainText (T.files after.now) (T.input after.now) path.now text.now }
    ensures { IfOk result (λ out. IsDiffBy (setting_of (T.files before.now) (T.taken before.now) (T.input before.now) old.now) (setting_of (T.files after.now) (T.taken after.now) (T.input after.now) new.now) options.now path.now (printed out)) }
{
    let accepted = entries_in(alloc, text)?;
    diff_accepting(alloc, before, after, old, new, options, accepted.as_slice())
}

/// The same by the file with them.
fn diff_by<T: Tree>(
    alloc: Global,
    before: &T,
    after: &T,
    old: &Settings<'_>,
    new: &Settings<'_>,
    options: &DiffOptions<'_>,
    path: &[u8],
) -> Result<Output, NoMemory>
    ensures { IfOk result (λ out. IsDiffBy (setting_of (T.files before.now) (T.taken before.now) (T.input before.now) old.now) (setting_of (T.files after.now) (T.taken after.now) (T.input after.now) new.now) options.now path.now (printed out)) }
{
    match main_text(alloc, after, path) {
        Ok(text) => diff_text(
            alloc,
            before,
            after,
            old,
            new,
            options,
            path,
            text.as_slice(),
        ),
        Err(why) => path_refused(alloc, path, why),
    }
}

/// Compares the one policy that the old files of one tree are with that of the new ones of another. The file with findings that are
/// accepted, if there is one, is read first; of which of these there are none is told besides. A side that is refused is told as `ask`
/// tells it, with which side it is. Where files that are refused are skipped, the others are compared, and what the skipped ones could
/// change isn't told.
pub fn diff_files<T: Tree>(
    alloc: Global,
    before: &T,
    after: &T,
    old: &Settings<'_>,
    new: &Settings<'_>,
    options: &DiffOptions<'_>,
) -> Result<Output, NoMemory>
    ensures { IfOk result (λ out. IsDiffOutput (setting_of (T.files before.now) (T.taken before.now) (T.input before.now) old.now) (setting_of (T.files after.now) (T.taken after.now) (T.input after.now) new.now) options.now (printed out)) }
{
    match options.known {
        Some(path) => diff_by(alloc, before, after, old, new, options, path),
        None => diff_but(alloc, before, after, old, new, options),
    }
}
