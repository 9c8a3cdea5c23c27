//! What `redundant` prints.

ghost use Rattle.std.specs.Prelude.{◌≡◌, ◌++◌, ◌<◌, ◌≤◌, [], length, map, Contains, IfOk, OnOk};
ghost use Rattle.aa_files.specs.Texts.{slices};
ghost use Rattle.aa_pattern.specs.Limits.{most_states};
ghost use Rattle.aa_compile.specs.Labels.{first_profiles};
ghost use Rattle.aa_load.specs.UnitPolicy.{limit_of};
ghost use Rattle.aa_command.specs.Setting.{setting_of};
ghost use Rattle.aa_command.specs.Printed.{printed};
ghost use Rattle.aa_redundancy.specs.declared.fault.UntoldProfile.{UntoldProfile};
ghost use Rattle.aa_redundancy.specs.Kept.{IsUntold, KeptAlike, KeptWithin};
ghost use Rattle.aa_redundancy.specs.Going.{AreGoing};
ghost use Rattle.aa_redundancy.specs.Places.{ProfileAlike, ProfileWithin};
ghost use Rattle.aa_redundancy.specs.Reasons.{AreReasons};
ghost use Rattle.aa_redundant.specs.Places.{all_places, all_numbers};
ghost use Rattle.aa_redundant.specs.Leading.{AreOpen};
ghost use Rattle.aa_redundant.specs.Told.{telling, explaining};
ghost use Rattle.aa_command.specs.Untold.{untelling, untold_lines};
ghost use Rattle.aa_redundant.specs.Accepted.{gone_among};
ghost use Rattle.aa_report.specs.Lines.{lines_in};
ghost use Rattle.aa_redundant.specs.Command.{Spares, OfProfiles, status_by, status_of, rules_printed, redundant_printed, IsRedundantOf, IsRedundantBut, IsRedundantBy, IsRedundantOutput};
ghost use Rattle.aa_command.specs.Counts.{passed_in};

use crate::accepted::{held, push_gone_among, unknown_of};
use crate::explained::{ExplainedRule, all_explained, all_undecided};
use crate::forms::push_answers;
use crate::known::known_places;
use crate::leading::open_places;
use crate::numbers::all_numbers;
use crate::places::{RulePlace, rule_places};
use crate::told::{ToldRule, rules_of};
use crate::untold::all_untold;
use aa_check::Form;
use aa_command::{
    Decided, Output, Settings, Untold, Use, passed_in, path_refused, push_untold_lines, with_policy,
};
use aa_compile::first_profiles;
use aa_files::{Tree, main_text};
use aa_redundancy::{
    PlaceNumbers, Redundant, marks_of_places, redundant_places, rules_beside_none_match_nothing,
    spared_rules_change_no_reply,
};
use aa_report::lines_in;
use aa_skipped::{Skipped, UsePart, with_read_policy};
use aa_text::NoMemory;
use std::alloc::{AllocError, Global};

/// Which files are looked at, and how the answer is printed.
#[derive(Clone, Copy)]
pub struct RedundantOptions<'a> {
    /// The files with profiles.
    pub files: &'a [Vec<u8>],
    /// The file with redundant rules that are accepted, a line each as it is printed.
    pub known: Option<&'a [u8]>,
    pub form: Form,
    /// Whether files that are refused are skipped.
    pub skips: bool,
}

/// How many states an automaton may have.
fn limit_of(states: u32) -> usize
    ensures is { result ≡ limit_of states }
    ensures some { 0 < result }
    ensures bounded { result ≤ most_states }
{
    states.max(1).min(1_000_000) as usize
}

/// The places that can go, and why.
fn redundant_in(
    alloc: Global,
    states: u32,
    decided: Decided<'_>,
    numbers: &[PlaceNumbers],
    count: usize,
    held: &[bool],
) -> Result<Redundant, AllocError>
    requires numbers { numbers.now ≡ all_numbers decided }
    requires count { count ≡ length (all_places decided) }
    ensures going { IfOk result (λ r. AreGoing (Spares decided.entry r.untold.items) (length (all_places decided.entry)) held.now r.going) }
    ensures reasons { IfOk result (λ r. AreReasons (OfProfiles ProfileAlike KeptAlike decided.entry r.untold.items) (OfProfiles ProfileWithin KeptWithin decided.entry r.untold.items) r.going.alone.items r.reasons.items) }
    ensures untold { IfOk result (λ r. (u : UntoldProfile) → Contains r.untold.items u → IsUntold (first_profiles decided.entry.policies.now) (limit_of states) u) }
{
    let profiles = first_profiles(decided.policies);
    redundant_places(alloc, profiles, numbers, count, held, limit_of(states))
}

/// 4 where a rule can go, and else 5 where files are skipped.
fn status_by(redundant: &[ExplainedRule], skipped: &[Skipped]) -> u8
    ensures { result ≡ status_by (map explaining redundant.now) skipped.now }
{
    if !redundant.is_empty() {
        return 4;
    }
    if skipped.is_empty() { 0 } else { 5 }
}

/// 1 where there are profiles that can't be told, before those.
fn status_of(untold: &[Untold], redundant: &[ExplainedRule], skipped: &[Skipped]) -> u8
    ensures { result ≡ status_of (map untelling untold.now) (map explaining redundant.now) skipped.now }
{
    if !untold.is_empty() {
        return 1;
    }
    status_by(redundant, skipped)
}

/// Appends of which profiles it can't be told, and which accepted lines aren't found.
fn push_faults(
    out: &mut Vec<u8>,
    alloc: Global,
    lines: &[&[u8]],
    untold: &[Untold],
    found: &[ExplainedRule],
    undecided: &[ToldRule],
) -> Result<(), AllocError>
    ensures { OnOk result (out.new.items ≡ out.old.items ++ (untold_lines (map untelling untold.now) ++ gone_among (slices lines.now) (map explaining found.now) (map telling undecided.now))) }
{
    push_untold_lines(out, untold)?;
    push_gone_among(out, alloc, lines, found, undecided)
}

/// Prints rules that can go, but for accepted lines, profiles that can't be told, rules that may lead to profiles of skipped files, and
/// those that can go together.
fn rules_printed(
    alloc: Global,
    form: Form,
    passed: usize,
    lines: &[&[u8]],
    skipped: &[Skipped],
    found: Vec<ExplainedRule>,
    untold: &[Untold],
    undecided: &[ToldRule],
    going: &[ToldRule],
) -> Result<Output, AllocError>
    ensures { IfOk result (λ out. printed out ≡ rules_printed form passed (slices lines.now) skipped.now (map explaining found.items) (map untelling untold.now) (map telling undecided.now) (map telling going.now)) }
{
    let mut output = Output::new(alloc);
    push_faults(
        &mut output.faults,
        alloc,
        lines,
        untold,
        found.as_slice(),
        undecided,
    )?;
    let left = unknown_of(alloc, lines, found)?;
    push_answers(
        &mut output.answers,
        alloc,
        form,
        passed,
        skipped.len(),
        left.as_slice(),
        untold,
        undecided,
        going,
    )?;
    output.status = status_of(untold, left.as_slice(), skipped);
    Ok(output)
}

/// Prints the rules of the places that can go, and why, but for those that are open.
fn redundant_printed(
    alloc: Global,
    form: Form,
    lines: &[&[u8]],
    skipped: &[Skipped],
    unsure: &[bool],
    decided: Decided<'_>,
    places: &[RulePlace],
    redundant: &Redundant,
) -> Result<Output, AllocError>
    requires { places.now ≡ all_places decided }
    ensures { IfOk result (λ out. printed out ≡ redundant_printed form (slices lines.now) skipped.now unsure.now decided.entry redundant.now) }
{
    let units = decided.units;
    let reasons = redundant.reasons.as_slice();
    let together = redundant.going.together.as_slice();
    let profiles = first_profiles(decided.policies);
    let found = all_explained(alloc, unsure, units, places, reasons)?;
    let untold = all_untold(alloc, profiles, redundant.untold.as_slice())?;
    let undecided = all_undecided(alloc, unsure, units, places, reasons)?;
    let going = rules_of(alloc, units, together, places)?;
    rules_printed(
        alloc,
        form,
        passed_in(decided.policies),
        lines,
        skipped,
        found,
        untold.as_slice(),
        undecided.as_slice(),
        going.as_slice(),
    )
}

/// Marks for the places of the rules that may lead to profiles of skipped files.
fn open_marks(
    alloc: Global,
    skipped: &[Skipped],
    decided: Decided<'_>,
    numbers: &[PlaceNumbers],
    count: usize,
) -> Result<Vec<bool>, AllocError>
    requires numbers { numbers.now ≡ all_numbers decided }
    requires count { count ≡ length (all_places decided) }
    ensures { IfOk result (λ flags. AreOpen decided.entry skipped.now flags.items) }
{
    let places = open_places(alloc, decided.policies, numbers, skipped)?;
    let flags = marks_of_places(alloc, places.as_slice(), count)?;
    Ok(flags)
}

/// Prints the redundant rules of a policy, beside skipped files and but for these lines, by the numbers of its places.
fn redundant_by_numbers(
    alloc: Global,
    states: u32,
    options: &RedundantOptions<'_>,
    lines: &[&[u8]],
    skipped: &[Skipped],
    decided: Decided<'_>,
    places: &[RulePlace],
    numbers: &[PlaceNumbers],
) -> Result<Output, AllocError>
    requires places { places.now ≡ all_places decided }
    requires numbers { numbers.now ≡ all_numbers decided }
    ensures { IfOk result (λ out. IsRedundantOf states options.now (slices lines.now) skipped.now decided.entry (printed out)) }
{
    let count = places.len();
    let marks = open_marks(alloc, skipped, decided, numbers, count)?;
    let unsure = marks.as_slice();
    let held = held(alloc, decided.units, lines, unsure, places)?;
    let form = options.form;
    spared_rules_change_no_reply();
    rules_beside_none_match_nothing();
    let redundant = redundant_in(alloc, states, decided, numbers, count, held.as_slice())?;
    redundant_printed(
        alloc, form, lines, skipped, unsure, decided, places, &redundant,
    )
}

/// Prints them.
fn redundant_of(
    alloc: Global,
    states: u32,
    options: &RedundantOptions<'_>,
    lines: &[&[u8]],
    skipped: &[Skipped],
    decided: Decided<'_>,
) -> Result<Output, AllocError>
    ensures { IfOk result (λ out. IsRedundantOf states options.now (slices lines.now) skipped.now decided.entry (printed out)) }
{
    let all = rule_places(alloc, decided)?;
    let known = known_places(alloc, decided.units, all.as_slice())?;
    let numbers = all_numbers(alloc, decided, &known)?;
    redundant_by_numbers(
        alloc,
        states,
        options,
        lines,
        skipped,
        decided,
        known.places.as_slice(),
        numbers.as_slice(),
    )
}

/// Looks at the policy of files.
#[derive(Drop)]
struct Looking<'a> {
    states: u32,
    options: &'a RedundantOptions<'a>,
    /// The lines of redundant rules that are accepted.
    lines: &'a [&'a [u8]],
}

impl UsePart for Looking<'_> {
    ghost gives = { λ a skipped d out. IsRedundantOf a.states a.options.now (slices a.lines.now) skipped d out };

    fn use_part(
        &self,
        alloc: Global,
        skipped: &[Skipped],
        decided: Decided<'_>,
    ) -> Result<Output, NoMemory> {
        Ok(redundant_of(
            alloc,
            self.states,
            self.options,
            self.lines,
            skipped,
            decided,
        )?)
    }
}

impl Use for Looking<'_> {
    ghost gives = { λ a d out. IsRedundantOf a.states a.options.now (slices a.lines.now) [] d out };

    fn use_policy(&self, alloc: Global, decided: Decided<'_>) -> Result<Output, NoMemory> {
        self.use_part(alloc, &[], decided)
    }
}

/// Prints the redundant rules of the files that are named, or of those that aren't refused, but for these lines.
fn redundant_but<T: Tree>(
    alloc: Global,
    tree: &T,
    settings: &Settings<'_>,
    options: &RedundantOptions<'_>,
    lines: &[&[u8]],
) -> Result<Output, NoMemory>
    ensures { IfOk result (λ out. IsRedundantBut (setting_of (T.files tree.now) (T.taken tree.now) (T.input tree.now) settings.now) options.now (slices lines.now) (printed out)) }
{
    let looking = Looking {
        states: settings.states,
        options,
        lines,
    };
    if options.skips {
        return with_read_policy(alloc, tree, settings, options.files, &looking);
    }
    with_policy(alloc, tree, settings, options.files, &looking)
}

/// Prints them but for the lines of a text.
fn redundant_text<T: Tree>(
    alloc: Global,
    tree: &T,
    settings: &Settings<'_>,
    options: &RedundantOptions<'_>,
    text: &[u8],
) -> Result<Output, NoMemory>
    ensures { IfOk result (λ out. IsRedundantBut (setting_of (T.files tree.now) (T.taken tree.now) (T.input tree.now) settings.now) options.now (lines_in text.now) (printed out)) }
{
    let lines = lines_in(alloc, text)?;
    redundant_but(alloc, tree, settings, options, lines.as_slice())
}

/// Prints them but for the lines of a file.
fn redundant_by<T: Tree>(
    alloc: Global,
    tree: &T,
    settings: &Settings<'_>,
    options: &RedundantOptions<'_>,
    path: &[u8],
) -> Result<Output, NoMemory>
    ensures { IfOk result (λ out. IsRedundantBy (setting_of (T.files tree.now) (T.taken tree.now) (T.input tree.now) settings.now) options.now path.now (printed out)) }
{
    match main_text(alloc, tree, path) {
        Ok(text) => redundant_text(alloc, tree, settings, options, text.as_slice()),
        Err(why) => path_refused(alloc, path, why),
    }
}

/// Prints the rules of the one policy that files are without which every reply is as it is, each once where it stands and why, and those
/// that can go together, but for rules that are accepted; of which lines of these no rule is redundant is told besides. Where it can't be
/// told of a profile which rules are, none of its rules is called so, and that profile and why are told besides. Where files that are refused are skipped, the others are looked at, and no
/// rule is called redundant that may lead to a profile of a skipped one (`redundant_rules_are_sound`).
pub fn redundant_files<T: Tree>(
    alloc: Global,
    tree: &T,
    settings: &Settings<'_>,
    options: &RedundantOptions<'_>,
) -> Result<Output, NoMemory>
    ensures { IfOk result (λ out. IsRedundantOutput (setting_of (T.files tree.now) (T.taken tree.now) (T.input tree.now) settings.now) options.now (printed out)) }
{
    match options.known {
        Some(path) => redundant_by(alloc, tree, settings, options, path),
        None => redundant_but(alloc, tree, settings, options, &[]),
    }
}
