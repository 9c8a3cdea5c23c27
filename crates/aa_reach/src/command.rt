//! What `reach` prints.

ghost use Rattle.std.specs.Prelude.{◌≡◌, ◌≢◌, [], ◌++◌, ◌==◌, ◌<◌, ◌≤◌, ◌&&◌, ◌||◌, false, not, map, flat_map, length, option_map, is_some, OnOk, IfOk, IfErr, if◌then◌else◌};
ghost use Rattle.std.specs.List.{list_any};
ghost use Rattle.aa_files.specs.Texts.{texts};
ghost use Rattle.aa_pattern.specs.Limits.{most_states};
ghost use Rattle.aa_command.specs.Setting.{setting_of};
ghost use Rattle.aa_command.specs.Printed.{printed};
ghost use Rattle.aa_undecided.specs.Answers.{placed};
ghost use Rattle.aa_reach.specs.Doubts.{IsBeside};
ghost use Rattle.aa_reach.specs.Shown.{is_reached, is_undecided};
ghost use Rattle.aa_reach.specs.Json.{json_answers};
ghost use Rattle.aa_reach.specs.Command.{to_text, beginnings, leaves_open, labels_in, AreTargets, SaysNoTarget, SaysUnnamed, manner_of, told_text, answers_text, is_open_vertex, status_of, has_found, reach_printed, graph_printed, page_printed, IsAsked, AreAllAnswers, IsAnswered, IsGraphed, IsPaged, asks_nothing, IsReachOf, IsReachOutput};
ghost use Rattle.aa_command.specs.Counts.{passed_in, count_of};

use crate::answering::{Answer, answers_from, limit_of, open_answers};
use crate::beside::{Beside, openings_of, unreads_of};
use crate::dot::{push_dot, push_untold_edges};
use crate::fault::NameFault;
use crate::graph::{Vertex, vertices_of};
use crate::html::push_page;
use crate::json::push_json_answers;
use crate::naming::{Names, names_by, names_of};
use crate::shown::{Manner, is_reached, is_undecided, push_answers, push_untold};
use aa_command::{
    Decided, Output, Settings, Use, count_of, passed_in, push_passed, refused, unanswered,
    with_policy,
};
use aa_compile::{Compiled, Label};
use aa_differences::closed_labels_are_decided;
use aa_files::Tree;
use aa_reachability::{Course, Going};
use aa_skipped::{Skipped, UsePart, push_skipped_count, with_read_policy};
use aa_text::NoMemory;
use aa_undecided::all_placed;
use std::alloc::{AllocError, Global};

/// Which labels are asked about, by which files, and how the answers are printed.
#[derive(Clone, Copy)]
pub struct ReachOptions<'a> {
    /// The files with profiles.
    pub files: &'a [Vec<u8>],
    /// What names the labels where a task begins.
    pub from: &'a [Vec<u8>],
    /// What names the labels that it should get to; all are printed where none is named.
    pub to: Option<&'a [u8]>,
    /// Whether what complain mode alone grants moves no task.
    pub as_enforced: bool,
    pub is_json: bool,
    /// Whether the graph of all labels is wanted, in the language of Graphviz.
    pub is_dot: bool,
    /// Whether a page of HTML is wanted, with the answers and the graph.
    pub is_html: bool,
    /// Whether files that are refused are skipped.
    pub skips: bool,
    /// Whether unclean paths count as others.
    pub unclean: bool,
}

/// The labels where a task begins, and those that it should get to, if some are asked for; and the texts that are left open, since they name
/// none but may name a profile of a skipped file.
#[derive(Drop)]
struct Asked {
    labels: Vec<Label>,
    opens: Vec<Vec<u8>>,
    targets: Option<Vec<Label>>,
    sought: Vec<Vec<u8>>,
}

/// The labels that a task should get to, if some are asked for.
#[derive(Drop)]
struct Targets {
    labels: Option<Vec<Label>>,
    opens: Vec<Vec<u8>>,
}

/// The labels that a task should get to, if some are asked for.
fn targets_of(
    alloc: Global,
    policies: &[Compiled],
    skipped: &[Skipped],
    to: Option<&[u8]>,
) -> Result<Targets, NameFault>
    ensures named { IfOk result (λ ts. AreTargets policies.now skipped.now (option_map (λ text. text.now) to.entry) (option_map (λ t. t.items) ts.labels) (texts ts.opens.items)) }
    ensures refused { IfErr result (λ e. e ≢ NameFault.NoMemory → SaysNoTarget policies.now skipped.now (option_map (λ text. text.now) to.entry) e) }
{
    match to {
        Some(text) => {
            let Names { labels, opens } = names_by(alloc, policies, skipped, text)?;
            Ok(Targets {
                labels: Some(labels),
                opens,
            })
        }
        None => Ok(Targets {
            labels: None,
            opens: Vec::new(alloc),
        }),
    }
}

/// The labels that are asked about. Refused where a text names none, nor maybe one of a skipped file.
fn asked_of(
    alloc: Global,
    policies: &[Compiled],
    skipped: &[Skipped],
    options: &ReachOptions<'_>,
) -> Result<Asked, NameFault>
    ensures asked { IfOk result (λ a. IsAsked policies.now skipped.now options.now a) }
    ensures refused { IfErr result (λ e. SaysUnnamed policies.now skipped.now options.now e) }
{
    let names = names_of(alloc, policies, skipped, options.from)?;
    let targets = targets_of(alloc, policies, skipped, options.to)?;
    Ok(Asked {
        labels: names.labels,
        opens: names.opens,
        targets: targets.labels,
        sought: targets.opens,
    })
}

/// At how many places a task begins: at labels, and at what texts may name that are left open.
fn beginnings(asked: &Asked) -> usize
    ensures { result ≡ beginnings asked.now }
{
    asked.labels.len() + asked.opens.len()
}

/// Whether a text is left open.
fn leaves_open(asked: &Asked) -> bool
    ensures { result ≡ leaves_open asked.now }
{
    !asked.opens.is_empty() || !asked.sought.is_empty()
}

/// How many labels there are: those of all profiles, and `unconfined`.
fn labels_in(policies: &[Compiled]) -> usize
    ensures { result ≡ labels_in policies.now }
{
    count_of(policies) as usize + 1
}

fn manner_of(
    policies: &[Compiled],
    options: &ReachOptions<'_>,
    beginnings: usize,
    limit: usize,
) -> Manner
    ensures { result ≡ manner_of policies.now options.now beginnings limit }
{
    let is_sought = options.to.is_some();
    Manner {
        is_sought,
        has_fronts: is_sought && beginnings > 1,
        labels: labels_in(policies),
        limit,
    }
}

/// Appends answers, how many rules decide nothing, and how many files are skipped.
fn push_told(
    out: &mut Vec<u8>,
    alloc: Global,
    manner: Manner,
    passed: usize,
    skipped: &[Skipped],
    answers: &[Answer],
) -> Result<(), AllocError>
    ensures { OnOk result (out.new.items ≡ out.old.items ++ told_text manner passed skipped.now answers.now) }
{
    push_answers(out, alloc, manner, answers)?;
    push_passed(out, passed)?;
    push_skipped_count(out, skipped.len())
}

/// The same as JSON.
fn push_json(
    out: &mut Vec<u8>,
    alloc: Global,
    labels: usize,
    passed: usize,
    skipped: &[Skipped],
    answers: &[Answer],
) -> Result<(), AllocError>
    ensures { OnOk result (out.new.items ≡ out.old.items ++ json_answers labels passed (map placed skipped.now) answers.now) }
{
    let files = all_placed(alloc, skipped)?;
    push_json_answers(out, alloc, labels, passed, files.as_slice(), answers)
}

/// Appends answers as they are wanted.
fn push_wanted(
    out: &mut Vec<u8>,
    alloc: Global,
    is_json: bool,
    manner: Manner,
    passed: usize,
    skipped: &[Skipped],
    answers: &[Answer],
) -> Result<(), AllocError>
    ensures { OnOk result (out.new.items ≡ out.old.items ++ answers_text is_json manner passed skipped.now answers.now) }
{
    if is_json {
        return push_json(out, alloc, manner.labels, passed, skipped, answers);
    }
    push_told(out, alloc, manner, passed, skipped, answers)
}

fn is_one_reached(answers: &[Answer]) -> bool
    ensures { result ≡ list_any is_reached answers.now }
{
    answers.iter().any(|answer| is_reached(answer))
}

/// Whether a label is reached that is asked for.
fn has_found(manner: Manner, answers: &[Answer]) -> bool
    ensures { result ≡ has_found manner answers.now }
{
    manner.is_sought && is_one_reached(answers)
}

/// Whether something is undecided in one of the answers.
fn is_one_undecided(answers: &[Answer]) -> bool
    ensures { result ≡ list_any is_undecided answers.now }
{
    answers.iter().any(|answer| is_undecided(answer))
}

fn is_open_vertex(vertex: &Vertex) -> bool
    ensures { result ≡ is_open_vertex vertex.now }
{
    is_undecided(&vertex.edges)
}

/// Whether something is undecided at one of the labels of a graph.
fn is_one_open(vertices: &[Vertex]) -> bool
    ensures { result ≡ list_any is_open_vertex vertices.now }
{
    vertices.iter().any(|vertex| is_open_vertex(vertex))
}

/// 1 where something can't be told, else 4 where a label is reached that is asked for, and else 5 where something is undecided.
fn status_of(untold: &[u8], has_found: bool, has_doubts: bool) -> u8
    ensures { result ≡ status_of untold.now has_found has_doubts }
{
    if !untold.is_empty() {
        return 1;
    }
    if has_found {
        return 4;
    }
    if has_doubts { 5 } else { 0 }
}

fn output_of(
    alloc: Global,
    is_json: bool,
    manner: Manner,
    passed: usize,
    skipped: &[Skipped],
    answers: &[Answer],
) -> Result<Output, AllocError>
    ensures { IfOk result (λ out. printed out ≡ reach_printed is_json manner passed skipped.now answers.now) }
{
    let mut output = Output::new(alloc);
    push_wanted(
        &mut output.answers,
        alloc,
        is_json,
        manner,
        passed,
        skipped,
        answers,
    )?;
    push_untold(&mut output.faults, alloc, manner.limit, answers)?;
    let untold = output.faults.as_slice();
    output.status = status_of(
        untold,
        has_found(manner, answers),
        is_one_undecided(answers),
    );
    Ok(output)
}

fn targets_in(asked: &Asked) -> Option<&[Label]>
    ensures { option_map (λ ts. ts.now) result ≡ option_map (λ ts. ts.items) asked.now.targets }
{
    match &asked.targets {
        Some(targets) => Some(targets.as_slice()),
        None => None,
    }
}

/// The answers for the labels where a task begins, and behind them those for texts that are left open.
fn all_answers(
    alloc: Global,
    limit: usize,
    options: &ReachOptions<'_>,
    beside: Beside<'_>,
    asked: &Asked,
) -> Result<Vec<Answer>, AllocError>
    requires limited { 0 < limit }
    requires bounded { limit ≤ most_states }
    requires beside { IsBeside beside }
    requires enforced { beside.course.going.as_enforced ≡ options.now.as_enforced }
    ensures { IfOk result (λ list. AreAllAnswers limit options.now beside.entry.course.going.policies.now beside.entry.skipped.now asked.now list.items) }
{
    let labels = asked.labels.as_slice();
    let sought = asked.sought.as_slice();
    let unclean = options.unclean;
    let targets = targets_in(asked);
    let mut answers = answers_from(alloc, beside, limit, unclean, targets, sought, labels)?;
    let mut others = open_answers(alloc, beside.skipped, asked.opens.as_slice())?;
    answers.append(&mut others)?;
    Ok(answers)
}

/// Prints the answers for labels.
fn answered(
    alloc: Global,
    limit: usize,
    options: &ReachOptions<'_>,
    beside: Beside<'_>,
    asked: &Asked,
) -> Result<Output, AllocError>
    requires limited { 0 < limit }
    requires bounded { limit ≤ most_states }
    requires beside { IsBeside beside }
    requires enforced { beside.course.going.as_enforced ≡ options.now.as_enforced }
    ensures { IfOk result (λ out. IsAnswered limit options.now beside.entry.course.going.policies.now beside.entry.skipped.now asked.now (printed out)) }
{
    let policies = beside.course.going.policies;
    let answers = all_answers(alloc, limit, options, beside, asked)?;
    let manner = manner_of(policies, options, beginnings(asked), limit);
    output_of(
        alloc,
        options.is_json,
        manner,
        passed_in(policies),
        beside.skipped,
        answers.as_slice(),
    )
}

fn graph_of(
    alloc: Global,
    limit: usize,
    passed: usize,
    skipped: usize,
    opens: bool,
    vertices: &[Vertex],
) -> Result<Output, AllocError>
    ensures { IfOk result (λ out. printed out ≡ graph_printed limit passed skipped opens vertices.now) }
{
    let mut output = Output::new(alloc);
    push_dot(&mut output.answers, alloc, passed, skipped, vertices)?;
    push_untold_edges(&mut output.faults, alloc, limit, vertices)?;
    let is_open = opens || is_one_open(vertices);
    output.status = status_of(output.faults.as_slice(), false, is_open);
    Ok(output)
}

/// Prints the graph of all labels.
fn graphed(
    alloc: Global,
    limit: usize,
    options: &ReachOptions<'_>,
    beside: Beside<'_>,
    asked: &Asked,
) -> Result<Output, AllocError>
    requires limited { 0 < limit }
    requires bounded { limit ≤ most_states }
    requires beside { IsBeside beside }
    requires enforced { beside.course.going.as_enforced ≡ options.now.as_enforced }
    ensures { IfOk result (λ out. IsGraphed limit options.now beside.entry.course.going.policies.now beside.entry.skipped.now asked.now (printed out)) }
{
    let vertices = vertices_of(alloc, beside, limit, options.unclean)?;
    let passed = passed_in(beside.course.going.policies);
    let opens = leaves_open(asked);
    graph_of(
        alloc,
        limit,
        passed,
        beside.skipped.len(),
        opens,
        vertices.as_slice(),
    )
}

fn page_of(
    alloc: Global,
    options: &ReachOptions<'_>,
    manner: Manner,
    passed: usize,
    skipped: usize,
    answers: &[Answer],
    vertices: &[Vertex],
) -> Result<Output, AllocError>
    ensures { IfOk result (λ out. printed out ≡ page_printed options.now manner passed skipped answers.now vertices.now) }
{
    let mut output = Output::new(alloc);
    push_page(
        &mut output.answers,
        alloc,
        options,
        manner,
        passed,
        skipped,
        answers,
        vertices,
    )?;
    push_untold_edges(&mut output.faults, alloc, manner.limit, vertices)?;
    let untold = output.faults.as_slice();
    let is_open = is_one_undecided(answers) || is_one_open(vertices);
    output.status = status_of(untold, has_found(manner, answers), is_open);
    Ok(output)
}

/// Prints the page of the answers for labels, and of the graph of all.
fn paged(
    alloc: Global,
    limit: usize,
    options: &ReachOptions<'_>,
    beside: Beside<'_>,
    asked: &Asked,
) -> Result<Output, AllocError>
    requires limited { 0 < limit }
    requires bounded { limit ≤ most_states }
    requires beside { IsBeside beside }
    requires enforced { beside.course.going.as_enforced ≡ options.now.as_enforced }
    ensures { IfOk result (λ out. IsPaged limit options.now beside.entry.course.going.policies.now beside.entry.skipped.now asked.now (printed out)) }
{
    let policies = beside.course.going.policies;
    let answers = all_answers(alloc, limit, options, beside, asked)?;
    let vertices = vertices_of(alloc, beside, limit, options.unclean)?;
    let manner = manner_of(policies, options, beginnings(asked), limit);
    page_of(
        alloc,
        options,
        manner,
        passed_in(policies),
        beside.skipped.len(),
        answers.as_slice(),
        vertices.as_slice(),
    )
}

/// Prints the answers for labels that are asked about, alone or on a page with the graph of all.
fn told(
    alloc: Global,
    states: u32,
    options: &ReachOptions<'_>,
    decided: Decided<'_>,
    beside: Beside<'_>,
    asked: &Asked,
) -> Result<Output, AllocError>
    requires asked { IsAsked decided.policies.now beside.skipped.now options.now asked.now }
    requires some { asks_nothing options.now ≡ false }
    requires no_dot { options.now.is_dot ≡ false }
    requires same { beside.course.going.policies.now ≡ decided.policies.now }
    requires beside { IsBeside beside }
    requires enforced { beside.course.going.as_enforced ≡ options.now.as_enforced }
    ensures { IfOk result (λ out. IsReachOf states options.now beside.entry.skipped.now decided.entry (printed out)) }
{
    let limit = limit_of(states);
    if options.is_html {
        paged(alloc, limit, options, beside, asked)
    } else {
        answered(alloc, limit, options, beside, asked)
    }
}

/// Prints the graph of all labels, or the answers for those that are asked about.
fn wanted(
    alloc: Global,
    states: u32,
    options: &ReachOptions<'_>,
    decided: Decided<'_>,
    beside: Beside<'_>,
    asked: &Asked,
) -> Result<Output, AllocError>
    requires asked { IsAsked decided.policies.now beside.skipped.now options.now asked.now }
    requires some { asks_nothing options.now ≡ false }
    requires same { beside.course.going.policies.now ≡ decided.policies.now }
    requires beside { IsBeside beside }
    requires enforced { beside.course.going.as_enforced ≡ options.now.as_enforced }
    ensures { IfOk result (λ out. IsReachOf states options.now beside.entry.skipped.now decided.entry (printed out)) }
{
    let limit = limit_of(states);
    if options.is_dot {
        graphed(alloc, limit, options, beside, asked)
    } else {
        told(alloc, states, options, decided, beside, asked)
    }
}

/// The same, beside files that are skipped.
fn wanted_beside(
    alloc: Global,
    states: u32,
    options: &ReachOptions<'_>,
    decided: Decided<'_>,
    skipped: &[Skipped],
    asked: &Asked,
) -> Result<Output, AllocError>
    requires asked { IsAsked decided.policies.now skipped.now options.now asked.now }
    requires some { asks_nothing options.now ≡ false }
    ensures { IfOk result (λ out. IsReachOf states options.now skipped.now decided.entry (printed out)) }
{
    let unreads = unreads_of(alloc, skipped)?;
    let openings = openings_of(alloc, decided.policies, skipped)?;
    closed_labels_are_decided();
    let going = Going {
        policies: decided.policies,
        as_enforced: options.as_enforced,
    };
    let course = Course {
        going,
        unreads: unreads.as_slice(),
        openings: openings.as_slice(),
        only_clean: false,
    };
    let beside = Beside { course, skipped };
    let output = wanted(alloc, states, options, decided, beside, asked)?;
    Ok(output)
}

/// Whether no label is named where a task begins, and no graph is wanted.
fn asks_nothing(options: &ReachOptions<'_>) -> bool
    ensures { result ≡ asks_nothing options.now }
{
    options.from.is_empty() && !options.is_dot && !options.is_html
}

/// Tells by the policy of files to which labels a task can get.
#[derive(Drop)]
struct Reaching<'a> {
    states: u32,
    options: &'a ReachOptions<'a>,
}

impl UsePart for Reaching<'_> {
    ghost gives = { λ r skipped d out. IsReachOf r.states r.options.now skipped d out };

    fn use_part(
        &self,
        alloc: Global,
        skipped: &[Skipped],
        decided: Decided<'_>,
    ) -> Result<Output, NoMemory> {
        let options = self.options;
        if asks_nothing(options) {
            return refused(alloc, "error: reach takes at least one --from\n", 2);
        }
        match asked_of(alloc, decided.policies, skipped, options) {
            Ok(asked) => Ok(wanted_beside(alloc, self.states, options, decided, skipped, &asked)?),
            Err(NameFault::NoMemory) => Err(NoMemory),
            Err(NameFault::Refused(line)) => Ok(unanswered(alloc, line)),
        }
    }
}

impl Use for Reaching<'_> {
    ghost gives = { λ r d out. IsReachOf r.states r.options.now [] d out };

    fn use_policy(&self, alloc: Global, decided: Decided<'_>) -> Result<Output, NoMemory> {
        self.use_part(alloc, &[], decided)
    }
}

/// Prints to which labels of the one policy that files are a task can get by requests, each with a list of requests that lead there,
/// of which no shorter one does; all labels, or those that are asked for, or the graph of all. A label from which it can't be told where
/// requests lead on is said, and what is got to without it is told. Refused are texts that name no label. Where files that are refused are
/// skipped, no request counts that they could decide, and labels are said at which one could lead into them (`labels_are_sound`).
pub fn reach_files<T: Tree>(
    alloc: Global,
    tree: &T,
    settings: &Settings<'_>,
    options: &ReachOptions<'_>,
) -> Result<Output, NoMemory>
    ensures { IfOk result (λ out. IsReachOutput (setting_of (T.files tree.now) (T.taken tree.now) (T.input tree.now) settings.now) options.now (printed out)) }
{
    let reaching = Reaching {
        states: settings.states,
        options,
    };
    if options.skips {
        return with_read_policy(alloc, tree, settings, options.files, &reaching);
    }
    with_policy(alloc, tree, settings, options.files, &reaching)
}
