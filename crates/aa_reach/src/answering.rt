//! What is told of each label where a task begins.

ghost use Rattle.std.specs.Prelude.{◌≡◌, ◌<◌, ◌≤◌, ◌++◌, [], true, false, map, option_map, IfOk, if◌then◌else◌};
ghost use Rattle.std.specs.List.{AllZip};
ghost use Rattle.aa_pattern.specs.Limits.{most_states};
ghost use Rattle.aa_files.specs.Texts.{texts};
ghost use Rattle.aa_load.specs.UnitPolicy.{limit_of};
ghost use Rattle.aa_reachability.specs.Reach.{AreUntoldFor};
ghost use Rattle.aa_reach.specs.Names.{name_in, name_of};
ghost use Rattle.aa_reach.specs.Routes.{routed, barred, AreFound};
ghost use Rattle.aa_reach.specs.Doubts.{doubted, doubted_name, IsBeside};
ghost use Rattle.aa_reach.specs.Answers.{IsAnswer, AreAnswers, IsOpenAnswer};

use crate::beside::Beside;
use crate::doubts::{Doubt, doubt_on, doubts_on};
use crate::naming::{Named, name_left_open, name_of};
use crate::parts::{Bar, Parts, Told, none_told, parts_of, told_of};
use crate::routes::Route;
use crate::searching::{none_reached, reached_from};
use aa_model::Label;
use aa_reachability::{Reached, are_clean};
use aa_skipped::Skipped;
use std::alloc::{AllocError, Global};

/// The label where a task begins, those that it can get to, those from which it isn't told where requests lead on, and those at which
/// skipped files could decide where they lead.
#[derive(Drop)]
pub(crate) struct Answer {
    pub(crate) from: Named,
    pub(crate) routes: Vec<Route>,
    pub(crate) bars: Vec<Bar>,
    pub(crate) doubts: Vec<Doubt>,
    /// The same of those that it can get to only at unclean paths, where these don't count.
    pub(crate) unclean: Told,
}

/// How many states an automaton may have.
pub(crate) fn limit_of(states: u32) -> usize
    ensures is { result ≡ limit_of states }
    ensures some { 0 < result }
    ensures bounded { result ≤ most_states }
{
    states.max(1).min(1_000_000) as usize
}

/// The texts that are left open and name labels that are asked for, and behind them other labels.
fn all_doubts(
    alloc: Global,
    skipped: &[Skipped],
    sought: &[Vec<u8>],
    mut others: Vec<Doubt>,
) -> Result<Vec<Doubt>, AllocError>
    ensures { IfOk result (λ doubts. map doubted doubts.items ≡ map (doubted_name skipped.now) (texts sought.now) ++ map doubted others.items) }
{
    let mut doubts = doubts_on(alloc, skipped, sought)?;
    doubts.append(&mut others)?;
    Ok(doubts)
}

/// The answer for a label: what clean paths tell, and what only unclean ones do.
fn answer_by(
    alloc: Global,
    beside: Beside<'_>,
    unclean: bool,
    sought: &[Vec<u8>],
    from: Label,
    told: Told,
    others: Told,
) -> Result<Answer, AllocError>
    ensures from { IfOk result (λ a. name_in a.from ≡ name_of beside.entry.course.going.policies.now from) }
    ensures routes { IfOk result (λ a. map routed a.routes.items ≡ map routed told.routes.items ++ (if unclean then map routed others.routes.items else [])) }
    ensures bars { IfOk result (λ a. map barred a.bars.items ≡ map barred told.bars.items ++ (if unclean then map barred others.bars.items else [])) }
    ensures doubts { IfOk result (λ a. map doubted a.doubts.items ≡ map (doubted_name beside.entry.skipped.now) (texts sought.now) ++ (map doubted told.doubts.items ++ (if unclean then map doubted others.doubts.items else []))) }
    ensures apart { IfOk result (λ a. map routed a.unclean.routes.items ≡ (if unclean then [] else map routed others.routes.items)) }
    ensures apart_bars { IfOk result (λ a. map barred a.unclean.bars.items ≡ (if unclean then [] else map barred others.bars.items)) }
    ensures apart_doubts { IfOk result (λ a. map doubted a.unclean.doubts.items ≡ (if unclean then [] else map doubted others.doubts.items)) }
{
    let Parts { told, unclean } = parts_of(alloc, unclean, told, others)?;
    let Told {
        routes,
        bars,
        doubts,
    } = told;
    let doubts = all_doubts(alloc, beside.skipped, sought, doubts)?;
    let from = name_of(alloc, beside.course.going.policies, from)?;
    Ok(Answer {
        from,
        routes,
        bars,
        doubts,
        unclean,
    })
}

/// The same, where requests at clean paths alone may lead to fewer labels than all, which are these.
fn answer_apart(
    alloc: Global,
    beside: Beside<'_>,
    limit: usize,
    unclean: bool,
    targets: Option<&[Label]>,
    sought: &[Vec<u8>],
    from: Label,
    all: &Reached,
) -> Result<Answer, AllocError>
    requires some { 0 < limit }
    requires bounded { limit ≤ most_states }
    requires beside { IsBeside beside }
    requires found { AreFound false beside.course.going.as_enforced beside.course.going.policies.now beside.skipped.now all.now.untold.items from all.now.arrivals.items }
    requires untold { AreUntoldFor false beside.course.going.policies.now limit all.now.arrivals.items all.now.untold.items }
    ensures { IfOk result (λ a. IsAnswer unclean beside.entry.course.going.as_enforced beside.entry.course.going.policies.now beside.entry.skipped.now limit (option_map (λ ts. ts.now) targets.entry) (texts sought.now) from a) }
{
    let none = none_reached(alloc);
    let clean = reached_from(alloc, beside, true, limit, from)?;
    let told = told_of(alloc, beside, targets, from, &none, &clean)?;
    let others = told_of(alloc, beside, targets, from, &clean, all)?;
    let answer = answer_by(alloc, beside, unclean, sought, from, told, others)?;
    Ok(answer)
}

/// The labels that a task with this label can get to, of those that are wanted. Where all are got to at clean paths, these are told apart from no
/// others.
fn answer_from(
    alloc: Global,
    beside: Beside<'_>,
    limit: usize,
    unclean: bool,
    targets: Option<&[Label]>,
    sought: &[Vec<u8>],
    from: Label,
) -> Result<Answer, AllocError>
    requires some { 0 < limit }
    requires bounded { limit ≤ most_states }
    requires beside { IsBeside beside }
    ensures { IfOk result (λ a. IsAnswer unclean beside.entry.course.going.as_enforced beside.entry.course.going.policies.now beside.entry.skipped.now limit (option_map (λ ts. ts.now) targets.entry) (texts sought.now) from a) }
{
    let all = reached_from(alloc, beside, false, limit, from)?;
    if !are_clean(all.arrivals.as_slice()) {
        let apart = answer_apart(alloc, beside, limit, unclean, targets, sought, from, &all)?;
        return Ok(apart);
    }
    let none = none_reached(alloc);
    let told = told_of(alloc, beside, targets, from, &none, &all)?;
    let others = none_told(alloc);
    let answer = answer_by(alloc, beside, unclean, sought, from, told, others)?;
    Ok(answer)
}

/// Of each of these labels where a task begins those that it can get to, of which some may be wanted alone.
pub(crate) fn answers_from(
    alloc: Global,
    beside: Beside<'_>,
    limit: usize,
    unclean: bool,
    targets: Option<&[Label]>,
    sought: &[Vec<u8>],
    labels: &[Label],
) -> Result<Vec<Answer>, AllocError>
    requires some { 0 < limit }
    requires bounded { limit ≤ most_states }
    requires beside { IsBeside beside }
    ensures { IfOk result (λ list. AreAnswers unclean beside.entry.course.going.as_enforced beside.entry.course.going.policies.now beside.entry.skipped.now limit (option_map (λ ts. ts.now) targets.entry) (texts sought.now) labels.now list.items) }
{
    let mut answers = Vec::new(alloc);
    for label in labels {
        answers.push(answer_from(alloc, beside, limit, unclean, targets, sought, *label)?)?;
    }
    Ok(answers)
}

/// What is told of a text that is left open: which files may hold what it names.
fn open_answer(alloc: Global, skipped: &[Skipped], text: &[u8]) -> Result<Answer, AllocError>
    ensures { IfOk result (λ a. IsOpenAnswer skipped.now text.now a) }
{
    let from = name_left_open(alloc, text)?;
    let routes = Vec::new(alloc);
    let bars = Vec::new(alloc);
    let unclean = none_told(alloc);
    let mut doubts = Vec::new(alloc);
    doubts.push(doubt_on(alloc, skipped, text)?)?;
    Ok(Answer {
        from,
        routes,
        bars,
        doubts,
        unclean,
    })
}

/// The same of texts, one by one.
pub(crate) fn open_answers(
    alloc: Global,
    skipped: &[Skipped],
    words: &[Vec<u8>],
) -> Result<Vec<Answer>, AllocError>
    ensures { IfOk result (λ list. AllZip (IsOpenAnswer skipped.now) (texts words.now) list.items) }
{
    let mut answers = Vec::new(alloc);
    for word in words {
        answers.push(open_answer(alloc, skipped, word.as_slice())?)?;
    }
    Ok(answers)
}
