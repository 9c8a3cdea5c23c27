//! Answers as they are printed.

ghost use Rattle.std.specs.Prelude.{◌≡◌, ◌++◌, codes, map, flat_map, decimal, OnOk};
ghost use Rattle.aa_ask.specs.Shown.{complain_mark};
ghost use Rattle.aa_reach.specs.Names.{name_in, called};
ghost use Rattle.aa_reach.specs.Routes.{turned, routed, barred};
ghost use Rattle.aa_reach.specs.Doubts.{doubted};
ghost use Rattle.aa_reach.specs.Shown.{turn_text, from_mark, route_line, apart_words, not_told_words, apart_line, doubt_lines, why_text, apart_bar_line, apart_doubt_lines, apart_text, is_known, is_undecided, none_line, at_least, labels_line, count_line, end_line, answer_text, bar_line, untold_text, is_reached};

use crate::answering::Answer;
use crate::doubts::Doubt;
use crate::naming::{Named, called, push_called};
use crate::parts::Bar;
use crate::routes::{Route, Turn};
use aa_reachability::Why;
use aa_text::{push_number, push_text};
use aa_undecided::push_undecided;
use std::alloc::{AllocError, Global};

/// How answers are printed.
#[derive(Clone, Copy)]
pub(crate) struct Manner {
    /// Whether some labels alone are asked for.
    pub(crate) is_sought: bool,
    /// Whether each line tells where the task begins.
    pub(crate) has_fronts: bool,
    /// How many labels there are.
    pub(crate) labels: usize,
    /// How many states an automaton may have.
    pub(crate) limit: usize,
}

pub(crate) fn push_complain(out: &mut Vec<u8>, complains: bool) -> Result<(), AllocError>
    ensures { OnOk result (out.new.items ≡ out.old.items ++ complain_mark complains) }
{
    push_text(out, if complains { " complain" } else { "" })
}

/// Appends a request behind a space, and a mark where complain mode alone grants it.
#[tactic(auto, unfolding(crate::specs::Shown::turn_text))]
fn push_turn(out: &mut Vec<u8>, turn: &Turn) -> Result<(), AllocError>
    ensures { OnOk result (out.new.items ≡ out.old.items ++ turn_text (turned turn.now)) }
{
    push_text(out, " ")?;
    out.extend_from_slice(turn.word())?;
    push_complain(out, turn.complains)
}

pub(crate) fn push_turns(out: &mut Vec<u8>, turns: &[Turn]) -> Result<(), AllocError>
    ensures { OnOk result (out.new.items ≡ out.old.items ++ flat_map turn_text (map turned turns.now)) }
{
    for turn in turns {
        push_turn(out, turn)?;
    }
    Ok(())
}

/// Appends where a task begins, where several labels are asked about.
fn push_from(
    out: &mut Vec<u8>,
    alloc: Global,
    has_fronts: bool,
    from: &Named,
) -> Result<(), AllocError>
    ensures { OnOk result (out.new.items ≡ out.old.items ++ from_mark has_fronts (name_in from.now)) }
{
    if !has_fronts {
        return Ok(());
    }
    push_text(out, "from ")?;
    push_called(out, alloc, from)?;
    push_text(out, ": ")
}

/// Appends the line of a label with the requests that lead there.
#[tactic(auto, unfolding(crate::specs::Shown::route_line))]
fn push_route(
    out: &mut Vec<u8>,
    alloc: Global,
    manner: Manner,
    from: &Named,
    route: &Route,
) -> Result<(), AllocError>
    ensures { OnOk result (out.new.items ≡ out.old.items ++ route_line manner (name_in from.now) (routed route.now)) }
{
    push_from(out, alloc, manner.has_fronts, from)?;
    push_called(out, alloc, &route.to)?;
    push_turns(out, route.turns.as_slice())?;
    push_text(out, "\n")
}

fn push_each(
    out: &mut Vec<u8>,
    alloc: Global,
    manner: Manner,
    from: &Named,
    routes: &[Route],
) -> Result<(), AllocError>
    ensures { OnOk result (out.new.items ≡ out.old.items ++ flat_map (route_line manner (name_in from.now)) (map routed routes.now)) }
{
    for route in routes {
        push_route(out, alloc, manner, from, route)?;
    }
    Ok(())
}

/// Appends what is said of requests of which some are at unclean paths, where only such lead to a label.
#[tactic(auto, unfolding(crate::specs::Shown::apart_words))]
pub(crate) fn push_apart_words(out: &mut Vec<u8>) -> Result<(), AllocError>
    ensures { OnOk result (out.new.items ≡ out.old.items ++ apart_words) }
{
    push_text(out, "only at unclean paths ")
}

/// Appends the line of a label to which requests at clean paths alone don't lead.
#[tactic(auto, unfolding(crate::specs::Shown::apart_line))]
fn push_apart(
    out: &mut Vec<u8>,
    alloc: Global,
    manner: Manner,
    from: &Named,
    route: &Route,
) -> Result<(), AllocError>
    ensures { OnOk result (out.new.items ≡ out.old.items ++ apart_line manner (name_in from.now) (routed route.now)) }
{
    push_from(out, alloc, manner.has_fronts, from)?;
    push_apart_words(out)?;
    push_called(out, alloc, &route.to)?;
    push_turns(out, route.turns.as_slice())?;
    push_text(out, "\n")
}

fn push_each_apart(
    out: &mut Vec<u8>,
    alloc: Global,
    manner: Manner,
    from: &Named,
    routes: &[Route],
) -> Result<(), AllocError>
    ensures { OnOk result (out.new.items ≡ out.old.items ++ flat_map (apart_line manner (name_in from.now)) (map routed routes.now)) }
{
    for route in routes {
        push_apart(out, alloc, manner, from, route)?;
    }
    Ok(())
}

/// Appends that an execution or a change could lead into skipped files at a label, and the first of them.
#[tactic(auto, unfolding(crate::specs::Shown::doubt_lines))]
fn push_doubt(
    out: &mut Vec<u8>,
    alloc: Global,
    manner: Manner,
    from: &Named,
    doubt: &Doubt,
) -> Result<(), AllocError>
    ensures { OnOk result (out.new.items ≡ out.old.items ++ doubt_lines manner (name_in from.now) (doubted doubt.now)) }
{
    let name = called(alloc, &doubt.at)?;
    push_from(out, alloc, manner.has_fronts, from)?;
    push_undecided(out, name.as_slice(), doubt.files.as_slice())
}

fn push_doubts(
    out: &mut Vec<u8>,
    alloc: Global,
    manner: Manner,
    from: &Named,
    doubts: &[Doubt],
) -> Result<(), AllocError>
    ensures { OnOk result (out.new.items ≡ out.old.items ++ flat_map (doubt_lines manner (name_in from.now)) (map doubted doubts.now)) }
{
    for doubt in doubts {
        push_doubt(out, alloc, manner, from, doubt)?;
    }
    Ok(())
}

/// Appends that more states are needed than there may be.
fn push_states(out: &mut Vec<u8>, limit: usize) -> Result<(), AllocError>
    ensures { OnOk result (out.new.items ≡ out.old.items ++ codes "need more than " ++ decimal limit ++ codes " states together; --states allows more\n") }
{
    push_text(out, "need more than ")?;
    push_number(out, limit)?;
    push_text(out, " states together; --states allows more\n")
}

/// Appends why it isn't told where requests lead on.
fn push_why(out: &mut Vec<u8>, limit: usize, why: Why) -> Result<(), AllocError>
    ensures { OnOk result (out.new.items ≡ out.old.items ++ why_text limit why) }
{
    match why {
        Why::TooManyPatterns => push_text(out, "have more than 65535 patterns together\n"),
        Why::TooManyStates => push_states(out, limit),
    }
}

/// Appends what is said of a label from which it isn't told where requests lead on.
#[tactic(auto, unfolding(crate::specs::Shown::not_told_words))]
pub(crate) fn push_not_told(out: &mut Vec<u8>) -> Result<(), AllocError>
    ensures { OnOk result (out.new.items ≡ out.old.items ++ not_told_words) }
{
    push_text(out, "not told from ")
}

/// Appends a label and why it isn't told where requests lead on from there.
fn push_bar_at(out: &mut Vec<u8>, alloc: Global, limit: usize, bar: &Bar) -> Result<(), AllocError>
    ensures { OnOk result (out.new.items ≡ out.old.items ++ called (name_in bar.now.at) ++ codes ": the rules " ++ why_text limit bar.now.why) }
{
    push_called(out, alloc, &bar.at)?;
    push_text(out, ": the rules ")?;
    push_why(out, limit, bar.why)
}

/// Appends from which label, to which requests at clean paths alone don't lead, it isn't told where others lead on, and why.
#[tactic(auto, unfolding(crate::specs::Shown::apart_bar_line))]
fn push_apart_bar(
    out: &mut Vec<u8>,
    alloc: Global,
    manner: Manner,
    from: &Named,
    bar: &Bar,
) -> Result<(), AllocError>
    ensures { OnOk result (out.new.items ≡ out.old.items ++ apart_bar_line manner (name_in from.now) (barred bar.now)) }
{
    push_from(out, alloc, manner.has_fronts, from)?;
    push_apart_words(out)?;
    push_not_told(out)?;
    push_bar_at(out, alloc, manner.limit, bar)
}

fn push_apart_bars(
    out: &mut Vec<u8>,
    alloc: Global,
    manner: Manner,
    from: &Named,
    bars: &[Bar],
) -> Result<(), AllocError>
    ensures { OnOk result (out.new.items ≡ out.old.items ++ flat_map (apart_bar_line manner (name_in from.now)) (map barred bars.now)) }
{
    for bar in bars {
        push_apart_bar(out, alloc, manner, from, bar)?;
    }
    Ok(())
}

/// Appends at which label, to which requests at clean paths alone don't lead, an execution or a change could lead into skipped files, and the
/// first of them.
#[tactic(auto, unfolding(crate::specs::Shown::apart_doubt_lines))]
fn push_apart_doubt(
    out: &mut Vec<u8>,
    alloc: Global,
    manner: Manner,
    from: &Named,
    doubt: &Doubt,
) -> Result<(), AllocError>
    ensures { OnOk result (out.new.items ≡ out.old.items ++ apart_doubt_lines manner (name_in from.now) (doubted doubt.now)) }
{
    let name = called(alloc, &doubt.at)?;
    push_from(out, alloc, manner.has_fronts, from)?;
    push_apart_words(out)?;
    push_undecided(out, name.as_slice(), doubt.files.as_slice())
}

fn push_apart_doubts(
    out: &mut Vec<u8>,
    alloc: Global,
    manner: Manner,
    from: &Named,
    doubts: &[Doubt],
) -> Result<(), AllocError>
    ensures { OnOk result (out.new.items ≡ out.old.items ++ flat_map (apart_doubt_lines manner (name_in from.now)) (map doubted doubts.now)) }
{
    for doubt in doubts {
        push_apart_doubt(out, alloc, manner, from, doubt)?;
    }
    Ok(())
}

/// Appends what is told of requests of which some are at unclean paths, where these don't count.
fn push_unclean(
    out: &mut Vec<u8>,
    alloc: Global,
    manner: Manner,
    answer: &Answer,
) -> Result<(), AllocError>
    ensures { OnOk result (out.new.items ≡ out.old.items ++ apart_text manner answer.now) }
{
    let unclean = &answer.unclean;
    push_each_apart(out, alloc, manner, &answer.from, unclean.routes.as_slice())?;
    push_apart_bars(out, alloc, manner, &answer.from, unclean.bars.as_slice())?;
    push_apart_doubts(out, alloc, manner, &answer.from, unclean.doubts.as_slice())
}

/// Whether it is known which labels are reached.
pub(crate) fn is_known(answer: &Answer) -> bool
    ensures { result ≡ is_known answer.now }
{
    answer.bars.is_empty() && answer.doubts.is_empty()
}

/// Whether at a label of an answer something is undecided.
pub(crate) fn is_undecided(answer: &Answer) -> bool
    ensures { result ≡ is_undecided answer.now }
{
    !answer.doubts.is_empty()
}

/// Appends that none of the labels that are asked for is reached, where that is so.
fn push_none(
    out: &mut Vec<u8>,
    alloc: Global,
    manner: Manner,
    answer: &Answer,
) -> Result<(), AllocError>
    ensures { OnOk result (out.new.items ≡ out.old.items ++ none_line manner answer.now) }
{
    if !answer.routes.is_empty() || !is_known(answer) {
        return Ok(());
    }
    push_from(out, alloc, manner.has_fronts, &answer.from)?;
    push_text(out, "no\n")
}

/// Appends that there may be more labels, where it isn't known which are reached.
pub(crate) fn push_at_least(out: &mut Vec<u8>, answer: &Answer) -> Result<(), AllocError>
    ensures { OnOk result (out.new.items ≡ out.old.items ++ at_least answer.now) }
{
    if is_known(answer) {
        return Ok(());
    }
    push_text(out, "at least ")
}

/// Appends to how many labels of how many.
#[tactic(auto, unfolding(crate::specs::Shown::labels_line))]
fn push_labels(
    out: &mut Vec<u8>,
    alloc: Global,
    manner: Manner,
    answer: &Answer,
) -> Result<(), AllocError>
    ensures { OnOk result (out.new.items ≡ out.old.items ++ labels_line manner answer.now) }
{
    push_number(out, answer.routes.len())?;
    push_text(out, " of ")?;
    push_number(out, manner.labels)?;
    push_text(out, " labels from ")?;
    push_called(out, alloc, &answer.from)?;
    push_text(out, "\n")
}

/// Appends to how many labels a task can get.
fn push_count(
    out: &mut Vec<u8>,
    alloc: Global,
    manner: Manner,
    answer: &Answer,
) -> Result<(), AllocError>
    ensures { OnOk result (out.new.items ≡ out.old.items ++ count_line manner answer.now) }
{
    push_at_least(out, answer)?;
    push_labels(out, alloc, manner, answer)
}

fn push_end(
    out: &mut Vec<u8>,
    alloc: Global,
    manner: Manner,
    answer: &Answer,
) -> Result<(), AllocError>
    ensures { OnOk result (out.new.items ≡ out.old.items ++ end_line manner answer.now) }
{
    if manner.is_sought {
        push_none(out, alloc, manner, answer)
    } else {
        push_count(out, alloc, manner, answer)
    }
}

fn push_answer(
    out: &mut Vec<u8>,
    alloc: Global,
    manner: Manner,
    answer: &Answer,
) -> Result<(), AllocError>
    ensures { OnOk result (out.new.items ≡ out.old.items ++ answer_text manner answer.now) }
{
    push_each(out, alloc, manner, &answer.from, answer.routes.as_slice())?;
    push_doubts(out, alloc, manner, &answer.from, answer.doubts.as_slice())?;
    push_end(out, alloc, manner, answer)?;
    push_unclean(out, alloc, manner, answer)
}

/// Appends the answers.
pub(crate) fn push_answers(
    out: &mut Vec<u8>,
    alloc: Global,
    manner: Manner,
    answers: &[Answer],
) -> Result<(), AllocError>
    ensures { OnOk result (out.new.items ≡ out.old.items ++ flat_map (answer_text manner) answers.now) }
{
    for answer in answers {
        push_answer(out, alloc, manner, answer)?;
    }
    Ok(())
}

/// Appends from which label it isn't told where requests lead on.
#[tactic(auto, unfolding(crate::specs::Shown::bar_line))]
fn push_bar(out: &mut Vec<u8>, alloc: Global, limit: usize, bar: &Bar) -> Result<(), AllocError>
    ensures { OnOk result (out.new.items ≡ out.old.items ++ bar_line limit (barred bar.now)) }
{
    push_text(out, "error: at ")?;
    push_called(out, alloc, &bar.at)?;
    push_text(out, " the rules ")?;
    push_why(out, limit, bar.why)
}

fn push_bars(out: &mut Vec<u8>, alloc: Global, limit: usize, bars: &[Bar]) -> Result<(), AllocError>
    ensures { OnOk result (out.new.items ≡ out.old.items ++ flat_map (bar_line limit) (map barred bars.now)) }
{
    for bar in bars {
        push_bar(out, alloc, limit, bar)?;
    }
    Ok(())
}

/// Appends the lines on what an answer doesn't tell.
pub(crate) fn push_untold_of(
    out: &mut Vec<u8>,
    alloc: Global,
    limit: usize,
    answer: &Answer,
) -> Result<(), AllocError>
    ensures { OnOk result (out.new.items ≡ out.old.items ++ untold_text limit answer.now) }
{
    push_bars(out, alloc, limit, answer.bars.as_slice())
}

/// Appends the lines on what can't be told.
pub(crate) fn push_untold(
    out: &mut Vec<u8>,
    alloc: Global,
    limit: usize,
    answers: &[Answer],
) -> Result<(), AllocError>
    ensures { OnOk result (out.new.items ≡ out.old.items ++ flat_map (untold_text limit) answers.now) }
{
    for answer in answers {
        push_untold_of(out, alloc, limit, answer)?;
    }
    Ok(())
}

/// Whether a label that is wanted is reached.
pub(crate) fn is_reached(answer: &Answer) -> bool
    ensures { result ≡ is_reached answer.now }
{
    !answer.routes.is_empty()
}
