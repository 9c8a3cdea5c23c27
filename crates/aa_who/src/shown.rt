//! Answers as they are printed.

ghost use Rattle.std.specs.Prelude.{◌≡◌, ◌++◌, codes, map, flat_map, option_map, decimal, IfOk, OnOk};
ghost use Rattle.aa_base.specs.Values.{value};
ghost use Rattle.aa_text.specs.Visible.{all_visible};
ghost use Rattle.aa_ask.specs.Told.{told};
ghost use Rattle.aa_undecided.specs.Answers.{placed_all};
ghost use Rattle.aa_who.specs.Grants.{granted};
ghost use Rattle.aa_who.specs.Answers.{answered};
ghost use Rattle.aa_who.specs.Shown.{quantity_mark, examples_mark, apart_mark, complains_mark, who_text, shown_by, grant_text, only_mark, apart_who, apart_front, apart_text, is_nobodys, none_text, nobody_text, free_mark, count_line, answer_text, untold_text};

use crate::answering::WordAnswer;
use crate::counting::Counted;
use crate::granting::Grant;
use crate::telling::push_untold_lines;
use aa_ask::{Verdict, push_reasons};
use aa_text::{push_name, push_number, push_text, push_visible};
use aa_undecided::{SkippedAt, push_undecided};
use std::alloc::{AllocError, Global};

fn push_quantity(out: &mut Vec<u8>, refused: &Option<Vec<u8>>) -> Result<(), AllocError>
    ensures { OnOk result (out.new.items ≡ out.old.items ++ quantity_mark (option_map (λ word. word.items) refused.now)) }
{
    push_text(out, if refused.is_some() { "some " } else { "every " })
}

/// Appends who is granted all or some of a word.
#[tactic(auto, unfolding(crate::specs::Shown::who_text))]
fn push_who(out: &mut Vec<u8>, alloc: Global, word: &[u8], grant: &Grant) -> Result<(), AllocError>
    ensures { OnOk result (out.new.items ≡ out.old.items ++ who_text word.now (granted grant.now)) }
{
    push_quantity(out, &grant.refused)?;
    push_name(out, alloc, grant.name.as_slice())?;
    push_text(out, " ")?;
    push_visible(out, word)
}

/// Appends a request that is granted and one that isn't, where not all are.
fn push_examples(
    out: &mut Vec<u8>,
    verdict: &Verdict,
    refused: &Option<Vec<u8>>,
) -> Result<(), AllocError>
    ensures { OnOk result (out.new.items ≡ out.old.items ++ examples_mark (told verdict.now) (option_map (λ word. word.items) refused.now)) }
{
    let Some(other) = refused else {
        return Ok(());
    };
    push_text(out, " as ")?;
    out.extend_from_slice(verdict.word.as_slice())?;
    push_text(out, ", not ")?;
    out.extend_from_slice(other.as_slice())
}

/// Appends a word behind a text.
fn push_behind(out: &mut Vec<u8>, text: &str, word: &[u8]) -> Result<(), AllocError>
    ensures { OnOk result (out.new.items ≡ out.old.items ++ (text.now ++ word.now)) }
{
    push_text(out, text)?;
    out.extend_from_slice(word)?;
    Ok(())
}

/// Appends a request at an unclean path that isn't granted, where all others are.
fn push_apart_mark(out: &mut Vec<u8>, apart: &Option<Vec<u8>>) -> Result<(), AllocError>
    ensures { OnOk result (out.new.items ≡ out.old.items ++ apart_mark (option_map (λ word. word.items) apart.now)) }
{
    let Some(other) = apart else {
        return Ok(());
    };
    push_behind(out, ", only at unclean paths not ", other.as_slice())
}

/// Appends which requests show it.
fn push_shown_by(out: &mut Vec<u8>, grant: &Grant) -> Result<(), AllocError>
    ensures { OnOk result (out.new.items ≡ out.old.items ++ shown_by (granted grant.now)) }
{
    push_examples(out, &grant.verdict, &grant.refused)?;
    push_apart_mark(out, &grant.apart)
}

/// Appends a mark, where a profile is in complain mode.
pub fn push_complains(out: &mut Vec<u8>, complains: bool) -> Result<(), AllocError>
    ensures { OnOk result (out.new.items ≡ out.old.items ++ complains_mark complains) }
{
    push_text(out, if complains { " complains" } else { "" })
}

/// Appends a profile that is granted all or some of a word, and the rules.
#[tactic(auto, unfolding(crate::specs::Shown::grant_text))]
fn push_grant(
    out: &mut Vec<u8>,
    alloc: Global,
    word: &[u8],
    grant: &Grant,
) -> Result<(), AllocError>
    ensures { OnOk result (out.new.items ≡ out.old.items ++ grant_text word.now (granted grant.now)) }
{
    push_who(out, alloc, word, grant)?;
    push_shown_by(out, grant)?;
    push_complains(out, grant.complains)?;
    push_text(out, "\n")?;
    push_reasons(out, &grant.verdict)
}

fn push_grants(
    out: &mut Vec<u8>,
    alloc: Global,
    word: &[u8],
    grants: &[Grant],
) -> Result<(), AllocError>
    ensures { OnOk result (out.new.items ≡ out.old.items ++ flat_map (grant_text word.now) (map granted grants.now)) }
{
    for grant in grants {
        push_grant(out, alloc, word, grant)?;
    }
    Ok(())
}

#[tactic(auto, unfolding(crate::specs::Shown::only_mark))]
fn push_only(out: &mut Vec<u8>) -> Result<(), AllocError>
    ensures { OnOk result (out.new.items ≡ out.old.items ++ only_mark) }
{
    push_text(out, "only at unclean paths ")
}

/// Appends a profile that is granted a word at unclean paths alone.
#[tactic(auto, unfolding(crate::specs::Shown::apart_who))]
fn push_apart_who(
    out: &mut Vec<u8>,
    alloc: Global,
    word: &[u8],
    grant: &Grant,
) -> Result<(), AllocError>
    ensures { OnOk result (out.new.items ≡ out.old.items ++ apart_who word.now (granted grant.now)) }
{
    push_only(out)?;
    push_name(out, alloc, grant.name.as_slice())?;
    push_text(out, " ")?;
    push_visible(out, word)
}

/// Appends it, and a request that shows it.
#[tactic(auto, unfolding(crate::specs::Shown::apart_front))]
fn push_apart_front(
    out: &mut Vec<u8>,
    alloc: Global,
    word: &[u8],
    grant: &Grant,
) -> Result<(), AllocError>
    ensures { OnOk result (out.new.items ≡ out.old.items ++ apart_front word.now (granted grant.now)) }
{
    push_apart_who(out, alloc, word, grant)?;
    push_behind(out, " as ", grant.verdict.word.as_slice())
}

/// Appends it, and the rules.
#[tactic(auto, unfolding(crate::specs::Shown::apart_text))]
fn push_apart(
    out: &mut Vec<u8>,
    alloc: Global,
    word: &[u8],
    grant: &Grant,
) -> Result<(), AllocError>
    ensures { OnOk result (out.new.items ≡ out.old.items ++ apart_text word.now (granted grant.now)) }
{
    push_apart_front(out, alloc, word, grant)?;
    push_complains(out, grant.complains)?;
    push_text(out, "\n")?;
    push_reasons(out, &grant.verdict)
}

fn push_all_apart(
    out: &mut Vec<u8>,
    alloc: Global,
    word: &[u8],
    grants: &[Grant],
) -> Result<(), AllocError>
    ensures { OnOk result (out.new.items ≡ out.old.items ++ flat_map (apart_text word.now) (map granted grants.now)) }
{
    for grant in grants {
        push_apart(out, alloc, word, grant)?;
    }
    Ok(())
}

/// Whether it is told of each profile that its rules allow nothing of a word.
pub(crate) fn is_nobodys(answer: &WordAnswer) -> bool
    ensures { result ≡ is_nobodys (answered answer.now) }
{
    answer.grants.list.is_empty() && answer.grants.untold.is_empty()
}

/// A word as it is shown.
fn shown_word(alloc: Global, word: &[u8]) -> Result<Vec<u8>, AllocError>
    ensures { IfOk result (λ shown. shown.items ≡ all_visible word.now) }
{
    let mut shown = Vec::new(alloc);
    push_visible(&mut shown, word)?;
    Ok(shown)
}

/// Appends that nobody is granted a word, or, where skipped files may hold profiles, that it is undecided.
fn push_none(
    out: &mut Vec<u8>,
    alloc: Global,
    holders: &[SkippedAt],
    word: &[u8],
) -> Result<(), AllocError>
    ensures { OnOk result (out.new.items ≡ out.old.items ++ none_text (placed_all holders.now) word.now) }
{
    match holders {
        [] => {
            push_text(out, "nobody ")?;
            push_visible(out, word)?;
            push_text(out, "\n")
        }
        [_, ..] => push_undecided(out, shown_word(alloc, word)?.as_slice(), holders),
    }
}

fn push_nobody(
    out: &mut Vec<u8>,
    alloc: Global,
    holders: &[SkippedAt],
    answer: &WordAnswer,
) -> Result<(), AllocError>
    ensures { OnOk result (out.new.items ≡ out.old.items ++ nobody_text (placed_all holders.now) (answered answer.now)) }
{
    if !is_nobodys(answer) {
        return Ok(());
    }
    push_none(out, alloc, holders, answer.word.as_slice())
}

fn push_free(out: &mut Vec<u8>, is_free: bool) -> Result<(), AllocError>
    ensures { OnOk result (out.new.items ≡ out.old.items ++ free_mark is_free) }
{
    push_text(
        out,
        if is_free {
            "; not confined: every task without a profile\n"
        } else {
            "\n"
        },
    )
}

/// Appends how many profiles are granted some of it.
#[tactic(auto, unfolding(crate::specs::Shown::count_line))]
fn push_count(out: &mut Vec<u8>, answer: &WordAnswer) -> Result<(), AllocError>
    ensures { OnOk result (out.new.items ≡ out.old.items ++ count_line (answered answer.now)) }
{
    push_number(out, answer.grants.list.len())?;
    push_text(out, " of ")?;
    push_number(out, answer.profiles)?;
    push_text(out, " profiles")?;
    push_free(out, answer.free.is_every())
}

#[tactic(auto, unfolding(crate::specs::Shown::answer_text))]
fn push_answer(
    out: &mut Vec<u8>,
    alloc: Global,
    holders: &[SkippedAt],
    answer: &WordAnswer,
) -> Result<(), AllocError>
    ensures { OnOk result (out.new.items ≡ out.old.items ++ answer_text (placed_all holders.now) (answered answer.now)) }
{
    push_grants(
        out,
        alloc,
        answer.word.as_slice(),
        answer.grants.list.as_slice(),
    )?;
    push_nobody(out, alloc, holders, answer)?;
    push_count(out, answer)?;
    push_all_apart(
        out,
        alloc,
        answer.word.as_slice(),
        answer.grants.apart.as_slice(),
    )
}

/// Appends the lines on what can't be told.
fn push_untold_of(out: &mut Vec<u8>, answer: &WordAnswer) -> Result<(), AllocError>
    ensures { OnOk result (out.new.items ≡ out.old.items ++ untold_text (answered answer.now)) }
{
    push_untold_lines(out, answer.grants.untold.as_slice())?;
    match &answer.free {
        Counted::Told(_) => Ok(()),
        Counted::Untold(line) => out.extend_from_slice(line.as_slice()),
    }
}

/// Appends of all answers the lines on what can't be told.
pub(crate) fn push_untold(out: &mut Vec<u8>, answers: &[WordAnswer]) -> Result<(), AllocError>
    ensures { OnOk result (out.new.items ≡ out.old.items ++ flat_map untold_text (map answered answers.now)) }
{
    for answer in answers {
        push_untold_of(out, answer)?;
    }
    Ok(())
}

/// Appends the answers, each with the rules, where these skipped files may hold profiles.
pub(crate) fn push_answers(
    out: &mut Vec<u8>,
    alloc: Global,
    holders: &[SkippedAt],
    answers: &[WordAnswer],
) -> Result<(), AllocError>
    ensures { OnOk result (out.new.items ≡ out.old.items ++ flat_map (answer_text (placed_all holders.now)) (map answered answers.now)) }
{
    for answer in answers {
        push_answer(out, alloc, holders, answer)?;
    }
    Ok(())
}
