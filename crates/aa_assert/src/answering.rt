//! By whom claims are broken.

ghost use Rattle.std.specs.Prelude.{map, IfOk, IfErr};
ghost use Rattle.aa_load.specs.UnitPolicy.{limit_of};
ghost use Rattle.aa_claims.specs.Faults.{SaysAt};
ghost use Rattle.aa_assert.specs.Refused.{AsksNoPath};
ghost use Rattle.aa_assert.specs.Answers.{answered, AreAnswers, IsAnswerAs, AreAnswersAs, IsFirstEmpty, IsFirstUnanswered};

use crate::finding::{Claim, Findings};
use crate::gathering::findings_of;
use crate::kind::{Kind, kind_of};
use crate::part::Part;
use crate::stating::{Stated, all_stated};
use aa_claims::{ClaimFault, ClaimLine};
use std::alloc::Global;

/// By whom the claim on a line is broken.
#[derive(Drop)]
pub(crate) struct Answer {
    /// The line's number, from 1.
    pub(crate) number: usize,
    pub(crate) kind: Kind,
    pub(crate) findings: Findings,
}

/// By whom it is broken what a claim states.
fn answer_to(
    alloc: Global,
    part: Part<'_>,
    states: u32,
    is_first: bool,
    stated: &Stated<'_>,
) -> Result<Answer, ClaimFault>
    ensures answered { IfOk result (λ a. IsAnswerAs is_first part.entry (limit_of states) stated.now (answered a)) }
    ensures refused { IfErr result (λ e. SaysAt (AsksNoPath stated.now.word.now stated.now.asked) e) }
{
    let words = stated.line.words.as_slice();
    let claim = Claim {
        words,
        word: stated.word,
        asked: &stated.asked,
        is_first,
        states,
    };
    let findings = findings_of(alloc, part, claim)?;
    let kind = kind_of(words);
    Ok(Answer {
        number: stated.line.number,
        kind,
        findings,
    })
}

/// By whom each is broken of what claims state, or the first that asks nothing.
fn all_answers(
    alloc: Global,
    part: Part<'_>,
    states: u32,
    is_first: bool,
    all: &[Stated<'_>],
) -> Result<Vec<Answer>, ClaimFault>
    ensures answered { IfOk result (λ list. AreAnswersAs is_first part.entry (limit_of states) all.now (map answered list.items)) }
    ensures refused { IfErr result (λ e. SaysAt (IsFirstEmpty is_first part.entry (limit_of states) all.now) e) }
{
    let mut answers = Vec::new(alloc);
    for stated in all {
        answers.push(answer_to(alloc, part, states, is_first, stated)?)?;
    }
    Ok(answers)
}

/// By whom each claim is broken, or why one of them isn't answered: it is looked what each states before the first is answered.
pub(crate) fn answers_to(
    alloc: Global,
    part: Part<'_>,
    states: u32,
    is_first: bool,
    claims: &[ClaimLine],
) -> Result<Vec<Answer>, ClaimFault>
    ensures answered { IfOk result (λ list. AreAnswers is_first part.entry (limit_of states) claims.now (map answered list.items)) }
    ensures refused { IfErr result (λ e. SaysAt (IsFirstUnanswered is_first part.entry (limit_of states) claims.now) e) }
{
    let all = all_stated(alloc, part, claims)?;
    all_answers(alloc, part, states, is_first, all.as_slice())
}
