//! Whether a claim is broken at a label.

ghost use Rattle.std.specs.Prelude.{◌≡◌, IfOk, IfErr};
ghost use Rattle.aa_load.specs.UnitPolicy.{limit_of};
ghost use Rattle.aa_quantifiers.specs.Aims.{IsMet};
ghost use Rattle.aa_who.specs.Counts.{SaysNoPath};
ghost use Rattle.aa_assert.specs.Judging.{judged_by, judged_of, IsJudged};

use aa_compile::Compiled;
use aa_model::{Label, Request};
use aa_quantifiers::{Aim, First, Word};
use aa_who::{Sought, WhoFault, first_at};
use std::alloc::Global;

/// Whether a claim is broken at a label.
#[derive(Drop)]
pub(crate) enum Judgement {
    /// By this request.
    Broken(Request),
    /// This one and all others are answered otherwise.
    Holds(Request),
    /// It can't be told: the line on why.
    Untold(Vec<u8>),
}

/// Whether the claim that no request is answered so is broken.
fn judged_by(first: First) -> Judgement
    ensures { result ≡ judged_by first }
{
    match first {
        First::Some(one) => Judgement::Broken(one),
        First::None(other) => Judgement::Holds(other),
    }
}

/// The same, where it may not be told.
fn judged(sought: Sought) -> Judgement
    ensures { result ≡ judged_of sought }
{
    match sought {
        Sought::Told(first) => judged_by(first),
        Sought::Untold(line) => Judgement::Untold(line),
    }
}

/// Whether the claim that no request of the word is answered so is broken at a label. Refused where the word asks nothing.
pub(crate) fn judge(
    alloc: Global,
    policies: &[Compiled],
    states: u32,
    label: Label,
    aim: Aim<'_>,
    word: &Word,
    text: &[u8],
) -> Result<Judgement, WhoFault>
    ensures judged { IfOk result (λ j. IsJudged policies.now (limit_of states) label (IsMet policies.now label aim.entry) word.now text.now j) }
    ensures refused { IfErr result (λ e. SaysNoPath word.now text.now e) }
{
    let sought = first_at(alloc, policies, states, label, word, aim, text)?;
    Ok(judged(sought))
}
