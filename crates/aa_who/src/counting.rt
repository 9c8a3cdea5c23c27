//! How many of the requests of a word a task is granted.

ghost use Rattle.std.specs.Prelude.{◌≡◌, ◌++◌, ◌<◌, ◌≤◌, codes, IfOk, IfErr, OnOk};
ghost use Rattle.aa_pattern.specs.Limits.{most_states};
ghost use Rattle.aa_text.specs.Visible.{all_visible};
ghost use Rattle.aa_load.specs.UnitPolicy.{limit_of};
ghost use Rattle.aa_who.specs.Words.{no_path, IsSaid};
ghost use Rattle.aa_who.specs.Counts.{asker, together, patterns_line, states_line, is_all, is_every, IsCounted, IsSought, SaysNoPath};

use crate::fault::WhoFault;
use crate::reading::said_of;
use aa_compile::{Compiled, name_of_label};
use aa_model::Label;
use aa_quantifiers::{Aim, First, Quantity, QuantityFault, Word, first_of, quantity_of};
use aa_text::{ToJson, push_bool, push_name, push_number, push_text, push_visible};
use std::alloc::{AllocError, Global};

/// How many of the requests of a word a task is granted.
#[derive(Drop)]
pub(crate) enum Counted {
    Told(Quantity),
    /// It can't be told: the line on why.
    Untold(Vec<u8>),
}

impl Counted {
    /// Whether it is told that all are granted.
    pub(crate) fn is_every(&self) -> bool
        ensures { result ≡ is_every self.now }
    {
        match self {
            Counted::Told(quantity) => is_all(quantity),
            Counted::Untold(_) => false,
        }
    }
}

/// Whether all are granted, or `null` where it can't be told.
impl ToJson for Counted {
    ghost use Rattle.aa_who.specs.Counts.{all_told};
    ghost use Rattle.aa_who.specs.Json.{json_all};

    ghost json = { λ counted. json_all (all_told counted) };

    fn push_json(&self, out: &mut Vec<u8>, _alloc: Global) -> Result<(), AllocError> {
        match self {
            Counted::Told(quantity) => push_bool(out, is_all(quantity)),
            Counted::Untold(_) => push_text(out, "null"),
        }
    }
}

/// Whether it is all.
fn is_all(quantity: &Quantity) -> bool
    ensures { result ≡ is_all quantity.now }
{
    matches!(quantity, Quantity::Every(_))
}

/// How many states an automaton may have.
fn limit_of(states: u32) -> usize
    ensures is { result ≡ limit_of states }
    ensures some { 0 < result }
    ensures bounded { result ≤ most_states }
{
    states.max(1).min(1_000_000) as usize
}

/// Appends how a label is called.
pub fn push_asker(
    out: &mut Vec<u8>,
    alloc: Global,
    policies: &[Compiled],
    label: Label,
) -> Result<(), AllocError>
    ensures { OnOk result (out.new.items ≡ out.old.items ++ asker policies.now label) }
{
    match label {
        Label::Unconfined(_) => push_text(out, "unconfined"),
        Label::Confined(_, _) => push_name(out, alloc, name_of_label(policies, label)),
    }
}

/// Appends what is looked at together: the rules at a label and the pattern of a word.
fn push_together(
    out: &mut Vec<u8>,
    alloc: Global,
    policies: &[Compiled],
    label: Label,
    text: &[u8],
) -> Result<(), AllocError>
    ensures { OnOk result (out.new.items ≡ out.old.items ++ together policies.now label text.now) }
{
    push_text(out, "error: at ")?;
    push_asker(out, alloc, policies, label)?;
    push_text(out, " the rules and ")?;
    push_visible(out, text)
}

/// What is said where they have too many patterns.
fn patterns_line(
    alloc: Global,
    policies: &[Compiled],
    label: Label,
    text: &[u8],
) -> Result<Vec<u8>, AllocError>
    ensures { IfOk result (λ line. line.items ≡ patterns_line policies.now label text.now) }
{
    let mut line = Vec::new(alloc);
    push_together(&mut line, alloc, policies, label, text)?;
    push_text(&mut line, " have more than 65535 patterns together\n")?;
    Ok(line)
}

/// What is said where they need too many states.
fn states_line(
    alloc: Global,
    policies: &[Compiled],
    label: Label,
    text: &[u8],
    limit: usize,
) -> Result<Vec<u8>, AllocError>
    ensures { IfOk result (λ line. line.items ≡ states_line policies.now label text.now limit) }
{
    let mut line = Vec::new(alloc);
    push_together(&mut line, alloc, policies, label, text)?;
    push_text(&mut line, " need more than ")?;
    push_number(&mut line, limit)?;
    push_text(&mut line, " states together; --states allows more\n")?;
    Ok(line)
}

/// What is said of a word that asks nothing, since its pattern matches no path that can be asked for.
fn no_path(alloc: Global, text: &[u8]) -> Result<WhoFault, AllocError>
    ensures { IfOk result (λ e. IsSaid (no_path text.now) e) }
{
    Ok(WhoFault::Refused(said_of(
        alloc,
        "error: no path that can be asked for matches: ",
        text,
    )?))
}

/// How many of the requests of a word a task with that label is granted. Refused where the word asks nothing.
pub(crate) fn count_at(
    alloc: Global,
    policies: &[Compiled],
    states: u32,
    label: Label,
    word: &Word,
    text: &[u8],
) -> Result<Counted, WhoFault>
    ensures counted { IfOk result (λ c. IsCounted policies.now (limit_of states) label word.now text.now c) }
    ensures refused { IfErr result (λ e. SaysNoPath word.now text.now e) }
{
    let limit = limit_of(states);
    match quantity_of(alloc, policies, label, word, limit) {
        Ok(quantity) => Ok(Counted::Told(quantity)),
        Err(QuantityFault::NoMemory) => Err(WhoFault::NoMemory),
        Err(QuantityFault::NoRequest) => Err(no_path(alloc, text)?),
        Err(QuantityFault::TooManyPatterns) => {
            Ok(Counted::Untold(patterns_line(alloc, policies, label, text)?))
        }
        Err(QuantityFault::TooManyStates) => {
            Ok(Counted::Untold(states_line(alloc, policies, label, text, limit)?))
        }
    }
}

/// A first of a word's requests that is answered as is wanted.
#[derive(Drop)]
pub enum Sought {
    Told(First),
    /// It can't be told: the line on why.
    Untold(Vec<u8>),
}

/// A first of a word's requests that is answered to a task with that label as is wanted. Refused where the word asks nothing.
pub fn first_at(
    alloc: Global,
    policies: &[Compiled],
    states: u32,
    label: Label,
    word: &Word,
    aim: Aim<'_>,
    text: &[u8],
) -> Result<Sought, WhoFault>
    ensures sought { IfOk result (λ s. IsSought policies.now (limit_of states) label word.now aim.entry text.now s) }
    ensures refused { IfErr result (λ e. SaysNoPath word.now text.now e) }
{
    let limit = limit_of(states);
    match first_of(alloc, policies, label, word, aim, limit) {
        Ok(first) => Ok(Sought::Told(first)),
        Err(QuantityFault::NoMemory) => Err(WhoFault::NoMemory),
        Err(QuantityFault::NoRequest) => Err(no_path(alloc, text)?),
        Err(QuantityFault::TooManyPatterns) => {
            Ok(Sought::Untold(patterns_line(alloc, policies, label, text)?))
        }
        Err(QuantityFault::TooManyStates) => {
            Ok(Sought::Untold(states_line(alloc, policies, label, text, limit)?))
        }
    }
}
