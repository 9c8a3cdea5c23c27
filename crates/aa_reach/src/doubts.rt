//! Labels at which an execution or a change could lead into skipped files.

ghost use Rattle.std.specs.Prelude.{◌≡◌, ◌++◌, map, filter, flat_map, OnOk, IfOk, if◌then◌else◌, []};
ghost use Rattle.aa_undecided.specs.Answers.{placed, placed_all};
ghost use Rattle.aa_files.specs.Texts.{texts};
ghost use Rattle.aa_reach.specs.Heads.{may_hold};
ghost use Rattle.aa_reach.specs.Names.{name_of};
ghost use Rattle.aa_reach.specs.Doubts.{opens, files_opening_in, files_opening, doubted, doubted_if, doubted_at, doubted_of, is_reached_by, doubted_but, doubted_name};

use crate::heads::may_hold;
use crate::naming::{Named, name_left_open, name_of};
use aa_ask::is_same;
use aa_compile::Compiled;
use aa_differences::label_is_open;
use aa_model::Label;
use aa_reachability::Arrival;
use aa_skipped::Skipped;
use aa_undecided::{SkippedAt, push_if};
use std::alloc::{AllocError, Global};

/// A label at which an execution or a change could lead into skipped files, and these.
#[derive(Drop)]
pub(crate) struct Doubt {
    pub(crate) at: Named,
    pub(crate) files: Vec<SkippedAt>,
}

fn files_opening_in(
    alloc: Global,
    compiled: &Compiled,
    skipped: &[Skipped],
    label: Label,
) -> Result<Vec<SkippedAt>, AllocError>
    ensures { IfOk result (λ files. placed_all files.items ≡ files_opening_in skipped.now label compiled.now) }
{
    let mut files = Vec::new(alloc);
    for file in skipped {
        let opens = label_is_open(alloc, compiled, &file.unread, label)?;
        push_if(alloc, &mut files, opens, file)?;
    }
    Ok(files)
}

/// The skipped files that could change what is answered at a label.
#[tactic(auto, unfolding(crate::specs::Doubts::files_opening))]
fn files_opening(
    alloc: Global,
    policies: &[Compiled],
    skipped: &[Skipped],
    label: Label,
) -> Result<Vec<SkippedAt>, AllocError>
    ensures { IfOk result (λ files. placed_all files.items ≡ files_opening policies.now skipped.now label) }
{
    match policies.get(0) {
        Some(compiled) => files_opening_in(alloc, compiled, skipped, label),
        None => Ok(Vec::new(alloc)),
    }
}

/// Adds a label with these files, if there are some.
fn push_with(
    doubts: &mut Vec<Doubt>,
    alloc: Global,
    policies: &[Compiled],
    label: Label,
    files: Vec<SkippedAt>,
) -> Result<(), AllocError>
    ensures { OnOk result (map doubted doubts.new.items ≡ map doubted doubts.old.items ++ doubted_if (name_of policies.now label) (placed_all files.items)) }
{
    if files.is_empty() {
        return Ok(());
    }
    let at = name_of(alloc, policies, label)?;
    doubts.push(Doubt { at, files })?;
    Ok(())
}

/// Adds a label, if skipped files could change what is answered there.
fn push_at(
    doubts: &mut Vec<Doubt>,
    alloc: Global,
    policies: &[Compiled],
    skipped: &[Skipped],
    label: Label,
) -> Result<(), AllocError>
    ensures { OnOk result (map doubted doubts.new.items ≡ map doubted doubts.old.items ++ doubted_at policies.now skipped.now label) }
{
    let files = files_opening(alloc, policies, skipped, label)?;
    push_with(doubts, alloc, policies, label, files)
}

/// That label alone, if it is one.
pub(crate) fn doubts_at(
    alloc: Global,
    policies: &[Compiled],
    skipped: &[Skipped],
    label: Label,
) -> Result<Vec<Doubt>, AllocError>
    ensures { IfOk result (λ doubts. map doubted doubts.items ≡ doubted_at policies.now skipped.now label) }
{
    let mut doubts = Vec::new(alloc);
    push_at(&mut doubts, alloc, policies, skipped, label)?;
    Ok(doubts)
}

/// Whether one of the arrivals is at a label.
pub(crate) fn is_reached_by(arrivals: &[Arrival], label: Label) -> bool
    ensures { result ≡ is_reached_by arrivals.now label }
{
    arrivals.iter().any(|arrival| is_same(label, arrival.label))
}

/// Adds a label so, unless one of the arrivals is there.
fn push_but(
    doubts: &mut Vec<Doubt>,
    alloc: Global,
    policies: &[Compiled],
    skipped: &[Skipped],
    but: &[Arrival],
    arrival: &Arrival,
) -> Result<(), AllocError>
    ensures { OnOk result (map doubted doubts.new.items ≡ map doubted doubts.old.items ++ doubted_but policies.now skipped.now but.now arrival.now) }
{
    if is_reached_by(but, arrival.label) {
        return Ok(());
    }
    push_at(doubts, alloc, policies, skipped, arrival.label)
}

/// Those of the labels of arrivals at which none of others is, one after another.
pub(crate) fn doubts_of(
    alloc: Global,
    policies: &[Compiled],
    skipped: &[Skipped],
    but: &[Arrival],
    arrivals: &[Arrival],
) -> Result<Vec<Doubt>, AllocError>
    ensures { IfOk result (λ doubts. map doubted doubts.items ≡ flat_map (doubted_but policies.now skipped.now but.now) arrivals.now) }
{
    let mut doubts = Vec::new(alloc);
    for arrival in arrivals {
        push_but(&mut doubts, alloc, policies, skipped, but, arrival)?;
    }
    Ok(doubts)
}

/// The skipped files that may hold a profile that a text names.
fn files_naming(
    alloc: Global,
    skipped: &[Skipped],
    text: &[u8],
) -> Result<Vec<SkippedAt>, AllocError>
    ensures { IfOk result (λ files. placed_all files.items ≡ map placed (filter (may_hold text.now) skipped.now)) }
{
    let mut files = Vec::new(alloc);
    for file in skipped {
        let may = may_hold(alloc, text, file)?;
        push_if(alloc, &mut files, may, file)?;
    }
    Ok(files)
}

/// A text that names no label, and these files.
pub(crate) fn doubt_on(alloc: Global, skipped: &[Skipped], text: &[u8]) -> Result<Doubt, AllocError>
    ensures { IfOk result (λ doubt. doubted doubt ≡ doubted_name skipped.now text.now) }
{
    Ok(Doubt {
        at: name_left_open(alloc, text)?,
        files: files_naming(alloc, skipped, text)?,
    })
}

/// The same of texts, one after another.
pub(crate) fn doubts_on(
    alloc: Global,
    skipped: &[Skipped],
    words: &[Vec<u8>],
) -> Result<Vec<Doubt>, AllocError>
    ensures { IfOk result (λ doubts. map doubted doubts.items ≡ map (doubted_name skipped.now) (texts words.now)) }
{
    let mut doubts = Vec::new(alloc);
    for word in words {
        doubts.push(doubt_on(alloc, skipped, word.as_slice())?)?;
    }
    Ok(doubts)
}
