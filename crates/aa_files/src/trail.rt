//! The way on which a source is first read.
//!
//! An AmbiguousInclude is told by the way over the names that are looked up by then: the walk ends there, so which sources the
//! later names have isn't known.

ghost use Rattle.std.specs.Prelude.{◌≡◌, ◌⊎◌, ◌++◌, [], Option, None, map, option_to_list, reverse, slice_get, slice_set, IfOk, OnOk};
ghost use Rattle.std.specs.Option.{option_and_then};
ghost use Rattle.aa_words.specs.FoundData.{include_data};
ghost use Rattle.aa_files.specs.Trails.{step_of, AreSteps, IsReading, way_back, IsTrail, IsWay};
ghost use Rattle.aa_files.specs.Unread.{Slot, IsUnread};
ghost use Rattle.aa_files.specs.Links.{link_data, link_at, AreLinks};

use crate::unit::{Unit, node_named, text_of_node};
use aa_text::{Link, place_at};
use aa_words::{IncludeAt, includes_of};
use std::alloc::{AllocError, Global};

/// An include: the node that it opens, the node whose text has it, and its first byte there. Node 0 is the main text, and node
/// `n + 1` the unit's source `n`.
#[derive(Clone, Copy, Debug)]
struct Step {
    to: usize,
    from: usize,
    byte: usize,
}

/// The step of an include, if something lies at one of its name's paths.
fn step_of(unit: &Unit, from: usize, include: &IncludeAt<'_>) -> Option<Step>
    ensures { result ≡ step_of unit.now from (include_data include.now) }
{
    match node_named(unit, include.name()) {
        Some(to) => {
            Some(Step {
                to,
                from,
                byte: include.byte,
            })
        }
        None => None,
    }
}

fn push_step(steps: &mut Vec<Step>, step: Option<Step>) -> Result<(), AllocError>
    ensures { OnOk result (steps.new.items ≡ steps.old.items ++ option_to_list step) }
{
    if let Some(step) = step {
        steps.push(step)?;
    }
    Ok(())
}

/// The steps that a node's text has, in order.
fn steps_of(alloc: Global, unit: &Unit, node: usize) -> Result<Vec<Step>, AllocError>
    ensures { IfOk result (λ steps. AreSteps unit.now node steps.items) }
{
    let (_, text, _) = text_of_node(unit, node);
    let includes = includes_of(alloc, text)?;
    let mut steps = Vec::new(alloc);
    for include in &includes {
        push_step(&mut steps, step_of(unit, node, include))?;
    }
    Ok(steps)
}

/// The same, the first one last.
fn stack_of(alloc: Global, unit: &Unit, node: usize) -> Result<Vec<Step>, AllocError>
    ensures { IfOk result (λ steps. AreSteps unit.now node (reverse steps.items)) }
{
    let mut steps = steps_of(alloc, unit, node)?;
    steps.reverse();
    Ok(steps)
}

/// The steps of each source by its node, the first one last. The main text, which is read first, has none there.
fn unread_steps(alloc: Global, unit: &Unit) -> Result<Vec<Option<Vec<Step>>>, AllocError>
    ensures { IfOk result (λ slots. IsUnread unit.now [] slots.items) }
{
    let mut slots = Vec::new(alloc);
    slots.push(None)?;
    for number in 0..unit.sources.len() {
        slots.push(Some(stack_of(alloc, unit, number + 1)?))?;
    }
    Ok(slots)
}

/// Takes the steps of a source that isn't read yet.
fn take_steps(slots: &mut Vec<Option<Vec<Step>>>, node: usize) -> Option<Vec<Step>>
    ensures taken { result ≡ option_and_then (λ (slot : Slot). slot) (slice_get slots.old.items node) }
    ensures left { slots.new.items ≡ slice_set slots.old.items node None }
{
    match slots.get_mut(node) {
        Some(slot) => slot.take(),
        None => None,
    }
}

/// The steps by which a reading of the main text first comes to each of its sources, in the order in which it takes them.
fn reading_of(alloc: Global, unit: &Unit) -> Result<Vec<Step>, AllocError>
    ensures { IfOk result (λ met. IsReading unit.now (reverse met.items)) }
{
    let mut slots = unread_steps(alloc, unit)?;
    let mut stack = stack_of(alloc, unit, 0)?;
    let mut met = Vec::new(alloc);
    while let Some(step) = stack.pop() {
        if let Some(mut steps) = take_steps(&mut slots, step.to) {
            met.push(step)?;
            stack.append(&mut steps)?;
        }
    }
    Ok(met)
}

/// The steps that lead to a node, from the last one back to the main text.
fn way_back(alloc: Global, mut met: Vec<Step>, node: usize) -> Result<Vec<Step>, AllocError>
    ensures { IfOk result (λ way. way.items ≡ way_back (reverse met.items) node) }
{
    let mut way = Vec::new(alloc);
    let mut at = node;
    while let Some(step) = met.pop() {
        if step.to == at {
            way.push(step)?;
            at = step.from;
        }
    }
    Ok(way)
}

/// The includes by which a reading of the main text first comes to a node, innermost first.
fn trail_to(alloc: Global, unit: &Unit, node: usize) -> Result<Vec<Step>, AllocError>
    ensures trail { IfOk result (λ way. IsTrail unit.now node way.items) }
    ensures way { IfOk result (λ way. (way.items ≡ []) ⊎ IsWay unit.now node way.items) }
{
    if node == 0 {
        return Ok(Vec::new(alloc));
    }
    way_back(alloc, reading_of(alloc, unit)?, node)
}

fn push_link(
    alloc: Global,
    unit: &Unit,
    step: &Step,
    links: &mut Vec<Link>,
) -> Result<(), AllocError>
    ensures { OnOk result (map link_data links.new.items ≡ map link_data links.old.items ++ link_at unit.now step.now) }
{
    let (path, text, is_folder) = text_of_node(unit, step.from);
    if !is_folder {
        links.push(Link {
            path: Vec::from_slice(alloc, path)?,
            place: place_at(text, step.byte),
        })?;
    }
    Ok(())
}

/// The includes on the way to a node, without those of folders' texts.
pub fn links_to(alloc: Global, unit: &Unit, node: usize) -> Result<Vec<Link>, AllocError>
    ensures { IfOk result (λ links. AreLinks unit.now node links.items) }
{
    let trail = trail_to(alloc, unit, node)?;
    let mut links = Vec::new(alloc);
    for step in &trail {
        push_link(alloc, unit, step, &mut links)?;
    }
    Ok(links)
}
