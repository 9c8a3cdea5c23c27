//! The heads of profiles whose attachments account for a difference.

ghost use Rattle.std.specs.Prelude.{◌≡◌, ◌++◌, ◌∷◌, [], option_map, OnOk, IfOk};
ghost use Rattle.aa_diff.specs.Heads.{head_there, head_by, head_of, heads};

use crate::rules::Rule;
use aa_ask::unit_of;
use aa_base::{Seq, Text};
use aa_changed_rules::attached_alone;
use aa_command::{Decided, PlacedUnit};
use aa_compile::Compiled;
use aa_explain::{Extent, ProfilePlaces};
use aa_files::text_at;
use aa_model::{Label, Request};
use aa_rule_text::head_text;
use std::alloc::{AllocError, Global};

/// The head that stands there in a unit.
fn head_there(alloc: Global, unit: &PlacedUnit<'_>, extent: Extent) -> Result<Rule, AllocError>
    ensures { IfOk result (λ head. head ≡ head_there unit.now extent) }
{
    let (path, text) = text_at(unit.unit(), extent.at.file);
    let byte = extent.at.byte as usize;
    let head = head_text(alloc, text, byte, extent.end as usize)?;
    Ok(Rule {
        path: Text::copy_of(alloc, path)?,
        place: unit.place_at(extent.at.file, byte),
        text: Text::from_vec(head),
    })
}

/// Adds the head that stands there in a unit.
fn push_head(
    alloc: Global,
    unit: &PlacedUnit<'_>,
    extent: Extent,
    rules: &mut Vec<Rule>,
) -> Result<(), AllocError>
    ensures { OnOk result (rules.new.items ≡ rules.old.items ++ head_there unit.now extent ∷ []) }
{
    rules.push(head_there(alloc, unit, extent)?)?;
    Ok(())
}

/// Adds the head of a profile, where it is known where that stands.
fn push_head_by(
    alloc: Global,
    unit: Option<&PlacedUnit<'_>>,
    places: Option<&ProfilePlaces<'_>>,
    rules: &mut Vec<Rule>,
) -> Result<(), AllocError>
    ensures { OnOk result (rules.new.items ≡ rules.old.items ++ head_by (option_map (λ u. u.now) unit.entry) (option_map (λ p. p.now) places.entry)) }
{
    match (unit, places) {
        (Some(unit), Some(places)) => push_head(alloc, unit, places.head, rules),
        _ => Ok(()),
    }
}

/// Adds the head of the profile of that number.
fn push_head_of(
    alloc: Global,
    decided: Decided<'_>,
    number: u16,
    rules: &mut Vec<Rule>,
) -> Result<(), AllocError>
    ensures { OnOk result (rules.new.items ≡ rules.old.items ++ head_of decided.entry number) }
{
    let number = number as usize;
    let unit = unit_of(decided.units, decided.owners, number);
    push_head_by(alloc, unit, decided.places.get(number), rules)
}

/// Adds the head of the profile that an execution finds by an attachment, where the other policies attach none of its name to the path.
fn push_heads(
    alloc: Global,
    decided: Decided<'_>,
    others: &[Compiled],
    label: Label,
    there: Label,
    request: &Request,
    rules: &mut Vec<Rule>,
) -> Result<(), AllocError>
    ensures { OnOk result (rules.new.items ≡ rules.old.items ++ heads decided.entry others.now label there request.now) }
{
    match attached_alone(decided.policies, others, label, there, request) {
        Some(number) => push_head_of(alloc, decided, number, rules),
        None => Ok(()),
    }
}

/// Rules, and behind them that head.
pub(crate) fn with_heads(
    alloc: Global,
    decided: Decided<'_>,
    others: &[Compiled],
    label: Label,
    there: Label,
    request: &Request,
    rules: Seq<Rule>,
) -> Result<Seq<Rule>, AllocError>
    ensures { IfOk result (λ all. all ≡ rules ++ heads decided.entry others.now label there request.now) }
{
    let mut all = rules.into_vec();
    push_heads(alloc, decided, others, label, there, request, &mut all)?;
    Ok(Seq::from_vec(all))
}
