//! The patterns that tell the objects of a profile's rules apart.

ghost use Rattle.std.specs.Prelude.{◌≡◌, ◌++◌, ◌∷◌, [], IfOk, OnOk};
ghost use Rattle.aa_auto.specs.Nodes.{pointed};
ghost use Rattle.aa_compile.specs.Rows.{patterns_of};
ghost use Rattle.aa_findings.specs.Rows.{below_root};

use aa_model::FileRule;
use aa_pattern::{Item, Pattern};
use std::alloc::{AllocError, Global};

/// The pattern `/**`.
pub(crate) fn root_pattern(alloc: Global) -> Result<Pattern, AllocError>
    ensures { IfOk result (λ p. p.items.items ≡ below_root) }
{
    let mut items = Vec::new(alloc);
    items.push(Item::Byte(b'/'))?;
    items.push(Item::DeepOne)?;
    Ok(Pattern { items })
}

fn add_patterns<'p>(
    pointers: &mut Vec<&'p Pattern>,
    patterns: &'p [Pattern],
) -> Result<(), AllocError>
    ensures { OnOk result (pointed pointers.new.items ≡ pointed pointers.old.items ++ patterns.now) }
{
    for pattern in patterns {
        pointers.push(pattern)?;
    }
    Ok(())
}

fn patterns_of(alloc: Global, rules: &[FileRule]) -> Result<Vec<&Pattern>, AllocError>
    ensures { IfOk result (λ pointers. pointed pointers.items ≡ patterns_of rules.now) }
{
    let mut pointers = Vec::new(alloc);
    for rule in rules {
        add_patterns(&mut pointers, rule.patterns.as_slice())?;
    }
    Ok(pointers)
}

/// The patterns of the rules, and one more behind them.
pub(crate) fn patterns_and<'p>(
    alloc: Global,
    rules: &'p [FileRule],
    pattern: &'p Pattern,
) -> Result<Vec<&'p Pattern>, AllocError>
    ensures { IfOk result (λ pointers. pointed pointers.items ≡ patterns_of rules.now ++ pattern.now ∷ []) }
{
    let mut pointers = patterns_of(alloc, rules)?;
    pointers.push(pattern)?;
    Ok(pointers)
}
