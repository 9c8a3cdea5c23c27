//! Of whom it can't be told.

ghost use Rattle.std.specs.Prelude.{◌≡◌, ◌++◌, ◌∷◌, [], codes, map, OnOk, IfOk};
ghost use Rattle.aa_ask.specs.Told.{asker_of};
ghost use Rattle.aa_text.specs.Jsons.{member_text, list_text};
ghost use Rattle.aa_who.specs.Untold.{untold, untold_at, json_untold, untold_lines};

use aa_ask::asker_of;
use aa_compile::Compiled;
use aa_model::Label;
use aa_text::{ToJson, push_list_member, push_text};
use std::alloc::{AllocError, Global};

/// A task of which it can't be told what it is granted.
#[derive(Drop)]
pub struct Untold {
    /// The full name of its profile; none where it isn't confined.
    pub asker: Option<Vec<u8>>,
    /// The line on why.
    pub line: Vec<u8>,
}

fn untold_at(
    alloc: Global,
    policies: &[Compiled],
    label: Label,
    line: &[u8],
) -> Result<Untold, AllocError>
    ensures { IfOk result (λ u. untold u ≡ untold_at policies.now label line.now) }
{
    Ok(Untold {
        asker: asker_of(alloc, policies, label)?,
        line: Vec::from_slice(alloc, line)?,
    })
}

/// Adds a label of which it can't be told, with the line on why.
pub fn push_untold(
    list: &mut Vec<Untold>,
    alloc: Global,
    policies: &[Compiled],
    label: Label,
    line: &[u8],
) -> Result<(), AllocError>
    ensures { OnOk result (map untold list.new.items ≡ map untold list.old.items ++ untold_at policies.now label line.now ∷ []) }
{
    list.push(untold_at(alloc, policies, label, line)?)?;
    Ok(())
}

impl ToJson for Untold {
    ghost use Rattle.aa_who.specs.Untold.{untold, json_untold};

    ghost json = { λ one. json_untold (untold one) };

    fn push_json(&self, out: &mut Vec<u8>, alloc: Global) -> Result<(), AllocError> {
        match &self.asker {
            Some(name) => name.push_json(out, alloc),
            None => push_text(out, "null"),
        }
    }
}

/// Appends a member with the names of those of whom it can't be told.
pub fn push_untold_member(
    out: &mut Vec<u8>,
    alloc: Global,
    list: &[Untold],
) -> Result<(), AllocError>
    ensures { OnOk result (out.new.items ≡ out.old.items ++ member_text (codes "untold") (list_text (map json_untold (map untold list.now)))) }
{
    push_list_member(out, alloc, "untold", list)?;
    Ok(())
}

/// Appends the lines on those of whom it can't be told.
pub fn push_untold_lines(out: &mut Vec<u8>, list: &[Untold]) -> Result<(), AllocError>
    ensures { OnOk result (out.new.items ≡ out.old.items ++ untold_lines (map untold list.now)) }
{
    for one in list {
        out.extend_from_slice(one.line.as_slice())?;
    }
    Ok(())
}
