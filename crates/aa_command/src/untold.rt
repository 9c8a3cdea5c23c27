//! Profiles of which nothing is told.

ghost use Rattle.std.specs.Prelude.{◌≡◌, ◌++◌, codes, map, OnOk};
ghost use Rattle.aa_text.specs.Jsons.{member_text, list_text};
ghost use Rattle.aa_command.specs.Untold.{untelling, untold_line, untold_lines, json_untold};

use aa_text::{ToJson, push_list_member, push_text};
use std::alloc::{AllocError, Global};

/// A profile of which nothing is told.
#[derive(Drop)]
pub struct Untold {
    /// Its full name.
    pub profile: Vec<u8>,
    /// Of what nothing is told, and why.
    pub text: Vec<u8>,
}

impl ToJson for Untold {
    ghost use Rattle.aa_command.specs.Untold.{untelling, json_untold};

    ghost json = { λ untold. json_untold (untelling untold) };

    fn push_json(&self, out: &mut Vec<u8>, alloc: Global) -> Result<(), AllocError> {
        self.profile.push_json(out, alloc)
    }
}

#[tactic(auto, unfolding(crate::specs::Untold::untold_line))]
fn push_line(out: &mut Vec<u8>, untold: &Untold) -> Result<(), AllocError>
    ensures { OnOk result (out.new.items ≡ out.old.items ++ untold_line (untelling untold.now)) }
{
    push_text(out, "error: ")?;
    out.extend_from_slice(untold.text.as_slice())?;
    push_text(out, "\n")
}

/// Appends an error for each of them, in a line: of what nothing is told, and why. Want of memory is the one error.
pub fn push_untold_lines(out: &mut Vec<u8>, all: &[Untold]) -> Result<(), AllocError>
    ensures { OnOk result (out.new.items ≡ out.old.items ++ untold_lines (map untelling all.now)) }
{
    for untold in all {
        push_line(out, untold)?;
    }
    Ok(())
}

/// Appends their names to an object that has members already, as its member `untold`. Want of memory is the one error.
pub fn push_untold_member(
    out: &mut Vec<u8>,
    alloc: Global,
    untold: &[Untold],
) -> Result<(), AllocError>
    ensures { OnOk result (out.new.items ≡ out.old.items ++ member_text (codes "untold") (list_text (map json_untold (map untelling untold.now)))) }
{
    push_list_member(out, alloc, "untold", untold)?;
    Ok(())
}
