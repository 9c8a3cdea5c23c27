//! Profiles of which nothing can be found.

ghost use Rattle.std.specs.Prelude.{◌≡◌, ◌++◌, IfOk, OnOk};
ghost use Rattle.aa_command.specs.Untold.{untelling};
ghost use Rattle.aa_lint.specs.Untold.{untold_text};

use aa_command::Untold;
use aa_text::{push_name, push_text};
use std::alloc::{AllocError, Global};

/// Appends of what nothing is found, and why.
#[tactic(auto, unfolding(crate::specs::Untold::untold_text))]
fn push_text_of(out: &mut Vec<u8>, alloc: Global, name: &[u8], why: &str) -> Result<(), AllocError>
    ensures { OnOk result (out.new.items ≡ out.old.items ++ untold_text name.now why.now) }
{
    push_text(out, "of ")?;
    push_name(out, alloc, name)?;
    push_text(out, " nothing is found: ")?;
    push_text(out, why)
}

fn text_of(alloc: Global, name: &[u8], why: &str) -> Result<Vec<u8>, AllocError>
    ensures { IfOk result (λ text. text.items ≡ untold_text name.now why.now) }
{
    let mut text = Vec::new(alloc);
    push_text_of(&mut text, alloc, name, why)?;
    Ok(text)
}

/// The profile of that name, of which nothing can be found.
pub(crate) fn untold_of(alloc: Global, name: &[u8], why: &str) -> Result<Untold, AllocError>
    ensures profile { IfOk result (λ u. (untelling u).profile ≡ name.now) }
    ensures text { IfOk result (λ u. (untelling u).text ≡ untold_text name.now why.now) }
{
    Ok(Untold {
        profile: Vec::from_slice(alloc, name)?,
        text: text_of(alloc, name, why)?,
    })
}
