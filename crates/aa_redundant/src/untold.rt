//! Profiles of which it can't be told which rules are redundant.

ghost use Rattle.std.specs.Prelude.{◌≡◌, ◌++◌, IfOk, OnOk, map, flat_map};
ghost use Rattle.aa_command.specs.Untold.{untelling};
ghost use Rattle.aa_redundant.specs.Untold.{why_of, untold_text, untold_of, untold_at, all_untold};

use aa_command::Untold;
use aa_model::Profile;
use aa_redundancy::{Excess, UntoldProfile};
use aa_text::{push_name, push_text};
use std::alloc::{AllocError, Global};

fn why_of(excess: Excess) -> &'static str
    ensures { result.now ≡ why_of excess }
{
    match excess {
        Excess::Patterns => "there are more than 65535 patterns",
        Excess::States => "its patterns need too many states together; --states allows more",
    }
}

/// Appends of which profile it can't be told, and why.
#[tactic(auto, unfolding(crate::specs::Untold::untold_text))]
fn push_text_of(out: &mut Vec<u8>, alloc: Global, name: &[u8], why: &str) -> Result<(), AllocError>
    ensures { OnOk result (out.new.items ≡ out.old.items ++ untold_text name.now why.now) }
{
    push_text(out, "of ")?;
    push_name(out, alloc, name)?;
    push_text(out, " it can't be told which rules are redundant: ")?;
    push_text(out, why)
}

fn text_of(alloc: Global, name: &[u8], why: &str) -> Result<Vec<u8>, AllocError>
    ensures { IfOk result (λ text. text.items ≡ untold_text name.now why.now) }
{
    let mut text = Vec::new(alloc);
    push_text_of(&mut text, alloc, name, why)?;
    Ok(text)
}

fn untold_of(alloc: Global, name: &[u8], excess: Excess) -> Result<Untold, AllocError>
    ensures { IfOk result (λ u. untelling u ≡ untold_of name.now excess) }
{
    Ok(Untold {
        profile: Vec::from_slice(alloc, name)?,
        text: text_of(alloc, name, why_of(excess))?,
    })
}

/// Adds the profile of that number, where it is there.
fn push_untold_at(
    all: &mut Vec<Untold>,
    alloc: Global,
    profiles: &[Profile],
    one: UntoldProfile,
) -> Result<(), AllocError>
    ensures { OnOk result (map untelling all.new.items ≡ map untelling all.old.items ++ untold_at profiles.now one) }
{
    match profiles.get(one.number) {
        Some(profile) => {
            all.push(untold_of(alloc, profile.name.as_slice(), one.why)?)?;
            Ok(())
        }
        None => Ok(()),
    }
}

/// The profiles of which it can't be told.
pub(crate) fn all_untold(
    alloc: Global,
    profiles: &[Profile],
    untold: &[UntoldProfile],
) -> Result<Vec<Untold>, AllocError>
    ensures { IfOk result (λ all. map untelling all.items ≡ all_untold profiles.now untold.now) }
{
    let mut all = Vec::new(alloc);
    for one in untold {
        push_untold_at(&mut all, alloc, profiles, *one)?;
    }
    Ok(all)
}
