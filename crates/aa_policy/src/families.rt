//! Puts profiles and their children in one row, each with its parent's number.

ghost use Rattle.std.specs.Prelude.{◌≡◌, ◌++◌, ◌∷◌, [], length, map, OnOk};
ghost use Rattle.aa_policy.specs.Bodies.{number_of, child_profile, family, child_data, family_data, profile_data};

use crate::tree::{ChildTree, FamilyTree, ParentTree, ProfileTree};
use std::alloc::AllocError;

/// The most numbers that profiles may have.
const NUMBERS: usize = 65536;

/// A profile's number, where it is one that a policy may have.
// Profiles are put in a row before they are counted, since the first fault of a text may stand behind the limit. So a number
// past 65,535 is none, in the definition too; no policy within the limits has one.
fn number_of(number: usize) -> Option<u16>
    ensures { result ≡ number_of number }
{
    if number < NUMBERS {
        Some(number as u16)
    } else {
        None
    }
}

/// Adds a child of the profile with that number and name to the row.
fn push_child<'s>(
    row: &mut Vec<ProfileTree<'s>>,
    number: usize,
    parent: &'s [u8],
    child: ChildTree<'s>,
) -> Result<(), AllocError>
    ensures { OnOk result (map profile_data row.new.items ≡ map profile_data row.old.items ++ child_profile number parent.now (child_data child.entry) ∷ []) }
{
    let ChildTree { head, rules } = child;
    let parent = ParentTree {
        number: number_of(number),
        name: parent,
    };
    row.push(ProfileTree {
        head,
        parent: Some(parent),
        rules,
    })?;
    Ok(())
}

/// Adds a top-level profile and then its children to the row.
pub fn push_family<'s>(
    row: &mut Vec<ProfileTree<'s>>,
    profile: FamilyTree<'s>,
) -> Result<(), AllocError>
    ensures { OnOk result (map profile_data row.new.items ≡ map profile_data row.old.items ++ family (length row.old.items) (family_data profile.entry)) }
{
    let FamilyTree {
        head,
        rules,
        children,
    } = profile;
    let number = row.len();
    row.push(ProfileTree {
        head,
        parent: None,
        rules,
    })?;
    for child in children {
        push_child(row, number, head.title.name, child)?;
    }
    Ok(())
}
