//! Patterns as numbers.

ghost use Rattle.std.specs.Prelude.{◌≡◌, ◌++◌, ◌+◌, ◌∷◌, ◌≤◌, [], OnOk, IfOk};
ghost use Rattle.aa_changed_rules.specs.Codes.{member, members, class_code, item_code, items_code, branches_code, pattern_code};

use aa_pattern::{ByteSet, Item, Pattern};
use std::alloc::{AllocError, Global};

/// The numbers of items: what ends a class, a choice or a branch, and what begins each; that of a byte is as much more than the last.
const END: u64 = 0;

const ONE: u64 = 1;

const RUN: u64 = 2;

const RUN_ONE: u64 = 3;

const DEEP: u64 = 4;

const DEEP_ONE: u64 = 5;

const CLASS: u64 = 6;

const CHOICE: u64 = 7;

const BRANCH: u64 = 8;

const BYTE: u64 = 9;

pub(crate) fn push_number(out: &mut Vec<u64>, number: u64) -> Result<(), AllocError>
    ensures { OnOk result (out.new.items ≡ out.old.items ++ number ∷ []) }
{
    out.push(number)?;
    Ok(())
}

/// Adds a byte, if it is in the set.
fn push_member(out: &mut Vec<u64>, set: &ByteSet, byte: u8) -> Result<(), AllocError>
    ensures { OnOk result (out.new.items ≡ out.old.items ++ member set.now byte) }
{
    if !set.has(byte) {
        return Ok(());
    }
    push_number(out, byte as u64 + BYTE)
}

/// Adds the bytes below a bound that are in the set.
#[tactic(auto, unfolding(crate::specs::Codes::members))]
fn push_members(out: &mut Vec<u64>, set: &ByteSet, bound: u16) -> Result<(), AllocError>
    requires { bound ≤ 256 }
    ensures { OnOk result (out.new.items ≡ out.old.items ++ members set.now bound) }
{
    for byte in 0..bound {
        push_member(out, set, byte as u8)?;
    }
    Ok(())
}

/// Adds the numbers of a class.
#[tactic(auto, unfolding(crate::specs::Codes::class_code))]
fn push_class(out: &mut Vec<u64>, set: &ByteSet) -> Result<(), AllocError>
    ensures { OnOk result (out.new.items ≡ out.old.items ++ class_code set.now) }
{
    push_number(out, CLASS)?;
    push_members(out, set, 256)?;
    push_number(out, END)
}

/// Adds the numbers of an item.
#[cycle(codes)]
fn push_item(out: &mut Vec<u64>, item: &Item) -> Result<(), AllocError>
    ensures { OnOk result (out.new.items ≡ out.old.items ++ item_code item.now) }
{
    match item {
        Item::Byte(byte) => push_number(out, *byte as u64 + BYTE),
        Item::One => push_number(out, ONE),
        Item::Run => push_number(out, RUN),
        Item::RunOne => push_number(out, RUN_ONE),
        Item::Deep => push_number(out, DEEP),
        Item::DeepOne => push_number(out, DEEP_ONE),
        Item::Class(set) => push_class(out, set),
        Item::Choice(branches) => {
            push_number(out, CHOICE)?;
            push_branches(out, branches.as_slice())?;
            push_number(out, END)
        }
    }
}

/// Adds the numbers of branches.
#[cycle(codes)]
fn push_branches(out: &mut Vec<u64>, branches: &[Vec<Item>]) -> Result<(), AllocError>
    ensures { OnOk result (out.new.items ≡ out.old.items ++ branches_code branches.now) }
{
    for branch in branches {
        push_number(out, BRANCH)?;
        push_items(out, branch.as_slice())?;
        push_number(out, END)?;
    }
    Ok(())
}

/// Adds the numbers of items.
#[cycle(codes)]
fn push_items(out: &mut Vec<u64>, items: &[Item]) -> Result<(), AllocError>
    ensures { OnOk result (out.new.items ≡ out.old.items ++ items_code items.now) }
{
    for item in items {
        push_item(out, item)?;
    }
    Ok(())
}

/// The numbers of a pattern's items.
pub(crate) fn code_of(alloc: Global, pattern: &Pattern) -> Result<Vec<u64>, AllocError>
    ensures { IfOk result (λ code. code.items ≡ pattern_code pattern.now) }
{
    let mut code = Vec::new(alloc);
    push_items(&mut code, pattern.items.as_slice())?;
    Ok(code)
}
