//! Reads the text of a pattern.

ghost use Rattle.std.specs.Prelude.{◌≡◌, ◌≢◌, ◌+◌, ◌≤◌, ◌<◌, ℕ, length, drop, IfOk, IfErr, OnOk, Ok, Err, Some, false, List, [], ◌∷◌, ◌++◌};
ghost use Rattle.aa_glob.specs.Signs.{signs, is_left_out, is_letter_or_digit, is_unsupported};
ghost use Rattle.aa_glob.specs.Reading.{stars, ends_part, star_item, class_after, class_at, token_at, tokens_from, tokens, spelled, spelled_item, is_slash, depth_after, Gives, Finds};
ghost use Rattle.std.specs.List.{list_any};
ghost use Rattle.aa_glob.specs.declared.sign.Token.TheVariants.{Open, Comma, Close, Single};
ghost use Rattle.aa_glob.specs.Stack.{so_far, IsFit};

use crate::classes::{class_length, class_with, is_plain};
use crate::sign::{Sign, Token};
use aa_base::PolicyKind;
use aa_pattern::{Item, Pattern};
use std::alloc::Global;
use std::mem;

fn is_left_out_sign(sign: Sign) -> bool
    ensures { result ≡ is_left_out sign }
{
    sign.kept && sign.byte.is_ascii_alphanumeric()
}

fn signs_of(alloc: Global, text: &[u8]) -> Result<Vec<Sign>, PolicyKind>
    ensures ok { IfOk result (λ v. v.items ≡ signs text.now) }
    ensures cause { IfErr result (λ e. e ≡ PolicyKind.NoMemory) }
{
    let mut found: Vec<Sign> = Vec::with_capacity(alloc, text.len())?;
    let mut kept = false;
    for byte in text {
        if kept {
            found.push(Sign {
                kept: true,
                byte: *byte,
            })?;
            kept = false;
        } else if *byte == b'\\' {
            kept = true;
        } else {
            found.push(Sign {
                kept: false,
                byte: *byte,
            })?;
        }
    }
    if kept {
        found.push(Sign {
            kept: false,
            byte: b'\\',
        })?;
    }
    Ok(found)
}

fn star_count(signs: &[Sign]) -> usize
    ensures count { result ≡ stars signs.now }
    ensures within { result ≤ length signs.now }
{
    for (i, sign) in signs.iter().enumerate() {
        if !is_plain(*sign, b'*') {
            return i;
        }
    }
    signs.len()
}

fn part_ends(signs: &[Sign]) -> bool
    ensures { result ≡ ends_part signs.now }
{
    match signs {
        [] => true,
        [next, ..] => next.byte == b'/',
    }
}

fn star_token(many: bool, alone: bool) -> Item
    ensures is { result ≡ star_item many alone }
    ensures single { spelled_item result ≡ Single result ∷ [] }
{
    if alone {
        if many { Item::DeepOne } else { Item::RunOne }
    } else {
        if many { Item::Deep } else { Item::Run }
    }
}

#[tactic(auto, unfolding(crate::specs::Reading::class_after))]
fn class_behind(
    alloc: Global,
    before: usize,
    negated: bool,
    signs: &[Sign],
) -> Result<(Token, usize), PolicyKind>
    requires { before ≤ 1 }
    ensures finds { Finds (λ t. t) result (class_after before negated signs.now) }
    ensures within { IfOk result (λ t. t.1 ≤ before + length signs.now) }
    ensures fit { IfOk result (λ t. (depth : ℕ) → IsFit depth t.0) }
{
    let long = class_length(signs);
    if long < signs.len() {
        let (body, _) = signs.split_at(long);
        let item = class_with(alloc, negated, body)?;
        Ok((Token::Single(item), before + long + 1))
    } else {
        Err(PolicyKind::BadPattern)
    }
}

fn class_token(alloc: Global, signs: &[Sign]) -> Result<(Token, usize), PolicyKind>
    ensures finds { Finds (λ t. t) result (class_at signs.now) }
    ensures within { IfOk result (λ t. t.1 ≤ length signs.now) }
    ensures fit { IfOk result (λ t. (depth : ℕ) → IsFit depth t.0) }
{
    match signs {
        [] => Err(PolicyKind::BadPattern),
        [first, others @ ..] => {
            if is_plain(*first, b'^') {
                class_behind(alloc, 1, true, others)
            } else {
                class_behind(alloc, 0, false, signs)
            }
        }
    }
}

#[tactic(auto, unfolding(crate::specs::Reading::token_at))]
fn token_of(
    alloc: Global,
    depth: usize,
    slash: bool,
    first: Sign,
    others: &[Sign],
) -> Result<(Token, usize), PolicyKind>
    ensures finds { Finds (λ t. t) result (token_at depth slash first others.now) }
    ensures within { IfOk result (λ t. t.1 ≤ length others.now) }
    ensures fit { IfOk result (λ t. IsFit depth t.0) }
{
    if first.kept {
        return Ok((Token::Single(Item::Byte(first.byte)), 0));
    }
    if first.byte == b'?' {
        return Ok((Token::Single(Item::One), 0));
    }
    if first.byte == b'*' {
        let more = star_count(others);
        let (_, behind) = others.split_at(more);
        let alone = slash && part_ends(behind);
        return Ok((Token::Single(star_token(0 < more, alone)), more));
    }
    if first.byte == b'[' {
        return class_token(alloc, others);
    }
    if first.byte == b'{' {
        return if depth < 16 {
            Ok((Token::Open, 0))
        } else {
            Err(PolicyKind::BadPattern)
        };
    }
    if first.byte == b',' && 0 < depth {
        return Ok((Token::Comma, 0));
    }
    if first.byte == b'}' {
        return if 0 < depth {
            Ok((Token::Close, 0))
        } else {
            Err(PolicyKind::BadPattern)
        };
    }
    if first.byte == b'\\' {
        return Err(PolicyKind::BadPattern);
    }
    Ok((Token::Single(Item::Byte(first.byte)), 0))
}

/// A choice that isn't closed yet.
#[derive(Drop)]
struct OpenChoice {
    /// What stands before it.
    before: Vec<Item>,
    /// Its branches so far, but the one that is read now.
    branches: Vec<Vec<Item>>,
}

/// Opens a choice behind the items.
fn open_choice(
    alloc: Global,
    stack: &mut Vec<OpenChoice>,
    items: &mut Vec<Item>,
) -> Result<(), PolicyKind>
    ensures spelled { OnOk result (so_far stack.new.items items.new.items ≡ so_far stack.old.items items.old.items ++ Open ∷ []) }
    ensures depth { OnOk result (length stack.new.items ≡ length stack.old.items + 1) }
    ensures cause { IfErr result (λ e. e ≡ PolicyKind.NoMemory) }
{
    let before = mem::replace(items, Vec::new(alloc));
    stack.push(OpenChoice {
        before,
        branches: Vec::new(alloc),
    })?;
    Ok(())
}

/// Ends a branch of the last choice that is open, and begins the next.
#[tactic(auto, using(crate::proofs::Tokens::put_comma))]
fn next_branch(
    alloc: Global,
    stack: &mut Vec<OpenChoice>,
    items: &mut Vec<Item>,
) -> Result<(), PolicyKind>
    requires { 0 < length stack.old.items }
    ensures spelled { OnOk result (so_far stack.new.items items.new.items ≡ so_far stack.old.items items.old.items ++ Comma ∷ []) }
    ensures depth { OnOk result (length stack.new.items ≡ length stack.old.items) }
    ensures cause { IfErr result (λ e. e ≡ PolicyKind.NoMemory) }
{
    let Some(open) = stack.pop() else {
        unreachable!()
    };
    let OpenChoice {
        before,
        mut branches,
    } = open;
    branches.push(mem::replace(items, Vec::new(alloc)))?;
    stack.push(OpenChoice { before, branches })?;
    Ok(())
}

/// Closes the last choice that is open: it is one more item behind those that stand before it.
#[tactic(auto, using(crate::proofs::Tokens::put_close))]
fn close_choice(
    alloc: Global,
    stack: &mut Vec<OpenChoice>,
    items: &mut Vec<Item>,
) -> Result<(), PolicyKind>
    requires { 0 < length stack.old.items }
    ensures spelled { OnOk result (so_far stack.new.items items.new.items ≡ so_far stack.old.items items.old.items ++ Close ∷ []) }
    ensures depth { OnOk result (length stack.new.items + 1 ≡ length stack.old.items) }
    ensures cause { IfErr result (λ e. e ≡ PolicyKind.NoMemory) }
{
    let Some(open) = stack.pop() else {
        unreachable!()
    };
    let OpenChoice {
        mut before,
        mut branches,
    } = open;
    branches.push(mem::replace(items, Vec::new(alloc)))?;
    before.push(Item::Choice(branches))?;
    *items = before;
    Ok(())
}

/// Puts one more token behind those that the open choices and the items have.
#[tactic(auto, using(crate::proofs::Tokens::put_single))]
fn put(
    alloc: Global,
    stack: &mut Vec<OpenChoice>,
    items: &mut Vec<Item>,
    token: Token,
) -> Result<(), PolicyKind>
    requires { IsFit (length stack.old.items) token }
    ensures spelled { OnOk result (so_far stack.new.items items.new.items ≡ so_far stack.old.items items.old.items ++ token ∷ []) }
    ensures depth { OnOk result (length stack.new.items ≡ depth_after (length stack.old.items) token) }
    ensures cause { IfErr result (λ e. e ≡ PolicyKind.NoMemory) }
{
    match token {
        Token::Single(item) => {
            items.push(item)?;
            Ok(())
        }
        Token::Open => open_choice(alloc, stack, items),
        Token::Comma => next_branch(alloc, stack, items),
        Token::Close => close_choice(alloc, stack, items),
    }
}

fn is_slash_token(token: &Token) -> bool
    ensures { result ≡ is_slash token.now }
{
    match token {
        Token::Single(Item::Byte(byte)) => *byte == b'/',
        _ => false,
    }
}

fn depth_of(stack: &Vec<OpenChoice>) -> usize
    ensures { result ≡ length stack.now.items }
{
    stack.len()
}

/// The pattern that the signs make.
fn items_of(alloc: Global, list: &[Sign]) -> Result<Pattern, PolicyKind>
    ensures { Finds (λ p. spelled p.items.items) result (tokens_from 0 false 0 list.now) }
{
    let mut stack: Vec<OpenChoice> = Vec::new(alloc);
    let mut items: Vec<Item> = Vec::with_capacity(alloc, list.len())?;
    let mut slash = false;
    let mut at = 0;
    while at < list.len() {
        let (_, others) = list.split_at(at + 1);
        let found = token_of(alloc, depth_of(&stack), slash, list[at], others);
        let (token, more) = match found {
            Ok(pair) => pair,
            Err(fault) => return Err(fault),
        };
        slash = is_slash_token(&token);
        put(alloc, &mut stack, &mut items, token)?;
        at = at + 1 + more;
    }
    if depth_of(&stack) == 0 {
        Ok(Pattern { items })
    } else {
        Err(PolicyKind::BadPattern)
    }
}

fn has_left_out(list: &[Sign]) -> bool
    ensures { result ≡ list_any is_left_out list.now }
{
    list.iter().any(|sign| is_left_out_sign(*sign))
}

/// Reads a pattern (apparmor.d(5), "Globbing"). Refused as Unsupported where a backslash keeps a letter or digit, else as
/// BadPattern (an empty class, a class or choice that isn't closed, a `}` too many, a falling range, a backslash at the end,
/// choices more than 16 deep), else only for want of memory.
#[tactic(auto, unfolding(crate::specs::Reading::tokens))]
pub fn read_pattern(alloc: Global, text: &[u8]) -> Result<Pattern, PolicyKind>
    ensures { Gives (λ p. spelled p.items.items) result (tokens text.now) }
{
    let list = signs_of(alloc, text)?;
    if has_left_out(list.as_slice()) {
        return Err(PolicyKind::Unsupported);
    }
    items_of(alloc, list.as_slice())
}
