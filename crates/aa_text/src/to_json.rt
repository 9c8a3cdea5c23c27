//! Values that are printed as JSON, members and lists of them.

ghost use Rattle.std.specs.Prelude.{◌≡◌, ◌++◌, ℕ, List, [], Bool, codes, map, option_map, OnOk, if◌then◌else◌};
ghost use Rattle.std.specs.List.{filter};
ghost use Rattle.aa_text.specs.Jsons.{key_text, member_text, member_if, behind_commas, with_commas, comma_if, list_text};

use crate::json_text::{push_bool, push_json_bytes, push_key};
use crate::text::{push_number, push_text};
use std::alloc::{AllocError, Global};

/// A value that is printed as JSON.
pub trait ToJson {
    /// Its text.
    ghost json: { Self → List ℕ };

    /// Appends its text.
    fn push_json(&self, out: &mut Vec<u8>, alloc: Global) -> Result<(), AllocError>
        ensures { OnOk result (out.new.items ≡ out.old.items ++ json self.now) };
}

/// Bytes are a JSON text, or where they are no UTF-8, an object with their hexadecimal digits.
impl ToJson for Vec<u8> {
    ghost use Rattle.aa_text.specs.Jsons.{json_bytes};

    ghost json = { λ bytes. json_bytes bytes.items };

    fn push_json(&self, out: &mut Vec<u8>, alloc: Global) -> Result<(), AllocError> {
        push_json_bytes(out, alloc, self.as_slice())
    }
}

/// Borrowed bytes are printed so too.
impl ToJson for &[u8] {
    ghost use Rattle.aa_text.specs.Jsons.{json_bytes};

    ghost json = { λ bytes. json_bytes bytes.now };

    fn push_json(&self, out: &mut Vec<u8>, alloc: Global) -> Result<(), AllocError> {
        push_json_bytes(out, alloc, *self)
    }
}

/// `true` or `false`.
impl ToJson for bool {
    ghost use Rattle.aa_text.specs.Jsons.{bool_text};

    ghost json = { bool_text };

    fn push_json(&self, out: &mut Vec<u8>, _alloc: Global) -> Result<(), AllocError> {
        push_bool(out, *self)
    }
}

/// A number in decimal.
impl ToJson for usize {
    ghost use Rattle.std.specs.Prelude.{decimal};

    ghost json = { decimal };

    fn push_json(&self, out: &mut Vec<u8>, _alloc: Global) -> Result<(), AllocError> {
        push_number(out, *self)
    }
}

/// A number in decimal.
impl ToJson for u64 {
    ghost use Rattle.std.specs.Prelude.{decimal};

    ghost json = { decimal };

    fn push_json(&self, out: &mut Vec<u8>, _alloc: Global) -> Result<(), AllocError> {
        push_number(out, *self)
    }
}

/// Appends a comma, unless nothing stands before.
pub fn push_comma(out: &mut Vec<u8>, is_later: bool) -> Result<(), AllocError>
    ensures { OnOk result (out.new.items ≡ out.old.items ++ comma_if is_later) }
{
    push_text(out, if is_later { "," } else { "" })
}

/// Appends the key of a later member: a comma, the key and its colon.
pub fn push_next_key(out: &mut Vec<u8>, key: &str) -> Result<(), AllocError>
    ensures { OnOk result (out.new.items ≡ out.old.items ++ (codes "," ++ key_text key.now)) }
{
    push_comma(out, true)?;
    push_key(out, key)
}

/// Appends a comma, and a member.
#[tactic(auto, unfolding(crate::specs::Jsons::member_text))]
pub fn push_member<T: ToJson>(
    out: &mut Vec<u8>,
    alloc: Global,
    key: &str,
    value: &T,
) -> Result<(), AllocError>
    ensures { OnOk result (out.new.items ≡ out.old.items ++ member_text key.now (T.json value.now)) }
{
    push_next_key(out, key)?;
    value.push_json(out, alloc)
}

/// Appends values with a comma before each.
fn push_later<T: ToJson>(out: &mut Vec<u8>, alloc: Global, values: &[T]) -> Result<(), AllocError>
    ensures { OnOk result (out.new.items ≡ out.old.items ++ behind_commas (map T.json values.now)) }
{
    for value in values {
        push_comma(out, true)?;
        value.push_json(out, alloc)?;
    }
    Ok(())
}

/// Appends values with a comma between two of them.
fn push_values<T: ToJson>(out: &mut Vec<u8>, alloc: Global, values: &[T]) -> Result<(), AllocError>
    ensures { OnOk result (out.new.items ≡ out.old.items ++ with_commas (map T.json values.now)) }
{
    let [first, later @ ..] = values else {
        return Ok(());
    };
    first.push_json(out, alloc)?;
    push_later(out, alloc, later)
}

/// Appends a list.
#[tactic(auto, unfolding(crate::specs::Jsons::list_text))]
pub fn push_list<T: ToJson>(
    out: &mut Vec<u8>,
    alloc: Global,
    values: &[T],
) -> Result<(), AllocError>
    ensures { OnOk result (out.new.items ≡ out.old.items ++ list_text (map T.json values.now)) }
{
    push_text(out, "[")?;
    push_values(out, alloc, values)?;
    push_text(out, "]")
}

/// Appends a comma, and a member where there is a value.
pub fn push_member_if<T: ToJson>(
    out: &mut Vec<u8>,
    alloc: Global,
    key: &str,
    value: &Option<T>,
) -> Result<(), AllocError>
    ensures { OnOk result (out.new.items ≡ out.old.items ++ member_if key.now (option_map T.json value.now)) }
{
    match value {
        Some(value) => push_member(out, alloc, key, value),
        None => Ok(()),
    }
}

/// Appends a comma, and a member whose value is a list.
#[tactic(auto, unfolding(crate::specs::Jsons::member_text))]
pub fn push_list_member<T: ToJson>(
    out: &mut Vec<u8>,
    alloc: Global,
    key: &str,
    values: &[T],
) -> Result<(), AllocError>
    ensures { OnOk result (out.new.items ≡ out.old.items ++ member_text key.now (list_text (map T.json values.now))) }
{
    push_next_key(out, key)?;
    push_list(out, alloc, values)
}

/// A value that stands in some lists, as their context says: the values that are wanted, the paths of numbered logs.
pub trait ListItem<C> {
    /// Whether it stands in the list, and its text there.
    ghost stands: { C → Self → Bool };

    ghost item: { C → Self → List ℕ };

    /// Whether it stands in the list.
    fn stands(&self, context: &C) -> bool
        ensures { result ≡ stands context.now self.now };

    /// Appends its text.
    fn push_item(&self, out: &mut Vec<u8>, alloc: Global, context: &C) -> Result<(), AllocError>
        ensures { OnOk result (out.new.items ≡ out.old.items ++ item context.now self.now) };
}

/// A borrowed value stands in a list as that value does.
impl<C, T: ListItem<C>> ListItem<C> for &T {
    ghost stands = { λ context value. T.stands context value.now };

    ghost item = { λ context value. T.item context value.now };

    fn stands(&self, context: &C) -> bool {
        T::stands(*self, context)
    }

    fn push_item(&self, out: &mut Vec<u8>, alloc: Global, context: &C) -> Result<(), AllocError> {
        T::push_item(*self, out, alloc, context)
    }
}

/// Appends a value where it stands in the list, behind a comma where one stands before.
fn push_if<C, T: ListItem<C>>(
    out: &mut Vec<u8>,
    alloc: Global,
    context: &C,
    is_later: bool,
    value: &T,
) -> Result<(), AllocError>
    ensures { OnOk result (out.new.items ≡ out.old.items ++ (if T.stands context.now value.now then comma_if is_later ++ T.item context.now value.now else [])) }
{
    if !value.stands(context) {
        return Ok(());
    }
    push_comma(out, is_later)?;
    value.push_item(out, alloc, context)
}

/// Appends the values that stand in the list, with a comma between two of them.
#[tactic(auto, unfolding(crate::proofs::Commas::left_in))]
fn push_each_in<C, T: ListItem<C>>(
    out: &mut Vec<u8>,
    alloc: Global,
    context: &C,
    values: &[T],
) -> Result<(), AllocError>
    ensures { OnOk result (out.new.items ≡ out.old.items ++ with_commas (map (T.item context.now) (filter (T.stands context.now) values.now))) }
{
    let mut rest = values;
    let mut is_later = false;
    while let [value, after @ ..] = rest {
        push_if(out, alloc, context, is_later, value)?;
        is_later = is_later || value.stands(context);
        rest = after;
    }
    Ok(())
}

/// Appends a list of the values that stand in it.
#[tactic(auto, unfolding(crate::specs::Jsons::list_text))]
pub fn push_list_in<C, T: ListItem<C>>(
    out: &mut Vec<u8>,
    alloc: Global,
    context: &C,
    values: &[T],
) -> Result<(), AllocError>
    ensures { OnOk result (out.new.items ≡ out.old.items ++ list_text (map (T.item context.now) (filter (T.stands context.now) values.now))) }
{
    push_text(out, "[")?;
    push_each_in(out, alloc, context, values)?;
    push_text(out, "]")
}
