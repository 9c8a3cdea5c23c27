//! JSON values over borrowed text: each stands for what `serde_json` would read.

ghost use Rattle.std.specs.Prelude.{◌≡◌, ◌<◌, ◌==◌, true, false, length, slice_index, map, is_some, option_map, option_and_then, IfOk};
ghost use Rattle.json.specs.Value.{value_view, items_view, members_view};
ghost use Rattle.serde_json.specs.Find.{get_member, as_str, as_number, as_u64, as_array, as_object};
ghost use Rattle.serde_json.specs.Read.{converted, number_of, number_from, float_of, of_json};
ghost use Rattle.json.specs.Json.{value};
ghost use Rattle.aa_jobs.specs.declared.job_fault.JobFault.TheVariants.{NotJson};
ghost use Rattle.aa_jobs.specs.Shape.{data_list, entry_list};
ghost use Rattle.aa_jobs.specs.Steps.{Gives, needed};
ghost use Rattle.aa_jobs.specs.Trees.{in_range, items_in_range, members_in_range, tree_data, object_data, entry_data};

use crate::job_fault::JobFault;
use fast_float::Numeral;
use json::{Error, Reader, Value};
use std::alloc::{AllocError, Global};
use std::collections::BTreeMap;

/// A JSON value whose texts are borrowed.
pub type Tree<'t> = Value<'t>;

/// A member of an object, where it stands in the text.
pub type Member<'t> = (&'t str, Value<'t>);

fn has_minus(digits: &[u8]) -> bool
    ensures value { result ≡ (slice_index digits.now 0 == 45) }
    ensures some { result ≡ true → 0 < length digits.now }
{
    !digits.is_empty() && digits[0] == b'-'
}

fn is_float_in_range(negative: bool, numeral: &Numeral) -> bool
    ensures { result ≡ is_some (float_of negative numeral.now) }
{
    numeral.to_float::<f64>(negative).is_finite()
}

fn is_unsigned_in_range(numeral: &Numeral) -> bool
    ensures { result ≡ is_some (number_from false numeral.now) }
{
    numeral.to_u64().is_some() || is_float_in_range(false, numeral)
}

fn is_negative_in_range(numeral: &Numeral) -> bool
    ensures { result ≡ is_some (number_from true numeral.now) }
{
    match numeral.to_i64(true) {
        Some(n) if n < 0 => true,
        _ => is_float_in_range(true, numeral),
    }
}

/// Whether a number's text writes one that `serde_json` holds.
pub fn is_number_in_range(digits: &[u8]) -> bool
    ensures { result ≡ is_some (number_of digits.now) }
{
    if has_minus(digits) {
        is_negative_in_range(&Numeral::scan(&digits[1..]))
    } else {
        is_unsigned_in_range(&Numeral::scan(digits))
    }
}

fn unsigned_in(numeral: &Numeral) -> Option<u64>
    ensures { result ≡ option_and_then as_u64 (number_from false numeral.now) }
{
    numeral.to_u64()
}

/// The number of 64 bits without a sign that the text writes.
pub fn unsigned_of(digits: &[u8]) -> Option<u64>
    ensures { result ≡ option_and_then as_u64 (number_of digits.now) }
{
    if has_minus(digits) {
        None
    } else {
        unsigned_in(&Numeral::scan(digits))
    }
}

#[cycle(range)]
fn is_in_range(tree: &Tree) -> bool
    ensures { result ≡ in_range (value_view tree.now) }
{
    match tree {
        Value::Null | Value::Bool(_) | Value::String(_) => true,
        Value::Number(digits) => is_number_in_range(digits.as_bytes()),
        Value::Array(items) => are_items_in_range(items),
        Value::Object(members) => are_members_in_range(members),
    }
}

#[cycle(range)]
fn are_items_in_range(items: &Vec<Tree>) -> bool
    ensures { result ≡ items_in_range (items_view items.now.items) }
{
    for item in items {
        if !is_in_range(item) {
            return false;
        }
    }
    true
}

#[cycle(range)]
fn are_members_in_range(members: &Vec<Member>) -> bool
    ensures { result ≡ members_in_range (members_view members.now.items) }
{
    for member in members {
        if !is_in_range(&member.1) {
            return false;
        }
    }
    true
}

/// The next value of a reader. Arrays and objects may nest `depth` deep.
pub fn next<'t>(alloc: Global, reader: &mut Reader<'t>, depth: usize) -> Result<Tree<'t>, JobFault>
    ensures { Gives (λ t. (tree_data t, reader.new)) result (needed NotJson (converted of_json (value depth reader.old))) }
{
    let tree = match Value::read(alloc, reader, depth) {
        Ok(tree) => tree,
        Err(Error::OutOfMemory) => return Err(JobFault::NoMemory),
        Err(_) => return Err(JobFault::NotJson),
    };
    if is_in_range(&tree) {
        Ok(tree)
    } else {
        Err(JobFault::NotJson)
    }
}

/// The last value of that key among the members of an object.
pub fn member<'v, 't>(members: &'v [Member<'t>], key: &str) -> Option<&'v Tree<'t>>
    ensures { option_map (λ v. tree_data v.now) result ≡ get_member key.now (object_data members.entry.now) }
{
    let mut left = members.len();
    'back: while left > 0 {
        left -= 1;
        let member = &members[left];
        if member.0 == key {
            return Some(&member.1);
        }
    }
    None
}

/// The text, where it is one.
pub fn text<'t>(tree: &Tree<'t>) -> Option<&'t str>
    ensures { option_map (λ s. s.now) result ≡ as_str (tree_data tree.now) }
{
    tree.as_str()
}

/// The number, where it is one of 64 bits without a sign.
pub fn unsigned(tree: &Tree) -> Option<u64>
    ensures { result ≡ option_and_then as_u64 (as_number (tree_data tree.now)) }
{
    match tree.as_number() {
        Some(digits) => unsigned_of(digits.as_bytes()),
        None => None,
    }
}

/// The items, where it is a list.
pub fn items<'v, 't>(tree: &'v Tree<'t>) -> Option<&'v [Tree<'t>]>
    ensures { option_map (λ s. map tree_data s.now) result ≡ option_map data_list (as_array (tree_data tree.now)) }
{
    if let Value::Array(items) = tree {
        Some(items.as_slice())
    } else {
        None
    }
}

/// An object's members, as they come in the text.
pub fn members<'v, 't>(tree: &'v Tree<'t>) -> Option<&'v [Member<'t>]>
    ensures { option_map (λ ms. object_data ms.now) result ≡ as_object (tree_data tree.now) }
{
    if let Value::Object(members) = tree {
        Some(members.as_slice())
    } else {
        None
    }
}

/// The members by the byte order of their keys, each key once with its last value.
pub fn sorted<'v, 't>(
    alloc: Global,
    members: &'v [Member<'t>],
) -> Result<BTreeMap<&'t str, &'v Tree<'t>>, AllocError>
    ensures { IfOk result (λ m. map entry_data m.entries ≡ entry_list (object_data members.now)) }
{
    let mut sorted = BTreeMap::new(alloc);
    for member in members {
        sorted.insert(member.0, &member.1)?;
    }
    Ok(sorted)
}
