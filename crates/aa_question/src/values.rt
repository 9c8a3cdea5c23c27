//! What JSON values stand for in a question.

ghost use Rattle.std.specs.Prelude.{◌≡◌, map, option_map, IfOk, None, false, is_some, [], ◌∷◌, codes};
ghost use Rattle.std.specs.Option.{option_and_then};
ghost use Rattle.std.specs.List.{list_any};
ghost use Rattle.std.specs.Str.{bytes_eq};
ghost use Rattle.serde_json.specs.View.{view, members_view};
ghost use Rattle.serde_json.specs.Find.{get, as_object};
ghost use Rattle.aa_files.specs.Texts.{texts, slices};
ghost use Rattle.aa_question.specs.Memory.{row_of};
ghost use Rattle.aa_question.specs.Values.{is_among, unknown_in, only, hex_in, bytes_in, row_in, all_of, list_in, or_else, states_in, some_bytes, data_list};
ghost use Rattle.serde_json.specs.Find.{as_str, as_bool, as_array};

use aa_base::from_hex;
use serde_json::{Map, Value};
use std::alloc::{AllocError, Global};

/// The most states that may be allowed.
const MOST_STATES: u64 = 1_000_000;

/// A text, and the path at which it lies.
pub type Row = (Vec<u8>, Vec<u8>);

fn is_any(names: &[&str], name: &str) -> bool
    ensures { result ≡ list_any (λ n. bytes_eq name.now n.now) names.now }
{
    names.iter().any(|known| name == *known)
}

fn is_among(names: &[&str], name: &str) -> bool
    ensures { result ≡ is_among (slices names.now) name.now }
{
    is_any(names, name)
}

/// The first member that has none of these names.
pub fn unknown_in<'v>(members: &'v Map<String, Value>, names: &[&str]) -> Option<&'v str>
    ensures { option_map (λ k. k.now) result ≡ unknown_in (slices names.now) (members_view members.entry.now.entries) }
{
    for key in members.keys() {
        if !is_among(names, key.as_str()) {
            return Some(key.as_str());
        }
    }
    None
}

/// Whether a value is an object that has no other members than those of these names.
fn has_only(value: &Value, names: &[&str]) -> bool
    ensures { result ≡ is_some (only (slices names.now) (view value.now)) }
{
    match value.as_object() {
        Some(members) => unknown_in(members, names).is_none(),
        None => false,
    }
}

/// The text of a member, if it is one.
fn text_of<'v>(value: &'v Value, key: &str) -> Option<&'v str>
    ensures { option_map (λ t. t.now) result ≡ option_and_then as_str (get key.now (view value.entry.now)) }
{
    match value.get(key) {
        Some(member) => member.as_str(),
        None => None,
    }
}

/// The bytes of an object that has their hexadecimal digits alone.
fn hex_in(alloc: Global, value: &Value) -> Result<Option<Vec<u8>>, AllocError>
    ensures { IfOk result (λ bytes. option_map (λ b. b.items) bytes ≡ hex_in (view value.now)) }
{
    if !has_only(value, &["hex"]) {
        return Ok(None);
    }
    match text_of(value, "hex") {
        Some(digits) => from_hex(alloc, digits.as_bytes()),
        None => Ok(None),
    }
}

/// The bytes that a value stands for: a text's, or those of an object with their hexadecimal digits.
pub fn bytes_in(alloc: Global, value: &Value) -> Result<Option<Vec<u8>>, AllocError>
    ensures { IfOk result (λ bytes. option_map (λ b. b.items) bytes ≡ bytes_in (view value.now)) }
{
    match value.as_str() {
        Some(text) => Ok(Some(Vec::from_slice(alloc, text.as_bytes())?)),
        None => hex_in(alloc, value),
    }
}

/// The bytes of a member.
fn bytes_of(alloc: Global, value: &Value, key: &str) -> Result<Option<Vec<u8>>, AllocError>
    ensures { IfOk result (λ bytes. option_map (λ b. b.items) bytes ≡ option_and_then bytes_in (get key.now (view value.now))) }
{
    match value.get(key) {
        Some(member) => bytes_in(alloc, member),
        None => Ok(None),
    }
}

/// A text at a path, of the members of an object.
fn row_of(alloc: Global, value: &Value) -> Result<Option<Row>, AllocError>
    ensures { IfOk result (λ row. option_map row_of row ≡ option_and_then (λ name. option_map (λ text. (name, text)) (option_and_then bytes_in (get (codes "text") (view value.now)))) (option_and_then bytes_in (get (codes "name") (view value.now)))) }
{
    let Some(name) = bytes_of(alloc, value, "name")? else {
        return Ok(None);
    };
    match bytes_of(alloc, value, "text")? {
        Some(text) => Ok(Some((name, text))),
        None => Ok(None),
    }
}

/// A text at a path: an object that has its name and itself alone.
fn row_in(alloc: Global, value: &Value) -> Result<Option<Row>, AllocError>
    ensures { IfOk result (λ row. option_map row_of row ≡ row_in (view value.now)) }
{
    if has_only(value, &["name", "text"]) {
        row_of(alloc, value)
    } else {
        Ok(None)
    }
}

/// The values of a list.
fn items(value: &Value) -> Option<&[Value]>
    ensures { option_map (λ s. map view s.now) result ≡ option_map data_list (as_array (view value.entry.now)) }
{
    match value.as_array() {
        Some(values) => Some(values.as_slice()),
        None => None,
    }
}

/// The bytes of each value, if each stands for some.
fn all_bytes(alloc: Global, values: &[Value]) -> Result<Option<Vec<Vec<u8>>>, AllocError>
    ensures { IfOk result (λ all. option_map (λ v. texts v.items) all ≡ all_of bytes_in (map view values.now)) }
{
    let mut all = Vec::new(alloc);
    for value in values {
        match bytes_in(alloc, value)? {
            Some(bytes) => all.push(bytes)?,
            None => return Ok(None),
        }
    }
    Ok(Some(all))
}

/// The text at a path of each value, if each is one.
fn all_rows(alloc: Global, values: &[Value]) -> Result<Option<Vec<Row>>, AllocError>
    ensures { IfOk result (λ all. option_map (λ v. map row_of v.items) all ≡ all_of row_in (map view values.now)) }
{
    let mut all = Vec::new(alloc);
    for value in values {
        match row_in(alloc, value)? {
            Some(row) => all.push(row)?,
            None => return Ok(None),
        }
    }
    Ok(Some(all))
}

/// The list of a member whose values stand for bytes; nothing where the member isn't there.
pub fn bytes_list(
    alloc: Global,
    value: &Value,
    key: &str,
) -> Result<Option<Vec<Vec<u8>>>, AllocError>
    ensures { IfOk result (λ all. option_map (λ v. texts v.items) all ≡ or_else [] (list_in bytes_in) (get key.now (view value.now))) }
{
    let Some(member) = value.get(key) else {
        return Ok(Some(Vec::new(alloc)));
    };
    match items(member) {
        Some(values) => all_bytes(alloc, values),
        None => Ok(None),
    }
}

/// The list of a member whose values are texts at paths; nothing where the member isn't there.
pub fn rows_list(alloc: Global, value: &Value, key: &str) -> Result<Option<Vec<Row>>, AllocError>
    ensures { IfOk result (λ all. option_map (λ v. map row_of v.items) all ≡ or_else [] (list_in row_in) (get key.now (view value.now))) }
{
    let Some(member) = value.get(key) else {
        return Ok(Some(Vec::new(alloc)));
    };
    match items(member) {
        Some(values) => all_rows(alloc, values),
        None => Ok(None),
    }
}

/// The bytes of a member, or others where it isn't there.
pub fn bytes_or(
    alloc: Global,
    value: &Value,
    key: &str,
    default: &str,
) -> Result<Option<Vec<u8>>, AllocError>
    ensures { IfOk result (λ bytes. option_map (λ b. b.items) bytes ≡ or_else default.now bytes_in (get key.now (view value.now))) }
{
    match value.get(key) {
        Some(member) => bytes_in(alloc, member),
        None => Ok(Some(Vec::from_slice(alloc, default.as_bytes())?)),
    }
}

fn some_bytes(alloc: Global, value: &Value) -> Result<Option<Option<Vec<u8>>>, AllocError>
    ensures { IfOk result (λ bytes. option_map (λ b. option_map (λ v. v.items) b) bytes ≡ some_bytes (view value.now)) }
{
    match bytes_in(alloc, value)? {
        Some(bytes) => Ok(Some(Some(bytes))),
        None => Ok(None),
    }
}

/// The bytes of a member, if it is there.
pub fn bytes_if(
    alloc: Global,
    value: &Value,
    key: &str,
) -> Result<Option<Option<Vec<u8>>>, AllocError>
    ensures { IfOk result (λ bytes. option_map (λ b. option_map (λ v. v.items) b) bytes ≡ or_else None some_bytes (get key.now (view value.now))) }
{
    match value.get(key) {
        Some(member) => some_bytes(alloc, member),
        None => Ok(Some(None)),
    }
}

/// Whether a member is true; it isn't where it isn't there.
pub fn flag_of(value: &Value, key: &str) -> Option<bool>
    ensures { result ≡ or_else false as_bool (get key.now (view value.now)) }
{
    match value.get(key) {
        Some(member) => member.as_bool(),
        None => Some(false),
    }
}

fn states_in(value: &Value) -> Option<u32>
    ensures { result ≡ states_in (view value.now) }
{
    match value.as_u64() {
        Some(states) if 1 <= states && states <= MOST_STATES => Some(states as u32),
        _ => None,
    }
}

/// The number of states of a member, or that one where it isn't there.
pub fn states_of(value: &Value, key: &str, default: u32) -> Option<u32>
    ensures { result ≡ or_else default states_in (get key.now (view value.now)) }
{
    match value.get(key) {
        Some(member) => states_in(member),
        None => Some(default),
    }
}
