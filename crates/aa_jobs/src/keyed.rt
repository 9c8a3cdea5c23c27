//! An item of a task: its members are kept by their keys, which are looked up once, and values of other kinds than an item asks for alike.

ghost use Rattle.std.specs.Prelude.{◌≡◌, ◌∷◌, [], true, map, option_map, IfOk, IfSome, Ok, Some};
ghost use Rattle.std.specs.List.{list_all, list_any};
ghost use Rattle.std.specs.Str.{bytes_eq};
ghost use Rattle.serde_json.specs.Data.{Data, Members, object, put};
ghost use Rattle.serde_json.specs.Find.{as_bool, get, get_member};
ghost use Rattle.aa_jobs.specs.declared.job_fault.JobFault.TheVariants.{BadShape};
ghost use Rattle.aa_jobs.specs.Steps.{Gives, needed, only_if};
ghost use Rattle.aa_jobs.specs.Shape.{keys_of, is_key, has_only, text_in, number_in, text_at, number_at, flag_from, has, file_shape, link_shape, exec_shape, cap_shape, net_shape, change_shape, reload_shape, request_shape, word_shape};
ghost use Rattle.aa_jobs.specs.Items.{key_name, key_of, value_data, item_object, is_of_item, look, Looked};
ghost use Rattle.aa_jobs.specs.Raw.{raw_item};

use crate::job_fault::JobFault;
use crate::raw::RawItem;
use crate::shape::Part;
use crate::tree;
use std::alloc::AllocError;

/// A key of an item.
#[derive(Clone, Copy, PartialEq, Eq)]
pub enum ItemKey {
    File,
    Mask,
    Owned,
    Exec,
    Link,
    To,
    Cap,
    Net,
    Type,
    Change,
    Reload,
}

/// What stands behind a key of an item. A number is in range.
#[derive(Clone, Copy)]
pub enum ItemValue<'t> {
    Text(&'t str),
    Flag(bool),
    Number(&'t str),
    /// Null, an array or an object.
    Other,
}

/// A member of an item.
pub type ItemMember<'t> = (ItemKey, ItemValue<'t>);

/// The keys of a file's item, which most items are.
fn plain_key(name: &[u8]) -> Option<ItemKey>
    ensures { IfSome result (λ key. key_of name.now ≡ Some key) }
{
    match name {
        [b'f', b'i', b'l', b'e'] => Some(ItemKey::File),
        [b'm', b'a', b's', b'k'] => Some(ItemKey::Mask),
        _ => None,
    }
}

/// The key of that name.
fn key_named(name: &str) -> Option<ItemKey>
    ensures { result ≡ key_of name.now }
{
    if let Some(key) = plain_key(name.as_bytes()) {
        return Some(key);
    }
    if name == "file" {
        Some(ItemKey::File)
    } else if name == "mask" {
        Some(ItemKey::Mask)
    } else if name == "owned" {
        Some(ItemKey::Owned)
    } else if name == "exec" {
        Some(ItemKey::Exec)
    } else if name == "link" {
        Some(ItemKey::Link)
    } else if name == "to" {
        Some(ItemKey::To)
    } else if name == "cap" {
        Some(ItemKey::Cap)
    } else if name == "net" {
        Some(ItemKey::Net)
    } else if name == "type" {
        Some(ItemKey::Type)
    } else if name == "change" {
        Some(ItemKey::Change)
    } else if name == "reload" {
        Some(ItemKey::Reload)
    } else {
        None
    }
}

/// Keeps one more member, and says whether all keys so far are those of items.
pub fn keep<'t>(
    members: &mut Vec<ItemMember<'t>>,
    known: bool,
    name: &str,
    value: ItemValue<'t>,
) -> Result<bool, AllocError>
    ensures { (ms : Members) (d : Data) → Looked known (item_object members.old.items) ms → look d ≡ look (value_data value.entry) → IfOk result (λ k. Looked k (item_object members.new.items) (put name.now d ms)) }
{
    match key_named(name) {
        Some(key) => {
            members.push((key, value))?;
            Ok(known)
        }
        None => Ok(false),
    }
}

/// The last value of that key.
fn member<'t>(members: &[ItemMember<'t>], key: ItemKey) -> Option<ItemValue<'t>>
    ensures { option_map value_data result ≡ get_member (key_name key) (item_object members.now) }
{
    let mut left = members.len();
    'back: while left > 0 {
        left -= 1;
        let found = &members[left];
        if is_same(found.0, key) {
            return Some(found.1);
        }
    }
    None
}

/// The keys that such an item may have.
fn keys_of(part: Part) -> &'static [ItemKey]
    requires { is_of_item part ≡ true }
    ensures { map key_name result.now ≡ keys_of part }
{
    match part {
        Part::Whole => &[],
        Part::OfTask => &[],
        Part::OfFile => &[ItemKey::File, ItemKey::Mask, ItemKey::Owned],
        Part::OfLink => &[ItemKey::Link, ItemKey::To, ItemKey::Owned],
        Part::OfExec => &[ItemKey::Exec, ItemKey::Owned],
        Part::OfCap => &[ItemKey::Cap],
        Part::OfNet => &[ItemKey::Net, ItemKey::Type],
        Part::OfChange => &[ItemKey::Change],
        Part::OfReload => &[ItemKey::Reload],
    }
}

fn is_same(one: ItemKey, other: ItemKey) -> bool
    ensures { result ≡ bytes_eq (key_name one) (key_name other) }
{
    one == other
}

fn is_among(keys: &[ItemKey], key: ItemKey) -> bool
    ensures { result ≡ list_any (λ k. bytes_eq (key_name key) (key_name k)) keys.now }
{
    keys.iter().any(|known| is_same(key, *known))
}

fn is_known(part: Part, key: ItemKey) -> bool
    requires { is_of_item part ≡ true }
    ensures { result ≡ is_key part (key_name key) }
{
    is_among(keys_of(part), key)
}

fn only_known(part: Part, members: &[ItemMember]) -> bool
    requires { is_of_item part ≡ true }
    ensures { result ≡ list_all (λ m. is_key part (key_name m.0)) members.now }
{
    members.iter().all(|member| is_known(part, member.0))
}

fn members_fit(part: Part, members: &[ItemMember]) -> bool
    requires { is_of_item part ≡ true }
    ensures { result ≡ has_only part (item_object members.now) }
{
    only_known(part, members)
}

/// The keys of an item are all of its kind.
fn expect(part: Part, members: &[ItemMember]) -> Result<(), JobFault>
    requires { is_of_item part ≡ true }
    ensures { Gives (λ u. u) result (only_if (has_only part (item_object members.now)) BadShape) }
{
    if members_fit(part, members) {
        Ok(())
    } else {
        Err(JobFault::BadShape)
    }
}

fn text<'t>(value: ItemValue<'t>) -> Result<&'t str, JobFault>
    ensures { Gives (λ s. s.now) result (text_in (value_data value.entry)) }
{
    match value {
        ItemValue::Text(text) => Ok(text),
        ItemValue::Flag(_) => Err(JobFault::BadShape),
        ItemValue::Number(_) => Err(JobFault::BadShape),
        ItemValue::Other => Err(JobFault::BadShape),
    }
}

fn number(value: ItemValue) -> Result<u64, JobFault>
    ensures { Gives (λ n. n) result (number_in (value_data value.entry)) }
{
    match value {
        ItemValue::Number(digits) => tree::unsigned_of(digits.as_bytes()).ok_or(JobFault::BadShape),
        ItemValue::Text(_) => Err(JobFault::BadShape),
        ItemValue::Flag(_) => Err(JobFault::BadShape),
        ItemValue::Other => Err(JobFault::BadShape),
    }
}

fn flag(value: ItemValue) -> Result<bool, JobFault>
    ensures { Gives (λ b. b) result (needed BadShape (as_bool (value_data value.entry))) }
{
    match value {
        ItemValue::Flag(flag) => Ok(flag),
        ItemValue::Text(_) => Err(JobFault::BadShape),
        ItemValue::Number(_) => Err(JobFault::BadShape),
        ItemValue::Other => Err(JobFault::BadShape),
    }
}

fn text_of<'t>(members: &[ItemMember<'t>], key: ItemKey) -> Result<&'t str, JobFault>
    ensures { Gives (λ s. s.now) result (text_at (key_name key) (object (item_object members.now))) }
{
    match member(members, key) {
        Some(value) => text(value),
        None => Err(JobFault::BadShape),
    }
}

fn flag_of(members: &[ItemMember], key: ItemKey) -> Result<bool, JobFault>
    ensures { Gives (λ b. b) result (flag_from (get (key_name key) (object (item_object members.now)))) }
{
    match member(members, key) {
        None => Ok(false),
        Some(value) => flag(value),
    }
}

fn number_of(members: &[ItemMember], key: ItemKey) -> Result<u64, JobFault>
    ensures { Gives (λ n. n) result (number_at (key_name key) (object (item_object members.now))) }
{
    match member(members, key) {
        Some(value) => number(value),
        None => Err(JobFault::BadShape),
    }
}

fn has_key(members: &[ItemMember], key: ItemKey) -> bool
    ensures { result ≡ has (key_name key) (object (item_object members.now)) }
{
    member(members, key).is_some()
}

#[tactic(auto, unfolding(crate::specs::Shape::file_shape))]
fn file_item<'t>(members: &[ItemMember<'t>]) -> Result<RawItem<'t>, JobFault>
    ensures { Gives raw_item result (file_shape (object (item_object members.now))) }
{
    expect(Part::OfFile, members)?;
    let path = text_of(members, ItemKey::File)?;
    let letters = text_of(members, ItemKey::Mask)?;
    let owned = flag_of(members, ItemKey::Owned)?;
    Ok(RawItem::File {
        owned,
        path,
        letters,
    })
}

#[tactic(auto, unfolding(crate::specs::Shape::link_shape))]
fn link_item<'t>(members: &[ItemMember<'t>]) -> Result<RawItem<'t>, JobFault>
    ensures { Gives raw_item result (link_shape (object (item_object members.now))) }
{
    expect(Part::OfLink, members)?;
    let path = text_of(members, ItemKey::Link)?;
    let target = text_of(members, ItemKey::To)?;
    let owned = flag_of(members, ItemKey::Owned)?;
    Ok(RawItem::Link {
        owned,
        path,
        target,
    })
}

#[tactic(auto, unfolding(crate::specs::Shape::exec_shape))]
fn exec_item<'t>(members: &[ItemMember<'t>]) -> Result<RawItem<'t>, JobFault>
    ensures { Gives raw_item result (exec_shape (object (item_object members.now))) }
{
    expect(Part::OfExec, members)?;
    let path = text_of(members, ItemKey::Exec)?;
    let owned = flag_of(members, ItemKey::Owned)?;
    Ok(RawItem::Exec { owned, path })
}

#[tactic(auto, unfolding(crate::specs::Shape::cap_shape))]
fn cap_item<'t>(members: &[ItemMember<'t>]) -> Result<RawItem<'t>, JobFault>
    ensures { Gives raw_item result (cap_shape (object (item_object members.now))) }
{
    expect(Part::OfCap, members)?;
    let name = text_of(members, ItemKey::Cap)?;
    Ok(RawItem::Cap { name })
}

#[tactic(auto, unfolding(crate::specs::Shape::net_shape))]
fn net_item<'t>(members: &[ItemMember<'t>]) -> Result<RawItem<'t>, JobFault>
    ensures { Gives raw_item result (net_shape (object (item_object members.now))) }
{
    expect(Part::OfNet, members)?;
    let family = text_of(members, ItemKey::Net)?;
    let kind = text_of(members, ItemKey::Type)?;
    Ok(RawItem::Net { family, kind })
}

#[tactic(auto, unfolding(crate::specs::Shape::change_shape))]
fn change_item<'t>(members: &[ItemMember<'t>]) -> Result<RawItem<'t>, JobFault>
    ensures { Gives raw_item result (change_shape (object (item_object members.now))) }
{
    expect(Part::OfChange, members)?;
    let name = text_of(members, ItemKey::Change)?;
    Ok(RawItem::Change { name })
}

#[tactic(auto, unfolding(crate::specs::Shape::reload_shape))]
fn reload_item<'t>(members: &[ItemMember<'t>]) -> Result<RawItem<'t>, JobFault>
    ensures { Gives raw_item result (reload_shape (object (item_object members.now))) }
{
    expect(Part::OfReload, members)?;
    let policy = number_of(members, ItemKey::Reload)?;
    Ok(RawItem::Reload { policy })
}

/// The item of a file's path and then its letters.
fn path_and_letters<'t>(
    one: ItemKey,
    path: ItemValue<'t>,
    other: ItemKey,
    letters: ItemValue<'t>,
) -> Option<RawItem<'t>>
    ensures { IfSome result (λ item. request_shape (object (item_object ((one, path.entry) ∷ (other, letters.entry) ∷ []))) ≡ Ok (raw_item item)) }
{
    match (one, path, other, letters) {
        (ItemKey::File, ItemValue::Text(path), ItemKey::Mask, ItemValue::Text(letters)) => {
            Some(RawItem::File {
                owned: false,
                path,
                letters,
            })
        }
        _ => None,
    }
}

/// The item of just these two members, as most items stand.
fn plain_item<'t>(members: &[ItemMember<'t>]) -> Option<RawItem<'t>>
    ensures { IfSome result (λ item. request_shape (object (item_object members.now)) ≡ Ok (raw_item item)) }
{
    if members.len() != 2 {
        return None;
    }
    let first = &members[0];
    let second = &members[1];
    path_and_letters(first.0, first.1, second.0, second.1)
}

/// The item that an object of these members is, by the key that tells its kind.
#[tactic(auto, unfolding(crate::specs::Shape::request_shape))]
pub fn request_item<'t>(members: &[ItemMember<'t>]) -> Result<RawItem<'t>, JobFault>
    ensures { Gives raw_item result (request_shape (object (item_object members.now))) }
{
    if let Some(item) = plain_item(members) {
        Ok(item)
    } else if has_key(members, ItemKey::File) {
        file_item(members)
    } else if has_key(members, ItemKey::Link) {
        link_item(members)
    } else if has_key(members, ItemKey::Exec) {
        exec_item(members)
    } else if has_key(members, ItemKey::Cap) {
        cap_item(members)
    } else if has_key(members, ItemKey::Net) {
        net_item(members)
    } else if has_key(members, ItemKey::Change) {
        change_item(members)
    } else if has_key(members, ItemKey::Reload) {
        reload_item(members)
    } else {
        Err(JobFault::BadShape)
    }
}

/// The item that is a text.
pub fn word_item<'t>(word: &str) -> Result<RawItem<'t>, JobFault>
    ensures { Gives raw_item result (word_shape word.now) }
{
    if word == "exit" {
        Ok(RawItem::Exit)
    } else {
        Err(JobFault::BadShape)
    }
}
