//! Bytes that no item of the patterns tells apart.

ghost use Rattle.std.specs.Prelude.{◌≡◌, ◌≢◌, ◌↔◌, ◌+◌, ◌<◌, ◌≤◌, ℕ, All, IsTrue, IfOk, length, slice_index, if◌then◌else◌, false};
ghost use Rattle.aa_auto.specs.Division.{GivesClass, Divides, IsKey, AreKeys, IsSameItem, IsDivision, Refines, RefinesBy, CanLeave, TakesOut, AreClasses, AreAlone, NotesAlone, IsWild};

use crate::nodes::Node;
use aa_pattern::{Item, begins, continues};
use std::alloc::{AllocError, Global};

/// Classes of bytes.
#[derive(Drop)]
pub(crate) struct Classes {
    /// The class of each byte.
    pub(crate) of: Vec<u8>,
    /// A byte of each class.
    pub(crate) bytes: Vec<u8>,
}

/// The class whose byte has the key, or how many classes there are.
fn find_class(keys: &[u32], bytes: &[u8], key: u32) -> usize
    requires { All (λ b. b < length keys.now) bytes.now }
    ensures within { result ≤ length bytes.now }
    ensures found { result < length bytes.now → slice_index keys.now (slice_index bytes.now result) ≡ key }
    ensures none { result ≡ length bytes.now → (k : ℕ) → k < length bytes.now → slice_index keys.now (slice_index bytes.now k) ≢ key }
{
    for (class, byte) in bytes.iter().enumerate() {
        if keys[*byte as usize] == key {
            return class;
        }
    }
    bytes.len()
}

/// The class of a byte, which is a new one where no byte so far has its key.
fn class_for(keys: &[u32], bytes: &mut Vec<u8>, byte: u8) -> Result<u8, AllocError>
    requires byte { byte < length keys.now }
    requires bytes { All (λ b. b < length keys.now) bytes.old.items }
    requires few { length bytes.old.items ≤ byte }
    ensures { IfOk result (λ class. GivesClass keys.now bytes.old.items bytes.new.items byte class) }
{
    let class = find_class(keys, bytes.as_slice(), keys[byte as usize]);
    if class < bytes.len() {
        return Ok(class as u8);
    }
    bytes.push(byte)?;
    Ok(class as u8)
}

/// Bytes are of one class where they have one key.
pub(crate) fn divide(alloc: Global, keys: &[u32]) -> Result<Classes, AllocError>
    requires { length keys.now ≡ 256 }
    ensures { IfOk result (λ c. Divides keys.now 256 c.of.items c.bytes.items) }
{
    let mut of = Vec::with_capacity(alloc, 256)?;
    let mut bytes = Vec::new(alloc);
    for byte in 0..256u16 {
        let class = class_for(keys, &mut bytes, byte as u8)?;
        of.push(class)?;
    }
    Ok(Classes { of, bytes })
}

/// 256 equal keys.
fn equal_keys(alloc: Global) -> Result<Vec<u32>, AllocError>
    ensures many { IfOk result (λ keys. length keys.items ≡ 256) }
    ensures equal { IfOk result (λ keys. All (λ k. k ≡ 0) keys.items) }
{
    let mut keys = Vec::with_capacity(alloc, 256)?;
    for _byte in 0..256u16 {
        keys.push(0)?;
    }
    Ok(keys)
}

fn digit(flag: bool) -> u32
    ensures { result ≡ (if flag then 1 else 0) }
{
    if flag { 1 } else { 0 }
}

/// What tells the byte from those of other classes, and from those that the item tells it from.
// An item tells bytes apart by the two questions of a step: may a part begin with the byte, may it go on with it. For each item
// but the `**` whose part may not begin with `/` the two have one answer or the second is no.
fn key_of(of: &[u8], item: &Item, byte: u8) -> u32
    requires { length of.now ≡ 256 }
    ensures { IsKey of.now item.now byte result }
{
    let begins = digit(begins(item, byte));
    let continues = digit(continues(item, byte));
    4 * of[byte as usize] as u32 + 2 * begins + continues
}

fn keys_of(alloc: Global, of: &[u8], item: &Item) -> Result<Vec<u32>, AllocError>
    requires { length of.now ≡ 256 }
    ensures { IfOk result (λ keys. AreKeys of.now item.now keys.items 256) }
{
    let mut keys = Vec::with_capacity(alloc, 256)?;
    for byte in 0..256u16 {
        keys.push(key_of(of, item, byte as u8))?;
    }
    Ok(keys)
}

/// The classes, each divided by what the item tells apart.
fn refine(alloc: Global, of: &[u8], item: &Item) -> Result<Classes, AllocError>
    requires { length of.now ≡ 256 }
    ensures { IfOk result (λ new. Refines of.now new.of.items new.bytes.items item.now) }
{
    let keys = keys_of(alloc, of, item)?;
    divide(alloc, keys.as_slice())
}

/// No flag for any byte.
fn no_flags(alloc: Global) -> Result<Vec<bool>, AllocError>
    ensures many { IfOk result (λ flags. length flags.items ≡ 256) }
    ensures none { IfOk result (λ flags. All (λ f. f ≡ false) flags.items) }
{
    let mut flags = Vec::with_capacity(alloc, 256)?;
    for _byte in 0..256u16 {
        flags.push(false)?;
    }
    Ok(flags)
}

/// Whether the item is a star or a question mark: it tells 0 and `/` from the other bytes, and none of those apart.
fn is_wild(item: &Item) -> bool
    ensures { IsTrue result → IsWild item.now }
{
    match item {
        Item::One | Item::Run | Item::RunOne | Item::Deep | Item::DeepOne => true,
        _ => false,
    }
}

/// Notes the byte that the item before the position takes alone, if there is one, or 0 where the item tells that from all but `/`,
/// which is noted.
fn note_alone(alone: &mut Vec<bool>, node: &Node)
    requires { length alone.old.items ≡ 256 }
    ensures { NotesAlone node.now alone.old.items alone.new.items }
{
    let Node::After(item) = node else {
        return;
    };
    if let Item::Byte(own) = item {
        if *own != 0 {
            alone[*own as usize] = true;
        }
        return;
    }
    if is_wild(item) && alone[b'/' as usize] {
        alone[0] = true;
    }
}

/// Whether the item accepts both bytes or neither.
fn agrees(item: &Item, a: u8, b: u8) -> bool
    ensures { IsTrue result ↔ IsSameItem item.now a b }
{
    begins(item, a) == begins(item, b) && continues(item, a) == continues(item, b)
}

/// Whether the item accepts each byte as it does that of its class.
fn agrees_on_all(of: &[u8], bytes: &[u8], item: &Item) -> bool
    requires { IsDivision of.now bytes.now }
    ensures { IsTrue result → (b : ℕ) → b < 256 → IsSameItem item.now b (slice_index bytes.now (slice_index of.now b)) }
{
    for byte in 0..256u16 {
        let class = of[byte as usize];
        if !agrees(item, byte as u8, bytes[class as usize]) {
            return false;
        }
    }
    true
}

/// Whether the item tells no bytes of one class apart, where the flags say which bytes are alone in theirs.
fn is_refined(of: &[u8], bytes: &[u8], alone: &[bool], item: &Item) -> bool
    requires division { IsDivision of.now bytes.now }
    requires many { length alone.now ≡ 256 }
    requires alone { AreAlone of.now alone.now }
    ensures { IsTrue result → (a b : ℕ) → a < 256 → b < 256 → slice_index of.now a ≡ slice_index of.now b → IsSameItem item.now a b }
{
    if let Item::Byte(byte) = item {
        if alone[*byte as usize] {
            return true;
        }
    }
    if is_wild(item) && alone[0] && alone[b'/' as usize] {
        return true;
    }
    agrees_on_all(of, bytes, item)
}

/// Whether the byte can leave its class, which has another one for its byte.
fn can_leave(of: &[u8], bytes: &[u8], byte: u8) -> bool
    requires { IsDivision of.now bytes.now }
    ensures { IsTrue result → CanLeave of.now bytes.now byte }
{
    byte != 0 && bytes.len() < 256 && bytes[of[byte as usize] as usize] != byte
}

/// The classes, where the byte has one of its own.
fn take_out(classes: Classes, byte: u8) -> Result<Classes, AllocError>
    requires division { IsDivision classes.of.items classes.bytes.items }
    requires leaves { CanLeave classes.of.items classes.bytes.items byte }
    ensures { IfOk result (λ new. TakesOut classes.of.items new.of.items new.bytes.items byte) }
{
    let Classes { mut of, mut bytes } = classes;
    of[byte as usize] = bytes.len() as u8;
    bytes.push(byte)?;
    Ok(Classes { of, bytes })
}

/// The classes, each divided by what the item before the position tells apart.
// Most items are one byte each, so that is taken out by itself: all bytes are looked at for sets, and once for stars.
fn refined(
    alloc: Global,
    classes: Classes,
    alone: &[bool],
    node: &Node,
) -> Result<Classes, AllocError>
    requires division { IsDivision classes.of.items classes.bytes.items }
    requires many { length alone.now ≡ 256 }
    requires alone { AreAlone classes.of.items alone.now }
    ensures { IfOk result (λ new. RefinesBy classes.of.items new.of.items new.bytes.items node.now) }
{
    let Node::After(item) = node else {
        return Ok(classes);
    };
    if let Item::Byte(byte) = item {
        if can_leave(classes.of.as_slice(), classes.bytes.as_slice(), *byte) {
            return take_out(classes, *byte);
        }
    }
    if is_refined(classes.of.as_slice(), classes.bytes.as_slice(), alone, item) {
        return Ok(classes);
    }
    refine(alloc, classes.of.as_slice(), item)
}

/// The numbers of classes, as keys.
fn as_keys(alloc: Global, of: &[u8]) -> Result<Vec<u32>, AllocError>
    ensures { IfOk result (λ keys. keys.items ≡ of.now) }
{
    let mut keys = Vec::with_capacity(alloc, of.len())?;
    for class in of {
        keys.push(*class as u32)?;
    }
    Ok(keys)
}

/// The same classes, numbered by their lowest bytes.
// So states are found in an order that doesn't depend on the order of the patterns' items.
fn in_order(alloc: Global, of: &[u8]) -> Result<Classes, AllocError>
    requires { length of.now ≡ 256 }
    ensures { IfOk result (λ c. Divides of.now 256 c.of.items c.bytes.items) }
{
    let keys = as_keys(alloc, of)?;
    divide(alloc, keys.as_slice())
}

/// The classes of the bytes that no item of the nodes tells apart.
pub(crate) fn classes_of(alloc: Global, nodes: &[Node]) -> Result<Classes, AllocError>
    ensures { IfOk result (λ c. AreClasses nodes.now c.of.items c.bytes.items) }
{
    let keys = equal_keys(alloc)?;
    let mut classes = divide(alloc, keys.as_slice())?;
    let mut alone = no_flags(alloc)?;
    for node in nodes {
        classes = refined(alloc, classes, alone.as_slice(), node)?;
        note_alone(&mut alone, node);
    }
    in_order(alloc, classes.of.as_slice())
}
