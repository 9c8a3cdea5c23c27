//! One byte of a part that an item allows.

ghost use Rattle.std.specs.Prelude.{◌↔◌, IsTrue};
ghost use Rattle.aa_pattern.specs.Globs.{IsNonzeroByte, IsNameByte};
ghost use Rattle.aa_pattern.specs.Steps.{Begins, Continues, IsSkippable, IsOneByte};

use crate::item::Item;

fn is_nonzero(byte: u8) -> bool
    ensures { IsTrue result ↔ IsNonzeroByte byte }
{
    byte != 0
}

fn is_name(byte: u8) -> bool
    ensures { IsTrue result ↔ IsNameByte byte }
{
    byte != 0 && byte != b'/'
}

/// Whether a text that the item matches may begin with the byte. A choice is asked item by item: it gives false here.
pub fn begins(item: &Item, byte: u8) -> bool
    ensures { IsTrue result ↔ Begins item.now byte }
{
    match item {
        Item::Byte(own) => byte == *own && byte != 0,
        Item::One | Item::Run | Item::RunOne | Item::DeepOne => is_name(byte),
        Item::Deep => is_nonzero(byte),
        Item::Class(set) => byte != 0 && set.has(byte),
        Item::Choice(_) => false,
    }
}

/// Whether a text that the item matches may go on with the byte behind its first. A choice gives false.
pub fn continues(item: &Item, byte: u8) -> bool
    ensures { IsTrue result ↔ Continues item.now byte }
{
    match item {
        Item::Run | Item::RunOne => is_name(byte),
        Item::Deep | Item::DeepOne => is_nonzero(byte),
        _ => false,
    }
}

/// Whether the item matches the empty text. A choice gives false.
pub fn is_skippable(item: &Item) -> bool
    ensures { IsTrue result ↔ IsSkippable item.now }
{
    match item {
        Item::Run | Item::Deep => true,
        _ => false,
    }
}

/// Whether each text that the item matches has one byte. A choice gives false.
pub fn is_one_byte(item: &Item) -> bool
    ensures { IsTrue result ↔ IsOneByte item.now }
{
    match item {
        Item::Byte(_) | Item::One | Item::Class(_) => true,
        _ => false,
    }
}
