//! The parts of patterns.

ghost use Rattle.std.specs.Prelude.{◌≡◌, IfOk, slice_index_or, false};

use std::alloc::{AllocError, Global};
use std::marker::Model;

/// A set of bytes. Its flags stand apart, so that an item is small: nearly all items are bytes.
#[derive(Drop)]
pub struct ByteSet {
    flags: Vec<bool>,
}

impl Model for ByteSet {
    ghost use Rattle.std.specs.Prelude.{List, Bool};

    ghost Value = { List Bool };

    ghost view = { λ s. s.flags.items };
}

impl ByteSet {
    /// The set of the bytes whose flag is set: the first flag is that of byte 0.
    pub fn from_flags(alloc: Global, flags: &[bool]) -> Result<ByteSet, AllocError>
        ensures { IfOk result (λ s. s ≡ flags.now) }
    {
        Ok(ByteSet {
            flags: Vec::from_slice(alloc, flags)?,
        })
    }

    /// Whether the byte is in the set. It takes no memory.
    pub fn has(&self, byte: u8) -> bool
        ensures { result ≡ slice_index_or self.now byte false }
    {
        match self.flags.get(byte as usize) {
            Some(flag) => *flag,
            None => false,
        }
    }
}

/// One part of a pattern (apparmor.d(5), "Globbing"). No item matches a zero byte.
#[derive(Drop)]
pub enum Item {
    /// That byte.
    Byte(u8),
    /// One byte but `/`.
    One,
    /// Any number of bytes but `/`.
    Run,
    /// At least one byte, none of them `/`.
    RunOne,
    /// Any number of bytes.
    Deep,
    /// One byte but `/`, and then any number of bytes.
    DeepOne,
    /// One byte of the set.
    Class(ByteSet),
    /// What one of the sequences matches. A pattern that is read nests at most 16 of them, one that is made by hand any number:
    /// matching then takes as much of the machine's stack.
    Choice(Vec<Vec<Item>>),
}
