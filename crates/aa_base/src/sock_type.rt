//! Types of sockets by name.

ghost use Rattle.std.specs.Prelude.{◌≡◌, ◌<◌, ℕ, Some, length, map, slice_get};
ghost use Rattle.aa_base.specs.Tables.{number_in, sock_type_names};

use crate::table::{name_at, number_in};
use std::marker::Model;

/// The names, each at its number.
fn names() -> &'static [&'static str]
    ensures entries { map (λ entry. entry.now) result.now ≡ sock_type_names }
    ensures count { length result.now ≡ 6 }
{
    &["stream", "dgram", "seqpacket", "rdm", "raw", "packet"]
}

/// A type of sockets (apparmor.d(5), "Network rules"), by its number in a table of our own.
#[derive(Clone, Copy, Debug, PartialEq, Eq)]
pub struct SockType {
    number: u8,
}

impl Model for SockType {
    ghost Value = { ℕ };

    ghost view = { λ t. t.number };

    ghost inverse = { λ n. record { number = n } };

    ghost invariant = { λ t. t.number < length sock_type_names };
}

impl SockType {
    /// The names of all types, each at its number.
    pub fn names() -> &'static [&'static str]
        ensures { map (λ entry. entry.now) result.now ≡ sock_type_names }
    {
        names()
    }

    /// The type with that name, if there is one.
    pub fn from_name(name: &[u8]) -> Option<SockType>
        ensures { result ≡ number_in sock_type_names name.now }
    {
        let number = number_in(names(), name)?;
        Some(SockType {
            number: number as u8,
        })
    }

    /// Its number, which is no kernel's: bit n of a set of types stands for number n.
    pub fn number(self) -> u8
        ensures number { result ≡ self }
        ensures in_table { result < length sock_type_names }
    {
        self.number
    }

    /// Its name.
    pub fn name(self) -> &'static str
        ensures entry { slice_get sock_type_names self ≡ Some result.now }
        ensures only { number_in sock_type_names result.now ≡ Some self }
    {
        name_at(names(), self.number as usize)
    }
}
