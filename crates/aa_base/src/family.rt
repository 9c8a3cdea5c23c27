//! Families of sockets by name.

ghost use Rattle.std.specs.Prelude.{◌≡◌, ◌<◌, ℕ, Some, length, map, slice_get};
ghost use Rattle.aa_base.specs.Tables.{number_in, family_names};

use crate::table::{name_at, number_in};
use std::marker::Model;

/// The names, each at its number.
fn names() -> &'static [&'static str]
    ensures entries { map (λ entry. entry.now) result.now ≡ family_names }
    ensures count { length result.now ≡ 44 }
{
    &[
        "unix",
        "inet",
        "ax25",
        "ipx",
        "appletalk",
        "netrom",
        "bridge",
        "atmpvc",
        "x25",
        "inet6",
        "rose",
        "netbeui",
        "security",
        "key",
        "netlink",
        "packet",
        "ash",
        "econet",
        "atmsvc",
        "rds",
        "sna",
        "irda",
        "pppox",
        "wanpipe",
        "llc",
        "ib",
        "mpls",
        "can",
        "tipc",
        "bluetooth",
        "iucv",
        "rxrpc",
        "isdn",
        "phonet",
        "ieee802154",
        "caif",
        "alg",
        "nfc",
        "vsock",
        "kcm",
        "qipcrtr",
        "smc",
        "xdp",
        "mctp",
    ]
}

/// A family of sockets (apparmor.d(5), "Network rules"), by its number in a table of our own.
#[derive(Clone, Copy, Debug, PartialEq, Eq)]
pub struct Family {
    number: u8,
}

impl Model for Family {
    ghost Value = { ℕ };

    ghost view = { λ f. f.number };

    ghost inverse = { λ n. record { number = n } };

    ghost invariant = { λ f. f.number < length family_names };
}

impl Family {
    /// The names of all families, each at its number.
    pub fn names() -> &'static [&'static str]
        ensures { map (λ entry. entry.now) result.now ≡ family_names }
    {
        names()
    }

    /// The family with that name, if there is one.
    pub fn from_name(name: &[u8]) -> Option<Family>
        ensures { result ≡ number_in family_names name.now }
    {
        let number = number_in(names(), name)?;
        Some(Family {
            number: number as u8,
        })
    }

    /// Its number, which is no kernel's: bit n of a set of families stands for number n.
    pub fn number(self) -> u8
        ensures number { result ≡ self }
        ensures in_table { result < length family_names }
    {
        self.number
    }

    /// Its name.
    pub fn name(self) -> &'static str
        ensures entry { slice_get family_names self ≡ Some result.now }
        ensures only { number_in family_names result.now ≡ Some self }
    {
        name_at(names(), self.number as usize)
    }
}
