//! Capabilities by name.

ghost use Rattle.std.specs.Prelude.{◌≡◌, ◌<◌, ℕ, Some, length, map, slice_get};
ghost use Rattle.aa_base.specs.Tables.{number_in, capability_names};

use crate::table::{name_at, number_in};
use std::marker::Model;

/// The names, each at its number.
fn names() -> &'static [&'static str]
    ensures entries { map (λ entry. entry.now) result.now ≡ capability_names }
    ensures count { length result.now ≡ 41 }
{
    &[
        "chown",
        "dac_override",
        "dac_read_search",
        "fowner",
        "fsetid",
        "kill",
        "setgid",
        "setuid",
        "setpcap",
        "linux_immutable",
        "net_bind_service",
        "net_broadcast",
        "net_admin",
        "net_raw",
        "ipc_lock",
        "ipc_owner",
        "sys_module",
        "sys_rawio",
        "sys_chroot",
        "sys_ptrace",
        "sys_pacct",
        "sys_admin",
        "sys_boot",
        "sys_nice",
        "sys_resource",
        "sys_time",
        "sys_tty_config",
        "mknod",
        "lease",
        "audit_write",
        "audit_control",
        "setfcap",
        "mac_override",
        "mac_admin",
        "syslog",
        "wake_alarm",
        "block_suspend",
        "audit_read",
        "perfmon",
        "bpf",
        "checkpoint_restore",
    ]
}

/// A capability (capabilities(7); apparmor.d(5), "Capability rules"), by the number that Linux gives it.
#[derive(Clone, Copy, Debug, PartialEq, Eq)]
pub struct Cap {
    number: u8,
}

impl Model for Cap {
    ghost Value = { ℕ };

    ghost view = { λ c. c.number };

    ghost inverse = { λ n. record { number = n } };

    ghost invariant = { λ c. c.number < length capability_names };
}

impl Cap {
    /// The names of all capabilities, each at its number.
    pub fn names() -> &'static [&'static str]
        ensures { map (λ entry. entry.now) result.now ≡ capability_names }
    {
        names()
    }

    /// The capability with that name, if there is one.
    pub fn from_name(name: &[u8]) -> Option<Cap>
        ensures { result ≡ number_in capability_names name.now }
    {
        let number = number_in(names(), name)?;
        Some(Cap {
            number: number as u8,
        })
    }

    /// Its number: bit n of a set of capabilities stands for number n.
    pub fn number(self) -> u8
        ensures number { result ≡ self }
        ensures in_table { result < length capability_names }
    {
        self.number
    }

    /// Its name, without `CAP_`.
    pub fn name(self) -> &'static str
        ensures entry { slice_get capability_names self ≡ Some result.now }
        ensures only { number_in capability_names result.now ≡ Some self }
    {
        name_at(names(), self.number as usize)
    }
}
