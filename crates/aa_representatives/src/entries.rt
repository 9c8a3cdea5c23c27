//! Requests to use capabilities and to make sockets: there are finitely many.

ghost use Rattle.std.specs.Prelude.{◌≡◌, ◌<◌, ℕ, List, Some, OnOk, Contains, length, map};
ghost use Rattle.aa_base.specs.Tables.{number_in, capability_names, family_names, sock_type_names};
ghost use Rattle.aa_model.specs.declared.request.Request.{Request};
ghost use Rattle.aa_representatives.specs.Askable.{IsCap, IsNet};
ghost use Rattle.aa_representatives.specs.Representatives.{Adds};

use aa_base::{Cap, Family, SockType};
use aa_model::Request;
use std::alloc::AllocError;

fn names_of_caps() -> &'static [&'static str]
    ensures { map (λ entry. entry.now) result.now ≡ capability_names }
{
    &[
        "chown",
        "dac_override",
        "dac_read_search",
        "fowner",
        "fsetid",
        "kill",
        "setgid",
        "setuid",
        "setpcap",
        "linux_immutable",
        "net_bind_service",
        "net_broadcast",
        "net_admin",
        "net_raw",
        "ipc_lock",
        "ipc_owner",
        "sys_module",
        "sys_rawio",
        "sys_chroot",
        "sys_ptrace",
        "sys_pacct",
        "sys_admin",
        "sys_boot",
        "sys_nice",
        "sys_resource",
        "sys_time",
        "sys_tty_config",
        "mknod",
        "lease",
        "audit_write",
        "audit_control",
        "setfcap",
        "mac_override",
        "mac_admin",
        "syslog",
        "wake_alarm",
        "block_suspend",
        "audit_read",
        "perfmon",
        "bpf",
        "checkpoint_restore",
    ]
}

fn names_of_families() -> &'static [&'static str]
    ensures { map (λ entry. entry.now) result.now ≡ family_names }
{
    &[
        "unix",
        "inet",
        "ax25",
        "ipx",
        "appletalk",
        "netrom",
        "bridge",
        "atmpvc",
        "x25",
        "inet6",
        "rose",
        "netbeui",
        "security",
        "key",
        "netlink",
        "packet",
        "ash",
        "econet",
        "atmsvc",
        "rds",
        "sna",
        "irda",
        "pppox",
        "wanpipe",
        "llc",
        "ib",
        "mpls",
        "can",
        "tipc",
        "bluetooth",
        "iucv",
        "rxrpc",
        "isdn",
        "phonet",
        "ieee802154",
        "caif",
        "alg",
        "nfc",
        "vsock",
        "kcm",
        "qipcrtr",
        "smc",
        "xdp",
        "mctp",
    ]
}

fn names_of_types() -> &'static [&'static str]
    ensures { map (λ entry. entry.now) result.now ≡ sock_type_names }
{
    &["stream", "dgram", "seqpacket", "rdm", "raw", "packet"]
}

/// Adds the request to use the capability with that name, if there is one.
fn add_cap(requests: &mut Vec<Request>, name: &str) -> Result<(), AllocError>
    ensures adds { OnOk result (Adds IsCap requests.old.items requests.new.items) }
    ensures has { OnOk result ((n : ℕ) → number_in capability_names name.now ≡ Some n → Contains requests.new.items (Request.Cap n)) }
{
    if let Some(cap) = Cap::from_name(name.as_bytes()) {
        requests.push(Request::cap(cap))?;
    }
    Ok(())
}

/// Adds this request for each of the names.
fn add_caps_named(requests: &mut Vec<Request>, names: &[&str]) -> Result<(), AllocError>
    ensures adds { OnOk result (Adds IsCap requests.old.items requests.new.items) }
    ensures has { OnOk result ((name : List ℕ) (n : ℕ) → Contains (map (λ entry. entry.now) names.now) name → number_in capability_names name ≡ Some n → Contains requests.new.items (Request.Cap n)) }
{
    for name in names {
        add_cap(requests, name)?;
    }
    Ok(())
}

/// Adds the request to use each capability.
pub(crate) fn add_caps(requests: &mut Vec<Request>) -> Result<(), AllocError>
    ensures adds { OnOk result (Adds IsCap requests.old.items requests.new.items) }
    ensures has { OnOk result ((n : ℕ) → n < length capability_names → Contains requests.new.items (Request.Cap n)) }
{
    add_caps_named(requests, names_of_caps())
}

/// Adds the request to make a socket of the family and of the type with that name, if there is one.
fn add_net(requests: &mut Vec<Request>, family: Family, name: &str) -> Result<(), AllocError>
    requires { family < length family_names }
    ensures adds { OnOk result (Adds IsNet requests.old.items requests.new.items) }
    ensures has { OnOk result ((n : ℕ) → number_in sock_type_names name.now ≡ Some n → Contains requests.new.items (Request.Net family n)) }
{
    if let Some(kind) = SockType::from_name(name.as_bytes()) {
        requests.push(Request::net(family, kind))?;
    }
    Ok(())
}

/// Adds this request for each of the names of types.
fn add_nets_named(
    requests: &mut Vec<Request>,
    family: Family,
    names: &[&str],
) -> Result<(), AllocError>
    requires { family < length family_names }
    ensures adds { OnOk result (Adds IsNet requests.old.items requests.new.items) }
    ensures has { OnOk result ((name : List ℕ) (n : ℕ) → Contains (map (λ entry. entry.now) names.now) name → number_in sock_type_names name ≡ Some n → Contains requests.new.items (Request.Net family n)) }
{
    for name in names {
        add_net(requests, family, name)?;
    }
    Ok(())
}

/// Adds the request to make a socket of the family with that name, if there is one, and of each type.
fn add_nets_in(requests: &mut Vec<Request>, name: &str) -> Result<(), AllocError>
    ensures adds { OnOk result (Adds IsNet requests.old.items requests.new.items) }
    ensures has { OnOk result ((f s : ℕ) → number_in family_names name.now ≡ Some f → s < length sock_type_names → Contains requests.new.items (Request.Net f s)) }
{
    match Family::from_name(name.as_bytes()) {
        Some(family) => add_nets_named(requests, family, names_of_types()),
        None => Ok(()),
    }
}

/// Adds these requests for each of the names of families.
fn add_nets_in_named(requests: &mut Vec<Request>, names: &[&str]) -> Result<(), AllocError>
    ensures adds { OnOk result (Adds IsNet requests.old.items requests.new.items) }
    ensures has { OnOk result ((name : List ℕ) (f s : ℕ) → Contains (map (λ entry. entry.now) names.now) name → number_in family_names name ≡ Some f → s < length sock_type_names → Contains requests.new.items (Request.Net f s)) }
{
    for name in names {
        add_nets_in(requests, name)?;
    }
    Ok(())
}

/// Adds the request to make a socket of each family and each type.
pub(crate) fn add_nets(requests: &mut Vec<Request>) -> Result<(), AllocError>
    ensures adds { OnOk result (Adds IsNet requests.old.items requests.new.items) }
    ensures has { OnOk result ((f s : ℕ) → f < length family_names → s < length sock_type_names → Contains requests.new.items (Request.Net f s)) }
{
    add_nets_in_named(requests, names_of_families())
}
