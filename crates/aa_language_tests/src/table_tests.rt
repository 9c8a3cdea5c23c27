//! The tables of names: numbers, bits, and names that stand in none. (Cases tell that each capability and each socket is asked for by its name.)

use crate::comparing::{equal, equal_in, holds_in};
use aa_base::{Cap, Caps, Family, SockType};
use bitflags::Flags;
use std::process::Abort;

const FAMILIES: &str = "unix inet ax25 ipx appletalk netrom bridge atmpvc x25 inet6 rose netbeui \
    security key netlink packet ash econet atmsvc rds sna irda pppox wanpipe llc ib mpls can tipc \
    bluetooth iucv rxrpc isdn phonet ieee802154 caif alg nfc vsock kcm qipcrtr smc xdp mctp";

const CAPABILITIES: &str = "chown dac_override dac_read_search fowner fsetid kill setgid setuid \
    setpcap linux_immutable net_bind_service net_broadcast net_admin net_raw ipc_lock ipc_owner \
    sys_module sys_rawio sys_chroot sys_ptrace sys_pacct sys_admin sys_boot sys_nice sys_resource \
    sys_time sys_tty_config mknod lease audit_write audit_control setfcap mac_override mac_admin \
    syslog wake_alarm block_suspend audit_read perfmon bpf checkpoint_restore";

/// The number and the name of what has that name, in each table.
type Entries = [Option<(usize, &'static str)>; 3];

fn entries_of(name: &[u8]) -> Entries {
    let cap = Cap::from_name(name).map(|it| (it.number() as usize, it.name()));
    let family = Family::from_name(name).map(|it| (it.number() as usize, it.name()));
    [
        cap,
        family,
        SockType::from_name(name).map(|it| (it.number() as usize, it.name())),
    ]
}

/// Each name has the number at which it stands, and that name, in that table.
fn are_numbered(rt: &(impl Abort + AllocGlobal), table: usize, names: &'static str, count: usize) {
    for (number, name) in names.split(' ').enumerate() {
        let found = entries_of(name.as_bytes()).get(table).copied().flatten();
        equal_in(rt, found, Some((number, name)), name);
    }
    equal(rt, names.split(' ').count(), count);
}

#[test]
fn every_name_stands_at_its_number(rt: HostRuntime) {
    are_numbered(&rt, 0, CAPABILITIES, 41);
    are_numbered(&rt, 1, FAMILIES, 44);
    are_numbered(&rt, 2, "stream dgram seqpacket rdm raw packet", 6);
}

#[test]
fn every_capability_stands_at_its_bit(rt: HostRuntime) {
    for (number, (flag, name)) in Caps::FLAGS.iter().zip(CAPABILITIES.split(' ')).enumerate() {
        let lower = flag
            .name()
            .to_ascii_lowercase(rt.alloc())
            .expect(&rt, "memory");
        equal(&rt, lower.as_str(), name);
        let found = Some(flag.value().bits());
        equal_in(&rt, found, 1u64.checked_shl(number as u32), name);
    }
    equal(&rt, Caps::FLAGS.len(), 41);
}

#[test]
fn other_names_have_no_entry(rt: HostRuntime) {
    const NAMES: &str =
        "¦ ¦\0¦CHOWN¦Kill¦cap_kill¦chow¦hown¦chownx¦chown ¦ chown¦chown\0¦ch\0wn¦inet4¦INET¦ine¦streams¦tcp";
    for name in NAMES.split('¦') {
        holds_in(&rt, entries_of(name.as_bytes()) == [None; 3], name);
    }
    for name in [b"\xff".as_slice(), b"chow\xee"] {
        holds_in(&rt, entries_of(name) == [None; 3], "no UTF-8");
    }
}

#[test]
fn one_name_stands_in_two_tables(rt: HostRuntime) {
    const NAMES: &str = "kill chown sys_admin inet unix mctp stream rdm raw packet";
    for name in NAMES.split(' ') {
        let count = entries_of(name.as_bytes()).iter().flatten().count();
        equal_in(&rt, count, if name == "packet" { 2 } else { 1 }, name);
    }
}
