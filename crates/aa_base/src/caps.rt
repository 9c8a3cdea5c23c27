//! Sets of capabilities.

ghost use Rattle.std.specs.Prelude.{⊤, ◌≡◌};
ghost use Rattle.aa_base.specs.Tables.{flags_from, capability_names};

use bitflags::{Flag, Flags, bitflag_items};

/// A set of the capabilities of capabilities(7): bit n stands for capability number n.
#[derive(Clone, Copy, PartialEq, Eq, Debug)]
pub struct Caps(pub u64);

bitflag_items! {
    impl Caps: u64 {
        const CHOWN = 1;
        const DAC_OVERRIDE = 2;
        const DAC_READ_SEARCH = 4;
        const FOWNER = 8;
        const FSETID = 16;
        const KILL = 32;
        const SETGID = 64;
        const SETUID = 128;
        const SETPCAP = 256;
        const LINUX_IMMUTABLE = 512;
        const NET_BIND_SERVICE = 1024;
        const NET_BROADCAST = 2048;
        const NET_ADMIN = 4096;
        const NET_RAW = 8192;
        const IPC_LOCK = 16384;
        const IPC_OWNER = 32768;
        const SYS_MODULE = 65536;
        const SYS_RAWIO = 131072;
        const SYS_CHROOT = 262144;
        const SYS_PTRACE = 524288;
        const SYS_PACCT = 1048576;
        const SYS_ADMIN = 2097152;
        const SYS_BOOT = 4194304;
        const SYS_NICE = 8388608;
        const SYS_RESOURCE = 16777216;
        const SYS_TIME = 33554432;
        const SYS_TTY_CONFIG = 67108864;
        const MKNOD = 134217728;
        const LEASE = 268435456;
        const AUDIT_WRITE = 536870912;
        const AUDIT_CONTROL = 1073741824;
        const SETFCAP = 2147483648;
        const MAC_OVERRIDE = 4294967296;
        const MAC_ADMIN = 8589934592;
        const SYSLOG = 17179869184;
        const WAKE_ALARM = 34359738368;
        const BLOCK_SUSPEND = 68719476736;
        const AUDIT_READ = 137438953472;
        const PERFMON = 274877906944;
        const BPF = 549755813888;
        const CHECKPOINT_RESTORE = 1099511627776;
    }
}

impl Flags for Caps {
    type Bits = u64;

    ghost exact = { ⊤ };

    ghost table = { flags_from 0 capability_names };

    ghost set_of = { λ p. p.0 };

    #[tactic(auto, unfolding(crate::specs::Tables::flags_from, crate::specs::Tables::capability_names))]
    fn flags<'a>() -> &'a [Flag<Caps>] {
        Caps::FLAGS
    }

    fn bits(&self) -> u64 {
        self.0
    }

    fn from_bits_retain(bits: u64) -> Caps {
        Caps(bits)
    }
}
