//! Sets of permissions on files.

ghost use Rattle.std.specs.Prelude.{⊤, ◌≡◌, [], ◌∷◌, codes};

use bitflags::{Flag, Flags, bitflag_items};

/// What may be done with a file: the access permissions of apparmor.d(5), "Access Modes".
#[derive(Clone, Copy, PartialEq, Eq, Debug)]
pub struct Perms(pub u8);

bitflag_items! {
    impl Perms: u8 {
        const READ = 1;
        const WRITE = 2;
        const APPEND = 4;
        const LINK = 8;
        const LOCK = 16;
        const MMAP = 32;
        const EXEC = 64;
    }
}

impl Flags for Perms {
    type Bits = u8;

    ghost exact = { ⊤ };

    ghost table = { (codes "READ", 1) ∷ (codes "WRITE", 2) ∷ (codes "APPEND", 4) ∷ (codes "LINK", 8) ∷ (codes "LOCK", 16) ∷ (codes "MMAP", 32) ∷ (codes "EXEC", 64) ∷ [] };

    ghost set_of = { λ p. p.0 };

    fn flags<'a>() -> &'a [Flag<Perms>] {
        Perms::FLAGS
    }

    fn bits(&self) -> u8 {
        self.0
    }

    fn from_bits_retain(bits: u8) -> Perms {
        Perms(bits)
    }
}
