//! What a requested mask asks for, and whose the object is.

ghost use Rattle.std.specs.Prelude.{◌≡◌, option_map};
ghost use Rattle.aa_logs.specs.Masks.{letter_bits, letters_bits, owned_by};

use aa_base::Perms;
use bitflags::Flags;

/// What one letter asks for: to create and to delete is to write.
fn letter(b: u8) -> Option<Perms>
    ensures { option_map (λ p. p.0) result ≡ letter_bits b }
{
    match b {
        b'r' => Some(Perms::READ),
        b'w' | b'c' | b'd' => Some(Perms::WRITE),
        b'a' => Some(Perms::APPEND),
        b'k' => Some(Perms::LOCK),
        b'm' => Some(Perms::MMAP),
        _ => None,
    }
}

/// What letters ask for beside these permissions; none where one of them is no letter of a mask.
pub(crate) fn letters_of(before: Perms, text: &[u8]) -> Option<Perms>
    ensures { option_map (λ p. p.0) result ≡ letters_bits (before.0) text.now }
{
    let mut perms = before;
    for b in text {
        let Some(bits) = letter(*b) else {
            return None;
        };
        perms.insert(bits);
    }
    Some(perms)
}

/// Whether the task's user owns the object, by the numbers of the user and of the owner, and by an old mask.
pub(crate) fn owned_by(user: Option<u64>, owner: Option<u64>, by_mask: Option<bool>) -> bool
    ensures { result ≡ owned_by user owner by_mask }
{
    match (user, owner) {
        (Some(user), Some(owner)) => user == owner,
        _ => by_mask.unwrap_or(false),
    }
}
