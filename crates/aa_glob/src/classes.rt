//! Classes: the bytes between `[` and `]`.

ghost use Rattle.std.specs.Prelude.{◌≡◌, ◌≤◌, ◌<◌, length, Some, IfOk, [], ◌∷◌};
ghost use Rattle.std.specs.List.{list_any, list_all};
ghost use Rattle.aa_glob.specs.declared.sign.Token.TheVariants.{Single};
ghost use Rattle.aa_glob.specs.Signs.{stands_for};
ghost use Rattle.aa_glob.specs.Classes.{is_range, only, ranges, is_rising, holds, is_listed, class_len, class_of, flags_below};
ghost use Rattle.aa_glob.specs.Reading.{Finds, spelled_item};

use crate::sign::{Range, Sign};
use aa_base::PolicyKind;
use aa_pattern::{ByteSet, Item};
use std::alloc::{AllocError, Global};

/// Whether the sign is that byte, not kept by a backslash.
pub(crate) fn is_plain(sign: Sign, byte: u8) -> bool
    ensures { result ≡ stands_for byte sign }
{
    !sign.kept && sign.byte == byte
}

fn makes_range(first: Sign, dash: Sign, last: Sign) -> bool
    ensures { result ≡ is_range first dash last }
{
    is_plain(dash, b'-') && !is_plain(first, b'-') && !is_plain(last, b'-')
}

/// How many signs stand before the bracket that closes the class.
pub(crate) fn class_length(signs: &[Sign]) -> usize
    ensures length { result ≡ class_len signs.now }
    ensures within { result ≤ length signs.now }
{
    for (i, sign) in signs.iter().enumerate() {
        if is_plain(*sign, b']') {
            return i;
        }
    }
    signs.len()
}

fn ranges_of(alloc: Global, body: &[Sign]) -> Result<Vec<Range>, PolicyKind>
    ensures { Finds (λ v. v.items) result (Some (ranges body.now)) }
{
    let mut found: Vec<Range> = Vec::new(alloc);
    let mut at = 0;
    while at < body.len() {
        let sign = body[at];
        if 2 < body.len() - at && makes_range(sign, body[at + 1], body[at + 2]) {
            found.push(Range {
                first: sign.byte,
                last: body[at + 2].byte,
            })?;
            at += 3;
        } else {
            found.push(Range {
                first: sign.byte,
                last: sign.byte,
            })?;
            at += 1;
        }
    }
    Ok(found)
}

fn some_holds(ranges: &[Range], byte: u8) -> bool
    ensures { result ≡ list_any (holds byte) ranges.now }
{
    ranges
        .iter()
        .any(|range| range.first <= byte && byte <= range.last)
}

fn lists(negated: bool, ranges: &[Range], byte: u8) -> bool
    ensures { result ≡ is_listed negated ranges.now byte }
{
    if negated {
        !some_holds(ranges, byte)
    } else {
        some_holds(ranges, byte)
    }
}

fn flags_of(negated: bool, ranges: &[Range]) -> [bool; 256]
    ensures { result ≡ flags_below negated ranges.now 256 }
{
    let mut flags = [false; 256];
    for byte in 0..256usize {
        flags[byte] = lists(negated, ranges, byte as u8);
    }
    flags
}

fn set_of(alloc: Global, negated: bool, ranges: &[Range]) -> Result<ByteSet, AllocError>
    ensures { IfOk result (λ s. s ≡ flags_below negated ranges.now 256) }
{
    ByteSet::from_flags(alloc, &flags_of(negated, ranges))
}

fn all_rise(ranges: &[Range]) -> bool
    ensures { result ≡ list_all is_rising ranges.now }
{
    ranges.iter().all(|range| range.first <= range.last)
}

/// The class with these signs between its brackets.
#[tactic(auto, using(crate::proofs::ClassSteps::class_same, crate::proofs::ClassSteps::class_empty, crate::proofs::ClassSteps::class_falls, std::proofs::lemmas::Option::same_Some))]
pub(crate) fn class_with(alloc: Global, negated: bool, body: &[Sign]) -> Result<Item, PolicyKind>
    ensures finds { Finds (λ i. i) result (class_of negated body.now) }
    ensures single { IfOk result (λ i. spelled_item i ≡ Single i ∷ []) }
{
    let found = ranges_of(alloc, body)?;
    if 0 < body.len() && all_rise(found.as_slice()) {
        let set = set_of(alloc, negated, found.as_slice())?;
        Ok(Item::Class(set))
    } else {
        Err(PolicyKind::BadPattern)
    }
}
