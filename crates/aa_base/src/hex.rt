//! Hexadecimal digits, written and read.

ghost use Rattle.std.specs.Prelude.{◌≡◌, ◌<◌, ◌++◌, flat_map, true, option_map, OnOk, IfOk};
ghost use Rattle.std.specs.List.{list_all};
ghost use Rattle.aa_base.specs.Hex.{digit_by, pair_by, hex_pair, small_pair, is_hex_digit, digit_of, bytes_of_hex, is_even, is_hex, digits_in};

use crate::sink::Sink;
use std::alloc::{AllocError, Global};

/// The byte of a digit, where the letters begin with this one.
fn digit(ten: u8, n: u8) -> u8
    requires letter { ten < 122 }
    requires small { n < 16 }
    ensures value { result ≡ digit_by ten n }
    ensures ascii { result < 128 }
{
    if n < 10 { b'0' + n } else { ten + (n - 10) }
}

fn push_digits<S: Sink>(out: &mut S, ten: u8, bytes: &[u8]) -> Result<(), AllocError>
    requires letter { ten < 122 }
    ensures { OnOk result (S.bytes out.new ≡ S.bytes out.old ++ flat_map (pair_by ten) bytes.now) }
{
    for b in bytes {
        out.push_ascii(digit(ten, *b / 16))?;
        out.push_ascii(digit(ten, *b % 16))?;
    }
    Ok(())
}

/// Appends bytes as upper-case digits.
pub fn push_hex<S: Sink>(out: &mut S, bytes: &[u8]) -> Result<(), AllocError>
    ensures { OnOk result (S.bytes out.new ≡ S.bytes out.old ++ flat_map hex_pair bytes.now) }
{
    push_digits(out, b'A', bytes)
}

/// Appends bytes as lower-case digits.
pub fn push_small_hex<S: Sink>(out: &mut S, bytes: &[u8]) -> Result<(), AllocError>
    ensures { OnOk result (S.bytes out.new ≡ S.bytes out.old ++ flat_map small_pair bytes.now) }
{
    push_digits(out, b'a', bytes)
}

fn is_hex_digit(b: u8) -> bool
    ensures { result ≡ is_hex_digit b }
{
    (b >= b'0' && b <= b'9') || (b >= b'A' && b <= b'F') || (b >= b'a' && b <= b'f')
}

fn is_even(text: &[u8]) -> bool
    ensures { result ≡ is_even text.now }
{
    let mut rest = text;
    while let [_, _, after @ ..] = rest {
        rest = after;
    }
    rest.is_empty()
}

fn has_hex_digits_alone(text: &[u8]) -> bool
    ensures { result ≡ list_all is_hex_digit text.now }
{
    text.iter().all(|b| is_hex_digit(*b))
}

fn is_hex(text: &[u8]) -> bool
    ensures { result ≡ is_hex text.now }
{
    is_even(text) && has_hex_digits_alone(text)
}

/// The value of a digit.
fn digit_of(b: u8) -> u8
    requires { is_hex_digit b ≡ true }
    ensures value { result ≡ digit_of b }
    ensures small { result < 16 }
{
    if b <= b'9' {
        b - b'0'
    } else if b <= b'F' {
        b - b'A' + 10
    } else {
        b - b'a' + 10
    }
}

fn bytes_of_hex(alloc: Global, text: &[u8]) -> Result<Vec<u8>, AllocError>
    requires { list_all is_hex_digit text.now ≡ true }
    ensures { IfOk result (λ bytes. bytes.items ≡ bytes_of_hex text.now) }
{
    let mut bytes = Vec::new(alloc);
    let mut rest = text;
    while let [a, b, after @ ..] = rest {
        bytes.push(16 * digit_of(*a) + digit_of(*b))?;
        rest = after;
    }
    Ok(bytes)
}

/// The bytes that a text is, where it has an even number of digits of either case and no other byte. Memory is taken only then.
pub fn from_hex(alloc: Global, text: &[u8]) -> Result<Option<Vec<u8>>, AllocError>
    ensures { IfOk result (λ bytes. option_map (λ b. b.items) bytes ≡ digits_in text.now) }
{
    if !is_hex(text) {
        return Ok(None);
    }
    Ok(Some(bytes_of_hex(alloc, text)?))
}
