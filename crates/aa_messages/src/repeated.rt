//! Messages that come several times, and are written once.

ghost use Rattle.std.specs.Prelude.{◌≡◌, ◌-◌, ◌+◌, ◌*◌, ◌≤◌, min, length, take, drop, option_map};
ghost use Rattle.std.specs.List.{prefix_len};
ghost use Rattle.aa_logs.specs.Fields.{is_digit};
ghost use Rattle.aa_messages.specs.Repeated.{repeated_data, number_from, times_of, times_and_text, repeated_mark, behind_mark, repeated_in};
ghost use Rattle.aa_messages.specs.Parts.{behind_part};

use crate::part::{before_bracket, behind_front, behind_part};

/// So often a message counts at the most.
const MOST: u32 = 10000;

/// How often a message came, and which.
#[derive(Clone, Copy, Debug)]
pub struct Repeated<'t> {
    /// Once at least, and 10,000 times at the most.
    pub times: u32,
    pub text: &'t [u8],
}

fn is_digit(b: u8) -> bool
    ensures { result ≡ is_digit b }
{
    b >= b'0' && b <= b'9'
}

/// How many digits stand first.
fn digits(text: &[u8]) -> usize
    ensures count { result ≡ prefix_len is_digit text.now }
    ensures within { result ≤ length text.now }
{
    text.iter().take_while(|b| is_digit(**b)).count()
}

/// The number that a digit behind it makes, as far as it counts.
fn with_digit(number: u32, b: u8) -> u32
    requires { number ≤ 10000 }
    ensures value { result ≡ min (10 * number + (b - 48)) 10000 }
    ensures most { result ≤ 10000 }
{
    (10 * number + u32::from(b.saturating_sub(b'0'))).min(MOST)
}

/// The number that digits are, as far as it counts.
#[tactic(auto, unfolding(crate::specs::Repeated::number_from))]
fn number_of(digits: &[u8]) -> u32
    ensures { result ≡ number_from 0 digits.now }
{
    let mut number: u32 = 0;
    let mut rest = digits;
    while let [b, after @ ..] = rest {
        number = with_digit(number, *b);
        rest = after;
    }
    number
}

fn times_of(digits: &[u8]) -> u32
    ensures { result ≡ times_of digits.now }
{
    number_of(digits).max(1)
}

/// What stands behind `message repeated `: how often, and a text.
fn times_and_text(rest: &[u8]) -> Option<Repeated<'_>>
    ensures { option_map repeated_data result ≡ times_and_text rest.entry.now }
{
    let (number, behind) = rest.split_at(digits(rest));
    match behind_front(behind, " times: [") {
        Some(text) => {
            Some(Repeated {
                times: times_of(number),
                text,
            })
        }
        None => None,
    }
}

/// What stands behind `message repeated `.
#[tactic(auto, unfolding(crate::specs::Repeated::repeated_mark))]
fn behind_words(text: &[u8]) -> Option<&[u8]>
    ensures { option_map (λ t. t.now) result ≡ behind_part repeated_mark text.entry.now }
{
    behind_part(text, "message repeated ")
}

/// The same, up to the bracket at the end.
fn behind_mark(message: &[u8]) -> Option<&[u8]>
    ensures { option_map (λ t. t.now) result ≡ behind_mark message.entry.now }
{
    match before_bracket(message) {
        Some(text) => behind_words(text),
        None => None,
    }
}

/// How often a message came, and which, where a line says of it `message repeated N times: [TEXT]`.
#[tactic(auto, unfolding(crate::specs::Repeated::repeated_in))]
pub fn repeated_in(message: &[u8]) -> Option<Repeated<'_>>
    ensures { option_map repeated_data result ≡ repeated_in message.entry.now }
{
    match behind_mark(message) {
        Some(rest) => times_and_text(rest),
        None => None,
    }
}
