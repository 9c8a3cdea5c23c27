//! Lines of logs that aren't understood.

ghost use Rattle.std.specs.Prelude.{◌≡◌, ◌≤◌, length, take, codes, IfOk};
ghost use Rattle.std.specs.List.{list_any};
ghost use Rattle.aa_logs.specs.Outcomes.{outcome};
ghost use Rattle.aa_logs.specs.Records.{line_in};
ghost use Rattle.aa_messages.specs.Parts.{behind_part};
ghost use Rattle.aa_messages.specs.Unclear.{is_binary, is_no_text, is_bare, is_interpreted, may_hide, is_another, is_unclear};

use crate::journal::begins_object;
use crate::part::{begins, behind_part};
use aa_logs::{Line, line_of};
use std::alloc::{AllocError, Global};

/// The most bytes of a line.
const MAX_LINE: usize = 65536;

/// So many first bytes tell whether a line is text.
const TELLING: usize = 32;

/// Whether a byte is a control byte that no text has.
fn is_binary(b: u8) -> bool
    ensures { result ≡ is_binary b }
{
    (b >= 1 && b <= 6) || (b >= 14 && b <= 26) || b == 28 || b == 30 || b == 31
}

fn front_of(line: &[u8], most: usize) -> &[u8]
    ensures { result.now ≡ take most line.entry.now }
{
    if most < line.len() {
        &line[..most]
    } else {
        line
    }
}

fn is_no_text(line: &[u8]) -> bool
    ensures { result ≡ is_no_text line.now }
{
    front_of(line, TELLING).iter().any(|b| is_binary(*b))
}

/// Whether what became of a request stands there without quotes.
fn is_bare(line: &[u8]) -> bool
    ensures { result ≡ is_bare (behind_part (codes "apparmor=") line.now) }
{
    match behind_part(line, "apparmor=") {
        Some(value) => !begins(value, "\""),
        None => false,
    }
}

/// Whether a line is a record of the audit daemon as people are shown it.
fn is_interpreted(line: &[u8]) -> bool
    ensures { result ≡ is_interpreted line.now }
{
    (begins(line, "type=") || begins(line, "node=")) && is_bare(line)
}

fn may_hide(line: &[u8]) -> bool
    ensures { result ≡ may_hide line.now }
{
    line.len() > MAX_LINE || begins_object(line) || is_no_text(line) || is_interpreted(line)
}

fn is_another(line: &Line) -> bool
    ensures { result ≡ is_another (outcome line.now) }
{
    match line {
        Line::Other => true,
        Line::Skipped(_) | Line::Asks(_) => false,
    }
}

/// Whether a line isn't understood: it isn't one of the access control's, and may hide one, since it is too long, an object without a
/// message, no text, or a record of the audit daemon as people are shown it.
#[tactic(auto, unfolding(crate::specs::Unclear::is_unclear))]
pub fn is_unclear(alloc: Global, line: &[u8]) -> Result<bool, AllocError>
    ensures { IfOk result (λ unclear. unclear ≡ is_unclear line.now) }
{
    if !may_hide(line) {
        return Ok(false);
    }
    Ok(is_another(&line_of(alloc, line)?))
}

/// The same, where it is known what the line is.
#[tactic(auto, unfolding(crate::specs::Unclear::is_unclear))]
pub fn is_unclear_as(line: &[u8], known: &Line) -> bool
    requires { outcome known.now ≡ line_in line.now }
    ensures { result ≡ is_unclear line.now }
{
    is_another(known) && may_hide(line)
}
