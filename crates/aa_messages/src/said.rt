//! What the lines of a log say.

ghost use Rattle.std.specs.Prelude.{◌≡◌, ◌≤◌, IfOk};
ghost use Rattle.aa_logs.specs.Records.{without_return};
ghost use Rattle.aa_messages.specs.Repeated.{repeated_data, repeated_in};
ghost use Rattle.aa_messages.specs.Said.{said_data, said_of, said_in};

use crate::journal::message_in;
use crate::repeated::{Repeated, repeated_in};
use std::alloc::{AllocError, Global};
use std::borrow::CowSlice;

/// How often a line says which message.
#[derive(Drop)]
pub struct Said<'l> {
    pub times: u32,
    pub text: CowSlice<'l, u8, Global>,
}

/// A line without the CR that it may end in.
fn without_return(line: &[u8]) -> &[u8]
    ensures { result.now ≡ without_return line.entry.now }
{
    match line {
        [front @ .., b'\r'] => front,
        _ => line,
    }
}

/// A message that came several times.
fn copied<'l>(alloc: Global, repeated: Repeated<'_>) -> Result<Said<'l>, AllocError>
    ensures { IfOk result (λ s. said_data s ≡ repeated_data repeated.entry) }
{
    Ok(Said {
        times: repeated.times,
        text: CowSlice::Owned(Vec::from_slice(alloc, repeated.text)?),
    })
}

/// How often a line says which message: the journal's is read, and one that syslog repeats counts as often as it says, once at
/// least and 10,000 times at the most; else it is the line itself, once.
#[tactic(auto, unfolding(crate::specs::Said::said_in))]
pub fn said_in<'l>(alloc: Global, line: &'l [u8]) -> Result<Said<'l>, AllocError>
    ensures { IfOk result (λ s. said_data s ≡ said_in line.entry.now) }
{
    let message = message_in(alloc, line)?;
    match repeated_in(without_return(message.as_slice())) {
        Some(repeated) => copied(alloc, repeated),
        None => {
            Ok(Said {
                times: 1,
                text: message,
            })
        }
    }
}
