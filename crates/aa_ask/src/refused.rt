//! Why a file of words isn't read.

ghost use Rattle.std.specs.Prelude.{◌≡◌, ◌≢◌, codes, IfOk};
ghost use Rattle.aa_diagnostics.specs.Reports.{IsOfWhole};
ghost use Rattle.aa_command.specs.Printed.{printed};
ghost use Rattle.aa_command.specs.Refusals.{SaysFault};
ghost use Rattle.aa_ask.specs.Refused.{long_text, many_words, SaysTooLarge, SaysUnreadWords};

use aa_base::Unread;
use aa_command::{Output, fault_refused, path_refused};
use aa_text::{FaultReport, NoMemory};
use std::alloc::{AllocError, Global};

#[tactic(auto, unfolding(crate::specs::Refused::long_text))]
fn long_text() -> &'static str
    ensures { result.now ≡ long_text }
{
    "a file has at most 1,048,576 bytes"
}

#[tactic(auto, unfolding(crate::specs::Refused::many_words))]
fn many_words() -> &'static str
    ensures { result.now ≡ many_words }
{
    "ask takes at most 65,536 words, with those of the command line"
}

/// What is said of a file at which a limit is passed.
fn too_large(alloc: Global, path: &[u8], message: &str) -> Result<FaultReport, AllocError>
    ensures { IfOk result (λ r. IsOfWhole (codes "TooLarge") path.now message.now r) }
{
    Ok(FaultReport {
        kind: "TooLarge",
        path: Vec::from_slice(alloc, path)?,
        place: None,
        message: Vec::from_slice(alloc, message.as_bytes())?,
        excerpt: Vec::new(alloc),
        chain: Vec::new(alloc),
        further: Vec::new(alloc),
    })
}

fn limit_refused(alloc: Global, path: &[u8], message: &str) -> Result<Output, NoMemory>
    ensures { IfOk result (λ out. SaysTooLarge path.now message.now (printed out)) }
{
    let report = too_large(alloc, path, message)?;
    fault_refused(alloc, &report, 3)
}

/// Says that a file has too many words, with those of the command line, unless memory ran out.
pub fn many_refused(alloc: Global, path: &[u8], why: Unread) -> Result<Output, NoMemory>
    ensures says { IfOk result (λ out. SaysTooLarge path.now many_words (printed out)) }
    ensures other { IfOk result (λ _. why ≢ Unread.NoMemory) }
{
    if why == Unread::NoMemory {
        return Err(NoMemory);
    }
    limit_refused(alloc, path, many_words())
}

/// Says why a file of words can't be read.
pub fn words_refused(alloc: Global, path: &[u8], why: Unread) -> Result<Output, NoMemory>
    ensures { IfOk result (λ out. SaysUnreadWords path.now why (printed out)) }
{
    match why {
        Unread::TooLarge => limit_refused(alloc, path, long_text()),
        Unread::NoMemory => Err(NoMemory),
        Unread::NotFound | Unread::NotAllowed | Unread::NotAFile | Unread::Failed => path_refused(
            alloc, path, why,
        ),
    }
}
