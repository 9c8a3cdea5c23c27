//! What is said of a claim.

ghost use Rattle.std.specs.Prelude.{◌≡◌, ◌++◌, IfOk, OnOk};
ghost use Rattle.aa_claims.specs.Faults.{opening, reason, sentence};
ghost use Rattle.aa_claims.specs.Reports.{IsClaimReport};

use crate::fault::Wrong;
use aa_text::{FaultReport, excerpt, place_at, push_visible};
use std::alloc::{AllocError, Global};

/// With what begins that which is said of a claim.
fn opening_of(wrong: &Wrong) -> &'static str
    ensures { result.now ≡ opening wrong.now }
{
    match wrong {
        Wrong::Open => "the quote isn't closed on this line",
        Wrong::NoClaim => "a claim begins with never or always",
        Wrong::Nothing => {
            "what is claimed isn't said: a word of requests is wanted, as w:/etc/shadow or cap:sys_admin, or always enforced"
        }
        Wrong::NoRequest(_) => "this is no request: ",
        Wrong::NoPattern => "the path is no pattern",
        Wrong::NoClause => "in, except or to is wanted here",
        Wrong::Twice => "this clause stands in the claim before",
        Wrong::NotHere => "such a claim has no such clause",
        Wrong::NoName => "a name is wanted behind this word",
        Wrong::NoFrom => "from isn't said: behind these names those are wanted where a task begins",
        Wrong::NoLead => "to stands behind executions and changes of profile alone",
        Wrong::NoProfile => "no profile has such a name",
        Wrong::NoPath => {
            "no path that can be asked for matches the pattern: nothing can break the claim"
        }
        Wrong::Nobody => "the claim is about no profile: nothing can break it",
        Wrong::NoChange => {
            "no profile has this name, so no change to it is granted: nothing can break the claim"
        }
        Wrong::Elsewhere => {
            "this leads to none of the labels behind to: nothing can break the claim"
        }
        Wrong::Granted => {
            "the claim is about tasks without a profile alone, which are granted this: nothing can break it"
        }
        Wrong::There => {
            "reach names no other label than that where a task begins: nothing can break the claim"
        }
        Wrong::TooMany => "a file has at most 65,536 claims",
    }
}

/// Appends why it is no request, where that is wrong with it.
fn push_reason(out: &mut Vec<u8>, wrong: &Wrong) -> Result<(), AllocError>
    ensures { OnOk result (out.new.items ≡ out.old.items ++ reason wrong.now) }
{
    match wrong {
        Wrong::NoRequest(why) => push_visible(out, why.as_slice()),
        _ => Ok(()),
    }
}

/// What is said of a claim.
fn sentence_of(alloc: Global, wrong: &Wrong) -> Result<Vec<u8>, AllocError>
    ensures { IfOk result (λ said. said.items ≡ sentence wrong.now) }
{
    let mut said = Vec::from_slice(alloc, opening_of(wrong).as_bytes())?;
    push_reason(&mut said, wrong)?;
    Ok(said)
}

/// What is said of the claims at a path, where something is wrong at a byte of their text.
pub fn claim_report(
    alloc: Global,
    path: &[u8],
    text: &[u8],
    byte: usize,
    wrong: &Wrong,
) -> Result<FaultReport, AllocError>
    ensures { IfOk result (λ r. IsClaimReport path.now text.now byte wrong.now r) }
{
    Ok(FaultReport {
        kind: "BadClaim",
        path: Vec::from_slice(alloc, path)?,
        place: Some(place_at(text, byte)),
        message: sentence_of(alloc, wrong)?,
        excerpt: excerpt(alloc, text, byte)?,
        chain: Vec::new(alloc),
        further: Vec::new(alloc),
    })
}
