//! What is printed where answers are in JSON.

ghost use Rattle.std.specs.Prelude.{◌≡◌, ◌++◌, codes, drop, OnOk, IfOk};
ghost use Rattle.aa_text.specs.Jsons.{json_bytes};
ghost use Rattle.aa_command.specs.Printed.{printed, refusal_line};
ghost use Rattle.aa_command.specs.Sayings.{begun, last_from, last_line, begins, json_said, json_line, is_said_alone, refusal_of, in_json};

use crate::output::Output;
use aa_text::{push_json_bytes, push_text};
use std::alloc::{AllocError, Global};

/// What is asked for isn't there.
const REFUSED: u8 = 1;

/// The line that is begun behind a byte.
fn begun<'t>(line: &'t [u8], b: u8, rest: &'t [u8]) -> &'t [u8]
    ensures { result.now ≡ begun line.entry.now b rest.entry.now }
{
    if b == b'\n' && rest.len() > 0 {
        rest
    } else {
        line
    }
}

fn last_with_end(lines: &[u8]) -> &[u8]
    ensures { result.now ≡ last_from lines.entry.now lines.entry.now }
{
    let mut line = lines;
    let mut rest = lines;
    while let [b, after @ ..] = rest {
        line = begun(line, *b, after);
        rest = after;
    }
    line
}

/// The last line, without its end.
fn last_line(lines: &[u8]) -> &[u8]
    ensures { result.now ≡ last_line lines.entry.now }
{
    let line = last_with_end(lines);
    &line[..line.len().saturating_sub(1)]
}

/// Whether a line begins so.
fn begins(line: &[u8], front: &str) -> bool
    ensures { result ≡ begins front.now line.now }
{
    line.starts_with(front.as_bytes())
}

/// What stands behind so many bytes.
fn behind(line: &[u8], count: usize) -> &[u8]
    ensures { result.now ≡ drop count line.entry.now }
{
    if count <= line.len() {
        &line[count..]
    } else {
        &[]
    }
}

fn push_said(
    out: &mut Vec<u8>,
    alloc: Global,
    kind: &str,
    sentence: &[u8],
) -> Result<(), AllocError>
    ensures { OnOk result (out.new.items ≡ out.old.items ++ json_said kind.now sentence.now) }
{
    push_text(out, "{\"kind\":\"")?;
    push_text(out, kind)?;
    push_text(out, "\",\"message\":")?;
    push_json_bytes(out, alloc, sentence)?;
    push_text(out, "}")
}

/// Appends a line's kind and its sentence, by how it begins.
#[tactic(auto, unfolding(crate::specs::Sayings::json_line))]
fn push_line(out: &mut Vec<u8>, alloc: Global, line: &[u8]) -> Result<(), AllocError>
    ensures { OnOk result (out.new.items ≡ out.old.items ++ json_line line.now) }
{
    if begins(line, "error: no profile is called ") {
        return push_said(out, alloc, "NoProfile", behind(line, 7));
    }
    if begins(line, "error: this is no request: ") {
        return push_said(out, alloc, "NoRequest", behind(line, 7));
    }
    if begins(line, "error: ") {
        return push_said(out, alloc, "Refused", behind(line, 7));
    }
    if begins(line, "TooLarge: ") {
        return push_said(out, alloc, "TooLarge", behind(line, 10));
    }
    if begins(line, "NotText: ") {
        return push_said(out, alloc, "NotText", behind(line, 9));
    }
    push_said(out, alloc, "Refused", line)
}

/// Whether nothing is answered, and no fault but a line says why.
fn is_said_alone(output: &Output) -> bool
    ensures { result ≡ is_said_alone (printed output.now) }
{
    output.answers.len() == 0
        && output.refusal.len() == 0
        && output.faults.len() > 0
        && output.status == REFUSED
}

/// The fault in JSON for which nothing is answered; empty where there is none.
fn refusal_of(alloc: Global, output: &Output) -> Result<Vec<u8>, AllocError>
    ensures { IfOk result (λ refusal. refusal.items ≡ refusal_of (printed output.now)) }
{
    if !is_said_alone(output) {
        return Vec::from_slice(alloc, output.refusal.as_slice());
    }
    let mut refusal = Vec::new(alloc);
    push_line(&mut refusal, alloc, last_line(output.faults.as_slice()))?;
    Ok(refusal)
}

#[tactic(auto, unfolding(crate::specs::Printed::refusal_line))]
fn push_refusal(out: &mut Vec<u8>, refusal: &[u8]) -> Result<(), AllocError>
    ensures { OnOk result (out.new.items ≡ out.old.items ++ refusal_line refusal.now) }
{
    if refusal.len() == 0 {
        return Ok(());
    }
    push_text(out, "{\"fault\":")?;
    out.extend_from_slice(refusal)?;
    push_text(out, "}\n")
}

/// What is printed, with the fault for which nothing is answered on standard output too, as `{"fault":..}`: one of files with all that is
/// told of it, else the kind and the sentence of the line that is said.
pub fn in_json(alloc: Global, output: Output) -> Result<Output, AllocError>
    ensures { IfOk result (λ out. printed out ≡ in_json (printed output)) }
{
    let told = refusal_of(alloc, &output)?;
    let Output {
        mut answers,
        faults,
        refusal: _replaced,
        status,
    } = output;
    push_refusal(&mut answers, told.as_slice())?;
    Ok(Output {
        answers,
        faults,
        refusal: Vec::new(alloc),
        status,
    })
}
