//! Expands a word with variables to patterns.

ghost use Rattle.std.specs.Prelude.{◌≡◌, ◌≢◌, ◌≤◌, ◌==◌, ◌&&◌, ◌∷◌, ℕ, List, [], length, map, IfOk, IfErr, Ok, Err};
ghost use Rattle.std.specs.List.{list_any};
ghost use Rattle.aa_glob.specs.Known.{IsWalked};
ghost use Rattle.aa_glob.specs.Reading.{Gives, spelled};
ghost use Rattle.aa_glob.specs.Expansions.{pattern_text, expansion, expansions, outcome_of, Texts, Expands};

use crate::building::{MAX_BYTES, Rest, build};
use crate::pieces::starts_with;
use crate::reader::read_pattern;
use crate::summary::{Done, MAX_TEXTS, text_summary};
use crate::vars::Vars;
use crate::walk::walk;
use aa_base::PolicyKind;
use aa_pattern::Pattern;
use std::alloc::Global;

/// Whether the byte is a `/` behind another.
fn repeats(after: bool, byte: u8) -> bool
    ensures { result ≡ (after && byte == 47) }
{
    after && byte == b'/'
}

/// The text with each run of `/` made one.
fn squeeze(alloc: Global, text: &[u8]) -> Result<Vec<u8>, PolicyKind>
    ensures ok { IfOk result (λ v. v.items ≡ pattern_text text.now) }
    ensures err { IfErr result (λ e. e ≡ PolicyKind.NoMemory) }
{
    let mut found: Vec<u8> = Vec::with_capacity(alloc, text.len())?;
    let mut after = false;
    for byte in text {
        if !repeats(after, *byte) {
            found.push(*byte)?;
        }
        after = *byte == b'/';
    }
    Ok(found)
}

/// Reads one expansion.
#[tactic(auto, unfolding(crate::specs::Expansions::expansion))]
fn read_expansion(alloc: Global, text: &[u8]) -> Result<Pattern, PolicyKind>
    ensures { Gives (λ p. spelled p.items.items) result (expansion text.now) }
{
    if MAX_BYTES < text.len() {
        return Err(PolicyKind::TooLarge);
    }
    let squeezed = squeeze(alloc, text)?;
    match read_pattern(alloc, squeezed.as_slice()) {
        Ok(pattern) => {
            if starts_with(squeezed.as_slice(), b'/') {
                Ok(pattern)
            } else {
                Err(PolicyKind::RelativePath)
            }
        }
        Err(fault) => Err(fault),
    }
}

/// Whether a variable may be used somewhere in the text.
fn may_use(text: &[u8]) -> bool
    ensures { result ≡ list_any (λ b. b == 64) text.now }
{
    text.contains(&b'@')
}

/// Reads a text that is its only expansion.
fn read_alone(alloc: Global, text: &[u8]) -> Result<Vec<Pattern>, PolicyKind>
    ensures { Gives (λ v. map (λ p. spelled p.items.items) v.items) result (expansions (text.now ∷ [])) }
{
    let pattern = match read_expansion(alloc, text) {
        Ok(pattern) => pattern,
        Err(fault) => return Err(fault),
    };
    let mut patterns: Vec<Pattern> = Vec::with_capacity(alloc, 1)?;
    patterns.push(pattern)?;
    Ok(patterns)
}

/// Builds and reads the expansions in turn.
fn read_all<'t>(
    alloc: Global,
    vars: &'t Vars,
    done: &Done<'t>,
    raw: &'t [u8],
    count: usize,
) -> Result<Vec<Pattern>, PolicyKind>
    requires walked { IsWalked vars.now raw.now done.now.entries }
    requires texts { (most : ℕ) × (ts : List (List ℕ)) × (outcome_of (length done.now.entries) vars.now raw.now ≡ Texts most ts) × (most ≤ 1024) × (length ts ≡ count) }
    ensures { (most : ℕ) (ts : List (List ℕ)) → outcome_of (length done.now.entries) vars.now raw.now ≡ Texts most ts → most ≤ 1024 → length ts ≡ count
        → Gives (λ v. map (λ p. spelled p.items.items) v.items) result (expansions ts) }
{
    let mut patterns: Vec<Pattern> = Vec::with_capacity(alloc, count)?;
    for number in 0..count {
        let start = Rest {
            text: raw,
            kept: false,
            number,
            count,
        };
        let text = build(alloc, vars, done, start)?;
        let pattern = match read_expansion(alloc, text.as_slice()) {
            Ok(pattern) => pattern,
            Err(fault) => return Err(fault),
        };
        patterns.push(pattern)?;
    }
    Ok(patterns)
}

/// The patterns that a word stands for (apparmor.d(5), "Variables"): one for each choice of a value at each use of a variable,
/// the leftmost use varying slowest, with each run of `/` made one. Refused, in this order: the first of BadPattern,
/// Unsupported, UndefinedVariable and VariableCircle that a walk meets, left to right and into the values depth first;
/// TooManyExpansions, where the word or a variable on the way has more than 1,024; then, for each expansion in turn, TooLarge
/// (more than 16,384 bytes before runs of `/` are made one), what `read_pattern` refuses it for, and RelativePath.
// Each word walks its variables anew: the walk reads each value once, and each text is then built and read byte by byte. To
// keep what a walk found would save a part of the lesser cost, and tie the variables to it while a preamble may still add to
// them. A word without `@` is its one text, neither walked nor counted nor built.
pub fn expand(alloc: Global, vars: &Vars, raw: &[u8]) -> Result<Vec<Pattern>, PolicyKind>
    ensures expanded { IfOk result (λ v. Expands vars.now raw.now (Ok (map (λ p. spelled p.items.items) v.items))) }
    ensures refused { IfErr result (λ e. e ≢ PolicyKind.NoMemory → Expands vars.now raw.now (Err e)) }
{
    if !may_use(raw) {
        return read_alone(alloc, raw);
    }
    let done = match walk(alloc, vars, raw) {
        Ok(done) => done,
        Err(fault) => return Err(fault),
    };
    let summary = text_summary(raw, &done);
    if summary.many {
        return Err(PolicyKind::TooManyExpansions);
    }
    if MAX_TEXTS < summary.count {
        return Err(PolicyKind::TooManyExpansions);
    }
    read_all(alloc, vars, &done, raw, summary.count)
}
