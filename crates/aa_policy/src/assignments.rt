//! Assignments to variables (apparmor.d(5), "Variables").

ghost use Rattle.std.specs.Prelude.{◌≡◌, ◌≢◌, ◌⊎◌, ◌≤◌, ◌<◌, ◌+◌, true, false, List, ℕ, Bool, map, length, Some, None, IfSome, IfNone, OnSome, OnOk, IfOk, IfErr};
ghost use Rattle.std.specs.Bool.{OnTrue, OnFalse};
ghost use Rattle.std.specs.List.{list_all};
ghost use Rattle.aa_base.specs.declared.fault.Spot.{Spot};
ghost use Rattle.aa_glob.specs.Expansions.{is_reserved};
ghost use Rattle.aa_glob.specs.Variables.{Variable};
ghost use Rattle.aa_base.specs.Kinds.{no_memory, IsRefusal};
ghost use Rattle.aa_words.specs.Splits.{WordData};
ghost use Rattle.aa_rules.specs.Faults.{IsPlaced};
ghost use Rattle.aa_rules.specs.Grammar.{Starts, Lacks, Many};
ghost use Rattle.aa_policy.specs.Preamble.{is_variable_byte, is_variable_name, Names, sign_of, Assigning, LacksAssignment, IsValue, NoValue, AssignmentData, assignment, IsAssignment, assigned, Misfits, Misnames, misnamed, IsRefusedWith, IsPreambleRefusal};
ghost use Rattle.aa_rules.specs.Reading.{rest_of};

use aa_base::{PolicyFault, PolicyKind, Spot};
use aa_glob::Vars;
use aa_rules::{fault, spot_of, word_of_kind};
use aa_words::{Word, WordKind};
use std::alloc::Global;

/// Whether a byte may stand in a variable's name, behind the first.
fn is_variable_byte(b: u8) -> bool
    ensures { result ≡ is_variable_byte b }
{
    b.is_ascii_alphanumeric() || b == b'_'
}

/// Whether all bytes may stand in a variable's name, behind the first.
fn has_name_bytes(text: &[u8]) -> bool
    ensures { result ≡ list_all is_variable_byte text.now }
{
    text.iter().all(|b| is_variable_byte(*b))
}

/// Whether a text is the name of a variable.
fn is_variable_name(text: &[u8]) -> bool
    ensures { result ≡ is_variable_name text.now }
{
    match text {
        [first, others @ ..] => first.is_ascii_alphabetic() && has_name_bytes(others),
        [] => false,
    }
}

/// The name in a word `@{NAME}`.
fn variable_name<'s>(text: &'s [u8]) -> Option<&'s [u8]>
    ensures found { IfSome result (λ n. Names text.now n.now) }
    ensures missing { IfNone result ((n : List ℕ) → Names text.now n → ⊥) }
{
    match text {
        [b'@', b'{', name @ .., b'}'] if is_variable_name(name) => Some(name),
        _ => None,
    }
}

/// Whether an assignment's sign stands at a place, and whether it is the one that adds.
fn sign_at(words: &[Word], at: usize) -> Option<bool>
    ensures found { IfSome result (λ adds. (sign : WordData) × Starts (sign_of adds) (rest_of words.now at) sign (rest_of words.now (at + 1))) }
    ensures missing { IfNone result ((adds : Bool) → Lacks (sign_of adds) (rest_of words.now at)) }
    ensures within { OnSome result (at < length words.now) }
{
    if word_of_kind(words, at, WordKind::Equals).is_some() {
        return Some(false);
    }
    if word_of_kind(words, at, WordKind::PlusEquals).is_some() {
        return Some(true);
    }
    None
}

/// How an assignment begins.
#[derive(Clone, Copy, Debug)]
struct Head<'s> {
    /// Where its variable stands.
    at: Spot,
    /// The variable's name.
    name: &'s [u8],
    /// Whether its sign is `+=`.
    adds: bool,
}

/// How an assignment begins at a place, if one does; its values stand two words on.
fn head_at<'s>(words: &[Word<'s>], at: usize) -> Option<Head<'s>>
    ensures found { IfSome result (λ h. Assigning (rest_of words.now at) h.at h.name.now h.adds (rest_of words.now (at + 2))) }
    ensures missing { IfNone result (LacksAssignment (rest_of words.now at)) }
    ensures within { OnSome result (at + 2 ≤ length words.now) }
{
    let Some(variable) = word_of_kind(words, at, WordKind::Path) else {
        return None;
    };
    let Some(name) = variable_name(variable.text) else {
        return None;
    };
    let Some(adds) = sign_at(words, at + 1) else {
        return None;
    };
    Some(Head {
        at: spot_of(variable),
        name,
        adds,
    })
}

/// Whether an assignment begins at a place.
pub fn begins_assignment(words: &[Word], at: usize) -> bool
    ensures yes { OnTrue result ((spot : Spot) × (name : List ℕ) × (adds : Bool) × (rest : List WordData) × Assigning (rest_of words.now at) spot name adds rest) }
    ensures no { OnFalse result (LacksAssignment (rest_of words.now at)) }
{
    head_at(words, at).is_some()
}

/// The values from a place on, and the place behind them.
fn values_at<'s>(
    alloc: Global,
    words: &[Word<'s>],
    start: usize,
) -> Result<(Vec<&'s [u8]>, usize), PolicyFault>
    requires { start ≤ length words.now }
    ensures found { IfOk result (λ r. Many IsValue NoValue (rest_of words.now start) (map (λ v. v.now) r.0.items) (rest_of words.now r.1)) }
    ensures cause { IfErr result (λ e. e ≡ no_memory) }
    ensures within { IfOk result (λ r. (start ≤ r.1) × (r.1 ≤ length words.now)) }
{
    let mut values = Vec::new(alloc);
    let mut at = start;
    'values: while let Some(word) = word_of_kind(words, at, WordKind::Value) {
        values.push(word.text)?;
        at += 1;
    }
    Ok((values, at))
}

/// Whether no assignment may name a variable so.
fn is_reserved(name: &[u8]) -> bool
    ensures { result ≡ is_reserved name.now }
{
    name == "exec_path".as_bytes() || name == "profile_name".as_bytes()
}

/// A refusal at a variable, or want of memory.
fn refused_at(kind: PolicyKind, at: Spot) -> PolicyFault
    ensures kind { result.kind ≡ kind }
    ensures place { kind ≢ PolicyKind.NoMemory → result.at ≡ at }
    ensures memory { kind ≡ PolicyKind.NoMemory → result ≡ no_memory }
{
    if kind == PolicyKind::NoMemory {
        return PolicyFault::NO_MEMORY;
    }
    PolicyFault { kind, at }
}

/// Gives a variable the values of an assignment.
#[tactic(auto, unfolding(crate::specs::Preamble::assigned))]
fn assign(vars: &mut Vars, head: Head, values: &[&[u8]]) -> Result<(), PolicyFault>
    ensures done { OnOk result (assigned vars.old (assignment head.entry.at head.entry.name.now head.entry.adds (map (λ v. v.now) values.now)) ≡ Some vars.new) }
    ensures refused { IsRefusal result → assigned vars.old (assignment head.entry.at head.entry.name.now head.entry.adds (map (λ v. v.now) values.now)) ≡ None }
    ensures cause { IfErr result IsPreambleRefusal }
    ensures place { IfErr result (λ e. (e ≡ no_memory) ⊎ (e.at ≡ head.entry.at)) }
    ensures twice { IfErr result (λ e. e.kind ≡ PolicyKind.VariableTwice → Misfits false vars.old head.entry.name.now head.entry.adds × (e.at ≡ head.entry.at)) }
    ensures undefined { IfErr result (λ e. e.kind ≡ PolicyKind.UndefinedVariable → Misfits true vars.old head.entry.name.now head.entry.adds × (e.at ≡ head.entry.at)) }
    ensures misfits { (adds : Bool) → Misfits adds vars.old head.entry.name.now head.entry.adds → IsRefusedWith (misnamed adds head.entry.at) result }
{
    if is_reserved(head.name) {
        return Err(refused_at(PolicyKind::Unsupported, head.at));
    }
    let done = if head.adds {
        vars.add(head.name, values)
    } else {
        vars.set(head.name, values)
    };
    match done {
        Ok(()) => Ok(()),
        Err(kind) => Err(refused_at(kind, head.at)),
    }
}

/// Reads an assignment into the variables, and gives the place behind it. A name's fault comes before
/// want of a value.
pub fn assignment_of(
    alloc: Global,
    words: &[Word],
    at: usize,
    vars: &mut Vars,
    end: Spot,
) -> Result<usize, PolicyFault>
    ensures found { IfOk result (λ next. (x : AssignmentData) × IsAssignment (rest_of words.now at) x (rest_of words.now next) × (assigned vars.old x ≡ Some vars.new)) }
    ensures refused { IsRefusal result → (x : AssignmentData) (more : List Variable) (rest : List WordData)
        → IsAssignment (rest_of words.now at) x rest → assigned vars.old x ≡ Some more → ⊥ }
    ensures cause { IfErr result IsPreambleRefusal }
    ensures place { IfErr result (IsPlaced words.now end) }
    ensures twice { IfErr result (λ e. e.kind ≡ PolicyKind.VariableTwice → Misnames false vars.old (rest_of words.now at) e.at) }
    ensures undefined { IfErr result (λ e. e.kind ≡ PolicyKind.UndefinedVariable → Misnames true vars.old (rest_of words.now at) e.at) }
    ensures misnames { (adds : Bool) (spot : Spot) → Misnames adds vars.old (rest_of words.now at) spot → IsRefusedWith (misnamed adds spot) result }
    ensures within { IfOk result (λ next. (at < next) × (next ≤ length words.now)) }
{
    let Some(head) = head_at(words, at) else {
        return Err(fault(PolicyKind::Syntax, words, at, end));
    };
    let (values, next) = values_at(alloc, words, at + 2)?;
    assign(vars, head, values.as_slice())?;
    if values.is_empty() {
        return Err(fault(PolicyKind::Syntax, words, next, end));
    }
    Ok(next)
}
