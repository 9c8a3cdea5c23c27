//! Rules on sockets (apparmor.d(5), "Network rules").

ghost use Rattle.std.specs.Prelude.{◌≡◌, ◌≤◌, true, List, length, OnErr, IfOk, IfErr};
ghost use Rattle.aa_words.specs.Splits.{WordData, is_one_of};
ghost use Rattle.aa_rules.specs.Faults.{is_word_fault, IsPlaceIn};
ghost use Rattle.aa_rules.specs.NetRules.{transport_kinds, one_in, one_name, is_internet, kinds_in, two_names, IsSockets, IsNets};
ghost use Rattle.aa_rules.specs.Reading.{rest_of};
ghost use Rattle.aa_rules.specs.RuleFaults.{IsFaultBy, NetFails, condition_words, socket_name_fault};
ghost use Rattle.aa_base.specs.Tables.{family_names, sock_type_names};

use crate::lookahead::{fault, word_of_kind};
use crate::tree::Qualifiers;
use aa_base::{Family, PolicyFault, PolicyKind, SockType, Spot};
use aa_model::NetRule;
use aa_words::{Word, WordKind};

/// Families and types together: bit n stands for entry n of the table of each.
#[derive(Clone, Copy, Debug, PartialEq, Eq)]
pub struct Sockets {
    pub families: u64,
    pub kinds: u8,
}

/// All families.
const ALL_FAMILIES: u64 = (1 << 44) - 1;

/// All types.
const ALL_KINDS: u8 = (1 << 6) - 1;

/// `inet`.
const INET: u64 = 1 << 1;

/// `inet6`.
const INET6: u64 = 1 << 9;

/// `inet` and `inet6`.
const INTERNET: u64 = INET | INET6;

/// The set of the one family with that name, if there is one.
fn family_in(name: &[u8]) -> Option<u64>
    ensures { result ≡ one_in family_names name.now }
{
    let family = Family::from_name(name)?;
    Some(1 << family.number())
}

/// The set of the one type with that name, if there is one.
fn kind_in(name: &[u8]) -> Option<u8>
    ensures { result ≡ one_in sock_type_names name.now }
{
    let kind = SockType::from_name(name)?;
    Some(1 << kind.number())
}

/// The type that a name stands for in the internet's families.
#[tactic(auto, unfolding(crate::specs::NetRules::transport_kinds))]
fn transport_kinds(name: &[u8]) -> Option<u8>
    ensures { result ≡ transport_kinds name.now }
{
    if name == "tcp".as_bytes() {
        return Some(1);
    }
    if name == "udp".as_bytes() {
        return Some(2);
    }
    None
}

/// What one name stands for.
#[tactic(auto, unfolding(crate::specs::NetRules::one_name))]
fn one_name(name: &[u8]) -> Option<Sockets>
    ensures { result ≡ one_name name.now }
{
    if let Some(families) = family_in(name) {
        return Some(Sockets {
            families,
            kinds: ALL_KINDS,
        });
    }
    if let Some(kinds) = kind_in(name) {
        return Some(Sockets {
            families: ALL_FAMILIES,
            kinds,
        });
    }
    let kinds = transport_kinds(name)?;
    Some(Sockets {
        families: INTERNET,
        kinds,
    })
}

/// Whether a set is `inet` alone or `inet6` alone.
fn is_internet(families: u64) -> bool
    ensures { result ≡ is_internet families }
{
    families == INET || families == INET6
}

/// The type that a name stands for behind a family.
#[tactic(auto, unfolding(crate::specs::NetRules::kinds_in))]
fn kinds_in(families: u64, name: &[u8]) -> Option<u8>
    ensures { result ≡ kinds_in families name.now }
{
    if let Some(kind) = kind_in(name) {
        return Some(kind);
    }
    if is_internet(families) {
        return transport_kinds(name);
    }
    None
}

/// What two names stand for.
#[tactic(auto, unfolding(crate::specs::NetRules::two_names))]
fn two_names(first: &[u8], second: &[u8]) -> Option<Sockets>
    ensures { result ≡ two_names first.now second.now }
{
    let families = family_in(first)?;
    let kinds = kinds_in(families, second)?;
    Some(Sockets { families, kinds })
}

/// Whether a condition begins with a name.
fn is_condition_word(name: &[u8]) -> bool
    ensures { result ≡ is_one_of condition_words name.now }
{
    name == "icmp".as_bytes()
        || name == "ip".as_bytes()
        || name == "port".as_bytes()
        || name == "peer".as_bytes()
}

/// Why a name can't stand where it stands: it is of a condition, or a family or type out of its
/// place, or none of these.
#[tactic(auto, unfolding(crate::specs::RuleFaults::socket_name_fault))]
fn socket_name_fault(name: &[u8]) -> PolicyKind
    ensures kind { result ≡ socket_name_fault name.now }
    ensures cause { is_word_fault result ≡ true }
{
    if is_condition_word(name) {
        return PolicyKind::Unsupported;
    }
    match one_name(name) {
        Some(_) => PolicyKind::Syntax,
        None => PolicyKind::UnknownWord,
    }
}

/// The sockets that are named from a place on, and the place behind them.
fn sockets_of(words: &[Word], at: usize, end: Spot) -> Result<(Sockets, usize), PolicyFault>
    requires behind { at ≤ length words.now }
    ensures found { IfOk result (λ r. IsSockets (rest_of words.now at) r.0 (rest_of words.now r.1)) }
    ensures refused { OnErr result ((named : Sockets) (rest : List WordData) → IsSockets (rest_of words.now at) named rest → ⊥) }
    ensures fails { IfErr result (IsFaultBy NetFails (rest_of words.now at) end) }
    ensures cause { IfErr result (λ e. is_word_fault e.kind ≡ true) }
    ensures place { IfErr result (λ e. IsPlaceIn words.now end e.at) }
    ensures within { IfOk result (λ r. (at ≤ r.1) × (r.1 ≤ length words.now)) }
{
    let Some(first) = word_of_kind(words, at, WordKind::Name) else {
        let all = Sockets {
            families: ALL_FAMILIES,
            kinds: ALL_KINDS,
        };
        return Ok((all, at));
    };
    let Some(alone) = one_name(first.text) else {
        return Err(fault(socket_name_fault(first.text), words, at, end));
    };
    let next = at + 1;
    let Some(second) = word_of_kind(words, next, WordKind::Name) else {
        return Ok((alone, next));
    };
    let Some(sockets) = two_names(first.text, second.text) else {
        return Err(fault(socket_name_fault(second.text), words, next, end));
    };
    let behind = next + 1;
    if let Some(third) = word_of_kind(words, behind, WordKind::Name) {
        return Err(fault(socket_name_fault(third.text), words, behind, end));
    }
    Ok((sockets, behind))
}

/// A rule on sockets behind its keyword, and the place behind it.
pub fn net_rule_of(
    words: &[Word],
    at: usize,
    qualifiers: Qualifiers,
    end: Spot,
) -> Result<(NetRule, usize), PolicyFault>
    requires behind { at ≤ length words.now }
    ensures found { IfOk result (λ r. IsNets qualifiers (rest_of words.now at) r.0 (rest_of words.now r.1)) }
    ensures refused { OnErr result ((rule : NetRule) (rest : List WordData) → IsNets qualifiers (rest_of words.now at) rule rest → ⊥) }
    ensures fails { IfErr result (IsFaultBy NetFails (rest_of words.now at) end) }
    ensures cause { IfErr result (λ e. is_word_fault e.kind ≡ true) }
    ensures place { IfErr result (λ e. IsPlaceIn words.now end e.at) }
    ensures within { IfOk result (λ r. (at ≤ r.1) × (r.1 ≤ length words.now)) }
{
    let (sockets, next) = sockets_of(words, at, end)?;
    let rule = NetRule {
        audit: qualifiers.audit,
        deny: qualifiers.deny,
        families: sockets.families,
        kinds: sockets.kinds,
    };
    Ok((rule, next))
}
