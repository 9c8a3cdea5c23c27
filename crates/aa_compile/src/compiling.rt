//! Compiling a policy.

ghost use Rattle.std.specs.Prelude.{◌≡◌, ◌≤◌, ◌<◌, ◌↔◌, ◌⊎◌, ℕ, Some, length, IfOk, IfErr};
ghost use Rattle.std.specs.List.{slice_get};
ghost use Rattle.std.specs.Option.{is_some};
ghost use Rattle.aa_pattern.specs.Limits.{most_patterns, most_states};
ghost use Rattle.aa_base.specs.Kinds.{no_memory};
ghost use Rattle.aa_model.specs.declared.policy.Profile.{Profile};
ghost use Rattle.aa_model.specs.Lawful.{IsWithinLimits, ParentsComeFirst};
ghost use Rattle.aa_compile.specs.Attached.{attached, AreAttached, Attaches};
ghost use Rattle.aa_compile.specs.Rows.{IsVerdictOf, patterns_of};
ghost use Rattle.aa_compile.specs.Matched.{rules_matching};
ghost use Rattle.aa_compile.specs.Ways.{way_by};
ghost use Rattle.aa_compile.specs.Found.{found_in};
ghost use Rattle.aa_compile.specs.Numbering.{IsNumbering};
ghost use Rattle.aa_compile.specs.States.{HasStates};
ghost use Rattle.aa_compile.specs.Transitions.{attached_below, named, transition};
ghost use Rattle.aa_auto.specs.Pairs.{IsBuilt};
ghost use Rattle.aa_compile.specs.Checks.{attached_patterns, children, tops, first_spot, IsRight, AreRight, IsRefused, IsAccepted};

use crate::attach::AttachRows;
use crate::groups::{groups_of, numbers_of_tops};
use crate::mark::Way;
use crate::numbering::number_profiles;
use crate::owners::rules_of;
use crate::side::Verdict;
use crate::tables::{ProfileRows, fault_of_states, rows_of};
use crate::transition::{Transition, lead};
use aa_auto::Automaton;
use aa_base::{Perms, PolicyFault, Spot};
use aa_model::{ExecKind, Policy, Profile};
use bitflags::Flags;
use std::alloc::{AllocError, Global};
use std::collections::HashMap;
use std::marker::Model;

/// A policy that isn't compiled, and why.
#[derive(Drop)]
pub struct CompileRefusal {
    pub fault: PolicyFault,
    pub policy: Policy,
}

/// A policy with what deciding needs, seen as the policy.
#[derive(Drop)]
pub struct Compiled {
    policy: Policy,
    /// The numbers of the profiles by their names.
    names: HashMap<Vec<u8>, u16>,
    tops: AttachRows,
    rows: Vec<ProfileRows>,
}

impl Model for Compiled {
    ghost use Rattle.aa_model.specs.contracts.policy.Policy as contract;
    ghost use Rattle.aa_model.specs.declared.policy.Policy.{Policy};
    ghost use Rattle.aa_compile.specs.Found.{found_in};
    ghost use Rattle.aa_compile.specs.Transitions.{transition};
    ghost use Rattle.aa_compile.specs.Checks.{IsCompiled};
    ghost use Rattle.aa_compile.specs.Numbering.{IsNumbering};

    ghost Value = { Policy };

    ghost coded = { contract.the_row.coded };

    ghost view = { λ c. c.policy };

    ghost invariant = { λ c. IsCompiled c.policy.profiles c.tops c.rows.items × IsNumbering c.names c.policy.profiles };
}

fn spot_of_first(profiles: &[Profile]) -> Spot
    ensures { result ≡ first_spot profiles.now }
{
    match profiles {
        [first, ..] => first.at,
        [] => Spot { file: 0, byte: 0 },
    }
}

/// What is kept of a policy beside itself.
#[derive(Drop)]
struct Tables {
    names: HashMap<Vec<u8>, u16>,
    tops: AttachRows,
    rows: Vec<ProfileRows>,
}

fn tables_of(alloc: Global, profiles: &[Profile], limit: usize) -> Result<Tables, PolicyFault>
    requires limits { IsWithinLimits profiles.now }
    requires parents { ParentsComeFirst profiles.now }
    requires some { 0 < limit }
    requires limit { limit ≤ most_states }
    ensures right { IfOk result (λ t. AreRight profiles.now (length profiles.now) t.rows.items) }
    ensures tops { IfOk result (λ t. Attaches profiles.now (tops profiles.now) t.tops) }
    ensures built { IfOk result (λ t. AreAttached profiles.now (tops profiles.now) t.tops) }
    ensures names { IfOk result (λ t. IsNumbering t.names profiles.now) }
    ensures accepted { IfOk result (λ _. IsAccepted profiles.now limit) }
    ensures refused { IfErr result (λ f. (f ≡ no_memory) ⊎ IsRefused profiles.now limit f) }
{
    let numbers = numbers_of_tops(alloc, profiles)?;
    let tops = match AttachRows::build(alloc, profiles, numbers.as_slice(), limit) {
        Ok(tops) => tops,
        Err(fault) => return Err(fault_of_states(fault, spot_of_first(profiles))),
    };
    let names = number_profiles(alloc, profiles)?;
    let groups = groups_of(alloc, profiles)?;
    let rows = rows_of(alloc, &names, groups.as_slice(), profiles, limit)?;
    Ok(Tables { names, tops, rows })
}

/// Makes a policy ready. An automaton of it may have at most `limit` states.
pub fn compile(alloc: Global, policy: Policy, limit: u32) -> Result<Compiled, CompileRefusal>
    requires some { 1 ≤ limit }
    requires bounded { limit ≤ most_states }
    ensures ok { IfOk result (λ c. c ≡ policy) }
    ensures accepted { IfOk result (λ _. IsAccepted policy.profiles limit) }
    ensures same { IfErr result (λ e. e.policy ≡ policy) }
    ensures refused { IfErr result (λ e. (e.fault ≡ no_memory) ⊎ IsRefused policy.profiles limit e.fault) }
{
    match tables_of(alloc, policy.profiles.as_slice(), limit as usize) {
        Ok(Tables { names, tops, rows }) => Ok(Compiled {
            policy,
            names,
            tops,
            rows,
        }),
        Err(fault) => Err(CompileRefusal { fault, policy }),
    }
}

impl Compiled {
    /// The policy that was compiled.
    pub fn policy(&self) -> &Policy
        ensures { result.now ≡ self.now }
    {
        &self.policy
    }

    /// The number of the profile with that full name.
    pub fn find(&self, name: &[u8]) -> Option<u16>
        ensures { result ≡ named self.now.profiles name.now }
    {
        self.names.get(name).copied()
    }

    /// The top-level profile that is attached to a path.
    pub fn attach(&self, path: &[u8]) -> Option<u16>
        ensures { result ≡ attached self.now.profiles (tops self.now.profiles) path.now }
    {
        self.tops.attached(path)
    }

    fn rows_at(&self, number: u16) -> &ProfileRows
        requires { number < length self.now.profiles }
        ensures { (p : Profile) → slice_get self.now.profiles number ≡ Some p → IsRight self.now.profiles number p result.now }
    {
        &self.rows[number as usize]
    }

    /// The child of a profile that is attached to a path; none where there is no such profile.
    pub fn attach_child(&self, parent: u16, path: &[u8]) -> Option<u16>
        ensures { result ≡ attached_below parent path.now self.now }
    {
        if parent as usize >= self.policy.profiles.as_slice().len() {
            return None;
        }
        self.rows_at(parent).children.attached(path)
    }

    /// The automaton of the patterns of a profile's file rules.
    pub fn file_automaton(&self, number: u16) -> &Automaton
        requires { number < length self.now.profiles }
        ensures { (p : Profile) → slice_get self.now.profiles number ≡ Some p → IsBuilt (patterns_of p.files) result.now }
    {
        self.rows_at(number).files.automaton()
    }

    /// How many patterns these are.
    pub fn file_patterns(&self, number: u16) -> usize
        requires { number < length self.now.profiles }
        ensures count { (p : Profile) → slice_get self.now.profiles number ≡ Some p → result ≡ length (patterns_of p.files) }
        ensures few { result ≤ most_patterns }
    {
        self.rows_at(number).owners.len()
    }

    /// The automaton of the attachments of the top-level profiles.
    pub fn top_automaton(&self) -> &Automaton
        ensures { IsBuilt (attached_patterns self.now.profiles (tops self.now.profiles)) result.now }
    {
        self.tops.automaton()
    }

    /// How many attachments these are.
    pub fn top_patterns(&self) -> usize
        ensures count { result ≡ length (attached_patterns self.now.profiles (tops self.now.profiles)) }
        ensures few { result ≤ most_patterns }
    {
        self.tops.count()
    }

    /// The automaton of the attachments of a profile's children.
    pub fn child_automaton(&self, parent: u16) -> &Automaton
        requires { parent < length self.now.profiles }
        ensures { IsBuilt (attached_patterns self.now.profiles (children self.now.profiles parent)) result.now }
    {
        self.rows_at(parent).children.automaton()
    }

    /// How many attachments these are.
    pub fn child_patterns(&self, parent: u16) -> usize
        requires { parent < length self.now.profiles }
        ensures count { result ≡ length (attached_patterns self.now.profiles (children self.now.profiles parent)) }
        ensures few { result ≤ most_patterns }
    {
        self.rows_at(parent).children.count()
    }

    /// How many states the automaton of a profile's file rules has; none where there is no such profile.
    pub fn states(&self, number: u16) -> usize
        ensures states { (p : Profile) (n : ℕ) → slice_get self.now.profiles number ≡ Some p → HasStates (patterns_of p.files) n ↔ (n ≡ result) }
        ensures none { length self.now.profiles ≤ number → result ≡ 0 }
    {
        if number as usize >= self.policy.profiles.as_slice().len() {
            return 0;
        }
        self.rows_at(number).files.states()
    }

    /// The numbers of the file rules of a profile of which some pattern matches the path, rising; none where there is no such profile.
    /// One walk, and one look at a row: no other rule is looked at.
    pub fn rules_matching(
        &self,
        alloc: Global,
        number: u16,
        path: &[u8],
    ) -> Result<Vec<usize>, AllocError>
        ensures { IfOk result (λ rules. rules.items ≡ rules_matching self.now.profiles number path.now) }
    {
        if number as usize >= self.policy.profiles.as_slice().len() {
            return Ok(Vec::new(alloc));
        }
        let rows = self.rows_at(number);
        rules_of(alloc, rows.owners.as_slice(), rows.files.matching(path))
    }

    /// What the file rules of a profile say of an object: one walk, and one look at a row.
    pub fn verdict(&self, number: u16, path: &[u8], owned: bool) -> Verdict
        requires { number < length self.now.profiles }
        ensures { (p : Profile) → slice_get self.now.profiles number ≡ Some p → IsVerdictOf (way_by p.files) p.files path.now owned result }
    {
        self.rows_at(number).files.verdict(path, owned)
    }

    /// The profile that a way to execute leads to, if it is found.
    #[tactic(auto, using(crate::proofs::Below::there))]
    fn found(&self, number: u16, path: &[u8], way: Way) -> Option<u16>
        requires number { number < length self.now.profiles }
        requires target { (p : Profile) (t : ℕ) → slice_get self.now.profiles number ≡ Some p → way.target ≡ Some t → t < length p.files }
        ensures { (p : Profile) → slice_get self.now.profiles number ≡ Some p → result ≡ found_in self.now.profiles number p path.now way }
    {
        let rows = self.rows_at(number);
        match (way.kind, way.target) {
            (ExecKind::Profile, Some(target)) => rows.targets_at(target).profile,
            (ExecKind::Profile, None) => self.attach(path),
            (ExecKind::Child, Some(target)) => rows.targets_at(target).child,
            (ExecKind::Child, None) if self.is_child(number) => None,
            (ExecKind::Child, None) => self.attach_child(number, path),
            _ => None,
        }
    }

    fn is_child(&self, number: u16) -> bool
        requires { number < length self.now.profiles }
        ensures { (p : Profile) → slice_get self.now.profiles number ≡ Some p → result ≡ is_some p.parent }
    {
        self.policy.profiles.as_slice()[number as usize]
            .parent
            .is_some()
    }

    /// Where an execution by a task in a profile leads.
    pub fn transition(&self, number: u16, path: &[u8], owned: bool, verdict: Verdict) -> Transition
        requires number { number < length self.now.profiles }
        requires verdict { (p : Profile) → slice_get self.now.profiles number ≡ Some p → IsVerdictOf (way_by p.files) p.files path.now owned verdict }
        ensures { (p : Profile) → slice_get self.now.profiles number ≡ Some p → result ≡ transition self.now.profiles number p path.now owned }
    {
        if verdict.sets.deny.contains(Perms::EXEC) {
            return Transition::Denied;
        }
        match verdict.chosen.way {
            Some(way) => lead(way, number, self.found(number, path, way)),
            None => Transition::Nowhere,
        }
    }
}
