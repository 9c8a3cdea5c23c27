//! The second pass: gives what is written its meaning, path by path.

ghost use Rattle.std.specs.Prelude.{◌≡◌, ◌≢◌, ◌++◌, List, flat_map, map, option_map, IfOk, IfErr, OnOk};
ghost use Rattle.std.specs.List.{AllZip};
ghost use Rattle.aa_model.specs.declared.rule.FileRule.{FileRule};
ghost use Rattle.aa_model.specs.declared.policy.Profile.{Profile};
ghost use Rattle.aa_policy.specs.Expansion.{AsPath, StandsFor, IsRefused, IsFirstRefused};
ghost use Rattle.aa_policy.specs.Faults.{IsPathRefusal};
ghost use Rattle.aa_policy.specs.Keeping.{KeepsRules, KeepsProfile, KeepsProfiles, read_profile};
ghost use Rattle.aa_policy.specs.Bodies.{full_name, profile_data, tree_data};
ghost use Rattle.aa_policy.specs.Heads.{attachment_data};
ghost use Rattle.aa_rules.specs.Reading.{target_data, exec_data, file_data, rule_data};
ghost use Rattle.aa_policy.specs.Spelling.{AttachesTo, MeansRule, MeansChange, MeansProfile, MeansProfiles, exec_meant, on_file, files_of, cap_rules_of, net_rules_of, changes_of, paths_of_rules, attachment_paths, rule_paths, profile_paths, paths_of};

use crate::access::{cap_rules, net_rules};
use crate::changes::change_rules;
use crate::heads::AttachmentTree;
use crate::limits::{
    KeptProfiles, KeptRules, ReadProfile, no_profiles, no_rules, push_profile, push_rule,
};
use crate::refusal::refusal_at;
use crate::tree::ProfileTree;
use aa_base::{PolicyFault, PolicyKind, Seq, Spot, Text};
use aa_glob::{Vars, expand};
use aa_model::{CapRule, ChangeRule, Exec, FileRule, NetRule, Profile};
use aa_pattern::Pattern;
use aa_rules::{ExecTree, FileTree, RuleTree};
use std::alloc::{AllocError, Global};

/// The patterns that a path stands for.
fn patterns_of(
    alloc: Global,
    vars: &Vars,
    path: &[u8],
    at: Spot,
) -> Result<Seq<Pattern>, PolicyFault>
    ensures stands { IfOk result (λ ps. StandsFor vars.now path.now ps) }
    ensures refused { IfErr result (λ e. e.kind ≢ PolicyKind.NoMemory → IsRefused vars.now (record { at = at; text = path.now; way = AsPath }) e) }
    ensures cause { IfErr result IsPathRefusal }
{
    match expand(alloc, vars, path) {
        Ok(patterns) => Ok(Seq::from_vec(patterns)),
        Err(kind) => Err(refusal_at(kind, at)),
    }
}

/// The name behind an arrow.
fn copied_target(alloc: Global, target: Option<&[u8]>) -> Result<Option<Text>, AllocError>
    ensures { IfOk result (λ t. t ≡ target_data target.entry) }
{
    match target {
        Some(name) => Ok(Some(Text::copy_of(alloc, name)?)),
        None => Ok(None),
    }
}

/// How a rule lets a program be executed.
fn exec_meant(alloc: Global, exec: Option<ExecTree>) -> Result<Option<Exec>, AllocError>
    ensures { IfOk result (λ e. e ≡ option_map exec_meant (option_map exec_data exec.entry)) }
{
    let Some(exec) = exec else {
        return Ok(None);
    };
    Ok(Some(Exec {
        kind: exec.mode.kind,
        scrub: exec.mode.scrub,
        fallback: exec.mode.fallback,
        target: copied_target(alloc, exec.target)?,
    }))
}

/// What a file rule says.
fn file_rule(alloc: Global, vars: &Vars, file: &FileTree) -> Result<FileRule, PolicyFault>
    ensures rule { IfOk result (λ r. MeansRule vars.now (file_data file.now) r) }
    ensures refused { IfErr result (λ e. e.kind ≢ PolicyKind.NoMemory → IsRefused vars.now (record { at = file.now.at; text = file.now.path.now; way = AsPath }) e) }
    ensures cause { IfErr result IsPathRefusal }
{
    let patterns = patterns_of(alloc, vars, file.path, file.at)?;
    Ok(FileRule {
        audit: file.qualifiers.audit,
        deny: file.qualifiers.deny,
        owner: file.owner,
        perms: file.perms,
        exec: exec_meant(alloc, file.exec)?,
        patterns,
    })
}

/// Adds what a rule says to the file rules before it, if it is one.
fn push_file_rule(
    alloc: Global,
    vars: &Vars,
    rule: &RuleTree,
    found: &mut KeptRules,
) -> Result<(), PolicyFault>
    ensures rule { OnOk result ((rs : List FileRule) × AllZip (MeansRule vars.now) (on_file (rule_data rule.now)) rs
        × ((spelled : List FileRule) → KeepsRules spelled found.old → KeepsRules (spelled ++ rs) found.new)) }
    ensures refused { IfErr result (λ e. e.kind ≢ PolicyKind.NoMemory → IsFirstRefused vars.now (rule_paths (rule_data rule.now)) e) }
    ensures cause { IfErr result IsPathRefusal }
{
    match rule {
        RuleTree::File(file) => {
            push_rule(found, file_rule(alloc, vars, file)?)?;
            Ok(())
        }
        RuleTree::Cap(_) | RuleTree::Net(_) | RuleTree::Change(_) | RuleTree::PassedOver(_) => {
            Ok(())
        }
    }
}

/// What the file rules of a profile say, as far as it is kept.
fn file_rules(alloc: Global, vars: &Vars, rules: &[RuleTree]) -> Result<KeptRules, PolicyFault>
    ensures rules { IfOk result (λ k. (rs : List FileRule) × AllZip (MeansRule vars.now) (files_of (map rule_data rules.now)) rs × KeepsRules rs k) }
    ensures refused { IfErr result (λ e. e.kind ≢ PolicyKind.NoMemory → IsFirstRefused vars.now (flat_map rule_paths (map rule_data rules.now)) e) }
    ensures cause { IfErr result IsPathRefusal }
{
    let mut found = no_rules(alloc, rules.len())?;
    for rule in rules {
        push_file_rule(alloc, vars, rule, &mut found)?;
    }
    Ok(found)
}

/// The patterns that a profile attaches to.
fn attachments_of(
    alloc: Global,
    vars: &Vars,
    attachment: Option<AttachmentTree>,
) -> Result<Seq<Pattern>, PolicyFault>
    ensures attaches { IfOk result (λ ps. AttachesTo vars.now (option_map attachment_data attachment.entry) ps) }
    ensures refused { IfErr result (λ e. e.kind ≢ PolicyKind.NoMemory → IsFirstRefused vars.now (attachment_paths (option_map attachment_data attachment.entry)) e) }
    ensures cause { IfErr result IsPathRefusal }
{
    match attachment {
        Some(attachment) => patterns_of(alloc, vars, attachment.path, attachment.at),
        None => Ok(Seq::from_vec(Vec::new(alloc))),
    }
}

/// The full name of a profile: that of a child is its parent's, `//` and its own.
fn full_name(alloc: Global, tree: &ProfileTree) -> Result<Text, AllocError>
    ensures { IfOk result (λ t. t ≡ full_name tree.now.parent tree.now.head.title.name.now) }
{
    let Some(parent) = tree.parent else {
        return Text::copy_of(alloc, tree.head.title.name);
    };
    let mut name = Vec::from_slice(alloc, parent.name)?;
    name.extend_from_slice("//".as_bytes())?;
    name.extend_from_slice(tree.head.title.name)?;
    Ok(Text::from_vec(name))
}

/// What the rules of a body say whose texts are read.
#[derive(Drop)]
struct Read {
    files: KeptRules,
    changes: Vec<ChangeRule>,
}

/// What the file rules and the rules on changes of profile of a body say.
fn read_rules(alloc: Global, vars: &Vars, rules: &[RuleTree]) -> Result<Read, PolicyFault>
    ensures files { IfOk result (λ r. (rs : List FileRule) × AllZip (MeansRule vars.now) (files_of (map rule_data rules.now)) rs × KeepsRules rs r.files) }
    ensures changes { IfOk result (λ r. AllZip MeansChange (changes_of (map rule_data rules.now)) r.changes.items) }
    ensures refused { IfErr result (λ e. e.kind ≢ PolicyKind.NoMemory → IsFirstRefused vars.now (paths_of_rules (map rule_data rules.now)) e) }
    ensures cause { IfErr result IsPathRefusal }
{
    let files = file_rules(alloc, vars, rules)?;
    let changes = change_rules(alloc, rules)?;
    Ok(Read { files, changes })
}

/// What the rules of a body say, as far as it is kept.
#[derive(Drop)]
struct BodyRules {
    read: Read,
    caps: Vec<CapRule>,
    nets: Vec<NetRule>,
}

/// What the rules of a body say, as far as it is kept.
fn body_rules(alloc: Global, vars: &Vars, rules: &[RuleTree]) -> Result<BodyRules, PolicyFault>
    ensures files { IfOk result (λ r. (rs : List FileRule) × AllZip (MeansRule vars.now) (files_of (map rule_data rules.now)) rs × KeepsRules rs r.read.files) }
    ensures changes { IfOk result (λ r. AllZip MeansChange (changes_of (map rule_data rules.now)) r.read.changes.items) }
    ensures caps { IfOk result (λ r. r.caps.items ≡ flat_map cap_rules_of (map rule_data rules.now)) }
    ensures nets { IfOk result (λ r. r.nets.items ≡ flat_map net_rules_of (map rule_data rules.now)) }
    ensures refused { IfErr result (λ e. e.kind ≢ PolicyKind.NoMemory → IsFirstRefused vars.now (paths_of_rules (map rule_data rules.now)) e) }
    ensures cause { IfErr result IsPathRefusal }
{
    let read = read_rules(alloc, vars, rules)?;
    let caps = cap_rules(alloc, rules)?;
    let nets = net_rules(alloc, rules)?;
    Ok(BodyRules { read, caps, nets })
}

/// The profile of these parts.
fn read_profile(
    tree: &ProfileTree,
    name: Text,
    attachments: Seq<Pattern>,
    rules: BodyRules,
) -> ReadProfile
    ensures { result ≡ read_profile tree.now name attachments rules }
{
    let BodyRules { read, caps, nets } = rules;
    let Read { files, changes } = read;
    let profile = Profile {
        at: tree.head.title.at,
        name,
        parent: tree.parent.and_then(|parent| parent.number),
        attachments,
        complain: tree.head.flags.complain,
        audit: tree.head.flags.audit,
        files: Seq::from_vec(files.rules),
        caps: Seq::from_vec(caps),
        nets: Seq::from_vec(nets),
        changes: Seq::from_vec(changes),
    };
    ReadProfile {
        profile,
        over: files.over,
    }
}

/// What a profile says, as far as it is kept.
fn profile(alloc: Global, vars: &Vars, tree: &ProfileTree) -> Result<ReadProfile, PolicyFault>
    ensures profile { IfOk result (λ r. (p : Profile) × MeansProfile vars.now (profile_data tree.now) p × KeepsProfile p r) }
    ensures refused { IfErr result (λ e. e.kind ≢ PolicyKind.NoMemory → IsFirstRefused vars.now (profile_paths (profile_data tree.now)) e) }
    ensures cause { IfErr result IsPathRefusal }
{
    let attachments = attachments_of(alloc, vars, tree.head.title.attachment)?;
    let rules = body_rules(alloc, vars, tree.rules.as_slice())?;
    let name = full_name(alloc, tree)?;
    Ok(read_profile(tree, name, attachments, rules))
}

/// What the profiles say, as far as it is kept.
pub fn profiles(
    alloc: Global,
    vars: &Vars,
    tree: &[ProfileTree],
) -> Result<KeptProfiles, PolicyFault>
    ensures profiles { IfOk result (λ k. (ps : List Profile) × MeansProfiles vars.now (tree_data tree.now) ps × KeepsProfiles ps k) }
    ensures refused { IfErr result (λ e. e.kind ≢ PolicyKind.NoMemory → IsFirstRefused vars.now (paths_of (tree_data tree.now)) e) }
    ensures cause { IfErr result IsPathRefusal }
{
    let mut found = no_profiles(alloc, tree.len())?;
    for one in tree {
        push_profile(alloc, &mut found, profile(alloc, vars, one)?)?;
    }
    Ok(found)
}
