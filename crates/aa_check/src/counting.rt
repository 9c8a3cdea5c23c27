//! What is counted of a policy.

ghost use Rattle.std.specs.Prelude.{◌≡◌, ◌+◌, ◌^◌, ◌<◌, ◌≤◌, ◌==◌, ℕ, Some, map, length, replicate, slice_get, slice_index, sum_by, count_by, IfOk, if◌then◌else◌};
ghost use Rattle.std.specs.List.{list_any};
ghost use Rattle.std.specs.Str.{bytes_eq};
ghost use Rattle.aa_model.specs.Limits.{most_patterns};
ghost use Rattle.aa_model.specs.Lawful.{file_patterns};
ghost use Rattle.aa_model.specs.declared.policy.Profile.{Profile};
ghost use Rattle.aa_compile.specs.Rows.{patterns_of};
ghost use Rattle.aa_compile.specs.States.{HasStates};
ghost use Rattle.aa_files.specs.declared.unit.Unit as unit;
ghost use Rattle.aa_check.specs.Counts.{line_at, passed_in, IsCounted, EachIsCounted, times, keyword_counts, passed_data, CountsPolicy};

use crate::lines::LineCount;
use crate::report::{Passed, ProfileReport};
use aa_compile::Compiled;
use aa_files::Unit;
use aa_model::{PassedOver, Profile};
use std::alloc::{AllocError, Global};

/// What is counted of a policy.
#[derive(Drop)]
pub(crate) struct PolicyCounts {
    pub profiles: Vec<ProfileReport>,
    pub passed_over: Vec<Passed>,
}

/// How many patterns the file rules of a profile have: no policy's profile has more than 65,535.
fn patterns_of(profile: &Profile) -> usize
    requires { file_patterns profile.now ≤ most_patterns }
    ensures { result ≡ file_patterns profile.now }
{
    let mut count: usize = 0;
    for rule in profile.files.as_slice() {
        count += rule.patterns.as_slice().len();
    }
    count
}

/// How many states the automaton of the file rules of a profile has.
fn states_of(compiled: &Compiled, number: usize) -> usize
    requires { number < 65536 }
    ensures { (p : Profile) → slice_get compiled.now.profiles number ≡ Some p → HasStates (patterns_of p.files) result }
{
    compiled.states(number as u16)
}

/// Counts one more rule of the profile of that number, if there is one.
fn count_rule(counts: &mut [usize], number: usize)
    requires { number < length counts.old → slice_index counts.old number < 2 ^ 63 }
    ensures { (n : ℕ) → n < length counts.old → slice_index counts.new n ≡ slice_index counts.old n + (if number == n then 1 else 0) }
{
    if number < counts.len() {
        counts[number] += 1;
    }
}

/// How many of the rules that are passed over each profile has.
fn passed_of(alloc: Global, rules: &[PassedOver], many: usize) -> Result<Vec<usize>, AllocError>
    ensures many { IfOk result (λ counts. length counts.items ≡ many) }
    ensures each { IfOk result (λ counts. (n : ℕ) → n < many → slice_index counts.items n ≡ passed_in rules.now n) }
{
    let mut counts = vec![in alloc; 0; many]?;
    for rule in rules {
        count_rule(&mut counts, rule.profile as usize);
    }
    Ok(counts)
}

/// What is counted of the profile of that number.
fn profile_report(
    alloc: Global,
    compiled: &Compiled,
    number: usize,
    profile: &Profile,
    line: usize,
    passed_over: usize,
) -> Result<ProfileReport, AllocError>
    requires number { number < 65536 }
    requires there { slice_get compiled.now.profiles number ≡ Some profile.now }
    requires few { file_patterns profile.now ≤ most_patterns }
    requires counted { passed_over ≡ passed_in compiled.now.passed_over number }
    ensures { (u : unit.Unit) → line ≡ line_at u profile.now.at → IfOk result (λ r. IsCounted u compiled.now.passed_over number profile.now r) }
{
    Ok(ProfileReport {
        name: Vec::from_slice(alloc, profile.name.as_slice())?,
        line,
        files: profile.files.as_slice().len(),
        caps: profile.caps.as_slice().len(),
        nets: profile.nets.as_slice().len(),
        patterns: patterns_of(profile),
        states: states_of(compiled, number),
        passed_over,
    })
}

fn is_keyword(rule: &PassedOver, keyword: &[u8]) -> bool
    ensures { result ≡ bytes_eq keyword.now rule.now.kind }
{
    keyword == rule.kind.as_slice()
}

/// How many of the rules have that keyword.
fn times(rules: &[PassedOver], keyword: &[u8]) -> usize
    ensures { result ≡ times rules.now keyword.now }
{
    rules
        .iter()
        .filter(|rule| is_keyword(rule, keyword))
        .count()
}

fn is_named(passed: &Passed, keyword: &[u8]) -> bool
    ensures { result ≡ bytes_eq passed.now.keyword.items keyword.now }
{
    passed.keyword.as_slice() == keyword
}

fn is_known(passed: &[Passed], keyword: &[u8]) -> bool
    ensures { result ≡ list_any (λ p. bytes_eq p.keyword.items keyword.now) passed.now }
{
    passed.iter().any(|one| is_named(one, keyword))
}

/// Each keyword once, in the order in which they first come, with how many rules have it.
fn keywords_of(alloc: Global, rules: &[PassedOver]) -> Result<Vec<Passed>, AllocError>
    ensures { IfOk result (λ passed. map passed_data passed.items ≡ keyword_counts rules.now) }
{
    let mut passed = Vec::new(alloc);
    for rule in rules {
        let keyword = rule.kind.as_slice();
        if !is_known(passed.as_slice(), keyword) {
            passed.push(Passed {
                keyword: Vec::from_slice(alloc, keyword)?,
                count: times(rules, keyword),
            })?;
        }
    }
    Ok(passed)
}

/// What is counted of each profile, in order.
fn count_profiles(
    alloc: Global,
    unit: &Unit,
    compiled: &Compiled,
    passed: &[usize],
) -> Result<Vec<ProfileReport>, AllocError>
    requires many { length passed.now ≡ length compiled.now.profiles }
    requires each { (n : ℕ) → n < length passed.now → slice_index passed.now n ≡ passed_in compiled.now.passed_over n }
    ensures many { IfOk result (λ reports. length reports.items ≡ length compiled.now.profiles) }
    ensures each { IfOk result (λ reports. EachIsCounted unit.now compiled.now.passed_over compiled.now.profiles reports.items) }
{
    let mut reports = Vec::new(alloc);
    let mut count = LineCount::at_start();
    for (number, profile) in compiled.policy().profiles.as_slice().iter().enumerate() {
        count = count.moved(unit, profile.at);
        let line = count.line;
        reports.push(profile_report(alloc, compiled, number, profile, line, passed[number])?)?;
    }
    Ok(reports)
}

/// What is counted of a unit's policy.
pub(crate) fn count_policy(
    alloc: Global,
    unit: &Unit,
    compiled: &Compiled,
) -> Result<PolicyCounts, AllocError>
    ensures { IfOk result (λ counts. CountsPolicy unit.now compiled.now counts.profiles.items counts.passed_over.items) }
{
    let policy = compiled.policy();
    let rules = policy.passed_over.as_slice();
    let passed = passed_of(alloc, rules, policy.profiles.as_slice().len())?;
    Ok(PolicyCounts {
        profiles: count_profiles(alloc, unit, compiled, passed.as_slice())?,
        passed_over: keywords_of(alloc, rules)?,
    })
}
