//! By what a claim is broken at a label.

ghost use Rattle.std.specs.Prelude.{◌≡◌, [], ◌∷◌, map, option_map, IfOk, IfErr};
ghost use Rattle.aa_load.specs.UnitPolicy.{limit_of};
ghost use Rattle.aa_ask.specs.Verdicts.{profile_at};
ghost use Rattle.aa_quantifiers.specs.Aims.{IsMet};
ghost use Rattle.aa_who.specs.Untold.{untold, untold_at};
ghost use Rattle.aa_claims.specs.Faults.{SaysAt};
ghost use Rattle.aa_undecided.specs.Answers.{placed_all};
ghost use Rattle.aa_assert.specs.Findings.{found, all_found, could_change, files_changing_in, files_changing, or_else, told_unless, broken_by, counts, broken_if, untold_by, judged_found, IsFoundOf, files_on_way, by_way, by_unclean_way, passed_by, way_counts, passed_if, untold_past, clean_untold_past, untold_of, passage_found, IsFoundOfPassage, complaining_in, complaining_found, IsFoundAt};
ghost use Rattle.aa_assert.specs.Refused.{fault_of, IsNoPath, AsksNoPath};

use crate::asked::Asked;
use crate::enforced::{complains_at, verdict_of};
use crate::judging::{Judgement, judge};
use crate::part::Part;
use crate::passage::{Passage, do_count, passage_of, untold_line};
use crate::way::{Way, next, way_of};
use aa_ask::Verdict;
use aa_claims::{ClaimFault, ClaimWord, Wrong};
use aa_compile::{Compiled, profile_of};
use aa_model::{Label, Profile, Request};
use aa_quantifiers::{Aim, Labels, Word, word_is_open};
use aa_reachability::Why;
use aa_skipped::Skipped;
use aa_unclean_paths::does_request_count;
use aa_undecided::{SkippedAt, all_placed, files_deciding, push_if};
use aa_who::{Untold, WhoFault, push_untold};
use std::alloc::{AllocError, Global};

/// By what a claim is broken.
#[derive(Drop)]
pub(crate) enum Finding {
    /// Whether the profile complains, and the verdict on a request where its rules are enforced.
    ByRequest(bool, Verdict),
    /// Whether the profile complains, and a list of requests that leads where it is claimed that none does.
    ByWay(bool, Way),
    /// The profile of this name, which complains.
    Complaining(Vec<u8>),
}

/// By whom a claim is broken.
#[derive(Drop)]
pub(crate) struct Findings {
    pub(crate) list: Vec<Finding>,
    /// By whom it is broken at unclean paths alone, where these don't count.
    pub(crate) apart: Vec<Finding>,
    /// Those of whom that can't be told.
    pub(crate) untold: Vec<Untold>,
    /// Skipped files that could break it.
    pub(crate) doubt: Vec<SkippedAt>,
}

/// The claim that is answered.
#[derive(Clone, Copy)]
pub(crate) struct Claim<'a> {
    pub(crate) words: &'a [ClaimWord],
    /// The word that says what is claimed.
    pub(crate) word: &'a ClaimWord,
    pub(crate) asked: &'a Asked,
    /// Whether the first is wanted alone by whom it is broken.
    pub(crate) is_first: bool,
    /// How many states an automaton may have.
    pub(crate) states: u32,
}

/// Whether by what is known of a skipped file's profiles these could change what is answered to requests of the word at a label.
fn could_change(
    alloc: Global,
    compiled: &Compiled,
    label: Label,
    word: &Word,
    file: &Skipped,
) -> Result<bool, AllocError>
    ensures { IfOk result (λ could. could ≡ could_change compiled.now.profiles label word.now file.now) }
{
    word_is_open(alloc, compiled, &file.unread, label, word)
}

fn files_changing_in(
    alloc: Global,
    skipped: &[Skipped],
    label: Label,
    word: &Word,
    compiled: &Compiled,
) -> Result<Vec<SkippedAt>, AllocError>
    ensures { IfOk result (λ files. placed_all files.items ≡ files_changing_in skipped.now label word.now compiled.now) }
{
    let mut files = Vec::new(alloc);
    for file in skipped {
        let could = could_change(alloc, compiled, label, word, file)?;
        push_if(alloc, &mut files, could, file)?;
    }
    Ok(files)
}

/// The skipped files that could change what is answered to requests of the word at a label.
fn files_changing(
    alloc: Global,
    part: Part<'_>,
    label: Label,
    word: &Word,
) -> Result<Vec<SkippedAt>, AllocError>
    ensures { IfOk result (λ files. placed_all files.items ≡ files_changing part.entry label word.now) }
{
    match part.decided.policies.get(0) {
        Some(compiled) => files_changing_in(alloc, part.skipped, label, word, compiled),
        None => Ok(Vec::new(alloc)),
    }
}

/// What is told, where no file could decide it.
fn told_unless(
    alloc: Global,
    files: &[SkippedAt],
    finding: Finding,
) -> Result<Vec<Finding>, AllocError>
    ensures { IfOk result (λ list. map found list.items ≡ told_unless (placed_all files.now) (found finding)) }
{
    let mut list = Vec::new(alloc);
    match files {
        [] => list.push(finding)?,
        [_, ..] => {}
    }
    Ok(list)
}

/// The verdict on a request that breaks a claim.
fn broken_by_request(
    alloc: Global,
    part: Part<'_>,
    label: Label,
    request: &Request,
) -> Result<Vec<Finding>, AllocError>
    ensures { IfOk result (λ list. map found list.items ≡ broken_by part.entry label (Judgement.Broken request.now)) }
{
    let verdict = verdict_of(alloc, part.decided, label, request)?;
    let complains = complains_at(part.decided.policies, label);
    let files = files_deciding(alloc, part.decided.policies, part.skipped, label, request)?;
    let finding = Finding::ByRequest(complains, verdict);
    told_unless(alloc, files.as_slice(), finding)
}

/// By what a claim is broken at a label, as it is judged.
fn broken_by(
    alloc: Global,
    part: Part<'_>,
    label: Label,
    judgement: &Judgement,
) -> Result<Vec<Finding>, AllocError>
    ensures { IfOk result (λ list. map found list.items ≡ broken_by part.entry label judgement.now) }
{
    match judgement {
        Judgement::Broken(request) => broken_by_request(alloc, part, label, request),
        Judgement::Holds(_) => Ok(Vec::new(alloc)),
        Judgement::Untold(_) => Ok(Vec::new(alloc)),
    }
}

/// Whether it counts by what a claim is broken: by no request at an unclean path, or such requests count.
fn counts(part: Part<'_>, judgement: &Judgement) -> bool
    ensures { result ≡ counts part.entry judgement.now }
{
    match judgement {
        Judgement::Broken(request) => does_request_count(part.unclean, request),
        Judgement::Holds(_) => true,
        Judgement::Untold(_) => true,
    }
}

/// By what a claim is broken at a label, if that is wanted.
fn broken_if(
    alloc: Global,
    is_wanted: bool,
    part: Part<'_>,
    label: Label,
    judgement: &Judgement,
) -> Result<Vec<Finding>, AllocError>
    ensures { IfOk result (λ list. map found list.items ≡ broken_if is_wanted part.entry label judgement.now) }
{
    if !is_wanted {
        return Ok(Vec::new(alloc));
    }
    broken_by(alloc, part, label, judgement)
}

/// That it can't be told at a label, with the line on why.
fn one_untold(
    alloc: Global,
    policies: &[Compiled],
    label: Label,
    line: &[u8],
) -> Result<Vec<Untold>, AllocError>
    ensures { IfOk result (λ list. map untold list.items ≡ untold_at policies.now label line.now ∷ []) }
{
    let mut list = Vec::new(alloc);
    push_untold(&mut list, alloc, policies, label, line)?;
    Ok(list)
}

/// That it can't be told, where it is judged so.
fn untold_by(
    alloc: Global,
    policies: &[Compiled],
    label: Label,
    judgement: &Judgement,
) -> Result<Vec<Untold>, AllocError>
    ensures { IfOk result (λ list. map untold list.items ≡ untold_by policies.now label judgement.now) }
{
    match judgement {
        Judgement::Broken(_) => Ok(Vec::new(alloc)),
        Judgement::Holds(_) => Ok(Vec::new(alloc)),
        Judgement::Untold(line) => one_untold(alloc, policies, label, line.as_slice()),
    }
}

/// By what a claim is broken at a label, or that it can't be told, and the files that could change the answers.
fn judged_found(
    alloc: Global,
    part: Part<'_>,
    label: Label,
    word: &Word,
    judgement: &Judgement,
) -> Result<Findings, AllocError>
    ensures { IfOk result (λ fs. all_found fs ≡ judged_found part.entry label word.now judgement.now) }
{
    let is_counted = counts(part, judgement);
    Ok(Findings {
        list: broken_if(alloc, is_counted, part, label, judgement)?,
        apart: broken_if(alloc, !is_counted, part, label, judgement)?,
        untold: untold_by(alloc, part.decided.policies, label, judgement)?,
        doubt: files_changing(alloc, part, label, word)?,
    })
}

/// Why a claim isn't answered, by why its word isn't.
fn fault_of(word: &ClaimWord, fault: &WhoFault) -> ClaimFault
    ensures { result ≡ fault_of word.now.at fault.now }
{
    match fault {
        WhoFault::NoMemory => ClaimFault::NoMemory,
        WhoFault::Refused(_) => ClaimFault::At(word.at, Wrong::NoPath),
    }
}

/// What is found at a label of the claim that no request is answered so.
fn found_of(
    alloc: Global,
    part: Part<'_>,
    claim: Claim<'_>,
    label: Label,
    aim: Aim<'_>,
    word: &Word,
) -> Result<Findings, ClaimFault>
    ensures found { IfOk result (λ fs. IsFoundOf part.entry (limit_of claim.entry.states) label (IsMet part.entry.decided.policies.now label aim.entry) word.now claim.entry.word.now.text.items (all_found fs)) }
    ensures refused { IfErr result (λ e. SaysAt (IsNoPath claim.entry.word.now word.now) e) }
{
    match judge(
        alloc,
        part.decided.policies,
        claim.states,
        label,
        aim,
        word,
        claim.word.text.as_slice(),
    ) {
        Ok(judgement) => Ok(judged_found(alloc, part, label, word, &judgement)?),
        Err(fault) => Err(fault_of(claim.word, &fault)),
    }
}

/// The skipped files that could decide the first of these requests, asked one after another, that any could decide.
fn files_on_way(
    alloc: Global,
    part: Part<'_>,
    from: Label,
    requests: &[Request],
) -> Result<Vec<SkippedAt>, AllocError>
    ensures { IfOk result (λ files. placed_all files.items ≡ files_on_way part.entry.decided.policies.now part.entry.skipped.now from requests.now) }
{
    let policies = part.decided.policies;
    let mut label = from;
    let mut rest = requests;
    while let [request, after @ ..] = rest {
        let files = files_deciding(alloc, policies, part.skipped, label, request)?;
        if !files.is_empty() {
            return Ok(files);
        }
        label = next(policies, label, request);
        rest = after;
    }
    Ok(Vec::new(alloc))
}

/// A list of requests that leads a task from a label to another, where no file could decide one of them.
fn by_way(
    alloc: Global,
    part: Part<'_>,
    label: Label,
    requests: &[Request],
) -> Result<Vec<Finding>, AllocError>
    ensures { IfOk result (λ list. map found list.items ≡ by_way part.entry label requests.now) }
{
    let way = way_of(alloc, part.decided.policies, label, requests)?;
    let complains = complains_at(part.decided.policies, label);
    let files = files_on_way(alloc, part, label, requests)?;
    let finding = Finding::ByWay(complains, way);
    told_unless(alloc, files.as_slice(), finding)
}

/// The same, where requests at unclean paths count.
fn by_unclean_way(
    alloc: Global,
    part: Part<'_>,
    label: Label,
    requests: &[Request],
) -> Result<Vec<Finding>, AllocError>
    ensures { IfOk result (λ list. map found list.items ≡ by_unclean_way part.entry label requests.now) }
{
    if !part.unclean {
        return Ok(Vec::new(alloc));
    }
    by_way(alloc, part, label, requests)
}

/// By what the claim is broken that no list of requests leads there.
fn passed_by(
    alloc: Global,
    part: Part<'_>,
    label: Label,
    passage: &Passage,
) -> Result<Vec<Finding>, AllocError>
    ensures { IfOk result (λ list. map found list.items ≡ passed_by part.entry label passage.now) }
{
    match passage {
        Passage::Through(way) => by_way(alloc, part, label, way.as_slice()),
        Passage::Nowhere => Ok(Vec::new(alloc)),
        Passage::Untold(_, _) => Ok(Vec::new(alloc)),
        Passage::CleanUntold(way, _, _) => by_unclean_way(alloc, part, label, way.as_slice()),
    }
}

/// Whether it counts by what the claim is broken that no list of requests leads there: each request of the list does.
fn way_counts(part: Part<'_>, passage: &Passage) -> bool
    ensures { result ≡ way_counts part.entry passage.now }
{
    match passage {
        Passage::Through(way) => do_count(part.unclean, way.as_slice()),
        Passage::Nowhere => true,
        Passage::Untold(_, _) => true,
        Passage::CleanUntold(_, _, _) => true,
    }
}

/// By what it is broken, if that is wanted.
fn passed_if(
    alloc: Global,
    is_wanted: bool,
    part: Part<'_>,
    label: Label,
    passage: &Passage,
) -> Result<Vec<Finding>, AllocError>
    ensures { IfOk result (λ list. map found list.items ≡ passed_if is_wanted part.entry label passage.now) }
{
    if !is_wanted {
        return Ok(Vec::new(alloc));
    }
    passed_by(alloc, part, label, passage)
}

/// That it can't be told, since it isn't told at a label where requests lead on.
fn untold_past(
    alloc: Global,
    policies: &[Compiled],
    states: u32,
    label: Label,
    at: Label,
    why: Why,
) -> Result<Vec<Untold>, AllocError>
    ensures { IfOk result (λ list. map untold list.items ≡ untold_past policies.now (limit_of states) label at why) }
{
    let line = untold_line(alloc, policies, states, at, why)?;
    one_untold(alloc, policies, label, line.as_slice())
}

/// The same of requests at clean paths, where those at unclean ones don't count.
fn clean_untold_past(
    alloc: Global,
    part: Part<'_>,
    states: u32,
    label: Label,
    at: Label,
    why: Why,
) -> Result<Vec<Untold>, AllocError>
    ensures { IfOk result (λ list. map untold list.items ≡ clean_untold_past part.entry (limit_of states) label at why) }
{
    if part.unclean {
        return Ok(Vec::new(alloc));
    }
    untold_past(alloc, part.decided.policies, states, label, at, why)
}

/// That it can't be told whether a task comes to some labels, where that is so.
fn untold_of(
    alloc: Global,
    part: Part<'_>,
    states: u32,
    label: Label,
    passage: &Passage,
) -> Result<Vec<Untold>, AllocError>
    ensures { IfOk result (λ list. map untold list.items ≡ untold_of part.entry (limit_of states) label passage.now) }
{
    let policies = part.decided.policies;
    match passage {
        Passage::Through(_) => Ok(Vec::new(alloc)),
        Passage::Nowhere => Ok(Vec::new(alloc)),
        Passage::Untold(at, why) => untold_past(alloc, policies, states, label, *at, *why),
        Passage::CleanUntold(_, at, why) => {
            clean_untold_past(alloc, part, states, label, *at, *why)
        }
    }
}

/// By what the claim is broken, or at unclean paths alone, or that it can't be told; and each skipped file, which could lead the task further.
fn passage_found(
    alloc: Global,
    part: Part<'_>,
    states: u32,
    label: Label,
    passage: &Passage,
) -> Result<Findings, AllocError>
    ensures { IfOk result (λ fs. all_found fs ≡ passage_found part.entry (limit_of states) label passage.now) }
{
    let is_counted = way_counts(part, passage);
    Ok(Findings {
        list: passed_if(alloc, is_counted, part, label, passage)?,
        apart: passed_if(alloc, !is_counted, part, label, passage)?,
        untold: untold_of(alloc, part, states, label, passage)?,
        doubt: all_placed(alloc, part.skipped)?,
    })
}

/// What is found of the claim that a task with that label comes to none of these.
fn reached_found(
    alloc: Global,
    part: Part<'_>,
    states: u32,
    label: Label,
    labels: &Labels,
) -> Result<Findings, AllocError>
    ensures { IfOk result (λ fs. IsFoundOfPassage part.entry (limit_of states) label labels.now (all_found fs)) }
{
    let passage = passage_of(alloc, part.decided.policies, states, label, labels)?;
    passage_found(alloc, part, states, label, &passage)
}

/// The profile of a label, if it has one.
fn profile_at(policies: &[Compiled], label: Label) -> Option<&Profile>
    ensures { option_map (λ p. p.now) result ≡ profile_at policies.now label }
{
    match label {
        Label::Unconfined(_) => None,
        Label::Confined(policy, number) => profile_of(policies, policy, number),
    }
}

/// A profile, if it complains.
fn complaining_in(alloc: Global, profile: Option<&Profile>) -> Result<Vec<Finding>, AllocError>
    ensures { IfOk result (λ list. map found list.items ≡ complaining_in (option_map (λ p. p.now) profile.entry)) }
{
    let mut list = Vec::new(alloc);
    let Some(profile) = profile else {
        return Ok(list);
    };
    if profile.complain {
        let name = Vec::from_slice(alloc, profile.name.as_slice())?;
        list.push(Finding::Complaining(name))?;
    }
    Ok(list)
}

/// What is found of the claim that no profile complains.
fn complaining_found(
    alloc: Global,
    policies: &[Compiled],
    label: Label,
) -> Result<Findings, AllocError>
    ensures { IfOk result (λ fs. all_found fs ≡ complaining_found policies.now label) }
{
    Ok(Findings {
        list: complaining_in(alloc, profile_at(policies, label))?,
        apart: Vec::new(alloc),
        untold: Vec::new(alloc),
        doubt: Vec::new(alloc),
    })
}

/// What is found of a claim at a label. Refused where its word asks nothing.
pub(crate) fn found_at(
    alloc: Global,
    part: Part<'_>,
    claim: Claim<'_>,
    label: Label,
) -> Result<Findings, ClaimFault>
    ensures found { IfOk result (λ fs. IsFoundAt part.entry (limit_of claim.entry.states) claim.entry.asked.now claim.entry.word.now.text.items label (all_found fs)) }
    ensures refused { IfErr result (λ e. SaysAt (AsksNoPath claim.entry.word.now claim.entry.asked.now) e) }
{
    let policies = part.decided.policies;
    match claim.asked {
        Asked::Never(word) => found_of(alloc, part, claim, label, Aim::Answered(true), word),
        Asked::Leads(word, labels) => found_of(alloc, part, claim, label, Aim::Led(labels), word),
        Asked::Always(word) => found_of(alloc, part, claim, label, Aim::Answered(false), word),
        Asked::Reaches(labels) => Ok(reached_found(alloc, part, claim.states, label, labels)?),
        Asked::Enforced => Ok(complaining_found(alloc, policies, label)?),
    }
}
