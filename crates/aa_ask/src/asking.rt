//! What `ask` answers.

ghost use Rattle.std.specs.Prelude.{◌≡◌, ◌++◌, codes, map, flat_map, option_map, option_and_then, false, not, OnOk, IfOk};
ghost use Rattle.aa_compile.specs.Labels.{label_named};
ghost use Rattle.std.specs.List.{list_any};
ghost use Rattle.aa_mediate.specs.Reply.{reply};
ghost use Rattle.aa_notation.specs.Kinds.{request_in};
ghost use Rattle.aa_ask.specs.Told.{told, verdict_on};
ghost use Rattle.aa_ask.specs.Asked.{said_of, listed_profile, listed_profiles, which_profile, changed_to, name_in_digits, label_called, label_by_name, label_by_program, only_label, opening, no_request, request_of, requests_of, in_sequence, verdicts_on, answers, Gives};
ghost use Rattle.aa_ask.specs.Words.{texts};

use crate::verdict::{Verdict, decide};
use aa_command::Decided;
use aa_compile::{Compiled, label_of};
use aa_machine::Machine;
use aa_mediate::Mediator;
use aa_model::{Label, Profile, Request};
use aa_notation::{WordFault, read_word, word_refusal};
use aa_text::{NoMemory, push_name, push_text, push_visible};
use std::alloc::{AllocError, Global};

/// Why requests aren't answered.
#[derive(Drop)]
pub enum AskFault {
    NoMemory,
    /// What is said of it.
    Refused(Vec<u8>),
}

impl From<AllocError> for AskFault {
    ghost use Rattle.std.specs.Prelude.{◌≡◌};
    ghost use Rattle.aa_ask.specs.declared.asking.AskFault.TheVariants as fault;

    ghost from_gives = { λ _ e. e ≡ fault.NoMemory };

    fn from(_e: AllocError) -> AskFault {
        AskFault::NoMemory
    }
}

impl<T: Drop> From<std::alloc::AllocFailed<T>> for AskFault {
    ghost use Rattle.std.specs.Prelude.{◌≡◌};
    ghost use Rattle.aa_ask.specs.declared.asking.AskFault.TheVariants as fault;

    ghost from_gives = { λ _ e. e ≡ fault.NoMemory };

    fn from(_e: std::alloc::AllocFailed<T>) -> AskFault {
        AskFault::NoMemory
    }
}

impl From<NoMemory> for AskFault {
    fn from(_e: NoMemory) -> AskFault {
        AskFault::NoMemory
    }
}

/// How requests are asked.
#[derive(Clone, Copy, Debug)]
pub struct Manner<'a> {
    /// The name of the profile that asks, where it is given.
    pub profile: Option<&'a [u8]>,
    /// The path of the program that asks, where it is given and the profile isn't.
    pub program: Option<&'a [u8]>,
    /// Whether every object is the task's user's.
    pub owned: bool,
    /// Whether the requests are one task's.
    pub is_sequence: bool,
}

/// A sentence about a name, in one line.
fn said_of(alloc: Global, sentence: &str, name: &[u8]) -> Result<Vec<u8>, AllocError>
    ensures { IfOk result (λ line. line.items ≡ said_of sentence.now name.now) }
{
    let mut line = Vec::from_slice(alloc, sentence.as_bytes())?;
    push_visible(&mut line, name)?;
    push_text(&mut line, "\n")?;
    Ok(line)
}

pub(crate) fn push_profile(
    out: &mut Vec<u8>,
    alloc: Global,
    profile: &Profile,
) -> Result<(), AllocError>
    ensures { OnOk result (out.new.items ≡ out.old.items ++ listed_profile profile.now) }
{
    push_text(out, " ")?;
    push_name(out, alloc, profile.name.as_slice())
}

fn push_profiles(out: &mut Vec<u8>, alloc: Global, profiles: &[Profile]) -> Result<(), AllocError>
    ensures { OnOk result (out.new.items ≡ out.old.items ++ flat_map listed_profile profiles.now) }
{
    for profile in profiles {
        push_profile(out, alloc, profile)?;
    }
    Ok(())
}

fn push_profiles_of(out: &mut Vec<u8>, alloc: Global, compiled: &Compiled) -> Result<(), AllocError>
    ensures { OnOk result (out.new.items ≡ out.old.items ++ listed_profiles compiled.now) }
{
    push_profiles(out, alloc, compiled.policy().profiles.as_slice())
}

fn push_all_profiles(
    out: &mut Vec<u8>,
    alloc: Global,
    policies: &[Compiled],
) -> Result<(), AllocError>
    ensures { OnOk result (out.new.items ≡ out.old.items ++ flat_map listed_profiles policies.now) }
{
    for compiled in policies {
        push_profiles_of(out, alloc, compiled)?;
    }
    Ok(())
}

/// What is said where it isn't told which of several profiles asks.
fn which_profile(alloc: Global, policies: &[Compiled]) -> Result<Vec<u8>, AllocError>
    ensures { IfOk result (λ line. line.items ≡ which_profile policies.now) }
{
    let mut line = Vec::new(alloc);
    push_text(
        &mut line,
        "error: --profile NAME tells which profile asks, or --program PATH:",
    )?;
    push_all_profiles(&mut line, alloc, policies)?;
    push_text(&mut line, "\n")?;
    Ok(line)
}

/// The word that asks to change to the profile whose name stands in hexadecimal digits.
fn change_word(alloc: Global, digits: &[u8]) -> Result<Vec<u8>, AllocError>
    ensures { IfOk result (λ word. word.items ≡ codes "change=" ++ digits.now) }
{
    let mut word = Vec::from_slice(alloc, "change=".as_bytes())?;
    word.extend_from_slice(digits)?;
    Ok(word)
}

/// The name that a request to change to it asks for, copied.
fn changed_to(alloc: Global, request: &Request) -> Result<Option<Vec<u8>>, AllocError>
    ensures { IfOk result (λ name. option_map (λ n. n.items) name ≡ changed_to request.now) }
{
    match request {
        Request::Change(change) => Ok(Some(Vec::from_slice(alloc, change.name())?)),
        _ => Ok(None),
    }
}

/// The name that stands in hexadecimal digits, as names are printed that hold other bytes.
#[tactic(auto, unfolding(crate::specs::Asked::name_in_digits))]
pub fn name_in_digits(alloc: Global, digits: &[u8]) -> Result<Option<Vec<u8>>, AllocError>
    ensures { IfOk result (λ name. option_map (λ n. n.items) name ≡ name_in_digits digits.now) }
{
    let word = change_word(alloc, digits)?;
    match read_word(alloc, word.as_slice(), false) {
        Ok(request) => changed_to(alloc, &request),
        Err(WordFault::NoRequest) => Ok(None),
        Err(WordFault::NoMemory) => Err(AllocError),
    }
}

pub(crate) fn label_in_digits(
    alloc: Global,
    policies: &[Compiled],
    digits: &[u8],
) -> Result<Option<Label>, AllocError>
    ensures { IfOk result (λ label. label ≡ option_and_then (label_named policies.now 0) (name_in_digits digits.now)) }
{
    match name_in_digits(alloc, digits)? {
        Some(name) => Ok(label_of(policies, 0, name.as_slice())),
        None => Ok(None),
    }
}

/// The label of a profile by its name, or else of the one whose name stands so in hexadecimal digits.
fn label_called(
    alloc: Global,
    policies: &[Compiled],
    name: &[u8],
) -> Result<Option<Label>, AllocError>
    ensures { IfOk result (λ label. label ≡ label_called policies.now name.now) }
{
    match label_of(policies, 0, name) {
        Some(label) => Ok(Some(label)),
        None => label_in_digits(alloc, policies, name),
    }
}

/// The same, or what is said where there is none.
fn label_by_name(alloc: Global, policies: &[Compiled], name: &[u8]) -> Result<Label, AskFault>
    ensures { Gives (λ label. label) result (label_by_name policies.now name.now) }
{
    match label_called(alloc, policies, name)? {
        Some(label) => Ok(label),
        None => { Err(AskFault::Refused(said_of(alloc, "error: no profile is called ", name)?)) }
    }
}

/// The label of an unconfined task that has executed a program.
fn label_after(policies: &[Compiled], request: &Request) -> Label
    ensures { result ≡ (reply policies.now (Label.Unconfined 0) request.now).label }
{
    let mut label = Label::Unconfined(0);
    Mediator::new(policies).step(&mut label, request).label
}

/// The word that asks to execute a program.
pub fn exec_word(alloc: Global, path: &[u8]) -> Result<Vec<u8>, AllocError>
    ensures { IfOk result (λ word. word.items ≡ codes "x:" ++ path.now) }
{
    let mut word = Vec::from_slice(alloc, "x:".as_bytes())?;
    word.extend_from_slice(path)?;
    Ok(word)
}

/// The label under which a program runs that an unconfined task has executed; none where no program has that path.
fn label_of_program(
    alloc: Global,
    policies: &[Compiled],
    path: &[u8],
) -> Result<Option<Label>, AllocError>
    ensures { IfOk result (λ label. label ≡ option_map (λ r. (reply policies.now (Label.Unconfined 0) r).label) (request_in false (codes "x:" ++ path.now))) }
{
    let word = exec_word(alloc, path)?;
    match read_word(alloc, word.as_slice(), false) {
        Ok(request) => Ok(Some(label_after(policies, &request))),
        Err(WordFault::NoRequest) => Ok(None),
        Err(WordFault::NoMemory) => Err(AllocError),
    }
}

/// The same, or what is said where no program has that path.
pub(crate) fn label_by_program(
    alloc: Global,
    policies: &[Compiled],
    path: &[u8],
) -> Result<Label, AskFault>
    ensures { Gives (λ label. label) result (label_by_program policies.now path.now) }
{
    match label_of_program(alloc, policies, path)? {
        Some(label) => Ok(label),
        None => {
            Err(AskFault::Refused(said_of(alloc, "error: no program has this path: ", path)?))
        }
    }
}

/// The label of the only profile.
fn only_label(alloc: Global, decided: Decided<'_>) -> Result<Label, AskFault>
    ensures { Gives (λ label. label) result (only_label decided.entry) }
{
    if decided.places.len() == 1 {
        return Ok(Label::Confined(0, 0));
    }
    Err(AskFault::Refused(which_profile(alloc, decided.policies)?))
}

/// The label under which is asked. Refused where it isn't told which profile asks, or where there is no such profile or program.
pub fn opening_label(
    alloc: Global,
    decided: Decided<'_>,
    manner: Manner<'_>,
) -> Result<Label, AskFault>
    ensures { Gives (λ label. label) result (opening decided.entry manner.entry) }
{
    if let Some(name) = manner.profile {
        return label_by_name(alloc, decided.policies, name);
    }
    if let Some(path) = manner.program {
        return label_by_program(alloc, decided.policies, path);
    }
    only_label(alloc, decided)
}

/// What is said of a word that is no request.
#[tactic(auto, unfolding(crate::specs::Asked::no_request))]
fn no_request(alloc: Global, word: &[u8]) -> Result<Vec<u8>, AllocError>
    ensures { IfOk result (λ line. line.items ≡ no_request word.now) }
{
    let mut line = Vec::from_slice(alloc, "error: this is no request: ".as_bytes())?;
    push_visible(&mut line, word)?;
    push_text(&mut line, ": ")?;
    push_visible(&mut line, word_refusal(alloc, word)?.as_slice())?;
    push_text(&mut line, "\n")?;
    Ok(line)
}

/// The request that a word is.
fn request_of(alloc: Global, word: &[u8], owned: bool) -> Result<Request, AskFault>
    ensures { Gives (λ request. request) result (request_of owned word.now) }
{
    match read_word(alloc, word, owned) {
        Ok(request) => Ok(request),
        Err(WordFault::NoMemory) => Err(AskFault::NoMemory),
        Err(WordFault::NoRequest) => Err(AskFault::Refused(no_request(alloc, word)?)),
    }
}

/// The requests that words are. Refused at the first that is none.
pub fn requests_of(alloc: Global, words: &[Vec<u8>], owned: bool) -> Result<Vec<Request>, AskFault>
    ensures { Gives (λ requests. requests.items) result (requests_of owned (texts words.now)) }
{
    let mut requests = Vec::new(alloc);
    for word in words {
        requests.push(request_of(alloc, word.as_slice(), owned)?)?;
    }
    Ok(requests)
}

/// Decides a request by itself.
fn decide_alone(
    alloc: Global,
    decided: Decided<'_>,
    opening: Label,
    request: &Request,
) -> Result<Verdict, AllocError>
    ensures { IfOk result (λ v. told v ≡ verdict_on decided.entry opening request.now) }
{
    let mut label = opening;
    decide(alloc, decided, &mut label, request)
}

/// Decides each request by itself.
fn decide_each(
    alloc: Global,
    decided: Decided<'_>,
    opening: Label,
    requests: &[Request],
) -> Result<Vec<Verdict>, AllocError>
    ensures { IfOk result (λ vs. map told vs.items ≡ map (verdict_on decided.entry opening) requests.now) }
{
    let mut verdicts = Vec::new(alloc);
    for request in requests {
        verdicts.push(decide_alone(alloc, decided, opening, request)?)?;
    }
    Ok(verdicts)
}

/// Decides the requests of one task, in turn.
#[tactic(auto, unfolding(crate::specs::Asked::in_sequence))]
fn decide_in_sequence(
    alloc: Global,
    decided: Decided<'_>,
    opening: Label,
    requests: &[Request],
) -> Result<Vec<Verdict>, AllocError>
    ensures { IfOk result (λ vs. map told vs.items ≡ in_sequence decided.entry opening requests.now) }
{
    let mut label = opening;
    let mut verdicts = Vec::new(alloc);
    let mut rest = requests;
    while let [request, after @ ..] = rest {
        verdicts.push(decide(alloc, decided, &mut label, request)?)?;
        rest = after;
    }
    Ok(verdicts)
}

fn decide_all(
    alloc: Global,
    decided: Decided<'_>,
    is_sequence: bool,
    opening: Label,
    requests: &[Request],
) -> Result<Vec<Verdict>, AllocError>
    ensures { IfOk result (λ vs. map told vs.items ≡ verdicts_on decided.entry is_sequence opening requests.now) }
{
    if is_sequence {
        decide_in_sequence(alloc, decided, opening, requests)
    } else {
        decide_each(alloc, decided, opening, requests)
    }
}

/// Decides the request of each word: by itself, or all as those of one task. Refused where it isn't told which profile asks, where
/// there is no such profile or program, and at the first word that is no request.
#[tactic(auto, unfolding(crate::specs::Asked::answers))]
pub fn ask(
    alloc: Global,
    decided: Decided<'_>,
    manner: Manner<'_>,
    words: &[Vec<u8>],
) -> Result<Vec<Verdict>, AskFault>
    ensures { Gives (λ verdicts. map told verdicts.items) result (answers decided.entry manner.entry (texts words.now)) }
{
    let opening = opening_label(alloc, decided, manner)?;
    let requests = requests_of(alloc, words, manner.owned)?;
    Ok(decide_all(
        alloc,
        decided,
        manner.is_sequence,
        opening,
        requests.as_slice(),
    )?)
}

/// Whether one of them is refused.
pub fn is_one_denied(verdicts: &[Verdict]) -> bool
    ensures { result ≡ list_any (λ v. not v.granted) verdicts.now }
{
    verdicts.iter().any(|verdict| !verdict.granted)
}
