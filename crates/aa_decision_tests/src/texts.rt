//! Policies that are read from their texts, requests that are read from words, and how requests, labels and answers are told. The helpers
//! have no clauses, so that a test's proof stays short.

use aa_base::{Perms, PolicyFault};
use aa_compile::{Compiled, compile, label_of, name_of_label};
use aa_machine::Machine;
use aa_mediate::Mediator;
use aa_model::{Answer, Label, NoteWord, Policy, Request};
use aa_notation::{push_word, read_word};
use aa_policy::parse;
use aa_words::{Sources, words};
use std::alloc::{AllocError, Global};
use std::process::Abort;

/// The first profile of the first policy.
pub const FIRST: Label = Label::Confined(0, 0);

/// No profile, by the first policy.
pub const FREE: Label = Label::Unconfined(0);

/// The policy that a text spells, or its fault.
pub fn read(alloc: Global, text: &str) -> Result<Policy, PolicyFault> {
    let sources = Sources::new(alloc);
    let words = words(alloc, &sources, text.as_bytes())?;
    parse(alloc, &words)
}

/// The policy that a text spells, compiled, or the fault for which it isn't. The limit is from 1 to 1,000,000.
pub fn compiled(alloc: Global, text: &str, limit: u32) -> Result<Compiled, PolicyFault> {
    let compiled = compile(alloc, read(alloc, text)?, limit.clamp(1, 1_000_000));
    compiled.map_err(|refusal| refusal.fault)
}

/// The policy that a text spells.
pub fn spelled(rt: &(impl Abort + AllocGlobal), text: &str) -> Policy {
    read(rt.alloc(), text).expect(rt, text)
}

/// The policies of the texts between which stands `¦`.
pub fn policies_in(rt: &(impl Abort + AllocGlobal), texts: &str) -> Vec<Compiled> {
    let mut list = Vec::new(rt.alloc());
    for text in texts.split('¦') {
        let policy = compiled(rt.alloc(), text, 4096).expect(rt, text);
        list.push(policy).expect(rt, "memory");
    }
    list
}

/// The request of a word, as `aapolicy ask` takes it, or `reload:N` with a number below three.
pub fn request(rt: &(impl Abort + AllocGlobal), word: &str) -> Request {
    match word {
        "reload:0" => Request::reload(0),
        "reload:1" => Request::reload(1),
        "reload:2" => Request::reload(2),
        _ => read_word(rt.alloc(), word.as_bytes(), false).expect(rt, word),
    }
}

/// Puts a part behind what is told.
pub fn push_part(rt: &impl Abort, told: &mut String, part: Result<String, AllocError>) {
    let part = part.expect(rt, "memory");
    told.push_str(part.as_str()).expect(rt, "memory");
}

fn push(rt: &impl Abort, told: &mut Vec<u8>, part: &[u8]) {
    told.extend_from_slice(part).expect(rt, "memory");
}

/// A sign, and a number below ten behind it.
fn push_digit(rt: &impl Abort, told: &mut Vec<u8>, sign: &[u8], number: u16) {
    let digit = u8::try_from(number).expect(rt, "a digit");
    push(rt, told, sign);
    push(rt, told, &[b'0'.wrapping_add(digit)]);
}

/// The word that a request is.
pub fn push_request(rt: &impl Abort, told: &mut Vec<u8>, request: &Request) {
    match request {
        Request::Reload(number) => push_digit(rt, told, b"reload:", *number),
        // (of an execution the path alone)
        Request::Exec(exec) => {
            push(rt, told, b"x:");
            push(rt, told, exec.path());
        }
        _ => push_word(told, request).expect(rt, "memory"),
    }
}

/// The label of a name in the first policy.
pub fn label(rt: &impl Abort, policies: &[Compiled], name: &str) -> Label {
    label_of(policies, 0, name.as_bytes()).expect(rt, name)
}

/// The name of a label.
pub fn push_label(rt: &impl Abort, told: &mut Vec<u8>, policies: &[Compiled], label: Label) {
    push(rt, told, name_of_label(policies, label));
    let number = match label {
        Label::Confined(number, _) | Label::Unconfined(number) => number,
    };
    if number > 0 {
        push_digit(rt, told, b"@", number);
    }
}

fn push_letters(rt: &impl Abort, told: &mut Vec<u8>, perms: Perms) {
    push(rt, told, if perms.0 > 0 { b" " } else { b"" });
    let mut bit = 1u8;
    for letter in b"rwalkmx" {
        if perms.0 & bit > 0 {
            push(rt, told, &[*letter]);
        }
        bit = bit.wrapping_add(bit);
    }
}

/// What a task of a label is answered: `granted`, `refused` or `-> LABEL`, and of a note its word and its permissions.
pub fn answered(
    rt: &(impl Abort + AllocGlobal),
    policies: &[Compiled],
    before: Label,
    answer: &Answer,
) -> Vec<u8> {
    let (mut told, granted) = (Vec::new(rt.alloc()), answer.granted);
    if answer.label != before {
        push(rt, &mut told, b"-> ");
        push_label(rt, &mut told, policies, answer.label);
    } else if answer.note.is_none() {
        let word: &[u8] = if granted { b"granted" } else { b"refused" };
        push(rt, &mut told, word);
    }
    if let Some(note) = &answer.note {
        let sign: &[u8] = if told.is_empty() { b"" } else { b" " };
        push(rt, &mut told, sign);
        let word: &[u8] = match note.word {
            NoteWord::Denied => b"denied",
            NoteWord::Allowed => b"allowed",
            NoteWord::Audit => b"audited",
        };
        push(rt, &mut told, word);
        push_letters(rt, &mut told, note.perms);
    }
    push(rt, &mut told, if answer.scrub { b" scrub" } else { b"" });
    told
}

/// The answer to a task of that label, and its label after it.
pub fn step(policies: &[Compiled], before: Label, request: &Request) -> (Answer, Label) {
    let mut label = before;
    let answer = Mediator::new(policies).step(&mut label, request);
    (answer, label)
}
