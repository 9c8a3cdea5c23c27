//! The requests that a word asks.

ghost use Rattle.std.specs.Prelude.{◌≡◌, ◌==◌, ◌++◌, codes, false, Some, None, is_some, option_map, position, IfOk, IfErr, OnOk};
ghost use Rattle.std.specs.List.{list_all, list_any};
ghost use Rattle.aa_model.specs.Requests.{begins_with};
ghost use Rattle.aa_model.specs.declared.request.Request.{Request};
ghost use Rattle.aa_notation.specs.Parts.{behind};
ghost use Rattle.aa_notation.specs.Kinds.{request_in};
ghost use Rattle.aa_notation.specs.Refused.{has_x, without_x, word_of};
ghost use Rattle.aa_who.specs.Words.{said_of, is_alone, at_colon, whose_in, masks_of, about_words, about_letters, about_links, about_fronts, is_letter, ask_link, front_of, meant, why_letters, why_parts, begins_otherwise, why_files, why_unread, object_in, IsPatternIf, IsFilesOf, IsExecsOf, IsOfObject, IsAlone, IsRead, IsNoRequest, SaysNoPattern, SaysNoObject, SaysUnread, SaysMisread};

use crate::fault::Misread;
use aa_base::{Perms, PolicyKind, Seq};
use aa_glob::{Pattern, read_pattern};
use aa_model::Request;
use aa_notation::{WordFault, read_word, word_refusal};
use aa_quantifiers::{ExecsWord, FilesWord, Whose, Word};
use aa_text::{push_text, push_visible};
use bitflags::Flags;
use std::alloc::{AllocError, Global};

/// A sentence about a word, in one line.
pub(crate) fn said_of(alloc: Global, sentence: &str, word: &[u8]) -> Result<Vec<u8>, AllocError>
    ensures { IfOk result (λ line. line.items ≡ said_of sentence.now word.now) }
{
    let mut line = Vec::from_slice(alloc, sentence.as_bytes())?;
    push_visible(&mut line, word)?;
    push_text(&mut line, "\n")?;
    Ok(line)
}

/// What stands behind a front, where the text begins so.
fn behind<'s>(text: &'s [u8], front: &str) -> Option<&'s [u8]>
    ensures { option_map (λ t. t.now) result ≡ behind front.now text.entry.now }
{
    text.strip_prefix(front.as_bytes())
}

/// How far the first colon is.
fn colon_at(text: &[u8]) -> Option<usize>
    ensures { result ≡ position (λ b. b == 58) text.now }
{
    text.iter().position(|byte| *byte == b':')
}

/// What stands before the first colon, and what stands behind it.
#[tactic(auto, using(crate::proofs::Colons::colon_within))]
fn split_at_colon(text: &[u8]) -> Option<(&[u8], &[u8])>
    ensures { option_map (λ s. (s.0.now, s.1.now)) result ≡ at_colon text.entry.now }
{
    match colon_at(text) {
        Some(at) => Some((&text[..at], &text[at + 1..])),
        None => None,
    }
}

fn is_behind(word: &[u8], front: &str) -> bool
    ensures { result ≡ is_some (behind front.now word.now) }
{
    behind(word, front).is_some()
}

/// Whether it is a word of one request: of a capability, a socket or a change.
fn is_alone(word: &[u8]) -> bool
    ensures { result ≡ is_alone word.now }
{
    is_behind(word, "cap:")
        || is_behind(word, "net:")
        || is_behind(word, "change:")
        || is_behind(word, "change=")
}

/// Whose objects a word asks for, and what of them.
fn whose_of(word: &[u8]) -> (Whose, &[u8])
    ensures { (result.0, result.1.now) ≡ whose_in word.now }
{
    if let Some(text) = behind(word, "owned:") {
        return (Whose::Owner, text);
    }
    match behind(word, "other:") {
        Some(text) => (Whose::Others, text),
        None => (Whose::Both, word),
    }
}

/// The masks of letters: to write is to write or to append.
fn masks_of(alloc: Global, mask: Perms) -> Result<Seq<Perms>, AllocError>
    ensures { IfOk result (λ masks. masks ≡ masks_of mask) }
{
    let mut masks = Vec::new(alloc);
    masks.push(mask)?;
    if mask.intersects(Perms::WRITE) {
        masks.push(mask.difference(Perms::WRITE).union(Perms::APPEND))?;
    }
    Ok(Seq::from_vec(masks))
}

/// The word of letters at the folder `/`.
fn word_of_letters(alloc: Global, letters: &[u8]) -> Result<Vec<u8>, AllocError>
    ensures { IfOk result (λ word. word.items ≡ letters.now ++ codes ":/") }
{
    let mut word = Vec::from_slice(alloc, letters)?;
    push_text(&mut word, ":/")?;
    Ok(word)
}

/// The request that a word is, if it is one.
fn request_of(alloc: Global, word: &[u8]) -> Result<Option<Request>, AllocError>
    ensures { IfOk result (λ request. request ≡ request_in false word.now) }
{
    match read_word(alloc, word, false) {
        Ok(request) => Ok(Some(request)),
        Err(WordFault::NoRequest) => Ok(None),
        Err(WordFault::NoMemory) => Err(AllocError),
    }
}

/// What letters ask of the folder `/`.
fn asked_by(alloc: Global, letters: &[u8]) -> Result<Option<Request>, AllocError>
    ensures { IfOk result (λ request. request ≡ request_in false (letters.now ++ codes ":/")) }
{
    let word = word_of_letters(alloc, letters)?;
    request_of(alloc, word.as_slice())
}

/// The pattern that a text spells, if it spells one.
fn pattern_of(alloc: Global, text: &[u8]) -> Result<Option<Pattern>, AllocError>
    ensures { IfOk result (λ pattern. IsPatternIf text.now pattern) }
{
    match read_pattern(alloc, text) {
        Ok(pattern) => Ok(Some(pattern)),
        Err(PolicyKind::NoMemory) => Err(AllocError),
        Err(_) => Ok(None),
    }
}

#[tactic(auto, unfolding(crate::specs::Words::about_words))]
fn about_words() -> &'static str
    ensures { result.now ≡ about_words }
{
    "a word is letters, a colon and a pattern, or begins with cap:, net: or change:"
}

#[tactic(auto, unfolding(crate::specs::Words::about_letters))]
fn about_letters() -> &'static str
    ensures { result.now ≡ about_letters }
{
    "letters of rwakm stand before the colon, or x alone"
}

#[tactic(auto, unfolding(crate::specs::Words::about_links))]
fn about_links() -> &'static str
    ensures { result.now ≡ about_links }
{
    "no links are asked for here"
}

#[tactic(auto, unfolding(crate::specs::Words::about_fronts))]
fn about_fronts() -> &'static str
    ensures { result.now ≡ about_fronts }
{
    "owned: and other: stand before words of files alone"
}

/// Whether it is a letter that stands in a word of `ask`.
fn is_letter(b: u8) -> bool
    ensures { result ≡ is_letter b }
{
    "rwakmxl".as_bytes().iter().any(|letter| *letter == b)
}

fn has_link(letters: &[u8]) -> bool
    ensures { result ≡ list_any (λ b. b == 108) letters.now }
{
    letters.iter().any(|b| *b == b'l')
}

fn are_letters(letters: &[u8]) -> bool
    ensures { result ≡ list_all is_letter letters.now }
{
    letters.iter().all(|b| is_letter(*b))
}

fn has_x(letters: &[u8]) -> bool
    ensures { result ≡ has_x letters.now }
{
    letters.len() > 1 && holds_x(letters)
}

fn holds_x(letters: &[u8]) -> bool
    ensures { result ≡ list_any (λ b. b == 120) letters.now }
{
    letters.iter().any(|b| *b == b'x')
}

fn without_x(alloc: Global, letters: &[u8]) -> Result<Vec<u8>, AllocError>
    ensures { IfOk result (λ others. others.items ≡ without_x letters.now) }
{
    letters
        .iter()
        .copied()
        .filter(|b| *b != b'x')
        .collect(alloc)
}

/// The front of a word that says whose the files are.
fn front_of(whose: Whose) -> &'static str
    ensures { result.now ≡ front_of whose }
{
    match whose {
        Whose::Owner => "owned:",
        Whose::Others => "other:",
        Whose::Both => "",
    }
}

/// Appends a word of files: its front, letters, a colon and a path.
fn push_word(out: &mut Vec<u8>, front: &str, letters: &[u8], path: &[u8]) -> Result<(), AllocError>
    ensures { OnOk result (out.new.items ≡ out.old.items ++ word_of front.now letters.now path.now) }
{
    push_text(out, front)?;
    out.extend_from_slice(letters)?;
    push_text(out, ":")?;
    out.extend_from_slice(path)
}

/// Appends the two words that may have been meant.
fn push_two(out: &mut Vec<u8>, front: &str, others: &[u8], path: &[u8]) -> Result<(), AllocError>
    ensures { OnOk result (out.new.items ≡ out.old.items ++ (codes "; write " ++ (word_of front.now others.now path.now ++ (codes " and " ++ word_of front.now (codes "x") path.now)))) }
{
    push_text(out, "; write ")?;
    push_word(out, front, others, path)?;
    push_text(out, " and ")?;
    push_word(out, front, "x".as_bytes(), path)
}

/// Whether letters ask something of a file.
fn is_asked(alloc: Global, letters: &[u8]) -> Result<bool, AllocError>
    ensures { IfOk result (λ is. is ≡ is_some (request_in false (letters.now ++ codes ":/"))) }
{
    match asked_by(alloc, letters)? {
        Some(_) => Ok(true),
        None => Ok(false),
    }
}

/// Appends the two words that may have been meant where an x stands among other letters.
fn push_meant(
    out: &mut Vec<u8>,
    alloc: Global,
    front: &str,
    letters: &[u8],
    path: &[u8],
) -> Result<(), AllocError>
    ensures { OnOk result (out.new.items ≡ out.old.items ++ meant front.now letters.now path.now) }
{
    if !has_x(letters) {
        return Ok(());
    }
    let others = without_x(alloc, letters)?;
    if !is_asked(alloc, others.as_slice())? {
        return Ok(());
    }
    push_two(out, front, others.as_slice(), path)
}

/// Whether letters of words of `ask` ask for a link.
fn ask_link(letters: &[u8]) -> bool
    ensures { result ≡ ask_link letters.now }
{
    has_link(letters) && are_letters(letters)
}

/// Appends why letters before a colon ask nothing.
fn push_why_letters(
    out: &mut Vec<u8>,
    alloc: Global,
    front: &str,
    letters: &[u8],
    path: &[u8],
) -> Result<(), AllocError>
    ensures { OnOk result (out.new.items ≡ out.old.items ++ why_letters front.now letters.now path.now) }
{
    if ask_link(letters) {
        return push_text(out, about_links());
    }
    push_text(out, about_letters())?;
    push_meant(out, alloc, front, letters, path)
}

fn begins_with_slash(text: &[u8]) -> bool
    ensures { result ≡ begins_with 47 text.now }
{
    match text {
        [first, ..] => *first == b'/',
        [] => false,
    }
}

/// Appends why a text without a colon is no word of files.
fn push_why_words(out: &mut Vec<u8>, front: &str, text: &[u8]) -> Result<(), AllocError>
    ensures { OnOk result (out.new.items ≡ out.old.items ++ why_parts front.now text.now None) }
{
    push_text(out, about_words())?;
    if !begins_with_slash(text) {
        return Ok(());
    }
    push_text(out, "; write ")?;
    push_word(out, front, "r".as_bytes(), text)
}

/// Appends why a text is no word of files.
fn push_why_parts(
    out: &mut Vec<u8>,
    alloc: Global,
    front: &str,
    text: &[u8],
) -> Result<(), AllocError>
    ensures { OnOk result (out.new.items ≡ out.old.items ++ why_parts front.now text.now (at_colon text.now)) }
{
    match split_at_colon(text) {
        Some((letters, path)) => push_why_letters(out, alloc, front, letters, path),
        None => push_why_words(out, front, text),
    }
}

/// Whether no word of files begins so.
fn begins_otherwise(text: &[u8]) -> bool
    ensures { result ≡ begins_otherwise text.now }
{
    is_alone(text) || is_behind(text, "owned:") || is_behind(text, "other:")
}

/// Why a text of these owners is no word of files.
fn why_files(alloc: Global, whose: Whose, text: &[u8]) -> Result<Vec<u8>, AllocError>
    ensures { IfOk result (λ said. said.items ≡ why_files whose text.now) }
{
    let mut said = Vec::new(alloc);
    if begins_otherwise(text) {
        push_text(&mut said, about_fronts())?;
    } else {
        push_why_parts(&mut said, alloc, front_of(whose), text)?;
    }
    Ok(said)
}

/// Why a word is no request, and the words that may have been meant.
fn why_unread(alloc: Global, word: &[u8]) -> Result<Vec<u8>, AllocError>
    ensures { IfOk result (λ said. said.items ≡ why_unread word.now) }
{
    if is_alone(word) {
        return word_refusal(alloc, word);
    }
    let (whose, text) = whose_of(word);
    why_files(alloc, whose, text)
}

/// The refusal of a word that asks nothing.
fn no_word(alloc: Global, word: &[u8]) -> Result<Misread, AllocError>
    ensures { IfOk result (λ e. IsNoRequest word.now e) }
{
    Ok(Misread::NoRequest(why_unread(alloc, word)?))
}

/// To use files at the paths of the pattern that a text spells.
fn read_files(alloc: Global, whose: Whose, mask: Perms, path: &[u8]) -> Result<Word, Misread>
    ensures read { IfOk result (λ w. IsFilesOf whose mask path.now w) }
    ensures refused { IfErr result (λ e. SaysNoPattern (IsFilesOf whose mask path.now) e) }
{
    match pattern_of(alloc, path)? {
        Some(pattern) => Ok(Word::Files(FilesWord {
            pattern,
            masks: masks_of(alloc, mask)?,
            whose,
        })),
        None => Err(Misread::NoPattern),
    }
}

/// To execute files at the paths of the pattern that a text spells.
fn read_execs(alloc: Global, whose: Whose, path: &[u8]) -> Result<Word, Misread>
    ensures read { IfOk result (λ w. IsExecsOf whose path.now w) }
    ensures refused { IfErr result (λ e. SaysNoPattern (IsExecsOf whose path.now) e) }
{
    match pattern_of(alloc, path)? {
        Some(pattern) => Ok(Word::Execs(ExecsWord { pattern, whose })),
        None => Err(Misread::NoPattern),
    }
}

/// What such a request asks of files at the paths of the pattern that a text spells.
fn read_request(
    alloc: Global,
    word: &[u8],
    whose: Whose,
    request: &Request,
    path: &[u8],
) -> Result<Word, Misread>
    ensures read { IfOk result (λ w. IsOfObject whose (Some (request.now, path.now)) w) }
    ensures refused { IfErr result (λ e. SaysNoObject word.now whose (Some (request.now, path.now)) e) }
{
    match request {
        Request::File(file) => read_files(alloc, whose, file.mask(), path),
        Request::Exec(_) => read_execs(alloc, whose, path),
        _ => Err(no_word(alloc, word)?),
    }
}

/// What letters ask of files at the paths of the pattern that a text spells.
fn read_by(
    alloc: Global,
    word: &[u8],
    whose: Whose,
    letters: &[u8],
    path: &[u8],
) -> Result<Word, Misread>
    ensures read { IfOk result (λ w. IsOfObject whose (option_map (λ r. (r, path.now)) (request_in false (letters.now ++ codes ":/"))) w) }
    ensures refused { IfErr result (λ e. SaysNoObject word.now whose (option_map (λ r. (r, path.now)) (request_in false (letters.now ++ codes ":/"))) e) }
{
    match asked_by(alloc, letters)? {
        Some(request) => read_request(alloc, word, whose, &request, path),
        None => Err(no_word(alloc, word)?),
    }
}

fn read_object(alloc: Global, word: &[u8], whose: Whose, text: &[u8]) -> Result<Word, Misread>
    ensures read { IfOk result (λ w. IsOfObject whose (object_in text.now) w) }
    ensures refused { IfErr result (λ e. SaysNoObject word.now whose (object_in text.now) e) }
{
    match split_at_colon(text) {
        Some((letters, path)) => read_by(alloc, word, whose, letters, path),
        None => Err(no_word(alloc, word)?),
    }
}

fn read_alone(alloc: Global, word: &[u8]) -> Result<Word, Misread>
    ensures read { IfOk result (λ w. IsAlone (request_in false word.now) w) }
    ensures refused { IfErr result (λ e. SaysUnread word.now false (IsAlone (request_in false word.now)) e) }
{
    match request_of(alloc, word)? {
        Some(request) => Ok(Word::One(request)),
        None => Err(no_word(alloc, word)?),
    }
}

/// The requests that a word asks:
///
/// `[owned:|other:]LETTERS:PATTERN` asks to use files at each path that the pattern matches, of the task's user, of others, or without
/// a front of both; `w` among the letters is to write or to append. `[owned:|other:]x:PATTERN` asks to execute them; `cap:`, `net:`
/// and `change:` ask as they do of `ask`. A pattern is the language's, without variables. Refused is, in this order, what is no request,
/// and a path that is no pattern.
pub fn read_asked(alloc: Global, word: &[u8]) -> Result<Word, Misread>
    ensures read { IfOk result (λ w. IsRead word.now w) }
    ensures refused { IfErr result (λ e. SaysMisread word.now e) }
{
    if is_alone(word) {
        return read_alone(alloc, word);
    }
    let (whose, text) = whose_of(word);
    read_object(alloc, word, whose, text)
}
