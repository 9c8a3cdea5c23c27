//! Why a word is no request, and which words may have been meant.

ghost use Rattle.std.specs.Prelude.{◌≡◌, ◌==◌, ◌++◌, ◌&&◌, nat_lt, length, codes, is_some, unwrap_or, option_map, false, [], OnOk, IfOk};
ghost use Rattle.std.specs.List.{list_any};
ghost use Rattle.aa_notation.specs.Parts.{split_in, behind};
ghost use Rattle.aa_notation.specs.Read.{letters_in};
ghost use Rattle.aa_notation.specs.Refused.{about_path, about_letters, about_links, about_words, why_letters, why_parts, why_socket, object_of, why, small, lowered, is_request, meant_one, meant_two, meant_cap, type_of, meant_parts, meant_net, word_of, has_x, without_x, meant_exec, letters_meant, meant_letters, meant_path, meant_object, owner_front, meant, refusal};

use crate::kinds::read_word;
use crate::named::{capability_named, family_named, sock_type_named};
use crate::read::{WordFault, is_word, letters_of};
use crate::split::{behind, split_at};
use aa_base::{Family, Perms};
use aa_text::push_text;
use std::alloc::{AllocError, Global};

#[tactic(auto, unfolding(crate::specs::Refused::about_path))]
fn about_path() -> &'static str
    ensures { result.now ≡ about_path }
{
    "a path begins with / and has at most 4,095 bytes, or stands in upper-case hexadecimal digits"
}

#[tactic(auto, unfolding(crate::specs::Refused::about_letters))]
fn about_letters() -> &'static str
    ensures { result.now ≡ about_letters }
{
    "letters of rwakm stand before the colon, or x or l alone"
}

#[tactic(auto, unfolding(crate::specs::Refused::about_links))]
fn about_links() -> &'static str
    ensures { result.now ≡ about_links }
{
    "behind l: stand two paths, as /a->/b"
}

#[tactic(auto, unfolding(crate::specs::Refused::about_words))]
fn about_words() -> &'static str
    ensures { result.now ≡ about_words }
{
    "a word is letters, a colon and a path, or begins with cap:, net: or change:"
}

/// Whether all of some letters are of a mask, and there are some.
fn are_letters(letters: &[u8]) -> bool
    ensures { result ≡ (is_some (letters_in 0 letters.now) && nat_lt 0 (length letters.now)) }
{
    letters_of(Perms(0), letters).is_some() && !letters.is_empty()
}

fn is_split(text: &[u8], part: &str) -> bool
    ensures { result ≡ is_some (split_in part.now text.now) }
{
    match split_at(text, part) {
        Some(_) => true,
        None => false,
    }
}

fn why_letters(letters: &[u8], text: &[u8]) -> &'static str
    ensures { result.now ≡ why_letters letters.now text.now }
{
    if is_word(letters, "x") {
        return about_path();
    }
    if is_word(letters, "l") {
        return if is_split(text, "->") {
            about_path()
        } else {
            about_links()
        };
    }
    if are_letters(letters) {
        about_path()
    } else {
        about_letters()
    }
}

fn why_object(object: &[u8]) -> &'static str
    ensures { result.now ≡ why_parts (split_in (codes ":") object.now) }
{
    match split_at(object, ":") {
        Some((letters, text)) => why_letters(letters, text),
        None => about_words(),
    }
}

fn why_socket(text: &[u8]) -> &'static str
    ensures { result.now ≡ why_socket (split_in (codes "/") text.now) }
{
    match split_at(text, "/") {
        Some((family, _)) => match Family::from_name(family) {
            Some(_) => "no type of sockets has this name",
            None => "no family of sockets has this name",
        },
        None => "behind net: stand a family and a type, as inet/stream",
    }
}

fn object_of(word: &[u8]) -> &[u8]
    ensures { result.now ≡ object_of word.now }
{
    match behind(word, "owned:") {
        Some(object) => object,
        None => behind(word, "other:").unwrap_or(word),
    }
}

fn begins(word: &[u8], front: &str) -> bool
    ensures { result ≡ is_some (behind front.now word.now) }
{
    match behind(word, front) {
        Some(_) => true,
        None => false,
    }
}

/// What stands behind a front; nothing where the text begins otherwise.
fn rest_behind<'s>(word: &'s [u8], front: &str) -> &'s [u8]
    ensures { result.now ≡ unwrap_or (behind front.now word.now) [] }
{
    behind(word, front).unwrap_or(&[])
}

/// Why a word is no request.
fn why(word: &[u8]) -> &'static str
    ensures { result.now ≡ why word.now }
{
    if begins(word, "cap:") {
        return "no capability has this name";
    }
    if begins(word, "net:") {
        return why_socket(rest_behind(word, "net:"));
    }
    if begins(word, "change") {
        return "behind change: stands a name of 1 to 1,024 bytes, behind change= its digits";
    }
    why_object(object_of(word))
}

fn small(b: u8) -> u8
    ensures { result ≡ small b }
{
    if b >= b'A' && b <= b'Z' { b + 32 } else { b }
}

fn lowered(alloc: Global, text: &[u8]) -> Result<Vec<u8>, AllocError>
    ensures { IfOk result (λ letters. letters.items ≡ lowered text.now) }
{
    let mut letters = Vec::new(alloc);
    for b in text {
        letters.push(small(*b))?;
    }
    Ok(letters)
}

fn is_request(alloc: Global, word: &[u8]) -> Result<bool, AllocError>
    ensures { IfOk result (λ is. is ≡ is_request word.now) }
{
    match read_word(alloc, word, false) {
        Ok(_) => Ok(true),
        Err(WordFault::NoRequest) => Ok(false),
        Err(WordFault::NoMemory) => Err(AllocError),
    }
}

fn push_one(out: &mut Vec<u8>, word: &[u8]) -> Result<(), AllocError>
    ensures { OnOk result (out.new.items ≡ out.old.items ++ (codes "; write " ++ word.now)) }
{
    push_text(out, "; write ")?;
    out.extend_from_slice(word)
}

/// Says a word that may have been meant, where it is a request.
fn push_meant_one(out: &mut Vec<u8>, alloc: Global, word: &[u8]) -> Result<(), AllocError>
    ensures { OnOk result (out.new.items ≡ out.old.items ++ meant_one word.now) }
{
    if is_request(alloc, word)? {
        return push_one(out, word);
    }
    Ok(())
}

fn push_two(out: &mut Vec<u8>, first: &[u8], second: &[u8]) -> Result<(), AllocError>
    ensures { OnOk result (out.new.items ≡ out.old.items ++ (codes "; write " ++ (first.now ++ (codes " and " ++ second.now)))) }
{
    push_one(out, first)?;
    push_text(out, " and ")?;
    out.extend_from_slice(second)
}

fn push_meant_two(
    out: &mut Vec<u8>,
    alloc: Global,
    first: &[u8],
    second: &[u8],
) -> Result<(), AllocError>
    ensures { OnOk result (out.new.items ≡ out.old.items ++ meant_two first.now second.now) }
{
    let is_first = is_request(alloc, first)?;
    let is_second = is_request(alloc, second)?;
    if is_first && is_second {
        return push_two(out, first, second);
    }
    Ok(())
}

/// The bytes of two texts.
fn joined(alloc: Global, front: &[u8], back: &[u8]) -> Result<Vec<u8>, AllocError>
    ensures { IfOk result (λ text. text.items ≡ front.now ++ back.now) }
{
    let mut text = Vec::from_slice(alloc, front)?;
    text.extend_from_slice(back)?;
    Ok(text)
}

fn without_front<'s>(text: &'s [u8], front: &str) -> &'s [u8]
    ensures { result.now ≡ unwrap_or (behind front.now text.now) text.now }
{
    behind(text, front).unwrap_or(text)
}

fn meant_cap(alloc: Global, name: &[u8]) -> Result<Vec<u8>, AllocError>
    ensures { IfOk result (λ word. word.items ≡ meant_cap name.now) }
{
    let letters = lowered(alloc, name)?;
    let name = without_front(letters.as_slice(), "cap_");
    joined(alloc, "cap:".as_bytes(), capability_named(name))
}

fn type_of(name: &[u8]) -> &[u8]
    ensures { result.now ≡ type_of name.now }
{
    if is_word(name, "tcp") {
        return "stream".as_bytes();
    }
    if is_word(name, "udp") {
        return "dgram".as_bytes();
    }
    if is_word(name, "icmp") {
        return "raw".as_bytes();
    }
    name
}

fn push_parts(out: &mut Vec<u8>, text: &[u8]) -> Result<(), AllocError>
    ensures { OnOk result (out.new.items ≡ out.old.items ++ meant_parts text.now (split_in (codes "/") text.now)) }
{
    match split_at(text, "/") {
        Some((family, name)) => {
            out.extend_from_slice(family_named(family))?;
            push_text(out, "/")?;
            out.extend_from_slice(sock_type_named(type_of(name)))
        }
        None => {
            out.extend_from_slice(family_named(text))?;
            push_text(out, "/stream")
        }
    }
}

fn meant_net(alloc: Global, text: &[u8]) -> Result<Vec<u8>, AllocError>
    ensures { IfOk result (λ word. word.items ≡ meant_net text.now) }
{
    let letters = lowered(alloc, text)?;
    let mut word = Vec::from_slice(alloc, "net:".as_bytes())?;
    push_parts(&mut word, letters.as_slice())?;
    Ok(word)
}

fn word_of(alloc: Global, front: &str, letters: &[u8], text: &[u8]) -> Result<Vec<u8>, AllocError>
    ensures { IfOk result (λ word. word.items ≡ word_of front.now letters.now text.now) }
{
    let mut word = Vec::from_slice(alloc, front.as_bytes())?;
    word.extend_from_slice(letters)?;
    push_text(&mut word, ":")?;
    word.extend_from_slice(text)?;
    Ok(word)
}

fn holds_x(letters: &[u8]) -> bool
    ensures { result ≡ list_any (λ b. b == 120) letters.now }
{
    letters.iter().any(|b| *b == b'x')
}

fn has_x(letters: &[u8]) -> bool
    ensures { result ≡ has_x letters.now }
{
    letters.len() > 1 && holds_x(letters)
}

fn without_x(alloc: Global, letters: &[u8]) -> Result<Vec<u8>, AllocError>
    ensures { IfOk result (λ others. others.items ≡ without_x letters.now) }
{
    letters
        .iter()
        .copied()
        .filter(|b| *b != b'x')
        .collect(alloc)
}

/// What may have been meant by letters of which one is x.
fn push_meant_exec(
    out: &mut Vec<u8>,
    alloc: Global,
    front: &str,
    letters: &[u8],
    text: &[u8],
) -> Result<(), AllocError>
    ensures { OnOk result (out.new.items ≡ out.old.items ++ meant_exec front.now letters.now text.now) }
{
    let others = without_x(alloc, letters)?;
    let first = word_of(alloc, front, others.as_slice(), text)?;
    let second = word_of(alloc, front, "x".as_bytes(), text)?;
    if is_request(alloc, first.as_slice())? {
        return push_meant_two(out, alloc, first.as_slice(), second.as_slice());
    }
    push_meant_one(out, alloc, second.as_slice())
}

/// The letters of a permission's name, or else small ones.
fn letters_meant(alloc: Global, letters: &[u8]) -> Result<Vec<u8>, AllocError>
    ensures { IfOk result (λ meant. meant.items ≡ letters_meant letters.now) }
{
    if is_word(letters, "read") {
        return Vec::from_slice(alloc, "r".as_bytes());
    }
    if is_word(letters, "write") {
        return Vec::from_slice(alloc, "w".as_bytes());
    }
    if is_word(letters, "file") {
        return Vec::from_slice(alloc, "rw".as_bytes());
    }
    lowered(alloc, letters)
}

fn push_small(
    out: &mut Vec<u8>,
    alloc: Global,
    front: &str,
    letters: &[u8],
    text: &[u8],
) -> Result<(), AllocError>
    ensures { OnOk result (out.new.items ≡ out.old.items ++ meant_one (word_of front.now (letters_meant letters.now) text.now)) }
{
    let letters = letters_meant(alloc, letters)?;
    let word = word_of(alloc, front, letters.as_slice(), text)?;
    push_meant_one(out, alloc, word.as_slice())
}

fn push_meant_letters(
    out: &mut Vec<u8>,
    alloc: Global,
    front: &str,
    letters: &[u8],
    text: &[u8],
) -> Result<(), AllocError>
    ensures { OnOk result (out.new.items ≡ out.old.items ++ meant_letters front.now letters.now text.now) }
{
    if has_x(letters) {
        return push_meant_exec(out, alloc, front, letters, text);
    }
    push_small(out, alloc, front, letters, text)
}

/// What may have been meant by a path alone.
fn push_read(out: &mut Vec<u8>, alloc: Global, front: &str, path: &[u8]) -> Result<(), AllocError>
    ensures { OnOk result (out.new.items ≡ out.old.items ++ meant_one (front.now ++ (codes "r:" ++ path.now))) }
{
    let mut word = Vec::from_slice(alloc, front.as_bytes())?;
    push_text(&mut word, "r:")?;
    word.extend_from_slice(path)?;
    push_meant_one(out, alloc, word.as_slice())
}

fn push_meant_path(
    out: &mut Vec<u8>,
    alloc: Global,
    front: &str,
    object: &[u8],
) -> Result<(), AllocError>
    ensures { OnOk result (out.new.items ≡ out.old.items ++ meant_path front.now object.now (split_in (codes " ") object.now)) }
{
    match split_at(object, " ") {
        Some((letters, text)) => push_meant_letters(out, alloc, front, letters, text),
        None => push_read(out, alloc, front, object),
    }
}

fn push_meant_object(
    out: &mut Vec<u8>,
    alloc: Global,
    front: &str,
    object: &[u8],
) -> Result<(), AllocError>
    ensures { OnOk result (out.new.items ≡ out.old.items ++ meant_object front.now object.now (split_in (codes ":") object.now)) }
{
    match split_at(object, ":") {
        Some((letters, text)) => push_meant_letters(out, alloc, front, letters, text),
        None => push_meant_path(out, alloc, front, object),
    }
}

fn push_meant_cap(out: &mut Vec<u8>, alloc: Global, name: &[u8]) -> Result<(), AllocError>
    ensures { OnOk result (out.new.items ≡ out.old.items ++ meant_one (meant_cap name.now)) }
{
    let word = meant_cap(alloc, name)?;
    push_meant_one(out, alloc, word.as_slice())
}

fn push_meant_net(out: &mut Vec<u8>, alloc: Global, text: &[u8]) -> Result<(), AllocError>
    ensures { OnOk result (out.new.items ≡ out.old.items ++ meant_one (meant_net text.now)) }
{
    let word = meant_net(alloc, text)?;
    push_meant_one(out, alloc, word.as_slice())
}

fn owner_front(word: &[u8]) -> &'static str
    ensures { result.now ≡ owner_front word.now }
{
    if begins(word, "owned:") {
        return "owned:";
    }
    if begins(word, "other:") { "other:" } else { "" }
}

fn push_meant(out: &mut Vec<u8>, alloc: Global, word: &[u8]) -> Result<(), AllocError>
    ensures { OnOk result (out.new.items ≡ out.old.items ++ meant word.now) }
{
    if begins(word, "cap:") {
        return push_meant_cap(out, alloc, rest_behind(word, "cap:"));
    }
    if begins(word, "net:") {
        return push_meant_net(out, alloc, rest_behind(word, "net:"));
    }
    push_meant_object(out, alloc, owner_front(word), object_of(word))
}

/// Why a word is no request, and the request that may have been meant, if there is one.
pub fn word_refusal(alloc: Global, word: &[u8]) -> Result<Vec<u8>, AllocError>
    ensures { IfOk result (λ said. said.items ≡ refusal word.now) }
{
    let mut said = Vec::from_slice(alloc, why(word).as_bytes())?;
    push_meant(&mut said, alloc, word)?;
    Ok(said)
}
