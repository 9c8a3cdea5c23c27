//! The form of an include.

ghost use Rattle.std.specs.Prelude.{◌≡◌, ◌≤◌, length, Ok, Err, Some, None, IfOk, IfErr, IfSome, IfNone};
ghost use Rattle.std.specs.Str.{bytes_eq};
ghost use Rattle.aa_words.specs.Includes.{behind_white, behind_word, from_sign, ends_include_name, behind_name, behind_sign, include_form, is_hash_include, behind_if_exists, include_name, included_name, is_optional, include_len};

use crate::runs::{is_white_space, name_length};

/// What stands behind white space, line ends too.
fn behind_white_space(text: &[u8]) -> &[u8]
    ensures { result.now ≡ behind_white text.now }
{
    let mut rest = text;
    while let [b, after @ ..] = rest {
        if !is_white_space(*b) {
            return rest;
        }
        rest = after;
    }
    rest
}

/// What stands behind a word, where that is the whole run that stands first.
#[tactic(auto, using(crate::proofs::Extents::name_le))]
pub fn behind_keyword<'s>(text: &'s [u8], word: &[u8]) -> Option<&'s [u8]>
    ensures some { IfSome result (λ rest. behind_word word.now text.now ≡ Some rest.now) }
    ensures none { IfNone result (behind_word word.now text.now ≡ None) }
{
    let (run, rest) = text.split_at(name_length(text));
    if run == word { Some(rest) } else { None }
}

/// What stands behind `if exists`, where that stands first.
fn behind_exists(text: &[u8]) -> Option<&[u8]>
    ensures some { IfSome result (λ rest. behind_if_exists text.now ≡ Some rest.now) }
    ensures none { IfNone result (behind_if_exists text.now ≡ None) }
{
    let rest = behind_keyword(text, "if".as_bytes())?;
    behind_keyword(behind_white_space(rest), "exists".as_bytes())
}

/// The bytes from the sign on that opens an include's name.
#[tactic(auto, unfolding(crate::specs::Includes::from_sign))]
fn from_opening_sign(text: &[u8]) -> &[u8]
    ensures { result.now ≡ from_sign text.now }
{
    let form = behind_white_space(text);
    match behind_exists(form) {
        Some(rest) => behind_white_space(rest),
        None => form,
    }
}

fn include_name_ends(sign: u8, b: u8) -> bool
    ensures { result ≡ ends_include_name sign b }
{
    b == sign || b == b'\n' || b == 0
}

/// The bytes from the end of an include's name on.
fn from_closing_sign(sign: u8, text: &[u8]) -> &[u8]
    ensures { result.now ≡ behind_name sign text.now }
{
    let mut rest = text;
    while let [b, after @ ..] = rest {
        if include_name_ends(sign, *b) {
            return rest;
        }
        rest = after;
    }
    rest
}

fn behind_closing_sign(sign: u8, text: &[u8]) -> Result<&[u8], &[u8]>
    ensures ok { IfOk result (λ rest. behind_sign sign (behind_name sign text.now) ≡ Ok rest.now) }
    ensures err { IfErr result (λ rest. behind_sign sign (behind_name sign text.now) ≡ Err rest.now) }
{
    let rest = from_closing_sign(sign, text);
    match rest {
        [b, after @ ..] if *b == sign => Ok(after),
        _ => Err(rest),
    }
}

/// What stands behind an include's keyword: the bytes behind the include, or those at which its form breaks off.
#[tactic(auto, unfolding(crate::specs::Includes::include_form))]
pub fn form_of_include(text: &[u8]) -> Result<&[u8], &[u8]>
    ensures ok { IfOk result (λ rest. include_form text.now ≡ Ok rest.now) }
    ensures err { IfErr result (λ rest. include_form text.now ≡ Err rest.now) }
{
    let rest = from_opening_sign(text);
    match rest {
        [b'<', name @ ..] => behind_closing_sign(b'>', name),
        [b'"', name @ ..] => behind_closing_sign(b'"', name),
        _ => Err(rest),
    }
}

/// Whether `#include` and the form of an include stand first.
#[tactic(auto, unfolding(crate::specs::Includes::is_hash_include))]
pub fn begins_hash_include(text: &[u8]) -> bool
    ensures { result ≡ is_hash_include text.now }
{
    match behind_keyword(text, "#include".as_bytes()) {
        Some(rest) => form_of_include(rest).is_ok(),
        None => false,
    }
}

/// The name before a closing sign.
#[tactic(auto, using(crate::proofs::Forms::named_le, crate::proofs::Forms::name_taken))]
fn name_before(sign: u8, text: &[u8]) -> &[u8]
    ensures { result.now ≡ include_name sign text.now }
{
    let rest = from_closing_sign(sign, text);
    let (name, _) = text.split_at(text.len() - rest.len());
    name
}

/// The name in an include's text.
#[tactic(auto, using(crate::proofs::Extents::name_le), unfolding(crate::specs::Includes::included_name))]
pub fn name_of_include(text: &[u8]) -> &[u8]
    ensures { result.now ≡ included_name text.now }
{
    let (_, behind) = text.split_at(name_length(text));
    let form = from_opening_sign(behind);
    match form {
        [b'<', name @ ..] => name_before(b'>', name),
        [_, name @ ..] => name_before(b'"', name),
        [] => form,
    }
}

/// Whether `if exists` stands in an include's text.
#[tactic(auto, using(crate::proofs::Extents::name_le), unfolding(crate::specs::Includes::is_optional))]
pub fn may_be_missing(text: &[u8]) -> bool
    ensures { result ≡ is_optional text.now }
{
    let (_, behind) = text.split_at(name_length(text));
    behind_exists(behind_white_space(behind)).is_some()
}

/// How long an include goes on behind its first byte, with a comma that stands straight behind it.
#[tactic(auto, using(crate::proofs::Extents::name_le, crate::proofs::Forms::form_rest_le), unfolding(crate::specs::Includes::include_len))]
pub fn include_length(text: &[u8]) -> usize
    ensures { result ≡ include_len text.now }
{
    let (_, behind) = text.split_at(name_length(text));
    match form_of_include(behind) {
        Ok(rest @ [b',', ..]) => text.len() - rest.len() + 1,
        Ok(rest) => text.len() - rest.len(),
        Err(_) => 0,
    }
}
