//! Why a text can't be cut further.

ghost use Rattle.std.specs.Prelude.{◌≡◌, ◌+◌, ◌^◌, ◌<◌, ◌≤◌, length};
ghost use Rattle.aa_words.specs.Includes.{include_form};
ghost use Rattle.aa_words.specs.Stops.{reach, form_reach, ahead, fault_at};

use crate::includes::{behind_keyword, form_of_include};
use crate::piece::{Place, begins_rule};
use crate::reading::Reading;
use crate::runs::quote_length;
use crate::skips::skipped_length;
use aa_base::{PolicyFault, PolicyKind, Spot};

/// How far the form of an include goes before it breaks off, where `rest` stands behind its keyword.
#[tactic(auto, using(crate::proofs::Forms::broken_le))]
fn form_length(text: &[u8], rest: &[u8]) -> usize
    requires { length rest.now ≤ length text.now }
    ensures form { result ≡ form_reach text.now (include_form rest.now) }
    ensures within { result ≤ length text.now }
{
    match form_of_include(rest) {
        Ok(_) => 0,
        Err(broken) => text.len() - broken.len(),
    }
}

/// How far a reading gets where no piece stands.
#[tactic(auto, using(crate::proofs::Extents::quote_le, crate::proofs::Extents::skipped_le, crate::proofs::Forms::behind_word_le), unfolding(crate::specs::Stops::reach))]
fn reach_of(text: &[u8], place: Place) -> usize
    ensures reach { result ≡ reach place text.now }
    ensures within { result ≤ length text.now }
{
    let [b, rest @ ..] = text else {
        return 0;
    };
    match *b {
        0 => return 0,
        b'"' if place.behind_run => return 0,
        b'"' => return 1 + quote_length(rest),
        _ => (),
    }
    if begins_rule(place.rule)
        && let Some(form) = behind_keyword(text, "include".as_bytes())
    {
        return form_length(text, form);
    }
    1 + skipped_length(rest)
}

/// At which byte a reading is at fault that breaks off after `len` bytes.
fn bytes_ahead(text: &[u8], len: usize) -> usize
    requires { len ≤ length text.now }
    ensures ahead { result ≡ ahead text.now len }
    ensures within { result ≤ length text.now }
{
    let (_, broken) = text.split_at(len);
    match broken {
        [0, ..] => len,
        _ => 0,
    }
}

/// The fault at a place where no piece of this language stands.
pub(crate) fn fault_of(text: &[u8], reading: Reading, place: Place, at: u32) -> PolicyFault
    requires { at + length text.now < 2 ^ 32 }
    ensures { result ≡ fault_at reading place at text.now }
{
    let ahead = bytes_ahead(text, reach_of(text, place));
    PolicyFault {
        kind: PolicyKind::Syntax,
        at: Spot {
            file: reading.file,
            byte: at + ahead as u32,
        },
    }
}
