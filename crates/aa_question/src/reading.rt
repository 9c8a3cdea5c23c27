//! Reads a question: one JSON object, of which what is not understood is refused.

ghost use Rattle.std.specs.Prelude.{◌≡◌, ◌≢◌, ◌++◌, [], codes, map, option_map, IfOk, IfErr, Ok, Err};
ghost use Rattle.aa_files.specs.Texts.{texts, slices};
ghost use Rattle.serde_json.specs.View.{view, members_view};
ghost use Rattle.aa_question.specs.Memory.{row_of, put_all};
ghost use Rattle.aa_question.specs.Questions.{Gives, needed, none_unknown, members_known, files_in, asked_files, asked_places, asked_manner, asked_words, asked_in, question_of, asked_side, fault_in, within, side_of, asked_gains, asked_profiles, diff_in, diff_question_of, json_of, files_data, places_data, manner_data, asked, side_data, diff_asked};
ghost use Rattle.serde_json.specs.Find.{get};
ghost use Rattle.aa_question.specs.declared.question.Member.TheVariants.{Old, New};
ghost use Rattle.aa_question.specs.Values.{unknown_in};
ghost use Rattle.aa_question.specs.declared.question.QuestionFault.{QuestionFault};

use crate::memory::Texts;
use crate::question::{
    AskedFiles, AskedManner, AskedPlaces, AskedSide, DiffQuestion, Member, Question, QuestionFault,
};
use crate::values::{
    Row, bytes_if, bytes_list, bytes_or, flag_of, rows_list, states_of, unknown_in,
};
use aa_base::Text;
use serde_json::{Map, Value};
use std::alloc::{AllocError, Global};

/// The base folder, unless another is given.
const BASE: &str = "/etc/apparmor.d";

/// How many states an automaton may have, unless another number is given.
const STATES: u32 = 65535;

/// The names of the members of a question to files.
const NAMES: [&str; 10] = [
    "files", "includes", "base", "folders", "states", "profile", "program", "owned", "sequence",
    "words",
];

/// Of a question how two policies differ.
const DIFF_NAMES: [&str; 4] = ["old", "new", "gains", "profiles"];

/// Of each of its sides.
const SIDE_NAMES: [&str; 5] = ["files", "includes", "base", "folders", "states"];

/// Each member of an object has one of these names.
fn expect_known(
    alloc: Global,
    members: &Map<String, Value>,
    names: &[&str],
) -> Result<(), QuestionFault>
    ensures { Gives (λ u. u) result (none_unknown (unknown_in (slices names.now) (members_view members.now.entries))) }
{
    match unknown_in(members, names) {
        None => Ok(()),
        Some(name) => { Err(QuestionFault::Unknown(Text::copy_of(alloc, name.as_bytes())?)) }
    }
}

/// The value is an object whose members all have one of these names.
fn expect_members(alloc: Global, value: &Value, names: &[&str]) -> Result<(), QuestionFault>
    ensures { Gives (λ u. u) result (members_known (slices names.now) (view value.now)) }
{
    match value.as_object() {
        Some(members) => expect_known(alloc, members, names),
        None => Err(QuestionFault::NotObject),
    }
}

/// The files that are asked, one at least.
fn files_in(alloc: Global, value: &Value) -> Result<Vec<Row>, QuestionFault>
    ensures { Gives (λ v. map row_of v.items) result (files_in (view value.now)) }
{
    match rows_list(alloc, value, "files")? {
        Some(files) if !files.is_empty() => Ok(files),
        _ => Err(QuestionFault::Bad(Member::Files)),
    }
}

/// The paths of texts.
fn paths_of(alloc: Global, rows: &[Row]) -> Result<Vec<Vec<u8>>, AllocError>
    ensures { IfOk result (λ paths. texts paths.items ≡ map (λ r. r.0.items) rows.now) }
{
    let mut paths = Vec::with_capacity(alloc, rows.len())?;
    for row in rows {
        paths.push(Vec::from_slice(alloc, row.0.as_slice())?)?;
    }
    Ok(paths)
}

/// These files, and the texts that may be included.
fn files_of(alloc: Global, rows: Vec<Row>, mut includes: Vec<Row>) -> Result<AskedFiles, AllocError>
    ensures { IfOk result (λ f. files_data f ≡ record { paths = map (λ row. row.0) (map row_of rows.items); texts = put_all (map row_of rows.items ++ map row_of includes.items) [] }) }
{
    let paths = paths_of(alloc, rows.as_slice())?;
    let mut rows = rows;
    rows.append(&mut includes)?;
    let texts = Texts::of(alloc, rows)?;
    Ok(AskedFiles { paths, texts })
}

#[tactic(auto, unfolding(crate::specs::Questions::asked_files))]
fn asked_files(alloc: Global, value: &Value) -> Result<AskedFiles, QuestionFault>
    ensures { Gives files_data result (asked_files (view value.now)) }
{
    let rows = files_in(alloc, value)?;
    let Some(includes) = rows_list(alloc, value, "includes")? else {
        return Err(QuestionFault::Bad(Member::Includes));
    };
    Ok(files_of(alloc, rows, includes)?)
}

#[tactic(auto, unfolding(crate::specs::Questions::asked_places))]
fn asked_places(alloc: Global, value: &Value) -> Result<AskedPlaces, QuestionFault>
    ensures { Gives places_data result (asked_places (view value.now)) }
{
    let Some(base) = bytes_or(alloc, value, "base", BASE)? else {
        return Err(QuestionFault::Bad(Member::Base));
    };
    let Some(folders) = bytes_list(alloc, value, "folders")? else {
        return Err(QuestionFault::Bad(Member::Folders));
    };
    let Some(states) = states_of(value, "states", STATES) else {
        return Err(QuestionFault::Bad(Member::States));
    };
    Ok(AskedPlaces {
        base,
        folders,
        states,
    })
}

#[tactic(auto, unfolding(crate::specs::Questions::asked_manner))]
fn asked_manner(alloc: Global, value: &Value) -> Result<AskedManner, QuestionFault>
    ensures { Gives manner_data result (asked_manner (view value.now)) }
{
    let Some(profile) = bytes_if(alloc, value, "profile")? else {
        return Err(QuestionFault::Bad(Member::Profile));
    };
    let Some(program) = bytes_if(alloc, value, "program")? else {
        return Err(QuestionFault::Bad(Member::Program));
    };
    let Some(owned) = flag_of(value, "owned") else {
        return Err(QuestionFault::Bad(Member::Owned));
    };
    let Some(is_sequence) = flag_of(value, "sequence") else {
        return Err(QuestionFault::Bad(Member::Sequence));
    };
    Ok(AskedManner {
        profile,
        program,
        owned,
        is_sequence,
    })
}

fn asked_words(alloc: Global, value: &Value) -> Result<Vec<Vec<u8>>, QuestionFault>
    ensures { Gives (λ v. texts v.items) result (asked_words (view value.now)) }
{
    match bytes_list(alloc, value, "words")? {
        Some(words) => Ok(words),
        None => Err(QuestionFault::Bad(Member::Words)),
    }
}

#[tactic(auto, unfolding(crate::specs::Questions::asked_in))]
fn asked_in(alloc: Global, value: &Value) -> Result<Question, QuestionFault>
    ensures { Gives asked result (asked_in (view value.now)) }
{
    expect_members(alloc, value, &NAMES)?;
    Ok(Question {
        files: asked_files(alloc, value)?,
        places: asked_places(alloc, value)?,
        manner: asked_manner(alloc, value)?,
        words: asked_words(alloc, value)?,
    })
}

/// The JSON value of bytes.
#[tactic(auto, using(crate::proofs::Json::read_so, crate::proofs::Json::read_not))]
fn json_of(alloc: Global, bytes: &[u8]) -> Result<Value, QuestionFault>
    ensures { Gives view result (json_of bytes.now) }
{
    match Value::from_slice(alloc, bytes) {
        Ok(value) => Ok(value),
        Err(e) if e.is_memory() => Err(QuestionFault::NoMemory),
        Err(_) => Err(QuestionFault::NotJson),
    }
}

fn read(alloc: Global, bytes: &[u8]) -> Result<Question, QuestionFault>
    ensures { Gives asked result (question_of bytes.now) }
{
    let value = json_of(alloc, bytes)?;
    asked_in(alloc, &value)
}

/// The question that bytes are.
///
/// Refused in this order: `NotJson`; `NotObject`; `Unknown` for a member that there isn't; `Bad` for one whose value isn't understood, in
/// the order of `Member`. Want of memory (`NoMemory`) may be met before any of them.
pub fn read_question(alloc: Global, bytes: &[u8]) -> Result<Question, QuestionFault>
    ensures read { IfOk result (λ q. question_of bytes.now ≡ Ok (asked q)) }
    ensures refused { IfErr result (λ e. e ≢ QuestionFault.NoMemory → question_of bytes.now ≡ Err e) }
{
    read(alloc, bytes)
}

/// One side of a comparison.
#[tactic(auto, unfolding(crate::specs::Questions::asked_side))]
fn asked_side(alloc: Global, value: &Value) -> Result<AskedSide, QuestionFault>
    ensures { Gives side_data result (asked_side (view value.now)) }
{
    expect_members(alloc, value, &SIDE_NAMES)?;
    Ok(AskedSide {
        files: asked_files(alloc, value)?,
        places: asked_places(alloc, value)?,
    })
}

/// A fault of the object that a member is.
fn fault_in(side: Member, fault: QuestionFault) -> QuestionFault
    ensures { result ≡ fault_in side fault }
{
    match fault {
        QuestionFault::NotObject => QuestionFault::Bad(side),
        QuestionFault::Unknown(name) => QuestionFault::UnknownIn(side, name),
        QuestionFault::Bad(member) => QuestionFault::BadIn(side, member),
        other => other,
    }
}

fn side_within(alloc: Global, side: Member, value: &Value) -> Result<AskedSide, QuestionFault>
    ensures { Gives side_data result (within side (asked_side (view value.now))) }
{
    match asked_side(alloc, value) {
        Ok(found) => Ok(found),
        Err(fault) => Err(fault_in(side, fault)),
    }
}

/// The side that a member is, which must be there.
fn side_of(alloc: Global, side: Member, value: Option<&Value>) -> Result<AskedSide, QuestionFault>
    ensures { Gives side_data result (side_of side (option_map (λ v. view v.now) value.entry)) }
{
    match value {
        Some(value) => side_within(alloc, side, value),
        None => Err(QuestionFault::Bad(side)),
    }
}

fn old_side(alloc: Global, value: &Value) -> Result<AskedSide, QuestionFault>
    ensures { Gives side_data result (side_of Old (get (codes "old") (view value.now))) }
{
    side_of(alloc, Member::Old, value.get("old"))
}

fn new_side(alloc: Global, value: &Value) -> Result<AskedSide, QuestionFault>
    ensures { Gives side_data result (side_of New (get (codes "new") (view value.now))) }
{
    side_of(alloc, Member::New, value.get("new"))
}

fn asked_gains(value: &Value) -> Result<bool, QuestionFault>
    ensures { Gives (λ b. b) result (asked_gains (view value.now)) }
{
    match flag_of(value, "gains") {
        Some(gains) => Ok(gains),
        None => Err(QuestionFault::Bad(Member::Gains)),
    }
}

fn asked_profiles(alloc: Global, value: &Value) -> Result<Vec<Vec<u8>>, QuestionFault>
    ensures { Gives (λ v. texts v.items) result (asked_profiles (view value.now)) }
{
    match bytes_list(alloc, value, "profiles")? {
        Some(profiles) => Ok(profiles),
        None => Err(QuestionFault::Bad(Member::Profiles)),
    }
}

#[tactic(auto, unfolding(crate::specs::Questions::diff_in))]
fn diff_in(alloc: Global, value: &Value) -> Result<DiffQuestion, QuestionFault>
    ensures { Gives diff_asked result (diff_in (view value.now)) }
{
    expect_members(alloc, value, &DIFF_NAMES)?;
    Ok(DiffQuestion {
        old: old_side(alloc, value)?,
        new: new_side(alloc, value)?,
        gains: asked_gains(value)?,
        profiles: asked_profiles(alloc, value)?,
    })
}

fn read_diff(alloc: Global, bytes: &[u8]) -> Result<DiffQuestion, QuestionFault>
    ensures { Gives diff_asked result (diff_question_of bytes.now) }
{
    let value = json_of(alloc, bytes)?;
    diff_in(alloc, &value)
}

/// The question how two policies differ that bytes are.
///
/// Refused in the order of `read_question`, a fault of `old` before one of `new`: where one of them is missing or no object as `Bad`, its
/// members as `UnknownIn` and `BadIn`.
pub fn read_diff_question(alloc: Global, bytes: &[u8]) -> Result<DiffQuestion, QuestionFault>
    ensures read { IfOk result (λ q. diff_question_of bytes.now ≡ Ok (diff_asked q)) }
    ensures refused { IfErr result (λ e. e ≢ QuestionFault.NoMemory → diff_question_of bytes.now ≡ Err e) }
{
    read_diff(alloc, bytes)
}
