//! Reads the report of a part.

ghost use Rattle.std.specs.Prelude.{◌≡◌, codes, map, Option, Some, None, option_map, option_and_then, is_some, IfOk};
ghost use Rattle.json.specs.Value.{value_view};
ghost use Rattle.json.specs.Find.{get, as_str};
ghost use Rattle.aa_merge.specs.declared.fault.Member.TheVariants as of;
ghost use Rattle.aa_merge.specs.Held.{row_data, passed_data, unclear_data, part_data};
ghost use Rattle.aa_merge.specs.Steps.{Gives, IsFaultOf, each};
ghost use Rattle.aa_merge.specs.Reasons.{reason_named};
ghost use Rattle.aa_merge.specs.Reading.{bytes_in, number_in, then_named, list_in, member_in, known_from, request_of, row_in, passed_in, unclear_in, each_in, left_out_in, unanswered, report_in, report_of};

use crate::fault::{Member, PartFault};
use crate::named::{reason_named, then_named};
use crate::part::{Part, PartRow, PartSkipped, PartUnclear};
use crate::values::{Tree, bytes_of, list_of, number_of, request_of};
use aa_logs::Then;
use aa_model::Request;
use json::{Error, Scratch, Value};
use std::alloc::Global;

/// The bytes that a key has to have.
fn bytes_at(
    alloc: Global,
    value: &Tree<'_>,
    member: Member,
    key: &str,
) -> Result<Vec<u8>, PartFault>
    ensures { Gives (λ b. b.items) result (member_in member key.now bytes_in (value_view value.now)) }
{
    let Some(found) = value.get(key) else {
        return Err(PartFault::NotAReport(member));
    };
    match bytes_of(alloc, found)? {
        Some(bytes) => Ok(bytes),
        None => Err(PartFault::NotAReport(member)),
    }
}

/// The number that a key has to have.
fn number_at(value: &Tree<'_>, member: Member, key: &str) -> Result<u64, PartFault>
    ensures { Gives (λ n. n) result (member_in member key.now number_in (value_view value.now)) }
{
    match value.get(key) {
        Some(found) => number_of(found).ok_or(PartFault::NotAReport(member)),
        None => Err(PartFault::NotAReport(member)),
    }
}

/// The items of the list that a key has to have.
fn list_at<'v, 't>(
    value: &'v Tree<'t>,
    member: Member,
    key: &str,
) -> Result<&'v [Tree<'t>], PartFault>
    ensures { Gives (λ s. map value_view s.now) result (member_in member key.now list_in (value_view value.now)) }
{
    match value.get(key) {
        Some(found) => list_of(found).ok_or(PartFault::NotAReport(member)),
        None => Err(PartFault::NotAReport(member)),
    }
}

fn then_of(value: &Tree<'_>) -> Option<Then>
    ensures { result ≡ option_and_then then_named (as_str (value_view value.now)) }
{
    match value.as_str() {
        Some(word) => then_named(word),
        None => None,
    }
}

fn then_at(value: &Tree<'_>) -> Result<Then, PartFault>
    ensures { Gives (λ t. t) result (member_in of.Then (codes "then") (λ v. option_and_then then_named (as_str v)) (value_view value.now)) }
{
    match value.get("then") {
        Some(found) => then_of(found).ok_or(PartFault::NotAReport(Member::Then)),
        None => Err(PartFault::NotAReport(Member::Then)),
    }
}

fn request_at(alloc: Global, value: &Tree<'_>) -> Result<Request, PartFault>
    ensures { Gives (λ r. r) result (member_in of.Request (codes "request") request_of (value_view value.now)) }
{
    let Some(found) = value.get("request") else {
        return Err(PartFault::NotAReport(Member::Request));
    };
    match request_of(alloc, found)? {
        Some(request) => Ok(request),
        None => Err(PartFault::NotAReport(Member::Request)),
    }
}

fn reason_of(value: &Tree<'_>) -> Option<(u8, &'static str)>
    ensures { option_map (λ r. (r.0, r.1.now)) result ≡ option_and_then reason_named (as_str (value_view value.now)) }
{
    match value.as_str() {
        Some(text) => reason_named(text),
        None => None,
    }
}

fn reason_at(value: &Tree<'_>) -> Result<(u8, &'static str), PartFault>
    ensures { Gives (λ r. (r.0, r.1.now)) result (member_in of.Reason (codes "reason") (λ v. option_and_then reason_named (as_str v)) (value_view value.now)) }
{
    match value.get("reason") {
        Some(found) => reason_of(found).ok_or(PartFault::NotAReport(Member::Reason)),
        None => Err(PartFault::NotAReport(Member::Reason)),
    }
}

/// A row of requests.
#[tactic(auto, unfolding(crate::specs::Reading::row_in))]
fn row(alloc: Global, value: &Tree<'_>) -> Result<PartRow, PartFault>
    ensures { Gives row_data result (row_in (value_view value.now)) }
{
    let then = then_at(value)?;
    let profile = bytes_at(alloc, value, Member::Profile, "profile")?;
    let request = request_at(alloc, value)?;
    let count = number_at(value, Member::Count, "count")?;
    let path = bytes_at(alloc, value, Member::Path, "path")?;
    let line = number_at(value, Member::Line, "line")?;
    Ok(PartRow {
        then,
        profile,
        request,
        count,
        path,
        line,
    })
}

/// Lines that ask nothing.
#[tactic(auto, unfolding(crate::specs::Reading::passed_in))]
fn skipped(alloc: Global, value: &Tree<'_>) -> Result<PartSkipped, PartFault>
    ensures { Gives passed_data result (passed_in (value_view value.now)) }
{
    let reason = reason_at(value)?;
    let count = number_at(value, Member::Count, "count")?;
    let path = bytes_at(alloc, value, Member::Path, "path")?;
    let line = number_at(value, Member::Line, "line")?;
    Ok(PartSkipped {
        reason,
        count,
        path,
        line,
    })
}

/// Lines that aren't understood.
#[tactic(auto, unfolding(crate::specs::Reading::unclear_in))]
fn unclear(alloc: Global, value: &Tree<'_>) -> Result<PartUnclear, PartFault>
    ensures { Gives unclear_data result (unclear_in (value_view value.now)) }
{
    let count = number_at(value, Member::Count, "count")?;
    let path = bytes_at(alloc, value, Member::Path, "path")?;
    let line = number_at(value, Member::Line, "line")?;
    Ok(PartUnclear { count, path, line })
}

fn rows(alloc: Global, list: &[Tree<'_>]) -> Result<Vec<PartRow>, PartFault>
    ensures { Gives (λ v. map row_data v.items) result (each row_in (map value_view list.now)) }
{
    let mut rows = Vec::with_capacity(alloc, list.len())?;
    for value in list {
        rows.push(row(alloc, value)?)?;
    }
    Ok(rows)
}

fn all_skipped(alloc: Global, list: &[Tree<'_>]) -> Result<Vec<PartSkipped>, PartFault>
    ensures { Gives (λ v. map passed_data v.items) result (each passed_in (map value_view list.now)) }
{
    let mut found = Vec::with_capacity(alloc, list.len())?;
    for value in list {
        found.push(skipped(alloc, value)?)?;
    }
    Ok(found)
}

fn each_skipped(alloc: Global, value: &Tree<'_>) -> Result<Vec<PartSkipped>, PartFault>
    ensures { Gives (λ v. map passed_data v.items) result (each_in (value_view value.now)) }
{
    match list_of(value) {
        Some(list) => all_skipped(alloc, list),
        None => Err(PartFault::NotAReport(Member::SkippedLines)),
    }
}

/// Each line that asks nothing, where these are listed.
fn each_at(alloc: Global, value: &Tree<'_>) -> Result<Option<Vec<PartSkipped>>, PartFault>
    ensures { Gives (option_map (λ v. map passed_data v.items)) result (known_from each_in (get (codes "skipped_lines") (value_view value.now))) }
{
    match value.get("skipped_lines") {
        Some(found) => Ok(Some(each_skipped(alloc, found)?)),
        None => Ok(None),
    }
}

fn left_out(value: &Tree<'_>) -> Result<u64, PartFault>
    ensures { Gives (λ n. n) result (left_out_in (value_view value.now)) }
{
    number_of(value).ok_or(PartFault::NotAReport(Member::LeftOut))
}

fn left_out_at(value: &Tree<'_>) -> Result<Option<u64>, PartFault>
    ensures { Gives (λ n. n) result (known_from left_out_in (get (codes "left_out") (value_view value.now))) }
{
    match value.get("left_out") {
        Some(found) => Ok(Some(left_out(found)?)),
        None => Ok(None),
    }
}

fn unclear_at(alloc: Global, value: &Tree<'_>) -> Result<Option<PartUnclear>, PartFault>
    ensures { Gives (option_map unclear_data) result (known_from unclear_in (get (codes "unclear") (value_view value.now))) }
{
    match value.get("unclear") {
        Some(found) => Ok(Some(unclear(alloc, found)?)),
        None => Ok(None),
    }
}

/// The value isn't answered by a policy.
fn expect_unanswered(value: &Tree<'_>) -> Result<(), PartFault>
    ensures { Gives (λ u. u) result (unanswered (value_view value.now)) }
{
    if value.get("counts").is_some() {
        return Err(PartFault::Answered);
    }
    Ok(())
}

/// The report that a value is.
#[tactic(auto, unfolding(crate::specs::Reading::report_in))]
fn report(alloc: Global, value: &Tree<'_>) -> Result<Part, PartFault>
    ensures { Gives part_data result (report_in (value_view value.now)) }
{
    expect_unanswered(value)?;
    let requests = rows(alloc, list_at(value, Member::Requests, "requests")?)?;
    let skipped = all_skipped(alloc, list_at(value, Member::Skipped, "skipped")?)?;
    let each = each_at(alloc, value)?;
    let lines = number_at(value, Member::Lines, "lines")?;
    let asking = number_at(value, Member::Asking, "asking")?;
    let other = number_at(value, Member::Other, "other")?;
    let left_out = left_out_at(value)?;
    let unclear = unclear_at(alloc, value)?;
    Ok(Part {
        requests,
        skipped,
        each,
        lines,
        asking,
        other,
        left_out,
        unclear,
    })
}

/// Why bytes aren't read as JSON. They are never too long, and a key may stand twice.
fn fault_of(error: Error) -> PartFault
    ensures { IsFaultOf error result }
{
    match error {
        Error::Invalid => PartFault::NotJson,
        _ => PartFault::NoMemory,
    }
}

/// The report that the bytes of a part are, as `log --json` prints it. Refused are bytes that are no JSON, what a policy answered,
/// and what lacks a member or has another in its place.
pub fn read_part(alloc: Global, bytes: &[u8]) -> Result<Part, PartFault>
    ensures { Gives part_data result (report_of bytes.now) }
{
    let mut scratch = Scratch::new(alloc);
    match Value::from_slice(alloc, bytes, &mut scratch) {
        Ok(value) => report(alloc, &value),
        Err(error) => Err(fault_of(error)),
    }
}
