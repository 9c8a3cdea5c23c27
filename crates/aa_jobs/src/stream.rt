//! A job's value in one pass over its tokens. No tree is made of an item: of each of its values is kept what an item looks at.

ghost use Rattle.std.specs.Prelude.{◌≡◌, ◌<◌, [], ◌∷◌, List, Result, MatchResult, codes, length, map, option_map};
ghost use Rattle.json.specs.Json.{items, members, parse_map, read_key, value};
ghost use Rattle.json.specs.Reads.{token_of};
ghost use Rattle.serde_json.specs.Data.{no_members, object};
ghost use Rattle.serde_json.specs.Read.{converted, of_json, of_items, of_members};
ghost use Rattle.aa_jobs.specs.declared.job_fault.JobFault.{JobFault};
ghost use Rattle.aa_jobs.specs.declared.job_fault.JobFault.TheVariants.{NotJson};
ghost use Rattle.aa_jobs.specs.Items.{look, value_data};
ghost use Rattle.aa_jobs.specs.Made.{MadeTask, made_items, made_items_shape, made_job_shape, made_task_shape, made_tasks_shape, mapped};
ghost use Rattle.aa_jobs.specs.Raw.{raw_item, raw_items, raw_job, raw_task};
ghost use Rattle.aa_jobs.specs.Shape.{data_list, item_shape};
ghost use Rattle.aa_jobs.specs.Steps.{Gives, each, needed};
ghost use Rattle.aa_jobs.specs.Stream.{Reads, ReadsApart, followed};
ghost use Rattle.aa_jobs.specs.Trees.{object_data};
ghost use Rattle.aa_jobs.specs.Written.{WrittenItem};

use crate::job_fault::JobFault;
use crate::keyed::{self, ItemMember, ItemValue};
use crate::raw::{RawItem, RawItems, RawJob, RawTask};
use crate::tree::{self, Member, Tree};
use crate::{meaning, shape};
use json::{Reader, Token, Value};
use std::alloc::Global;

/// What stands in a value, or the fault of its shape: a later fault of the whole text may count before it.
type Shaped<X> = Result<X, JobFault>;

#[inline(always)]
fn next_token<'t>(reader: &mut Reader<'t>) -> Result<Token<'t>, JobFault>
    ensures { MatchResult result (λ t. reader.old ≡ token_of t ∷ reader.new) (λ e. (e ≡ NotJson) × (reader.old ≡ [])) }
{
    match reader.next() {
        Some(token) => Ok(token),
        None => Err(JobFault::NotJson),
    }
}

#[inline(always)]
fn next_key<'t>(reader: &mut Reader<'t>) -> Result<Option<&'t str>, JobFault>
    ensures { Gives (λ k. (option_map (λ s. s.now) k, reader.new)) result (needed NotJson (read_key reader.old)) }
{
    match reader.next_key() {
        Ok(key) => Ok(key),
        Err(_) => Err(JobFault::NotJson),
    }
}

/// Passes the next value.
fn pass_next(alloc: Global, reader: &mut Reader, depth: usize) -> Result<(), JobFault>
    ensures { Gives (λ _. reader.new) result (needed NotJson (option_map (λ p. p.1) (converted of_json (value depth reader.old)))) }
{
    tree::next(alloc, reader, depth)?;
    Ok(())
}

/// Passes the items of an array.
fn pass_items(alloc: Global, reader: &mut Reader, depth: usize) -> Result<(), JobFault>
    ensures { Gives (λ _. reader.new) result (needed NotJson (option_map (λ p. p.1) (converted of_items (items (value depth) (length reader.old) reader.old)))) }
{
    'turns: while !reader.take_end_array() {
        pass_next(alloc, reader, depth)?;
    }
    Ok(())
}

/// Passes the members of an object.
fn pass_members(alloc: Global, reader: &mut Reader, depth: usize) -> Result<(), JobFault>
    ensures { Gives (λ _. reader.new) result (needed NotJson (option_map (λ p. p.1) (converted (λ ms. of_members ms no_members) (members (value depth) (length reader.old) reader.old)))) }
{
    'turns: while let Some(_) = next_key(reader)? {
        pass_next(alloc, reader, depth)?;
    }
    Ok(())
}

/// Passes the value that begins with the token.
fn pass(alloc: Global, reader: &mut Reader, token: Token, depth: usize) -> Result<(), JobFault>
    requires { 0 < depth }
    ensures { Gives (λ _. reader.new) result (needed NotJson (option_map (λ p. p.1) (converted of_json (value depth (token_of token.entry ∷ reader.old))))) }
{
    match token {
        Token::Null => Ok(()),
        Token::Bool(_) => Ok(()),
        Token::String(_) => Ok(()),
        Token::Number(digits) => {
            if tree::is_number_in_range(digits.as_bytes()) {
                Ok(())
            } else {
                Err(JobFault::NotJson)
            }
        }
        Token::BeginArray => pass_items(alloc, reader, depth - 1),
        Token::BeginObject => pass_members(alloc, reader, depth - 1),
        Token::EndArray => Err(JobFault::NotJson),
        Token::EndObject => Err(JobFault::NotJson),
        Token::Key(_) => Err(JobFault::NotJson),
        Token::Bad => Err(JobFault::NotJson),
    }
}

/// The next value, as an item looks at it.
fn item_value<'t>(
    alloc: Global,
    reader: &mut Reader<'t>,
    depth: usize,
) -> Result<ItemValue<'t>, JobFault>
    requires { 0 < depth }
    ensures { Gives (λ v. (look (value_data v), reader.new)) result (needed NotJson (parse_map look (converted of_json (value depth reader.old)))) }
{
    let token = next_token(reader)?;
    match token {
        Token::String(text) => Ok(ItemValue::Text(text)),
        Token::Bool(flag) => Ok(ItemValue::Flag(flag)),
        Token::Number(number) => {
            if tree::is_number_in_range(number.as_bytes()) {
                Ok(ItemValue::Number(number))
            } else {
                Err(JobFault::NotJson)
            }
        }
        _ => {
            pass(alloc, reader, token, depth)?;
            Ok(ItemValue::Other)
        }
    }
}

/// The rest of an item that is an object. The list is room for its members, which items have one after another.
fn rest_of_item<'t>(
    alloc: Global,
    reader: &mut Reader<'t>,
    depth: usize,
    room: &mut Vec<ItemMember<'t>>,
) -> Result<Shaped<RawItem<'t>>, JobFault>
    requires { 0 < depth }
    ensures { Reads raw_item result reader.new (parse_map (λ ms. item_shape (object ms)) (converted (λ ms. of_members ms no_members) (members (value depth) (length reader.old) reader.old))) }
{
    room.clear();
    let mut known = true;
    'turns: while let Some(name) = next_key(reader)? {
        let value = item_value(alloc, reader, depth)?;
        known = keyed::keep(room, known, name, value)?;
    }
    if known {
        Ok(keyed::request_item(room.as_slice()))
    } else {
        Ok(Err(JobFault::BadShape))
    }
}

fn item<'t>(
    alloc: Global,
    reader: &mut Reader<'t>,
    depth: usize,
    room: &mut Vec<ItemMember<'t>>,
) -> Result<Shaped<RawItem<'t>>, JobFault>
    requires { 1 < depth }
    ensures { Reads raw_item result reader.new (parse_map item_shape (converted of_json (value depth reader.old))) }
{
    let token = next_token(reader)?;
    match token {
        Token::BeginObject => rest_of_item(alloc, reader, depth - 1, room),
        Token::String(word) => Ok(keyed::word_item(word)),
        _ => {
            pass(alloc, reader, token, depth)?;
            Ok(Err(JobFault::BadShape))
        }
    }
}

/// The items with what one more asks.
fn with_item(alloc: Global, items: Shaped<RawItems>, item: Shaped<RawItem>) -> Shaped<RawItems>
    ensures { (front : Result (List WrittenItem) JobFault) (last : Result WrittenItem JobFault) → Gives raw_items items (mapped made_items front) → Gives raw_item item.entry last → Gives raw_items result (mapped made_items (followed front last)) }
{
    let mut items = items?;
    let item = item?;
    meaning::add_item(alloc, &mut items, &item)?;
    Ok(items)
}

/// The rest of an array of items.
fn rest_of_items(
    alloc: Global,
    reader: &mut Reader,
    depth: usize,
) -> Result<Shaped<RawItems>, JobFault>
    requires { 1 < depth }
    ensures { Reads raw_items result reader.new (parse_map (λ ds. mapped made_items (each item_shape (data_list ds))) (converted of_items (items (value depth) (length reader.old) reader.old))) }
{
    let mut items = Ok(RawItems {
        works: Vec::new(alloc),
        are_good: true,
    });
    let mut room = Vec::new(alloc);
    'turns: while !reader.take_end_array() {
        let item = item(alloc, reader, depth, &mut room)?;
        items = with_item(alloc, items, item);
    }
    Ok(items)
}

/// The items of a task.
fn items(alloc: Global, reader: &mut Reader, depth: usize) -> Result<Shaped<RawItems>, JobFault>
    requires { 2 < depth }
    ensures { Reads raw_items result reader.new (parse_map made_items_shape (converted of_json (value depth reader.old))) }
{
    let token = next_token(reader)?;
    if let Token::BeginArray = token {
        rest_of_items(alloc, reader, depth - 1)
    } else {
        pass(alloc, reader, token, depth)?;
        Ok(Err(JobFault::BadShape))
    }
}

/// The rest of a task's object: its members but for the requests, in whose place a null stands, and the last requests.
fn rest_of_task<'t>(
    alloc: Global,
    reader: &mut Reader<'t>,
    depth: usize,
) -> Result<(Vec<Member<'t>>, Shaped<RawItems>), JobFault>
    requires { 2 < depth }
    ensures { ReadsApart (λ ms. object_data ms.items) (codes "requests") raw_items made_items_shape result reader.new (converted (λ ms. of_members ms no_members) (members (value depth) (length reader.old) reader.old)) }
{
    let mut members = Vec::new(alloc);
    let mut requests = Err(JobFault::BadShape);
    'turns: while let Some(key) = next_key(reader)? {
        if key == "requests" {
            requests = items(alloc, reader, depth)?;
            members.push((key, Value::Null))?;
            continue;
        }
        let value = tree::next(alloc, reader, depth)?;
        members.push((key, value))?;
    }
    Ok((members, requests))
}

fn task(alloc: Global, reader: &mut Reader, depth: usize) -> Result<Shaped<RawTask>, JobFault>
    requires { 3 < depth }
    ensures { Reads raw_task result reader.new (parse_map made_task_shape (converted of_json (value depth reader.old))) }
{
    let token = next_token(reader)?;
    if let Token::BeginObject = token {
        let (members, requests) = rest_of_task(alloc, reader, depth - 1)?;
        Ok(shape::task(alloc, members.as_slice(), requests))
    } else {
        pass(alloc, reader, token, depth)?;
        Ok(Err(JobFault::BadShape))
    }
}

fn with_task(tasks: Shaped<Vec<RawTask>>, task: Shaped<RawTask>) -> Shaped<Vec<RawTask>>
    ensures { (front : Result (List MadeTask) JobFault) (last : Result MadeTask JobFault) → Gives (λ v. map raw_task v.items) tasks front → Gives raw_task task last → Gives (λ v. map raw_task v.items) result (followed front last) }
{
    let mut tasks = tasks?;
    tasks.push(task?)?;
    Ok(tasks)
}

/// The rest of an array of tasks.
fn rest_of_tasks(
    alloc: Global,
    reader: &mut Reader,
    depth: usize,
) -> Result<Shaped<Vec<RawTask>>, JobFault>
    requires { 3 < depth }
    ensures { Reads (λ v. map raw_task v.items) result reader.new (parse_map (λ ds. each made_task_shape (data_list ds)) (converted of_items (items (value depth) (length reader.old) reader.old))) }
{
    let mut tasks = Ok(Vec::new(alloc));
    'turns: while !reader.take_end_array() {
        let task = task(alloc, reader, depth)?;
        tasks = with_task(tasks, task);
    }
    Ok(tasks)
}

/// The tasks of a job.
fn tasks(alloc: Global, reader: &mut Reader, depth: usize) -> Result<Shaped<Vec<RawTask>>, JobFault>
    requires { 4 < depth }
    ensures { Reads (λ v. map raw_task v.items) result reader.new (parse_map made_tasks_shape (converted of_json (value depth reader.old))) }
{
    let token = next_token(reader)?;
    if let Token::BeginArray = token {
        rest_of_tasks(alloc, reader, depth - 1)
    } else {
        pass(alloc, reader, token, depth)?;
        Ok(Err(JobFault::BadShape))
    }
}

/// The rest of a job's object: its members but for the tasks, in whose place a null stands, and the last tasks.
fn rest_of_job<'t>(
    alloc: Global,
    reader: &mut Reader<'t>,
    depth: usize,
) -> Result<(Vec<Member<'t>>, Shaped<Vec<RawTask>>), JobFault>
    requires { 4 < depth }
    ensures { ReadsApart (λ ms. object_data ms.items) (codes "tasks") (λ v. map raw_task v.items) made_tasks_shape result reader.new (converted (λ ms. of_members ms no_members) (members (value depth) (length reader.old) reader.old)) }
{
    let mut members = Vec::new(alloc);
    let mut found = Err(JobFault::BadShape);
    'turns: while let Some(key) = next_key(reader)? {
        if key == "tasks" {
            found = tasks(alloc, reader, depth)?;
            members.push((key, Value::Null))?;
            continue;
        }
        let value = tree::next(alloc, reader, depth)?;
        members.push((key, value))?;
    }
    Ok((members, found))
}

/// What stands in a job.
pub fn job(alloc: Global, reader: &mut Reader, depth: usize) -> Result<Shaped<RawJob>, JobFault>
    requires { 5 < depth }
    ensures { Reads raw_job result reader.new (parse_map made_job_shape (converted of_json (value depth reader.old))) }
{
    let token = next_token(reader)?;
    if let Token::BeginObject = token {
        let (members, tasks) = rest_of_job(alloc, reader, depth - 1)?;
        Ok(shape::job(alloc, members.as_slice(), tasks))
    } else {
        pass(alloc, reader, token, depth)?;
        Ok(Err(JobFault::BadShape))
    }
}
