//! Requests of a word that stand for all of them.

ghost use Rattle.std.specs.Prelude.{◌≡◌, ◌≢◌, ◌+◌, ◌++◌, ◌<◌, ◌≤◌, ◌∷◌, [], true, false, Err, IfOk, OnOk, Contains, length};
ghost use Rattle.aa_pattern.specs.Limits.{most_patterns, most_states};
ghost use Rattle.aa_pattern.specs.Matching.{is_match};
ghost use Rattle.aa_auto.specs.Tables.{HasPlaces};
ghost use Rattle.aa_base.specs.declared.perms.Perms.{Perms};
ghost use Rattle.aa_model.specs.Requests.{is_mask, is_path};
ghost use Rattle.aa_model.specs.declared.request.Request.{Request};
ghost use Rattle.aa_regions.specs.declared.regions.Region.{Region};
ghost use Rattle.aa_regions.specs.Regions.{IsAsked};
ghost use Rattle.aa_representatives.specs.Representatives.{Adds};
ghost use Rattle.aa_quantifiers.specs.declared.word.Word.{Word};
ghost use Rattle.aa_compile.specs.Patterns.{is_literal};
ghost use Rattle.aa_representatives.specs.Alike.{filing, deciding};
ghost use Rattle.aa_unclean_paths.specs.Told.{TellsUnclean};
ghost use Rattle.aa_quantifiers.specs.declared.order.Order.{Order};
ghost use Rattle.aa_quantifiers.specs.Words.{asks_for, IsOf, patterns_at, HavePlaces};
ghost use Rattle.aa_quantifiers.specs.Candidates.{HasFilesBy, HasFilesOf, HasExecsOf};
ghost use Rattle.aa_quantifiers.specs.Quantities.{StandForWord};

use crate::fault::QuantityFault;
use crate::literal::{is_askable, literal_path};
use crate::order::Order;
use crate::word::{ExecsWord, FilesWord, Word};
use aa_base::Perms;
use aa_compile::{Compiled, is_matched};
use aa_model::{Label, Request, RequestFault};
use aa_pattern::Pattern;
use aa_regions::Region;
use aa_representatives::{
    deciding_regions_and_within, deciding_regions_within, filing_regions_and_within,
    filing_regions_within,
};
use aa_unclean_paths::unclean_pattern;
use std::alloc::{AllocError, Global};

/// Adds the request to use a file, where the mask can be asked for.
fn add_file(
    alloc: Global,
    requests: &mut Vec<Request>,
    word: &FilesWord,
    path: &[u8],
    mask: Perms,
    owned: bool,
) -> Result<(), AllocError>
    requires asked { IsAsked path.now }
    requires matched { is_match word.now.pattern.items.items path.now ≡ true }
    requires among { Contains word.now.masks mask }
    requires whose { asks_for word.now.whose owned ≡ true }
    ensures adds { OnOk result (Adds (IsOf (Word.Files word.now)) requests.old.items requests.new.items) }
    ensures has { OnOk result (is_mask mask.0 ≡ true → Contains requests.new.items (Request.File (record { path = path.now; mask = mask; owned = owned }))) }
{
    match Request::file(alloc, path, mask, owned) {
        Ok(request) => {
            requests.push(request)?;
            Ok(())
        }
        Err(RequestFault::BadMask) => Ok(()),
        Err(_) => Err(AllocError),
    }
}

/// Adds it, where files of that owner are asked for.
fn add_file_if_asked(
    alloc: Global,
    requests: &mut Vec<Request>,
    word: &FilesWord,
    path: &[u8],
    mask: Perms,
    owned: bool,
) -> Result<(), AllocError>
    requires asked { IsAsked path.now }
    requires matched { is_match word.now.pattern.items.items path.now ≡ true }
    requires among { Contains word.now.masks mask }
    ensures adds { OnOk result (Adds (IsOf (Word.Files word.now)) requests.old.items requests.new.items) }
    ensures has { OnOk result (is_mask mask.0 ≡ true → asks_for word.now.whose owned ≡ true → Contains requests.new.items (Request.File (record { path = path.now; mask = mask; owned = owned }))) }
{
    if !word.whose.asks(owned) {
        return Ok(());
    }
    add_file(alloc, requests, word, path, mask, owned)
}

/// Adds those of others, and then of the owner.
fn add_files_by(
    alloc: Global,
    requests: &mut Vec<Request>,
    word: &FilesWord,
    path: &[u8],
    mask: Perms,
) -> Result<(), AllocError>
    requires asked { IsAsked path.now }
    requires matched { is_match word.now.pattern.items.items path.now ≡ true }
    requires among { Contains word.now.masks mask }
    ensures adds { OnOk result (Adds (IsOf (Word.Files word.now)) requests.old.items requests.new.items) }
    ensures has { OnOk result (HasFilesBy word.now.whose path.now mask requests.new.items) }
{
    add_file_if_asked(alloc, requests, word, path, mask, false)?;
    add_file_if_asked(alloc, requests, word, path, mask, true)?;
    Ok(())
}

/// Adds those by each of these masks.
fn add_files_to(
    alloc: Global,
    requests: &mut Vec<Request>,
    word: &FilesWord,
    path: &[u8],
    masks: &[Perms],
) -> Result<(), AllocError>
    requires asked { IsAsked path.now }
    requires matched { is_match word.now.pattern.items.items path.now ≡ true }
    requires among { (m : Perms) → Contains masks.now m → Contains word.now.masks m }
    ensures adds { OnOk result (Adds (IsOf (Word.Files word.now)) requests.old.items requests.new.items) }
    ensures has { OnOk result (HasFilesOf word.now.whose path.now masks.now requests.new.items) }
{
    for mask in masks {
        add_files_by(alloc, requests, word, path, *mask)?;
    }
    Ok(())
}

/// Adds those by each of the word's masks.
fn add_files_at(
    alloc: Global,
    requests: &mut Vec<Request>,
    word: &FilesWord,
    path: &[u8],
) -> Result<(), AllocError>
    requires asked { IsAsked path.now }
    requires matched { is_match word.now.pattern.items.items path.now ≡ true }
    ensures adds { OnOk result (Adds (IsOf (Word.Files word.now)) requests.old.items requests.new.items) }
    ensures has { OnOk result (HasFilesOf word.now.whose path.now word.now.masks requests.new.items) }
{
    add_files_to(alloc, requests, word, path, word.masks.as_slice())
}

/// Adds those at the path of a region, where the word's pattern matches it.
fn add_files_if_matched(
    alloc: Global,
    requests: &mut Vec<Request>,
    word: &FilesWord,
    path: &[u8],
) -> Result<(), AllocError>
    requires asked { IsAsked path.now }
    ensures adds { OnOk result (Adds (IsOf (Word.Files word.now)) requests.old.items requests.new.items) }
    ensures has { OnOk result (is_match word.now.pattern.items.items path.now ≡ true → HasFilesOf word.now.whose path.now word.now.masks requests.new.items) }
{
    let is_met = is_matched(&word.pattern, path);
    if !is_met {
        return Ok(());
    }
    add_files_at(alloc, requests, word, path)
}

/// Requests to use files, at the paths of the regions.
fn files_of(alloc: Global, word: &FilesWord, regions: &[Region]) -> Result<Vec<Request>, AllocError>
    requires { (r : Region) → Contains regions.now r → IsAsked r.witness }
    ensures each { IfOk result (λ rs. (r : Request) → Contains rs.items r → IsOf (Word.Files word.now) r) }
    ensures has { IfOk result (λ rs. (r : Region) → Contains regions.now r → is_match word.now.pattern.items.items r.witness ≡ true → HasFilesOf word.now.whose r.witness word.now.masks rs.items) }
{
    let mut requests = Vec::new(alloc);
    for region in regions {
        add_files_if_matched(alloc, &mut requests, word, region.witness.as_slice())?;
    }
    Ok(requests)
}

/// Adds the request to execute a file, where files of that owner are asked for.
fn add_exec_if_asked(
    alloc: Global,
    requests: &mut Vec<Request>,
    word: &ExecsWord,
    path: &[u8],
    owned: bool,
) -> Result<(), AllocError>
    requires asked { IsAsked path.now }
    requires matched { is_match word.now.pattern.items.items path.now ≡ true }
    ensures adds { OnOk result (Adds (IsOf (Word.Execs word.now)) requests.old.items requests.new.items) }
    ensures has { OnOk result (asks_for word.now.whose owned ≡ true → Contains requests.new.items (Request.Exec (record { path = path.now; owned = owned }))) }
{
    if !word.whose.asks(owned) {
        return Ok(());
    }
    match Request::exec(alloc, path, owned) {
        Ok(request) => {
            requests.push(request)?;
            Ok(())
        }
        Err(_) => Err(AllocError),
    }
}

/// Adds those of others, and then of the owner.
fn add_execs_at(
    alloc: Global,
    requests: &mut Vec<Request>,
    word: &ExecsWord,
    path: &[u8],
) -> Result<(), AllocError>
    requires asked { IsAsked path.now }
    requires matched { is_match word.now.pattern.items.items path.now ≡ true }
    ensures adds { OnOk result (Adds (IsOf (Word.Execs word.now)) requests.old.items requests.new.items) }
    ensures has { OnOk result (HasExecsOf word.now.whose path.now requests.new.items) }
{
    add_exec_if_asked(alloc, requests, word, path, false)?;
    add_exec_if_asked(alloc, requests, word, path, true)?;
    Ok(())
}

/// Adds those at the path of a region, where the word's pattern matches it.
fn add_execs_if_matched(
    alloc: Global,
    requests: &mut Vec<Request>,
    word: &ExecsWord,
    path: &[u8],
) -> Result<(), AllocError>
    requires asked { IsAsked path.now }
    ensures adds { OnOk result (Adds (IsOf (Word.Execs word.now)) requests.old.items requests.new.items) }
    ensures has { OnOk result (is_match word.now.pattern.items.items path.now ≡ true → HasExecsOf word.now.whose path.now requests.new.items) }
{
    if !is_matched(&word.pattern, path) {
        return Ok(());
    }
    add_execs_at(alloc, requests, word, path)
}

/// Requests to execute files, at the paths of the regions.
fn execs_of(alloc: Global, word: &ExecsWord, regions: &[Region]) -> Result<Vec<Request>, AllocError>
    requires { (r : Region) → Contains regions.now r → IsAsked r.witness }
    ensures each { IfOk result (λ rs. (r : Request) → Contains rs.items r → IsOf (Word.Execs word.now) r) }
    ensures has { IfOk result (λ rs. (r : Region) → Contains regions.now r → is_match word.now.pattern.items.items r.witness ≡ true → HasExecsOf word.now.whose r.witness rs.items) }
{
    let mut requests = Vec::new(alloc);
    for region in regions {
        add_execs_if_matched(alloc, &mut requests, word, region.witness.as_slice())?;
    }
    Ok(requests)
}

/// Requests at the paths of the regions of the label's rules and the word's pattern.
fn files_by_regions(
    alloc: Global,
    policies: &[Compiled],
    label: Label,
    word: &FilesWord,
    limit: usize,
) -> Result<Vec<Request>, QuantityFault>
    requires some { 0 < limit }
    requires limit { limit ≤ most_states }
    ensures stand { IfOk result (λ rs. StandForWord policies.now label Order.Short (Word.Files word.now) rs.items) }
    ensures many_patterns { result ≡ Err QuantityFault.TooManyPatterns → most_patterns < length (filing policies.now label ++ word.now.pattern ∷ []) }
    ensures few_patterns { IfOk result (λ _. length (filing policies.now label ++ word.now.pattern ∷ []) ≤ most_patterns) }
    ensures many_states { result ≡ Err QuantityFault.TooManyStates → HasPlaces (filing policies.now label ++ word.now.pattern ∷ []) (limit + 1) }
    ensures made { result ≢ Err QuantityFault.NoRequest }
{
    let regions = filing_regions_within(alloc, policies, label, &word.pattern, limit)?;
    let requests = files_of(alloc, word, regions.as_slice())?;
    Ok(requests)
}

/// Those at the paths of the regions of these and a pattern that tells unclean paths.
fn clean_files_by_regions(
    alloc: Global,
    policies: &[Compiled],
    label: Label,
    word: &FilesWord,
    unclean: &Pattern,
    limit: usize,
) -> Result<Vec<Request>, QuantityFault>
    requires unclean { TellsUnclean unclean.now }
    requires some { 0 < limit }
    requires limit { limit ≤ most_states }
    ensures stand { IfOk result (λ rs. StandForWord policies.now label Order.Clean (Word.Files word.now) rs.items) }
    ensures many_patterns { result ≡ Err QuantityFault.TooManyPatterns → most_patterns < length (unclean.now ∷ filing policies.now label ++ word.now.pattern ∷ []) }
    ensures few_patterns { IfOk result (λ _. length (unclean.now ∷ filing policies.now label ++ word.now.pattern ∷ []) ≤ most_patterns) }
    ensures many_states { result ≡ Err QuantityFault.TooManyStates → HasPlaces (unclean.now ∷ filing policies.now label ++ word.now.pattern ∷ []) (limit + 1) }
    ensures made { result ≢ Err QuantityFault.NoRequest }
{
    let pattern = &word.pattern;
    let regions = filing_regions_and_within(alloc, policies, label, unclean, pattern, limit)?;
    let requests = files_of(alloc, word, regions.as_slice())?;
    Ok(requests)
}

/// Those by the regions that an order needs.
fn files_in(
    alloc: Global,
    policies: &[Compiled],
    label: Label,
    word: &FilesWord,
    order: Order,
    limit: usize,
) -> Result<Vec<Request>, QuantityFault>
    requires pattern { is_literal word.now.pattern ≡ false }
    requires some { 0 < limit }
    requires limit { limit ≤ most_states }
    ensures stand { IfOk result (λ rs. StandForWord policies.now label order (Word.Files word.now) rs.items) }
    ensures many_patterns { result ≡ Err QuantityFault.TooManyPatterns → most_patterns < length (patterns_at policies.now label (Word.Files word.now)) + 1 }
    ensures few_patterns { IfOk result (λ _. length (patterns_at policies.now label (Word.Files word.now)) ≤ most_patterns) }
    ensures many_states { result ≡ Err QuantityFault.TooManyStates → HavePlaces policies.now label (Word.Files word.now) (limit + 1) }
    ensures made { result ≢ Err QuantityFault.NoRequest }
{
    match order {
        Order::Short => files_by_regions(alloc, policies, label, word, limit),
        Order::Clean => {
            let unclean = unclean_pattern(alloc)?;
            clean_files_by_regions(alloc, policies, label, word, &unclean, limit)
        }
    }
}

/// Requests at a path, if it can be asked for and the word's pattern matches it.
fn files_at(alloc: Global, word: &FilesWord, path: &[u8]) -> Result<Vec<Request>, AllocError>
    ensures each { IfOk result (λ rs. (r : Request) → Contains rs.items r → IsOf (Word.Files word.now) r) }
    ensures has { IfOk result (λ rs. is_path path.now ≡ true → is_match word.now.pattern.items.items path.now ≡ true → HasFilesOf word.now.whose path.now word.now.masks rs.items) }
{
    let mut requests = Vec::new(alloc);
    let is_path = is_askable(alloc, path)?;
    if !is_path {
        return Ok(requests);
    }
    add_files_if_matched(alloc, &mut requests, word, path)?;
    Ok(requests)
}

/// Requests of a word whose pattern has no wildcard: those at the one path that it can match.
fn files_at_literal(alloc: Global, word: &FilesWord) -> Result<Vec<Request>, AllocError>
    requires { is_literal word.now.pattern ≡ true }
    ensures each { IfOk result (λ rs. (r : Request) → Contains rs.items r → IsOf (Word.Files word.now) r) }
    ensures all { IfOk result (λ rs. (r : Request) → IsOf (Word.Files word.now) r → Contains rs.items r) }
{
    let path = literal_path(alloc, &word.pattern)?;
    let requests = files_at(alloc, word, path.as_slice())?;
    Ok(requests)
}

fn of_files(
    alloc: Global,
    policies: &[Compiled],
    label: Label,
    word: &FilesWord,
    order: Order,
    limit: usize,
) -> Result<Vec<Request>, QuantityFault>
    requires some { 0 < limit }
    requires limit { limit ≤ most_states }
    ensures stand { IfOk result (λ rs. StandForWord policies.now label order (Word.Files word.now) rs.items) }
    ensures many_patterns { result ≡ Err QuantityFault.TooManyPatterns → most_patterns < length (patterns_at policies.now label (Word.Files word.now)) + 1 }
    ensures few_patterns { IfOk result (λ _. length (patterns_at policies.now label (Word.Files word.now)) ≤ most_patterns) }
    ensures many_states { result ≡ Err QuantityFault.TooManyStates → HavePlaces policies.now label (Word.Files word.now) (limit + 1) }
    ensures made { result ≢ Err QuantityFault.NoRequest }
{
    if word.pattern.is_literal() {
        return Ok(files_at_literal(alloc, word)?);
    }
    files_in(alloc, policies, label, word, order, limit)
}

/// Requests at the paths of the regions of the label's rules and the word's pattern.
fn execs_by_regions(
    alloc: Global,
    policies: &[Compiled],
    label: Label,
    word: &ExecsWord,
    limit: usize,
) -> Result<Vec<Request>, QuantityFault>
    requires some { 0 < limit }
    requires limit { limit ≤ most_states }
    ensures stand { IfOk result (λ rs. StandForWord policies.now label Order.Short (Word.Execs word.now) rs.items) }
    ensures many_patterns { result ≡ Err QuantityFault.TooManyPatterns → most_patterns < length (deciding policies.now label ++ word.now.pattern ∷ []) }
    ensures few_patterns { IfOk result (λ _. length (deciding policies.now label ++ word.now.pattern ∷ []) ≤ most_patterns) }
    ensures many_states { result ≡ Err QuantityFault.TooManyStates → HasPlaces (deciding policies.now label ++ word.now.pattern ∷ []) (limit + 1) }
    ensures made { result ≢ Err QuantityFault.NoRequest }
{
    let regions = deciding_regions_within(alloc, policies, label, &word.pattern, limit)?;
    let requests = execs_of(alloc, word, regions.as_slice())?;
    Ok(requests)
}

/// Those at the paths of the regions of these and a pattern that tells unclean paths.
fn clean_execs_by_regions(
    alloc: Global,
    policies: &[Compiled],
    label: Label,
    word: &ExecsWord,
    unclean: &Pattern,
    limit: usize,
) -> Result<Vec<Request>, QuantityFault>
    requires unclean { TellsUnclean unclean.now }
    requires some { 0 < limit }
    requires limit { limit ≤ most_states }
    ensures stand { IfOk result (λ rs. StandForWord policies.now label Order.Clean (Word.Execs word.now) rs.items) }
    ensures many_patterns { result ≡ Err QuantityFault.TooManyPatterns → most_patterns < length (unclean.now ∷ deciding policies.now label ++ word.now.pattern ∷ []) }
    ensures few_patterns { IfOk result (λ _. length (unclean.now ∷ deciding policies.now label ++ word.now.pattern ∷ []) ≤ most_patterns) }
    ensures many_states { result ≡ Err QuantityFault.TooManyStates → HasPlaces (unclean.now ∷ deciding policies.now label ++ word.now.pattern ∷ []) (limit + 1) }
    ensures made { result ≢ Err QuantityFault.NoRequest }
{
    let pattern = &word.pattern;
    let regions = deciding_regions_and_within(alloc, policies, label, unclean, pattern, limit)?;
    let requests = execs_of(alloc, word, regions.as_slice())?;
    Ok(requests)
}

/// Those by the regions that an order needs.
fn execs_in(
    alloc: Global,
    policies: &[Compiled],
    label: Label,
    word: &ExecsWord,
    order: Order,
    limit: usize,
) -> Result<Vec<Request>, QuantityFault>
    requires pattern { is_literal word.now.pattern ≡ false }
    requires some { 0 < limit }
    requires limit { limit ≤ most_states }
    ensures stand { IfOk result (λ rs. StandForWord policies.now label order (Word.Execs word.now) rs.items) }
    ensures many_patterns { result ≡ Err QuantityFault.TooManyPatterns → most_patterns < length (patterns_at policies.now label (Word.Execs word.now)) + 1 }
    ensures few_patterns { IfOk result (λ _. length (patterns_at policies.now label (Word.Execs word.now)) ≤ most_patterns) }
    ensures many_states { result ≡ Err QuantityFault.TooManyStates → HavePlaces policies.now label (Word.Execs word.now) (limit + 1) }
    ensures made { result ≢ Err QuantityFault.NoRequest }
{
    match order {
        Order::Short => execs_by_regions(alloc, policies, label, word, limit),
        Order::Clean => {
            let unclean = unclean_pattern(alloc)?;
            clean_execs_by_regions(alloc, policies, label, word, &unclean, limit)
        }
    }
}

/// Requests at a path, if it can be asked for and the word's pattern matches it.
fn execs_at(alloc: Global, word: &ExecsWord, path: &[u8]) -> Result<Vec<Request>, AllocError>
    ensures each { IfOk result (λ rs. (r : Request) → Contains rs.items r → IsOf (Word.Execs word.now) r) }
    ensures has { IfOk result (λ rs. is_path path.now ≡ true → is_match word.now.pattern.items.items path.now ≡ true → HasExecsOf word.now.whose path.now rs.items) }
{
    let mut requests = Vec::new(alloc);
    let is_path = is_askable(alloc, path)?;
    if !is_path {
        return Ok(requests);
    }
    add_execs_if_matched(alloc, &mut requests, word, path)?;
    Ok(requests)
}

/// Requests of a word whose pattern has no wildcard: those at the one path that it can match.
fn execs_at_literal(alloc: Global, word: &ExecsWord) -> Result<Vec<Request>, AllocError>
    requires { is_literal word.now.pattern ≡ true }
    ensures each { IfOk result (λ rs. (r : Request) → Contains rs.items r → IsOf (Word.Execs word.now) r) }
    ensures all { IfOk result (λ rs. (r : Request) → IsOf (Word.Execs word.now) r → Contains rs.items r) }
{
    let path = literal_path(alloc, &word.pattern)?;
    let requests = execs_at(alloc, word, path.as_slice())?;
    Ok(requests)
}

fn of_execs(
    alloc: Global,
    policies: &[Compiled],
    label: Label,
    word: &ExecsWord,
    order: Order,
    limit: usize,
) -> Result<Vec<Request>, QuantityFault>
    requires some { 0 < limit }
    requires limit { limit ≤ most_states }
    ensures stand { IfOk result (λ rs. StandForWord policies.now label order (Word.Execs word.now) rs.items) }
    ensures many_patterns { result ≡ Err QuantityFault.TooManyPatterns → most_patterns < length (patterns_at policies.now label (Word.Execs word.now)) + 1 }
    ensures few_patterns { IfOk result (λ _. length (patterns_at policies.now label (Word.Execs word.now)) ≤ most_patterns) }
    ensures many_states { result ≡ Err QuantityFault.TooManyStates → HavePlaces policies.now label (Word.Execs word.now) (limit + 1) }
    ensures made { result ≢ Err QuantityFault.NoRequest }
{
    if word.pattern.is_literal() {
        return Ok(execs_at_literal(alloc, word)?);
    }
    execs_in(alloc, policies, label, word, order, limit)
}

fn of_one(alloc: Global, request: &Request) -> Result<Vec<Request>, AllocError>
    ensures { IfOk result (λ rs. rs.items ≡ request.now ∷ []) }
{
    let mut requests = Vec::new(alloc);
    requests.push(request.try_clone()?)?;
    Ok(requests)
}

/// Requests of the word such that each is answered at the label as one of them that comes no later in an order.
pub(crate) fn standing_for(
    alloc: Global,
    policies: &[Compiled],
    label: Label,
    word: &Word,
    order: Order,
    limit: usize,
) -> Result<Vec<Request>, QuantityFault>
    requires some { 0 < limit }
    requires limit { limit ≤ most_states }
    ensures stand { IfOk result (λ rs. StandForWord policies.now label order word.now rs.items) }
    ensures many_patterns { result ≡ Err QuantityFault.TooManyPatterns → most_patterns < length (patterns_at policies.now label word.now) + 1 }
    ensures few_patterns { IfOk result (λ _. length (patterns_at policies.now label word.now) ≤ most_patterns) }
    ensures many_states { result ≡ Err QuantityFault.TooManyStates → HavePlaces policies.now label word.now (limit + 1) }
    ensures made { result ≢ Err QuantityFault.NoRequest }
{
    match word {
        Word::Files(word) => of_files(alloc, policies, label, word, order, limit),
        Word::Execs(word) => of_execs(alloc, policies, label, word, order, limit),
        Word::One(request) => Ok(of_one(alloc, request)?),
    }
}
