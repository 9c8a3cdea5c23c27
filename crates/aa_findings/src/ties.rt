//! Profiles that tie.

ghost use Rattle.std.specs.Prelude.{◌≡◌, ◌++◌, map, flat_map, option_map, IfOk, OnOk};
ghost use Rattle.aa_findings.specs.Places.{has};
ghost use Rattle.aa_findings.specs.Attached.{first_other, tied_by, sharing, tied_in, other_at, tie_at, ties_among, ties_of};

use crate::attached::Shared;
use crate::finding::{Finding, Kind, Subject};
use crate::shortest::shortest;
use aa_base::Text;
use std::alloc::{AllocError, Global};

fn has(numbers: &[usize], number: usize) -> bool
    ensures { result ≡ has number numbers.now }
{
    numbers.iter().any(|other| *other == number)
}

/// The first, where that is another.
fn first_other(numbers: &[usize], number: usize) -> Option<usize>
    ensures { result ≡ first_other number numbers.now }
{
    match numbers {
        [first, ..] if *first != number => Some(*first),
        _ => None,
    }
}

/// The earlier profile that is attached as strongly as the one with that number, where nothing is more strongly.
fn tied_by(numbers: &[usize], number: usize) -> Option<usize>
    ensures { result ≡ tied_by number numbers.now }
{
    if has(numbers, number) {
        return first_other(numbers, number);
    }
    None
}

fn push_tied(paths: &mut Vec<Text>, number: usize, shared: &Shared) -> Result<(), AllocError>
    ensures { OnOk result (paths.new.items ≡ paths.old.items ++ tied_in number (sharing shared.now)) }
{
    if tied_by(shared.profiles.as_slice(), number).is_some() {
        paths.push(shared.path.try_clone()?)?;
    }
    Ok(())
}

/// The paths at which it ties.
fn tied_paths(alloc: Global, number: usize, all: &[Shared]) -> Result<Vec<Text>, AllocError>
    ensures { IfOk result (λ paths. paths.items ≡ flat_map (tied_in number) (map sharing all.now)) }
{
    let mut paths = Vec::new(alloc);
    for shared in all {
        push_tied(&mut paths, number, shared)?;
    }
    Ok(paths)
}

/// With which earlier profile it ties at that path.
fn other_at(all: &[Shared], number: usize, path: &[u8]) -> Option<usize>
    ensures { result ≡ other_at number (map sharing all.now) path.now }
{
    let mut rest = all;
    while let [shared, after @ ..] = rest {
        if shared.path.as_slice() == path {
            return tied_by(shared.profiles.as_slice(), number);
        }
        rest = after;
    }
    None
}

fn push_at(
    found: &mut Vec<Finding>,
    alloc: Global,
    other: Option<usize>,
    path: &[u8],
) -> Result<(), AllocError>
    ensures { OnOk result (found.new.items ≡ found.old.items ++ tie_at other path.now) }
{
    found.push(Finding {
        kind: Kind::Tie,
        subject: Subject::Attachments,
        other,
        path: Some(Text::copy_of(alloc, path)?),
    })?;
    Ok(())
}

/// Adds that the profile ties along the shortest of these paths, where there are any.
fn push_along(
    found: &mut Vec<Finding>,
    alloc: Global,
    all: &[Shared],
    number: usize,
    path: Option<&[u8]>,
) -> Result<(), AllocError>
    ensures { OnOk result (found.new.items ≡ found.old.items ++ ties_among number (map sharing all.now) (option_map (λ p. p.now) path.entry)) }
{
    match path {
        Some(path) => push_at(found, alloc, other_at(all, number, path), path),
        None => Ok(()),
    }
}

/// Adds that an earlier profile is attached as strongly as the one with that number, where there is a path at which it is so.
pub(crate) fn push_tie(
    found: &mut Vec<Finding>,
    alloc: Global,
    number: usize,
    all: &[Shared],
) -> Result<(), AllocError>
    ensures { OnOk result (found.new.items ≡ found.old.items ++ ties_of number (map sharing all.now)) }
{
    let paths = tied_paths(alloc, number, all)?;
    push_along(found, alloc, all, number, shortest(paths.as_slice()))
}
