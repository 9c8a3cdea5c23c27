//! Regions of the paths that can be asked for: worked rows.

use crate::automaton_tests::patterns;
use crate::comparing::{equal, equal_in, holds};
use crate::texts::push_part;
use aa_auto::BuildFault;
use aa_regions::{Region, path_regions};
use std::process::Abort;

/// The regions of the patterns of the texts between which stands a blank.
fn regions(
    rt: &(impl Abort + AllocGlobal),
    texts: &str,
    limit: usize,
) -> Result<Vec<Region>, BuildFault> {
    let patterns = patterns(rt, texts)?;
    let mut pointers = Vec::new(rt.alloc());
    for pattern in patterns.as_slice() {
        pointers.push(pattern)?;
    }
    assert!(rt; pointers.len() <= 65535 && limit > 0 && limit <= 1000000);
    path_regions(rt.alloc(), pointers.as_slice(), limit)
}

/// Of each region its path and the numbers of the patterns that match there.
fn told(rt: &(impl Abort + AllocGlobal), regions: &[Region]) -> String {
    let mut told = String::new(rt.alloc());
    for region in regions {
        let path = str::from_utf8(region.witness.as_slice()).expect(rt, "UTF-8");
        told.push_str(path).expect(rt, "memory");
        for number in region.numbers.as_slice() {
            push_part(rt, &mut told, format!(in rt.alloc(); " {number}"));
        }
        told.push_str("|").expect(rt, "memory");
    }
    told
}

#[test]
fn each_list_that_a_path_has_is_there_with_a_shortest_path(rt: HostRuntime) {
    for (texts, wanted) in [
        ("none", "/|"),
        ("/etc/passwd", "/|/etc/passwd 0|"),
        ("/a* /ab /**", "/|/a 0 2|/b 2|/ab 0 1 2|"),
        (
            "/home/*/.ssh/** /home/**",
            "/|/home/a 1|/home/a/.ssh/a 0 1|",
        ),
        // What is matched by no path that can be asked for has no region.
        (" a /", "/ 2|/a|"),
        // Two patterns that match the same are together in each region.
        ("/[ab] /{b,a}", "/|/a 0 1|"),
    ] {
        let found = regions(&rt, texts, 4096).expect(&rt, texts);
        equal_in(&rt, told(&rt, found.as_slice()).as_str(), wanted, texts);
    }
}

#[test]
fn thirteen_rows_are_within_thirteen_alone(rt: HostRuntime) {
    holds(&rt, regions(&rt, "/etc/passwd", 13).is_ok());
    let refused = regions(&rt, "/etc/passwd", 12);
    holds(&rt, matches!(refused, Err(BuildFault::TooManyStates)));
}

#[test]
fn a_path_of_4095_bytes_can_be_asked_for_and_none_of_4096(rt: HostRuntime) {
    for (count, wanted) in [(4094, 2), (4095, 1)] {
        let mut text = String::new(rt.alloc());
        text.push_str("/").expect(&rt, "memory");
        for _ in 0..count {
            text.push_str("?").expect(&rt, "memory");
        }
        let found = regions(&rt, text.as_str(), 10_000);
        equal(&rt, found.expect(&rt, "regions").len(), wanted);
    }
}
