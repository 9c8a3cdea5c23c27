//! Findings at paths that no kernel asks for.

ghost use Rattle.std.specs.Prelude.{◌≡◌, IfOk};
ghost use Rattle.aa_diff.specs.Unclean.{told_unclean, all_told_unclean};

use crate::finding::Finding;
use aa_unclean_paths::does_request_count;
use std::alloc::{AllocError, Global};

/// A finding, told as one at unclean paths alone where its request doesn't count.
fn told_unclean(unclean: bool, finding: Finding) -> Finding
    ensures { result ≡ told_unclean unclean finding }
{
    let mut finding = finding;
    finding.unclean = !does_request_count(unclean, &finding.request);
    finding
}

/// The findings, each told so.
pub(crate) fn all_told_unclean(
    alloc: Global,
    unclean: bool,
    findings: Vec<Finding>,
) -> Result<Vec<Finding>, AllocError>
    ensures { IfOk result (λ told. told.items ≡ all_told_unclean unclean findings.items) }
{
    let mut told = Vec::new(alloc);
    for finding in findings {
        told.push(told_unclean(unclean, finding))?;
    }
    Ok(told)
}
