//! Lines as a set.

ghost use Rattle.std.specs.Prelude.{◌≡◌, IfOk, OnOk};
ghost use Rattle.aa_base.specs.FirstNumbers.{AddsName};
ghost use Rattle.aa_files.specs.Texts.{slices};
ghost use Rattle.aa_report.specs.Accepted.{is_among};
ghost use Rattle.aa_report.specs.Sets.{AreIn};

use std::alloc::{AllocError, Global};
use std::collections::HashMap;

fn add_line(set: &mut HashMap<Vec<u8>, usize>, alloc: Global, line: &[u8]) -> Result<(), AllocError>
    ensures { OnOk result (AddsName set.old line.now 0 set.new) }
{
    if set.contains_key(line) {
        return Ok(());
    }
    set.insert(Vec::from_slice(alloc, line)?, 0)?;
    Ok(())
}

/// The set of some lines.
pub fn lines_as_set(alloc: Global, lines: &[&[u8]]) -> Result<HashMap<Vec<u8>, usize>, AllocError>
    ensures { IfOk result (λ set. AreIn set (slices lines.now)) }
{
    let mut set = HashMap::new(alloc);
    for line in lines {
        add_line(&mut set, alloc, *line)?;
    }
    Ok(set)
}

/// Whether a line is one of these.
pub fn is_among(set: &HashMap<Vec<u8>, usize>, lines: &[&[u8]], line: &[u8]) -> bool
    requires { AreIn set.now (slices lines.now) }
    ensures { result ≡ is_among (slices lines.now) line.now }
{
    let _lines = lines;
    set.contains_key(line)
}
