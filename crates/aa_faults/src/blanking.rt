//! White space in place of a rule or an assignment.

ghost use Rattle.std.specs.Prelude.{◌≡◌, ◌==◌, ◌-◌, map, slice_get, None, if◌then◌else◌};
ghost use Rattle.aa_faults.specs.Blanks.{blank_byte, blanked, index_of, IsBlankedSource, AreBlanked, IsBlanked};

use crate::extent::Extent;
use aa_files::{Source, Unit};

/// White space in place of a byte: a line end stays.
fn blank_byte(b: u8) -> u8
    ensures { result ≡ blank_byte b }
{
    if b == b'\n' { b } else { b' ' }
}

fn blank_all(text: &mut [u8])
    ensures { text.new ≡ map blank_byte text.old }
{
    for b in text.iter_mut() {
        *b = blank_byte(*b);
    }
}

/// Writes white space over the bytes from one to another.
fn blank_between(text: &mut [u8], start: usize, end: usize)
    ensures { text.new ≡ blanked start end text.old }
{
    let end = end.min(text.len());
    let start = start.min(end);
    blank_all(&mut text[start..end]);
}

/// The number of a source among those of the unit, by the number that places in it have.
fn index_of(unit: &Unit, file: u16) -> Option<usize>
    ensures { result ≡ index_of unit.now file }
{
    if file == 0 {
        return None;
    }
    unit.order.get(file as usize - 1).copied()
}

fn blank_source(source: &mut Source, extent: Extent)
    ensures { IsBlankedSource extent source.old source.new }
{
    blank_between(source.text.as_mut_slice(), extent.start, extent.end);
}

/// Writes white space in the source of that number, if there is one.
fn blank_at(sources: &mut [Source], index: usize, extent: Extent)
    ensures { AreBlanked extent index sources.old sources.new }
{
    if index < sources.len() {
        blank_source(&mut sources[index], extent);
    }
}

/// Writes white space in place of a rule or an assignment.
pub fn blank(unit: &mut Unit, extent: Extent)
    ensures { IsBlanked extent unit.old unit.new }
{
    match index_of(unit, extent.file) {
        Some(index) => blank_at(unit.sources.as_mut_slice(), index, extent),
        None => blank_between(unit.text.as_mut_slice(), extent.start, extent.end),
    }
}
