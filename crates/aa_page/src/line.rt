//! Lines of a list, and rules with their places.

ghost use Rattle.std.specs.Prelude.{◌≡◌, ◌++◌, OnOk};
ghost use Rattle.aa_text.specs.Texts.{where_text};
ghost use Rattle.aa_page.specs.Lines.{line_start, plain_start, line_end, place_code, rule_line};

use crate::escaped::push_code;
use crate::mark::{Mark, class_of, push_mark};
use aa_text::{PlaceAt, push_text, push_where};
use std::alloc::{AllocError, Global};

/// Begins a line of a list.
#[tactic(auto, unfolding(crate::specs::Lines::line_start))]
pub fn push_line_start(out: &mut Vec<u8>, mark: Mark) -> Result<(), AllocError>
    ensures { OnOk result (out.new.items ≡ out.old.items ++ line_start mark) }
{
    push_text(out, "<li class=\"")?;
    push_text(out, class_of(mark))?;
    push_text(out, "\">")?;
    push_mark(out, mark)
}

/// Begins a line of a list without a mark.
pub fn push_plain_start(out: &mut Vec<u8>) -> Result<(), AllocError>
    ensures { OnOk result (out.new.items ≡ out.old.items ++ plain_start) }
{
    push_text(out, "<li>")
}

/// Ends a line of a list.
pub fn push_line_end(out: &mut Vec<u8>) -> Result<(), AllocError>
    ensures { OnOk result (out.new.items ≡ out.old.items ++ line_end) }
{
    push_text(out, "</li>\n")
}

/// Appends a path with a place in it.
fn push_place(
    out: &mut Vec<u8>,
    alloc: Global,
    path: &[u8],
    place: PlaceAt,
) -> Result<(), AllocError>
    ensures { OnOk result (out.new.items ≡ out.old.items ++ place_code path.now place) }
{
    let mut text = Vec::new(alloc);
    push_where(&mut text, path, place)?;
    push_code(out, alloc, text.as_slice())
}

/// Appends the line of a rule: where it stands, and how it reads.
#[tactic(auto, unfolding(crate::specs::Lines::rule_line))]
pub fn push_rule(
    out: &mut Vec<u8>,
    alloc: Global,
    mark: Mark,
    path: &[u8],
    place: PlaceAt,
    rule: &[u8],
) -> Result<(), AllocError>
    ensures { OnOk result (out.new.items ≡ out.old.items ++ rule_line mark path.now place rule.now) }
{
    push_line_start(out, mark)?;
    push_place(out, alloc, path, place)?;
    push_text(out, " ")?;
    push_code(out, alloc, rule)?;
    push_line_end(out)
}
