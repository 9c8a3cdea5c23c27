//! What is said of a fault.

ghost use Rattle.std.specs.Prelude.{◌≡◌, ◌++◌, flat_map, codes, OnOk};
ghost use Rattle.aa_text.specs.Visible.{all_visible};
ghost use Rattle.aa_text.specs.Faults.{where_if, head_line, included_from, link_line, further_line, fault_text, json_link, json_chain, byte_member, json_kind, json_message};

use crate::json_text::{push_json_text, push_key};
use crate::position::{PlaceAt, push_json_place, push_where};
use crate::text::push_text;
use crate::to_json::{ToJson, push_comma, push_list, push_member};
use crate::visible::push_visible;
use std::alloc::{AllocError, Global};

/// An include on the way to a text.
#[derive(Drop)]
pub struct Link {
    pub path: Vec<u8>,
    pub place: PlaceAt,
}

/// What is said of a fault.
#[derive(Drop)]
pub struct FaultReport {
    pub kind: &'static str,
    /// The file that it lies in.
    pub path: Vec<u8>,
    /// Where in that file, unless it stands for the whole.
    pub place: Option<PlaceAt>,
    /// What is wrong, in one sentence.
    pub message: Vec<u8>,
    /// The line with a caret, where there is a place.
    pub excerpt: Vec<u8>,
    /// The includes by which the file was first reached, innermost first.
    pub chain: Vec<Link>,
    /// What else helps, each without a line end.
    pub further: Vec<Vec<u8>>,
}

fn push_path(out: &mut Vec<u8>, fault: &FaultReport) -> Result<(), AllocError>
    ensures { OnOk result (out.new.items ≡ out.old.items ++ where_if fault.now.path.items fault.now.place) }
{
    match fault.place {
        Some(place) => push_where(out, fault.path.as_slice(), place),
        None => push_visible(out, fault.path.as_slice()),
    }
}

/// Appends where a fault is, and why.
#[tactic(auto, unfolding(crate::specs::Faults::head_line))]
fn push_head(out: &mut Vec<u8>, fault: &FaultReport) -> Result<(), AllocError>
    ensures { OnOk result (out.new.items ≡ out.old.items ++ head_line fault.now) }
{
    push_path(out, fault)?;
    push_text(out, ": ")?;
    push_text(out, fault.kind)?;
    push_text(out, ": ")?;
    push_visible(out, fault.message.as_slice())?;
    push_text(out, "\n")
}

#[tactic(auto, unfolding(crate::specs::Faults::included_from))]
fn push_included_from(out: &mut Vec<u8>) -> Result<(), AllocError>
    ensures { OnOk result (out.new.items ≡ out.old.items ++ included_from) }
{
    push_text(out, "      included from ")
}

#[tactic(auto, unfolding(crate::specs::Faults::link_line))]
fn push_link(out: &mut Vec<u8>, link: &Link) -> Result<(), AllocError>
    ensures { OnOk result (out.new.items ≡ out.old.items ++ link_line link.now) }
{
    push_included_from(out)?;
    push_where(out, link.path.as_slice(), link.place)?;
    push_text(out, "\n")
}

fn push_chain(out: &mut Vec<u8>, chain: &[Link]) -> Result<(), AllocError>
    ensures { OnOk result (out.new.items ≡ out.old.items ++ flat_map link_line chain.now) }
{
    for link in chain {
        push_link(out, link)?;
    }
    Ok(())
}

fn push_further(out: &mut Vec<u8>, line: &[u8]) -> Result<(), AllocError>
    ensures { OnOk result (out.new.items ≡ out.old.items ++ (codes "      " ++ all_visible line.now ++ codes "\n")) }
{
    push_text(out, "      ")?;
    push_visible(out, line)?;
    push_text(out, "\n")
}

fn push_all_further(out: &mut Vec<u8>, further: &[Vec<u8>]) -> Result<(), AllocError>
    ensures { OnOk result (out.new.items ≡ out.old.items ++ flat_map further_line further.now) }
{
    for line in further {
        push_further(out, line.as_slice())?;
    }
    Ok(())
}

/// Appends a fault: where, why, and the line with a caret; then on which way that file was reached, and what else helps.
pub fn push_fault(out: &mut Vec<u8>, fault: &FaultReport) -> Result<(), AllocError>
    ensures { OnOk result (out.new.items ≡ out.old.items ++ fault_text fault.now) }
{
    push_head(out, fault)?;
    out.extend_from_slice(fault.excerpt.as_slice())?;
    push_chain(out, fault.chain.as_slice())?;
    push_all_further(out, fault.further.as_slice())
}

impl ToJson for Link {
    ghost use Rattle.aa_text.specs.Faults.{json_link};

    ghost json = { json_link };

    #[tactic(auto, unfolding(crate::specs::Faults::json_link))]
    fn push_json(&self, out: &mut Vec<u8>, alloc: Global) -> Result<(), AllocError> {
        push_text(out, "{")?;
        push_json_place(out, alloc, self.path.as_slice(), Some(self.place))?;
        push_text(out, "}")
    }
}

#[tactic(auto, unfolding(crate::specs::Faults::json_chain))]
fn push_json_chain(out: &mut Vec<u8>, alloc: Global, chain: &[Link]) -> Result<(), AllocError>
    ensures { OnOk result (out.new.items ≡ out.old.items ++ json_chain chain.now) }
{
    push_key(out, "chain")?;
    push_list(out, alloc, chain)
}

/// Appends a comma and the member `byte`, where there is a place.
fn push_json_byte(
    out: &mut Vec<u8>,
    alloc: Global,
    place: Option<PlaceAt>,
) -> Result<(), AllocError>
    ensures { OnOk result (out.new.items ≡ out.old.items ++ byte_member place) }
{
    let Some(place) = place else {
        return Ok(());
    };
    push_member(out, alloc, "byte", &place.byte)
}

#[tactic(auto, unfolding(crate::specs::Faults::json_message))]
fn push_json_message(out: &mut Vec<u8>, alloc: Global, message: &Vec<u8>) -> Result<(), AllocError>
    ensures { OnOk result (out.new.items ≡ out.old.items ++ json_message message.now.items) }
{
    push_member(out, alloc, "message", message)?;
    push_comma(out, true)
}

/// Opens the object of a fault, and appends the member `kind` and a comma.
#[tactic(auto, unfolding(crate::specs::Faults::json_kind))]
fn push_json_kind(out: &mut Vec<u8>, alloc: Global, kind: &str) -> Result<(), AllocError>
    ensures { OnOk result (out.new.items ≡ out.old.items ++ json_kind kind.now) }
{
    push_text(out, "{")?;
    push_key(out, "kind")?;
    push_json_text(out, alloc, kind)?;
    push_comma(out, true)
}

impl ToJson for FaultReport {
    ghost use Rattle.aa_text.specs.Faults.{json_fault};

    ghost json = { json_fault };

    fn push_json(&self, out: &mut Vec<u8>, alloc: Global) -> Result<(), AllocError> {
        push_json_kind(out, alloc, self.kind)?;
        push_json_place(out, alloc, self.path.as_slice(), self.place)?;
        push_json_byte(out, alloc, self.place)?;
        push_json_message(out, alloc, &self.message)?;
        push_json_chain(out, alloc, self.chain.as_slice())?;
        push_text(out, "}")
    }
}
