//! The labels that texts name, and what labels are called.

ghost use Rattle.std.specs.Prelude.{◌≡◌, ◌++◌, ◌∷◌, [], IfOk, IfErr, OnOk};
ghost use Rattle.aa_files.specs.Texts.{texts};
ghost use Rattle.aa_ask.specs.Asked.{no_profile};
ghost use Rattle.aa_reach.specs.Names.{labels_named, IsNamed, AreNamed, SaysNone, SaysOne, name_in, name_of, name_left_open, called};

use crate::fault::NameFault;
use crate::heads::one_may_hold;
use aa_ask::{is_confined, profiles_named};
use aa_compile::{Compiled, name_of_label};
use aa_model::Label;
use aa_skipped::Skipped;
use aa_text::{push_name, push_text, push_visible};
use std::alloc::{AllocError, Global};

/// The labels that a text names, which may be none.
fn labels_named(alloc: Global, policies: &[Compiled], text: &[u8]) -> Result<Vec<Label>, AllocError>
    ensures { IfOk result (λ labels. labels.items ≡ labels_named policies.now text.now) }
{
    if text == "unconfined".as_bytes() {
        let mut labels = Vec::new(alloc);
        labels.push(Label::Unconfined(0))?;
        return Ok(labels);
    }
    profiles_named(alloc, policies, text)
}

/// What is said of a text that names no label.
fn no_profile(alloc: Global, text: &[u8]) -> Result<Vec<u8>, AllocError>
    ensures { IfOk result (λ line. line.items ≡ no_profile text.now) }
{
    let mut line = Vec::new(alloc);
    push_text(&mut line, "error: no profile is called ")?;
    push_visible(&mut line, text)?;
    push_text(&mut line, "\n")?;
    Ok(line)
}

/// Labels that texts name, and texts that name none but may name a profile of a skipped file.
#[derive(Drop)]
pub(crate) struct Names {
    pub(crate) labels: Vec<Label>,
    pub(crate) opens: Vec<Vec<u8>>,
}

/// A text that names no label, by itself.
fn left_open(alloc: Global, text: &[u8]) -> Result<Names, AllocError>
    ensures labels { IfOk result (λ n. n.labels.items ≡ []) }
    ensures opens { IfOk result (λ n. texts n.opens.items ≡ text.now ∷ []) }
{
    let labels = Vec::new(alloc);
    let mut opens = Vec::new(alloc);
    opens.push(Vec::from_slice(alloc, text)?)?;
    Ok(Names { labels, opens })
}

/// The labels that a text names; where it names none, itself, if a skipped file may hold a profile that it names. Else it is refused.
pub(crate) fn names_by(
    alloc: Global,
    policies: &[Compiled],
    skipped: &[Skipped],
    text: &[u8],
) -> Result<Names, NameFault>
    ensures named { IfOk result (λ n. IsNamed policies.now skipped.now text.now n.labels.items (texts n.opens.items)) }
    ensures refused { IfErr result (λ e. SaysNone policies.now skipped.now text.now e) }
{
    let labels = labels_named(alloc, policies, text)?;
    if !labels.is_empty() {
        let opens = Vec::new(alloc);
        return Ok(Names { labels, opens });
    }
    let may_hold = one_may_hold(alloc, text, skipped)?;
    if !may_hold {
        return Err(NameFault::Refused(no_profile(alloc, text)?));
    }
    let names = left_open(alloc, text)?;
    Ok(names)
}

/// The labels that texts name: `unconfined` is that word alone, and `*` stands for any bytes of a profile's full name; where a text
/// names none so, it may be a name in hexadecimal digits. A text that names none is left open, where a skipped file may hold a profile
/// that it names, and else refused.
pub(crate) fn names_of(
    alloc: Global,
    policies: &[Compiled],
    skipped: &[Skipped],
    words: &[Vec<u8>],
) -> Result<Names, NameFault>
    ensures named { IfOk result (λ n. AreNamed policies.now skipped.now (texts words.now) n.labels.items (texts n.opens.items)) }
    ensures refused { IfErr result (λ e. SaysOne policies.now skipped.now (texts words.now) e) }
{
    let mut labels = Vec::new(alloc);
    let mut opens = Vec::new(alloc);
    for word in words {
        let mut names = names_by(alloc, policies, skipped, word.as_slice())?;
        labels.append(&mut names.labels)?;
        opens.append(&mut names.opens)?;
    }
    Ok(Names { labels, opens })
}

/// What a label is called.
#[derive(Drop)]
pub(crate) struct Named {
    pub(crate) label: Label,
    pub(crate) is_confined: bool,
    /// The full name of its profile, or `unconfined`.
    pub(crate) name: Vec<u8>,
}

/// What a label is called.
pub(crate) fn name_of(
    alloc: Global,
    policies: &[Compiled],
    label: Label,
) -> Result<Named, AllocError>
    ensures { IfOk result (λ n. name_in n ≡ name_of policies.now label) }
{
    Ok(Named {
        label,
        is_confined: is_confined(label),
        name: Vec::from_slice(alloc, name_of_label(policies, label))?,
    })
}

/// The name of what a text that is left open may name.
pub(crate) fn name_left_open(alloc: Global, text: &[u8]) -> Result<Named, AllocError>
    ensures { IfOk result (λ n. name_in n ≡ name_left_open text.now) }
{
    Ok(Named {
        label: Label::Unconfined(0),
        is_confined: true,
        name: Vec::from_slice(alloc, text)?,
    })
}

/// Appends what a label is called.
pub(crate) fn push_called(out: &mut Vec<u8>, alloc: Global, named: &Named) -> Result<(), AllocError>
    ensures { OnOk result (out.new.items ≡ out.old.items ++ called (name_in named.now)) }
{
    if named.is_confined {
        push_name(out, alloc, named.name.as_slice())
    } else {
        out.extend_from_slice(named.name.as_slice())
    }
}

/// What a label is called.
pub(crate) fn called(alloc: Global, named: &Named) -> Result<Vec<u8>, AllocError>
    ensures { IfOk result (λ name. name.items ≡ called (name_in named.now)) }
{
    let mut name = Vec::new(alloc);
    push_called(&mut name, alloc, named)?;
    Ok(name)
}
