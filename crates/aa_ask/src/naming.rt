//! The profiles that a text names.

ghost use Rattle.std.specs.Prelude.{◌≡◌, ◌++◌, IfOk, OnOk};
ghost use Rattle.aa_ask.specs.Naming.{label_if, first_named, in_digits, profiles_named};
ghost use Rattle.aa_command.specs.Counts.{count_of};

use crate::asking::label_in_digits;
use crate::wildcards::name_pattern;
use aa_command::count_of;
use aa_compile::{Compiled, is_matched, name_of_label};
use aa_model::Label;
use aa_pattern::Pattern;
use std::alloc::{AllocError, Global};

/// Adds the label of the profile of that number, where its full name is matched.
fn push_if(
    labels: &mut Vec<Label>,
    policies: &[Compiled],
    pattern: &Pattern,
    number: u16,
) -> Result<(), AllocError>
    ensures { OnOk result (labels.new.items ≡ labels.old.items ++ label_if policies.now pattern.now.items.items number) }
{
    let label = Label::Confined(0, number);
    if is_matched(pattern, name_of_label(policies, label)) {
        labels.push(label)?;
    }
    Ok(())
}

/// The labels of the profiles whose full names are matched.
fn profiles_matched(
    alloc: Global,
    policies: &[Compiled],
    pattern: &Pattern,
) -> Result<Vec<Label>, AllocError>
    ensures { IfOk result (λ labels. labels.items ≡ first_named policies.now pattern.now.items.items (count_of policies.now)) }
{
    let mut labels = Vec::new(alloc);
    for number in 0..count_of(policies) {
        push_if(&mut labels, policies, pattern, number)?;
    }
    Ok(labels)
}

/// The label of the profile whose full name stands in hexadecimal digits, if there is one.
fn profile_in_digits(
    alloc: Global,
    policies: &[Compiled],
    digits: &[u8],
) -> Result<Vec<Label>, AllocError>
    ensures { IfOk result (λ labels. labels.items ≡ in_digits policies.now digits.now) }
{
    let mut labels = Vec::new(alloc);
    if let Some(label) = label_in_digits(alloc, policies, digits)? {
        labels.push(label)?;
    }
    Ok(labels)
}

/// The labels of the profiles that a text names: `*` stands for any bytes of a full name; where it names none so, that of the one
/// whose full name stands in hexadecimal digits.
pub fn profiles_named(
    alloc: Global,
    policies: &[Compiled],
    text: &[u8],
) -> Result<Vec<Label>, AllocError>
    ensures { IfOk result (λ labels. labels.items ≡ profiles_named policies.now text.now) }
{
    let pattern = name_pattern(alloc, text)?;
    let labels = profiles_matched(alloc, policies, &pattern)?;
    if labels.is_empty() {
        return profile_in_digits(alloc, policies, text);
    }
    Ok(labels)
}
