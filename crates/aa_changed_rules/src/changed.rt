//! The rules that another profile hasn't.

ghost use Rattle.std.specs.Prelude.{◌≡◌, map, OnOk, IfOk};
ghost use Rattle.aa_changed_rules.specs.Forms.{lists, file_form, cap_form, net_form, change_form};
ghost use Rattle.aa_changed_rules.specs.Changed.{AreKnown, AddsNew, AreChanged, alone, changed_data, changed};

use crate::forms::{cap_form, change_form, file_form, net_form};
use aa_model::{CapRule, ChangeRule, FileRule, NetRule, Profile};
use std::alloc::{AllocError, Global};
use std::collections::BTreeSet;

/// The rules of a profile of which another has none that says the same, by their numbers; of those that say the same the first.
#[derive(Drop)]
pub struct ChangedRules {
    pub files: Vec<usize>,
    pub caps: Vec<usize>,
    pub nets: Vec<usize>,
    pub changes: Vec<usize>,
}

/// What rules say, to be looked up in its own order, so that it takes no longer with rules that their author chose.
fn known_of<'f>(alloc: Global, forms: &'f [Vec<u64>]) -> Result<BTreeSet<&'f [u64]>, AllocError>
    ensures { IfOk result (λ known. AreKnown known.keys (lists forms.entry.now)) }
{
    let mut known = BTreeSet::new(alloc);
    for form in forms {
        known.insert(form.as_slice())?;
    }
    Ok(known)
}

/// Adds the number of a rule, unless one that is known says the same; it is known then.
fn push_new<'f>(
    known: &mut BTreeSet<&'f [u64]>,
    numbers: &mut Vec<usize>,
    number: usize,
    form: &'f [u64],
) -> Result<(), AllocError>
    ensures { OnOk result (AddsNew known.old.keys known.new.keys numbers.old.items numbers.new.items number form.entry.now) }
{
    let added = known.insert(form)?;
    if added {
        numbers.push(number)?;
    }
    Ok(())
}

/// The numbers of the rules that say what none of the others and none before them says.
fn alone(alloc: Global, forms: &[Vec<u64>], others: &[Vec<u64>]) -> Result<Vec<usize>, AllocError>
    ensures { IfOk result (λ numbers. numbers.items ≡ alone (lists others.now) (lists forms.now)) }
{
    let mut known = known_of(alloc, others)?;
    let mut numbers = Vec::new(alloc);
    for number in 0..forms.len() {
        push_new(&mut known, &mut numbers, number, forms[number].as_slice())?;
    }
    Ok(numbers)
}

fn file_forms(alloc: Global, rules: &[FileRule]) -> Result<Vec<Vec<u64>>, AllocError>
    ensures { IfOk result (λ forms. lists forms.items ≡ map file_form rules.now) }
{
    let mut forms = Vec::new(alloc);
    for rule in rules {
        forms.push(file_form(alloc, rule)?)?;
    }
    Ok(forms)
}

fn cap_forms(alloc: Global, rules: &[CapRule]) -> Result<Vec<Vec<u64>>, AllocError>
    ensures { IfOk result (λ forms. lists forms.items ≡ map cap_form rules.now) }
{
    let mut forms = Vec::new(alloc);
    for rule in rules {
        forms.push(cap_form(alloc, rule)?)?;
    }
    Ok(forms)
}

fn net_forms(alloc: Global, rules: &[NetRule]) -> Result<Vec<Vec<u64>>, AllocError>
    ensures { IfOk result (λ forms. lists forms.items ≡ map net_form rules.now) }
{
    let mut forms = Vec::new(alloc);
    for rule in rules {
        forms.push(net_form(alloc, rule)?)?;
    }
    Ok(forms)
}

fn change_forms(alloc: Global, rules: &[ChangeRule]) -> Result<Vec<Vec<u64>>, AllocError>
    ensures { IfOk result (λ forms. lists forms.items ≡ map change_form rules.now) }
{
    let mut forms = Vec::new(alloc);
    for rule in rules {
        forms.push(change_form(alloc, rule)?)?;
    }
    Ok(forms)
}

fn changed_files(
    alloc: Global,
    rules: &[FileRule],
    others: &[FileRule],
) -> Result<Vec<usize>, AllocError>
    ensures { IfOk result (λ numbers. numbers.items ≡ alone (map file_form others.now) (map file_form rules.now)) }
{
    let forms = file_forms(alloc, rules)?;
    let known = file_forms(alloc, others)?;
    alone(alloc, forms.as_slice(), known.as_slice())
}

fn changed_caps(
    alloc: Global,
    rules: &[CapRule],
    others: &[CapRule],
) -> Result<Vec<usize>, AllocError>
    ensures { IfOk result (λ numbers. numbers.items ≡ alone (map cap_form others.now) (map cap_form rules.now)) }
{
    let forms = cap_forms(alloc, rules)?;
    let known = cap_forms(alloc, others)?;
    alone(alloc, forms.as_slice(), known.as_slice())
}

fn changed_nets(
    alloc: Global,
    rules: &[NetRule],
    others: &[NetRule],
) -> Result<Vec<usize>, AllocError>
    ensures { IfOk result (λ numbers. numbers.items ≡ alone (map net_form others.now) (map net_form rules.now)) }
{
    let forms = net_forms(alloc, rules)?;
    let known = net_forms(alloc, others)?;
    alone(alloc, forms.as_slice(), known.as_slice())
}

fn changed_changes(
    alloc: Global,
    rules: &[ChangeRule],
    others: &[ChangeRule],
) -> Result<Vec<usize>, AllocError>
    ensures { IfOk result (λ numbers. numbers.items ≡ alone (map change_form others.now) (map change_form rules.now)) }
{
    let forms = change_forms(alloc, rules)?;
    let known = change_forms(alloc, others)?;
    alone(alloc, forms.as_slice(), known.as_slice())
}

/// The rules of a profile that another one hasn't. Each profile is gone through once.
pub fn changed_rules(
    alloc: Global,
    profile: &Profile,
    other: &Profile,
) -> Result<ChangedRules, AllocError>
    ensures forms { IfOk result (λ rules. changed_data rules ≡ changed profile.now other.now) }
    ensures told { IfOk result (λ rules. AreChanged profile.now other.now (changed_data rules)) }
{
    Ok(ChangedRules {
        files: changed_files(alloc, profile.files.as_slice(), other.files.as_slice())?,
        caps: changed_caps(alloc, profile.caps.as_slice(), other.caps.as_slice())?,
        nets: changed_nets(alloc, profile.nets.as_slice(), other.nets.as_slice())?,
        changes: changed_changes(alloc, profile.changes.as_slice(), other.changes.as_slice())?,
    })
}
