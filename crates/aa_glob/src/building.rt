//! Builds the texts of a word, one by one, from their numbers.

ghost use Rattle.std.specs.Prelude.{◌≡◌, ◌<◌, ◌≤◌, ◌-◌, ℕ, leb, List, length, map, slice_index_or, IfOk, IfErr, Contains, [], ◌∷◌, false};
ghost use Rattle.aa_glob.specs.Variables.{Variable};
ghost use Rattle.aa_glob.specs.Settled.{AreEnds, before};
ghost use Rattle.aa_glob.specs.Pieces.{Use, pieces_from};
ghost use Rattle.aa_glob.specs.Known.{AreKnown, AreRight};
ghost use Rattle.aa_glob.specs.Built.{HasTexts, IsBuilt, Stands, IsBuilding, pieces_of, steps_left, text_at};

use crate::pieces::{Part, next_part};
use crate::summary::{Done, known_summary};
use crate::vars::Vars;
use aa_base::PolicyKind;
use std::alloc::Global;

/// How many bytes an expanded text may have.
pub(crate) const MAX_BYTES: usize = 16384;

/// The rest of a text, and which of its texts is built.
#[derive(Clone, Copy, Debug)]
pub(crate) struct Rest<'t> {
    pub text: &'t [u8],
    pub kept: bool,
    pub number: usize,
    pub count: usize,
}

/// How many of the ends aren't above that number.
// Of each value it is kept where its texts end among those of all, so the value that a text is of is found by halving.
fn ends_up_to(ends: &[usize], number: usize) -> usize
    requires { (i j d : ℕ) → i ≤ j → j < length ends.now → slice_index_or ends.now i d ≤ slice_index_or ends.now j d }
    ensures within { result ≤ length ends.now }
    ensures below { (k : ℕ) → k < result → slice_index_or ends.now k 0 ≤ number }
    ensures above { result < length ends.now → number < slice_index_or ends.now result 0 }
{
    ends.partition_point(
        |end: &usize| -> bool
            ensures { result ≡ leb end.now number }
        { *end <= number },
    )
}

/// How many texts the values before that one have.
#[tactic(auto, using(crate::proofs::Builds::before_is))]
fn end_before(ends: &[usize], place: usize) -> usize
    requires { place ≤ length ends.now }
    ensures { result ≡ before 0 ends.now place }
{
    if place == 0 { 0 } else { ends[place - 1] }
}

/// The value of a variable that its text of that number is of.
fn value_at<'t>(values: &'t [Vec<u8>], ends: &[usize], number: usize) -> Rest<'t>
    requires { (depth : ℕ) × (vars : List Variable) × (ts : List (List ℕ)) × AreEnds vars 0 (map (λ v. v.items) values.now) ends.now × HasTexts depth vars (map (λ v. v.items) values.now) ts number }
    ensures stands { (depth : ℕ) (vars : List Variable) (ts : List (List ℕ)) → AreEnds vars 0 (map (λ v. v.items) values.now) ends.now → HasTexts depth vars (map (λ v. v.items) values.now) ts number
        → Stands depth vars result (slice_index_or ts number []) }
    ensures fresh { result.kept ≡ false }
    ensures among { Contains (map (λ v. v.items) values.now) result.text.now }
{
    let place = ends_up_to(ends, number);
    let first = end_before(ends, place);
    let Some(value) = values.get(place) else {
        unreachable!();
    };
    Rest {
        text: value.as_slice(),
        kept: false,
        number: number - first,
        count: ends[place] - first,
    }
}

/// Where the rest of a text has come to a variable: into the value that its text is of, or behind it if that is known to be
/// empty. The number of the text is cut in that of the variable's text and that of what is behind it.
fn enter<'t>(
    vars: &'t Vars,
    done: &Done<'t>,
    stack: &mut Vec<Rest<'t>>,
    top: Rest<'t>,
    name: &[u8],
    behind: &'t [u8],
    keep: bool,
) -> Result<Rest<'t>, PolicyKind>
    requires right { AreRight (length done.now.entries) vars.now done.now.entries }
    requires next { pieces_of top ≡ Use name.now ∷ pieces_from keep 0 behind.now }
    requires building { (text : List ℕ) × (t : List ℕ) × IsBuilding (length done.now.entries) vars.now done.now.entries text stack.old.items top t }
    ensures ok { IfOk result (λ rest. (text t : List ℕ) → IsBuilding (length done.now.entries) vars.now done.now.entries text stack.old.items top.entry t → IsBuilding (length done.now.entries) vars.now done.now.entries text stack.new.items rest t) }
    ensures less { IfOk result (λ rest. steps_left (length done.now.entries - length stack.new.items) vars.now stack.new.items rest < steps_left (length done.now.entries - length stack.old.items) vars.now stack.old.items top.entry) }
    ensures err { IfErr result (λ e. e ≡ PolicyKind.NoMemory) }
{
    let known = known_summary(name, done);
    let left = top.count / known.texts.count;
    let next = Rest {
        text: behind,
        kept: keep,
        number: top.number % left,
        count: left,
    };
    if known.texts.blank {
        return Ok(next);
    }
    let Ok(values) = vars.values(name) else {
        unreachable!();
    };
    let value = value_at(values, known.ends.as_slice(), top.number / left);
    stack.push(next)?;
    Ok(value)
}

/// Builds a text, up to more than 16,384 bytes.
// Ends by the steps that are left with all values of the variables that come, each a level below the text that uses it. Lengths
// aren't counted ahead: the text is given up past those bytes, and variables whose texts are all empty are passed over. So a
// chain that doubles forty times takes little memory and few steps.
pub(crate) fn build<'t>(
    alloc: Global,
    vars: &'t Vars,
    done: &Done<'t>,
    start: Rest<'t>,
) -> Result<Vec<u8>, PolicyKind>
    requires right { AreRight (length done.now.entries) vars.now done.now.entries }
    requires known { AreKnown done.now.entries (pieces_of start) }
    requires stands { Stands (length done.now.entries) vars.now start (text_at (length done.now.entries) vars.now start) }
    ensures built { IfOk result (λ v. IsBuilt v.items (text_at (length done.now.entries) vars.now start.entry)) }
    ensures err { IfErr result (λ e. e ≡ PolicyKind.NoMemory) }
{
    let mut text: Vec<u8> = Vec::with_capacity(alloc, start.text.len())?;
    let mut stack: Vec<Rest<'t>> = Vec::new(alloc);
    let mut top = start;
    loop {
        if MAX_BYTES < text.len() {
            return Ok(text);
        }
        let Some((part, behind, keep)) = next_part(top.text, top.kept) else {
            let Some(below) = stack.pop() else {
                return Ok(text);
            };
            top = below;
            continue;
        };
        match part {
            Part::Plain(byte) => {
                text.push(byte)?;
                top = Rest {
                    text: behind,
                    kept: keep,
                    ..top
                };
            }
            Part::Broken => unreachable!(),
            Part::Use(name) => {
                top = enter(vars, done, &mut stack, top, name, behind, keep)?;
            }
        }
    }
}
