//! What a rule says, beside each of its patterns.

ghost use Rattle.std.specs.Prelude.{◌≡◌, ◌++◌, length, map, IfOk, OnOk};
ghost use Rattle.aa_compile.specs.Marks.{mark_by, marks_by};

use aa_base::Perms;
use aa_model::{ExecKind, Fallback, FileRule};
use aa_pattern::Pattern;
use std::alloc::{AllocError, Global};

/// How a program is executed, with the number of the profile that is named.
#[derive(Clone, Copy, Debug, PartialEq, Eq)]
pub struct Way {
    pub kind: ExecKind,
    pub scrub: bool,
    pub fallback: Fallback,
    /// The number of the name behind the arrow, in a list of such names.
    pub target: Option<usize>,
}

/// What the rule of a pattern says where the pattern matches.
#[derive(Clone, Copy, Debug, PartialEq, Eq)]
pub struct Mark {
    pub audit: bool,
    pub deny: bool,
    pub owner: bool,
    pub perms: Perms,
    pub way: Option<Way>,
    /// Whether the pattern is literal.
    pub literal: bool,
}

fn mark_of(rule: &FileRule, way: Option<Way>, pattern: &Pattern) -> Mark
    ensures { result ≡ mark_by rule.now way pattern.now }
{
    Mark {
        audit: rule.audit,
        deny: rule.deny,
        owner: rule.owner,
        perms: rule.perms,
        way,
        literal: pattern.is_literal(),
    }
}

fn add_marks(marks: &mut Vec<Mark>, rule: &FileRule, way: Option<Way>) -> Result<(), AllocError>
    ensures { OnOk result (marks.new.items ≡ marks.old.items ++ map (mark_by rule.now way) rule.now.patterns) }
{
    for pattern in rule.patterns.as_slice() {
        marks.push(mark_of(rule, way, pattern))?;
    }
    Ok(())
}

/// A mark for each pattern of the rules, in order. `ways` has one entry for each rule.
pub fn marks_of(
    alloc: Global,
    rules: &[FileRule],
    ways: &[Option<Way>],
) -> Result<Vec<Mark>, AllocError>
    requires { length ways.now ≡ length rules.now }
    ensures { IfOk result (λ marks. marks.items ≡ marks_by rules.now ways.now) }
{
    let mut marks = Vec::new(alloc);
    for (number, rule) in rules.iter().enumerate() {
        add_marks(&mut marks, rule, ways[number])?;
    }
    Ok(marks)
}
