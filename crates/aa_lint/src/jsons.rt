//! What is found, as JSON.

ghost use Rattle.std.specs.Prelude.{◌≡◌, ◌++◌, codes, map, option_map, OnOk};
ghost use Rattle.aa_text.specs.Jsons.{member_if, list_text};
ghost use Rattle.aa_lint.specs.Telling.{standing, telling};
ghost use Rattle.aa_command.specs.Untold.{untelling};
ghost use Rattle.aa_lint.specs.Jsons.{json_standing, json_named, json_why, bytes_if, json_beside, json_finding, json_findings, json_lint};

use crate::finding_names::name_of;
use crate::shown::push_why;
use crate::told::{Site, Told};
use aa_command::{Untold, push_untold_member};
use aa_text::{
    ToJson, push_comma, push_json_place, push_json_text, push_key, push_list, push_member,
    push_text,
};
use std::alloc::{AllocError, Global};

impl ToJson for Site {
    ghost use Rattle.aa_lint.specs.Telling.{standing};
    ghost use Rattle.aa_lint.specs.Jsons.{json_standing};

    ghost json = { λ site. json_standing (standing site) };

    #[tactic(auto, unfolding(crate::specs::Jsons::json_standing))]
    fn push_json(&self, out: &mut Vec<u8>, alloc: Global) -> Result<(), AllocError> {
        push_text(out, "{")?;
        push_json_place(out, alloc, self.path.as_slice(), Some(self.place))?;
        push_text(out, "}")
    }
}

/// Opens the object of a finding, and appends how it is called and where it stands.
#[tactic(auto, unfolding(crate::specs::Jsons::json_named))]
fn push_named(out: &mut Vec<u8>, alloc: Global, told: &Told) -> Result<(), AllocError>
    ensures { OnOk result (out.new.items ≡ out.old.items ++ json_named (telling told.now)) }
{
    push_text(out, "{")?;
    push_key(out, "name")?;
    push_json_text(out, alloc, name_of(told.kind))?;
    push_comma(out, true)?;
    push_json_place(out, alloc, told.at.path.as_slice(), Some(told.at.place))
}

/// Appends of which profile it is one, and why.
#[tactic(auto, unfolding(crate::specs::Jsons::json_why))]
fn push_json_why(out: &mut Vec<u8>, alloc: Global, told: &Told) -> Result<(), AllocError>
    ensures { OnOk result (out.new.items ≡ out.old.items ++ json_why (telling told.now)) }
{
    let mut why = Vec::new(alloc);
    push_why(&mut why, alloc, told)?;
    push_member(out, alloc, "profile", &told.profile)?;
    push_member(out, alloc, "why", &why)
}

/// Appends bytes as a member, where there are some.
fn push_bytes_if(
    out: &mut Vec<u8>,
    alloc: Global,
    key: &str,
    bytes: &Option<Vec<u8>>,
) -> Result<(), AllocError>
    ensures { OnOk result (out.new.items ≡ out.old.items ++ bytes_if key.now (option_map (λ b. b.items) bytes.now)) }
{
    match bytes {
        Some(bytes) => push_member(out, alloc, key, bytes),
        None => Ok(()),
    }
}

/// Appends where the rule stands that is said again.
fn push_earlier(out: &mut Vec<u8>, alloc: Global, earlier: &Option<Site>) -> Result<(), AllocError>
    ensures { OnOk result (out.new.items ≡ out.old.items ++ member_if (codes "earlier") (option_map json_standing (option_map standing earlier.now))) }
{
    match earlier {
        Some(site) => push_member(out, alloc, "earlier", site),
        None => Ok(()),
    }
}

/// Appends what is told beside.
#[tactic(auto, unfolding(crate::specs::Jsons::json_beside))]
fn push_beside(out: &mut Vec<u8>, alloc: Global, told: &Told) -> Result<(), AllocError>
    ensures { OnOk result (out.new.items ≡ out.old.items ++ json_beside (telling told.now)) }
{
    push_earlier(out, alloc, &told.earlier)?;
    push_bytes_if(out, alloc, "other", &told.other)?;
    push_bytes_if(out, alloc, "as", &told.witness)?;
    push_bytes_if(out, alloc, "rule", &told.rule)
}

impl ToJson for Told {
    ghost use Rattle.aa_lint.specs.Telling.{telling};
    ghost use Rattle.aa_lint.specs.Jsons.{json_finding};

    ghost json = { λ told. json_finding (telling told) };

    #[tactic(auto, unfolding(crate::specs::Jsons::json_finding))]
    fn push_json(&self, out: &mut Vec<u8>, alloc: Global) -> Result<(), AllocError> {
        push_named(out, alloc, self)?;
        push_json_why(out, alloc, self)?;
        push_beside(out, alloc, self)?;
        push_text(out, "}")
    }
}

fn push_told_list(out: &mut Vec<u8>, alloc: Global, told: &[Told]) -> Result<(), AllocError>
    ensures { OnOk result (out.new.items ≡ out.old.items ++ list_text (map json_finding (map telling told.now))) }
{
    push_list(out, alloc, told)?;
    Ok(())
}

/// Appends the findings, as the first member of an object.
#[tactic(auto, unfolding(crate::specs::Jsons::json_findings))]
fn push_findings(out: &mut Vec<u8>, alloc: Global, told: &[Told]) -> Result<(), AllocError>
    ensures { OnOk result (out.new.items ≡ out.old.items ++ json_findings (map telling told.now)) }
{
    push_text(out, "{")?;
    push_key(out, "findings")?;
    push_told_list(out, alloc, told)
}

/// Appends what is found and how many files are skipped, as one object and a line end.
pub(crate) fn push_json_lint(
    out: &mut Vec<u8>,
    alloc: Global,
    skipped: usize,
    told: &[Told],
    untold: &[Untold],
) -> Result<(), AllocError>
    ensures { OnOk result (out.new.items ≡ out.old.items ++ json_lint skipped (map telling told.now) (map untelling untold.now)) }
{
    push_findings(out, alloc, told)?;
    push_untold_member(out, alloc, untold)?;
    push_member(out, alloc, "skipped_files", &skipped)?;
    push_text(out, "}\n")
}
