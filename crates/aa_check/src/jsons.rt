//! How the findings of `check` are printed as JSON.

ghost use Rattle.std.specs.Prelude.{◌≡◌, ◌++◌, map, flat_map, OnOk};
ghost use Rattle.aa_check.specs.Counts.{told};
ghost use Rattle.aa_check.specs.Jsons.{json_count, json_path, json_further, json_report};

use crate::report::{CheckReport, Count, FileReport, ProfileReport};
use aa_text::{
    FaultReport, ToJson, push_json_bytes, push_key, push_list, push_list_member, push_member,
    push_member_if, push_text,
};
use std::alloc::{AllocError, Global};

/// Appends each count as a member.
fn push_json_counts(out: &mut Vec<u8>, alloc: Global, counts: &[Count]) -> Result<(), AllocError>
    ensures { OnOk result (out.new.items ≡ out.old.items ++ flat_map json_count (map told counts.now)) }
{
    for count in counts {
        push_member(out, alloc, count.key, &count.number)?;
    }
    Ok(())
}

impl ToJson for ProfileReport {
    ghost use Rattle.aa_check.specs.Jsons.{json_profile};

    ghost json = { json_profile };

    #[tactic(auto, unfolding(crate::specs::Jsons::json_profile))]
    fn push_json(&self, out: &mut Vec<u8>, alloc: Global) -> Result<(), AllocError> {
        push_text(out, "{")?;
        push_key(out, "name")?;
        push_json_bytes(out, alloc, self.name.as_slice())?;
        push_member(out, alloc, "line", &self.line)?;
        push_json_counts(out, alloc, &self.counts())?;
        push_text(out, "}")
    }
}

/// Opens the object of a file, and appends its path and whether it is accepted.
#[tactic(auto, unfolding(crate::specs::Jsons::json_path))]
fn push_json_path(out: &mut Vec<u8>, alloc: Global, file: &FileReport) -> Result<(), AllocError>
    ensures { OnOk result (out.new.items ≡ out.old.items ++ json_path file.now) }
{
    push_text(out, "{")?;
    push_key(out, "path")?;
    push_json_bytes(out, alloc, file.path.as_slice())?;
    push_member(out, alloc, "ok", &file.fault.is_none())
}

/// Appends the faults behind the first as a member, where there are any.
#[tactic(auto, unfolding(crate::specs::Jsons::json_further))]
fn push_further(out: &mut Vec<u8>, alloc: Global, faults: &[FaultReport]) -> Result<(), AllocError>
    ensures { OnOk result (out.new.items ≡ out.old.items ++ json_further faults.now) }
{
    if faults.len() == 0 {
        return Ok(());
    }
    push_list_member(out, alloc, "further", faults)
}

impl ToJson for FileReport {
    ghost use Rattle.aa_check.specs.Jsons.{json_file};

    ghost json = { json_file };

    #[tactic(auto, unfolding(crate::specs::Jsons::json_file))]
    fn push_json(&self, out: &mut Vec<u8>, alloc: Global) -> Result<(), AllocError> {
        push_json_path(out, alloc, self)?;
        push_member_if(out, alloc, "fault", &self.fault)?;
        push_further(out, alloc, self.further.as_slice())?;
        push_list_member(out, alloc, "profiles", self.profiles.as_slice())?;
        push_list_member(out, alloc, "warnings", self.warnings.as_slice())?;
        push_text(out, "}")
    }
}

/// Appends the findings as one JSON object and a line end.
pub fn push_json_report(
    out: &mut Vec<u8>,
    alloc: Global,
    report: &CheckReport,
) -> Result<(), AllocError>
    ensures { OnOk result (out.new.items ≡ out.old.items ++ json_report report.now) }
{
    push_text(out, "{")?;
    push_key(out, "files")?;
    push_list(out, alloc, report.files.as_slice())?;
    push_list_member(out, alloc, "warnings", report.warnings.as_slice())?;
    push_text(out, "}\n")
}
