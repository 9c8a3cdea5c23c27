//! How the findings of `check` are written as a SARIF log.

ghost use Rattle.std.specs.Prelude.{◌≡◌, ◌==◌, ◌++◌, ◌<◌, not, map, flat_map, option_to_list, codes, OnOk, IfOk};
ghost use Rattle.aa_text.specs.Jsons.{json_bytes, member_text};
ghost use Rattle.aa_check.specs.Sarif.{is_alphanumeric, is_plain, uri_byte, scheme_of, uri_text, ascii_of, as_text, message_text, start_line, region_text, region_member, place_member, location_text, related_text, link_text, links_member, level_text, rule_members, fault_members, result_text, results_of, notification_text, notifications, all_notifications, results_member, notifications_member, invocations_text, note_text, run_member, sarif_head, sarif_report};
ghost use Rattle.aa_check.specs.Notified.{notified, related, found};
ghost use Rattle.aa_command.specs.Untold.{untelling};

use crate::report::{CheckReport, FileReport};
use aa_base::push_hex;
use aa_command::Untold;
use aa_text::{
    FaultReport, Link, PlaceAt, ToJson, is_text, push_json_bytes, push_json_text, push_key,
    push_list, push_list_member, push_member, push_next_key, push_number, push_text,
};
use std::alloc::{AllocError, Global};

fn is_alphanumeric(b: u8) -> bool
    ensures { result ≡ is_alphanumeric b }
{
    (b'0' <= b && b <= b'9') || (b'A' <= b && b <= b'Z') || (b'a' <= b && b <= b'z')
}

/// Whether a byte stands for itself in the path of a URI.
fn is_plain(b: u8) -> bool
    ensures { result ≡ is_plain b }
{
    is_alphanumeric(b) || b == b'-' || b == b'.' || b == b'_' || b == b'~' || b == b'/'
}

fn push_uri_byte(out: &mut Vec<u8>, b: u8) -> Result<(), AllocError>
    ensures { OnOk result (out.new.items ≡ out.old.items ++ uri_byte b) }
{
    if is_plain(b) {
        out.push(b)?;
        return Ok(());
    }
    out.push(b'%')?;
    push_hex(out, &[b])
}

fn push_uri_bytes(out: &mut Vec<u8>, path: &[u8]) -> Result<(), AllocError>
    ensures { OnOk result (out.new.items ≡ out.old.items ++ flat_map uri_byte path.now) }
{
    for b in path {
        push_uri_byte(out, *b)?;
    }
    Ok(())
}

fn scheme_of(path: &[u8]) -> &'static str
    ensures { result.now ≡ scheme_of path.now }
{
    match path {
        [b'/', ..] => "file://",
        _ => "",
    }
}

/// Appends a path as a URI: an absolute path as that of a file, another one relative.
#[tactic(auto, unfolding(crate::specs::Sarif::uri_text))]
fn push_uri(out: &mut Vec<u8>, path: &[u8]) -> Result<(), AllocError>
    ensures { OnOk result (out.new.items ≡ out.old.items ++ uri_text path.now) }
{
    push_text(out, "\"")?;
    push_text(out, scheme_of(path))?;
    push_uri_bytes(out, path)?;
    push_text(out, "\"")
}

fn ascii_of(b: u8) -> u8
    ensures { result ≡ ascii_of b }
{
    if b < 128 { b } else { b'?' }
}

fn ascii_bytes(alloc: Global, bytes: &[u8]) -> Result<Vec<u8>, AllocError>
    ensures { IfOk result (λ text. text.items ≡ map ascii_of bytes.now) }
{
    let mut text = Vec::new(alloc);
    for b in bytes {
        text.push(ascii_of(*b))?;
    }
    Ok(text)
}

/// Appends bytes as a text: those that are no UTF-8 with `?` in place of each that is no ASCII.
fn push_as_text(out: &mut Vec<u8>, alloc: Global, bytes: &[u8]) -> Result<(), AllocError>
    ensures { OnOk result (out.new.items ≡ out.old.items ++ json_bytes (as_text bytes.now)) }
{
    if is_text(bytes) {
        return push_json_bytes(out, alloc, bytes);
    }
    let text = ascii_bytes(alloc, bytes)?;
    push_json_bytes(out, alloc, text.as_slice())
}

/// A message.
#[derive(Clone, Copy)]
pub struct Message<'a> {
    pub bytes: &'a [u8],
}

impl ToJson for Message<'_> {
    ghost json = { λ m. message_text m.bytes.now };

    #[tactic(auto, unfolding(crate::specs::Sarif::message_text))]
    fn push_json(&self, out: &mut Vec<u8>, alloc: Global) -> Result<(), AllocError> {
        push_text(out, "{")?;
        push_key(out, "text")?;
        push_as_text(out, alloc, self.bytes)?;
        push_text(out, "}")
    }
}

#[tactic(auto, unfolding(crate::specs::Sarif::start_line))]
fn push_start_line(out: &mut Vec<u8>, line: usize) -> Result<(), AllocError>
    ensures { OnOk result (out.new.items ≡ out.old.items ++ start_line line) }
{
    push_key(out, "startLine")?;
    push_number(out, line)
}

/// A place, by its line and column.
#[derive(Clone, Copy)]
struct Region {
    line: usize,
    column: usize,
}

impl ToJson for Region {
    ghost json = { λ r. region_text r.line r.column };

    #[tactic(auto, unfolding(crate::specs::Sarif::region_text))]
    fn push_json(&self, out: &mut Vec<u8>, alloc: Global) -> Result<(), AllocError> {
        push_text(out, "{")?;
        push_start_line(out, self.line)?;
        push_member(out, alloc, "startColumn", &self.column)?;
        push_text(out, "}")
    }
}

fn region_of(place: PlaceAt) -> Region
    ensures line { result.line ≡ place.line }
    ensures column { result.column ≡ place.column }
{
    Region {
        line: place.line,
        column: place.column,
    }
}

fn push_region_member(
    out: &mut Vec<u8>,
    alloc: Global,
    place: Option<PlaceAt>,
) -> Result<(), AllocError>
    ensures { OnOk result (out.new.items ≡ out.old.items ++ region_member place) }
{
    match place {
        Some(place) => push_member(out, alloc, "region", &region_of(place)),
        None => Ok(()),
    }
}

/// Appends a file, and a place in it if there is one, as the first member of an object.
#[tactic(auto, unfolding(crate::specs::Sarif::place_member))]
fn push_place_member(
    out: &mut Vec<u8>,
    alloc: Global,
    path: &[u8],
    place: Option<PlaceAt>,
) -> Result<(), AllocError>
    ensures { OnOk result (out.new.items ≡ out.old.items ++ place_member path.now place) }
{
    push_key(out, "physicalLocation")?;
    push_text(out, "{")?;
    push_key(out, "artifactLocation")?;
    push_text(out, "{")?;
    push_key(out, "uri")?;
    push_uri(out, path)?;
    push_text(out, "}")?;
    push_region_member(out, alloc, place)?;
    push_text(out, "}")
}

/// Where a result is.
#[derive(Clone, Copy)]
pub struct Location<'a> {
    pub path: &'a [u8],
    pub place: Option<PlaceAt>,
}

impl ToJson for Location<'_> {
    ghost json = { λ l. location_text l.path.now l.place };

    #[tactic(auto, unfolding(crate::specs::Sarif::location_text))]
    fn push_json(&self, out: &mut Vec<u8>, alloc: Global) -> Result<(), AllocError> {
        push_text(out, "[{")?;
        push_place_member(out, alloc, self.path, self.place)?;
        push_text(out, "}]")
    }
}

/// A place besides that of a result, and what it has to do with it.
#[derive(Clone, Copy)]
pub struct Related<'a> {
    pub path: &'a [u8],
    pub place: Option<PlaceAt>,
    pub bytes: &'a [u8],
}

impl ToJson for Related<'_> {
    ghost json = { λ r. related_text r.path.now r.place r.bytes.now };

    #[tactic(auto, unfolding(crate::specs::Sarif::related_text))]
    fn push_json(&self, out: &mut Vec<u8>, alloc: Global) -> Result<(), AllocError> {
        let bytes = self.bytes;
        push_text(out, "{")?;
        push_place_member(out, alloc, self.path, self.place)?;
        push_member(out, alloc, "message", &Message { bytes })?;
        push_text(out, "}")
    }
}

/// An include on the way to a fault.
#[derive(Clone, Copy)]
struct RelatedPlace<'a> {
    link: &'a Link,
}

impl ToJson for RelatedPlace<'_> {
    ghost json = { λ r. link_text r.link.now };

    #[tactic(auto, unfolding(crate::specs::Sarif::link_text))]
    fn push_json(&self, out: &mut Vec<u8>, alloc: Global) -> Result<(), AllocError> {
        let related = Related {
            path: self.link.path.as_slice(),
            place: Some(self.link.place),
            bytes: b"included here",
        };
        related.push_json(out, alloc)
    }
}

fn related_places<'a>(alloc: Global, links: &'a [Link]) -> Result<Vec<RelatedPlace<'a>>, AllocError>
    ensures { IfOk result (λ list. related list.items ≡ map link_text links.now) }
{
    let mut list = Vec::new(alloc);
    for link in links {
        list.push(RelatedPlace { link })?;
    }
    Ok(list)
}

/// Appends the includes on the way to a fault, as a member.
#[tactic(auto, unfolding(crate::specs::Sarif::links_member))]
fn push_links(out: &mut Vec<u8>, alloc: Global, links: &[Link]) -> Result<(), AllocError>
    ensures { OnOk result (out.new.items ≡ out.old.items ++ links_member links.now) }
{
    let list = related_places(alloc, links)?;
    push_list_member(out, alloc, "relatedLocations", list.as_slice())
}

/// Appends the message of a fault and where it is, as members.
#[tactic(auto, unfolding(crate::specs::Sarif::fault_members))]
fn push_fault_members(
    out: &mut Vec<u8>,
    alloc: Global,
    fault: &FaultReport,
) -> Result<(), AllocError>
    ensures { OnOk result (out.new.items ≡ out.old.items ++ fault_members fault.now) }
{
    let bytes = fault.message.as_slice();
    push_member(out, alloc, "message", &Message { bytes })?;
    let path = fault.path.as_slice();
    let place = fault.place;
    push_member(out, alloc, "locations", &Location { path, place })
}

/// How grave a result or a notification is.
#[derive(Clone, Copy, Debug, PartialEq, Eq)]
pub enum Level {
    Error,
    Warning,
}

fn level_text(level: Level) -> &'static str
    ensures { result.now ≡ level_text level }
{
    match level {
        Level::Error => "\"error\"",
        Level::Warning => "\"warning\"",
    }
}

#[tactic(auto, unfolding(aa_text::specs::Jsons::member_text))]
fn push_level(out: &mut Vec<u8>, level: Level) -> Result<(), AllocError>
    ensures { OnOk result (out.new.items ≡ out.old.items ++ member_text (codes "level") (level_text level)) }
{
    push_next_key(out, "level")?;
    push_text(out, level_text(level))
}

/// Opens the object of a result, and appends its kind and how grave it is.
#[tactic(auto, unfolding(crate::specs::Sarif::rule_members))]
pub fn push_rule_members(
    out: &mut Vec<u8>,
    alloc: Global,
    level: Level,
    kind: &str,
) -> Result<(), AllocError>
    ensures { OnOk result (out.new.items ≡ out.old.items ++ rule_members level kind.now) }
{
    push_text(out, "{")?;
    push_key(out, "ruleId")?;
    push_json_text(out, alloc, kind)?;
    push_level(out, level)
}

#[tactic(auto, unfolding(crate::specs::Sarif::result_text))]
fn push_result(out: &mut Vec<u8>, alloc: Global, fault: &FaultReport) -> Result<(), AllocError>
    ensures { OnOk result (out.new.items ≡ out.old.items ++ result_text fault.now) }
{
    push_rule_members(out, alloc, Level::Error, fault.kind)?;
    push_fault_members(out, alloc, fault)?;
    push_links(out, alloc, fault.chain.as_slice())?;
    push_text(out, "}")
}

/// A fault as it stands among the results.
#[derive(Clone, Copy)]
struct Found<'a> {
    fault: &'a FaultReport,
}

impl ToJson for Found<'_> {
    ghost json = { λ f. result_text f.fault.now };

    fn push_json(&self, out: &mut Vec<u8>, alloc: Global) -> Result<(), AllocError> {
        push_result(out, alloc, self.fault)
    }
}

fn add_first<'r>(
    list: &mut Vec<Found<'r>>,
    fault: &'r Option<FaultReport>,
) -> Result<(), AllocError>
    ensures { OnOk result (found list.new.items ≡ found list.old.items ++ map result_text (option_to_list fault.now)) }
{
    if let Some(fault) = fault {
        list.push(Found { fault })?;
    }
    Ok(())
}

fn add_further<'r>(list: &mut Vec<Found<'r>>, faults: &'r [FaultReport]) -> Result<(), AllocError>
    ensures { OnOk result (found list.new.items ≡ found list.old.items ++ map result_text faults.now) }
{
    for fault in faults {
        list.push(Found { fault })?;
    }
    Ok(())
}

fn add_faults<'r>(list: &mut Vec<Found<'r>>, file: &'r FileReport) -> Result<(), AllocError>
    ensures { OnOk result (found list.new.items ≡ found list.old.items ++ results_of file.now) }
{
    add_first(list, &file.fault)?;
    add_further(list, file.further.as_slice())
}

/// The faults of all files.
fn all_faults<'r>(alloc: Global, files: &'r [FileReport]) -> Result<Vec<Found<'r>>, AllocError>
    ensures { IfOk result (λ list. found list.items ≡ flat_map results_of files.now) }
{
    let mut list = Vec::new(alloc);
    for file in files {
        add_faults(&mut list, file)?;
    }
    Ok(list)
}

/// Appends the faults of all files as a member.
#[tactic(auto, unfolding(crate::specs::Sarif::results_member))]
fn push_results(out: &mut Vec<u8>, alloc: Global, files: &[FileReport]) -> Result<(), AllocError>
    ensures { OnOk result (out.new.items ≡ out.old.items ++ results_member files.now) }
{
    let list = all_faults(alloc, files)?;
    push_list_member(out, alloc, "results", list.as_slice())
}

/// What is told of a run besides its results.
#[derive(Clone, Copy)]
pub struct Notification<'a> {
    pub level: Level,
    pub bytes: &'a [u8],
}

impl ToJson for Notification<'_> {
    ghost json = { λ n. notification_text n.level n.bytes.now };

    #[tactic(auto, unfolding(crate::specs::Sarif::notification_text))]
    fn push_json(&self, out: &mut Vec<u8>, alloc: Global) -> Result<(), AllocError> {
        push_text(out, "{")?;
        push_key(out, "level")?;
        push_text(out, level_text(self.level))?;
        let bytes = self.bytes;
        push_member(out, alloc, "message", &Message { bytes })?;
        push_text(out, "}")
    }
}

fn add_notifications<'r>(
    list: &mut Vec<Notification<'r>>,
    warnings: &'r [Vec<u8>],
) -> Result<(), AllocError>
    ensures { OnOk result (notified list.new.items ≡ notified list.old.items ++ notifications warnings.now) }
{
    for warning in warnings {
        list.push(Notification {
            level: Level::Warning,
            bytes: warning.as_slice(),
        })?;
    }
    Ok(())
}

/// All warnings: those of no file's own, and then each file's.
fn all_notifications<'r>(
    alloc: Global,
    report: &'r CheckReport,
) -> Result<Vec<Notification<'r>>, AllocError>
    ensures { IfOk result (λ list. notified list.items ≡ all_notifications report.now) }
{
    let mut list = Vec::new(alloc);
    add_notifications(&mut list, report.warnings.as_slice())?;
    for file in &report.files {
        add_notifications(&mut list, file.warnings.as_slice())?;
    }
    Ok(list)
}

/// Appends what is told besides, as the first member of an object.
#[tactic(auto, unfolding(crate::specs::Sarif::notifications_member))]
fn push_notifications(
    out: &mut Vec<u8>,
    alloc: Global,
    warnings: &[Notification<'_>],
) -> Result<(), AllocError>
    ensures { OnOk result (out.new.items ≡ out.old.items ++ notifications_member (notified warnings.now)) }
{
    push_key(out, "toolExecutionNotifications")?;
    push_list(out, alloc, warnings)
}

/// How a run went: whether all could be looked at, and what is told besides.
#[derive(Clone, Copy)]
pub struct Invocations<'w, 'b> {
    pub is_successful: bool,
    pub warnings: &'w [Notification<'b>],
}

impl ToJson for Invocations<'_, '_> {
    ghost json = { λ i. invocations_text i.is_successful (notified i.warnings.now) };

    #[tactic(auto, unfolding(crate::specs::Sarif::invocations_text))]
    fn push_json(&self, out: &mut Vec<u8>, alloc: Global) -> Result<(), AllocError> {
        push_text(out, "[{")?;
        push_notifications(out, alloc, self.warnings)?;
        push_member(out, alloc, "executionSuccessful", &self.is_successful)?;
        push_text(out, "}]")
    }
}

fn run_of<'w, 'b>(report: &CheckReport, warnings: &'w [Notification<'b>]) -> Invocations<'w, 'b>
    ensures success { result.is_successful ≡ not report.now.is_unread }
    ensures warnings { result.warnings.now ≡ warnings.entry.now }
{
    Invocations {
        is_successful: !report.is_unread,
        warnings,
    }
}

/// Of which profiles nothing is told, and why.
fn notes_of<'a>(alloc: Global, all: &'a [Untold]) -> Result<Vec<Notification<'a>>, AllocError>
    ensures { IfOk result (λ list. notified list.items ≡ map note_text (map untelling all.now)) }
{
    let mut list = Vec::new(alloc);
    for untold in all {
        list.push(Notification {
            level: Level::Error,
            bytes: untold.text.as_slice(),
        })?;
    }
    Ok(list)
}

/// Appends to a run of a SARIF log how it went, as a member: it didn't look at all where of a profile nothing is told, and there is a
/// notification for each such profile. Want of memory is the one error.
pub fn push_run(out: &mut Vec<u8>, alloc: Global, untold: &[Untold]) -> Result<(), AllocError>
    ensures { OnOk result (out.new.items ≡ out.old.items ++ run_member (map untelling untold.now)) }
{
    let list = notes_of(alloc, untold)?;
    let warnings = list.as_slice();
    let is_successful = untold.is_empty();
    push_member(
        out,
        alloc,
        "invocations",
        &Invocations {
            is_successful,
            warnings,
        },
    )
}

/// Appends what stands before the results of a SARIF log.
#[tactic(auto, unfolding(crate::specs::Sarif::sarif_head))]
pub fn push_sarif_head(out: &mut Vec<u8>) -> Result<(), AllocError>
    ensures { OnOk result (out.new.items ≡ out.old.items ++ sarif_head) }
{
    push_text(
        out,
        "{\"$schema\":\"https://json.schemastore.org/sarif-2.1.0.json\",\"version\":\"2.1.0\",\"runs\":[{\"tool\":{\"driver\":{\"name\":\"aapolicy\"}},\"columnKind\":\"unicodeCodePoints\"",
    )
}

/// Appends the findings as one SARIF log (version 2.1.0) and a line end: a result for each fault, with its place and the includes
/// on the way to it, and a notification for each warning.
pub fn push_sarif_report(
    out: &mut Vec<u8>,
    alloc: Global,
    report: &CheckReport,
) -> Result<(), AllocError>
    ensures { OnOk result (out.new.items ≡ out.old.items ++ sarif_report report.now) }
{
    let warnings = all_notifications(alloc, report)?;
    push_sarif_head(out)?;
    push_results(out, alloc, report.files.as_slice())?;
    let run = run_of(report, warnings.as_slice());
    push_member(out, alloc, "invocations", &run)?;
    push_text(out, "}]}\n")
}
