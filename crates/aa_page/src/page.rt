//! The frame of a page, its sections and its lists.

ghost use Rattle.std.specs.Prelude.{◌≡◌, ◌++◌, OnOk};
ghost use Rattle.aa_page.specs.Pages.{title_text, head_text, body_start, heading, page_start, page_end, details, section_start, section_end, paragraph, list_start, list_end};

use crate::escaped::push_shown;
use crate::style::push_style;
use aa_text::push_text;
use std::alloc::{AllocError, Global};

/// Appends what stands before a page's title: that it is HTML in UTF-8, that a browser fetches nothing for it and runs no script.
#[tactic(auto, unfolding(crate::specs::Pages::head_text))]
fn push_head(out: &mut Vec<u8>) -> Result<(), AllocError>
    ensures { OnOk result (out.new.items ≡ out.old.items ++ head_text) }
{
    push_text(
        out,
        "<!DOCTYPE html>\n<html lang=\"en\">\n<head>\n<meta charset=\"utf-8\">\n<meta http-equiv=\"Content-Security-Policy\" content=\"default-src 'none'; style-src 'unsafe-inline'\">\n<meta name=\"viewport\" content=\"width=device-width, initial-scale=1\">\n",
    )
}

#[tactic(auto, unfolding(crate::specs::Pages::title_text))]
fn push_title(out: &mut Vec<u8>, alloc: Global, title: &[u8]) -> Result<(), AllocError>
    ensures { OnOk result (out.new.items ≡ out.old.items ++ title_text title.now) }
{
    push_text(out, "<title>")?;
    push_shown(out, alloc, title)?;
    push_text(out, "</title>\n")
}

#[tactic(auto, unfolding(crate::specs::Pages::body_start))]
fn push_body_start(out: &mut Vec<u8>) -> Result<(), AllocError>
    ensures { OnOk result (out.new.items ≡ out.old.items ++ body_start) }
{
    push_text(out, "</head>\n<body>\n")
}

#[tactic(auto, unfolding(crate::specs::Pages::heading))]
fn push_heading(out: &mut Vec<u8>, alloc: Global, title: &[u8]) -> Result<(), AllocError>
    ensures { OnOk result (out.new.items ≡ out.old.items ++ heading title.now) }
{
    push_text(out, "<h1>")?;
    push_shown(out, alloc, title)?;
    push_text(out, "</h1>\n")
}

/// Begins a page.
#[tactic(auto, unfolding(crate::specs::Pages::page_start))]
pub fn push_page_start(out: &mut Vec<u8>, alloc: Global, title: &[u8]) -> Result<(), AllocError>
    ensures { OnOk result (out.new.items ≡ out.old.items ++ page_start title.now) }
{
    push_head(out)?;
    push_title(out, alloc, title)?;
    push_style(out)?;
    push_body_start(out)?;
    push_heading(out, alloc, title)
}

/// Ends a page.
pub fn push_page_end(out: &mut Vec<u8>) -> Result<(), AllocError>
    ensures { OnOk result (out.new.items ≡ out.old.items ++ page_end) }
{
    push_text(out, "</body>\n</html>\n")
}

/// What has a section unfolded at first.
fn details(is_open: bool) -> &'static str
    ensures { result.now ≡ details is_open }
{
    if is_open {
        "<details open>\n"
    } else {
        "<details>\n"
    }
}

/// Begins a section that folds, and that is unfolded at first or not.
#[tactic(auto, unfolding(crate::specs::Pages::section_start))]
pub fn push_section_start(
    out: &mut Vec<u8>,
    alloc: Global,
    is_open: bool,
    title: &[u8],
) -> Result<(), AllocError>
    ensures { OnOk result (out.new.items ≡ out.old.items ++ section_start is_open title.now) }
{
    push_text(out, details(is_open))?;
    push_text(out, "<summary>")?;
    push_shown(out, alloc, title)?;
    push_text(out, "</summary>\n")
}

/// Ends a section.
pub fn push_section_end(out: &mut Vec<u8>) -> Result<(), AllocError>
    ensures { OnOk result (out.new.items ≡ out.old.items ++ section_end) }
{
    push_text(out, "</details>\n")
}

/// Appends a paragraph.
#[tactic(auto, unfolding(crate::specs::Pages::paragraph))]
pub fn push_paragraph(out: &mut Vec<u8>, alloc: Global, text: &[u8]) -> Result<(), AllocError>
    ensures { OnOk result (out.new.items ≡ out.old.items ++ paragraph text.now) }
{
    push_text(out, "<p>")?;
    push_shown(out, alloc, text)?;
    push_text(out, "</p>\n")
}

/// Begins a list.
pub fn push_list_start(out: &mut Vec<u8>) -> Result<(), AllocError>
    ensures { OnOk result (out.new.items ≡ out.old.items ++ list_start) }
{
    push_text(out, "<ul>")
}

/// Ends a list.
pub fn push_list_end(out: &mut Vec<u8>) -> Result<(), AllocError>
    ensures { OnOk result (out.new.items ≡ out.old.items ++ list_end) }
{
    push_text(out, "</ul>\n")
}
