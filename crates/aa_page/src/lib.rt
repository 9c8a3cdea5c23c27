//! Pages of HTML that stand alone: texts that can't become tags, their frame and looks, sections that fold, marked
//! lines and graphs.
//!
//! A page is appended to a `Vec` from its first byte to its last: `push_page_start` with the title (definition
//! `page_start`); then `push_paragraph`, and between `push_section_start` and `push_section_end` lists
//! (`push_list_start`, `push_list_end`) of lines (`push_line_start` with a `Mark`, or `push_plain_start`; `push_rule`;
//! `push_line_end`), or a graph by `push_drawing_start`, `push_node`, `push_edge` and `push_drawing_end`; last
//! `push_page_end`. Texts of policies are put in by `push_shown` and `push_code`, escaped: by the law
//! `texts_end_at_marks` none of them begins or ends a tag or an attribute's value (`TextsEndAtMarks`). What a page says
//! is left to `aa_diff` and `aa_reach`.
//!
//! Shown by tests/policy_files/a_page_of_texts_that_would_break_out.
#![tactic(auto)]

mod drawing;
mod escaped;
mod laws;
mod line;
mod mark;
mod page;
mod style;

pub use drawing::{push_drawing_end, push_drawing_start, push_edge, push_node};
pub use escaped::{push_code, push_shown};
pub use laws::texts_end_at_marks;
pub use line::{push_line_end, push_line_start, push_plain_start, push_rule};
pub use mark::Mark;
pub use page::{
    push_list_end, push_list_start, push_page_end, push_page_start, push_paragraph,
    push_section_end, push_section_start,
};
