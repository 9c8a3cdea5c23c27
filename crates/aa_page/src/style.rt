//! How pages look.

ghost use Rattle.std.specs.Prelude.{◌≡◌, ◌++◌, OnOk};
ghost use Rattle.aa_page.specs.Style.{colours_style, texts_style, lists_style, others_style, style_text};

use aa_text::push_text;
use std::alloc::AllocError;

/// Appends the colours, by light and by dark.
#[tactic(auto, unfolding(crate::specs::Style::colours_style))]
fn push_colours(out: &mut Vec<u8>) -> Result<(), AllocError>
    ensures { OnOk result (out.new.items ≡ out.old.items ++ colours_style) }
{
    push_text(
        out,
        ":root{color-scheme:light dark;--edge:#8888;--gain:#9a4a00;--loss:#0757a5;--other:#555;--passed:#6b3fa0}\n@media(prefers-color-scheme:dark){:root{--gain:#ffa94d;--loss:#74b9ff;--other:#bbb;--passed:#c9a4ff}}\n",
    )
}

/// Appends texts and sections.
#[tactic(auto, unfolding(crate::specs::Style::texts_style))]
fn push_texts(out: &mut Vec<u8>) -> Result<(), AllocError>
    ensures { OnOk result (out.new.items ≡ out.old.items ++ texts_style) }
{
    push_text(
        out,
        "body{font:16px/1.5 system-ui,sans-serif;max-width:64rem;margin:auto;padding:1rem}\nh1{font-size:1.4rem}\ncode{font:.9em ui-monospace,monospace;overflow-wrap:anywhere;unicode-bidi:isolate;white-space:pre-wrap}\ndetails{border:1px solid var(--edge);border-radius:.4rem;margin:1rem 0;padding:.4rem .8rem}\nsummary{cursor:pointer;font-weight:600;overflow-wrap:anywhere}\n",
    )
}

/// Appends lists, and the edges of marked lines.
#[tactic(auto, unfolding(crate::specs::Style::lists_style))]
fn push_lists(out: &mut Vec<u8>) -> Result<(), AllocError>
    ensures { OnOk result (out.new.items ≡ out.old.items ++ lists_style) }
{
    push_text(
        out,
        "ul{list-style:none;margin:.4rem 0;padding:0}\nul:empty{display:none}\nli{border-left:.3rem solid var(--edge);margin:.5rem 0;padding-left:.7rem}\n.gain,.new{border-left-color:var(--gain)}.gain>b,.new>b{color:var(--gain)}\n.loss,.old{border-left-color:var(--loss);border-left-style:dashed}.loss>b,.old>b{color:var(--loss)}\n.other{border-left-color:var(--other);border-left-style:dotted}.other>b{color:var(--other)}\n.passed{border-left-color:var(--passed);border-left-style:double}.passed>b{color:var(--passed)}\n.old,.new{border-left-width:1px;font-size:.95em;margin:.2rem 0}\n",
    )
}

/// Appends graphs, and what is printed on paper.
#[tactic(auto, unfolding(crate::specs::Style::others_style))]
fn push_others(out: &mut Vec<u8>) -> Result<(), AllocError>
    ensures { OnOk result (out.new.items ≡ out.old.items ++ others_style) }
{
    push_text(
        out,
        ".graph{overflow-x:auto}\nsvg path:hover{stroke-width:3}\n@media print{body{max-width:none;padding:0}li,svg{break-inside:avoid}}\n",
    )
}

/// Appends how pages look.
#[tactic(auto, unfolding(crate::specs::Style::style_text))]
pub(crate) fn push_style(out: &mut Vec<u8>) -> Result<(), AllocError>
    ensures { OnOk result (out.new.items ≡ out.old.items ++ style_text) }
{
    push_text(out, "<style>\n")?;
    push_colours(out)?;
    push_texts(out)?;
    push_lists(out)?;
    push_others(out)?;
    push_text(out, "</style>\n")
}
