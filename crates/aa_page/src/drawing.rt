//! Graphs, drawn as SVG: their nodes one below the other, and the edges as curves to their left.

ghost use Rattle.std.specs.Prelude.{◌≡◌, ◌++◌, OnOk};
ghost use Rattle.aa_page.specs.Drawing.{row_of, left_of, width_of, side_of, point, dashes, complain_word, element_start, attribute, frame_start, arrow_text, drawing_start, drawing_end, ring_start, dot_text, text_start, name_text, node_text, curve_bend, curve_text, arrow_mark, edge_start, tip_text, edge_text};

use crate::escaped::push_shown;
use aa_text::{push_number, push_text};
use std::alloc::{AllocError, Global};

/// How far a node's middle is below the top.
fn row_of(number: usize) -> usize
    ensures { result ≡ row_of number }
{
    26 * number.min(4_294_967_296) + 24
}

/// How far the nodes of that many stand from the left edge.
fn left_of(count: usize) -> usize
    ensures { result ≡ left_of count }
{
    8 * count.min(40) + 40
}

/// How wide the drawing of that many nodes is, whose longest name has so many bytes.
fn width_of(count: usize, widest: usize) -> usize
    ensures { result ≡ width_of count widest }
{
    left_of(count) + 8 * widest.min(1000) + 120
}

/// How far the curve between two nodes goes to the left.
fn side_of(count: usize, from: usize, to: usize) -> usize
    ensures { result ≡ side_of count from to }
{
    let distance = from.saturating_sub(to) + to.saturating_sub(from);
    left_of(count).saturating_sub(8 * distance.min(40) + 24)
}

#[tactic(auto, unfolding(crate::specs::Drawing::point))]
fn push_point(out: &mut Vec<u8>, x: usize, y: usize) -> Result<(), AllocError>
    ensures { OnOk result (out.new.items ≡ out.old.items ++ point x y) }
{
    push_number(out, x)?;
    push_text(out, " ")?;
    push_number(out, y)
}

/// Begins the element of a drawing.
#[tactic(auto, unfolding(crate::specs::Drawing::element_start))]
fn push_element(out: &mut Vec<u8>) -> Result<(), AllocError>
    ensures { OnOk result (out.new.items ≡ out.old.items ++ element_start) }
{
    push_text(
        out,
        "<div class=\"graph\">\n<svg xmlns=\"http://www.w3.org/2000/svg\" role=\"img\" fill=\"none\" stroke=\"currentColor\" font-family=\"monospace\" font-size=\"13\"",
    )
}

/// Appends an attribute that is a number, of which what stands before it is given.
#[tactic(auto, unfolding(crate::specs::Drawing::attribute))]
fn push_attribute(out: &mut Vec<u8>, front: &str, number: usize) -> Result<(), AllocError>
    ensures { OnOk result (out.new.items ≡ out.old.items ++ attribute front.now number) }
{
    push_text(out, front)?;
    push_number(out, number)?;
    push_text(out, "\"")
}

/// Begins a drawing so wide and high.
#[tactic(auto, unfolding(crate::specs::Drawing::frame_start))]
fn push_frame(out: &mut Vec<u8>, width: usize, height: usize) -> Result<(), AllocError>
    ensures { OnOk result (out.new.items ≡ out.old.items ++ frame_start width height) }
{
    push_element(out)?;
    push_attribute(out, " width=\"", width)?;
    push_attribute(out, " height=\"", height)?;
    push_text(out, ">\n")
}

/// Appends the head of an arrow.
fn push_arrow(out: &mut Vec<u8>) -> Result<(), AllocError>
    ensures { OnOk result (out.new.items ≡ out.old.items ++ arrow_text) }
{
    push_text(
        out,
        "<defs><marker id=\"to\" markerWidth=\"8\" markerHeight=\"8\" refX=\"7\" refY=\"4\" orient=\"auto\"><path d=\"M1 1L7 4L1 7\"/></marker></defs>\n",
    )
}

/// Begins the drawing of a graph of that many nodes, whose longest name has so many bytes.
pub fn push_drawing_start(out: &mut Vec<u8>, count: usize, widest: usize) -> Result<(), AllocError>
    ensures { OnOk result (out.new.items ≡ out.old.items ++ drawing_start count widest) }
{
    push_frame(out, width_of(count, widest), row_of(count))?;
    push_arrow(out)
}

/// Ends a drawing.
pub fn push_drawing_end(out: &mut Vec<u8>) -> Result<(), AllocError>
    ensures { OnOk result (out.new.items ≡ out.old.items ++ drawing_end) }
{
    push_text(out, "</svg>\n</div>\n")
}

/// What makes a line dashed.
fn dashes(is_dashed: bool) -> &'static str
    ensures { result.now ≡ dashes is_dashed }
{
    if is_dashed {
        " stroke-dasharray=\"3 2\""
    } else {
        ""
    }
}

fn complain_word(complains: bool) -> &'static str
    ensures { result.now ≡ complain_word complains }
{
    if complains { " (complains)" } else { "" }
}

/// Begins the ring round a point.
#[tactic(auto, unfolding(crate::specs::Drawing::ring_start))]
fn push_ring(out: &mut Vec<u8>, x: usize, y: usize) -> Result<(), AllocError>
    ensures { OnOk result (out.new.items ≡ out.old.items ++ ring_start x y) }
{
    push_text(out, "<circle")?;
    push_attribute(out, " cx=\"", x)?;
    push_attribute(out, " cy=\"", y)
}

/// Appends the ring of a node.
#[tactic(auto, unfolding(crate::specs::Drawing::dot_text))]
fn push_dot(out: &mut Vec<u8>, x: usize, y: usize, complains: bool) -> Result<(), AllocError>
    ensures { OnOk result (out.new.items ≡ out.old.items ++ dot_text x y complains) }
{
    push_ring(out, x, y)?;
    push_attribute(out, " r=\"", 6)?;
    push_text(out, dashes(complains))?;
    push_text(out, "/>")
}

/// Begins the text at a node.
#[tactic(auto, unfolding(crate::specs::Drawing::text_start))]
fn push_text_start(out: &mut Vec<u8>, x: usize, y: usize) -> Result<(), AllocError>
    ensures { OnOk result (out.new.items ≡ out.old.items ++ text_start x y) }
{
    push_text(out, "<text")?;
    push_attribute(out, " x=\"", x)?;
    push_attribute(out, " y=\"", y)
}

/// Appends the name of a node.
#[tactic(auto, unfolding(crate::specs::Drawing::name_text))]
fn push_name(
    out: &mut Vec<u8>,
    alloc: Global,
    x: usize,
    y: usize,
    name: &[u8],
) -> Result<(), AllocError>
    ensures { OnOk result (out.new.items ≡ out.old.items ++ name_text x y name.now) }
{
    push_text_start(out, x, y)?;
    push_text(
        out,
        " dx=\"14\" dy=\"4\" fill=\"currentColor\" stroke=\"none\">",
    )?;
    push_shown(out, alloc, name)
}

/// Appends the node of that number among so many, with its name. One that complains is dashed, and says so.
#[tactic(auto, unfolding(crate::specs::Drawing::node_text))]
pub fn push_node(
    out: &mut Vec<u8>,
    alloc: Global,
    count: usize,
    number: usize,
    name: &[u8],
    complains: bool,
) -> Result<(), AllocError>
    ensures { OnOk result (out.new.items ≡ out.old.items ++ node_text count number name.now complains) }
{
    push_dot(out, left_of(count), row_of(number), complains)?;
    push_name(out, alloc, left_of(count), row_of(number), name)?;
    push_text(out, complain_word(complains))?;
    push_text(out, "</text>\n")
}

/// Appends two points of a curve, both as far to the left as said.
#[tactic(auto, unfolding(crate::specs::Drawing::curve_bend))]
fn push_bend(out: &mut Vec<u8>, side: usize, above: usize, below: usize) -> Result<(), AllocError>
    ensures { OnOk result (out.new.items ≡ out.old.items ++ curve_bend side above below) }
{
    push_text(out, "C")?;
    push_point(out, side, above)?;
    push_text(out, " ")?;
    push_point(out, side, below)?;
    push_text(out, " ")
}

/// Appends the curve from one node to another: it leaves below the former's middle, and ends above the latter's.
#[tactic(auto, unfolding(crate::specs::Drawing::curve_text))]
fn push_curve(out: &mut Vec<u8>, count: usize, from: usize, to: usize) -> Result<(), AllocError>
    ensures { OnOk result (out.new.items ≡ out.old.items ++ curve_text count from to) }
{
    let side = side_of(count, from, to);
    let leave = row_of(from) + 5;
    let arrive = row_of(to) - 5;
    push_text(out, "M")?;
    push_point(out, left_of(count) - 7, leave)?;
    push_bend(out, side, leave, arrive)?;
    push_point(out, left_of(count) - 7, arrive)
}

/// Appends what makes an arrow of a curve.
#[tactic(auto, unfolding(crate::specs::Drawing::arrow_mark))]
fn push_arrow_mark(out: &mut Vec<u8>) -> Result<(), AllocError>
    ensures { OnOk result (out.new.items ≡ out.old.items ++ arrow_mark) }
{
    push_text(out, "\" marker-end=\"url(#to)\">")
}

/// Begins the edge from one node to another among so many.
#[tactic(auto, unfolding(crate::specs::Drawing::edge_start))]
fn push_edge_start(
    out: &mut Vec<u8>,
    count: usize,
    from: usize,
    to: usize,
) -> Result<(), AllocError>
    ensures { OnOk result (out.new.items ≡ out.old.items ++ edge_start count from to) }
{
    push_text(out, "<path d=\"")?;
    push_curve(out, count, from, to)?;
    push_arrow_mark(out)
}

/// Appends what is told of an edge where it is pointed at.
#[tactic(auto, unfolding(crate::specs::Drawing::tip_text))]
fn push_tip(out: &mut Vec<u8>, alloc: Global, title: &[u8]) -> Result<(), AllocError>
    ensures { OnOk result (out.new.items ≡ out.old.items ++ tip_text title.now) }
{
    push_text(out, "<title>")?;
    push_shown(out, alloc, title)?;
    push_text(out, "</title>")
}

/// Appends the edge from one node to another among so many, with what is told of it where it is pointed at.
#[tactic(auto, unfolding(crate::specs::Drawing::edge_text))]
pub fn push_edge(
    out: &mut Vec<u8>,
    alloc: Global,
    count: usize,
    from: usize,
    to: usize,
    title: &[u8],
) -> Result<(), AllocError>
    ensures { OnOk result (out.new.items ≡ out.old.items ++ edge_text count from to title.now) }
{
    push_edge_start(out, count, from, to)?;
    push_tip(out, alloc, title)?;
    push_text(out, "</path>\n")
}
