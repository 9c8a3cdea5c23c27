//! The graph of all labels, in the language of Graphviz.

ghost use Rattle.std.specs.Prelude.{◌≡◌, ◌++◌, true, false, codes, map, flat_map, OnOk, IfOk};
ghost use Rattle.aa_ask.specs.Shown.{complain_mark};
ghost use Rattle.aa_reach.specs.Names.{name_in, called};
ghost use Rattle.aa_reach.specs.Routes.{turned, routed};
ghost use Rattle.aa_reach.specs.Dot.{dot_byte, dot_string, style_mark, border_mark, node_line, edge_word, dotted_mark, edge_end, edge_line, node_edges, passed_comment, skipped_comment, dot_comments, dot_text, untold_edges};

use crate::graph::Vertex;
use crate::naming::{Named, push_called};
use crate::routes::{Route, Turn};
use crate::shown::{is_undecided, push_complain, push_untold_of};
use aa_skipped::push_skipped_count;
use aa_text::{push_number, push_text};
use std::alloc::{AllocError, Global};

/// Appends a byte between quotes, behind a backslash where it would end them or begin an escape.
fn push_byte(out: &mut Vec<u8>, byte: u8) -> Result<(), AllocError>
    ensures { OnOk result (out.new.items ≡ out.old.items ++ dot_byte byte) }
{
    if byte == b'"' || byte == b'\\' {
        out.push(b'\\')?;
    }
    out.push(byte)?;
    Ok(())
}

fn push_bytes(out: &mut Vec<u8>, text: &[u8]) -> Result<(), AllocError>
    ensures { OnOk result (out.new.items ≡ out.old.items ++ flat_map dot_byte text.now) }
{
    for byte in text {
        push_byte(out, *byte)?;
    }
    Ok(())
}

/// Appends a text between quotes.
#[tactic(auto, unfolding(crate::specs::Dot::dot_string))]
fn push_string(out: &mut Vec<u8>, text: &[u8]) -> Result<(), AllocError>
    ensures { OnOk result (out.new.items ≡ out.old.items ++ dot_string text.now) }
{
    push_text(out, "\"")?;
    push_bytes(out, text)?;
    push_text(out, "\"")
}

/// Appends between quotes what a label is called.
fn push_label(out: &mut Vec<u8>, alloc: Global, named: &Named) -> Result<(), AllocError>
    ensures { OnOk result (out.new.items ≡ out.old.items ++ dot_string (called (name_in named.now))) }
{
    let mut text = Vec::new(alloc);
    push_called(&mut text, alloc, named)?;
    push_string(out, text.as_slice())
}

fn push_style(out: &mut Vec<u8>, complains: bool) -> Result<(), AllocError>
    ensures { OnOk result (out.new.items ≡ out.old.items ++ style_mark complains) }
{
    push_text(out, if complains { " [style=dashed]" } else { "" })
}

fn push_border(out: &mut Vec<u8>, undecided: bool) -> Result<(), AllocError>
    ensures { OnOk result (out.new.items ≡ out.old.items ++ border_mark undecided) }
{
    push_text(out, if undecided { " [peripheries=2]" } else { "" })
}

#[tactic(auto, unfolding(crate::specs::Dot::node_line))]
fn push_node(out: &mut Vec<u8>, alloc: Global, vertex: &Vertex) -> Result<(), AllocError>
    ensures { OnOk result (out.new.items ≡ out.old.items ++ node_line vertex.now) }
{
    push_text(out, "  ")?;
    push_label(out, alloc, &vertex.edges.from)?;
    push_style(out, vertex.complains)?;
    push_border(out, is_undecided(&vertex.edges))?;
    push_text(out, ";\n")
}

fn push_nodes(out: &mut Vec<u8>, alloc: Global, vertices: &[Vertex]) -> Result<(), AllocError>
    ensures { OnOk result (out.new.items ≡ out.old.items ++ flat_map node_line vertices.now) }
{
    for vertex in vertices {
        push_node(out, alloc, vertex)?;
    }
    Ok(())
}

fn push_word(out: &mut Vec<u8>, turn: &Turn) -> Result<(), AllocError>
    ensures { OnOk result (out.new.items ≡ out.old.items ++ edge_word (turned turn.now)) }
{
    out.extend_from_slice(turn.word())?;
    push_complain(out, turn.complains)
}

/// The requests of an edge.
fn words_of(alloc: Global, turns: &[Turn]) -> Result<Vec<u8>, AllocError>
    ensures { IfOk result (λ text. text.items ≡ flat_map edge_word (map turned turns.now)) }
{
    let mut text = Vec::new(alloc);
    for turn in turns {
        push_word(&mut text, turn)?;
    }
    Ok(text)
}

fn push_dotted(out: &mut Vec<u8>, dotted: bool) -> Result<(), AllocError>
    ensures { OnOk result (out.new.items ≡ out.old.items ++ dotted_mark dotted) }
{
    push_text(out, if dotted { " [style=dotted]" } else { "" })
}

#[tactic(auto, unfolding(crate::specs::Dot::edge_end))]
fn push_edge_end(out: &mut Vec<u8>, dotted: bool) -> Result<(), AllocError>
    ensures { OnOk result (out.new.items ≡ out.old.items ++ edge_end dotted) }
{
    push_text(out, "]")?;
    push_dotted(out, dotted)?;
    push_text(out, ";\n")
}

#[tactic(auto, unfolding(crate::specs::Dot::edge_line))]
fn push_edge(
    out: &mut Vec<u8>,
    alloc: Global,
    dotted: bool,
    from: &Named,
    route: &Route,
) -> Result<(), AllocError>
    ensures { OnOk result (out.new.items ≡ out.old.items ++ edge_line dotted (name_in from.now) (routed route.now)) }
{
    push_text(out, "  ")?;
    push_label(out, alloc, from)?;
    push_text(out, " -> ")?;
    push_label(out, alloc, &route.to)?;
    push_text(out, " [label=")?;
    push_string(out, words_of(alloc, route.turns.as_slice())?.as_slice())?;
    push_edge_end(out, dotted)
}

fn push_edges(
    out: &mut Vec<u8>,
    alloc: Global,
    dotted: bool,
    from: &Named,
    routes: &[Route],
) -> Result<(), AllocError>
    ensures { OnOk result (out.new.items ≡ out.old.items ++ flat_map (edge_line dotted (name_in from.now)) (map routed routes.now)) }
{
    for route in routes {
        push_edge(out, alloc, dotted, from, route)?;
    }
    Ok(())
}

fn push_node_edges(out: &mut Vec<u8>, alloc: Global, vertex: &Vertex) -> Result<(), AllocError>
    ensures { OnOk result (out.new.items ≡ out.old.items ++ node_edges vertex.now) }
{
    let edges = &vertex.edges;
    push_edges(out, alloc, false, &edges.from, edges.routes.as_slice())?;
    let apart = edges.unclean.routes.as_slice();
    push_edges(out, alloc, true, &edges.from, apart)
}

fn push_all_edges(out: &mut Vec<u8>, alloc: Global, vertices: &[Vertex]) -> Result<(), AllocError>
    ensures { OnOk result (out.new.items ≡ out.old.items ++ flat_map node_edges vertices.now) }
{
    for vertex in vertices {
        push_node_edges(out, alloc, vertex)?;
    }
    Ok(())
}

/// Appends how many rules decide nothing, in a comment, where there are some.
fn push_comment(out: &mut Vec<u8>, count: usize) -> Result<(), AllocError>
    ensures { OnOk result (out.new.items ≡ out.old.items ++ passed_comment count) }
{
    if count == 0 {
        return Ok(());
    }
    push_text(out, "// ")?;
    push_number(out, count)?;
    push_text(out, " rules passed over\n")
}

/// Appends how many files are skipped, in a comment, where there are some.
fn push_skipped(out: &mut Vec<u8>, count: usize) -> Result<(), AllocError>
    ensures { OnOk result (out.new.items ≡ out.old.items ++ skipped_comment count) }
{
    if count == 0 {
        return Ok(());
    }
    push_text(out, "// ")?;
    push_skipped_count(out, count)
}

/// Appends both.
#[tactic(auto, unfolding(crate::specs::Dot::dot_comments))]
fn push_comments(out: &mut Vec<u8>, passed: usize, skipped: usize) -> Result<(), AllocError>
    ensures { OnOk result (out.new.items ≡ out.old.items ++ dot_comments passed skipped) }
{
    push_comment(out, passed)?;
    push_skipped(out, skipped)
}

/// Appends the graph.
#[tactic(auto, unfolding(crate::specs::Dot::dot_text))]
pub(crate) fn push_dot(
    out: &mut Vec<u8>,
    alloc: Global,
    passed: usize,
    skipped: usize,
    vertices: &[Vertex],
) -> Result<(), AllocError>
    ensures { OnOk result (out.new.items ≡ out.old.items ++ dot_text passed skipped vertices.now) }
{
    push_text(out, "digraph labels {\n")?;
    push_nodes(out, alloc, vertices)?;
    push_all_edges(out, alloc, vertices)?;
    push_text(out, "}\n")?;
    push_comments(out, passed, skipped)
}

/// Appends the lines on what can't be told.
pub(crate) fn push_untold_edges(
    out: &mut Vec<u8>,
    alloc: Global,
    limit: usize,
    vertices: &[Vertex],
) -> Result<(), AllocError>
    ensures { OnOk result (out.new.items ≡ out.old.items ++ flat_map (untold_edges limit) vertices.now) }
{
    for vertex in vertices {
        push_untold_of(out, alloc, limit, &vertex.edges)?;
    }
    Ok(())
}
