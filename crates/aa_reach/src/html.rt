//! The page of labels: what is told of each where a task begins, and the graph of all.

ghost use Rattle.std.specs.Prelude.{◌≡◌, ◌++◌, map, flat_map, OnOk, IfOk};
ghost use Rattle.aa_files.specs.Texts.{texts};
ghost use Rattle.aa_reach.specs.Names.{name_in, called};
ghost use Rattle.aa_reach.specs.Routes.{turned, routed, barred};
ghost use Rattle.aa_reach.specs.Doubts.{doubted};
ghost use Rattle.aa_page.specs.Escaped.{code_text};
ghost use Rattle.aa_page.specs.Pages.{page_start};
ghost use Rattle.aa_reach.specs.Html.{html_turn, html_route, html_apart, html_bar, html_apart_bar, undecided_words, html_doubt, html_apart_doubt, html_unclean, html_labels, html_none, html_end, answer_title, html_untold, html_told, html_answer, number_of, node_name, html_node, edge_title, apart_title, html_edge, html_apart_edge, html_edges, widest, html_drawing, html_graph, step_labels, html_step, html_apart_step, html_steps, html_all_steps, html_path, enforced_mark, files_words, html_files, html_passed, html_skipped, html_counts, page_title, html_head, html_labels_all, html_foot, html_page};

use crate::answering::Answer;
use crate::command::ReachOptions;
use crate::doubts::Doubt;
use crate::graph::Vertex;
use crate::naming::{Named, called, push_called};
use crate::parts::{Bar, Told};
use crate::routes::{Route, Turn};
use crate::shown::{
    Manner, is_known, is_undecided, push_apart_words, push_at_least, push_complain, push_not_told,
    push_turns,
};
use aa_command::push_passed;
use aa_model::Label;
use aa_page::{
    push_code, push_drawing_end, push_drawing_start, push_edge, push_line_end, push_list_end,
    push_list_start, push_node, push_page_end, push_page_start, push_plain_start, push_section_end,
    push_section_start,
};
use aa_skipped::push_skipped_count;
use aa_text::{push_number, push_text};
use std::alloc::{AllocError, Global};

fn push_label(out: &mut Vec<u8>, alloc: Global, named: &Named) -> Result<(), AllocError>
    ensures { OnOk result (out.new.items ≡ out.old.items ++ code_text (called (name_in named.now))) }
{
    let name = called(alloc, named)?;
    push_code(out, alloc, name.as_slice())
}

/// Appends a request, and a mark where complain mode alone grants it.
#[tactic(auto, unfolding(crate::specs::Html::html_turn))]
fn push_turn(out: &mut Vec<u8>, alloc: Global, turn: &Turn) -> Result<(), AllocError>
    ensures { OnOk result (out.new.items ≡ out.old.items ++ html_turn (turned turn.now)) }
{
    push_text(out, " ")?;
    push_code(out, alloc, turn.word())?;
    push_complain(out, turn.complains)
}

fn push_words(out: &mut Vec<u8>, alloc: Global, turns: &[Turn]) -> Result<(), AllocError>
    ensures { OnOk result (out.new.items ≡ out.old.items ++ flat_map html_turn (map turned turns.now)) }
{
    for turn in turns {
        push_turn(out, alloc, turn)?;
    }
    Ok(())
}

/// Appends a label, and the requests that lead there.
#[tactic(auto, unfolding(crate::specs::Html::html_route))]
fn push_route(out: &mut Vec<u8>, alloc: Global, route: &Route) -> Result<(), AllocError>
    ensures { OnOk result (out.new.items ≡ out.old.items ++ html_route (routed route.now)) }
{
    push_plain_start(out)?;
    push_label(out, alloc, &route.to)?;
    push_words(out, alloc, route.turns.as_slice())?;
    push_line_end(out)
}

fn push_routes(out: &mut Vec<u8>, alloc: Global, routes: &[Route]) -> Result<(), AllocError>
    ensures { OnOk result (out.new.items ≡ out.old.items ++ flat_map html_route (map routed routes.now)) }
{
    for route in routes {
        push_route(out, alloc, route)?;
    }
    Ok(())
}

/// Appends a label to which requests at clean paths alone don't lead.
#[tactic(auto, unfolding(crate::specs::Html::html_apart))]
fn push_apart(out: &mut Vec<u8>, alloc: Global, route: &Route) -> Result<(), AllocError>
    ensures { OnOk result (out.new.items ≡ out.old.items ++ html_apart (routed route.now)) }
{
    push_plain_start(out)?;
    push_apart_words(out)?;
    push_label(out, alloc, &route.to)?;
    push_words(out, alloc, route.turns.as_slice())?;
    push_line_end(out)
}

fn push_each_apart(out: &mut Vec<u8>, alloc: Global, routes: &[Route]) -> Result<(), AllocError>
    ensures { OnOk result (out.new.items ≡ out.old.items ++ flat_map html_apart (map routed routes.now)) }
{
    for route in routes {
        push_apart(out, alloc, route)?;
    }
    Ok(())
}

/// Appends a label from which it isn't told where requests lead on.
#[tactic(auto, unfolding(crate::specs::Html::html_bar))]
fn push_bar(out: &mut Vec<u8>, alloc: Global, bar: &Bar) -> Result<(), AllocError>
    ensures { OnOk result (out.new.items ≡ out.old.items ++ html_bar (barred bar.now)) }
{
    push_plain_start(out)?;
    push_not_told(out)?;
    push_label(out, alloc, &bar.at)?;
    push_line_end(out)
}

fn push_bars(out: &mut Vec<u8>, alloc: Global, bars: &[Bar]) -> Result<(), AllocError>
    ensures { OnOk result (out.new.items ≡ out.old.items ++ flat_map html_bar (map barred bars.now)) }
{
    for bar in bars {
        push_bar(out, alloc, bar)?;
    }
    Ok(())
}

/// Appends one to which requests at clean paths alone don't lead.
#[tactic(auto, unfolding(crate::specs::Html::html_apart_bar))]
fn push_apart_bar(out: &mut Vec<u8>, alloc: Global, bar: &Bar) -> Result<(), AllocError>
    ensures { OnOk result (out.new.items ≡ out.old.items ++ html_apart_bar (barred bar.now)) }
{
    push_plain_start(out)?;
    push_apart_words(out)?;
    push_not_told(out)?;
    push_label(out, alloc, &bar.at)?;
    push_line_end(out)
}

fn push_apart_bars(out: &mut Vec<u8>, alloc: Global, bars: &[Bar]) -> Result<(), AllocError>
    ensures { OnOk result (out.new.items ≡ out.old.items ++ flat_map html_apart_bar (map barred bars.now)) }
{
    for bar in bars {
        push_apart_bar(out, alloc, bar)?;
    }
    Ok(())
}

#[tactic(auto, unfolding(crate::specs::Html::undecided_words))]
fn push_undecided(out: &mut Vec<u8>) -> Result<(), AllocError>
    ensures { OnOk result (out.new.items ≡ out.old.items ++ undecided_words) }
{
    push_text(out, "undecided from ")
}

/// Appends a label at which an execution or a change could lead into skipped files.
#[tactic(auto, unfolding(crate::specs::Html::html_doubt))]
fn push_doubt(out: &mut Vec<u8>, alloc: Global, doubt: &Doubt) -> Result<(), AllocError>
    ensures { OnOk result (out.new.items ≡ out.old.items ++ html_doubt (doubted doubt.now)) }
{
    push_plain_start(out)?;
    push_undecided(out)?;
    push_label(out, alloc, &doubt.at)?;
    push_line_end(out)
}

fn push_doubts(out: &mut Vec<u8>, alloc: Global, doubts: &[Doubt]) -> Result<(), AllocError>
    ensures { OnOk result (out.new.items ≡ out.old.items ++ flat_map html_doubt (map doubted doubts.now)) }
{
    for doubt in doubts {
        push_doubt(out, alloc, doubt)?;
    }
    Ok(())
}

/// Appends one to which requests at clean paths alone don't lead.
#[tactic(auto, unfolding(crate::specs::Html::html_apart_doubt))]
fn push_apart_doubt(out: &mut Vec<u8>, alloc: Global, doubt: &Doubt) -> Result<(), AllocError>
    ensures { OnOk result (out.new.items ≡ out.old.items ++ html_apart_doubt (doubted doubt.now)) }
{
    push_plain_start(out)?;
    push_apart_words(out)?;
    push_undecided(out)?;
    push_label(out, alloc, &doubt.at)?;
    push_line_end(out)
}

fn push_apart_doubts(out: &mut Vec<u8>, alloc: Global, doubts: &[Doubt]) -> Result<(), AllocError>
    ensures { OnOk result (out.new.items ≡ out.old.items ++ flat_map html_apart_doubt (map doubted doubts.now)) }
{
    for doubt in doubts {
        push_apart_doubt(out, alloc, doubt)?;
    }
    Ok(())
}

/// Appends what is told of requests of which some are at unclean paths, where these don't count.
fn push_unclean(out: &mut Vec<u8>, alloc: Global, unclean: &Told) -> Result<(), AllocError>
    ensures { OnOk result (out.new.items ≡ out.old.items ++ html_unclean unclean.now) }
{
    push_each_apart(out, alloc, unclean.routes.as_slice())?;
    push_apart_bars(out, alloc, unclean.bars.as_slice())?;
    push_apart_doubts(out, alloc, unclean.doubts.as_slice())
}

/// Appends what an answer doesn't tell.
fn push_untold(out: &mut Vec<u8>, alloc: Global, answer: &Answer) -> Result<(), AllocError>
    ensures { OnOk result (out.new.items ≡ out.old.items ++ html_untold answer.now) }
{
    push_bars(out, alloc, answer.bars.as_slice())?;
    push_doubts(out, alloc, answer.doubts.as_slice())
}

/// Appends to how many labels of how many.
#[tactic(auto, unfolding(crate::specs::Html::html_labels))]
fn push_labels(out: &mut Vec<u8>, manner: Manner, answer: &Answer) -> Result<(), AllocError>
    ensures { OnOk result (out.new.items ≡ out.old.items ++ html_labels manner answer.now) }
{
    push_text(out, ": ")?;
    push_at_least(out, answer)?;
    push_number(out, answer.routes.len())?;
    push_text(out, " of ")?;
    push_number(out, manner.labels)?;
    push_text(out, " labels")
}

/// Appends that none of the labels that are asked for is reached, where that is so.
fn push_none(out: &mut Vec<u8>, answer: &Answer) -> Result<(), AllocError>
    ensures { OnOk result (out.new.items ≡ out.old.items ++ html_none answer.now) }
{
    if !answer.routes.is_empty() || !is_known(answer) {
        return Ok(());
    }
    push_text(out, ": no")
}

fn push_end(out: &mut Vec<u8>, manner: Manner, answer: &Answer) -> Result<(), AllocError>
    ensures { OnOk result (out.new.items ≡ out.old.items ++ html_end manner answer.now) }
{
    if manner.is_sought {
        push_none(out, answer)
    } else {
        push_labels(out, manner, answer)
    }
}

/// The title of an answer.
fn answer_title(alloc: Global, manner: Manner, answer: &Answer) -> Result<Vec<u8>, AllocError>
    ensures { IfOk result (λ title. title.items ≡ answer_title manner answer.now) }
{
    let mut title = Vec::new(alloc);
    push_text(&mut title, "from ")?;
    push_called(&mut title, alloc, &answer.from)?;
    push_end(&mut title, manner, answer)?;
    Ok(title)
}

/// Appends what an answer tells, and what it doesn't.
#[tactic(auto, unfolding(crate::specs::Html::html_told))]
fn push_told(out: &mut Vec<u8>, alloc: Global, answer: &Answer) -> Result<(), AllocError>
    ensures { OnOk result (out.new.items ≡ out.old.items ++ html_told answer.now) }
{
    push_list_start(out)?;
    push_routes(out, alloc, answer.routes.as_slice())?;
    push_untold(out, alloc, answer)?;
    push_unclean(out, alloc, &answer.unclean)?;
    push_list_end(out)
}

#[tactic(auto, unfolding(crate::specs::Html::html_answer))]
fn push_answer(
    out: &mut Vec<u8>,
    alloc: Global,
    manner: Manner,
    answer: &Answer,
) -> Result<(), AllocError>
    ensures { OnOk result (out.new.items ≡ out.old.items ++ html_answer manner answer.now) }
{
    let title = answer_title(alloc, manner, answer)?;
    push_section_start(out, alloc, true, title.as_slice())?;
    push_told(out, alloc, answer)?;
    push_section_end(out)
}

fn push_answers(
    out: &mut Vec<u8>,
    alloc: Global,
    manner: Manner,
    answers: &[Answer],
) -> Result<(), AllocError>
    ensures { OnOk result (out.new.items ≡ out.old.items ++ flat_map (html_answer manner) answers.now) }
{
    for answer in answers {
        push_answer(out, alloc, manner, answer)?;
    }
    Ok(())
}

/// Which node of the graph a label is.
fn number_of(label: Label) -> usize
    ensures { result ≡ number_of label }
{
    match label {
        Label::Unconfined(_) => 0,
        Label::Confined(_, number) => number as usize + 1,
    }
}

/// What stands at a node: the label, and whether something is undecided there.
fn node_name(alloc: Global, vertex: &Vertex) -> Result<Vec<u8>, AllocError>
    ensures { IfOk result (λ name. name.items ≡ node_name vertex.now) }
{
    let mut name = called(alloc, &vertex.edges.from)?;
    let mark = if is_undecided(&vertex.edges) {
        " (undecided)"
    } else {
        ""
    };
    push_text(&mut name, mark)?;
    Ok(name)
}

fn push_vertex(
    out: &mut Vec<u8>,
    alloc: Global,
    count: usize,
    vertex: &Vertex,
) -> Result<(), AllocError>
    ensures { OnOk result (out.new.items ≡ out.old.items ++ html_node count vertex.now) }
{
    let name = node_name(alloc, vertex)?;
    let number = number_of(vertex.edges.from.label);
    push_node(out, alloc, count, number, name.as_slice(), vertex.complains)
}

fn push_vertices(
    out: &mut Vec<u8>,
    alloc: Global,
    count: usize,
    vertices: &[Vertex],
) -> Result<(), AllocError>
    ensures { OnOk result (out.new.items ≡ out.old.items ++ flat_map (html_node count) vertices.now) }
{
    for vertex in vertices {
        push_vertex(out, alloc, count, vertex)?;
    }
    Ok(())
}

/// What is told of an edge.
#[tactic(auto, unfolding(crate::specs::Html::edge_title))]
fn edge_title(alloc: Global, from: &Named, route: &Route) -> Result<Vec<u8>, AllocError>
    ensures { IfOk result (λ title. title.items ≡ edge_title (name_in from.now) (routed route.now)) }
{
    let mut title = Vec::new(alloc);
    push_called(&mut title, alloc, from)?;
    push_text(&mut title, " to ")?;
    push_called(&mut title, alloc, &route.to)?;
    push_text(&mut title, ":")?;
    push_turns(&mut title, route.turns.as_slice())?;
    Ok(title)
}

fn push_arrow(
    out: &mut Vec<u8>,
    alloc: Global,
    count: usize,
    from: &Named,
    route: &Route,
) -> Result<(), AllocError>
    ensures { OnOk result (out.new.items ≡ out.old.items ++ html_edge count (name_in from.now) (routed route.now)) }
{
    let title = edge_title(alloc, from, route)?;
    let start = number_of(from.label);
    let end = number_of(route.to.label);
    push_edge(out, alloc, count, start, end, title.as_slice())
}

fn push_arrows(
    out: &mut Vec<u8>,
    alloc: Global,
    count: usize,
    from: &Named,
    routes: &[Route],
) -> Result<(), AllocError>
    ensures { OnOk result (out.new.items ≡ out.old.items ++ flat_map (html_edge count (name_in from.now)) (map routed routes.now)) }
{
    for route in routes {
        push_arrow(out, alloc, count, from, route)?;
    }
    Ok(())
}

/// What is told of an edge that only unclean paths make.
#[tactic(auto, unfolding(crate::specs::Html::apart_title))]
fn apart_title(alloc: Global, from: &Named, route: &Route) -> Result<Vec<u8>, AllocError>
    ensures { IfOk result (λ title. title.items ≡ apart_title (name_in from.now) (routed route.now)) }
{
    let mut title = Vec::new(alloc);
    push_apart_words(&mut title)?;
    title.extend_from_slice(edge_title(alloc, from, route)?.as_slice())?;
    Ok(title)
}

fn push_apart_arrow(
    out: &mut Vec<u8>,
    alloc: Global,
    count: usize,
    from: &Named,
    route: &Route,
) -> Result<(), AllocError>
    ensures { OnOk result (out.new.items ≡ out.old.items ++ html_apart_edge count (name_in from.now) (routed route.now)) }
{
    let title = apart_title(alloc, from, route)?;
    let ends = (number_of(from.label), number_of(route.to.label));
    push_edge(out, alloc, count, ends.0, ends.1, title.as_slice())
}

fn push_apart_arrows(
    out: &mut Vec<u8>,
    alloc: Global,
    count: usize,
    from: &Named,
    routes: &[Route],
) -> Result<(), AllocError>
    ensures { OnOk result (out.new.items ≡ out.old.items ++ flat_map (html_apart_edge count (name_in from.now)) (map routed routes.now)) }
{
    for route in routes {
        push_apart_arrow(out, alloc, count, from, route)?;
    }
    Ok(())
}

fn push_edges_from(
    out: &mut Vec<u8>,
    alloc: Global,
    count: usize,
    vertex: &Vertex,
) -> Result<(), AllocError>
    ensures { OnOk result (out.new.items ≡ out.old.items ++ html_edges count vertex.now) }
{
    let edges = &vertex.edges;
    push_arrows(out, alloc, count, &edges.from, edges.routes.as_slice())?;
    let apart = edges.unclean.routes.as_slice();
    push_apart_arrows(out, alloc, count, &edges.from, apart)
}

fn push_all_edges(
    out: &mut Vec<u8>,
    alloc: Global,
    count: usize,
    vertices: &[Vertex],
) -> Result<(), AllocError>
    ensures { OnOk result (out.new.items ≡ out.old.items ++ flat_map (html_edges count) vertices.now) }
{
    for vertex in vertices {
        push_edges_from(out, alloc, count, vertex)?;
    }
    Ok(())
}

/// How many bytes the longest name has.
fn widest(alloc: Global, vertices: &[Vertex]) -> Result<usize, AllocError>
    ensures { IfOk result (λ n. n ≡ widest 0 vertices.now) }
{
    let mut most: usize = 0;
    let mut rest = vertices;
    while let [vertex, after @ ..] = rest {
        let name = node_name(alloc, vertex)?;
        most = most.max(name.len());
        rest = after;
    }
    Ok(most)
}

/// Appends the nodes and the edges.
#[tactic(auto, unfolding(crate::specs::Html::html_drawing))]
fn push_drawing(out: &mut Vec<u8>, alloc: Global, vertices: &[Vertex]) -> Result<(), AllocError>
    ensures { OnOk result (out.new.items ≡ out.old.items ++ html_drawing vertices.now) }
{
    let count = vertices.len();
    let widest = widest(alloc, vertices)?;
    push_drawing_start(out, count, widest)?;
    push_vertices(out, alloc, count, vertices)?;
    push_all_edges(out, alloc, count, vertices)?;
    push_drawing_end(out)
}

#[tactic(auto, unfolding(crate::specs::Html::html_graph))]
fn push_graph(out: &mut Vec<u8>, alloc: Global, vertices: &[Vertex]) -> Result<(), AllocError>
    ensures { OnOk result (out.new.items ≡ out.old.items ++ html_graph vertices.now) }
{
    push_section_start(out, alloc, true, "all labels".as_bytes())?;
    push_drawing(out, alloc, vertices)?;
    push_section_end(out)
}

/// Appends both labels of an edge.
#[tactic(auto, unfolding(crate::specs::Html::step_labels))]
fn push_step_labels(
    out: &mut Vec<u8>,
    alloc: Global,
    from: &Named,
    to: &Named,
) -> Result<(), AllocError>
    ensures { OnOk result (out.new.items ≡ out.old.items ++ step_labels (name_in from.now) (name_in to.now)) }
{
    push_label(out, alloc, from)?;
    push_text(out, " to ")?;
    push_label(out, alloc, to)
}

/// Appends an edge as a line.
#[tactic(auto, unfolding(crate::specs::Html::html_step))]
fn push_step(
    out: &mut Vec<u8>,
    alloc: Global,
    from: &Named,
    route: &Route,
) -> Result<(), AllocError>
    ensures { OnOk result (out.new.items ≡ out.old.items ++ html_step (name_in from.now) (routed route.now)) }
{
    push_plain_start(out)?;
    push_step_labels(out, alloc, from, &route.to)?;
    push_words(out, alloc, route.turns.as_slice())?;
    push_line_end(out)
}

fn push_steps(
    out: &mut Vec<u8>,
    alloc: Global,
    from: &Named,
    routes: &[Route],
) -> Result<(), AllocError>
    ensures { OnOk result (out.new.items ≡ out.old.items ++ flat_map (html_step (name_in from.now)) (map routed routes.now)) }
{
    for route in routes {
        push_step(out, alloc, from, route)?;
    }
    Ok(())
}

/// Appends an edge that only unclean paths make as a line.
#[tactic(auto, unfolding(crate::specs::Html::html_apart_step))]
fn push_apart_step(
    out: &mut Vec<u8>,
    alloc: Global,
    from: &Named,
    route: &Route,
) -> Result<(), AllocError>
    ensures { OnOk result (out.new.items ≡ out.old.items ++ html_apart_step (name_in from.now) (routed route.now)) }
{
    push_plain_start(out)?;
    push_apart_words(out)?;
    let to = &route.to;
    push_step_labels(out, alloc, from, to)?;
    push_words(out, alloc, route.turns.as_slice())?;
    push_line_end(out)
}

fn push_apart_steps(
    out: &mut Vec<u8>,
    alloc: Global,
    from: &Named,
    routes: &[Route],
) -> Result<(), AllocError>
    ensures { OnOk result (out.new.items ≡ out.old.items ++ flat_map (html_apart_step (name_in from.now)) (map routed routes.now)) }
{
    for route in routes {
        push_apart_step(out, alloc, from, route)?;
    }
    Ok(())
}

fn push_steps_from(out: &mut Vec<u8>, alloc: Global, vertex: &Vertex) -> Result<(), AllocError>
    ensures { OnOk result (out.new.items ≡ out.old.items ++ html_steps vertex.now) }
{
    let edges = &vertex.edges;
    push_steps(out, alloc, &edges.from, edges.routes.as_slice())?;
    push_untold(out, alloc, edges)?;
    push_apart_steps(out, alloc, &edges.from, edges.unclean.routes.as_slice())
}

fn push_each_step(out: &mut Vec<u8>, alloc: Global, vertices: &[Vertex]) -> Result<(), AllocError>
    ensures { OnOk result (out.new.items ≡ out.old.items ++ flat_map html_steps vertices.now) }
{
    for vertex in vertices {
        push_steps_from(out, alloc, vertex)?;
    }
    Ok(())
}

#[tactic(auto, unfolding(crate::specs::Html::html_all_steps))]
fn push_all_steps(out: &mut Vec<u8>, alloc: Global, vertices: &[Vertex]) -> Result<(), AllocError>
    ensures { OnOk result (out.new.items ≡ out.old.items ++ html_all_steps vertices.now) }
{
    push_section_start(out, alloc, false, "each step".as_bytes())?;
    push_list_start(out)?;
    push_each_step(out, alloc, vertices)?;
    push_list_end(out)?;
    push_section_end(out)
}

fn push_path(out: &mut Vec<u8>, alloc: Global, path: &[u8]) -> Result<(), AllocError>
    ensures { OnOk result (out.new.items ≡ out.old.items ++ html_path path.now) }
{
    push_text(out, " ")?;
    push_code(out, alloc, path)
}

fn push_paths(out: &mut Vec<u8>, alloc: Global, paths: &[Vec<u8>]) -> Result<(), AllocError>
    ensures { OnOk result (out.new.items ≡ out.old.items ++ flat_map html_path (texts paths.now)) }
{
    for path in paths {
        push_path(out, alloc, path.as_slice())?;
    }
    Ok(())
}

fn push_enforced(out: &mut Vec<u8>, as_enforced: bool) -> Result<(), AllocError>
    ensures { OnOk result (out.new.items ≡ out.old.items ++ enforced_mark as_enforced) }
{
    push_text(out, if as_enforced { " as enforced" } else { "" })
}

#[tactic(auto, unfolding(crate::specs::Html::files_words))]
fn push_files_words(out: &mut Vec<u8>) -> Result<(), AllocError>
    ensures { OnOk result (out.new.items ≡ out.old.items ++ files_words) }
{
    push_text(out, "<p>labels of")
}

/// Appends which files are asked about.
#[tactic(auto, unfolding(crate::specs::Html::html_files))]
fn push_files(
    out: &mut Vec<u8>,
    alloc: Global,
    options: &ReachOptions<'_>,
) -> Result<(), AllocError>
    ensures { OnOk result (out.new.items ≡ out.old.items ++ html_files options.now) }
{
    push_files_words(out)?;
    push_paths(out, alloc, options.files)?;
    push_enforced(out, options.as_enforced)?;
    push_text(out, "</p>\n")
}

/// Appends how many rules decide nothing, where there are some.
fn push_passed_over(out: &mut Vec<u8>, count: usize) -> Result<(), AllocError>
    ensures { OnOk result (out.new.items ≡ out.old.items ++ html_passed count) }
{
    if count == 0 {
        return Ok(());
    }
    push_text(out, "<p>")?;
    push_passed(out, count)?;
    push_text(out, "</p>\n")
}

/// Appends how many files are skipped, where some are.
fn push_skipped(out: &mut Vec<u8>, count: usize) -> Result<(), AllocError>
    ensures { OnOk result (out.new.items ≡ out.old.items ++ html_skipped count) }
{
    if count == 0 {
        return Ok(());
    }
    push_text(out, "<p>")?;
    push_skipped_count(out, count)?;
    push_text(out, "</p>\n")
}

/// Appends both.
#[tactic(auto, unfolding(crate::specs::Html::html_counts))]
fn push_counts(out: &mut Vec<u8>, passed: usize, skipped: usize) -> Result<(), AllocError>
    ensures { OnOk result (out.new.items ≡ out.old.items ++ html_counts passed skipped) }
{
    push_passed_over(out, passed)?;
    push_skipped(out, skipped)
}

/// Appends the begin of the page.
#[tactic(auto, unfolding(crate::specs::Html::page_title))]
fn push_title(out: &mut Vec<u8>, alloc: Global) -> Result<(), AllocError>
    ensures { OnOk result (out.new.items ≡ out.old.items ++ page_start page_title) }
{
    push_page_start(out, alloc, "aapolicy reach".as_bytes())
}

/// Appends the head of the page.
#[tactic(auto, unfolding(crate::specs::Html::html_head))]
fn push_head(out: &mut Vec<u8>, alloc: Global, options: &ReachOptions<'_>) -> Result<(), AllocError>
    ensures { OnOk result (out.new.items ≡ out.old.items ++ html_head options.now) }
{
    push_title(out, alloc)?;
    push_files(out, alloc, options)
}

/// Appends the graph, and its edges as lines.
#[tactic(auto, unfolding(crate::specs::Html::html_labels_all))]
fn push_all_labels(out: &mut Vec<u8>, alloc: Global, vertices: &[Vertex]) -> Result<(), AllocError>
    ensures { OnOk result (out.new.items ≡ out.old.items ++ html_labels_all vertices.now) }
{
    push_graph(out, alloc, vertices)?;
    push_all_steps(out, alloc, vertices)
}

/// Appends what stands last.
#[tactic(auto, unfolding(crate::specs::Html::html_foot))]
fn push_foot(out: &mut Vec<u8>, passed: usize, skipped: usize) -> Result<(), AllocError>
    ensures { OnOk result (out.new.items ≡ out.old.items ++ html_foot passed skipped) }
{
    push_counts(out, passed, skipped)?;
    push_page_end(out)
}

/// Appends the page.
#[tactic(auto, unfolding(crate::specs::Html::html_page))]
pub(crate) fn push_page(
    out: &mut Vec<u8>,
    alloc: Global,
    options: &ReachOptions<'_>,
    manner: Manner,
    passed: usize,
    skipped: usize,
    answers: &[Answer],
    vertices: &[Vertex],
) -> Result<(), AllocError>
    ensures { OnOk result (out.new.items ≡ out.old.items ++ html_page options.now manner passed skipped answers.now vertices.now) }
{
    push_head(out, alloc, options)?;
    push_answers(out, alloc, manner, answers)?;
    push_all_labels(out, alloc, vertices)?;
    push_foot(out, passed, skipped)
}
