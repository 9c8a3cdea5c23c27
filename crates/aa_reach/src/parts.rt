//! What is told of what a search finds.

ghost use Rattle.std.specs.Prelude.{◌≡◌, ◌++◌, [], List, map, flat_map, option_map, IfOk, OnOk, if◌then◌else◌};
ghost use Rattle.std.specs.List.{list_any};
ghost use Rattle.aa_ask.specs.Told.{is_same};
ghost use Rattle.aa_model.specs.declared.request.Request.{Request};
ghost use Rattle.aa_reachability.specs.Reach.{HaveWays};
ghost use Rattle.aa_reach.specs.Names.{name_of};
ghost use Rattle.aa_reach.specs.Routes.{routed, barred, barred_by, is_untold_by, barred_but, LeadThere, all_routes};
ghost use Rattle.aa_reach.specs.Doubts.{doubted, doubted_but};

use crate::beside::Beside;
use crate::doubts::{Doubt, doubts_of};
use crate::naming::{Named, name_of};
use crate::routes::{Route, routes_to};
use aa_ask::is_same;
use aa_compile::Compiled;
use aa_model::Label;
use aa_reachability::{Reached, Untold, Why};
use std::alloc::{AllocError, Global};

/// A label from which it isn't told where requests lead on, and why.
#[derive(Drop)]
pub(crate) struct Bar {
    pub(crate) at: Named,
    pub(crate) why: Why,
}

/// The label of what isn't told, by its name.
pub(crate) fn bar_at(
    alloc: Global,
    policies: &[Compiled],
    label: Label,
    why: Why,
) -> Result<Bar, AllocError>
    ensures { IfOk result (λ b. barred b ≡ record { at = name_of policies.now label; why = why }) }
{
    Ok(Bar {
        at: name_of(alloc, policies, label)?,
        why,
    })
}

fn is_untold(untold: &[Untold], label: Label) -> bool
    ensures { result ≡ is_untold_by untold.now label }
{
    untold.iter().any(|other| is_same(label, other.label))
}

/// Adds what isn't told, unless one of these is at its label.
fn push_bar(
    bars: &mut Vec<Bar>,
    alloc: Global,
    policies: &[Compiled],
    but: &[Untold],
    untold: &Untold,
) -> Result<(), AllocError>
    ensures { OnOk result (map barred bars.new.items ≡ map barred bars.old.items ++ barred_but policies.now but.now untold.now) }
{
    if is_untold(but, untold.label) {
        return Ok(());
    }
    bars.push(bar_at(alloc, policies, untold.label, untold.why)?)?;
    Ok(())
}

fn bars_of(
    alloc: Global,
    policies: &[Compiled],
    but: &[Untold],
    untold: &[Untold],
) -> Result<Vec<Bar>, AllocError>
    ensures { IfOk result (λ bars. map barred bars.items ≡ flat_map (barred_but policies.now but.now) untold.now) }
{
    let mut bars = Vec::new(alloc);
    for it in untold {
        push_bar(&mut bars, alloc, policies, but, it)?;
    }
    Ok(bars)
}

/// Routes to labels, labels from which it isn't told where requests lead on, and those at which skipped files could decide where they lead.
#[derive(Drop)]
pub(crate) struct Told {
    pub(crate) routes: Vec<Route>,
    pub(crate) bars: Vec<Bar>,
    pub(crate) doubts: Vec<Doubt>,
}

/// What is told of what a search finds, but where another finds it too.
pub(crate) fn told_of(
    alloc: Global,
    beside: Beside<'_>,
    targets: Option<&[Label]>,
    from: Label,
    but: &Reached,
    reached: &Reached,
) -> Result<Told, AllocError>
    requires { HaveWays reached.now.arrivals.items }
    ensures routes { IfOk result (λ t. (ways : List (List Request)) → LeadThere beside.entry.course.going.as_enforced beside.entry.course.going.policies.now from reached.now.arrivals.items ways
        → map routed t.routes.items ≡ all_routes beside.entry.course.going.as_enforced beside.entry.course.going.policies.now from (option_map (λ ts. ts.now) targets.entry) but.now.arrivals.items reached.now.arrivals.items ways) }
    ensures bars { IfOk result (λ t. map barred t.bars.items ≡ flat_map (barred_but beside.entry.course.going.policies.now but.now.untold.items) reached.now.untold.items) }
    ensures doubts { IfOk result (λ t. map doubted t.doubts.items ≡ flat_map (doubted_but beside.entry.course.going.policies.now beside.entry.skipped.now but.now.arrivals.items) reached.now.arrivals.items) }
{
    let going = beside.course.going;
    let others = but.arrivals.as_slice();
    let arrivals = reached.arrivals.as_slice();
    let routes = routes_to(alloc, going, from, targets, others, arrivals)?;
    let known = but.untold.as_slice();
    let bars = bars_of(alloc, going.policies, known, reached.untold.as_slice())?;
    let doubts = doubts_of(alloc, going.policies, beside.skipped, others, arrivals)?;
    Ok(Told {
        routes,
        bars,
        doubts,
    })
}

/// Nothing.
pub(crate) fn none_told(alloc: Global) -> Told
    ensures routes { result.routes.items ≡ [] }
    ensures bars { result.bars.items ≡ [] }
    ensures doubts { result.doubts.items ≡ [] }
{
    Told {
        routes: Vec::new(alloc),
        bars: Vec::new(alloc),
        doubts: Vec::new(alloc),
    }
}

/// Both, the others last.
fn joined(told: Told, others: Told) -> Result<Told, AllocError>
    ensures routes { IfOk result (λ t. t.routes.items ≡ told.routes.items ++ others.routes.items) }
    ensures bars { IfOk result (λ t. t.bars.items ≡ told.bars.items ++ others.bars.items) }
    ensures doubts { IfOk result (λ t. t.doubts.items ≡ told.doubts.items ++ others.doubts.items) }
{
    let Told {
        mut routes,
        mut bars,
        mut doubts,
    } = told;
    let mut more = others;
    routes.append(&mut more.routes)?;
    bars.append(&mut more.bars)?;
    doubts.append(&mut more.doubts)?;
    Ok(Told {
        routes,
        bars,
        doubts,
    })
}

/// What is told, and apart from it what is so of labels to which only requests of which some are at unclean paths lead.
#[derive(Drop)]
pub(crate) struct Parts {
    pub(crate) told: Told,
    pub(crate) unclean: Told,
}

/// What clean paths tell and, where unclean ones count, the others behind it, else apart.
pub(crate) fn parts_of(
    alloc: Global,
    unclean: bool,
    told: Told,
    others: Told,
) -> Result<Parts, AllocError>
    ensures routes { IfOk result (λ p. map routed p.told.routes.items ≡ map routed told.routes.items ++ (if unclean then map routed others.routes.items else [])) }
    ensures bars { IfOk result (λ p. map barred p.told.bars.items ≡ map barred told.bars.items ++ (if unclean then map barred others.bars.items else [])) }
    ensures doubts { IfOk result (λ p. map doubted p.told.doubts.items ≡ map doubted told.doubts.items ++ (if unclean then map doubted others.doubts.items else [])) }
    ensures apart { IfOk result (λ p. map routed p.unclean.routes.items ≡ (if unclean then [] else map routed others.routes.items)) }
    ensures apart_bars { IfOk result (λ p. map barred p.unclean.bars.items ≡ (if unclean then [] else map barred others.bars.items)) }
    ensures apart_doubts { IfOk result (λ p. map doubted p.unclean.doubts.items ≡ (if unclean then [] else map doubted others.doubts.items)) }
{
    if unclean {
        return Ok(Parts {
            told: joined(told, others)?,
            unclean: none_told(alloc),
        });
    }
    Ok(Parts {
        told,
        unclean: others,
    })
}
