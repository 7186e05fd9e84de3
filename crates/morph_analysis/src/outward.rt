//! The search outwards: from an entry over rules to the word at node 0, as long as something is made.

ghost use Rattle.std.specs.Prelude.{◌≡◌, ◌<◌, ◌≤◌, length, IfErr, IfOk, OnOk};
ghost use Rattle.morph_analysis.specs.Inner.Routes.{IsStart, AreWithin, IsEnded};
ghost use Rattle.morph_analysis.specs.Inner.Searching.{AddsMade, LongerOrNone, OfStem, OnFrom, RouteFrom};
ghost use Rattle.morph_analysis.specs.Made.{MayHalt};
ghost use Rattle.morph_analysis.specs.Spelled.{node_at};
ghost use Rattle.morph_analysis.specs.Views.{edge_of};

use crate::chain::Chain;
use crate::graph::Graph;
use crate::made::{Halt, MadeChain, Maker};
use crate::nodes::Edge;
use crate::search::{Search, Stem};
use lexicon::{NoMemory, copied};

// Rules over an entry, the node to which they lead, and what is made of them.
#[derive(Drop)]
struct Route<T> {
    rules: Vec<u32>,
    node: usize,
    made: T,
}

// A route with one rule more, along an edge; none where nothing is made, or where node 0 is too far from where it leads.
fn longer<M: Maker>(
    search: &Search<'_, '_, M>,
    graph: &Graph,
    entry: u32,
    route: &Route<M::Made>,
    edge: Edge,
    work: &mut M::Work,
) -> Result<Option<Route<M::Made>>, NoMemory>
    requires within { AreWithin graph.now }
    requires to { edge.to < length graph.now }
    requires made { M.makes search.now.maker.now entry route.now.rules.items (M.value search.now.maker.now route.now.made) }
    ensures { IfOk result (LongerOrNone M.makes M.value search.now graph.now entry route.now.rules.items (edge_of edge)) }
{
    search.maker.laws();
    let left = search
        .depth
        .saturating_sub(graph.distance(edge.to as usize)) as usize;
    if route.rules.len() >= left {
        return Ok(None);
    }
    match search.maker.go_on(
        search.alloc,
        work,
        entry,
        &route.rules,
        &route.made,
        edge.rule,
    )? {
        None => Ok(None),
        Some(made) => {
            let mut rules = route.rules.as_slice().to_vec(search.alloc)?;
            rules.push(edge.rule)?;
            let node = edge.to as usize;
            Ok(Some(Route { rules, node, made }))
        }
    }
}

// Adds the chain over a stem of a route that has come to node 0, from a node of the lattice, unless it is enough.
fn add_ended<M: Maker>(
    search: &Search<'_, '_, M>,
    stem: &Stem<'_>,
    entry: u32,
    from: u32,
    route: Route<M::Made>,
    out: &mut Vec<MadeChain<M::Made>>,
) -> Result<(), Halt>
    requires { M.makes search.now.maker.now entry route.rules.items (M.value search.now.maker.now route.made) }
    ensures all { OnOk result (AddsMade (M.value search.now.maker.now) (OfStem (λ e. e ≡ entry) (IsEnded (M.makes search.now.maker.now) route.rules.items route.node) (λ m. m ≡ from) stem.now) out.old.items out.new.items) }
    ensures halt { IfErr result (MayHalt (M.enough search.now.maker.now) (OfStem (λ e. e ≡ entry) (IsEnded (M.makes search.now.maker.now) route.rules.items route.node) (λ m. m ≡ from) stem.now)) }
{
    search.maker.laws();
    if route.node != 0 {
        return Ok(());
    }
    if search.maker.is_enough(&route.rules) {
        return Err(Halt::Enough);
    }
    let mut words = copied(search.alloc, stem.front)?;
    words.push(stem.step.word.clone()?)?;
    let chain = Chain {
        from,
        to: stem.step.to,
        entry,
        rules: route.rules,
        words,
    };
    out.push(MadeChain {
        chain,
        made: route.made,
    })?;
    Ok(())
}

// Adds the chains that go on from a route, the longer ones first.
fn add_on<M: Maker>(
    search: &Search<'_, '_, M>,
    stem: &Stem<'_>,
    entry: u32,
    from: u32,
    route: Route<M::Made>,
    work: &mut M::Work,
    out: &mut Vec<MadeChain<M::Made>>,
) -> Result<(), Halt>
    requires within { AreWithin stem.now.graph.now }
    requires node { route.node < length stem.now.graph.now }
    requires shallow { length route.rules.items ≤ search.now.depth }
    requires made { M.makes search.now.maker.now entry route.rules.items (M.value search.now.maker.now route.made) }
    ensures all { OnOk result (AddsMade (M.value search.now.maker.now) (OfStem (λ e. e ≡ entry) (OnFrom M.makes search.now stem.now route.rules.items route.node) (λ m. m ≡ from) stem.now) out.old.items out.new.items) }
    ensures halt { IfErr result (MayHalt (M.enough search.now.maker.now) (OfStem (λ e. e ≡ entry) (OnFrom M.makes search.now stem.now route.rules.items route.node) (λ m. m ≡ from) stem.now)) }
{
    for edge in stem.graph.edges(route.node) {
        match longer(search, stem.graph, entry, &route, *edge, work)? {
            None => {}
            Some(next) => add_on(search, stem, entry, from, next, work, out)?,
        }
    }
    add_ended(search, stem, entry, from, route, out)?;
    Ok(())
}

/// Adds the chains of an entry over a stem, from a node of the lattice, with what is made of them.
pub(crate) fn add_from<M: Maker>(
    search: &Search<'_, '_, M>,
    stem: &Stem<'_>,
    entry: u32,
    from: u32,
    work: &mut M::Work,
    out: &mut Vec<MadeChain<M::Made>>,
) -> Result<(), Halt>
    requires { IsStart stem.now.graph.now stem.now.node }
    ensures all { OnOk result (AddsMade (M.value search.now.maker.now) (OfStem (λ e. e ≡ entry) (RouteFrom M.makes search.now stem.now) (λ m. m ≡ from) stem.now) out.old.items out.new.items) }
    ensures halt { IfErr result (MayHalt (M.enough search.now.maker.now) (OfStem (λ e. e ≡ entry) (RouteFrom M.makes search.now stem.now) (λ m. m ≡ from) stem.now)) }
{
    search.maker.laws();
    match search.maker.begin(search.alloc, work, entry)? {
        None => Ok(()),
        Some(made) => {
            let rules = Vec::new(search.alloc);
            let node = stem.node;
            let route = Route { rules, node, made };
            add_on(search, stem, entry, from, route, work, out)?;
            Ok(())
        }
    }
}
