//! Why a rule makes nothing of structures.

ghost use Rattle.std.specs.Prelude.{◌≡◌, length, map, All, IfOk};
ghost use Rattle.forest_unpack.specs.Parts.{AreParts, parts_of};
ghost use Rattle.book_signs.specs.Trees.{signs_of, paths_of};
ghost use Rattle.rule_trees.specs.Mothers.{IsMade, HasDaughters, view_in};
ghost use Rattle.forced_types.specs.Views.{verdict_of};
ghost use Rattle.tree_faults.specs.Inner.Structures.{views_of, placed_of, placed_with, IsForcedAt, IsNamedVerdict};

use crate::NoMemory;
use book_signs::SignBook;
use forced_types::{PlacedGraph, Verdict, verdict_on};
use forest_unpack::FullParts;
use fs_graph::{Feat, Graph};
use rule_trees::{FullStructure, graphs_of};
use std::alloc::Global;

// A rule's structure at the root, and its daughters' graphs at their places.
fn placed<'x>(
    alloc: Global,
    structure: &'x Graph,
    places: &'x [Vec<Feat>],
    graphs: &[&'x Graph],
) -> Result<Vec<PlacedGraph<'x>>, NoMemory>
    requires { length graphs.now ≡ length places.now }
    ensures { IfOk result (λ v. map placed_of v.items ≡ placed_with structure.now (paths_of places.now) (map (λ d. d.now) graphs.now)) }
{
    let mut parts = Vec::new(alloc);
    parts.push(PlacedGraph {
        at: &[],
        graph: structure,
    })?;
    for i in 0..graphs.len() {
        parts.push(PlacedGraph {
            at: &places[i],
            graph: graphs[i],
        })?;
    }
    Ok(parts)
}

/// The verdict on the rule at a place with structures of its daughters: whether they go together, and if not, why not.
pub(crate) fn verdict_at(
    alloc: Global,
    signs: &SignBook<'_>,
    place: u32,
    known: &FullParts<FullStructure>,
) -> Result<Verdict, NoMemory>
    requires parts { AreParts known.now }
    requires made { All (λ f. IsMade (signs_of signs.now) (view_in signs.now f.graph)) (parts_of known.now) }
    requires rule { HasDaughters (signs_of signs.now) place known.now.count }
    ensures forced { IfOk result (λ v. IsForcedAt signs.now place (views_of signs.now known.now) (verdict_of v)) }
    ensures named { IfOk result (λ v. IsNamedVerdict signs.now.book.system (verdict_of v)) }
{
    signs.laws();
    let system = signs.system();
    system.laws();
    let types = system.types();
    types.laws();
    let _counts = types.counts();
    let graphs = graphs_of(alloc, known)?;
    let parts = placed(alloc, signs.structure(place), signs.places(place), &graphs)?;
    let verdict = verdict_on(alloc, system, &parts)?;
    Ok(verdict)
}
