//! Full structures.

ghost use Rattle.std.specs.Prelude.{◌≡◌, true, IfOk};
ghost use Rattle.std.specs.Arc.{arc_value};
ghost use Rattle.book_signs.specs.Trees.{signs_of};
ghost use Rattle.rule_trees.specs.Mothers.{IsShortIn, IsMade, graph_view, view_in};

use crate::NoMemory;
use crate::whole::Whole;
use book_signs::SignBook;
use fs_graph::Graph;
use std::alloc::Global;
use std::marker::Model;
use std::sync::Arc;

/// A full structure, by the part of it that isn't a daughter's, with the bounds within which its types, features and paths
/// are. These are those of the grammar that made it, so that what another grammar's entries have, or its rules make, is within its
/// own. One more of it costs next to nothing.
#[derive(Drop)]
pub struct FullStructure {
    whole: Arc<Whole>,
}

impl Model for FullStructure {
    ghost use Rattle.std.specs.Arc.{arc_value};
    ghost use Rattle.rule_trees.specs.Fulls.{FullTree};

    ghost Value = { FullTree };

    ghost view = { λ f. record { graph = (arc_value f.whole).bounded } };
}

impl FullStructure {
    /// The structure of a graph, which is in range and has no path longer than the limit.
    pub(crate) fn of(
        alloc: Global,
        signs: &SignBook<'_>,
        graph: Graph,
    ) -> Result<FullStructure, NoMemory>
        requires { IsShortIn signs.now graph }
        ensures { IfOk result (λ f. view_in signs.now f.graph ≡ graph_view signs.now graph) }
    {
        let whole = Arc::new(alloc, Whole::of(signs, graph))?;
        Ok(FullStructure { whole })
    }

    /// The structure as a graph.
    pub fn graph(&self) -> &Graph
        ensures { result.now ≡ self.now.graph.plain }
    {
        &self.whole.bounded.plain
    }

    /// A law: what an entry of a grammar has, or a rule makes, is what its graph is (`seen`), and within the bounds of the grammar
    /// (`short`). It does nothing.
    pub fn laws(&self, signs: &SignBook<'_>)
        requires { IsMade (signs_of signs.now) (view_in signs.now self.now.graph) }
        ensures seen { view_in signs.now self.now.graph ≡ graph_view signs.now self.now.graph.plain }
        ensures short { IsShortIn signs.now self.now.graph.plain }
    {
        signs.laws();
    }

    /// Whether the structures are seen to be the same; where they aren't, nothing is said.
    pub fn same(&self, other: &FullStructure, signs: &SignBook<'_>) -> bool
        ensures { result ≡ true → view_in signs.now self.now.graph ≡ view_in signs.now other.now.graph }
    {
        self.whole.same(&other.whole, signs)
    }

    /// A number by which the same structure is found: a hash of its types and arcs.
    pub fn mark(&self) -> u64 {
        self.whole.mark
    }

    /// The same structure once more.
    pub fn share(&self) -> Result<FullStructure, NoMemory>
        ensures { IfOk result (λ f. f ≡ self.now) }
    {
        let whole = Arc::try_clone(&self.whole)?;
        Ok(FullStructure { whole })
    }

    /// The same structure once more, shared.
    pub(crate) fn copy(&self, alloc: Global) -> Result<Arc<FullStructure>, NoMemory>
        ensures { IfOk result (λ f. arc_value f ≡ self.now) }
    {
        let full = Arc::new(alloc, self.share()?)?;
        Ok(full)
    }
}
