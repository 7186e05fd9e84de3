//! The full structures of entries and lexical rules.

ghost use Rattle.std.specs.Prelude.{◌≡◌, IfOk};
ghost use Rattle.rule_trees.specs.Mothers.{IsShortIn, graph_view, view_in};

use crate::copies::copied;
use crate::following::may_follow;
use crate::full::FullStructure;
use crate::making::made;
use book_signs::SignBook;
use fs_graph::Graph;
use fs_unify::Scratch;
use lexical_items::{LexicalFulls, MarkedFulls, NoMemory};
use std::alloc::Global;

/// The full structures of entries and lexical rules of a grammar.
#[derive(Clone, Copy)]
pub struct SignFulls<'a> {
    pub signs: &'a SignBook<'a>,
}

// The full structure of a graph.
fn kept(alloc: Global, signs: &SignBook<'_>, graph: Graph) -> Result<FullStructure, NoMemory>
    requires { IsShortIn signs.now graph }
    ensures { IfOk result (λ f. view_in signs.now f.graph ≡ graph_view signs.now graph) }
{
    match FullStructure::of(alloc, signs, graph) {
        Ok(full) => Ok(full),
        Err(_) => Err(NoMemory),
    }
}

impl<'a> LexicalFulls for SignFulls<'a> {
    ghost use Rattle.rule_trees.specs.Mothers.{view_in};
    ghost use Rattle.book_signs.specs.Trees.{signs_of, entries_of, lexical_rules_of};

    type Full = FullStructure;

    type Work = Scratch;

    ghost value = { λ s full. view_in s.signs.now full.graph };

    ghost signs = { λ s. signs_of s.signs.now };

    ghost entries_of = { λ s. entries_of (signs_of s.signs.now) };

    ghost rules_of = { λ s. lexical_rules_of (signs_of s.signs.now) };

    fn entries(&self) -> &[u32] {
        self.signs.entries()
    }

    fn rules(&self) -> &[u32] {
        self.signs.lexical_rules()
    }

    fn entry(
        &self,
        alloc: Global,
        _work: &mut Scratch,
        place: u32,
    ) -> Result<Option<FullStructure>, NoMemory> {
        self.signs.laws();
        let Ok(graph) = copied(alloc, self.signs, self.signs.structure(place)) else {
            return Err(NoMemory);
        };
        let full = kept(alloc, self.signs, graph)?;
        Ok(Some(full))
    }

    fn under(
        &self,
        alloc: Global,
        work: &mut Scratch,
        place: u32,
        full: &FullStructure,
    ) -> Result<Option<FullStructure>, NoMemory> {
        self.signs.laws();
        full.laws(self.signs);
        match made(alloc, work, self.signs, place, &[full.graph()]) {
            Ok(Some(graph)) => {
                let full = kept(alloc, self.signs, graph)?;
                Ok(Some(full))
            }
            Ok(None) => Ok(None),
            Err(_) => Err(NoMemory),
        }
    }

    fn may_follow(
        &self,
        alloc: Global,
        work: &mut Scratch,
        inner: u32,
        outer: u32,
    ) -> Result<bool, NoMemory> {
        self.signs.laws();
        match may_follow(alloc, work, self.signs, inner, outer) {
            Ok(yes) => Ok(yes),
            Err(_) => Err(NoMemory),
        }
    }

    fn laws(&self) {
        self.signs.laws();
    }
}

impl<'a> MarkedFulls for SignFulls<'a> {
    fn mark(&self, full: &FullStructure) -> u64 {
        full.mark()
    }

    fn weight(&self, full: &FullStructure) -> u32 {
        full.graph().nodes()
    }

    fn same(&self, full: &FullStructure, other: &FullStructure) -> bool {
        full.same(other, self.signs)
    }

    fn share(&self, full: &FullStructure) -> Result<FullStructure, NoMemory> {
        match full.share() {
            Ok(again) => Ok(again),
            Err(_) => Err(NoMemory),
        }
    }
}
