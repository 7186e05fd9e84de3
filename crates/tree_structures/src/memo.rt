//! Full structures that are known, by number.

ghost use Rattle.std.specs.Prelude.{◌≡◌, ◌<◌, ◌++◌, ◌∷◌, [], length, IfOk, IfSome, Some, slice_get};
ghost use Rattle.std.specs.Global.{Global};
ghost use Rattle.std.specs.Arc.{arc_value};
ghost use Rattle.std.specs.declared.sync.Arc.{Arc};
ghost use Rattle.book_signs.specs.Trees.{SignTree};
ghost use Rattle.rule_trees.specs.Fulls.{FullTree};
ghost use Rattle.tree_structures.specs.declared.memo.Known.{Known};
ghost use Rattle.tree_structures.specs.Known.{IsRight, fulls_in};

use crate::NoMemory;
use crate::index::Index;
use crate::question::Question;
use rule_trees::FullStructure;
use std::alloc::Global;
use std::sync::Arc;

/// A full structure, with what it is made of.
#[derive(Drop)]
pub(crate) struct Known {
    pub(crate) question: Question,
    pub(crate) full: Arc<FullStructure>,
}

/// Full structures that were made, each with its place as its number, so that what stands in several trees is unified once. What one
/// is made of is told by the numbers of its daughters' structures, so no tree is compared. The index only says where to look.
#[derive(Drop)]
pub struct FullMemo {
    pub(crate) known: Vec<Known>,
    index: Index,
}

impl FullMemo {
    /// No structures, and no memory.
    pub fn new(alloc: Global) -> FullMemo
        ensures { (t : SignTree) → IsRight t result }
    {
        FullMemo {
            known: Vec::new(alloc),
            index: Index::new(alloc),
        }
    }

    /// The structure of a number.
    pub(crate) fn full(&self, number: u32) -> Result<Arc<FullStructure>, NoMemory>
        requires { number < length self.now.known.items }
        ensures { IfOk result (λ full. slice_get (fulls_in self.now) number ≡ Some (arc_value full)) }
    {
        let full = self.known[number as usize].full.clone()?;
        Ok(full)
    }

    /// The number of what is made of this, where it is found.
    pub(crate) fn find(&self, question: &Question) -> Option<u32>
        ensures { IfSome result (λ number. (known : Known) × (slice_get self.now.known.items number ≡ Some known) × (known.question ≡ question.now)) }
    {
        let hash = question.hash();
        let mut next = self.index.last(hash);
        while let Some(place) = next {
            let at = place as usize;
            if at >= self.known.len() {
                return None;
            }
            if self.known[at].question.is(question) {
                return Some(place);
            }
            next = self.index.before(hash, place);
        }
        None
    }

    /// Keeps a structure with what it is made of.
    pub(crate) fn keep(
        &mut self,
        alloc: Global,
        question: Question,
        full: FullStructure,
    ) -> Result<u32, NoMemory>
        ensures number { IfOk result (λ number. number ≡ length self.old.known.items) }
        ensures known { IfOk result (λ _. (shared : Arc FullTree Global) × (arc_value shared ≡ full) × (self.new.known.items ≡ self.old.known.items ++ record { question = question; full = shared } ∷ [])) }
    {
        let Ok(number) = u32::try_from(self.known.len()) else {
            return Err(NoMemory);
        };
        let full = Arc::new(alloc, full)?;
        self.known.push(Known { question, full })?;
        self.index.push(alloc, question.hash())?;
        Ok(number)
    }
}
