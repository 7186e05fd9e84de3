//! Phrases whose structures are being made: what comes next in one.

ghost use Rattle.std.specs.Prelude.{◌≡◌, ◌<◌, ◌+◌, ◌++◌, ◌∷◌, [], IfOk};
ghost use Rattle.std.specs.Arc.{arc_value};
ghost use Rattle.derivation.specs.Trees.{Derivation};
ghost use Rattle.forest_unpack.specs.Parts.{AreParts, parts_of};
ghost use Rattle.book_signs.specs.Trees.{SignTree, signs_of, HaveArities};
ghost use Rattle.tree_structures.specs.Formed.{IsFormed};
ghost use Rattle.tree_faults.specs.Inner.Building.{open_tree, IsBegun, Follows, IsWalking, WalksOn, left_of};

use crate::NoMemory;
use crate::known::{no_parts, with_part};
use crate::making::{Lack, Outcome, lexical_full, mother_at};
use book_signs::SignBook;
use derivation::Tree;
use forest_unpack::FullParts;
use fs_unify::Scratch;
use rule_trees::FullStructure;
use std::alloc::Global;
use std::sync::Arc;

/// A phrase whose structure is being made, with the structures of its first daughters.
#[derive(Drop)]
pub(crate) struct Building<'t> {
    pub(crate) rule: u32,
    pub(crate) daughters: &'t [Tree],
    pub(crate) known: FullParts<FullStructure>,
}

impl<'t> Building<'t> {
    /// A phrase with no structure known.
    pub(crate) fn new(rule: u32, daughters: &'t [Tree]) -> Building<'t>
        ensures rule { result.rule ≡ rule }
        ensures daughters { result.daughters.now ≡ daughters.now }
        ensures parts { AreParts result.known }
        ensures none { result.known.count ≡ 0 }
        ensures nothing { parts_of result.known ≡ [] }
    {
        Building {
            rule,
            daughters,
            known: no_parts(),
        }
    }

    /// The same phrase with one more daughter's structure known, of at most four.
    pub(crate) fn with(self, full: Arc<FullStructure>) -> Building<'t>
        ensures rule { result.rule ≡ self.entry.rule }
        ensures daughters { result.daughters.now ≡ self.entry.daughters.now }
        ensures known { AreParts self.entry.known → self.entry.known.count < 4 → AreParts result.known × (result.known.count ≡ self.entry.known.count + 1) × (parts_of result.known ≡ parts_of self.entry.known ++ arc_value full ∷ []) }
    {
        Building {
            rule: self.rule,
            daughters: self.daughters,
            known: with_part(self.known, full),
        }
    }
}

/// What comes next in an open phrase.
#[derive(Drop)]
pub(crate) enum Next<'t> {
    /// its next daughter is a phrase
    Down(Building<'t>),
    /// its next daughter is a lexical tree
    Below(Outcome),
    /// all daughters have structures: its own
    Here(Outcome),
}

/// What comes next in an open phrase.
pub(crate) fn next_of<'a, 't>(
    alloc: Global,
    work: &mut Scratch,
    signs: &'a SignBook<'a>,
    here: &Building<'t>,
) -> Result<Next<'t>, NoMemory>
    requires formed { IsFormed (signs_of signs.now) (open_tree here.now) }
    requires begun { IsBegun signs.now here.now }
    ensures { IfOk result (Follows signs.now here.now) }
{
    signs.laws();
    let Some(daughter) = here.daughters.get(here.known.count as usize) else {
        let outcome = mother_at(alloc, work, signs, here.rule, &here.known)?;
        return Ok(Next::Here(outcome));
    };
    match daughter {
        Tree::Lexical { entry, rules, .. } => {
            let outcome = lexical_full(alloc, work, signs, *entry, rules)?;
            Ok(Next::Below(outcome))
        }
        Tree::Phrase {
            rule,
            daughters,
            ..
        } => Ok(Next::Down(Building::new(*rule, daughters))),
    }
}

/// Where a walk goes on, or how it ends.
#[derive(Drop)]
pub(crate) enum Walk<'t> {
    /// in this phrase
    On(Building<'t>),
    /// with the structure of the whole tree
    Done(Arc<FullStructure>),
    /// the tree has none, by this node of the daughter that comes next in the last phrase that waits
    Stuck(Lack),
}

/// Where a walk goes on; the phrases that are open wait on a stack, the innermost on top.
pub(crate) fn step<'t>(
    waiting: &mut Vec<Building<'t>>,
    here: Building<'t>,
    next: Next<'t>,
) -> Result<Walk<'t>, NoMemory>
    ensures { IfOk result (λ walk. (t : SignTree) (whole : Derivation) → HaveArities (signs_of t) → IsFormed (signs_of t) whole
        → IsWalking t whole waiting.old.items here.entry → Follows t here.entry next.entry
        → WalksOn t whole waiting.new.items (left_of waiting.old.items here.entry) walk) }
{
    match next {
        Next::Down(below) => {
            waiting.push(here)?;
            Ok(Walk::On(below))
        }
        Next::Below(Outcome::Full(full)) => Ok(Walk::On(here.with(full))),
        Next::Below(Outcome::Lacking(lack)) => {
            waiting.push(here)?;
            Ok(Walk::Stuck(lack))
        }
        Next::Here(Outcome::Full(full)) => match waiting.pop() {
            Some(above) => Ok(Walk::On(above.with(full))),
            None => Ok(Walk::Done(full)),
        },
        Next::Here(Outcome::Lacking(lack)) => Ok(Walk::Stuck(lack)),
    }
}
