//! What lines share: the full structures of lexical trees with their shapes, and what rules made of full structures.

ghost use Rattle.std.specs.Prelude.{IfOk, IfSome, ◌≡◌};
ghost use Rattle.tree_model.specs.Structures.{Structure};
ghost use Rattle.grammar_shapes.specs.Systems.{Belongs};
ghost use Rattle.rule_trees.specs.Mothers.{view_in};
ghost use Rattle.grammar_rules.specs.Remembered.{IsFullShape, IsMemoryOf};

use crate::{NoMemory, RememberedMothers};
use answer_memo::{Asked, Memo};
use book_signs::SignBook;
use chart_model::Shapes;
use grammar_shapes::{GrammarShapes, Place};
use lexical_items::RememberedFulls;
use rule_trees::{FullStructure, SignFulls};
use shape_memo::RememberedShapes;
use std::alloc::Global;
use std::marker::Model;
use std::sync::Arc;

/// The greatest weight of the leaves' shapes that are kept, in words. A word is a node with its arcs, of some 24 bytes, so that
/// this is about 6 MB.
const MOST_LEAVES: u64 = 262_144;

/// The greatest weight of what rules made of equal shapes, which is about 25 MB.
const MOST_SHAPES: u64 = 1_048_576;

/// The shapes of lines, which remember what rules made of equal ones. Lines may share them, from a whole run on.
pub type LineShapes<'m, 's> = RememberedShapes<'m, GrammarShapes<'s>>;

/// Shapes for the lines of a whole run, of which nothing is remembered yet.
pub fn run_shapes<'m, 's>(
    alloc: Global,
    shapes: &'m GrammarShapes<'s>,
) -> Result<LineShapes<'m, 's>, NoMemory>
    ensures { IfOk result (λ s. s ≡ shapes.now) }
{
    let remembered = RememberedShapes::with_room(alloc, shapes, MOST_SHAPES)?;
    Ok(remembered)
}

/// The shapes of full structures, as they are asked for.
#[derive(Drop)]
struct LeafShapes<'a> {
    signs: &'a SignBook<'a>,
    shapes: &'a GrammarShapes<'a>,
}

impl<'a> Asked for LeafShapes<'a> {
    ghost use Rattle.rule_trees.specs.Mothers.{view_in};
    ghost use Rattle.grammar_rules.specs.Remembered.{IsFullShape};

    type Key = FullStructure;

    type Told = Arc<Place>;

    ghost right = { λ s _ full shape. IsFullShape s.signs.now s.shapes.now (view_in s.signs.now full.graph) shape };

    fn mark(&self, full: &FullStructure) -> u64 {
        full.mark()
    }

    fn weight(&self, full: &FullStructure, shape: &Arc<Place>) -> u32 {
        full.graph().nodes().saturating_add(shape.graph.nodes())
    }

    fn same(&self, full: &FullStructure, other: &FullStructure) -> bool {
        full.same(other, self.signs)
    }
}

// One more of a shape, which is one of the shapes.
fn shape_again(
    alloc: Global,
    _signs: &SignBook<'_>,
    shapes: &GrammarShapes<'_>,
    shape: &Arc<Place>,
) -> Result<Arc<Place>, NoMemory>
    requires { Belongs shapes.now shape.now }
    ensures { IfOk result (λ again. (full : Structure) → IsFullShape _signs.now shapes.now full shape.now → IsFullShape _signs.now shapes.now full again) }
{
    let again = shapes.share(alloc, shape)?;
    Ok(again)
}

/// What lines share of full structures: those of a grammar's lexical trees with their shapes, and what rules made of full structures,
/// each with what was found. None of what is remembered enters into an answer. One is made for a whole run.
#[derive(Drop)]
pub struct RunMemory<'a> {
    fulls: RememberedFulls<SignFulls<'a>>,
    shapes: Memo<LeafShapes<'a>>,
    mothers: RememberedMothers<'a>,
}

impl<'a> Model for RunMemory<'a> {
    ghost use Rattle.std.specs.Prelude.{◌≡◌};
    ghost use Rattle.grammar_rules.specs.Remembered.{MemoryTree};

    ghost Value = { MemoryTree };

    ghost view = { λ s. record { signs = s.fulls.signs.now; shapes = s.shapes.shapes.now } };

    ghost invariant = { λ s. (s.shapes.signs.now ≡ s.fulls.signs.now) × (s.mothers ≡ s.fulls.signs.now) };
}

impl<'a> RunMemory<'a> {
    /// What lines share of the full structures of a grammar's signs and of shapes; nothing is remembered yet.
    pub fn new(
        alloc: Global,
        signs: &'a SignBook<'a>,
        shapes: &'a GrammarShapes<'a>,
    ) -> Result<RunMemory<'a>, NoMemory>
        ensures { IfOk result (IsMemoryOf signs.now shapes.now) }
    {
        let mothers = RememberedMothers::new(alloc, signs)?;
        let shapes = Memo::new(alloc, LeafShapes { signs, shapes }, MOST_LEAVES)?;
        let fulls = RememberedFulls::new(alloc, SignFulls { signs })?;
        Ok(RunMemory {
            fulls,
            shapes,
            mothers,
        })
    }

    /// The full structures of the lexical trees.
    pub fn fulls(&self) -> &RememberedFulls<SignFulls<'a>>
        ensures { result.now.signs.now ≡ self.now.signs }
    {
        &self.fulls
    }

    /// What rules made of full structures.
    pub fn mothers(&self) -> &RememberedMothers<'a>
        ensures { result.now ≡ self.now.signs }
    {
        &self.mothers
    }

    /// The shape of a full structure, where it is known.
    pub(crate) fn known(
        &self,
        alloc: Global,
        full: &FullStructure,
    ) -> Result<Option<Arc<Place>>, NoMemory>
        ensures { IfOk result (λ o. IfSome o (IsFullShape self.now.signs self.now.shapes (view_in self.now.signs full.now.graph))) }
    {
        let Some(shape) = self.shapes.find(0, full) else {
            return Ok(None);
        };
        let asked = self.shapes.of();
        let copy = shape_again(alloc, asked.signs, asked.shapes, shape)?;
        Ok(Some(copy))
    }

    /// Remembers the shape of a full structure, where there is room.
    pub(crate) fn keep(
        &self,
        alloc: Global,
        full: &FullStructure,
        shape: &Arc<Place>,
    ) -> Result<(), NoMemory>
        requires { IsFullShape self.now.signs self.now.shapes (view_in self.now.signs full.now.graph) shape.now }
    {
        if self.shapes.is_full() {
            return Ok(());
        }
        let key = full.share()?;
        let asked = self.shapes.of();
        let copy = shape_again(alloc, asked.signs, asked.shapes, shape)?;
        self.shapes.keep(alloc, 0, key, copy);
        Ok(())
    }
}
