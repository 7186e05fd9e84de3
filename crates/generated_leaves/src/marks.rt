//! Marks of shapes, so that what rules made of equal daughters may be remembered.

use crate::shapes::CountedShapes;
use grammar_shapes::{GrammarShapes, Place};
use shape_memo::Marked;
use std::sync::Arc;

impl<'g, 'a> Marked for CountedShapes<'g, 'a> {
    ghost use Rattle.std.specs.Prelude.{◌≡◌, IsTrue};
    ghost use Rattle.grammar_shapes.specs.Systems.{meaning_of};
    ghost use Rattle.generated_leaves.specs.CountedViews.{shapes_in};

    fn mark(&self, shape: &Arc<Place>) -> u64 {
        <GrammarShapes<'a> as Marked>::mark(self.shapes, shape)
    }

    fn weight(&self, shape: &Arc<Place>) -> u32 {
        <GrammarShapes<'a> as Marked>::weight(self.shapes, shape)
    }

    fn same(&self, shape: &Arc<Place>, other: &Arc<Place>) -> bool
        ensures { IsTrue result → meaning_of (shapes_in self.now) shape.now ≡ meaning_of (shapes_in self.now) other.now }
    {
        <GrammarShapes<'a> as Marked>::same(self.shapes, shape, other)
    }
}
