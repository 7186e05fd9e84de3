//! The shapes have sketches.

use crate::shapes::CountedShapes;
use chart_model::{Counts, Tuple};
use grammar_shapes::{GrammarShapes, Place};
use shape_memo::{Sketched, Sketches};
use std::sync::Arc;
use type_hierarchy::Types;

impl<'g, 'a> Sketched for CountedShapes<'g, 'a> {
    ghost use Rattle.grammar_shapes.specs.Systems.{grammar_of};
    ghost use Rattle.generated_leaves.specs.CountedViews.{shapes_in};

    ghost types_of = { λ s. (grammar_of (shapes_in s)).types };

    fn types(&self) -> &Types {
        GrammarShapes::types(self.shapes)
    }

    fn sketches<'b>(&'b self, rule: u32, parts: &'b Tuple<Arc<Place>, Counts>) -> Sketches<'b> {
        GrammarShapes::sketches(self.shapes, rule, parts)
    }
}
