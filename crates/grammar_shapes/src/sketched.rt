//! The shapes have sketches.

use crate::place::Place;
use crate::shapes::GrammarShapes;
use chart_model::{Span, Tuple};
use shape_memo::{Sketched, Sketches};
use std::sync::Arc;
use type_hierarchy::Types;

impl<'a> Sketched for GrammarShapes<'a> {
    ghost use Rattle.grammar_shapes.specs.Systems.{grammar_of};

    ghost types_of = { λ s. (grammar_of s).types };

    fn types(&self) -> &Types {
        GrammarShapes::types(self)
    }

    fn sketches<'b>(&'b self, rule: u32, parts: &'b Tuple<Arc<Place>, Span>) -> Sketches<'b> {
        GrammarShapes::sketches(self, rule, parts)
    }
}
