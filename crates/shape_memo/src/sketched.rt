//! Shapes that have sketches.

ghost use Rattle.std.specs.Prelude.{◌≡◌, map};
ghost use Rattle.type_hierarchy.specs.Table.{TypeTable};
ghost use Rattle.chart_model.specs.Calculus.{NoneApplies};
ghost use Rattle.chart_model.specs.Tuples.{shapes_of, IsFor};
ghost use Rattle.sieve.specs.Sketches.{AreTypesIn};
ghost use Rattle.sieve.specs.Unifying.{NoneUnify};

use crate::Marked;
use chart_model::Tuple;
use sieve::Sketch;
use type_hierarchy::Types;

/// The two sketches that a sieve is asked about: that of what a rule has at the place of a daughter, and that of the daughter.
#[derive(Clone, Copy)]
pub struct Sketches<'a> {
    pub place: &'a Sketch,
    pub daughter: &'a Sketch,
}

/// Shapes that have sketches, made before they are asked for.
pub trait Sketched: Marked {
    // the types that sketches have
    ghost types_of: { Self → TypeTable };

    /// The types. Takes no memory.
    fn types(&self) -> &Types
        ensures { result.now ≡ types_of self.now };

    /// The sketches of the last daughter, and of the rule's place for it. Where no two structures with these sketches unify, the
    /// rule applies to no tuple that begins with these daughters. Takes no memory.
    fn sketches<'a>(&'a self, rule: u32, parts: &'a Tuple<Self::Shape, Self::Cover>) -> Sketches<'a>
        requires { IsFor (Self.calculus self.now) (Self.belongs self.now) rule parts.now }
        ensures place { AreTypesIn (types_of self.now) result.place.now }
        ensures daughter { AreTypesIn (types_of self.now) result.daughter.now }
        ensures apart { NoneUnify (types_of self.now) result.place.now result.daughter.now → NoneApplies (Self.calculus self.now) rule (map (Self.meaning self.now) (shapes_of parts.now)) };
}
