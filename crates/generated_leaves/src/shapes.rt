//! The shapes of a chart over counts.

ghost use Rattle.std.specs.Prelude.{◌≡◌, ◌<◌, ◌^◌, length, IfOk};
ghost use Rattle.chart_model.specs.Sums.{counts_size};
ghost use Rattle.chart_model.specs.Calculus.{Laws};
ghost use Rattle.fs_closing.specs.Rules.{system_of};
ghost use Rattle.tree_model.specs.Structures.{IsPartialOrder};
ghost use Rattle.grammar_shapes.specs.Systems.{rules_of, grammar_of};
ghost use Rattle.generated_leaves.specs.Counted.{AreSized};

use crate::covers::summed;
use chart_model::{Counts, Cover, NoMemory, Shapes, Tuple};
use fs_unify::{Scratch, TypeSystem};
use grammar_shapes::{GrammarShapes, Place};
use std::alloc::Global;
use std::sync::Arc;

/// The phrase rules of a grammar over counts of predicates: a mother covers what her daughters cover and what her rule contributes itself.
#[derive(Drop)]
pub struct CountedShapes<'g, 'a> {
    pub(crate) shapes: &'g GrammarShapes<'a>,
    bound: Counts,
    // what each rule contributes; none where that has a predicate that isn't asked for
    own: Vec<Option<Counts>>,
    ghost order: { IsPartialOrder (rules_of shapes.now).system },
    ghost sized: { AreSized (rules_of shapes.now) },
    ghost small: { counts_size bound < 2 ^ 32 },
    ghost each: { length own.items ≡ length (rules_of shapes.now).rules },
}

// The laws of shapes. It does nothing.
fn laws_of<S: Shapes>(_shapes: &S)
    ensures { Laws (S.calculus _shapes.now) }
{}

impl<'g, 'a> CountedShapes<'g, 'a> {
    ghost use Rattle.generated_leaves.specs.CountedViews.{shapes_in, bound_in, own_in};

    /// The shapes of a grammar over counts within a bound, where each rule contributes `own` by its number.
    ///
    /// `own` has none for a rule that contributes a predicate which the bound has no place for: such a rule covers nothing.
    pub fn make(
        system: &TypeSystem,
        shapes: &'g GrammarShapes<'a>,
        bound: Counts,
        own: Vec<Option<Counts>>,
    ) -> CountedShapes<'g, 'a>
        requires system { grammar_of shapes.now ≡ system.now }
        requires small { counts_size bound < 2 ^ 32 }
        requires each { length own.items ≡ length (rules_of shapes.now).rules }
        ensures shapes { shapes_in result ≡ shapes.now }
        ensures bound { bound_in result ≡ bound }
        ensures own { own_in result ≡ own.items }
    {
        system.types().laws();
        laws_of(shapes);
        CountedShapes { shapes, bound, own }
    }
}

impl<'g, 'a> Shapes for CountedShapes<'g, 'a> {
    ghost use Rattle.std.specs.Prelude.{refl};
    ghost use Rattle.tree_model.specs.Structures.{Structure};
    ghost use Rattle.tree_model.specs.Mothers.{Agrees};
    ghost use Rattle.tree_model.specs.Laws.{rules_full};
    ghost use Rattle.tree_model.proofs.AllLaws.{rules_agree};
    ghost use Rattle.grammar_shapes.specs.Systems.{rules_of, meaning_of, Belongs};
    ghost use Rattle.generated_leaves.specs.Counted.{count_calculus, own_at, counted_laws};
    ghost use Rattle.generated_leaves.specs.CountedViews.{shapes_in, bound_in, own_in};

    type Shape = Arc<Place>;

    type Cover = Counts;

    type Work = Scratch;

    ghost Meaning = { Structure };

    ghost meaning = { λ s shape. meaning_of (shapes_in s) shape };

    ghost belongs = { λ s shape. Belongs (shapes_in s) shape };

    ghost calculus = { λ s. count_calculus (rules_of (shapes_in s)) (bound_in s) (own_at (own_in s)) };

    ghost bound_of = { λ s. bound_in s };

    ghost Full = { Structure };

    ghost full = { λ s. rules_full (rules_of (shapes_in s)) };

    ghost agrees = { λ s. Agrees (rules_of (shapes_in s)) };

    fn rules(&self) -> u32 {
        self.shapes.rules()
    }

    fn arity(&self, rule: u32) -> u32 {
        self.shapes.arity(rule)
    }

    fn work(&self, alloc: Global) -> Result<Scratch, NoMemory> {
        self.shapes.work(alloc)
    }

    fn bound(&self) -> &Counts {
        &self.bound
    }

    fn share(&self, alloc: Global, shape: &Arc<Place>) -> Result<Arc<Place>, NoMemory> {
        self.shapes.share(alloc, shape)
    }

    fn may(&self, _work: &mut Scratch, rule: u32, parts: &Tuple<Arc<Place>, Counts>) -> bool {
        GrammarShapes::may(self.shapes, rule, parts)
    }

    fn fits(
        &self,
        alloc: Global,
        work: &mut Scratch,
        rule: u32,
        parts: &Tuple<Arc<Place>, Counts>,
    ) -> Result<bool, NoMemory> {
        GrammarShapes::fits(self.shapes, alloc, work, rule, parts)
    }

    fn apply(
        &self,
        alloc: Global,
        work: &mut Scratch,
        rule: u32,
        parts: &Tuple<Arc<Place>, Counts>,
    ) -> Result<Option<Arc<Place>>, NoMemory> {
        GrammarShapes::apply(self.shapes, alloc, work, rule, parts)
    }

    fn covers(
        &self,
        alloc: Global,
        rule: u32,
        parts: &Tuple<Arc<Place>, Counts>,
    ) -> Result<Option<Counts>, NoMemory> {
        match &self.own[rule as usize] {
            None => Ok(None),
            Some(own) => {
                let own = own.share(alloc)?;
                summed(alloc, Some(own), parts, &self.bound)
            }
        }
    }

    fn subsumes(
        &self,
        work: &mut Scratch,
        general: &Arc<Place>,
        special: &Arc<Place>,
    ) -> Result<bool, NoMemory> {
        GrammarShapes::subsumes(self.shapes, work, general, special)
    }

    ghost laws = { λ s. counted_laws (rules_of (shapes_in s)) (bound_in s) (own_at (own_in s)) s.order s.sized s.small };

    ghost agreement = { λ s. rules_agree (rules_of (shapes_in s)) };

    ghost joins = { λ s c d. refl };

    ghost sames = { λ s c d. refl };

    ghost sizes = { λ s c. refl };
}
