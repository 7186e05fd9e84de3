//! The shapes of a chart over spans.

use crate::place::Place;
use crate::shapes::GrammarShapes;
use chart_model::{NoMemory, Shapes, Span, Tuple};
use fs_unify::Scratch;
use std::alloc::Global;
use std::sync::Arc;

impl<'a> Shapes for GrammarShapes<'a> {
    ghost use Rattle.std.specs.Prelude.{ℕ, ◌≡◌, ◌↔◌, false, map, IfOk, IsOk, IsTrue, refl};
    ghost use Rattle.chart_model.specs.Calculus.{NoneApplies};
    ghost use Rattle.chart_model.specs.Tuples.{shapes_of, covers_of, IsFor};
    ghost use Rattle.tree_model.specs.Structures.{Structure};
    ghost use Rattle.tree_model.specs.Mothers.{Agrees};
    ghost use Rattle.tree_model.specs.Laws.{rules_full, rules_applies};
    ghost use Rattle.tree_model.proofs.AllLaws.{rules_agree};
    ghost use Rattle.grammar_shapes.specs.Spanned.{span_calculus};
    ghost use Rattle.grammar_shapes.specs.SpanLaws.{rule_laws};
    ghost use Rattle.grammar_shapes.specs.Systems.{rules_of, grammar_of, list_of, meaning_of, Belongs, IsMet};

    type Shape = Arc<Place>;

    type Cover = Span;

    type Work = Scratch;

    ghost Meaning = { Structure };

    ghost meaning = { λ s shape. meaning_of s shape };

    ghost belongs = { λ s shape. Belongs s shape };

    ghost calculus = { λ s. span_calculus (rules_of s) };

    ghost bound_of = { λ _. tt };

    ghost Full = { Structure };

    ghost full = { λ s. rules_full (rules_of s) };

    ghost agrees = { λ s. Agrees (rules_of s) };

    fn rules(&self) -> u32 {
        self.rules.count() as u32
    }

    fn arity(&self, rule: u32) -> u32 {
        self.rules.get(rule).places.len() as u32
    }

    fn work(&self, alloc: Global) -> Result<Scratch, NoMemory> {
        Ok(Scratch::new(alloc))
    }

    fn bound(&self) -> &() {
        &self.unit
    }

    fn share(&self, _alloc: Global, shape: &Arc<Place>) -> Result<Arc<Place>, NoMemory> {
        let copy = Arc::try_clone(shape)?;
        Ok(copy)
    }

    fn may(&self, _work: &mut Scratch, rule: u32, parts: &Tuple<Arc<Place>, Span>) -> bool
        requires { IsFor (span_calculus (rules_of self.now)) (Belongs self.now) rule parts.now }
        ensures none { result ≡ false → NoneApplies (span_calculus (rules_of self.now)) rule (map (meaning_of self.now) (shapes_of parts.now)) }
        ensures exact { IsMet self.now rule parts.now result }
    {
        GrammarShapes::may(self, rule, parts)
    }

    fn fits(
        &self,
        alloc: Global,
        work: &mut Scratch,
        rule: u32,
        parts: &Tuple<Arc<Place>, Span>,
    ) -> Result<bool, NoMemory>
        requires { IsFor (span_calculus (rules_of self.now)) (Belongs self.now) rule parts.now }
        ensures none { IfOk result (λ yes. yes ≡ false → NoneApplies (span_calculus (rules_of self.now)) rule (map (meaning_of self.now) (shapes_of parts.now))) }
        ensures exact { IfOk result (λ yes. IsTrue yes ↔ rules_applies (rules_of self.now) rule (map (meaning_of self.now) (shapes_of parts.now))) }
    {
        GrammarShapes::fits(self, alloc, work, rule, parts)
    }

    fn apply(
        &self,
        alloc: Global,
        work: &mut Scratch,
        rule: u32,
        parts: &Tuple<Arc<Place>, Span>,
    ) -> Result<Option<Arc<Place>>, NoMemory> {
        GrammarShapes::apply(self, alloc, work, rule, parts)
    }

    fn covers(
        &self,
        _alloc: Global,
        _rule: u32,
        parts: &Tuple<Arc<Place>, Span>,
    ) -> Result<Option<Span>, NoMemory>
        requires { IsFor (span_calculus (rules_of self.now)) (Belongs self.now) _rule parts.now }
        ensures always { IsOk result }
        ensures covers { IfOk result (λ o. o ≡ (span_calculus (rules_of self.now)).covers _rule (covers_of parts.now)) }
    {
        Ok(Span::over(parts))
    }

    fn subsumes(
        &self,
        work: &mut Scratch,
        general: &Arc<Place>,
        special: &Arc<Place>,
    ) -> Result<bool, NoMemory> {
        GrammarShapes::subsumes(self, work, general, special)
    }

    ghost laws = { λ s. rule_laws (grammar_of s) s.rules.daughters s.rules.restrictors (list_of s) s.rules_in s.order };

    ghost agreement = { λ s. rules_agree (rules_of s) };

    ghost joins = { λ s c d. refl };

    ghost sames = { λ s c d. refl };

    ghost sizes = { λ s c. refl };
}
