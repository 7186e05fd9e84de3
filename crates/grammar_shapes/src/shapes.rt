//! Phrase rules over abstract structures.

ghost use Rattle.std.specs.Prelude.{◌≡◌, ◌<◌, ◌^◌, ◌∷◌, [], true, All, IfOk, length};
ghost use Rattle.fs_model.specs.Claims.{IsBare};
ghost use Rattle.fs_closing.specs.Rules.{system_of};
ghost use Rattle.fs_unify.specs.Owing.{owes_rules};
ghost use Rattle.tree_model.specs.Structures.{IsPartialOrder};
ghost use Rattle.grammar_shapes.specs.Ruled.{IsRuleIn};
ghost use Rattle.grammar_shapes.specs.Cutting.{CutsNoMore};

use crate::cuts::cuts_no_more;
use crate::marks::mark_of;
use crate::parts::parts_with;
use crate::phrase_rule::PhraseRule;
use crate::place::Place;
use crate::rule_table::RuleTable;
use chart_model::{NoMemory, Tuple};
use fs_graph::{Feat, Graph};
use fs_trim::{Cut, subsumes, unify_trimmed_owing, unify_without};
use fs_unify::{Owed, Parts, Scratch, TypeSystem, unifies};
use shape_memo::Sketches;
use sieve::types_meet;
use std::alloc::Global;
use std::sync::Arc;
use type_hierarchy::Types;

/// The phrase rules of a grammar over abstract structures, numbered in the order in which they were given.
#[derive(Drop)]
pub struct GrammarShapes<'a> {
    pub(crate) rules: RuleTable<'a>,
    // whether an abstract structure lacks what a mother loses anyway, so that one cut is enough
    one_cut: bool,
    // what spans stay within, which is nothing
    pub(crate) unit: (),
    ghost bare: { IsBare (system_of rules.grammar) },
    ghost order: { IsPartialOrder (system_of rules.grammar) },
    ghost rules_in: { All (IsRuleIn rules.grammar) rules.rules },
    ghost few: { length rules.rules < 2 ^ 32 },
    ghost no_more: { one_cut ≡ true → CutsNoMore rules.daughters rules.restrictors },
}

// One graph alone, which owes the facts of these rules.
fn alone_of<'x>(
    alloc: Global,
    graph: &'x Graph,
    owed: &'x Owed,
) -> Result<Parts<'x>, fs_unify::NoMemory>
    ensures { IfOk result (λ ps. ps ≡ record { place = []; graph = graph.now; owes = owes_rules owed.now } ∷ []) }
{
    let mut alone = Parts::new(alloc);
    alone.add_cut(Vec::new(alloc), graph, owed)?;
    Ok(alone)
}

impl<'a> GrammarShapes<'a> {
    ghost use Rattle.std.specs.Prelude.{◌≡◌, ◌<◌, ◌↔◌, ◌∷◌, [], ℕ, false, IfOk, IfSome, IsTrue, MatchOption, Some, All, length, option_map, slice_get};
    ghost use Rattle.fs_model.specs.Claims.{IsBare, Has};
    ghost use Rattle.fs_model.specs.Closure.{IsConsistent};
    ghost use Rattle.fs_model.specs.Sources.{Told};
    ghost use Rattle.fs_graph.specs.GraphMap.{reader_of};
    ghost use Rattle.fs_closing.specs.Rules.{system_of};
    ghost use Rattle.type_hierarchy.specs.Table.{count_of};
    ghost use Rattle.fs_unify.specs.Entering.{IsGraphIn};
    ghost use Rattle.fs_unify.specs.Owing.{IsWellFormedBut};
    ghost use Rattle.fs_unify.specs.Placing.{PlacedGraph, source_of, IsPlacedIn};
    ghost use Rattle.fs_trim.specs.Cutting.{cut_of, owed_of, IsShort};
    ghost use Rattle.tree_model.specs.Laws.{rules_over, rules_applies, rules_mother};
    ghost use Rattle.tree_model.specs.Mothers.{IsAbstract, Meant};
    ghost use Rattle.tree_model.specs.Views.{view, source_alone, IsTrimmed};
    ghost use Rattle.sieve.specs.Sketches.{paths_of, AreTypesIn};
    ghost use Rattle.sieve.specs.Unifying.{NoneUnify};
    ghost use Rattle.grammar_shapes.specs.Ruled.{IsRuleIn, AreClosed, paths_in, system_in};
    ghost use Rattle.grammar_shapes.specs.Shaped.{graph_of};
    ghost use Rattle.grammar_shapes.specs.Systems.{rules_of, list_of, grammar_of, checks_of, arity_of, meaning_of, meanings_of, Belongs, OwesBy, AreDaughters, AppliesToNone, IsMet, AreSketches};

    /// The shapes of these rules. A mother loses what `daughters` cuts off, and an abstract structure lacks what `restrictors`
    /// cuts off; types are compared at `checks`. More rules than a `u32` can number count as want of memory.
    pub fn make(
        alloc: Global,
        system: &'a TypeSystem,
        rules: Vec<PhraseRule<'a>>,
        daughters: Cut,
        restrictors: Cut,
        checks: Vec<Vec<Feat>>,
    ) -> Result<GrammarShapes<'a>, NoMemory>
        requires bare { IsBare (system_of system.now) }
        requires rules_in { All (IsRuleIn system.now) rules.items }
        requires closed { AreClosed system.now rules.items }
        ensures grammar { IfOk result (λ s. grammar_of s ≡ system.now) }
        ensures list { IfOk result (λ s. list_of s ≡ rules.entry.items) }
        ensures rules { IfOk result (λ s. rules_of s ≡ system_in system.now rules.entry.items (cut_of daughters) (cut_of restrictors)) }
        ensures checks { IfOk result (λ s. checks_of s ≡ paths_of checks.items) }
    {
        if rules.len() > u32::MAX as usize {
            return Err(NoMemory);
        }
        system.types().laws();
        let one_cut = cuts_no_more(&daughters, &restrictors);
        let rules = RuleTable::make(alloc, system, rules, daughters, restrictors, checks)?;
        Ok(GrammarShapes {
            rules,
            one_cut,
            unit: (),
        })
    }

    /// The place of a rule among the instances of the grammar.
    pub fn place(&self, rule: u32) -> u32
        requires { rule < length (list_of self.now) }
        ensures { option_map (λ r. r.place) (slice_get (list_of self.now) rule) ≡ Some result }
    {
        self.rules.get(rule).place
    }

    // A shape of a graph that owes no more than what the restrictors cut off.
    fn shape_of(&self, alloc: Global, graph: Graph) -> Result<Arc<Place>, NoMemory>
        requires short { IsShort (grammar_of self.now) graph }
        requires owes { IsWellFormedBut (system_of (grammar_of self.now)) (reader_of graph) (owed_of self.now.rules.restrictors) }
        ensures graph { IfOk result (λ s. graph_of s ≡ graph) }
        ensures belongs { IfOk result (Belongs self.now) }
    {
        let sketch = self.rules.sketch(alloc, &graph)?;
        let mark = mark_of(&graph);
        Ok(Arc::new(
            alloc,
            Place {
                graph,
                sketch,
                mark,
            },
        )?)
    }

    /// The shape of a full structure: the abstraction of the closure of its facts. Its types and features are there, that
    /// closure is consistent, and it was well-formed until it lost its daughters, so that it enters with the facts alone that
    /// speak of daughters.
    pub fn shape(
        &self,
        alloc: Global,
        work: &mut Scratch,
        full: &Graph,
    ) -> Result<Arc<Place>, NoMemory>
        requires in_range { IsGraphIn (count_of (grammar_of self.now).types) (length (grammar_of self.now).introducers) full.now }
        requires consistent { IsConsistent (system_of (grammar_of self.now)) (Told (source_alone (reader_of full.now))) }
        requires owes { OwesBy (grammar_of self.now) (rules_of self.now) full.now }
        ensures belongs { IfOk result (Belongs self.now) }
        ensures shape { IfOk result (λ s. IsAbstract (rules_of self.now) (Meant (rules_of self.now) (view (paths_in (grammar_of self.now)) (reader_of full.now))) (meaning_of self.now s)) }
    {
        full.laws();
        let Ok(alone) = alone_of(alloc, full, self.rules.fulls_owe()) else {
            return Err(NoMemory);
        };
        let system = self.rules.system();
        match unify_without(alloc, work, system, &alone, self.rules.restrictors()) {
            Ok(Some(graph)) => Ok(self.shape_of(alloc, graph)?),
            Ok(None) => unreachable!(),
            Err(_) => Err(NoMemory),
        }
    }

    /// The types.
    pub fn types(&self) -> &Types
        ensures { result.now ≡ (grammar_of self.now).types }
    {
        self.rules.system().types()
    }

    /// The sketches of the last daughter, whatever the daughters cover, and of the rule's place for it. Where no two structures with
    /// these sketches unify, the rule applies to no tuple that begins with these daughters. Takes no memory.
    pub fn sketches<'b, C>(&'b self, rule: u32, parts: &'b Tuple<Arc<Place>, C>) -> Sketches<'b>
        requires { AreDaughters self.now rule parts.now }
        ensures place { AreTypesIn (grammar_of self.now).types result.place.now }
        ensures daughter { AreTypesIn (grammar_of self.now).types result.daughter.now }
        ensures apart { NoneUnify (grammar_of self.now).types result.place.now result.daughter.now → AppliesToNone self.now rule (meanings_of self.now parts.now) }
        ensures exact { AreSketches self.now rule parts.now result.place.now result.daughter.now }
    {
        let last = parts.count - 1;
        match parts.get(last) {
            Some(part) => {
                let daughter: &Place = &part.shape;
                daughter.graph.laws();
                Sketches {
                    place: self.rules.at(rule, last),
                    daughter: &daughter.sketch,
                }
            }
            None => unreachable!(),
        }
    }

    /// A quick test of daughters, whatever they cover: false only where the rule applies to no tuple that begins with them. It
    /// compares the types of the last daughter with the rule's at its place, and takes no memory.
    pub fn may<C>(&self, rule: u32, parts: &Tuple<Arc<Place>, C>) -> bool
        requires { AreDaughters self.now rule parts.now }
        ensures none { result ≡ false → AppliesToNone self.now rule (meanings_of self.now parts.now) }
        ensures exact { IsMet self.now rule parts.now result }
    {
        let sketches = self.sketches(rule, parts);
        types_meet(self.types(), sketches.place, sketches.daughter)
    }

    /// A test of daughters by unification, whatever they cover: false exactly where the rule, with these daughters alone, has no
    /// structure; then it applies to no tuple that begins with them.
    pub fn fits<C>(
        &self,
        alloc: Global,
        work: &mut Scratch,
        rule: u32,
        parts: &Tuple<Arc<Place>, C>,
    ) -> Result<bool, NoMemory>
        requires { AreDaughters self.now rule parts.now }
        ensures none { IfOk result (λ yes. yes ≡ false → AppliesToNone self.now rule (meanings_of self.now parts.now)) }
        ensures exact { IfOk result (λ yes. IsTrue yes ↔ rules_applies (rules_of self.now) rule (meanings_of self.now parts.now)) }
    {
        let Ok(placed) = parts_with(alloc, self.rules.get(rule), parts, self.rules.shapes_owe())
        else {
            return Err(NoMemory);
        };
        match unifies(alloc, work, self.rules.system(), &placed) {
            Ok(yes) => Ok(yes),
            Err(_) => Err(NoMemory),
        }
    }

    // The unification of these graphs without what a mother loses, closed again, and then without restrictors.
    fn trimmed(
        &self,
        alloc: Global,
        work: &mut Scratch,
        placed: &Parts<'_>,
    ) -> Result<Option<Graph>, fs_unify::NoMemory>
        requires some { 0 < length placed.now }
        requires parts { (p : PlacedGraph) → Has p placed.now → IsPlacedIn (grammar_of self.now) p }
        ensures answer { IfOk result (λ o. IsTrimmed (system_of (grammar_of self.now)) (source_of placed.now) (self.now.rules.daughters ∷ []) self.now.rules.restrictors (option_map reader_of o)) }
        ensures known { IfOk result (λ o. IfSome o (IsShort (grammar_of self.now))) }
        ensures owes { IfOk result (λ o. IfSome o (λ k. IsWellFormedBut (system_of (grammar_of self.now)) (reader_of k) (owed_of self.now.rules.restrictors))) }
    {
        let system = self.rules.system();
        if self.one_cut {
            let kept = unify_without(alloc, work, system, placed, self.rules.restrictors())?;
            return Ok(kept);
        }
        let mother = unify_trimmed_owing(
            alloc,
            work,
            system,
            placed,
            self.rules.daughters(),
            self.rules.fulls_owe(),
            self.rules.restrictors(),
        )?;
        Ok(mother)
    }

    /// The mother of a whole tuple, whatever the daughters cover; none exactly where the rule doesn't apply to it.
    pub fn apply<C>(
        &self,
        alloc: Global,
        work: &mut Scratch,
        rule: u32,
        parts: &Tuple<Arc<Place>, C>,
    ) -> Result<Option<Arc<Place>>, NoMemory>
        requires parts { AreDaughters self.now rule parts.now }
        requires whole { parts.now.count ≡ arity_of self.now rule }
        ensures mother { IfOk result (λ o. MatchOption o (rules_applies (rules_of self.now) rule (meanings_of self.now parts.now) → ⊥) (λ s. rules_mother (rules_of self.now) rule (meanings_of self.now parts.now) (meaning_of self.now s))) }
        ensures belongs { IfOk result (λ o. MatchOption o (Unit {0}) (Belongs self.now)) }
    {
        let Ok(placed) = parts_with(alloc, self.rules.get(rule), parts, self.rules.shapes_owe())
        else {
            return Err(NoMemory);
        };
        match self.trimmed(alloc, work, &placed) {
            Ok(Some(graph)) => Ok(Some(self.shape_of(alloc, graph)?)),
            Ok(None) => Ok(None),
            Err(_) => Err(NoMemory),
        }
    }

    /// Whether the first structure subsumes the second. Room is made in the work for the first.
    pub fn subsumes(
        &self,
        work: &mut Scratch,
        general: &Arc<Place>,
        special: &Arc<Place>,
    ) -> Result<bool, NoMemory>
        requires general { Belongs self.now general.now }
        requires special { Belongs self.now special.now }
        ensures { IfOk result (λ yes. yes ≡ rules_over (rules_of self.now) (meaning_of self.now general.now) (meaning_of self.now special.now)) }
    {
        let types = self.rules.system().types();
        match work.reserve(general.graph.nodes()) {
            Ok(()) => Ok(subsumes(work, types, &general.graph, &special.graph)),
            Err(_) => Err(NoMemory),
        }
    }
}
