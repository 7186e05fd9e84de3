//! Phrase rules with their sketches.

ghost use Rattle.std.specs.Prelude.{◌≡◌, ◌<◌, length, map, All, IfOk, Some, slice_get};
ghost use Rattle.fs_graph.specs.GraphMap.{reader_of};
ghost use Rattle.fs_graph.specs.Facts.{path_of};
ghost use Rattle.fs_closing.specs.Rules.{system_of};
ghost use Rattle.fs_unify.specs.Entering.{IsWellFormed};
ghost use Rattle.fs_unify.specs.Owing.{ListsOwed};
ghost use Rattle.fs_trim.specs.Cutting.{cut_of, owed_of};
ghost use Rattle.fs_model.specs.Claims.{Path};
ghost use Rattle.sieve.specs.Sketches.{paths_of, sketch_of, below_place, AreTypesIn};
ghost use Rattle.grammar_shapes.specs.Ruled.{IsRuleIn, AreClosed, places_of};
ghost use Rattle.grammar_shapes.specs.Inner.Tables.{rule_sketches, row_of};
ghost use Rattle.grammar_shapes.specs.declared.phrase_rule.PhraseRule.{PhraseRule};

use crate::phrase_rule::PhraseRule;
use chart_model::NoMemory;
use fs_graph::{Feat, Graph};
use fs_trim::{Cut, owed};
use fs_unify::{Owed, TypeSystem};
use sieve::{Sketch, SketchPaths};
use std::alloc::Global;
use std::marker::Model;

// Phrase rules whose structures are well-formed, with the sketch of what stands at each place of a daughter, at some paths from there;
// what a mother loses and what an abstract structure lacks, and what each owes then. That something is owed can be shown in several
// ways, since a claim of a closure can, so the invariant of a model says it and no ghost field.
#[derive(Drop)]
pub(crate) struct RuleTable<'a> {
    system: &'a TypeSystem,
    rules: Vec<PhraseRule<'a>>,
    checks: SketchPaths,
    sketches: Vec<Vec<Sketch>>,
    daughters: Cut,
    restrictors: Cut,
    fulls_owe: Owed,
    shapes_owe: Owed,
}

impl<'a> Model for RuleTable<'a> {
    ghost use Rattle.grammar_shapes.specs.Inner.Tables.{RuleList};

    ghost Value = { RuleList };

    ghost use Rattle.fs_trim.specs.Cutting.{cut_of};
    ghost use Rattle.grammar_shapes.specs.Inner.Tables.{IsRuleTable};

    ghost view = { λ t. record { grammar = t.system.now; rules = t.rules.items; checks = t.checks; daughters = cut_of t.daughters; restrictors = cut_of t.restrictors; fulls_owe = t.fulls_owe; shapes_owe = t.shapes_owe } };

    ghost invariant = { λ t. IsRuleTable t.system.now t.rules.items t.checks t.sketches.items (cut_of t.daughters) (cut_of t.restrictors) t.fulls_owe t.shapes_owe };
}

// The sketch of what a rule has at a place.
fn sketch_at(
    alloc: Global,
    rule: &PhraseRule<'_>,
    place: &[Feat],
    checks: &SketchPaths,
) -> Result<Sketch, NoMemory>
    ensures { IfOk result (λ s. s ≡ sketch_of (below_place (path_of place.now) (reader_of rule.now.structure.now)) checks.now) }
{
    match checks.sketch_below(alloc, rule.structure, place) {
        Ok(sketch) => Ok(sketch),
        Err(_) => Err(NoMemory),
    }
}

// The sketches of a rule, one for each place.
fn row(alloc: Global, rule: &PhraseRule<'_>, checks: &SketchPaths) -> Result<Vec<Sketch>, NoMemory>
    ensures { IfOk result (λ row. row.items ≡ rule_sketches checks.now rule.now) }
{
    let mut row = Vec::new(alloc);
    for place in &rule.places {
        row.push(sketch_at(alloc, rule, place, checks)?)?;
    }
    Ok(row)
}

// The sketches of all rules.
fn rows(
    alloc: Global,
    rules: &[PhraseRule<'_>],
    checks: &SketchPaths,
) -> Result<Vec<Vec<Sketch>>, NoMemory>
    ensures { IfOk result (λ rows. map row_of rows.items ≡ map (rule_sketches checks.now) rules.now) }
{
    let mut rows = Vec::new(alloc);
    for rule in rules {
        rows.push(row(alloc, rule, checks)?)?;
    }
    Ok(rows)
}

impl<'a> RuleTable<'a> {
    // The table of these rules.
    pub(crate) fn make(
        alloc: Global,
        system: &'a TypeSystem,
        rules: Vec<PhraseRule<'a>>,
        daughters: Cut,
        restrictors: Cut,
        checks: Vec<Vec<Feat>>,
    ) -> Result<RuleTable<'a>, NoMemory>
        requires rules_in { All (IsRuleIn system.now) rules.items }
        requires closed { AreClosed system.now rules.items }
        ensures { IfOk result (λ t. t ≡ record { grammar = system.now; rules = rules.entry.items; checks = paths_of checks.items; daughters = cut_of daughters; restrictors = cut_of restrictors; fulls_owe = t.fulls_owe; shapes_owe = t.shapes_owe }) }
    {
        let Ok(checks) = SketchPaths::new(alloc, checks) else {
            return Err(NoMemory);
        };
        let sketches = rows(alloc, &rules, &checks)?;
        let Ok(fulls_owe) = owed(alloc, system, &daughters) else {
            return Err(NoMemory);
        };
        let Ok(shapes_owe) = owed(alloc, system, &restrictors) else {
            return Err(NoMemory);
        };
        Ok(RuleTable {
            system,
            rules,
            checks,
            sketches,
            daughters,
            restrictors,
            fulls_owe,
            shapes_owe,
        })
    }

    // What a mother loses.
    pub(crate) fn daughters(&self) -> &Cut
        ensures { cut_of result.now ≡ self.now.daughters }
    {
        &self.daughters
    }

    // What an abstract structure lacks.
    pub(crate) fn restrictors(&self) -> &Cut
        ensures { cut_of result.now ≡ self.now.restrictors }
    {
        &self.restrictors
    }

    // What a mother owes when she has lost that, as each full structure does.
    pub(crate) fn fulls_owe(&self) -> &Owed
        ensures { ListsOwed self.now.grammar (owed_of self.now.daughters) result.now }
    {
        &self.fulls_owe
    }

    // What an abstract structure owes.
    pub(crate) fn shapes_owe(&self) -> &Owed
        ensures { ListsOwed self.now.grammar (owed_of self.now.restrictors) result.now }
    {
        &self.shapes_owe
    }

    pub(crate) fn system(&self) -> &'a TypeSystem
        ensures { result.now ≡ self.now.grammar }
    {
        self.system
    }

    pub(crate) fn count(&self) -> usize
        ensures { result ≡ length self.now.rules }
    {
        self.rules.len()
    }

    pub(crate) fn get(&self, rule: u32) -> &PhraseRule<'a>
        requires { rule < length self.now.rules }
        ensures value { slice_get self.now.rules rule ≡ Some result.now }
        ensures closed { IsWellFormed (system_of self.now.grammar) (reader_of result.now.structure.now) }
    {
        &self.rules[rule as usize]
    }

    // The sketch of a graph at the paths at which types are compared.
    pub(crate) fn sketch(&self, alloc: Global, graph: &Graph) -> Result<Sketch, NoMemory>
        ensures { IfOk result (λ s. s ≡ sketch_of (reader_of graph.now) self.now.checks) }
    {
        match self.checks.sketch(alloc, graph) {
            Ok(sketch) => Ok(sketch),
            Err(_) => Err(NoMemory),
        }
    }

    // The sketch of what a rule has at a place. Takes no memory.
    pub(crate) fn at(&self, rule: u32, place: u32) -> &Sketch
        requires rule { rule < length self.now.rules }
        requires place { (r : PhraseRule) → slice_get self.now.rules rule ≡ Some r → place < length (places_of r) }
        ensures sketch { (r : PhraseRule) (p : Path) → slice_get self.now.rules rule ≡ Some r → slice_get (places_of r) place ≡ Some p →
            result.now ≡ sketch_of (below_place p (reader_of r.structure.now)) self.now.checks }
        ensures types_in { AreTypesIn self.now.grammar.types result.now }
    {
        self.rules[rule as usize].structure.laws();
        let sketch = &self.sketches[rule as usize][place as usize];
        sketch
    }
}
