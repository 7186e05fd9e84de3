//! The packed classes of a chart over the leaves of a line.

ghost use Rattle.std.specs.Prelude.{◌≡◌, ◌<◌, ℕ, List, All, map, string_bytes, IfOk};
ghost use Rattle.chart_core.specs.declared.Limits.{Limits as LimitsValue};
ghost use Rattle.chart_core.specs.Kept.{InRange, limits_seen};
ghost use Rattle.chart_core.specs.Leaves.{LeafBelongs, leaf_seen};
ghost use Rattle.chart_model.specs.declared.span.Span.{Span as SpanValue};
ghost use Rattle.type_hierarchy.specs.Table.{count_of};
ghost use Rattle.tree_model.specs.Lexical.{Words};
ghost use Rattle.tree_model.specs.Items.{LeafTree, leaves_from};
ghost use Rattle.tree_model.specs.Lattices.{Lattice};
ghost use Rattle.tree_model.specs.Licensed.{parse_item};
ghost use Rattle.book_signs.specs.Trees.{signs_of};
ghost use Rattle.grammar_shapes.specs.Spanned.{span_calculus};
ghost use Rattle.grammar_shapes.specs.Systems.{rules_of, meaning_of, Belongs};
ghost use Rattle.grammar_rules.specs.Leafed.{leaf_trees};
ghost use Rattle.grammar_rules.specs.Lined.{AreLined, shapes_in};
ghost use Rattle.grammar_rules.specs.LineLeaves.{lexemes_of};
ghost use Rattle.packed_items.specs.Answers.{limits_in};
ghost use Rattle.line_charts.specs.Charted.{AreTyped, IsCharted};
ghost use Rattle.line_charts.specs.Charts.{IsPackedForest};
ghost use Rattle.line_charts.specs.Grammars.{IsChartGrammar};
ghost use Rattle.line_charts.specs.Views.{class_of};
ghost use Rattle.line_charts.specs.Inner.Stages.{AreApart};
ghost use Rattle.line_charts.specs.Inner.Hosts.{IsPackedChart, trees_in};

use crate::grammar::ChartGrammar;
use crate::hosts::{numbers_of, sort_hosts};
use crate::keyed::keyed_hosts;
use crate::packing::{Packed, pack};
use crate::telling::told_classes;
use crate::{NoMemory, ToldClass};
use chart_core::{ChartFault, Leaf, Limits};
use fs_unify::Scratch;
use grammar_rules::LineShapes;
use grammar_shapes::GrammarShapes;
use lexical_items::LexTree;
use packed_items::leaves_over;
use rule_trees::FullStructure;
use std::alloc::Global;

/// What a chart over leaves gives: the limit that is broken, or its packed classes.
#[derive(Drop)]
pub(crate) enum Charted {
    UnaryChain,
    Edges,
    Classes(Vec<ToldClass>),
}

// The classes of a packed chart as they are told.
fn told_forest<T>(
    alloc: Global,
    work: &mut Scratch,
    grammar: &ChartGrammar<'_, '_>,
    trees: &[LexTree<T>],
    packed: Packed<LineShapes<'_, '_>>,
) -> Result<Vec<ToldClass>, NoMemory>
    requires grammar { IsChartGrammar grammar.now }
    requires apart { AreApart (λ t. t) (trees_in trees.now) }
    requires packed { (ls : List (LeafTree SpanValue)) × (limits : LimitsValue) × (trees_in trees.now ≡ map (λ l. l.tree) ls)
        × IsPackedChart (span_calculus (rules_of grammar.now.shapes.now)) (meaning_of grammar.now.shapes.now) (Belongs grammar.now.shapes.now) (limits_seen limits) (leaves_from 0 ls) packed }
    ensures typed { IfOk result (λ told. All (λ c. c.ty.0 < count_of grammar.now.signs.now.book.system.types) told.items) }
    ensures forest { IfOk result (λ told. (ls : List (LeafTree SpanValue)) (limits : LimitsValue) (words : Words) (lattice : Lattice) (most : ℕ) → trees_in trees.now ≡ map (λ l. l.tree) ls
        → IsPackedChart (span_calculus (rules_of grammar.now.shapes.now)) (meaning_of grammar.now.shapes.now) (Belongs grammar.now.shapes.now) (limits_seen limits) (leaves_from 0 ls) packed.entry
        → IsPackedForest (signs_of grammar.now.signs.now) (parse_item (signs_of grammar.now.signs.now) words lattice most) (limits_in limits) ls grammar.now.signs.now.book.system.types (map string_bytes grammar.now.feats.now) (map class_of told.items)) }
{
    let Packed { finished, classes } = packed;
    let mut hosts = keyed_hosts(
        alloc,
        grammar.shapes.shapes(),
        grammar.feats,
        &finished,
        classes,
    )?;
    sort_hosts(&mut hosts);
    let numbers = numbers_of(alloc, &hosts, finished.rows())?;
    let told = told_classes(
        alloc,
        work,
        grammar.signs,
        trees,
        &numbers,
        &finished,
        &hosts,
    )?;
    Ok(told)
}

/// Fills a chart over these leaves, by size, and tells its classes.
pub(crate) fn chart_over<'s>(
    alloc: Global,
    work: &mut Scratch,
    grammar: &ChartGrammar<'_, 's>,
    trees: &[LexTree<FullStructure>],
    leaves: Vec<Leaf<GrammarShapes<'s>>>,
    limits: &Limits,
) -> Result<Charted, NoMemory>
    requires grammar { IsChartGrammar grammar.now }
    requires limits { InRange limits.now }
    requires apart { AreApart (λ t. t) (trees_in trees.now) }
    requires lined { AreLined (signs_of grammar.now.signs.now) (meaning_of grammar.now.shapes.now) (lexemes_of grammar.now.signs.now trees.now) leaves.items }
    requires belong { All (LeafBelongs (span_calculus (rules_of grammar.now.shapes.now)) (Belongs grammar.now.shapes.now)) leaves.items }
    ensures typed { IfOk result (AreTyped grammar.now.signs.now.book.system.types) }
    ensures charted { IfOk result (λ c. (words : Words) (lattice : Lattice) (most : ℕ) → IsCharted (signs_of grammar.now.signs.now) (parse_item (signs_of grammar.now.signs.now) words lattice most) (limits_in limits.now)
        (leaf_trees (lexemes_of grammar.now.signs.now trees.now) (shapes_in (signs_of grammar.now.signs.now) (meaning_of grammar.now.shapes.now) leaves.entry.items)) grammar.now.signs.now.book.system.types (map string_bytes grammar.now.feats.now) c) }
{
    let Ok(over) = leaves_over(alloc, leaves) else {
        return Err(NoMemory);
    };
    match pack(alloc, over, grammar.shapes, work, limits) {
        Ok(packed) => {
            let classes = told_forest(alloc, work, grammar, trees, packed)?;
            Ok(Charted::Classes(classes))
        }
        Err(ChartFault::UnaryChain { size: _ }) => Ok(Charted::UnaryChain),
        Err(ChartFault::Edges { size: _ }) => Ok(Charted::Edges),
        Err(ChartFault::NoMemory) => Err(NoMemory),
    }
}
