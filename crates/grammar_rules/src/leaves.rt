//! The leaves of a line's chart: its lexical trees with their shapes.

ghost use Rattle.std.specs.Prelude.{◌≡◌, ◌<◌, ◌+◌, ◌^◌, ◌++◌, ◌∷◌, [], List, All, IfOk, OnOk, map};
ghost use Rattle.tree_model.specs.Mothers.{Meant, IsAbstract};
ghost use Rattle.chart_model.specs.Spans.{is_span};
ghost use Rattle.tree_model.specs.Signs.{rule_system};
ghost use Rattle.chart_core.specs.Leaves.{LeafBelongs};
ghost use Rattle.morph_analysis.specs.Lattices.{IsValid};
ghost use Rattle.morph_analysis.specs.LatticeViews.{lattice_of};
ghost use Rattle.book_signs.specs.Trees.{signs_of};
ghost use Rattle.grammar_shapes.specs.Systems.{rules_of, meaning_of, Belongs};
ghost use Rattle.grammar_shapes.specs.Spanned.{span_calculus};
ghost use Rattle.rule_trees.specs.Mothers.{view_in};
ghost use Rattle.lexical_items.specs.Fulls.{IsLexicalFull};
ghost use Rattle.lexical_items.specs.Listed.{Lexeme, IsLexicalAnswer};
ghost use Rattle.lexical_items.specs.Seen.{lattice_seen};
ghost use Rattle.lexical_items.specs.Views.{lexeme_seen, lexical_seen};
ghost use Rattle.grammar_rules.specs.Lined.{AreLined};
ghost use Rattle.grammar_rules.specs.Lines.{AreShapesOf, IsLineGrammar, words_by};
ghost use Rattle.grammar_rules.specs.LineLeaves.{AreLineLeaves};
ghost use Rattle.grammar_rules.specs.Remembered.{IsFullShape, IsMemoryOf};

use crate::NoMemory;
use crate::desk::LineWork;
use crate::grammar::LineGrammar;
use crate::remembered::RunMemory;
use chart_core::Leaf;
use chart_model::Span;
use fs_unify::Scratch;
use grammar_shapes::{GrammarShapes, Place};
use lexical_items::{LexTree, LexTrees, LexicalGrammar, lexical_trees};
use morph_analysis::Lattice;
use rule_trees::{FullStructure, SignBook};
use std::alloc::Global;
use std::sync::Arc;

/// The lexical trees of a line, and the leaves of its chart: each is one of the trees with its shape, named by its number.
#[derive(Drop)]
pub enum LineLeaves<'s> {
    /// a lexical tree with exactly one rule more than the limit lies in the lattice
    LexicalDepth,
    Leaves {
        trees: Vec<LexTree<FullStructure>>,
        leaves: Vec<Leaf<GrammarShapes<'s>>>,
    },
}

// The span between two nodes.
fn span_of(from: u32, to: u32) -> Span
    requires { from < to }
    ensures is { result ≡ record { from = from; to = to } }
    ensures span { is_span result }
{
    Span { from, to }
}

// A number of leaves as a name. More than a `u32` can number count as want of memory.
fn name_of(count: usize) -> Result<u32, NoMemory>
    ensures { IfOk result (λ name. name ≡ count) }
{
    match u32::try_from(count) {
        Ok(name) => Ok(name),
        Err(_) => Err(NoMemory),
    }
}

// The shape of a full structure.
fn shape_of(
    alloc: Global,
    work: &mut Scratch,
    signs: &SignBook<'_>,
    shapes: &GrammarShapes<'_>,
    full: &FullStructure,
) -> Result<Arc<Place>, NoMemory>
    requires shapes { AreShapesOf signs.now shapes.now }
    requires lexical { IsLexicalFull (signs_of signs.now) (view_in signs.now full.now.graph) }
    ensures belongs { IfOk result (Belongs shapes.now) }
    ensures shape { IfOk result (λ s. IsAbstract (rule_system (signs_of signs.now)) (Meant (rule_system (signs_of signs.now)) (view_in signs.now full.now.graph)) (meaning_of shapes.now s)) }
{
    full.laws(signs);
    let shape = shapes.shape(alloc, work, full.graph())?;
    Ok(shape)
}

// The shape of a full structure, which is made where it isn't remembered.
fn leaf_shape(
    alloc: Global,
    work: &mut Scratch,
    signs: &SignBook<'_>,
    shapes: &GrammarShapes<'_>,
    shared: &RunMemory<'_>,
    full: &FullStructure,
) -> Result<Arc<Place>, NoMemory>
    requires shapes { AreShapesOf signs.now shapes.now }
    requires shared { IsMemoryOf signs.now shapes.now shared.now }
    requires lexical { IsLexicalFull (signs_of signs.now) (view_in signs.now full.now.graph) }
    ensures { IfOk result (IsFullShape signs.now shapes.now (view_in signs.now full.now.graph)) }
{
    let known = shared.known(alloc, full)?;
    if let Some(shape) = known {
        return Ok(shape);
    }
    let shape = shape_of(alloc, work, signs, shapes, full)?;
    shared.keep(alloc, full, &shape).ok();
    Ok(shape)
}

// Adds a lexical tree with its shape to the leaves of a chart, named by its number.
fn add_leaf<'s>(
    alloc: Global,
    work: &mut Scratch,
    signs: &SignBook<'_>,
    shapes: &GrammarShapes<'s>,
    shared: &RunMemory<'_>,
    tree: &LexTree<FullStructure>,
    leaves: &mut Vec<Leaf<GrammarShapes<'s>>>,
) -> Result<(), NoMemory>
    requires shapes { AreShapesOf signs.now shapes.now }
    requires shared { IsMemoryOf signs.now shapes.now shared.now }
    requires forward { tree.now.from < tree.now.to }
    requires lexical { IsLexicalFull (signs_of signs.now) (view_in signs.now tree.now.full.graph) }
    ensures lined { OnOk result ((xs : List Lexeme) → AreLined (signs_of signs.now) (meaning_of shapes.now) xs leaves.old.items
        → AreLined (signs_of signs.now) (meaning_of shapes.now) (xs ++ lexeme_seen (λ full. view_in signs.now full.graph) tree.now ∷ []) leaves.new.items) }
    ensures belong { OnOk result (All (LeafBelongs (span_calculus (rules_of shapes.now)) (Belongs shapes.now)) leaves.old.items
        → All (LeafBelongs (span_calculus (rules_of shapes.now)) (Belongs shapes.now)) leaves.new.items) }
{
    let name = name_of(leaves.len())?;
    let cover = span_of(tree.from, tree.to);
    let shape = leaf_shape(alloc, work, signs, shapes, shared, &tree.full)?;
    leaves.push(Leaf { cover, shape, name })?;
    Ok(())
}

// The leaves of a chart over these lexical trees.
fn leaves_of<'s>(
    alloc: Global,
    work: &mut Scratch,
    signs: &SignBook<'_>,
    shapes: &GrammarShapes<'s>,
    shared: &RunMemory<'_>,
    trees: &[LexTree<FullStructure>],
) -> Result<Vec<Leaf<GrammarShapes<'s>>>, NoMemory>
    requires shapes { AreShapesOf signs.now shapes.now }
    requires shared { IsMemoryOf signs.now shapes.now shared.now }
    requires forward { All (λ t. t.from < t.to) trees.now }
    requires lexical { All (λ t. IsLexicalFull (signs_of signs.now) (view_in signs.now t.full.graph)) trees.now }
    ensures lined { IfOk result (λ leaves. AreLined (signs_of signs.now) (meaning_of shapes.now) (map (lexeme_seen (λ full. view_in signs.now full.graph)) trees.now) leaves.items) }
    ensures belong { IfOk result (λ leaves. All (LeafBelongs (span_calculus (rules_of shapes.now)) (Belongs shapes.now)) leaves.items) }
{
    let mut leaves = Vec::new(alloc);
    for tree in trees {
        add_leaf(alloc, work, signs, shapes, shared, tree, &mut leaves)?;
    }
    Ok(leaves)
}

// What is found of the lexical trees of a lattice.
fn lexical_of(
    alloc: Global,
    work: &mut Scratch,
    grammar: &LineGrammar<'_, '_, '_>,
    lattice: &Lattice,
    most: u32,
) -> Result<LexTrees<FullStructure>, NoMemory>
    requires grammar { IsLineGrammar grammar.now }
    requires valid { IsValid (lattice_of lattice.now) }
    requires most { most + 1 < 2 ^ 32 }
    ensures { IfOk result (λ trees. IsLexicalAnswer (signs_of grammar.now.signs.now) (words_by grammar.now) (lattice_seen (lattice_of lattice.now)) most (lexical_seen (λ full. view_in grammar.now.signs.now full.graph) trees)) }
{
    let fulls = grammar.shared.fulls();
    let lexical = LexicalGrammar {
        fulls,
        lexicon: grammar.lexicon,
        spelling: grammar.spelling,
        feeds: grammar.feeds,
    };
    let trees = lexical_trees(alloc, &lexical, work, lattice, most)?;
    Ok(trees)
}

/// All lexical trees of at most `most` rules in the lattice, each once, with their shapes; or that there is one with exactly one rule more.
///
/// `NoMemory` may come in place of any answer.
pub fn line_leaves<'r>(
    alloc: Global,
    work: &mut LineWork,
    grammar: &LineGrammar<'_, 'r, '_>,
    lattice: &Lattice,
    most: u32,
) -> Result<LineLeaves<'r>, NoMemory>
    requires grammar { IsLineGrammar grammar.now }
    requires valid { IsValid (lattice_of lattice.now) }
    requires most { most + 1 < 2 ^ 32 }
    ensures { IfOk result (AreLineLeaves grammar.now.signs.now grammar.now.shapes.now (words_by grammar.now) (lattice_of lattice.now) most) }
{
    let found = lexical_of(alloc, &mut work.trees, grammar, lattice, most)?;
    let LexTrees::Trees(trees) = found else {
        return Ok(LineLeaves::LexicalDepth);
    };
    let plain = grammar.shapes.shapes();
    let leaves = leaves_of(
        alloc,
        &mut work.chart,
        grammar.signs,
        plain,
        grammar.shared,
        &trees,
    )?;
    Ok(LineLeaves::Leaves { trees, leaves })
}
