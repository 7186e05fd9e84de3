//! Lexical trees with the predicates that they contribute.

ghost use Rattle.std.specs.Prelude.{◌≡◌, ◌<◌, ◌^◌, All, length, map, IfOk, string_bytes};
ghost use Rattle.std.specs.Arc.{arc_value};
ghost use Rattle.derivation.specs.Trees.{Derivation};
ghost use Rattle.tree_model.specs.Trees.{Full};
ghost use Rattle.spelling_rules.specs.Trees.{AreBound};
ghost use Rattle.lexical_items.specs.Said.{AreNumbered, words_said};
ghost use Rattle.lexical_items.specs.Seen.{ForbidsNone};
ghost use Rattle.mrs_places.specs.Paths.{paths_of};
ghost use Rattle.mrs_extract.specs.Asked.{ArePaths};
ghost use Rattle.book_signs.specs.Trees.{signs_of, entries_of, lexical_rules_of};
ghost use Rattle.rule_trees.specs.Mothers.{view_in};
ghost use Rattle.lexical_items.specs.Inflected.{WordTree};
ghost use Rattle.lexical_items.specs.InflectedViews.{tree_seen};
ghost use Rattle.generated_leaves.specs.Told.{IsSaid, AreTold, word_of};
ghost use Rattle.generated_leaves.specs.Inner.Telling.{AreToldOf};
ghost use Rattle.generated_leaves.specs.Views.{told_seen};

use crate::NoMemory;
use crate::tree::ToldTree;
use book_signs::SignBook;
use fs_unify::Scratch;
use generate_model::predicates;
use lexical_items::{InflectedTree, LexicalGrammar, inflected_trees};
use mrs_places::MrsPaths;
use rule_trees::{FullStructure, SignFulls};
use std::alloc::Global;
use tree_structures::{closed_of, structure_laws};

// The predicates that a leaf of a full structure contributes: a walk along RELS of what the structure means. More of them than a `u32`
// can number count as want of memory.
#[tactic(auto, using(crate::proofs::Telling::typed_answer, crate::proofs::Telling::said_by))]
fn preds_of(
    alloc: Global,
    work: &mut Scratch,
    signs: &SignBook<'_>,
    paths: &MrsPaths,
    full: &FullStructure,
) -> Result<Vec<String>, NoMemory>
    requires full { (d : Derivation) × Full (signs_of signs.now) d (view_in signs.now full.now.graph) }
    requires paths { ArePaths signs.now.book.system.types (paths_of paths.now) }
    ensures said { IfOk result (λ v. IsSaid (signs_of signs.now) signs.now.book.system.types (paths_of paths.now) (view_in signs.now full.now.graph) (map string_bytes v.items)) }
    ensures few { IfOk result (λ v. length v.items < 2 ^ 32) }
{
    structure_laws();
    let graph = closed_of(alloc, work, signs, full)?;
    let preds = predicates(
        alloc,
        &graph,
        signs.system().types(),
        paths,
        &paths.mrs_path,
    )?;
    if preds.len() > u32::MAX as usize {
        return Err(NoMemory);
    }
    Ok(preds)
}

// A lexical tree with its predicates.
fn told(
    alloc: Global,
    work: &mut Scratch,
    signs: &SignBook<'_>,
    paths: &MrsPaths,
    one: InflectedTree<FullStructure>,
) -> Result<ToldTree, NoMemory>
    requires full { (d : Derivation) × Full (signs_of signs.now) d (view_in signs.now (arc_value one.full).graph) }
    requires paths { ArePaths signs.now.book.system.types (paths_of paths.now) }
    ensures same { IfOk result (λ x. word_of (told_seen signs.now x) ≡ tree_seen (λ full. view_in signs.now full.graph) one) }
    ensures said { IfOk result (λ x. IsSaid (signs_of signs.now) signs.now.book.system.types (paths_of paths.now) (view_in signs.now (arc_value x.full).graph) (map string_bytes x.preds.items)) }
{
    let preds = preds_of(alloc, work, signs, paths, &one.full)?;
    Ok(ToldTree {
        tree: one.tree,
        full: one.full,
        preds,
    })
}

// Each of some lexical trees with its predicates.
fn told_each(
    alloc: Global,
    work: &mut Scratch,
    signs: &SignBook<'_>,
    paths: &MrsPaths,
    trees: Vec<InflectedTree<FullStructure>>,
) -> Result<Vec<ToldTree>, NoMemory>
    requires full { All (λ (w : WordTree). (d : Derivation) × Full (signs_of signs.now) d w.full) (map (tree_seen (λ full. view_in signs.now full.graph)) trees.items) }
    requires paths { ArePaths signs.now.book.system.types (paths_of paths.now) }
    ensures { IfOk result (λ v. AreToldOf (signs_of signs.now) signs.now.book.system.types (paths_of paths.now) (map (tree_seen (λ full. view_in signs.now full.graph)) trees.items) (map (told_seen signs.now) v.items)) }
{
    let mut out = Vec::with_capacity(alloc, trees.len())?;
    for one in trees {
        out.push(told(alloc, work, signs, paths, one)?)?;
    }
    Ok(out)
}

/// The lexical trees of a grammar with at most `most` rules, each once, with their full structures and the predicates that they
/// contribute (Carroll, Copestake, Flickinger and Poznanski 1999); they are made once for a grammar. Leaves of at most so many rules are
/// found among those of at most one rule more.
///
/// `paths` says where MRSs stand in structures of the grammar. It costs what the trees cost, and one closure and one walk along RELS for
/// each. Whatever the scratch holds, the answer is the same.
pub fn told_trees(
    alloc: Global,
    work: &mut Scratch,
    grammar: &LexicalGrammar<'_, SignFulls<'_>>,
    paths: &MrsPaths,
    most: u32,
) -> Result<Vec<ToldTree>, NoMemory>
    requires paths { ArePaths grammar.now.fulls.now.signs.now.book.system.types (paths_of paths.now) }
    requires numbered { let g = signs_of grammar.now.fulls.now.signs.now in AreNumbered (entries_of g) (lexical_rules_of g) grammar.now.lexicon.now grammar.now.spelling.now }
    requires bound { AreBound grammar.now.spelling.now.rules }
    requires feeds { let g = signs_of grammar.now.fulls.now.signs.now in ForbidsNone g (entries_of g) (lexical_rules_of g) grammar.now.feeds.now }
    ensures { let g = signs_of grammar.now.fulls.now.signs.now in
        IfOk result (λ v. AreTold g (words_said (entries_of g) (lexical_rules_of g) grammar.now.lexicon.now grammar.now.spelling.now)
        grammar.now.fulls.now.signs.now.book.system.types (paths_of paths.now) most (map (told_seen grammar.now.fulls.now.signs.now) v.items)) }
{
    let trees = inflected_trees(alloc, grammar, work, most)?;
    let told = told_each(alloc, work, grammar.fulls.signs, paths, trees)?;
    Ok(told)
}
