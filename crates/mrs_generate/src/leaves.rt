//! The leaves of a chart.

ghost use Rattle.std.specs.Prelude.{◌≡◌, ◌++◌, ◌∷◌, [], All, List, map, IfOk, OnOk};
ghost use Rattle.std.specs.Arc.{arc_value};
ghost use Rattle.chart_model.specs.declared.counts.Counts.{Counts as CountsValue};
ghost use Rattle.fs_model.specs.Closure.{AreConsistent};
ghost use Rattle.tree_model.specs.Mothers.{Meant, IsAbstract};
ghost use Rattle.tree_model.specs.Signs.{rule_system};
ghost use Rattle.book_signs.specs.Trees.{signs_of};
ghost use Rattle.grammar_shapes.specs.Systems.{meaning_of, Belongs};
ghost use Rattle.rule_trees.specs.Mothers.{IsMade, view_in};
ghost use Rattle.generate_model.specs.Covers.{IsCount};
ghost use Rattle.generated_leaves.specs.Leaves.{WordLeaf};
ghost use Rattle.generated_leaves.specs.Views.{leaf_seen};
ghost use Rattle.grammar_rules.specs.Lines.{AreShapesOf};
ghost use Rattle.mrs_generate.specs.Inner.Lined.{AreLined, MayStand};

use crate::NoMemory;
use book_signs::SignBook;
use chart_core::Leaf;
use chart_model::{Counts, Cover};
use fs_unify::Scratch;
use generated_leaves::{CountedShapes, GenLeaf};
use grammar_shapes::{GrammarShapes, Place};
use rule_trees::FullStructure;
use std::alloc::Global;
use std::sync::Arc;

// A number of leaves as a name. More than a `u32` can number count as want of memory.
fn name_of(count: usize) -> Result<u32, NoMemory>
    ensures { IfOk result (λ name. name ≡ count) }
{
    match u32::try_from(count) {
        Ok(name) => Ok(name),
        Err(_) => Err(NoMemory),
    }
}

// The shape of a full structure.
fn shape_of(
    alloc: Global,
    work: &mut Scratch,
    signs: &SignBook<'_>,
    shapes: &GrammarShapes<'_>,
    full: &FullStructure,
) -> Result<Arc<Place>, NoMemory>
    requires shapes { AreShapesOf signs.now shapes.now }
    requires sound { AreConsistent (signs_of signs.now).system (Meant (rule_system (signs_of signs.now)) (view_in signs.now full.now.graph)) }
    requires made { IsMade (signs_of signs.now) (view_in signs.now full.now.graph) }
    ensures belongs { IfOk result (Belongs shapes.now) }
    ensures shape { IfOk result (λ s. IsAbstract (rule_system (signs_of signs.now)) (Meant (rule_system (signs_of signs.now)) (view_in signs.now full.now.graph)) (meaning_of shapes.now s)) }
{
    full.laws(signs);
    let shape = shapes.shape(alloc, work, full.graph())?;
    Ok(shape)
}

// Adds a lexical tree with its shape to the leaves of a chart, named by its number.
fn add_leaf<'g, 's>(
    alloc: Global,
    work: &mut Scratch,
    signs: &SignBook<'_>,
    shapes: &GrammarShapes<'s>,
    _bound: &Counts,
    leaf: &GenLeaf,
    into: &mut Vec<Leaf<CountedShapes<'g, 's>>>,
) -> Result<(), NoMemory>
    requires shapes { AreShapesOf signs.now shapes.now }
    requires sound { AreConsistent (signs_of signs.now).system (Meant (rule_system (signs_of signs.now)) (view_in signs.now (arc_value leaf.now.full).graph)) }
    requires made { IsMade (signs_of signs.now) (view_in signs.now (arc_value leaf.now.full).graph) }
    requires proper { IsCount _bound.now leaf.now.cover }
    ensures lined { OnOk result ((xs : List WordLeaf) → AreLined (signs_of signs.now) (meaning_of shapes.now) xs into.old.items
        → AreLined (signs_of signs.now) (meaning_of shapes.now) (xs ++ leaf_seen signs.now leaf.now ∷ []) into.new.items) }
    ensures stand { OnOk result (All (MayStand (Belongs shapes.now) _bound.now) into.old.items → All (MayStand (Belongs shapes.now) _bound.now) into.new.items) }
{
    let name = name_of(into.len())?;
    let cover = leaf.cover.share(alloc)?;
    let shape = shape_of(alloc, work, signs, shapes, &leaf.full)?;
    into.push(Leaf { cover, shape, name })?;
    Ok(())
}

/// The leaves of a chart over these lexical trees, which are those of an input.
pub(crate) fn chart_leaves<'g, 's>(
    alloc: Global,
    work: &mut Scratch,
    signs: &SignBook<'_>,
    shapes: &GrammarShapes<'s>,
    bound: &Counts,
    leaves: &[GenLeaf],
) -> Result<Vec<Leaf<CountedShapes<'g, 's>>>, NoMemory>
    requires shapes { AreShapesOf signs.now shapes.now }
    requires sound { All (λ l. AreConsistent (signs_of signs.now).system (Meant (rule_system (signs_of signs.now)) (leaf_seen signs.now l).full)) leaves.now }
    requires made { All (λ l. IsMade (signs_of signs.now) (leaf_seen signs.now l).full) leaves.now }
    requires proper { All (λ l. IsCount bound.now l.cover) leaves.now }
    ensures lined { IfOk result (λ v. AreLined (signs_of signs.now) (meaning_of shapes.now) (map (leaf_seen signs.now) leaves.now) v.items) }
    ensures stand { IfOk result (λ v. All (MayStand (Belongs shapes.now) bound.now) v.items) }
{
    let mut into = Vec::new(alloc);
    for leaf in leaves {
        add_leaf(alloc, work, signs, shapes, bound, leaf, &mut into)?;
    }
    Ok(into)
}
