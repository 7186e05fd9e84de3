//! The full structures of trees.

ghost use Rattle.std.specs.Prelude.{map, IfOk, MatchOption};
ghost use Rattle.std.specs.Arc.{arc_value};
ghost use Rattle.derivation.specs.Trees.{phrase};
ghost use Rattle.derivation.specs.Views.{derivation_of, in_order};
ghost use Rattle.tree_model.specs.Structures.{Structure};
ghost use Rattle.tree_model.specs.Trees.{Full};
ghost use Rattle.book_signs.specs.Trees.{signs_of};
ghost use Rattle.rule_trees.specs.Mothers.{view_in};
ghost use Rattle.tree_structures.specs.Formed.{IsFormed};
ghost use Rattle.tree_structures.specs.Known.{IsRight};
ghost use Rattle.tree_structures.specs.Inner.Stays.{IsNumbered};

use crate::NoMemory;
use crate::lexical::lexical_number;
use crate::memo::FullMemo;
use crate::opened::{Opened, Walk, next_of, step};
use crate::shared::SharedFulls;
use derivation::Tree;
use fs_unify::Scratch;
use rule_trees::FullStructure;
use std::alloc::Global;
use std::sync::Arc;

/// The full structure of a tree, by the part of it that isn't a daughter's; none exactly where it has none (Copestake 2002: the
/// structure of a derivation). Each place in the tree is that of an entry or a rule with as many daughters as stand there, as in
/// every tree that has a full structure. Whatever the scratch holds, the answer is the same.
///
/// It looks at each node of the tree once, without recursion, and unifies where the memo has no rule over the same structures.
pub fn full_of(
    alloc: Global,
    work: &mut Scratch,
    memo: &mut FullMemo,
    fulls: &SharedFulls<'_, '_>,
    tree: &Tree,
) -> Result<Option<Arc<FullStructure>>, NoMemory>
    requires right { IsRight fulls.now memo.old }
    requires formed { IsFormed (signs_of fulls.now) (derivation_of tree.now) }
    ensures right { IfOk result (λ _. IsRight fulls.now memo.new) }
    ensures full { IfOk result (λ o. MatchOption o
        ((f : Structure) → Full (signs_of fulls.now) (derivation_of tree.now) f → ⊥)
        (λ full. Full (signs_of fulls.now) (derivation_of tree.now) (view_in fulls.now (arc_value full).graph))) }
{
    match number_of(alloc, work, memo, fulls, tree)? {
        Some(number) => {
            let full = memo.full(number)?;
            Ok(Some(full))
        }
        None => Ok(None),
    }
}

// The number of a tree's structure.
fn number_of(
    alloc: Global,
    work: &mut Scratch,
    memo: &mut FullMemo,
    fulls: &SharedFulls<'_, '_>,
    tree: &Tree,
) -> Result<Option<u32>, NoMemory>
    requires right { IsRight fulls.now memo.old }
    requires formed { IsFormed (signs_of fulls.now) (derivation_of tree.now) }
    ensures right { IfOk result (λ _. IsRight fulls.now memo.new) }
    ensures number { IfOk result (IsNumbered fulls.now memo.new (Full (signs_of fulls.now) (derivation_of tree.now))) }
{
    match tree {
        Tree::Lexical { entry, rules, .. } => {
            lexical_number(alloc, work, memo, fulls, *entry, rules)
        }
        Tree::Phrase {
            rule,
            daughters,
            ..
        } => phrase_number(alloc, work, memo, fulls, *rule, daughters),
    }
}

// The number of a phrase's structure. The phrases that are open wait on a stack, the innermost on top.
fn phrase_number(
    alloc: Global,
    work: &mut Scratch,
    memo: &mut FullMemo,
    fulls: &SharedFulls<'_, '_>,
    rule: u32,
    daughters: &[Tree],
) -> Result<Option<u32>, NoMemory>
    requires right { IsRight fulls.now memo.old }
    requires formed { IsFormed (signs_of fulls.now) (phrase rule (in_order (map derivation_of daughters.now))) }
    ensures right { IfOk result (λ _. IsRight fulls.now memo.new) }
    ensures number { IfOk result (IsNumbered fulls.now memo.new (Full (signs_of fulls.now) (phrase rule (in_order (map derivation_of daughters.now))))) }
{
    fulls.laws();
    let mut waiting: Vec<Opened<'_>> = Vec::new(alloc);
    let mut here = Opened::new(rule, daughters);
    'walk: loop {
        let next = next_of(alloc, work, memo, fulls, &here)?;
        match step(&mut waiting, here, next)? {
            Walk::On(on) => here = on,
            Walk::Done(number) => return Ok(Some(number)),
            Walk::Stuck => return Ok(None),
        }
    }
}
