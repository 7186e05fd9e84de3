//! What full structures mean.

ghost use Rattle.std.specs.Prelude.{IfOk};
ghost use Rattle.fs_model.specs.Closure.{AreConsistent};
ghost use Rattle.fs_unify.specs.Placing.{IsAnswerIn};
ghost use Rattle.tree_model.specs.Mothers.{Meant};
ghost use Rattle.tree_model.specs.Signs.{rule_system};
ghost use Rattle.book_signs.specs.Trees.{signs_of};
ghost use Rattle.rule_trees.specs.Mothers.{view_in, IsMade};
ghost use Rattle.tree_structures.specs.Meant.{IsMeantBy};

use crate::NoMemory;
use book_signs::SignBook;
use fs_graph::Graph;
use fs_unify::{Parts, Scratch, unify};
use rule_trees::FullStructure;
use std::alloc::Global;

/// The graph of what a full structure means: the structure of the closure of what it says, which is consistent as that of each
/// tree's structure is. The structure is an entry's or made by a rule. Whatever the scratch holds, the answer is the same.
///
/// A full structure is kept without its daughters and isn't closed again, so the closure is made here, by one unification into which
/// it enters with the facts alone that it owes: those that speak of daughters.
pub fn closed_of(
    alloc: Global,
    work: &mut Scratch,
    signs: &SignBook<'_>,
    full: &FullStructure,
) -> Result<Graph, NoMemory>
    requires sound { AreConsistent (signs_of signs.now).system (Meant (rule_system (signs_of signs.now)) (view_in signs.now full.now.graph)) }
    requires made { IsMade (signs_of signs.now) (view_in signs.now full.now.graph) }
    ensures meant { IfOk result (IsMeantBy (signs_of signs.now) (view_in signs.now full.now.graph)) }
    ensures within { IfOk result (IsAnswerIn signs.now.book.system) }
{
    signs.laws();
    full.laws(signs);
    let mut parts = Parts::new(alloc);
    parts.add_cut(Vec::new(alloc), full.graph(), signs.owed())?;
    match unify(alloc, work, signs.system(), &parts)? {
        Some(graph) => {
            let _nodes = graph.nodes();
            Ok(graph)
        }
        None => unreachable!(),
    }
}
