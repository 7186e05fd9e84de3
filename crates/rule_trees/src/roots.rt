//! Whether a structure is rooted.

ghost use Rattle.std.specs.Prelude.{◌≡◌, ◌↔◌, ◌<◌, length, IsTrue, IfOk};
ghost use Rattle.tree_model.specs.Trees.{IsRooted};
ghost use Rattle.book_signs.specs.Trees.{signs_of};
ghost use Rattle.rule_trees.specs.Mothers.{IsShortIn, IsMade, graph_view, view_in};
ghost use Rattle.rule_trees.specs.Inner.Owing.{OwesDaughters};
ghost use Rattle.rule_trees.specs.Inner.Rooting.{IsRootedBy};

use crate::NoMemory;
use crate::full::FullStructure;
use book_signs::SignBook;
use fs_graph::Graph;
use fs_unify::{Parts, Scratch, unifies};
use std::alloc::Global;

// Whether the instance at a place unifies with a structure.
fn rooted_by(
    alloc: Global,
    work: &mut Scratch,
    signs: &SignBook<'_>,
    place: u32,
    full: &Graph,
) -> Result<bool, NoMemory>
    requires within { place < length (signs_of signs.now).instances }
    requires short { IsShortIn signs.now full.now }
    requires owes { OwesDaughters signs.now full.now }
    ensures { IfOk result (λ yes. IsTrue yes ↔ IsRootedBy (signs_of signs.now) (graph_view signs.now full.now) place) }
{
    signs.laws();
    let mut parts = Parts::new(alloc);
    parts.add_closed(Vec::new(alloc), signs.structure(place))?;
    parts.add_cut(Vec::new(alloc), full, signs.owed())?;
    let yes = unifies(alloc, work, signs.system(), &parts)?;
    Ok(yes)
}

/// Whether some root unifies with a full structure, which is an entry's or made by a rule. Whatever the scratch holds, the answer is the
/// same.
pub fn rooted(
    alloc: Global,
    work: &mut Scratch,
    signs: &SignBook<'_>,
    full: &FullStructure,
) -> Result<bool, NoMemory>
    requires { IsMade (signs_of signs.now) (view_in signs.now full.now.graph) }
    ensures { IfOk result (λ yes. IsTrue yes ↔ IsRooted (signs_of signs.now) (view_in signs.now full.now.graph)) }
{
    full.laws(signs);
    let graph = full.graph();
    let roots = signs.roots();
    for i in 0..roots.len() {
        if rooted_by(alloc, work, signs, roots[i], graph)? {
            return Ok(true);
        }
    }
    Ok(false)
}
