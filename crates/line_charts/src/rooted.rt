//! Whether some root unifies with an abstract structure.

ghost use Rattle.std.specs.Prelude.{◌↔◌, ◌<◌, length, IfOk, IsTrue};
ghost use Rattle.tree_model.specs.Trees.{IsRooted};
ghost use Rattle.book_signs.specs.Trees.{signs_of};
ghost use Rattle.rule_trees.specs.Mothers.{IsShortIn, graph_view};
ghost use Rattle.rule_trees.specs.Inner.Rooting.{IsRootedBy};

use crate::NoMemory;
use book_signs::SignBook;
use fs_graph::Graph;
use fs_unify::{Parts, Scratch, unifies};
use std::alloc::Global;

// Whether the instance at a place unifies with a structure. That of an instance is well-formed; an abstract structure lacks what was cut
// off, so it owes all that its types force.
fn rooted_by(
    alloc: Global,
    work: &mut Scratch,
    signs: &SignBook<'_>,
    place: u32,
    graph: &Graph,
) -> Result<bool, fs_unify::NoMemory>
    requires within { place < length (signs_of signs.now).instances }
    requires short { IsShortIn signs.now graph.now }
    ensures { IfOk result (λ yes. IsTrue yes ↔ IsRootedBy (signs_of signs.now) (graph_view signs.now graph.now) place) }
{
    signs.laws();
    let mut parts = Parts::new(alloc);
    parts.add_closed(Vec::new(alloc), signs.structure(place))?;
    parts.add(Vec::new(alloc), graph)?;
    let yes = unifies(alloc, work, signs.system(), &parts)?;
    Ok(yes)
}

/// Whether some root unifies with a structure, which is in range and has no path longer than the limit. Whatever the scratch holds, the answer
/// is the same.
pub(crate) fn is_rooted(
    alloc: Global,
    work: &mut Scratch,
    signs: &SignBook<'_>,
    graph: &Graph,
) -> Result<bool, NoMemory>
    requires { IsShortIn signs.now graph.now }
    ensures { IfOk result (λ yes. IsTrue yes ↔ IsRooted (signs_of signs.now) (graph_view signs.now graph.now)) }
{
    let roots = signs.roots();
    for i in 0..roots.len() {
        let Ok(yes) = rooted_by(alloc, work, signs, roots[i], graph) else {
            return Err(NoMemory);
        };
        if yes {
            return Ok(true);
        }
    }
    Ok(false)
}
