//! Mothers over daughters' full structures.

ghost use Rattle.std.specs.Prelude.{◌≡◌, ◌++◌, map, All, IfOk, OnOk, MatchOption, None};
ghost use Rattle.tree_model.specs.Structures.{Structure};
ghost use Rattle.forest_unpack.specs.Parts.{AreParts, parts_of};
ghost use Rattle.book_signs.specs.Trees.{signs_of};
ghost use Rattle.rule_trees.specs.Mothers.{IsMade, IsMother, AppliesTo, view_in, HasDaughters};
ghost use Rattle.rule_trees.specs.Inner.Placed.{full_in};

use crate::NoMemory;
use crate::full::FullStructure;
use crate::making::made;
use book_signs::SignBook;
use forest_unpack::FullParts;
use fs_graph::Graph;
use fs_unify::Scratch;
use std::alloc::Global;
use std::sync::Arc;

// Adds a daughter's graph, if there is one.
fn add<'x>(
    daughters: &mut Vec<&'x Graph>,
    part: &'x Option<Arc<FullStructure>>,
) -> Result<(), NoMemory>
    ensures { OnOk result (map (λ d. d.now) daughters.new.items ≡ map (λ d. d.now) daughters.old.items ++ map (λ f. f.graph.plain) (full_in part.now)) }
{
    if let Some(full) = part {
        daughters.push(full.graph())?;
    }
    Ok(())
}

/// The graphs of daughters' full structures, from the left.
pub fn graphs_of<'x>(
    alloc: Global,
    parts: &'x FullParts<FullStructure>,
) -> Result<Vec<&'x Graph>, NoMemory>
    ensures { IfOk result (λ v. map (λ d. d.now) v.items ≡ map (λ f. f.graph.plain) (parts_of parts.now)) }
{
    let mut daughters = Vec::new(alloc);
    add(&mut daughters, &parts.a)?;
    add(&mut daughters, &parts.b)?;
    add(&mut daughters, &parts.c)?;
    add(&mut daughters, &parts.d)?;
    Ok(daughters)
}

/// The full structure under the rule at a place, lexical or phrase, over its daughters' full structures, by the part of it that isn't a
/// daughter's; none exactly where the rule doesn't apply to these (Copestake 2002: a mother loses her daughters). There is a structure for each of the
/// rule's daughters, each an entry's or made by a rule. Whatever the scratch holds, the answer is the same.
pub fn mother_of(
    alloc: Global,
    work: &mut Scratch,
    signs: &SignBook<'_>,
    place: u32,
    parts: &FullParts<FullStructure>,
) -> Result<Option<FullStructure>, NoMemory>
    requires parts { AreParts parts.now }
    requires made { All (λ f. IsMade (signs_of signs.now) (view_in signs.now f.graph)) (parts_of parts.now) }
    requires rule { HasDaughters (signs_of signs.now) place parts.now.count }
    ensures full { IfOk result (λ o. MatchOption o
        ((v : Structure) → IsMother (signs_of signs.now) place (map (λ f. view_in signs.now f.graph) (parts_of parts.now)) v → ⊥)
        (λ full. IsMother (signs_of signs.now) place (map (λ f. view_in signs.now f.graph) (parts_of parts.now)) (view_in signs.now full.graph))) }
    ensures never { IfOk result (λ o. o ≡ None → AppliesTo (signs_of signs.now) place (map (λ f. view_in signs.now f.graph) (parts_of parts.now)) → ⊥) }
{
    let daughters = graphs_of(alloc, parts)?;
    match made(alloc, work, signs, place, &daughters)? {
        Some(graph) => {
            let full = FullStructure::of(alloc, signs, graph)?;
            Ok(Some(full))
        }
        None => Ok(None),
    }
}
