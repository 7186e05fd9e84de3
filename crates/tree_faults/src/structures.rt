//! The structure of a tree, or why it has none.

ghost use Rattle.std.specs.Prelude.{◌≡◌, ◌<◌, ◌++◌, All, length, map, replicate, IfOk};
ghost use Rattle.derivation.specs.Trees.{phrase};
ghost use Rattle.derivation.specs.Views.{derivation_of, in_order};
ghost use Rattle.book_signs.specs.Trees.{signs_of};
ghost use Rattle.tree_structures.specs.Formed.{IsFormed};
ghost use Rattle.forced_types.specs.Verdicts.{Fits};
ghost use Rattle.forced_types.specs.Views.{verdict_of};
ghost use Rattle.tree_faults.specs.Views.{explanation_of};
ghost use Rattle.tree_faults.specs.Inner.Structures.{told_by};
ghost use Rattle.tree_faults.specs.Inner.Building.{place_below};
ghost use Rattle.tree_faults.specs.Inner.Found.{IsFound};

use crate::NoMemory;
use crate::building::{Building, Walk, next_of, step};
use crate::explaining::Explanation;
use crate::making::{Lack, Outcome, lexical_full};
use crate::places::go_within;
use book_signs::SignBook;
use derivation::Tree;
use forced_types::Verdict;
use fs_unify::Scratch;
use rule_trees::FullStructure;
use std::alloc::Global;
use std::sync::Arc;

/// The structure of a tree, or what explains that it has none.
#[derive(Drop)]
pub(crate) enum Found {
    Full(Arc<FullStructure>),
    Fault(Explanation),
}

// The place of the next daughter of the last of some open phrases, and so many steps within it.
fn place_of(alloc: Global, waiting: &[Building<'_>], depth: usize) -> Result<Vec<usize>, NoMemory>
    ensures { IfOk result (λ v. v.items ≡ place_below waiting.now ++ replicate depth 1) }
{
    let mut place = Vec::new(alloc);
    for above in waiting {
        place.push(above.known.count as usize + 1)?;
    }
    go_within(&mut place, depth)?;
    Ok(place)
}

// What the first node without a structure explains.
fn told(place: Vec<usize>, lack: Lack) -> Explanation
    requires { verdict_of lack.verdict ≡ Fits → ⊥ }
    ensures { explanation_of result ≡ told_by place.items lack.instance (verdict_of lack.verdict) }
{
    let instance = lack.instance;
    match lack.verdict {
        Verdict::Fits => unreachable!(),
        Verdict::Clash {
            path,
            first,
            second,
        } => Explanation::Clashes {
            place,
            instance,
            path,
            first,
            second,
        },
        Verdict::TooLong { path } => Explanation::GoesTooFar {
            place,
            instance,
            path,
        },
    }
}

// What is found of a phrase. The phrases that are open wait on a stack, the innermost on top.
fn phrase_found<'a>(
    alloc: Global,
    work: &mut Scratch,
    signs: &'a SignBook<'a>,
    rule: u32,
    daughters: &[Tree],
) -> Result<Found, NoMemory>
    requires formed { IsFormed (signs_of signs.now) (phrase rule (in_order (map derivation_of daughters.now))) }
    ensures { IfOk result (IsFound signs.now (phrase rule (in_order (map derivation_of daughters.now)))) }
{
    signs.laws();
    let mut waiting: Vec<Building<'_>> = Vec::new(alloc);
    let mut here = Building::new(rule, daughters);
    'walk: loop {
        let next = next_of(alloc, work, signs, &here)?;
        match step(&mut waiting, here, next)? {
            Walk::On(on) => here = on,
            Walk::Done(full) => return Ok(Found::Full(full)),
            Walk::Stuck(lack) => {
                let place = place_of(alloc, &waiting, lack.depth)?;
                return Ok(Found::Fault(told(place, lack)));
            }
        }
    }
}

/// The structure of a tree, or what explains that it has none: its first node without a structure, in the order of nodes, and the
/// verdict on what that is made of (Copestake 2002: the structure of a derivation). It looks at each node once, without recursion.
pub(crate) fn structure_of<'a>(
    alloc: Global,
    work: &mut Scratch,
    signs: &'a SignBook<'a>,
    tree: &Tree,
) -> Result<Found, NoMemory>
    requires formed { IsFormed (signs_of signs.now) (derivation_of tree.now) }
    ensures { IfOk result (IsFound signs.now (derivation_of tree.now)) }
{
    match tree {
        Tree::Lexical { entry, rules, .. } => {
            match lexical_full(alloc, work, signs, *entry, rules)? {
                Outcome::Full(full) => Ok(Found::Full(full)),
                Outcome::Lacking(lack) => {
                    let place = place_of(alloc, &[], lack.depth)?;
                    Ok(Found::Fault(told(place, lack)))
                }
            }
        }
        Tree::Phrase {
            rule,
            daughters,
            ..
        } => phrase_found(alloc, work, signs, *rule, daughters),
    }
}
