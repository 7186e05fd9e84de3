//! What a rule makes of its daughters.

ghost use Rattle.std.specs.Prelude.{◌≡◌, length, map, All, IfOk};
ghost use Rattle.book_signs.specs.Trees.{signs_of, paths_of};
ghost use Rattle.rule_trees.specs.Mothers.{IsShortIn, IsMotherOf, HasDaughters};
ghost use Rattle.rule_trees.specs.Inner.Owing.{OwesDaughters};
ghost use Rattle.rule_trees.specs.Inner.Placed.{placed_with};

use crate::NoMemory;
use book_signs::SignBook;
use fs_graph::{Feat, Graph};
use fs_trim::unify_without;
use fs_unify::{Owed, Parts, Scratch};
use std::alloc::Global;

/// An instance's structure, with daughters at their places, each of which owes the facts of the same rules.
pub(crate) fn parts_with<'x>(
    alloc: Global,
    structure: &'x Graph,
    places: &[Vec<Feat>],
    daughters: &[&'x Graph],
    owed: &'x Owed,
) -> Result<Parts<'x>, NoMemory>
    requires { length daughters.now ≡ length places.now }
    ensures { IfOk result (λ ps. ps ≡ placed_with owed.now structure.now (paths_of places.now) (map (λ d. d.now) daughters.now)) }
{
    let mut parts = Parts::new(alloc);
    parts.add_closed(Vec::new(alloc), structure)?;
    for i in 0..daughters.len() {
        let place = Vec::from_slice(alloc, &places[i])?;
        parts.add_cut(place, daughters[i], owed)?;
    }
    Ok(parts)
}

/// The full structure that the rule at a place makes of its daughters', without them; none exactly where there is none.
pub(crate) fn made(
    alloc: Global,
    work: &mut Scratch,
    signs: &SignBook<'_>,
    place: u32,
    daughters: &[&Graph],
) -> Result<Option<Graph>, NoMemory>
    requires rule { HasDaughters (signs_of signs.now) place (length daughters.now) }
    requires short { All (IsShortIn signs.now) (map (λ d. d.now) daughters.now) }
    requires owes { All (OwesDaughters signs.now) (map (λ d. d.now) daughters.now) }
    ensures { IfOk result (IsMotherOf signs.now place (map (λ d. d.now) daughters.now)) }
{
    signs.laws();
    let parts = parts_with(
        alloc,
        signs.structure(place),
        signs.places(place),
        daughters,
        signs.owed(),
    )?;
    let graph = unify_without(alloc, work, signs.system(), &parts, signs.daughters())?;
    Ok(graph)
}
