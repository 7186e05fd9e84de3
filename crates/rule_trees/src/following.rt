//! Which lexical rule may apply to what another makes.

ghost use Rattle.std.specs.Prelude.{◌≡◌, ◌<◌, false, length, IfOk};
ghost use Rattle.tree_model.specs.Structures.{Structure};
ghost use Rattle.tree_model.specs.Lexical.{IsUnderRule};
ghost use Rattle.book_signs.specs.Trees.{signs_of};
ghost use Rattle.rule_trees.specs.Mothers.{IsShortIn, HasDaughters};
ghost use Rattle.rule_trees.specs.Inner.Following.{IsOwnOf, NeverApplies};
ghost use Rattle.rule_trees.specs.Inner.Owing.{OwesDaughters};

use crate::NoMemory;
use crate::making::parts_with;
use book_signs::SignBook;
use fs_graph::Graph;
use fs_trim::keep;
use fs_unify::{Scratch, unifies};
use std::alloc::Global;

// What a rule says itself of its mothers: its structure without daughters. Each of its mothers is at or below it.
fn own_of(alloc: Global, signs: &SignBook<'_>, place: u32) -> Result<Graph, NoMemory>
    requires { place < length (signs_of signs.now).instances }
    ensures own { IfOk result (IsOwnOf signs.now place) }
    ensures short { IfOk result (IsShortIn signs.now) }
    ensures owes { IfOk result (OwesDaughters signs.now) }
{
    signs.laws();
    let own = keep(alloc, signs.structure(place), signs.daughters())?;
    Ok(own)
}

// Whether a rule of one daughter applies to a structure.
fn applies(
    alloc: Global,
    work: &mut Scratch,
    signs: &SignBook<'_>,
    place: u32,
    daughter: &Graph,
) -> Result<bool, NoMemory>
    requires rule { HasDaughters (signs_of signs.now) place 1 }
    requires short { IsShortIn signs.now daughter.now }
    requires owes { OwesDaughters signs.now daughter.now }
    ensures { IfOk result (λ yes. yes ≡ false → NeverApplies signs.now place daughter.now) }
{
    signs.laws();
    let parts = parts_with(
        alloc,
        signs.structure(place),
        signs.places(place),
        &[daughter],
        signs.owed(),
    )?;
    let yes = unifies(alloc, work, signs.system(), &parts)?;
    Ok(yes)
}

/// Whether the lexical rule at one place may apply to what that at another makes: false only where it doesn't even apply to
/// what the inner one says itself of its mothers.
pub(crate) fn may_follow(
    alloc: Global,
    work: &mut Scratch,
    signs: &SignBook<'_>,
    inner: u32,
    outer: u32,
) -> Result<bool, NoMemory>
    requires inner { HasDaughters (signs_of signs.now) inner 1 }
    requires outer { HasDaughters (signs_of signs.now) outer 1 }
    ensures { IfOk result (λ yes. yes ≡ false → (d e f : Structure) → IsUnderRule (signs_of signs.now) inner d e → IsUnderRule (signs_of signs.now) outer e f → ⊥) }
{
    let own = own_of(alloc, signs, inner)?;
    let yes = applies(alloc, work, signs, outer, &own)?;
    Ok(yes)
}
