//! Structures that are made once: those of entries, and of rules over known structures.

ghost use Rattle.std.specs.Prelude.{◌≡◌, ◌<◌, ◌≤◌, ◌∷◌, [], List, map, IfOk, Some, None, slice_get};
ghost use Rattle.tree_model.specs.Structures.{Structure};
ghost use Rattle.tree_model.specs.Lexical.{IsEntry};
ghost use Rattle.book_signs.specs.Trees.{signs_of};
ghost use Rattle.rule_trees.specs.Mothers.{IsMother, HasDaughters};
ghost use Rattle.lexical_items.specs.Fulls.{IsLexicalFull};
ghost use Rattle.tree_structures.specs.Formed.{IsEntryAt, IsLexicalRuleAt};
ghost use Rattle.tree_structures.specs.Known.{IsRight, AreAt, kept, numbers_of, view_of};
ghost use Rattle.tree_structures.specs.Inner.Stays.{Stays, IsNumbered};

use crate::NoMemory;
use crate::memo::FullMemo;
use crate::parts::in_parts;
use crate::question::{Numbers, Question};
use crate::shared::SharedFulls;
use fs_unify::Scratch;
use rule_trees::FullStructure;
use std::alloc::Global;
use std::sync::Arc;

/// The number of an entry's structure; none exactly where it has none.
pub(crate) fn entry_number(
    alloc: Global,
    work: &mut Scratch,
    memo: &mut FullMemo,
    fulls: &SharedFulls<'_, '_>,
    place: u32,
) -> Result<Option<u32>, NoMemory>
    requires right { IsRight fulls.now memo.old }
    requires entry { IsEntryAt (signs_of fulls.now) place }
    ensures stays { IfOk result (λ _. Stays fulls.now memo.old memo.new) }
    ensures number { IfOk result (IsNumbered fulls.now memo.new (IsEntry (signs_of fulls.now) place)) }
{
    let question = Question::Entry(place);
    if let Some(number) = memo.find(&question) {
        return Ok(Some(number));
    }
    let Some(full) = fulls.entry(alloc, work, place)? else {
        return Ok(None);
    };
    let number = memo.keep(alloc, question, full)?;
    Ok(Some(number))
}

/// The number of what a lexical rule makes of a known structure, which is a lexical tree's; none exactly where it makes none.
pub(crate) fn under_number(
    alloc: Global,
    work: &mut Scratch,
    memo: &mut FullMemo,
    fulls: &SharedFulls<'_, '_>,
    place: u32,
    below: u32,
) -> Result<Option<u32>, NoMemory>
    requires right { IsRight fulls.now memo.old }
    requires rule { IsLexicalRuleAt (signs_of fulls.now) place }
    requires known { (d : Structure) × (slice_get (kept fulls.now memo.old.known.items) below ≡ Some d) × IsLexicalFull (signs_of fulls.now) d }
    ensures stays { IfOk result (λ _. Stays fulls.now memo.old memo.new) }
    ensures number { IfOk result (λ o. (d : Structure) → slice_get (kept fulls.now memo.old.known.items) below ≡ Some d → IsNumbered fulls.now memo.new (IsMother (signs_of fulls.now) place (d ∷ [])) o) }
{
    fulls.laws();
    let over = Numbers::none().with(below);
    let question = Question::Mother { place, over };
    if let Some(number) = memo.find(&question) {
        return Ok(Some(number));
    }
    let daughter = memo.full(below)?;
    let Some(full) = fulls.under(alloc, work, place, &daughter)? else {
        return Ok(None);
    };
    let number = memo.keep(alloc, question, full)?;
    Ok(Some(number))
}

// The known structures of some numbers, shared.
fn fulls_at(
    alloc: Global,
    memo: &FullMemo,
    fulls: &SharedFulls<'_, '_>,
    numbers: &Numbers,
) -> Result<Vec<Arc<FullStructure>>, NoMemory>
    requires count { numbers.now.count ≤ 4 }
    requires known { (fs : List Structure) × AreAt (kept fulls.now memo.now.known.items) (numbers_of numbers.now) fs }
    ensures { IfOk result (λ daughters. AreAt (kept fulls.now memo.now.known.items) (numbers_of numbers.now) (map (view_of fulls.now) daughters.items)) }
{
    let mut daughters = Vec::with_capacity(alloc, numbers.count as usize)?;
    for i in 0..numbers.count {
        let full = memo.full(numbers.at(i))?;
        daughters.push(full)?;
    }
    Ok(daughters)
}

/// The number of what a rule makes of known structures; none exactly where it makes none.
pub(crate) fn mother_number(
    alloc: Global,
    work: &mut Scratch,
    memo: &mut FullMemo,
    fulls: &SharedFulls<'_, '_>,
    place: u32,
    over: Numbers,
) -> Result<Option<u32>, NoMemory>
    requires right { IsRight fulls.now memo.old }
    requires rule { HasDaughters (signs_of fulls.now) place over.count }
    requires count { over.count ≤ 4 }
    requires known { (fs : List Structure) × AreAt (kept fulls.now memo.old.known.items) (numbers_of over) fs }
    ensures stays { IfOk result (λ _. Stays fulls.now memo.old memo.new) }
    ensures number { IfOk result (λ o. (fs : List Structure) → AreAt (kept fulls.now memo.old.known.items) (numbers_of over) fs → IsNumbered fulls.now memo.new (IsMother (signs_of fulls.now) place fs) o) }
{
    let question = Question::Mother { place, over };
    if let Some(number) = memo.find(&question) {
        return Ok(Some(number));
    }
    let daughters = fulls_at(alloc, memo, fulls, &over)?;
    let Some(full) = fulls.mother(alloc, work, place, &in_parts(daughters))? else {
        return Ok(None);
    };
    let number = memo.keep(alloc, question, full)?;
    Ok(Some(number))
}
