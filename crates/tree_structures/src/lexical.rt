//! The full structures of entries under lexical rules.

ghost use Rattle.std.specs.Prelude.{All, IfOk};
ghost use Rattle.tree_model.specs.Lexical.{FullLexical};
ghost use Rattle.book_signs.specs.Trees.{signs_of};
ghost use Rattle.tree_structures.specs.Formed.{IsEntryAt, IsLexicalRuleAt};
ghost use Rattle.tree_structures.specs.Known.{IsRight};
ghost use Rattle.tree_structures.specs.Inner.Stays.{Stays, IsNumbered};

use crate::NoMemory;
use crate::memo::FullMemo;
use crate::numbering::{entry_number, under_number};
use crate::shared::SharedFulls;
use fs_unify::Scratch;
use std::alloc::Global;

/// The number of the full structure of an entry under lexical rules, from the inside out; none exactly where there is none.
pub(crate) fn lexical_number(
    alloc: Global,
    work: &mut Scratch,
    memo: &mut FullMemo,
    fulls: &SharedFulls<'_, '_>,
    entry: u32,
    rules: &[u32],
) -> Result<Option<u32>, NoMemory>
    requires right { IsRight fulls.now memo.old }
    requires entry { IsEntryAt (signs_of fulls.now) entry }
    requires rules { All (IsLexicalRuleAt (signs_of fulls.now)) rules.now }
    ensures stays { IfOk result (λ _. Stays fulls.now memo.old memo.new) }
    ensures number { IfOk result (IsNumbered fulls.now memo.new (FullLexical (signs_of fulls.now) entry rules.now)) }
{
    fulls.laws();
    let Some(mut number) = entry_number(alloc, work, memo, fulls, entry)? else {
        return Ok(None);
    };
    for rule in rules {
        match under_number(alloc, work, memo, fulls, *rule, number)? {
            Some(above) => number = above,
            None => return Ok(None),
        }
    }
    Ok(Some(number))
}
