//! The structures of entries and lexical trees, and of mothers; or why there are none.

ghost use Rattle.std.specs.Prelude.{◌≡◌, All, List, Option, ℕ, IfOk};
ghost use Rattle.derivation.specs.Trees.{lexical};
ghost use Rattle.tree_model.specs.Lexical.{IsEntry, Word};
ghost use Rattle.forest_unpack.specs.Parts.{AreParts, parts_of};
ghost use Rattle.book_signs.specs.Trees.{signs_of};
ghost use Rattle.rule_trees.specs.Mothers.{IsMade, HasDaughters, view_in};
ghost use Rattle.tree_structures.specs.Formed.{IsEntryAt, IsLexicalRuleAt};
ghost use Rattle.tree_structures.specs.Known.{view_of};
ghost use Rattle.tree_faults.specs.Inner.Structures.{views_of, IsMadeAt, HasOrLacks};

use crate::NoMemory;
use crate::known::{no_parts, with_part};
use crate::refusals::verdict_at;
use book_signs::SignBook;
use forced_types::Verdict;
use forest_unpack::FullParts;
use fs_unify::Scratch;
use lexical_items::LexicalFulls;
use rule_trees::{FullStructure, SignFulls, mother_of};
use std::alloc::Global;
use std::sync::Arc;

/// A node without a structure: how many nodes within the outermost one of its lexical tree it stands, the instance that it names, and the
/// verdict on what it is made of.
#[derive(Drop)]
pub(crate) struct Lack {
    pub(crate) depth: usize,
    pub(crate) instance: u32,
    pub(crate) verdict: Verdict,
}

/// The structure of a node, or the first node below it, or itself, that has none.
#[derive(Drop)]
pub(crate) enum Outcome {
    Full(Arc<FullStructure>),
    Lacking(Lack),
}

/// What the rule at a place makes of its daughters' structures; or why it makes nothing.
pub(crate) fn mother_at(
    alloc: Global,
    work: &mut Scratch,
    signs: &SignBook<'_>,
    place: u32,
    known: &FullParts<FullStructure>,
) -> Result<Outcome, NoMemory>
    requires parts { AreParts known.now }
    requires made { All (λ f. IsMade (signs_of signs.now) (view_in signs.now f.graph)) (parts_of known.now) }
    requires rule { HasDaughters (signs_of signs.now) place known.now.count }
    ensures { IfOk result (IsMadeAt signs.now place (views_of signs.now known.now)) }
{
    match mother_of(alloc, work, signs, place, known)? {
        Some(full) => {
            let full = Arc::new(alloc, full)?;
            Ok(Outcome::Full(full))
        }
        None => {
            let verdict = verdict_at(alloc, signs, place, known)?;
            Ok(Outcome::Lacking(Lack {
                depth: 0,
                instance: place,
                verdict,
            }))
        }
    }
}

// The structure of an entry, which every grammar has.
fn entry_full<'a>(
    alloc: Global,
    work: &mut Scratch,
    signs: &'a SignBook<'a>,
    entry: u32,
) -> Result<Arc<FullStructure>, NoMemory>
    requires { IsEntryAt (signs_of signs.now) entry }
    ensures { IfOk result (λ full. IsEntry (signs_of signs.now) entry (view_of signs.now full)) }
{
    let _structure = signs.structure(entry);
    let fulls = SignFulls { signs };
    fulls.laws();
    let Some(full) = fulls.entry(alloc, work, entry)? else {
        unreachable!()
    };
    let full = Arc::new(alloc, full)?;
    Ok(full)
}

/// The structure of an entry under lexical rules, from the inside out; or the first of its nodes that has none.
pub(crate) fn lexical_full<'a>(
    alloc: Global,
    work: &mut Scratch,
    signs: &'a SignBook<'a>,
    entry: u32,
    rules: &[u32],
) -> Result<Outcome, NoMemory>
    requires entry { IsEntryAt (signs_of signs.now) entry }
    requires rules { All (IsLexicalRuleAt (signs_of signs.now)) rules.now }
    ensures { IfOk result (λ o. (words : List Word) (nodes : Option (ℕ × ℕ)) → HasOrLacks signs.now (lexical entry rules.now words nodes) o) }
{
    signs.laws();
    let mut full = entry_full(alloc, work, signs, entry)?;
    for i in 0..rules.len() {
        let below = with_part(no_parts(), full);
        match mother_at(alloc, work, signs, rules[i], &below)? {
            Outcome::Full(above) => full = above,
            Outcome::Lacking(lack) => {
                return Ok(Outcome::Lacking(Lack {
                    depth: rules.len() - 1 - i,
                    instance: lack.instance,
                    verdict: lack.verdict,
                }));
            }
        }
    }
    Ok(Outcome::Full(full))
}
