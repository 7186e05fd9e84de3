//! Daughters that were chosen, one of each list.

ghost use Rattle.std.specs.Prelude.{◌≡◌, ◌++◌, ◌∷◌, [], IfOk, OnOk, map};
ghost use Rattle.derivation.specs.Views.{derivation_of};
ghost use Rattle.derivation.specs.Counted.{AreCounted};
ghost use Rattle.forest_unpack.specs.Items.{trees_at, IsFullAt, IsNumberAt};

use crate::item::Item;
use crate::memo::Question;
use crate::{FullParts, Fulls, NoMemory};
use derivation::Tree;
use std::alloc::Global;
use std::sync::Arc;

/// Items from left to right: `count` of them, 0 to 4, from `a` on.
#[derive(Drop)]
pub struct Chosen<'a, F: Fulls> {
    pub count: u32,
    pub a: Option<&'a Item<F>>,
    pub b: Option<&'a Item<F>>,
    pub c: Option<&'a Item<F>>,
    pub d: Option<&'a Item<F>>,
}

/// The full structure of an item, shared.
fn full_of<F: Fulls>(item: Option<&Item<F>>) -> Result<Option<Arc<F::Full>>, NoMemory>
    ensures { IfOk result (IsFullAt item.entry) }
{
    match item {
        None => Ok(None),
        Some(item) => Ok(Some(item.full.clone()?)),
    }
}

/// The number of the full structure of an item.
fn number_of<F: Fulls>(item: Option<&Item<F>>) -> Option<u32>
    ensures { IsNumberAt item.entry result }
{
    match item {
        None => None,
        Some(item) => Some(item.number),
    }
}

/// Adds a copy of the tree of an item, if there is one.
#[tactic(auto, using(crate::proofs::Counting::counted_push))]
fn push_tree<F: Fulls>(item: Option<&Item<F>>, into: &mut Vec<Tree>) -> Result<(), NoMemory>
    ensures counted { OnOk result (AreCounted into.old.items → AreCounted into.new.items) }
    ensures trees { OnOk result (map derivation_of into.new.items ≡ map derivation_of into.old.items ++ trees_at item.entry) }
{
    if let Some(item) = item {
        into.push(item.tree.tree.copy()?)?;
    }
    Ok(())
}

impl<'a, F: Fulls> Chosen<'a, F> {
    ghost use Rattle.std.specs.Prelude.{◌≡◌, ◌<◌, ◌+◌, ◌++◌, ◌∷◌, [], IfOk, map};
    ghost use Rattle.std.specs.Arc.{arc_value};
    ghost use Rattle.derivation.specs.Trees.{phrase};
    ghost use Rattle.derivation.specs.Views.{derivation_of, in_order};
    ghost use Rattle.forest_unpack.specs.Counted.{derivation_in};
    ghost use Rattle.derivation.specs.Counted.{IsCounted};
    ghost use Rattle.forest_unpack.specs.Parts.{AreParts, parts_of};
    ghost use Rattle.forest_unpack.specs.Items.{AreChosen, chosen_items};
    ghost use Rattle.forest_unpack.specs.Inner.Memos.{daughters_of};

    /// These with one more to their right.
    pub fn with(&self, item: &'a Item<F>) -> Chosen<'a, F>
        requires chosen { AreChosen self.now }
        requires short { self.now.count < 4 }
        ensures chosen { AreChosen result }
        ensures count { result.count ≡ self.now.count + 1 }
        ensures items { chosen_items result ≡ chosen_items self.now ++ item.now ∷ [] }
    {
        let count = self.count + 1;
        let (mut a, mut b, mut c, mut d) = (self.a, self.b, self.c, self.d);
        match self.count {
            0 => a = Some(item),
            1 => b = Some(item),
            2 => c = Some(item),
            _ => d = Some(item),
        }
        Chosen { count, a, b, c, d }
    }

    /// Their full structures.
    pub fn fulls(&self) -> Result<FullParts<F::Full>, NoMemory>
        requires chosen { AreChosen self.now }
        ensures parts { IfOk result AreParts }
        ensures count { IfOk result (λ parts. parts.count ≡ self.now.count) }
        ensures are { IfOk result (λ parts. parts_of parts ≡ map (λ item. arc_value item.full) (chosen_items self.now)) }
    {
        Ok(FullParts {
            count: self.count,
            a: full_of(self.a)?,
            b: full_of(self.b)?,
            c: full_of(self.c)?,
            d: full_of(self.d)?,
        })
    }

    /// What a rule makes of them, as a question about known full structures.
    pub fn question(&self, rule: u32) -> Question
        ensures rule { result.rule ≡ rule }
        ensures daughters { daughters_of result ≡ map (λ item. item.number) (chosen_items self.now) }
    {
        Question {
            rule,
            a: number_of(self.a),
            b: number_of(self.b),
            c: number_of(self.c),
            d: number_of(self.d),
        }
    }

    /// The phrase of a rule over their trees.
    pub fn phrase(&self, alloc: Global, place: u32) -> Result<Tree, NoMemory>
        ensures counted { IfOk result IsCounted }
        ensures tree { IfOk result (λ tree. derivation_of tree ≡ phrase place (in_order (map (λ item. derivation_in item.tree) (chosen_items self.now)))) }
    {
        let mut daughters = Vec::with_capacity(alloc, self.count as usize)?;
        push_tree(self.a, &mut daughters)?;
        push_tree(self.b, &mut daughters)?;
        push_tree(self.c, &mut daughters)?;
        push_tree(self.d, &mut daughters)?;
        let tree = Tree::phrase(alloc, place, daughters)?;
        Ok(tree)
    }
}
