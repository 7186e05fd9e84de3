//! Phrases whose structures are being made: what comes next in one.

ghost use Rattle.std.specs.Prelude.{◌≡◌, ◌<◌, ◌+◌, ◌++◌, ◌∷◌, [], IfOk};
ghost use Rattle.derivation.specs.Trees.{Derivation};
ghost use Rattle.book_signs.specs.Trees.{SignTree, signs_of, HaveArities};
ghost use Rattle.tree_structures.specs.declared.memo.FullMemo.{FullMemo};
ghost use Rattle.tree_structures.specs.Formed.{IsFormed};
ghost use Rattle.tree_structures.specs.Known.{IsRight, kept, numbers_of};
ghost use Rattle.tree_structures.specs.Inner.Stays.{Stays};
ghost use Rattle.tree_structures.specs.Inner.Walks.{open_tree, IsBegun, Follows, IsWalking, WalksOn, left_of};

use crate::NoMemory;
use crate::lexical::lexical_number;
use crate::memo::FullMemo;
use crate::numbering::mother_number;
use crate::question::Numbers;
use crate::shared::SharedFulls;
use derivation::Tree;
use fs_unify::Scratch;
use std::alloc::Global;

/// A phrase whose structure is being made, with the numbers of its first daughters' structures.
#[derive(Clone, Copy)]
pub(crate) struct Opened<'t> {
    pub(crate) rule: u32,
    pub(crate) daughters: &'t [Tree],
    pub(crate) known: Numbers,
}

impl<'t> Opened<'t> {
    /// A phrase with no structure known.
    pub(crate) fn new(rule: u32, daughters: &'t [Tree]) -> Opened<'t>
        ensures rule { result.rule ≡ rule }
        ensures daughters { result.daughters.now ≡ daughters.now }
        ensures none { result.known.count ≡ 0 }
    {
        Opened {
            rule,
            daughters,
            known: Numbers::none(),
        }
    }

    /// The same phrase with one more daughter's structure known, of at most four.
    pub(crate) fn with(self, number: u32) -> Opened<'t>
        ensures rule { result.rule ≡ self.entry.rule }
        ensures daughters { result.daughters.now ≡ self.entry.daughters.now }
        ensures known { self.entry.known.count < 4 → numbers_of result.known ≡ numbers_of self.entry.known ++ number ∷ [] }
        ensures count { self.entry.known.count < 4 → result.known.count ≡ self.entry.known.count + 1 }
    {
        Opened {
            rule: self.rule,
            daughters: self.daughters,
            known: self.known.with(number),
        }
    }
}

/// What comes next in an open phrase.
#[derive(Clone, Copy)]
pub(crate) enum Next<'t> {
    /// its next daughter is a phrase
    Down(Opened<'t>),
    /// the number of its next daughter's structure, a lexical tree's
    Leaf(u32),
    /// the number of its own structure
    Made(u32),
    /// it has no structure
    Never,
}

/// What comes next in an open phrase.
pub(crate) fn next_of<'t>(
    alloc: Global,
    work: &mut Scratch,
    memo: &mut FullMemo,
    fulls: &SharedFulls<'_, '_>,
    here: &Opened<'t>,
) -> Result<Next<'t>, NoMemory>
    requires right { IsRight fulls.now memo.old }
    requires formed { IsFormed (signs_of fulls.now) (open_tree here.now) }
    requires begun { IsBegun (signs_of fulls.now) (kept fulls.now memo.old.known.items) here.now }
    ensures stays { IfOk result (λ _. Stays fulls.now memo.old memo.new) }
    ensures follows { IfOk result (Follows fulls.now memo.new here.now) }
{
    fulls.laws();
    let place = here.known.count as usize;
    if place >= here.daughters.len() {
        match mother_number(alloc, work, memo, fulls, here.rule, here.known)? {
            Some(number) => Ok(Next::Made(number)),
            None => Ok(Next::Never),
        }
    } else {
        match &here.daughters[place] {
            Tree::Lexical { entry, rules, .. } => {
                match lexical_number(alloc, work, memo, fulls, *entry, rules)? {
                    Some(number) => Ok(Next::Leaf(number)),
                    None => Ok(Next::Never),
                }
            }
            Tree::Phrase {
                rule,
                daughters,
                ..
            } => Ok(Next::Down(Opened::new(*rule, daughters))),
        }
    }
}

/// Where a walk goes on, or how it ends.
#[derive(Clone, Copy)]
pub(crate) enum Walk<'t> {
    /// in this phrase
    On(Opened<'t>),
    /// with the number of the whole tree's structure
    Done(u32),
    /// the tree has none
    Stuck,
}

/// Where a walk goes on; the phrases that are open wait on a stack, the innermost on top.
pub(crate) fn step<'t>(
    waiting: &mut Vec<Opened<'t>>,
    here: Opened<'t>,
    next: Next<'t>,
) -> Result<Walk<'t>, NoMemory>
    ensures { IfOk result (λ walk. (t : SignTree) (memo : FullMemo) (whole : Derivation) → HaveArities (signs_of t) → IsFormed (signs_of t) whole
        → IsWalking t memo whole waiting.old.items here.entry → Follows t memo here.entry next.entry
        → WalksOn t memo whole waiting.new.items (left_of waiting.old.items here.entry) walk) }
{
    match next {
        Next::Down(below) => {
            waiting.push(here)?;
            Ok(Walk::On(below))
        }
        Next::Leaf(number) => Ok(Walk::On(here.with(number))),
        Next::Made(number) => match waiting.pop() {
            Some(above) => Ok(Walk::On(above.with(number))),
            None => Ok(Walk::Done(number)),
        },
        Next::Never => Ok(Walk::Stuck),
    }
}
