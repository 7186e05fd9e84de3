//! The first lexical tree that doesn't spell its words.

ghost use Rattle.std.specs.Prelude.{◌≡◌, ◌<◌, ◌++◌, All, length, map, replicate, IfOk, MatchOption};
ghost use Rattle.derivation.specs.Trees.{Derivation, phrase};
ghost use Rattle.derivation.specs.Views.{derivation_of, in_order};
ghost use Rattle.tree_model.specs.Lexical.{Words};
ghost use Rattle.tree_model.specs.Trees.{LeavesAre};
ghost use Rattle.tree_faults.specs.Spelled.{AreSpelled, IsFirstMisspelled};
ghost use Rattle.tree_faults.specs.WordBooks.{IsWordBook, IsNumbered, said_by};
ghost use Rattle.tree_faults.specs.Inner.Chains.{tree_of, next_place, left_of};
ghost use Rattle.tree_faults.specs.Inner.Walks.{open_of, Follows, IsWalking, WalksOn};

use crate::NoMemory;
use crate::endings::{LeafFault, leaf_fault};
use crate::opened::Opened;
use crate::places::go_within;
use crate::word_book::WordBook;
use derivation::Tree;
use std::alloc::Global;

/// A node that doesn't spell its words: its place in the tree, a daughter's number, from 1, for each step, and its instance.
#[derive(Drop)]
pub struct Misspelled {
    pub place: Vec<usize>,
    pub instance: u32,
}

// What comes next in an open phrase.
#[derive(Clone, Copy)]
enum Next<'t> {
    // its next daughter is a phrase
    Down(Opened<'t>),
    // its next daughter is a lexical tree that spells its words
    Spelled,
    // its next daughter is one that doesn't
    Fault(LeafFault),
    // all daughters were passed
    Over,
}

// What comes next in an open phrase.
fn next_of<'t>(alloc: Global, book: &WordBook<'_>, here: &Opened<'t>) -> Result<Next<'t>, NoMemory>
    requires book { IsWordBook book.now }
    requires numbered { LeavesAre (IsNumbered book.now) (tree_of open_of here.now) }
    ensures { IfOk result (Follows (said_by book.now) here.now) }
{
    let Some(daughter) = here.daughters.get(here.passed) else {
        return Ok(Next::Over);
    };
    match daughter {
        Tree::Lexical {
            entry,
            rules,
            words,
            ..
        } => match leaf_fault(alloc, book, *entry, rules, words)? {
            None => Ok(Next::Spelled),
            Some(fault) => Ok(Next::Fault(fault)),
        },
        Tree::Phrase {
            rule,
            daughters,
            ..
        } => Ok(Next::Down(Opened::new(*rule, daughters))),
    }
}

// Where a walk goes on, or how it ends.
#[derive(Clone, Copy)]
enum Walk<'t> {
    // in this phrase
    On(Opened<'t>),
    // at the next daughter of this phrase, a lexical tree that doesn't spell its words
    Fails(Opened<'t>, LeafFault),
    // each lexical tree spells its words
    Done,
}

// Where a walk goes on; the phrases that are open wait on a stack, the innermost on top.
fn step<'t>(
    waiting: &mut Vec<Opened<'t>>,
    here: Opened<'t>,
    next: Next<'t>,
) -> Result<Walk<'t>, NoMemory>
    ensures { IfOk result (λ walk. (words : Words) (whole : Derivation) → IsWalking words whole waiting.old.items here.entry → Follows words here.entry next.entry
        → WalksOn words whole waiting.new.items (left_of open_of waiting.old.items here.entry) walk) }
{
    match next {
        Next::Down(below) => {
            waiting.push(here)?;
            Ok(Walk::On(below))
        }
        Next::Spelled => Ok(Walk::On(here.past())),
        Next::Fault(fault) => Ok(Walk::Fails(here, fault)),
        Next::Over => match waiting.pop() {
            Some(above) => Ok(Walk::On(above.past())),
            None => Ok(Walk::Done),
        },
    }
}

// The place of the next daughter of the last of some open phrases, and so many steps within it.
fn place_of(
    alloc: Global,
    waiting: &[Opened<'_>],
    here: &Opened<'_>,
    depth: usize,
) -> Result<Vec<usize>, NoMemory>
    requires waits { All (λ o. o.passed < length o.daughters.now) waiting.now }
    requires here { here.now.passed < length here.now.daughters.now }
    ensures { IfOk result (λ v. v.items ≡ next_place open_of waiting.now here.now ++ replicate depth 1) }
{
    let mut place = Vec::new(alloc);
    for above in waiting {
        place.push(above.passed.saturating_add(1))?;
    }
    place.push(here.passed.saturating_add(1))?;
    go_within(&mut place, depth)?;
    Ok(place)
}

// The first node below a phrase that doesn't spell its words. The phrases that are open wait on a stack, the innermost on top.
fn misspelled_below(
    alloc: Global,
    book: &WordBook<'_>,
    rule: u32,
    daughters: &[Tree],
) -> Result<Option<Misspelled>, NoMemory>
    requires book { IsWordBook book.now }
    requires numbered { LeavesAre (IsNumbered book.now) (phrase rule (in_order (map derivation_of daughters.now))) }
    ensures { IfOk result (λ o. MatchOption o
        (AreSpelled (said_by book.now) (phrase rule (in_order (map derivation_of daughters.now))))
        (λ m. IsFirstMisspelled (said_by book.now) (phrase rule (in_order (map derivation_of daughters.now))) m.place.items m.instance)) }
{
    let mut waiting: Vec<Opened<'_>> = Vec::new(alloc);
    let mut here = Opened::new(rule, daughters);
    'walk: loop {
        let next = next_of(alloc, book, &here)?;
        match step(&mut waiting, here, next)? {
            Walk::On(on) => here = on,
            Walk::Fails(last, fault) => {
                let place = place_of(alloc, &waiting, &last, fault.depth)?;
                let instance = fault.instance;
                return Ok(Some(Misspelled { place, instance }));
            }
            Walk::Done => return Ok(None),
        }
    }
}

/// The first node of a tree, in the order of nodes, that doesn't spell the words of its lexical tree; none exactly where each lexical tree
/// spells its words (Copestake 2002: lexical rules with orthography). It takes no recursion.
pub fn first_misspelled(
    alloc: Global,
    book: &WordBook<'_>,
    tree: &Tree,
) -> Result<Option<Misspelled>, NoMemory>
    requires book { IsWordBook book.now }
    requires numbered { LeavesAre (IsNumbered book.now) (derivation_of tree.now) }
    ensures { IfOk result (λ o. MatchOption o
        (AreSpelled (said_by book.now) (derivation_of tree.now))
        (λ m. IsFirstMisspelled (said_by book.now) (derivation_of tree.now) m.place.items m.instance)) }
{
    match tree {
        Tree::Lexical {
            entry,
            rules,
            words,
            ..
        } => {
            let Some(fault) = leaf_fault(alloc, book, *entry, rules, words)? else {
                return Ok(None);
            };
            let mut place = Vec::new(alloc);
            go_within(&mut place, fault.depth)?;
            let instance = fault.instance;
            Ok(Some(Misspelled { place, instance }))
        }
        Tree::Phrase {
            rule,
            daughters,
            ..
        } => misspelled_below(alloc, book, *rule, daughters),
    }
}
