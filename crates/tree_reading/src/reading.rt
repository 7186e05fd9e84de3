//! The tree that a line writes.

ghost use Rattle.std.specs.Prelude.{◌≡◌, ◌≤◌, ◌⊎◌, ◌++◌, ◌∷◌, [], ℕ, List, All, IfOk, IfErr, length};
ghost use Rattle.derivation.specs.Views.{derivation_of};
ghost use Rattle.derivation.specs.Counted.{IsCounted};
ghost use Rattle.tree_reading.specs.Grammars.{TreeGrammar, HasEntry, IsNamedWell};
ghost use Rattle.tree_reading.specs.Texts.{IsTreeOf, IsFirstFault};
ghost use Rattle.tree_reading.specs.Inner.Shapes.{Begins};
ghost use Rattle.tree_reading.specs.Inner.Stops.{IsStop, IsText};
ghost use Rattle.tree_reading.specs.Inner.Begun.{IsBefore, IsAfter, HasRisen, IsWritten, AreCountedIn, HasBlanks, room_after};
ghost use Rattle.tree_reading.specs.Inner.Closed.{IsChildCounted};
ghost use Rattle.tree_reading.specs.declared.opening.Open.{Open};
ghost use Rattle.tree_reading.specs.declared.closing.Child.{Child};

use crate::TreeFault;
use crate::bytes::strip;
use crate::closing::{Child, closed, tree_of, with_daughter};
use crate::names::TreeNames;
use crate::opening::{Open, descend};
use crate::stops::Stop;
use derivation::Tree;
use std::alloc::Global;

// Whether another daughter may stand after one that is read.
fn has_room(rule: &Open) -> bool
    ensures { result ≡ room_after rule.now }
{
    match rule.rules.phrase {
        None => false,
        Some(phrase) => rule.daughters.len() + 1 < phrase.daughters as usize,
    }
}

// Goes on to another daughter of a rule.
fn go_on<'a>(
    alloc: Global,
    stack: &mut Vec<Open>,
    rule: Open,
    child: Child,
    text: &'a str,
) -> Result<&'a str, Stop>
    requires counted { AreCountedIn rule }
    requires child { IsChildCounted child }
    ensures read { IfOk result (λ rest. (g : TreeGrammar) (whole : List ℕ) → IsAfter g (stack.old.items ++ rule ∷ []) child whole text.now → IsNamedWell g → IsBefore g stack.new.items whole rest.now) }
    ensures stopped { IfErr result (λ e. (g : TreeGrammar) (whole : List ℕ) → IsAfter g (stack.old.items ++ rule ∷ []) child whole text.now → IsNamedWell g → HasEntry g → (Begins 41 text.now → ⊥) → IsStop (IsText g) (IsText g) whole e) }
    ensures shorter { IfOk result (λ rest. length rest.now ≤ length text.now) }
{
    let Some(rest) = strip(text, b' ') else {
        return Err(Stop::Left(text.len()));
    };
    if !has_room(&rule) {
        return Err(Stop::Left(text.len()));
    }
    stack.push(with_daughter(alloc, rule, child)?)?;
    Ok(rest)
}

// Reads on after a tree: up to the end of the whole tree, or to another daughter.
fn rise<'a>(
    alloc: Global,
    stack: &mut Vec<Open>,
    child: Child,
    text: &'a str,
) -> Result<(Option<Child>, &'a str), Stop>
    requires counted { All AreCountedIn stack.old.items }
    requires child { IsChildCounted child }
    ensures read { IfOk result (λ p. (g : TreeGrammar) (whole : List ℕ) → IsAfter g stack.old.items child whole text.now → IsNamedWell g → HasRisen g stack.new.items p.0 whole p.1.now) }
    ensures stopped { IfErr result (λ e. (g : TreeGrammar) (whole : List ℕ) → IsAfter g stack.old.items child whole text.now → IsNamedWell g → HasEntry g → IsStop (IsText g) (IsText g) whole e) }
    ensures shorter { IfOk result (λ p. length p.1.now ≤ length text.now) }
{
    let mut below = child;
    let mut rest = text;
    while let Some(rule) = stack.pop() {
        let Some(after) = strip(rest, b')') else {
            return Ok((None, go_on(alloc, stack, rule, below, rest)?));
        };
        match closed(alloc, rule, below)? {
            None => return Err(Stop::Left(rest.len())),
            Some(mother) => below = mother,
        }
        rest = after;
    }
    Ok((Some(below), rest))
}

// The tree that a text writes.
fn read(alloc: Global, names: &TreeNames, text: &str) -> Result<Tree, Stop>
    requires well { IsNamedWell names.now }
    requires entry { HasEntry names.now }
    ensures tree { IfOk result (IsWritten names.now text.now) }
    ensures stopped { IfErr result (IsStop (IsText names.now) (IsText names.now) text.now) }
{
    let mut stack = Vec::new(alloc);
    let mut rest = text;
    'leaves: loop {
        let (leaf, after) = descend(alloc, names, &mut stack, rest)?;
        let (child, after) = rise(alloc, &mut stack, Child::Lexical(leaf), after)?;
        rest = after;
        if let Some(child) = child {
            if !rest.is_empty() {
                return Err(Stop::Left(rest.len()));
            }
            return tree_of(alloc, child);
        }
    }
}

// What follows the blanks that a text begins with.
fn after_blanks(line: &str) -> &str
    ensures { HasBlanks line.now result.now }
{
    let mut rest = line;
    while let Some(after) = strip(rest, b' ') {
        rest = after;
    }
    rest
}

/// The tree that a line writes: blanks, and then the text of a tree over the names, as `derivation` writes it;
/// or the byte of the first fault. A name that a lexical rule and a phrase rule of one daughter have is that of the lexical rule over a lexical tree.
/// A line that is longer than a `u32` can say counts as want of memory.
pub fn read_tree(alloc: Global, names: &TreeNames, line: &str) -> Result<Tree, TreeFault>
    ensures tree { IfOk result (λ t. IsTreeOf names.now line.now (derivation_of t)) }
    ensures counted { IfOk result IsCounted }
    ensures fault { IfErr result (λ e. (e ≡ TreeFault.NoMemory) ⊎ ((at : ℕ) × (e ≡ TreeFault.At at) × IsFirstFault names.now line.now at)) }
{
    let Ok(len) = u32::try_from(line.len()) else {
        return Err(TreeFault::NoMemory);
    };
    if !names.has_entry() {
        return Err(TreeFault::At { at: 0 });
    }
    match read(alloc, names, after_blanks(line)) {
        Ok(tree) => Ok(tree),
        Err(Stop::NoMemory) => Err(TreeFault::NoMemory),
        Err(Stop::Left(left)) => Err(TreeFault::At {
            at: len - left as u32,
        }),
    }
}
