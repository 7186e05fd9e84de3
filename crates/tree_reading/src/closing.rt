//! Trees that are read whole, and the rules that stand over them.

ghost use Rattle.std.specs.Prelude.{◌≡◌, IfOk, IfErr, MatchOption, Some, None};
ghost use Rattle.derivation.specs.Views.{derivation_of};
ghost use Rattle.derivation.specs.Counted.{IsCounted, AreCounted};
ghost use Rattle.tree_reading.specs.Inner.Frames.{trees_of};
ghost use Rattle.tree_reading.specs.Inner.Closed.{closed, as_phrase, leaf_of, lexical_here, tree_of, with_last, IsChildCounted};

use crate::leaves::Leaf;
use crate::opening::Open;
use crate::stops::Stop;
use derivation::Tree;
use std::alloc::Global;

/// A tree that is read whole.
#[derive(Drop)]
pub(crate) enum Child {
    /// A lexical tree, over which lexical rules may stand.
    Lexical(Leaf),
    /// A phrase.
    Whole(Tree),
}

/// The tree.
pub(crate) fn tree_of(alloc: Global, child: Child) -> Result<Tree, Stop>
    ensures is { IfOk result (λ tree. derivation_of tree ≡ tree_of child) }
    ensures counted { IsChildCounted child → IfOk result IsCounted }
    ensures stopped { IfErr result (λ e. e ≡ Stop.NoMemory) }
{
    match child {
        Child::Lexical(leaf) => Ok(Tree::lexical(
            alloc, leaf.entry, leaf.rules, leaf.words, leaf.nodes,
        )?),
        Child::Whole(tree) => Ok(tree),
    }
}

/// A rule with one daughter more.
pub(crate) fn with_daughter(alloc: Global, rule: Open, child: Child) -> Result<Open, Stop>
    requires counted { AreCounted rule.daughters.items }
    requires child { IsChildCounted child }
    ensures rules { IfOk result (λ o. o.rules ≡ rule.rules) }
    ensures trees { IfOk result (λ o. trees_of o ≡ with_last (trees_of rule) (tree_of child)) }
    ensures counted { IfOk result (λ o. AreCounted o.daughters.items) }
    ensures stopped { IfErr result (λ e. e ≡ Stop.NoMemory) }
{
    let Open {
        rules,
        mut daughters,
    } = rule;
    daughters.push(tree_of(alloc, child)?)?;
    Ok(Open { rules, daughters })
}

// The phrase of a rule with all its daughters.
fn as_phrase(alloc: Global, rule: Open) -> Result<Option<Child>, Stop>
    requires counted { AreCounted rule.daughters.items }
    ensures closed { IfOk result (λ r. MatchOption r (as_phrase rule.rules.phrase (trees_of rule) ≡ None) (λ c. (as_phrase rule.rules.phrase (trees_of rule) ≡ Some (tree_of c)) × IsChildCounted c)) }
    ensures stopped { IfErr result (λ e. e ≡ Stop.NoMemory) }
{
    let Some(phrase) = rule.rules.phrase else {
        return Ok(None);
    };
    if phrase.daughters as usize != rule.daughters.len() {
        return Ok(None);
    }
    let tree = Tree::phrase(alloc, phrase.rule, rule.daughters)?;
    Ok(Some(Child::Whole(tree)))
}

// The lexical rule, where there are no daughters yet.
fn lexical_here(rule: &Open) -> Option<u32>
    ensures { result ≡ lexical_here rule.now.rules (trees_of rule.now) }
{
    if rule.daughters.is_empty() {
        rule.rules.lexical
    } else {
        None
    }
}

// The phrase of a rule with its last daughter.
fn last(alloc: Global, rule: Open, child: Child) -> Result<Option<Child>, Stop>
    requires counted { AreCounted rule.daughters.items }
    requires child { IsChildCounted child }
    ensures closed { IfOk result (λ r. MatchOption r (as_phrase rule.rules.phrase (with_last (trees_of rule) (tree_of child)) ≡ None) (λ c. (as_phrase rule.rules.phrase (with_last (trees_of rule) (tree_of child)) ≡ Some (tree_of c)) × IsChildCounted c)) }
    ensures stopped { IfErr result (λ e. e ≡ Stop.NoMemory) }
{
    let rule = with_daughter(alloc, rule, child)?;
    as_phrase(alloc, rule)
}

// The tree of a rule with a lexical tree for its last daughter.
fn closed_leaf(alloc: Global, rule: Open, leaf: Leaf) -> Result<Option<Child>, Stop>
    requires { AreCounted rule.daughters.items }
    ensures closed { IfOk result (λ r. MatchOption r (closed rule.rules (trees_of rule) (leaf_of leaf) ≡ None) (λ c. (closed rule.rules (trees_of rule) (leaf_of leaf) ≡ Some (tree_of c)) × IsChildCounted c)) }
    ensures stopped { IfErr result (λ e. e ≡ Stop.NoMemory) }
{
    let Some(lexical) = lexical_here(&rule) else {
        return last(alloc, rule, Child::Lexical(leaf));
    };
    let Leaf {
        entry,
        mut rules,
        words,
        nodes,
    } = leaf;
    rules.push(lexical)?;
    Ok(Some(Child::Lexical(Leaf {
        entry,
        rules,
        words,
        nodes,
    })))
}

/// The tree of a rule with its last daughter, if the rule has so many.
pub(crate) fn closed(alloc: Global, rule: Open, child: Child) -> Result<Option<Child>, Stop>
    requires counted { AreCounted rule.daughters.items }
    requires child { IsChildCounted child }
    ensures closed { IfOk result (λ r. MatchOption r (closed rule.rules (trees_of rule) (tree_of child) ≡ None) (λ c. (closed rule.rules (trees_of rule) (tree_of child) ≡ Some (tree_of c)) × IsChildCounted c)) }
    ensures stopped { IfErr result (λ e. e ≡ Stop.NoMemory) }
{
    match child {
        Child::Lexical(leaf) => closed_leaf(alloc, rule, leaf),
        Child::Whole(tree) => last(alloc, rule, Child::Whole(tree)),
    }
}
