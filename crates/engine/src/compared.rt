//! The paths at which the types of rules and daughters are compared before they are unified.

use crate::NoMemory;
use book_signs::Cut;
use fs_graph::{Feat, PathList};
use grammar_shapes::PhraseRule;
use std::alloc::Global;

// The most paths of rules that are compared, and the longest: each is looked for in every shape that is made.
const MOST: usize = 24;

const LONGEST: usize = 6;

// Adds a path that isn't there yet.
fn add(alloc: Global, path: &[Feat], into: &mut Vec<Vec<Feat>>) -> Result<(), NoMemory> {
    if !into.iter().any(|known| known.as_slice() == path) {
        into.push(Vec::from_slice(alloc, path)?)?;
    }
    Ok(())
}

// Whether shapes may have a path: they lack each feature that is cut off.
fn is_kept(path: &[Feat], restrictors: &Cut) -> bool {
    !path.iter().any(|feat| restrictors.anywhere.contains(feat))
}

// Adds a path, where it is of this length and shapes may have it, as long as there are few.
fn add_short(
    alloc: Global,
    path: &[Feat],
    length: usize,
    restrictors: &Cut,
    most: usize,
    into: &mut Vec<Vec<Feat>>,
) -> Result<(), NoMemory> {
    if path.len() == length && into.len() < most && is_kept(path, restrictors) {
        add(alloc, path, into)?;
    }
    Ok(())
}

// What a path has below a place, if it goes on from it.
fn below<'a>(path: &'a [Feat], place: &[Feat]) -> Option<&'a [Feat]> {
    if path.starts_with(place) {
        Some(&path[place.len()..])
    } else {
        None
    }
}

// Adds the paths of this length that a rule has below the places of its daughters, and of itself: where mother and daughter
// share a node, what is said below it stands among the mother's paths alone, and the mother of one rule is the daughter of another.
fn add_of_rule(
    alloc: Global,
    rule: &PhraseRule<'_>,
    list: &PathList,
    length: usize,
    restrictors: &Cut,
    most: usize,
    into: &mut Vec<Vec<Feat>>,
) -> Result<(), NoMemory> {
    for line in &list.lines {
        for place in &rule.places {
            if let Some(path) = below(&line.path, place) {
                add_short(alloc, path, length, restrictors, most, into)?;
            }
        }
        add_short(alloc, &line.path, length, restrictors, most, into)?;
    }
    Ok(())
}

// The paths of each rule's structure.
fn paths_of(alloc: Global, rules: &[PhraseRule<'_>]) -> Result<Vec<PathList>, NoMemory> {
    let mut lists = Vec::with_capacity(alloc, rules.len())?;
    for rule in rules {
        let Ok(list) = rule.structure.paths(alloc) else {
            return Err(NoMemory);
        };
        lists.push(list)?;
    }
    Ok(lists)
}

/// The paths at which types are compared: the root, the paths that are given, and the shortest paths at which rules say
/// something of their daughters or of themselves. Which they are changes no answer; a pair of types that clashes at one of
/// them spares a unification that fails.
pub(crate) fn compared(
    alloc: Global,
    given: &[Vec<Feat>],
    rules: &[PhraseRule<'_>],
    restrictors: &Cut,
) -> Result<Vec<Vec<Feat>>, NoMemory> {
    let lists = paths_of(alloc, rules)?;
    let mut paths = Vec::new(alloc);
    paths.push(Vec::new(alloc))?;
    for path in given {
        add(alloc, path, &mut paths)?;
    }
    let most = paths.len().saturating_add(MOST);
    for length in 1..=LONGEST {
        for (rule, list) in rules.iter().zip(&lists) {
            add_of_rule(alloc, rule, list, length, restrictors, most, &mut paths)?;
        }
    }
    Ok(paths)
}
