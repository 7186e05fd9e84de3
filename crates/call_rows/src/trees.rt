//! The texts and the order of trees, which steps put on a pile.

use crate::steps::{front, number, parted, push};
use derivation::{Tree, compare, is_named, write};
use std::alloc::{AllocError, Global};

// `lexical PLACE RULES WORDS NODES` puts a lexical tree on the pile, its rules from the inside out and its words between commas,
// `-` for none.
pub fn add_lexical(alloc: Global, pile: &mut Vec<Tree>, rest: &str) -> Result<(), AllocError> {
    pile.push(lexical(alloc, rest)?)?;
    Ok(())
}

// `phrase RULE COUNT` puts a phrase over the last so many on the pile, in their place.
pub fn join(alloc: Global, pile: &mut Vec<Tree>, rest: &str) -> Result<(), AllocError> {
    let (rule, count) = front(rest);
    let daughters = taken(alloc, pile, number(count))?;
    match Tree::phrase(alloc, number(rule), daughters) {
        Ok(tree) => {
            pile.push(tree)?;
            Ok(())
        }
        Err(_) => Err(AllocError),
    }
}

// The last so many trees of the pile, in order.
fn taken(alloc: Global, pile: &mut Vec<Tree>, count: u32) -> Result<Vec<Tree>, AllocError> {
    let mut daughters = Vec::new(alloc);
    for _ in 0..count {
        if let Some(last) = pile.pop() {
            daughters.push(last)?;
        }
    }
    daughters.reverse();
    Ok(daughters)
}

// `tree NAMES` and `spans NAMES` write the last one, without nodes and with them.
pub fn last(
    alloc: Global,
    pile: &[Tree],
    names: &str,
    nodes: bool,
    out: &mut Vec<u8>,
) -> Result<(), AllocError> {
    let names = parted(alloc, names, ' ')?;
    match pile.last() {
        Some(tree) if is_named(tree, names.len()) => {
            write(tree, &names, nodes, out).map_err(|_| AllocError)
        }
        _ => push(out, "a name is missing"),
    }
}

// `order` compares the last with the one before it.
pub fn order(alloc: Global, pile: &[Tree], out: &mut Vec<u8>) -> Result<(), AllocError> {
    let mut last = pile.iter().rev();
    match (last.next(), last.next()) {
        (Some(tree), Some(before)) => {
            let (here, back) = (compare(before, tree), compare(tree, before));
            let text = format!(in alloc; "{here:?} {back:?} {:?}", compare(tree, tree))?;
            push(out, text.as_str())
        }
        _ => push(out, "no two trees"),
    }
}

// The numbers between commas; none for `-`.
fn rules(alloc: Global, text: &str) -> Result<Vec<u32>, AllocError> {
    let mut found = Vec::new(alloc);
    if text != "-" {
        for one in text.split(',') {
            found.push(number(one))?;
        }
    }
    Ok(found)
}

// The nodes of a text, two numbers.
fn nodes(text: &str) -> Option<(u32, u32)> {
    let (from, to) = text.split_once(',')?;
    Some((number(from), number(to)))
}

fn lexical(alloc: Global, rest: &str) -> Result<Tree, AllocError> {
    let (place, rest) = front(rest);
    let (chain, rest) = front(rest);
    let (words, span) = front(rest);
    let rules = rules(alloc, chain)?;
    let words = parted(alloc, words, ',')?;
    Tree::lexical(alloc, number(place), rules, words, nodes(span)).map_err(|_| AllocError)
}
