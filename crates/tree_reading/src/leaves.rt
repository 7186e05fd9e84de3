//! Leaves: an entry with its words.

ghost use Rattle.std.specs.Prelude.{IfOk, IfErr};
ghost use Rattle.tree_reading.specs.Inner.Stops.{IsStop, IsLeafEnd, BeginsLeafEnd};
ghost use Rattle.tree_reading.specs.Inner.Closed.{HasLeaf};

use crate::numbers::read_ending;
use crate::stops::Stop;
use crate::words::read_words;
use std::alloc::Global;

/// An entry with its words, under lexical rules from the inside out.
#[derive(Drop)]
pub(crate) struct Leaf {
    pub entry: u32,
    pub rules: Vec<u32>,
    pub words: Vec<String>,
    pub nodes: Option<(u32, u32)>,
}

/// The leaf of an entry, from behind its first quote to its end.
pub(crate) fn read_leaf<'a>(
    alloc: Global,
    entry: u32,
    text: &'a str,
) -> Result<(Leaf, &'a str), Stop>
    ensures read { IfOk result (λ p. HasLeaf entry text.now p.0 p.1.now) }
    ensures stopped { IfErr result (IsStop IsLeafEnd BeginsLeafEnd text.now) }
{
    let (words, rest) = read_words(alloc, text)?;
    let (nodes, rest) = read_ending(rest)?;
    let leaf = Leaf {
        entry,
        rules: Vec::new(alloc),
        words,
        nodes,
    };
    Ok((leaf, rest))
}
