//! What lines are answered by.

use crate::remembered::{LineShapes, RunMemory};
use lexical_items::LexicalFulls;
use lexicon::Lexicon;
use morph_analysis::Feeds;
use rule_trees::{SignBook, SignFulls};
use spelling_rules::Spelling;

/// What the lines of a grammar are answered by: the structures of its instances, and what is made of them once. Two lifetimes are its own,
/// since what is remembered of shapes and full structures can't be lent for less than it was made for.
#[derive(Clone, Copy)]
pub struct LineGrammar<'a, 'r, 'k> {
    /// The structures of the instances, and their cuts.
    pub signs: &'a SignBook<'a>,
    /// The phrase rules over abstract structures, which remember what they made of equal ones.
    pub shapes: &'a LineShapes<'a, 'r>,
    /// What lines share besides: full structures of lexical trees with their shapes, and what rules made of full structures.
    pub shared: &'a RunMemory<'k>,
    /// Which lexical rule may apply to what which gives.
    pub feeds: &'a Feeds,
    /// The words of the entries, by number.
    pub lexicon: &'a Lexicon,
    /// The forms of the lexical rules, by number.
    pub spelling: &'a Spelling,
}

impl LineGrammar<'_, '_, '_> {
    ghost use Rattle.fs_model.specs.Claims.{IsOrder};
    ghost use Rattle.book_signs.specs.Trees.{signs_of};

    /// A law: the types of its signs are in order. It does nothing.
    pub fn laws(&self)
        ensures order { IsOrder (signs_of self.now.signs.now).system }
    {
        let lexical = SignFulls { signs: self.signs };
        lexical.laws();
    }
}
