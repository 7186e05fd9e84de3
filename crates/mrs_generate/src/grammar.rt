//! What MRSs are answered by.

use crate::contributors::Contributors;
use book_signs::SignBook;
use grammar_shapes::GrammarShapes;
use lexicon::Lexicon;
use mrs_places::{MrsFeat, MrsPaths};
use spelling_rules::Spelling;

/// What MRSs are answered by: the structures of a grammar's instances, and what is made of them once. Lexicon, spelling and `c_cont` say what
/// the contributors are of.
#[derive(Clone, Copy)]
pub struct GenGrammar<'a, 's> {
    /// The structures of the instances, and their cuts.
    pub signs: &'a SignBook<'a>,
    /// The phrase rules over abstract structures.
    pub shapes: &'a GrammarShapes<'s>,
    /// The words of the entries, by number.
    pub lexicon: &'a Lexicon,
    /// The forms of the lexical rules, by number.
    pub spelling: &'a Spelling,
    /// What lexical trees and rules contribute.
    pub contributors: &'a Contributors,
    /// Where MRSs stand.
    pub paths: &'a MrsPaths,
    /// Where the relations stand that a rule contributes itself.
    pub c_cont: &'a [MrsFeat],
}
