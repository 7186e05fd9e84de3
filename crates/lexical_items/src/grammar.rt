//! What lexical trees are made of.

use lexicon::Lexicon;
use morph_analysis::Feeds;
use spelling_rules::Spelling;

/// What the lexical trees of a grammar are made of. Lexicon and spelling have its entries and lexical rules by number, and `feeds` forbids no
/// lexical tree; it only spares work.
#[derive_where(Clone, Copy)]
pub struct LexicalGrammar<'a, F> {
    /// The full structures of entries, and what lexical rules make of full structures.
    pub fulls: &'a F,
    /// The words of the entries.
    pub lexicon: &'a Lexicon,
    /// The forms of the lexical rules.
    pub spelling: &'a Spelling,
    /// Which lexical rule may apply to what which gives.
    pub feeds: &'a Feeds,
}
