//! Grammars.

use constraint_expand::Book;
use grammar_settings::Settings;
use lexicon::Lexicon;
use spelling_rules::Spelling;

/// A grammar: what its statements expand to, the words of its entries, and the spelling of its lexical rules.
///
/// Entries are numbered among the entries and lexical rules among the lexical rules, from 0 in order of place.
#[derive(Drop)]
pub struct Grammar {
    /// The type system, the constraints of the types, and the structures of the instances (Copestake 2002).
    pub book: Book,
    /// The words of the entries, folded.
    pub lexicon: Lexicon,
    /// The spelling of the lexical rules, with the irregular forms.
    pub spelling: Spelling,
    /// What the settings say.
    pub settings: Settings,
    /// The names of the instances by place, in ASCII lower case.
    pub names: Vec<String>,
}
