//! Kinds of tokens.

/// What a token of a text is, by where it stands in the grammar.
#[derive(Clone, Copy, Debug, PartialEq, Eq)]
pub enum Kind {
    /// The variable of the top handle.
    Top,
    /// The variable of the index.
    Index,
    /// The name of a property.
    PropName,
    /// The value of a property.
    PropValue,
    /// A predicate without quotes.
    PredRun,
    /// A predicate between quotes, without these.
    PredText,
    /// What stands between `<` and `>` after a predicate.
    Link,
    /// The name of a role.
    Role,
    /// The variable that fills a role.
    Filler,
    /// The quote that opens a text that fills a role.
    OpensText,
    /// That text, without its quotes.
    Text,
    /// The closing bracket of an elementary predication.
    EpEnd,
    /// The first variable of a handle constraint, its relation and its second variable.
    High,
    HandleRel,
    Low,
    /// The first variable of an individual constraint, its relation and its second variable.
    Left,
    VariableRel,
    Right,
}
