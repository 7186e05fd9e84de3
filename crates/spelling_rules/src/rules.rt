//! Spelling rules and irregular lines, as they are given, and stems, as they are found.

/// A sign of a pattern, folded.
#[derive(Debug, Drop)]
pub enum SpellSign {
    /// A character that stands for itself.
    Char { c: char },
    /// A variable, by the name of its letter set: it stands for one of the members, the same wherever it occurs in a group.
    Set { name: char, members: Vec<char> },
}

/// A group of a spelling rule.
#[derive(Debug, Drop)]
pub struct SpellGroup {
    /// What a stem ends or begins with.
    pub pattern: Vec<SpellSign>,
    /// What stands in its place in the form.
    pub with: Vec<SpellSign>,
}

/// The spelling of a lexical rule. One without groups leaves a stem as it is.
#[derive(Debug, Drop)]
pub struct SpellRule {
    /// Whether the patterns are those of ends, and not of beginnings.
    pub suffix: bool,
    /// The groups in order of writing.
    pub groups: Vec<SpellGroup>,
}

/// A line of the irregular table, folded: a form that a stem has under the lexical rule of this number.
#[derive(Debug, Drop)]
pub struct Irregular {
    pub rule: u32,
    pub stem: String,
    pub form: String,
}

/// A stem that has a form under the lexical rule of this number.
#[derive(Debug, Drop)]
pub struct Stem {
    pub rule: u32,
    pub stem: String,
}
