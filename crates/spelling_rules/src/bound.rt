//! Whether rules are fit for a spelling: each variable that a group writes is one of its pattern.

ghost use Rattle.std.specs.Prelude.{◌≡◌, ◌↔◌, ℕ, List, map, IsTrue};
ghost use Rattle.lexicon.specs.Words.{Has, Each};
ghost use Rattle.spelling_rules.specs.Trees.{variable, IsBound, AreBound};
ghost use Rattle.spelling_rules.specs.Views.{sign_of, group_of, rule_of};
ghost use Rattle.spelling_rules.specs.Inner.Keeping.{IsFound};

use crate::rules::{SpellGroup, SpellRule, SpellSign};

// Whether a sign is the variable of this name with these members.
fn is_set(sign: &SpellSign, name: char, members: &[char]) -> bool
    ensures { IsTrue result ↔ (sign_of sign.now ≡ variable name members.now) }
{
    match sign {
        SpellSign::Char { .. } => false,
        SpellSign::Set {
            name: other,
            members: own,
        } => *other == name && own.as_slice() == members,
    }
}

// Whether the variable of this name with these members is among signs.
fn has_set(signs: &[SpellSign], name: char, members: &[char]) -> bool
    ensures { IsTrue result ↔ Has (variable name members.now) (map sign_of signs.now) }
{
    for sign in signs {
        if is_set(sign, name, members) {
            return true;
        }
    }
    false
}

// Whether a sign is among those of a pattern, if it is a variable.
fn is_found(sign: &SpellSign, pattern: &[SpellSign]) -> bool
    ensures { IsTrue result ↔ IsFound (map sign_of pattern.now) (sign_of sign.now) }
{
    match sign {
        SpellSign::Char { .. } => true,
        SpellSign::Set { name, members } => has_set(pattern, *name, members),
    }
}

// Whether each variable that a group writes is one of its pattern.
fn is_bound(group: &SpellGroup) -> bool
    ensures { IsTrue result ↔ IsBound (group_of group.now) }
{
    for sign in &group.with {
        if !is_found(sign, &group.pattern) {
            return false;
        }
    }
    true
}

// Whether each group of a rule is so.
fn all_bound(groups: &[SpellGroup]) -> bool
    ensures { IsTrue result ↔ Each IsBound (map group_of groups.now) }
{
    for group in groups {
        if !is_bound(group) {
            return false;
        }
    }
    true
}

/// Whether rules are fit for [`crate::Spelling::make`]: in each group each variable of what stands in the pattern's place
/// is one of the pattern, with the same members. Groups that the reader of TDL gives are so.
pub fn are_bound(rules: &[SpellRule]) -> bool
    ensures { IsTrue result ↔ AreBound (map rule_of rules.now) }
{
    for rule in rules {
        if !all_bound(&rule.groups) {
            return false;
        }
    }
    true
}
