//! The spelling that lexical rules have in their definitions.

ghost use Rattle.std.specs.Prelude.{◌≡◌, ◌++◌, [], ◌∷◌, map, option_map, None, IfOk, OnOk, if◌then◌else◌};
ghost use Rattle.tdl_reader.specs.Views as written;
ghost use Rattle.grammar_files.specs.Placings.{placed_of};
ghost use Rattle.spelling_rules.specs.Views.{sign_of, group_of, rule_of};
ghost use Rattle.grammar_load.specs.Spellings.{sign_written, group_written, affix_written, rule_written, defines_lexical, spellings_of, lexical_rules};

use crate::names::defines_lexical;
use grammar_files::Placed;
use lexicon::NoMemory;
use spelling_rules::{SpellGroup, SpellRule, SpellSign};
use std::alloc::Global;
use tdl_reader::{Affix, AffixGroup, Sign, Statement};

// A sign as it is written.
fn sign_written(alloc: Global, sign: &Sign) -> Result<SpellSign, NoMemory>
    ensures { IfOk result (λ s. sign_of s ≡ sign_written (written.sign_of sign.now)) }
{
    match sign {
        Sign::Char { c } => Ok(SpellSign::Char { c: *c }),
        Sign::Set { name, members } => {
            let members = members.as_slice().to_vec(alloc)?;
            Ok(SpellSign::Set {
                name: *name,
                members,
            })
        }
    }
}

// Signs as they are written.
fn signs_written(alloc: Global, signs: &[Sign]) -> Result<Vec<SpellSign>, NoMemory>
    ensures { IfOk result (λ v. map sign_of v.items ≡ map sign_written (map written.sign_of signs.now)) }
{
    let mut out = Vec::new(alloc);
    for sign in signs {
        out.push(sign_written(alloc, sign)?)?;
    }
    Ok(out)
}

// Adds a group as it is written.
fn add_group(alloc: Global, out: &mut Vec<SpellGroup>, group: &AffixGroup) -> Result<(), NoMemory>
    ensures { OnOk result (map group_of out.new.items ≡ map group_of out.old.items ++ group_written (written.group_in group.now) ∷ []) }
{
    let pattern = signs_written(alloc, &group.pattern)?;
    let with = signs_written(alloc, &group.with)?;
    out.push(SpellGroup { pattern, with })?;
    Ok(())
}

// Groups as they are written.
fn groups_written(alloc: Global, groups: &[AffixGroup]) -> Result<Vec<SpellGroup>, NoMemory>
    ensures { IfOk result (λ v. map group_of v.items ≡ map group_written (map written.group_in groups.now)) }
{
    let mut out = Vec::new(alloc);
    for group in groups {
        add_group(alloc, &mut out, group)?;
    }
    Ok(out)
}

// The spelling of a rule without groups, which leaves stems as they are.
fn no_groups(alloc: Global) -> SpellRule
    ensures { rule_of result ≡ affix_written None }
{
    SpellRule {
        suffix: true,
        groups: Vec::new(alloc),
    }
}

// The spelling of a rule: that of its affix, or none.
fn affix_written(alloc: Global, affix: &Option<Affix>) -> Result<SpellRule, NoMemory>
    ensures { IfOk result (λ r. rule_of r ≡ affix_written (option_map written.affix_of affix.now)) }
{
    match affix {
        None => Ok(no_groups(alloc)),
        Some(affix) => {
            let groups = groups_written(alloc, &affix.groups)?;
            Ok(SpellRule {
                suffix: affix.suffix,
                groups,
            })
        }
    }
}

// The spelling of what a statement defines.
fn rule_written(alloc: Global, statement: &Statement) -> Result<SpellRule, NoMemory>
    ensures { IfOk result (λ r. rule_of r ≡ rule_written (written.statement_of statement.now)) }
{
    match statement {
        Statement::Define { affix, .. } => affix_written(alloc, affix),
        _ => Ok(no_groups(alloc)),
    }
}

// Adds the spelling of what a statement defines, where that is a lexical rule.
fn add_rule(alloc: Global, out: &mut Vec<SpellRule>, placed: &Placed) -> Result<(), NoMemory>
    ensures { OnOk result (map rule_of out.new.items ≡ map rule_of out.old.items ++ (if defines_lexical (placed_of placed.now) then rule_written (placed_of placed.now).statement ∷ [] else [])) }
{
    if defines_lexical(placed) {
        out.push(rule_written(alloc, &placed.statement)?)?;
    }
    Ok(())
}

/// The spelling of the lexical rules in order of place, as their definitions write it.
pub fn rules_written(alloc: Global, statements: &[Placed]) -> Result<Vec<SpellRule>, NoMemory>
    ensures { IfOk result (λ v. map rule_of v.items ≡ spellings_of (lexical_rules (map placed_of statements.now))) }
{
    let mut out = Vec::new(alloc);
    for placed in statements {
        add_rule(alloc, &mut out, placed)?;
    }
    Ok(out)
}
