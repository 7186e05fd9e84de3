//! The rules of a file, in order of writing.

ghost use Rattle.std.specs.Prelude.{◌≡◌, ◌<◌, ◌^◌, All, map, length, slice_index_or};
ghost use Rattle.transfer_model.specs.Rules.{Rule as RuleTree};
ghost use Rattle.transfer_model.specs.Views.{rule_of, IsHeld};

use crate::Rule;
use std::marker::Model;

/// The rules of a file, in order of writing. A rule's number is its place among them, from 0.
#[derive(Drop)]
pub struct TransferRules {
    rules: Vec<Rule>,
}

impl Model for TransferRules {
    ghost use Rattle.std.specs.Prelude.{List, map, length, ◌<◌, ◌^◌, All};
    ghost use Rattle.transfer_model.specs.Rules.{Rule};
    ghost use Rattle.transfer_model.specs.Views.{rule_of, IsHeld};

    ghost Value = { List Rule };

    ghost view = { λ r. map rule_of r.rules.items };

    ghost invariant = { λ r. (length r.rules.items < 2 ^ 32) × All IsHeld r.rules.items };
}

impl TransferRules {
    /// Takes rules that are whole, fewer than 2 ^ 32, and gives them as those of a file.
    pub fn new(rules: Vec<Rule>) -> TransferRules
        requires few { length rules.items < 2 ^ 32 }
        requires held { All IsHeld rules.items }
        ensures { result ≡ map rule_of rules.items }
    {
        TransferRules { rules }
    }

    /// The number of rules. Takes no memory.
    pub fn count(&self) -> u32
        ensures { result ≡ length self.now }
    {
        self.rules.len() as u32
    }

    /// The name of a rule by its number, from 0 in order of writing, which is less than `count`. Takes no memory.
    pub fn name(&self, rule: u32) -> &str
        requires { rule < length self.now }
        ensures { (d : RuleTree) → result.now ≡ (slice_index_or self.now rule d).name }
    {
        self.rules[rule as usize].name.as_str()
    }

    /// The rules themselves, each of which is whole, fewer than 2 ^ 32.
    pub fn rules(&self) -> &[Rule]
        ensures same { map rule_of result.now ≡ self.now }
        ensures held { All IsHeld result.now }
        ensures few { length result.now < 2 ^ 32 }
    {
        &self.rules
    }
}
