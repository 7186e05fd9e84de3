//! Which rules are skipped.

ghost use Rattle.std.specs.Prelude.{◌≡◌, ◌||◌, map, IfOk, OnOk, string_bytes};
ghost use Rattle.std.specs.Str.{bytes_eq};
ghost use Rattle.grammar_settings.specs.Forms.{Name, is_among};
ghost use Rattle.transfer_commands.specs.Rewriters.{skipped_by};
ghost use Rattle.transfer_commands.specs.Inner.{has_name, skipped_in};

use indexmap::IndexSet;
use sieve::Decision;
use std::alloc::{AllocError, Global};
use transfer_model::{Site, TransferRules};

/// The guard of a run: it allows each rule that isn't skipped, at each site.
#[derive(Drop)]
pub struct Unskipped {
    /// Of each rule, by its number, whether it is skipped.
    pub skipped: Vec<bool>,
}

impl Decision<Site> for Unskipped {
    ghost use Rattle.std.specs.Prelude.{◌≡◌, false, not, slice_index_or};

    ghost answers = { λ f rule _ yes. yes ≡ not (slice_index_or f.skipped.items rule false) };

    fn ask(&self, rule: u32, _site: &Site) -> bool {
        match self.skipped.get(rule as usize) {
            Some(skipped) => !*skipped,
            None => true,
        }
    }
}

// Adds a name to a set.
fn add_name(alloc: Global, set: &mut IndexSet<String>, name: &str) -> Result<(), AllocError>
    ensures { OnOk result ((n : Name) → has_name set.new.keys n ≡ (has_name set.old.keys n || bytes_eq name.now n)) }
{
    set.insert(String::from_str(alloc, name)?)?;
    Ok(())
}

// The set of these names.
fn set_of(alloc: Global, names: &[String]) -> Result<IndexSet<String>, AllocError>
    ensures { IfOk result (λ set. (n : Name) → has_name set.keys n ≡ is_among (map string_bytes names.now) n) }
{
    let mut set = IndexSet::new(alloc);
    for name in names {
        add_name(alloc, &mut set, name)?;
    }
    Ok(set)
}

// Of each rule whether a set has its name.
fn skipped_in(
    alloc: Global,
    rules: &TransferRules,
    set: &IndexSet<String>,
) -> Result<Vec<bool>, AllocError>
    ensures { IfOk result (λ v. v.items ≡ skipped_in set.now.keys rules.now) }
{
    let all = rules.rules();
    let mut skipped = Vec::with_capacity(alloc, all.len())?;
    for rule in all {
        skipped.push(set.contains(rule.name.as_str()))?;
    }
    Ok(skipped)
}

/// Of each rule whether its name is one of these.
pub(crate) fn skipped_rules(
    alloc: Global,
    rules: &TransferRules,
    names: &[String],
) -> Result<Vec<bool>, AllocError>
    ensures { IfOk result (λ v. v.items ≡ skipped_by (map string_bytes names.now) rules.now) }
{
    let set = set_of(alloc, names)?;
    skipped_in(alloc, rules, &set)
}
