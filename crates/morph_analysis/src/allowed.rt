//! The chains that tables allow.

ghost use Rattle.std.specs.Prelude.{◌≡◌, IfOk, map};
ghost use Rattle.morph_analysis.specs.Chains.{AreChains, HaveWords};
ghost use Rattle.morph_analysis.specs.Lattices.{IsValid};
ghost use Rattle.morph_analysis.specs.LatticeViews.{lattice_of};
ghost use Rattle.morph_analysis.specs.Views.{chain_of};

use crate::analysis::made_chains;
use crate::chain::Chain;
use crate::feeds::Feeds;
use crate::lattice::Lattice;
use crate::made::{MadeChain, Maker};
use lexicon::{Lexicon, NoMemory};
use spelling_rules::Spelling;
use std::alloc::Global;

// Tables as what makes nothing of chains but that they are allowed.
#[derive(Clone, Copy)]
struct Allowed<'a> {
    feeds: &'a Feeds,
}

impl<'a> Maker for Allowed<'a> {
    ghost use Rattle.morph_analysis.specs.Allowed.{IsAllowed};

    type Made = ();

    type Work = ();

    ghost Value = { Unit {0} };

    ghost value = { λ s made. tt };

    ghost makes = { λ s entry rules v. IsAllowed s.feeds.now entry rules };

    ghost enough = { λ _ _. ⊥ };

    fn begin(&self, _alloc: Global, _work: &mut (), _entry: u32) -> Result<Option<()>, NoMemory> {
        Ok(Some(()))
    }

    fn go_on(
        &self,
        _alloc: Global,
        _work: &mut (),
        entry: u32,
        rules: &[u32],
        _made: &(),
        rule: u32,
    ) -> Result<Option<()>, NoMemory> {
        if self.feeds.allows_after(entry, rules, rule) {
            Ok(Some(()))
        } else {
            Ok(None)
        }
    }

    fn is_enough(&self, _rules: &[u32]) -> bool {
        false
    }

    fn laws(&self) {}
}

// The chains alone.
fn without_made(alloc: Global, made: Vec<MadeChain<()>>) -> Result<Vec<Chain>, NoMemory>
    ensures { IfOk result (λ v. v.items ≡ map (λ x. x.chain) made.items) }
{
    let mut out = Vec::with_capacity(alloc, made.len())?;
    for one in made {
        out.push(one.chain)?;
    }
    Ok(out)
}

/// The allowed chains of at most `depth` rules that spell words which a path of the lattice carries: exactly those, each
/// once, by `from`, `to`, entry, rules and words.
///
/// Every entry of the lexicon must have a word, and the lattice must be valid. All chains are made before the first is
/// given; a caller that unifies while it goes outwards takes `made_chains` instead.
pub fn chains(
    alloc: Global,
    lexicon: &Lexicon,
    spelling: &Spelling,
    feeds: &Feeds,
    lattice: &Lattice,
    depth: u32,
) -> Result<Vec<Chain>, NoMemory>
    requires words { HaveWords lexicon.now }
    requires valid { IsValid (lattice_of lattice.now) }
    ensures { IfOk result (λ v. AreChains lexicon.now spelling.now feeds.now (lattice_of lattice.now) depth (map chain_of v.items)) }
{
    let allowed = Allowed { feeds };
    // no chain is enough, so nothing but memory ends the search
    let Ok(made) = made_chains(alloc, &allowed, &mut (), lexicon, spelling, lattice, depth) else {
        return Err(NoMemory);
    };
    let chains = without_made(alloc, made)?;
    Ok(chains)
}
