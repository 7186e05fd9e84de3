//! A number that MRSs share where they are equal up to renaming.

ghost use Rattle.std.specs.Prelude.{◌≡◌, ◌%◌, ◌^◌, map};
ghost use Rattle.std.specs.List.{sum_by};
ghost use Rattle.mrs_model.specs.Meanings.{Meaning};
ghost use Rattle.mrs_model.specs.Views.{variable_of, predication_of, hcon_of, icon_of, meaning_of};
ghost use Rattle.mrs_model.specs.Renaming.{AreEqual};
ghost use Rattle.mrs_model.specs.Digest.{ep_key, hcon_key, icon_key, variable_key, digest_of};

use crate::keys::{ep_key, hcon_key, icon_key, variable_key};
use crate::{Ep, Hcon, Icon, Mrs, Var};

impl Mrs {
    /// A number made of the sorts, properties, predicates, roles' names, texts and relations of an MRS, in which no order and no
    /// number of a variable is seen. [`digests_agree`] says what it is for. Takes no memory.
    pub fn digest(&self) -> u64
        ensures { result ≡ digest_of (meaning_of self.now) }
    {
        let vars = vars_sum(&self.vars);
        let eps = eps_sum(&self.eps);
        let hcons = hcons_sum(&self.hcons);
        let icons = icons_sum(&self.icons);
        vars.wrapping_add(eps)
            .wrapping_add(hcons)
            .wrapping_add(icons)
    }
}

/// A law: MRSs that are equal up to renaming have one digest, so where digests differ no search is needed.
pub fn digests_agree()
    ensures { (m n : Meaning) → AreEqual m n → digest_of m ≡ digest_of n }
{}

fn vars_sum(vars: &[Var]) -> u64
    ensures { result ≡ sum_by variable_key (map variable_of vars.now) % 2 ^ 64 }
{
    let mut sum = 0u64;
    for variable in vars {
        sum = sum.wrapping_add(variable_key(variable));
    }
    sum
}

fn eps_sum(eps: &[Ep]) -> u64
    ensures { result ≡ sum_by ep_key (map predication_of eps.now) % 2 ^ 64 }
{
    let mut sum = 0u64;
    for ep in eps {
        sum = sum.wrapping_add(ep_key(ep));
    }
    sum
}

fn hcons_sum(hcons: &[Hcon]) -> u64
    ensures { result ≡ sum_by hcon_key (map hcon_of hcons.now) % 2 ^ 64 }
{
    let mut sum = 0u64;
    for hcon in hcons {
        sum = sum.wrapping_add(hcon_key(hcon));
    }
    sum
}

fn icons_sum(icons: &[Icon]) -> u64
    ensures { result ≡ sum_by icon_key (map icon_of icons.now) % 2 ^ 64 }
{
    let mut sum = 0u64;
    for icon in icons {
        sum = sum.wrapping_add(icon_key(icon));
    }
    sum
}
