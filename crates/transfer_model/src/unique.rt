//! Sites, applications and runs have one result.

ghost use Rattle.std.specs.Prelude.{◌≡◌, ℕ, Bool, List, All};
ghost use Rattle.mrs_model.specs.Meanings.{Meaning};
ghost use Rattle.mrs_model.specs.Valid.{IsValid};
ghost use Rattle.transfer_model.specs.Rules.{Rule, IsRule};
ghost use Rattle.transfer_model.specs.Sites.{Site, IsSite, IsLeastSite};
ghost use Rattle.transfer_model.specs.Applying.{IsApplied};
ghost use Rattle.transfer_model.specs.Runs.{IsResult, HasNoResult};

/// A law: the places of a site tell its variables, and there is one least site. It does nothing.
pub fn one_site()
    ensures vars { (m : Meaning) (r : Rule) (s t : Site) → IsValid m → IsRule r → IsSite m r s → IsSite m r t → s.places ≡ t.places → s ≡ t }
    ensures least { (allows : ℕ → Site → Bool) (n : ℕ) (m : Meaning) (r : Rule) (s t : Site) → IsValid m → IsRule r → IsLeastSite allows n r m s → IsLeastSite allows n r m t → s ≡ t }
{}

/// A law: an application makes one MRS, and each site of a rule has one. It does nothing.
pub fn one_application()
    ensures one { (m a b : Meaning) (r : Rule) (s : Site) → IsValid m → IsRule r → IsSite m r s → IsApplied m r s a → IsApplied m r s b → a ≡ b }
    ensures some { (m : Meaning) (r : Rule) (s : Site) → IsValid m → IsRule r → IsSite m r s → (a : Meaning) × IsApplied m r s a }
{}

/// A law: rules make of an MRS one result by one number of applications, or there is none, and never both. It does nothing.
pub fn one_result()
    ensures one { (allows : ℕ → Site → Bool) (rs : List Rule) (m a b : Meaning) (j k : ℕ) → IsValid m → All IsRule rs → IsResult allows rs m j a → IsResult allows rs m k b → (j ≡ k) × (a ≡ b) }
    ensures not_both { (allows : ℕ → Site → Bool) (rs : List Rule) (m a : Meaning) (j : ℕ) → IsValid m → All IsRule rs → IsResult allows rs m j a → HasNoResult allows rs m → ⊥ }
{}
