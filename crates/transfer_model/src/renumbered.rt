//! Laws: results and texts don't hang on how variables are numbered.

ghost use Rattle.std.specs.Prelude.{◌≡◌, ℕ, Bool, List, All};
ghost use Rattle.mrs_model.specs.Meanings.{Meaning};
ghost use Rattle.mrs_model.specs.Valid.{IsValid};
ghost use Rattle.mrs_reading.specs.Laws.{IsRenumbering};
ghost use Rattle.mrs_text.specs.Written.{text_of};
ghost use Rattle.transfer_model.specs.Rules.{Rule, IsRule};
ghost use Rattle.transfer_model.specs.Sites.{Site};
ghost use Rattle.transfer_model.specs.Runs.{IsResult, HasNoResult};

use crate::unique::{one_application, one_result};

/// A law: a renumbering can be turned round. It does nothing.
pub fn renumbered_back()
    ensures { (m k : Meaning) (to : List ℕ) → IsValid m → IsRenumbering m k to → (back : List ℕ) × IsRenumbering k m back }
{}

/// A law: MRSs that are one but for the numbers of their variables have one text. It does nothing.
pub fn renumbered_text()
    ensures { (m k : Meaning) (to : List ℕ) → IsValid m → IsRenumbering m k to → text_of m ≡ text_of k }
{}

/// A law: what rules make of a valid MRS is valid. It does nothing.
pub fn valid_result()
    ensures { (allows : ℕ → Site → Bool) (rs : List Rule) (m a : Meaning) (j : ℕ) → IsValid m → IsResult allows rs m j a → IsValid a }
{}

/// A law: a result doesn't hang on how variables are numbered, where what is allowed depends on the rule alone; nor does whether there is one. It does
/// nothing.
pub fn renumbered_result()
    ensures result { (allows : ℕ → Bool) (rs : List Rule) (m k a b : Meaning) (i j : ℕ) (to : List ℕ) → IsValid m → IsValid k → All IsRule rs → IsRenumbering m k to
        → IsResult (λ n s. allows n) rs m i a → IsResult (λ n s. allows n) rs k j b → (i ≡ j) × ((more : List ℕ) × IsRenumbering a b more) }
    ensures none { (allows : ℕ → Bool) (rs : List Rule) (m k : Meaning) (to : List ℕ) → IsValid m → IsValid k → All IsRule rs → IsRenumbering m k to
        → HasNoResult (λ n s. allows n) rs m → HasNoResult (λ n s. allows n) rs k }
{
    one_application();
    one_result();
}
