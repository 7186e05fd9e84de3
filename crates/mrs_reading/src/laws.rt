//! Laws of texts and their meanings.

ghost use Rattle.std.specs.Prelude.{◌≡◌, ℕ, List};
ghost use Rattle.std.specs.Str.{IsUtf8, chars};
ghost use Rattle.mrs_model.specs.Meanings.{Meaning};
ghost use Rattle.mrs_model.specs.Valid.{IsValid};
ghost use Rattle.mrs_reading.specs.Laws.{IsRenumbering};
ghost use Rattle.mrs_reading.specs.Places.{IsPlace, Says};

use mrs_spelling::one_spelling;

/// A law: a text has one MRS but for the numbers of its variables, with the lists in their order and each elementary predication with its span. It does
/// nothing.
pub fn one_meaning()
    ensures { (line : List ℕ) (m k : Meaning) → IsUtf8 line → Says m (chars line) → Says k (chars line) → (to : List ℕ) × IsRenumbering m k to }
{
    one_spelling();
}

/// A law: a line that stands for an MRS has no place of a fault. It does nothing.
pub fn no_fault()
    ensures { (line : List ℕ) (m : Meaning) (at : ℕ) → IsUtf8 line → Says m (chars line) → IsPlace line at → ⊥ }
{
    mrs_spelling::not_both();
}

/// A law: an MRS that a text says is valid. It does nothing.
pub fn all_valid()
    ensures { (line : List ℕ) (m : Meaning) → IsUtf8 line → Says m (chars line) → IsValid m }
{}

/// A law: a line has one place of a first fault. It does nothing.
pub fn one_place()
    ensures { (line : List ℕ) (a b : ℕ) → IsPlace line a → IsPlace line b → a ≡ b }
{}
