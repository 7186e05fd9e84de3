//! Laws of texts that are written.

ghost use Rattle.std.specs.Prelude.{ℕ, List};
ghost use Rattle.std.specs.Str.{IsUtf8, chars};
ghost use Rattle.mrs_model.specs.Meanings.{Meaning};
ghost use Rattle.mrs_model.specs.Valid.{IsValid};
ghost use Rattle.mrs_model.specs.Views.{meaning_of};
ghost use Rattle.mrs_text.specs.Written.{text_of};
ghost use Rattle.mrs_reading.specs.Laws.{IsRenumbering};
ghost use Rattle.mrs_reading.specs.Places.{Says};
ghost use Rattle.mrs_text.specs.Stored.{IsStored};

use crate::storing::stored;
use mrs_model::Mrs;
use mrs_reading::one_meaning;

/// A law: the text that is written for a valid MRS is a text of the grammar whose tokens keep the conditions, and it means this MRS. So what is read of it is
/// this MRS but for the numbers of its variables, with the lists in their order and each elementary predication with its span. It does nothing.
pub fn written()
    ensures says { (m : Meaning) → IsValid m → IsStored m → Says m (chars (text_of m)) }
    ensures back { (m k : Meaning) → IsValid m → IsStored m → IsUtf8 (text_of m) → Says k (chars (text_of m)) → (to : List ℕ) × IsRenumbering m k to }
{
    one_meaning();
}

/// The text that `crate::write` appends for a valid MRS of the program is a text of the grammar whose tokens keep the conditions, and it means this MRS.
/// It changes nothing and takes no memory; it looks at each text of the MRS once.
pub fn text_means_mrs(mrs: &Mrs)
    requires { IsValid (meaning_of mrs.now) }
    ensures { Says (meaning_of mrs.now) (chars (text_of (meaning_of mrs.now))) }
{
    written();
    stored(mrs);
}
