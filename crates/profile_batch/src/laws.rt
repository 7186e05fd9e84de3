//! What holds of `batch`: told files have one first fault, or none and one report.

ghost use Rattle.std.specs.Prelude.{ℕ, List, Option, Bool};
ghost use Rattle.tree_model.specs.Items.{Limits};
ghost use Rattle.endings.specs.Meanings.{Lawful};
ghost use Rattle.profile_batch.specs.Batches.{batch_meaning};

use book_signs::laws::one_signs;
use command_files::grammar_laws::grammar_laws;
use command_files::laws::text_laws;
use tree_model::{parse_laws, said_laws};

/// What holds of `batch`.
pub fn batch_lawful()
    ensures { (grammar : List ℕ) (settings : Option (List ℕ)) (verbose : Bool) (profile : List ℕ) (limits : Limits) (most : ℕ) → Lawful (batch_meaning grammar settings verbose profile limits most) }
{
    grammar_laws();
    text_laws();
    one_signs();
    said_laws();
    parse_laws();
}
