//! What holds of `generate`: told files have one grammar or one first fault, and never both, and lines have one report.

ghost use Rattle.std.specs.Prelude.{ℕ, List, Option, Bool};
ghost use Rattle.endings.specs.Meanings.{Lawful};
ghost use Rattle.generate_commands.specs.Answers.{Bounds};
ghost use Rattle.generate_commands.specs.Generating.{generate_meaning};

use book_signs::laws::one_signs;
use command_files::grammar_laws::grammar_laws;
use mrs_generate::sentence_laws;
use mrs_reading::{no_fault, one_meaning, one_place};
use tree_model::said_laws;

/// What holds of `generate`.
pub fn generate_lawful()
    ensures { (name : List ℕ) (settings : Option (List ℕ)) (verbose : Bool) (bounds : Bounds) → Lawful (generate_meaning name settings verbose bounds) }
{
    grammar_laws();
    one_signs();
    said_laws();
    sentence_laws();
    one_meaning();
    no_fault();
    one_place();
}
