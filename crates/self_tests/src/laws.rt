//! What holds of `self-test`: its file has one grammar or one first fault, and never both, and its items have one summary.

ghost use Rattle.std.specs.Prelude.{ℕ};
ghost use Rattle.tree_model.specs.Items.{Limits};
ghost use Rattle.endings.specs.Meanings.{Lawful};
ghost use Rattle.self_tests.specs.SelfTests.{self_test_meaning};

use book_signs::laws::one_signs;
use command_files::grammar_laws::grammar_laws;
use tree_model::{parse_laws, said_laws};

/// What holds of `self-test`.
pub fn self_test_lawful()
    ensures { (number size : ℕ) (limits : Limits) (most : ℕ) → Lawful (self_test_meaning number size limits most) }
{
    grammar_laws();
    one_signs();
    said_laws();
    parse_laws();
}
