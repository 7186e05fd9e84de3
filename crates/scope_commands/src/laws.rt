//! What holds of `scope`: lines have one report.

ghost use Rattle.std.specs.Prelude.{ℕ};
ghost use Rattle.endings.specs.Meanings.{Lawful};
ghost use Rattle.scope_commands.specs.Scoping.{scope_meaning};

use mrs_reading::{all_valid, no_fault, one_meaning, one_place};
use scope_model::{one_answer, one_frame, one_list};

/// What holds of `scope`.
pub fn scope_lawful()
    ensures { (max : ℕ) → Lawful (scope_meaning max) }
{
    one_meaning();
    all_valid();
    no_fault();
    one_place();
    one_frame();
    one_list();
    one_answer();
}
