//! What holds of `transfer`: told files have one list of rules or one first fault, and never both, and lines have one report.

ghost use Rattle.std.specs.Prelude.{ℕ, List, Option, Bool};
ghost use Rattle.endings.specs.Meanings.{Lawful};
ghost use Rattle.transfer_commands.specs.Transferring.{transfer_meaning};

use mrs_reading::{all_valid, no_fault, one_meaning, one_place};
use transfer_model::{one_result, renumbered_result, renumbered_text, valid_result};
use transfer_rules::{all_rules, one_outside, one_rules, rules_or_fault};

/// What holds of `transfer`.
pub fn transfer_lawful()
    ensures { (rules : List ℕ) (settings : Option (List ℕ)) (verbose : Bool) → Lawful (transfer_meaning rules settings verbose) }
{
    tdl_lexer::one_reading();
    tdl_reader::one_reading();
    one_rules();
    rules_or_fault();
    one_outside();
    all_rules();
    one_meaning();
    all_valid();
    no_fault();
    one_place();
    one_result();
    renumbered_result();
    renumbered_text();
    valid_result();
}
