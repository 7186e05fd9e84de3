//! What holds of every command: told files have one report, or one first fault, and never both.
ghost use Rattle.std.specs.Prelude.{◌≡◌, ℕ, List, [], Bool, false};
ghost use Rattle.command_line.specs.Words.{Form, Task, Options, run};
ghost use Rattle.endings.specs.Meanings.{Files, Lawful};
ghost use Rattle.top_call.specs.Commands.{meaning_of};

use generate_commands::laws::generate_lawful;
use grammar_commands::laws::{check_lawful, expand_lawful, types_lawful};
use line_commands::laws::{chart_lawful, explain_lawful, parse_lawful};
use profile_batch::laws::batch_lawful;
use scope_commands::laws::scope_lawful;
use self_tests::laws::self_test_lawful;
use transfer_commands::laws::transfer_lawful;

/// What holds of every command. It calls the law of each.
pub fn built_lawful()
    ensures { (form : Form) → Lawful (meaning_of form) }
{
    parse_lawful();
    chart_lawful();
    explain_lawful();
    generate_lawful();
    types_lawful();
    expand_lawful();
    check_lawful();
    self_test_lawful();
    scope_lawful();
    batch_lawful();
    transfer_lawful();
}

/// Where more isn't to be told, nothing is noted.
pub fn nothing_noted()
    ensures { (task : Task) (options : Options) → options.verbose ≡ false → (files : Files) (gaps : Bool) (lines : List (List ℕ)) (text : List ℕ)
        → (meaning_of (run task options)).notes files gaps lines text → text ≡ [] }
{}
