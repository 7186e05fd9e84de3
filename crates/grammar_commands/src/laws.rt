//! What holds of the commands: files that are told have one report or one first fault, and never both.
ghost use Rattle.std.specs.Prelude.{ℕ, ◌↔◌, List, Option, Bool};
ghost use Rattle.command_files.specs.Grammars.{HasGrammar};
ghost use Rattle.endings.specs.Meanings.{Files, Lawful};
ghost use Rattle.grammar_load.specs.Loaded.{GrammarTree};
ghost use Rattle.grammar_commands.specs.Accepted.{AreGraphs, IsAccepted};
ghost use Rattle.grammar_commands.specs.Commands.{types_meaning, check_meaning, expand_meaning};

use command_files::grammar_laws::grammar_laws;
use fs_graph::path_laws;

/// What holds of `types`.
pub fn types_lawful()
    ensures { (name : List ℕ) (settings : Option (List ℕ)) (verbose : Bool) → Lawful (types_meaning name settings verbose) }
{
    grammar_laws();
}

/// What holds of `check`.
pub fn check_lawful()
    ensures { (name : List ℕ) (settings : Option (List ℕ)) (verbose : Bool) → Lawful (check_meaning name settings verbose) }
{
    grammar_laws();
}

/// What holds of `expand`.
pub fn expand_lawful()
    ensures { (name entry : List ℕ) (settings : Option (List ℕ)) (verbose : Bool) → Lawful (expand_meaning name entry settings verbose) }
{
    grammar_laws();
    path_laws();
}

/// Which grammars are accepted: exactly those that files have in plain words, and whose structures are graphs. What the program asks of a
/// grammar beside that before it works with it follows: that all types and features are in range, that nothing is said of the top type, and
/// that structures are well formed.
pub fn accepted_grammars()
    ensures { (files : Files) (name : List ℕ) (settings : Option (List ℕ)) (g : GrammarTree) → IsAccepted files name settings g ↔ (HasGrammar files name settings g × AreGraphs g.book) }
{}
