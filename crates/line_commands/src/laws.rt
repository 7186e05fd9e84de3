//! What holds of `parse`, `chart` and `explain`: told files have one grammar or one first fault, and never both, and lines have one report.

ghost use Rattle.std.specs.Prelude.{ℕ, List, Option, Bool};
ghost use Rattle.tree_model.specs.Items.{Limits};
ghost use Rattle.endings.specs.Meanings.{Lawful};
ghost use Rattle.line_commands.specs.Answers.{Asked};
ghost use Rattle.line_commands.specs.Parsing.{parse_meaning};
ghost use Rattle.line_commands.specs.Charting.{chart_meaning};
ghost use Rattle.line_commands.specs.Explaining.{explain_meaning};

use book_signs::laws::one_signs;
use command_files::grammar_laws::grammar_laws;
use line_charts::chart_laws;
use morph_analysis::laws::one_line;
use mrs_lines::{loaded_names, mrs_line_laws};
use tree_faults::explained_laws;
use tree_model::{parse_laws, said_laws};
use tree_reading::tree_laws;

/// What holds of `parse`.
pub fn parse_lawful()
    ensures { (name : List ℕ) (settings : Option (List ℕ)) (verbose : Bool) (asked : Asked) → Lawful (parse_meaning name settings verbose asked) }
{
    grammar_laws();
    one_signs();
    said_laws();
    one_line();
    parse_laws();
    mrs_line_laws();
    chart_laws();
}

/// What holds of `chart`.
pub fn chart_lawful()
    ensures { (name : List ℕ) (settings : Option (List ℕ)) (verbose : Bool) (limits : Limits) (lexical : ℕ) (lattice : Bool) → Lawful (chart_meaning name settings verbose limits lexical lattice) }
{
    grammar_laws();
    one_signs();
    said_laws();
    one_line();
    chart_laws();
}

/// What holds of `explain`.
pub fn explain_lawful()
    ensures { (name : List ℕ) (settings : Option (List ℕ)) (verbose mrs : Bool) → Lawful (explain_meaning name settings verbose mrs) }
{
    grammar_laws();
    one_signs();
    said_laws();
    loaded_names();
    tree_laws();
    explained_laws();
    mrs_line_laws();
}
