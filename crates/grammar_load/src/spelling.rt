//! The spelling of what was read.

ghost use Rattle.std.specs.Prelude.{◌≡◌, map, IfOk};
ghost use Rattle.grammar_files.specs.Placings.{placed_of};
ghost use Rattle.spelling_rules.specs.Trees.{AreBound};
ghost use Rattle.grammar_load.specs.Spellings.{lexical_rules, spellings_of};
ghost use Rattle.grammar_load.specs.Loaded.{spelling_said};

use crate::{irregular_lines, lexical_names, rules_written};
use grammar_files::Placed;
use lexicon::NoMemory;
use spelling_rules::Spelling;
use std::alloc::Global;

/// The spelling of the lexical rules that statements define, with the irregular forms of a text. More rules than a `u32` can
/// number count as want of memory.
pub(crate) fn spelling_of(
    alloc: Global,
    statements: &[Placed],
    irregular: &[u8],
) -> Result<Spelling, NoMemory>
    requires { AreBound (spellings_of (lexical_rules (map placed_of statements.now))) }
    ensures { IfOk result (λ s. s ≡ spelling_said (map placed_of statements.now) irregular.now) }
{
    let rules = rules_written(alloc, statements)?;
    let names = lexical_names(alloc, statements)?;
    if names.len() > u32::MAX as usize {
        return Err(NoMemory);
    }
    let lines = irregular_lines(alloc, &names, irregular)?;
    let spelling = Spelling::make(alloc, &rules, &lines)?;
    Ok(spelling)
}
