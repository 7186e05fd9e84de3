//! The names of instances.

ghost use Rattle.std.specs.Prelude.{◌≡◌, ◌++◌, [], ◌∷◌, map, string_bytes, IfOk, OnOk, if◌then◌else◌};
ghost use Rattle.grammar_files.specs.Placings.{placed_of};
ghost use Rattle.grammar_files.specs.Statements.{defines_instance, name_of, instances_in};
ghost use Rattle.grammar_load.specs.Spellings.{defines_lexical, lexical_rules, names_in};

use grammar_files::Placed;
use grammar_files::placed_statements::{defines_instance, is_status, name_of};
use lexicon::NoMemory;
use std::alloc::Global;
use tdl_reader::Status;

/// Whether a statement defines a lexical rule.
pub(crate) fn defines_lexical(placed: &Placed) -> bool
    ensures { result ≡ defines_lexical (placed_of placed.now) }
{
    defines_instance(placed) && is_status(placed.status, Status::LexRule)
}

// Adds the name of what a statement defines, where it is one that is asked for.
fn add_name(
    alloc: Global,
    out: &mut Vec<String>,
    placed: &Placed,
    asked: bool,
) -> Result<(), NoMemory>
    ensures { OnOk result (names_in out.new ≡ names_in out.old ++ (if asked then name_of (placed_of placed.now) ∷ [] else [])) }
{
    if asked {
        out.push(String::from_str(alloc, name_of(placed))?)?;
    }
    Ok(())
}

/// The names of the instances in order of place.
pub fn instance_names(alloc: Global, statements: &[Placed]) -> Result<Vec<String>, NoMemory>
    ensures { IfOk result (λ v. names_in v ≡ map name_of (instances_in (map placed_of statements.now))) }
{
    let mut out = Vec::new(alloc);
    for placed in statements {
        add_name(alloc, &mut out, placed, defines_instance(placed))?;
    }
    Ok(out)
}

/// The names of the lexical rules in order of place: by these, lexical rules are numbered from 0.
pub fn lexical_names(alloc: Global, statements: &[Placed]) -> Result<Vec<String>, NoMemory>
    ensures { IfOk result (λ v. names_in v ≡ map name_of (lexical_rules (map placed_of statements.now))) }
{
    let mut out = Vec::new(alloc);
    for placed in statements {
        add_name(alloc, &mut out, placed, defines_lexical(placed))?;
    }
    Ok(out)
}
