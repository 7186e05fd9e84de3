//! The types of a grammar, each with its immediate supertypes, as the lines of a report (Copestake 2002).
ghost use Rattle.std.specs.Prelude.{◌≡◌, ◌<◌, ◌≤◌, ◌++◌, ◌∷◌, map, IfOk, OnOk, All};
ghost use Rattle.type_hierarchy.specs.Table.{count_of, completed_count};
ghost use Rattle.type_hierarchy.specs.Supertypes.{numbers_of};
ghost use Rattle.command_files.specs.FaultTexts.{spaced};
ghost use Rattle.grammar_commands.specs.TypeReports.{name_at, type_line, type_lines};

use crate::NoMemory;
use std::alloc::Global;
use type_hierarchy::{Ty, Types};

// Adds a blank and a name to a line.
fn add_name(line: &mut Vec<u8>, name: &str) -> Result<(), NoMemory>
    ensures { OnOk result (line.new.items ≡ line.old.items ++ 32 ∷ name.now) }
{
    line.push(b' ')?;
    line.extend_from_slice(name.as_bytes())?;
    Ok(())
}

// Adds the names of these types to a line, each after a blank.
fn add_names(line: &mut Vec<u8>, table: &Types, types: &[Ty]) -> Result<(), NoMemory>
    requires { All (λ t. t.0 < count_of table.now) types.now }
    ensures { OnOk result (line.new.items ≡ line.old.items ++ spaced (map (name_at table.now) (numbers_of types.now))) }
{
    for t in types {
        add_name(line, table.name(*t))?;
    }
    Ok(())
}

// The line of a type: its name, and those of its immediate supertypes.
fn type_line(alloc: Global, table: &Types, t: Ty) -> Result<Vec<u8>, NoMemory>
    requires number_in { t.0 < count_of table.now }
    requires few { completed_count table.now ≤ count_of table.now }
    ensures { IfOk result (λ line. line.items ≡ type_line table.now t.0) }
{
    let above = table.supertypes(alloc, t)?;
    let mut line = Vec::from_slice(alloc, table.name(t).as_bytes())?;
    line.push(b':')?;
    add_names(&mut line, table, &above)?;
    line.push(b'\n')?;
    Ok(line)
}

/// The line of each completed type, in order, with its end.
pub fn type_lines(alloc: Global, table: &Types) -> Result<Vec<Vec<u8>>, NoMemory>
    ensures { IfOk result (λ lines. map (λ l. l.items) lines.items ≡ type_lines table.now) }
{
    let mut lines = Vec::new(alloc);
    for number in 0..table.counts().completed {
        lines.push(type_line(alloc, table, Ty(number))?)?;
    }
    Ok(lines)
}
