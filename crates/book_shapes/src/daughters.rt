//! The shapes that a grammar's instances must have: rules have their daughters (DELPH-IN TDL).

ghost use Rattle.std.specs.Prelude.{◌≡◌, ◌↔◌, map, option_map, IfOk, IsTrue};
ghost use Rattle.closed_lists.specs.Names.{names_of, IsReadable};
ghost use Rattle.book_shapes.specs.Daughters.{is_rule, MayHave, HasDaughters};

use crate::NoMemory;
use closed_lists::{ListNames, list_at};
use fs_graph::{Feat, Graph};
use std::alloc::Global;
use tdl_reader::Status;
use type_hierarchy::Types;

fn is_rule(status: Status) -> bool
    ensures { result ≡ is_rule status }
{
    match status {
        Status::Rule | Status::LexRule => true,
        _ => false,
    }
}

// Whether an instance of this status may have so many daughters.
fn may_have(status: Status, count: usize) -> bool
    ensures { IsTrue result ↔ MayHave status count }
{
    match status {
        Status::Rule => count >= 1 && count <= 4,
        Status::LexRule => count == 1,
        _ => true,
    }
}

/// Whether an instance, if it is a rule or a lexical rule, has its daughters in a closed list at a path from the root: 1 to 4
/// for a rule, and 1 for a lexical rule. No path of the structure is longer than the limit.
pub fn has_daughters(
    alloc: Global,
    types: &Types,
    names: &ListNames,
    args_path: &[Option<Feat>],
    status: Status,
    structure: &Graph,
    limit: u32,
) -> Result<bool, NoMemory>
    requires { IsReadable types.now (names_of names.now) limit structure.now }
    ensures { IfOk result (λ b. IsTrue b ↔ HasDaughters types.now (names_of names.now) (map (option_map (λ f. f.0)) args_path.now) status structure.now) }
{
    if !is_rule(status) {
        return Ok(true);
    }
    match list_at(alloc, types, names, structure, args_path, limit)? {
        None => Ok(false),
        Some(daughters) => Ok(may_have(status, daughters.len())),
    }
}
