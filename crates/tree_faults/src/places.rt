//! Places of nodes.

ghost use Rattle.std.specs.Prelude.{◌≡◌, ◌++◌, replicate, IfOk};

use crate::NoMemory;

/// So many steps within a lexical tree, added to its place.
pub(crate) fn go_within(place: &mut Vec<usize>, depth: usize) -> Result<(), NoMemory>
    ensures { IfOk result (λ _. place.new.items ≡ place.old.items ++ replicate depth 1) }
{
    for _step in 0..depth {
        place.push(1)?;
    }
    Ok(())
}
