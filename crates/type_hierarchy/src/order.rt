//! What stands above a type, along parents.

ghost use Rattle.std.specs.Prelude.{◌≡◌, ℕ, ◌<◌, length, All, IfOk, OnOk};
ghost use Rattle.type_hierarchy.specs.Inner.Reach.{visited, IsReach, lists};

use std::alloc::{AllocError, Global};

// Marks each of the types that has no mark, and puts it on the stack.
fn visit(types: &[usize], seen: &mut Vec<bool>, stack: &mut Vec<usize>) -> Result<(), AllocError>
    requires { All (λ x. x < length seen.old.items) types.now }
    ensures { OnOk result ((seen.new.items, stack.new.items) ≡ visited types.now (seen.old.items, stack.old.items)) }
{
    for t in types {
        if !seen[*t] {
            seen[*t] = true;
            stack.push(*t)?;
        }
    }
    Ok(())
}

/// Marks the types that a type is below.
pub fn above(alloc: Global, parents: &[Vec<usize>], from: usize) -> Result<Vec<bool>, AllocError>
    requires range { All (λ row. All (λ x. x < length parents.now) row.items) parents.now }
    requires from_in { from < length parents.now }
    ensures { IfOk result (λ v. IsReach (lists parents.now) from v.items) }
{
    let mut seen = vec![in alloc; false; parents.len()]?;
    let mut stack = Vec::new(alloc);
    visit(&parents[from], &mut seen, &mut stack)?;
    while let Some(x) = stack.pop() {
        visit(&parents[x], &mut seen, &mut stack)?;
    }
    Ok(seen)
}
