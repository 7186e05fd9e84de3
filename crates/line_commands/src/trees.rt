//! The tree that a line writes, or where it stops to be one.

ghost use Rattle.std.specs.Prelude.{◌≡◌, ◌⊎◌, ◌<◌, ◌^◌, ℕ, IfOk, IfErr, length};
ghost use Rattle.std.specs.Str.{IsUtf8, IsValidUpTo};
ghost use Rattle.derivation.specs.Views.{derivation_of};
ghost use Rattle.tree_reading.specs.Texts.{IsTreeOf};
ghost use Rattle.tree_faults.specs.Lines.{IsNoTree};
ghost use Rattle.line_commands.specs.Inner.Trees.{IsFaultOf};

use derivation::Tree;
use std::alloc::Global;
use tree_reading::{TreeFault, TreeNames, read_tree};

// Why a line writes no tree that isn't UTF-8: its longest front that is UTF-8 writes none, or it writes one and the line goes on.
fn fault_in_front(alloc: Global, names: &TreeNames, line: &[u8], end: usize) -> TreeFault
    requires not_text { IsUtf8 line.now → ⊥ }
    requires front { IsValidUpTo line.now end }
    requires short { length line.now < 2 ^ 32 }
    ensures { IsFaultOf names.now line.now result }
{
    let Ok(front) = str::from_utf8(&line[..end]) else {
        unreachable!()
    };
    match read_tree(alloc, names, front) {
        Ok(_) => TreeFault::At { at: end as u32 },
        Err(fault) => fault,
    }
}

/// The tree that a line writes over the names; or the byte of the first fault. A line that isn't UTF-8 writes none. A line that is longer than
/// a `u32` can say counts as want of memory; no line of the program is.
pub(crate) fn tree_of_line(alloc: Global, names: &TreeNames, line: &[u8]) -> Result<Tree, TreeFault>
    ensures text { IfOk result (λ _. IsUtf8 line.now) }
    ensures tree { IfOk result (λ t. IsTreeOf names.now line.now (derivation_of t)) }
    ensures fault { IfErr result (IsFaultOf names.now line.now) }
{
    if line.len() > u32::MAX as usize {
        return Err(TreeFault::NoMemory);
    }
    match str::from_utf8(line) {
        Ok(text) => read_tree(alloc, names, text),
        Err(error) => Err(fault_in_front(alloc, names, line, error.valid_up_to())),
    }
}
