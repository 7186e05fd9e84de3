//! The report lines of an answer.

ghost use Rattle.std.specs.Prelude.{◌≡◌, ◌++◌, ◌∷◌, [], All, length, map, IfOk, string_bytes};
ghost use Rattle.derivation.specs.Text.{IsNamed};
ghost use Rattle.derivation.specs.Views.{derivation_of};
ghost use Rattle.item_reports.specs.Reports.{item_line, no_text_line, no_lattice_line, no_mrs_line, refused_line, counts, tree_line, trees_lines};

use derivation::{Tree, write};
use lexicon::NoMemory;
use std::alloc::Global;

/// `item N refused NAME`: the one line of an item that is refused, by the name of the limit that it breaks or of what isn't answered.
pub fn lines_of_refusal(alloc: Global, number: u64, name: &str) -> Result<Vec<Vec<u8>>, NoMemory>
    ensures { IfOk result (λ lines. map (λ l. l.items) lines.items ≡ refused_line number name.now ∷ []) }
{
    let line = format!(in alloc; "item {number} refused {name}\n")?;
    let mut lines = Vec::new(alloc);
    lines.push(line.into_bytes())?;
    Ok(lines)
}

/// `item N not-utf8`: the one line of a line that isn't UTF-8.
pub fn lines_of_no_text(alloc: Global, number: u64) -> Result<Vec<Vec<u8>>, NoMemory>
    ensures { IfOk result (λ lines. map (λ l. l.items) lines.items ≡ no_text_line number ∷ []) }
{
    let line = format!(in alloc; "item {number} not-utf8\n")?;
    let mut lines = Vec::new(alloc);
    lines.push(line.into_bytes())?;
    Ok(lines)
}

/// `item N no-lattice AT`: the one line of a line that writes no lattice; its first wrong item begins at this byte.
pub fn lines_of_no_lattice(alloc: Global, number: u64, at: u32) -> Result<Vec<Vec<u8>>, NoMemory>
    ensures { IfOk result (λ lines. map (λ l. l.items) lines.items ≡ no_lattice_line number at ∷ []) }
{
    let line = format!(in alloc; "item {number} no-lattice {at}\n")?;
    let mut lines = Vec::new(alloc);
    lines.push(line.into_bytes())?;
    Ok(lines)
}

/// `item N no-mrs AT`: the one line of a line that writes no MRS; its first fault stands at this byte.
pub fn lines_of_no_mrs(alloc: Global, number: u64, at: usize) -> Result<Vec<Vec<u8>>, NoMemory>
    ensures { IfOk result (λ lines. map (λ l. l.items) lines.items ≡ no_mrs_line number at ∷ []) }
{
    let line = format!(in alloc; "item {number} no-mrs {at}\n")?;
    let mut lines = Vec::new(alloc);
    lines.push(line.into_bytes())?;
    Ok(lines)
}

/// `item N classes C readings K`.
pub fn counts_line(
    alloc: Global,
    number: u64,
    classes: u32,
    readings: usize,
) -> Result<Vec<u8>, NoMemory>
    ensures { IfOk result (λ line. line.items ≡ item_line number (counts classes readings)) }
{
    let line = format!(in alloc; "item {number} classes {classes} readings {readings}\n")?;
    Ok(line.into_bytes())
}

/// Two blanks and a tree, with the nodes of its lexical trees where they are asked for.
pub fn tree_line(
    alloc: Global,
    names: &[String],
    nodes: bool,
    tree: &Tree,
) -> Result<Vec<u8>, NoMemory>
    requires { IsNamed (length names.now) (derivation_of tree.now) }
    ensures { IfOk result (λ line. line.items ≡ tree_line (map string_bytes names.now) nodes (derivation_of tree.now)) }
{
    line_within(alloc, names, nodes, tree, 0)
}

// The same in a vector that has room for so many bytes from the start.
fn line_within(
    alloc: Global,
    names: &[String],
    nodes: bool,
    tree: &Tree,
    room: usize,
) -> Result<Vec<u8>, NoMemory>
    requires { IsNamed (length names.now) (derivation_of tree.now) }
    ensures { IfOk result (λ line. line.items ≡ tree_line (map string_bytes names.now) nodes (derivation_of tree.now)) }
{
    let mut line = Vec::with_capacity(alloc, room)?;
    line.push(b' ')?;
    line.push(b' ')?;
    let Ok(()) = write(tree, names, nodes, &mut line) else {
        return Err(NoMemory);
    };
    line.push(b'\n')?;
    Ok(line)
}

/// `item N classes C readings K`, and a line for each tree: two blanks and its text, with the nodes of its lexical trees
/// where they are asked for.
pub fn lines_of_trees(
    alloc: Global,
    number: u64,
    classes: u32,
    trees: &[Tree],
    names: &[String],
    nodes: bool,
) -> Result<Vec<Vec<u8>>, NoMemory>
    requires { All (λ t. IsNamed (length names.now) (derivation_of t)) trees.now }
    ensures { IfOk result (λ lines. map (λ l. l.items) lines.items ≡ trees_lines (map string_bytes names.now) nodes number classes (map derivation_of trees.now)) }
{
    let mut lines = Vec::with_capacity(alloc, trees.len() + 1)?;
    lines.push(counts_line(alloc, number, classes, trees.len())?)?;
    // (the trees of a line have texts of much the same length)
    let mut room = 0;
    for tree in trees {
        let line = line_within(alloc, names, nodes, tree, room)?;
        room = line.len();
        lines.push(line)?;
    }
    Ok(lines)
}
