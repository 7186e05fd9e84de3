//! The lines of trees, each with that of its MRS.

ghost use Rattle.std.specs.Prelude.{◌≡◌, All, length, map, IfOk, string_bytes};
ghost use Rattle.derivation.specs.Text.{IsNamed};
ghost use Rattle.derivation.specs.Views.{derivation_of};
ghost use Rattle.tree_model.specs.Structures.{Structure};
ghost use Rattle.tree_model.specs.Items.{Trees};
ghost use Rattle.tree_model.specs.Trees.{Full};
ghost use Rattle.book_signs.specs.Trees.{signs_of};
ghost use Rattle.mrs_extract.specs.Asked.{ArePaths};
ghost use Rattle.mrs_lines.specs.Lines.{AreAnswerLines};
ghost use Rattle.mrs_lines.specs.Remembered.{semantics_in};

use crate::NoMemory;
use crate::line::line_of_tree;
use crate::memory::MrsMemory;
use derivation::Tree;
use fs_unify::Scratch;
use item_reports::{counts_line, tree_line};
use std::alloc::Global;
use tree_structures::{FullMemo, SharedFulls};

/// What lines of trees with their MRSs are written with: what is remembered of full structures and of lines of MRSs, where MRSs stand, and
/// the names of the grammar's instances.
#[derive(Clone, Copy)]
pub struct TreeLines<'a, 'k, 'm> {
    pub fulls: &'a SharedFulls<'a, 'k>,
    pub memory: &'a MrsMemory<'m>,
    pub names: &'a [String],
    /// Whether the nodes of lexical trees are written.
    pub nodes: bool,
}

/// `item N classes C readings K`, and for each tree a line with its text and one with its MRS, or with the path that is missing
/// first. The trees have full structures; what is remembered of these is asked, and what stands in several trees is unified once.
pub fn lines_of_trees(
    alloc: Global,
    work: &mut Scratch,
    lines: TreeLines<'_, '_, '_>,
    number: u64,
    classes: u32,
    trees: &[Tree],
) -> Result<Vec<Vec<u8>>, NoMemory>
    requires same { lines.memory.now.signs ≡ lines.fulls.now }
    requires named { All (λ t. IsNamed (length lines.names.now) (derivation_of t)) trees.now }
    requires full { All (λ t. (f : Structure) × Full (signs_of lines.fulls.now) (derivation_of t) f) trees.now }
    requires paths { ArePaths lines.fulls.now.book.system.types lines.memory.now.paths }
    requires feats { length lines.memory.now.paths.feats ≡ length lines.fulls.now.book.system.introducers }
    ensures { IfOk result (λ written. AreAnswerLines (signs_of lines.entry.fulls.now) (semantics_in lines.entry.memory.now)
        (map string_bytes lines.entry.names.now) lines.entry.nodes number (Trees classes (map derivation_of trees.now)) (map (λ l. l.items) written.items)) }
{
    let TreeLines {
        fulls,
        memory,
        names,
        nodes,
    } = lines;
    let mut memo = FullMemo::new(alloc);
    let mut written = Vec::new(alloc);
    written.push(counts_line(alloc, number, classes, trees.len())?)?;
    for tree in trees {
        written.push(tree_line(alloc, names, nodes, tree)?)?;
        written.push(line_of_tree(alloc, work, &mut memo, fulls, memory, tree)?)?;
    }
    Ok(written)
}
