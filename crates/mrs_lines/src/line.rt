//! The line of one tree's MRS.

ghost use Rattle.std.specs.Prelude.{◌≡◌, ◌++◌, length, map, IfOk, OnOk, string_bytes};
ghost use Rattle.derivation.specs.Views.{derivation_of};
ghost use Rattle.fs_model.specs.Closure.{AreConsistent};
ghost use Rattle.tree_model.specs.Structures.{Structure};
ghost use Rattle.tree_model.specs.Mothers.{Meant};
ghost use Rattle.tree_model.specs.Signs.{rule_system};
ghost use Rattle.rule_trees.specs.Mothers.{view_in, IsMade};
ghost use Rattle.tree_model.specs.Trees.{Full};
ghost use Rattle.book_signs.specs.Trees.{signs_of};
ghost use Rattle.mrs_model.specs.Valid.{IsValid};
ghost use Rattle.mrs_model.specs.Views.{meaning_of};
ghost use Rattle.mrs_text.specs.Written.{upper};
ghost use Rattle.mrs_places.specs.Paths.{paths_of};
ghost use Rattle.mrs_places.specs.Looking.{Sought};
ghost use Rattle.mrs_model.specs.Meanings.{Meaning};
ghost use Rattle.mrs_extract.specs.Asked.{ArePaths, IsOf};
ghost use Rattle.mrs_extract.specs.Extraction.{Extracts};
ghost use Rattle.tree_structures.specs.Known.{IsRight};
ghost use Rattle.mrs_lines.specs.Lines.{mrs_line, no_mrs_line, sought_line, IsMrsLine};
ghost use Rattle.mrs_lines.specs.Remembered.{IsLineIn, semantics_in};

use crate::NoMemory;
use crate::memory::MrsMemory;
use book_signs::SignBook;
use derivation::Tree;
use fs_graph::Graph;
use fs_unify::Scratch;
use mrs_extract::extract;
use mrs_model::Mrs;
use mrs_places::{MrsPaths, NoMrs};
use mrs_text::write;
use rule_trees::FullStructure;
use std::alloc::Global;
use tree_structures::{FullMemo, SharedFulls, closed_of, full_of, structure_laws};

/// Two blanks and the text of an MRS.
pub fn line_of_mrs(alloc: Global, mrs: &Mrs) -> Result<Vec<u8>, NoMemory>
    requires { IsValid (meaning_of mrs.now) }
    ensures { IfOk result (λ line. line.items ≡ mrs_line (meaning_of mrs.now)) }
{
    let mut line = Vec::new(alloc);
    line.push(b' ')?;
    line.push(b' ')?;
    write(alloc, mrs, &mut line)?;
    line.push(b'\n')?;
    Ok(line)
}

// A name in upper case.
fn put_upper(name: &str, into: &mut Vec<u8>) -> Result<(), NoMemory>
    ensures { OnOk result (into.new.items ≡ into.old.items ++ upper name.now) }
{
    for byte in name.as_bytes() {
        into.push(byte.to_ascii_uppercase())?;
    }
    Ok(())
}

/// Two blanks and `no mrs at .PATH`: the path of the node that is missing first, its features in upper case.
pub fn line_of_no_mrs(alloc: Global, path: &[String]) -> Result<Vec<u8>, NoMemory>
    ensures { IfOk result (λ line. line.items ≡ no_mrs_line (map string_bytes path.now)) }
{
    let mut line = Vec::new(alloc);
    line.extend_from_slice(b"  no mrs at ")?;
    for name in path {
        line.push(b'.')?;
        put_upper(name, &mut line)?;
    }
    line.push(b'\n')?;
    Ok(line)
}

// The line of a graph's MRS, or of the path that is missing first.
fn line_of_graph(
    alloc: Global,
    signs: &SignBook<'_>,
    paths: &MrsPaths,
    graph: &Graph,
) -> Result<Vec<u8>, NoMemory>
    requires paths { ArePaths signs.now.book.system.types (paths_of paths.now) }
    requires of { IsOf signs.now.book.system.types (paths_of paths.now) graph.now }
    ensures { IfOk result (λ line. (outcome : Sought Meaning) × Extracts graph.now signs.now.book.system.types (paths_of paths.now) outcome × (line.items ≡ sought_line outcome)) }
{
    match extract(alloc, graph, signs.system().types(), paths) {
        Ok(mrs) => line_of_mrs(alloc, &mrs),
        Err(NoMrs::Absent { path }) => line_of_no_mrs(alloc, &path),
        Err(NoMrs::NoMemory) => Err(NoMemory),
    }
}

/// The line of a full structure's MRS, or of the path that is missing in it first. The structure is an entry's or made by a rule, and what it
/// means is consistent, as that of each tree's structure is.
pub(crate) fn line_of_full(
    alloc: Global,
    work: &mut Scratch,
    signs: &SignBook<'_>,
    paths: &MrsPaths,
    full: &FullStructure,
) -> Result<Vec<u8>, NoMemory>
    requires sound { AreConsistent (signs_of signs.now).system (Meant (rule_system (signs_of signs.now)) (view_in signs.now full.now.graph)) }
    requires made { IsMade (signs_of signs.now) (view_in signs.now full.now.graph) }
    requires paths { ArePaths signs.now.book.system.types (paths_of paths.now) }
    requires feats { length (paths_of paths.now).feats ≡ length signs.now.book.system.introducers }
    ensures { IfOk result (λ line. IsLineIn (record { signs = signs.now; paths = paths_of paths.now }) (view_in signs.now full.now.graph) line.items) }
{
    let graph = closed_of(alloc, work, signs, full)?;
    line_of_graph(alloc, signs, paths, &graph)
}

/// The line of a tree's MRS, or of the path that is missing first. The tree has a full structure; `lines` are those of the same grammar.
/// What is remembered of full structures and of lines enters into no line.
pub fn line_of_tree(
    alloc: Global,
    work: &mut Scratch,
    memo: &mut FullMemo,
    fulls: &SharedFulls<'_, '_>,
    lines: &MrsMemory<'_>,
    tree: &Tree,
) -> Result<Vec<u8>, NoMemory>
    requires right { IsRight fulls.now memo.old }
    requires same { lines.now.signs ≡ fulls.now }
    requires full { (f : Structure) × Full (signs_of fulls.now) (derivation_of tree.now) f }
    requires paths { ArePaths fulls.now.book.system.types lines.now.paths }
    requires feats { length lines.now.paths.feats ≡ length fulls.now.book.system.introducers }
    ensures right { IfOk result (λ _. IsRight fulls.now memo.new) }
    ensures line { IfOk result (λ line. IsMrsLine (signs_of fulls.now) (semantics_in lines.now) (derivation_of tree.now) line.items) }
{
    structure_laws();
    let Some(full) = full_of(alloc, work, memo, fulls, tree)? else {
        unreachable!()
    };
    let line = lines.line(alloc, work, &full)?;
    Ok(line)
}
