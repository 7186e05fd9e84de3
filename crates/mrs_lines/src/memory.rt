//! Lines of MRSs that were written, remembered by the full structures that they are of.

ghost use Rattle.std.specs.Prelude.{◌≡◌, length, IfOk, IfSome};
ghost use Rattle.fs_model.specs.Closure.{AreConsistent};
ghost use Rattle.tree_model.specs.Mothers.{Meant};
ghost use Rattle.tree_model.specs.Signs.{rule_system};
ghost use Rattle.book_signs.specs.Trees.{signs_of};
ghost use Rattle.rule_trees.specs.Mothers.{view_in, IsMade};
ghost use Rattle.mrs_places.specs.Paths.{paths_of};
ghost use Rattle.mrs_extract.specs.Asked.{ArePaths};
ghost use Rattle.mrs_lines.specs.Remembered.{IsLineIn};

use crate::NoMemory;
use crate::line::line_of_full;
use answer_memo::{Asked, Memo};
use book_signs::SignBook;
use fs_unify::Scratch;
use mrs_places::MrsPaths;
use rule_trees::FullStructure;
use std::alloc::Global;
use std::marker::Model;

/// The greatest weight of the lines that are kept, in words of some 24 bytes, so that this is about 6 MB.
const MOST_LINES: u64 = 262_144;

/// How many bytes of a line count as a word.
const BYTES_OF_WORD: usize = 24;

/// The lines of the MRSs of full structures.
#[derive(Drop)]
struct LinesOf<'a> {
    signs: &'a SignBook<'a>,
    paths: &'a MrsPaths,
}

impl<'a> Asked for LinesOf<'a> {
    ghost use Rattle.rule_trees.specs.Mothers.{view_in};
    ghost use Rattle.mrs_places.specs.Paths.{paths_of};
    ghost use Rattle.mrs_lines.specs.Remembered.{IsLineIn};

    type Key = FullStructure;

    type Told = Vec<u8>;

    ghost right = { λ s _ full line. IsLineIn (record { signs = s.signs.now; paths = paths_of s.paths.now }) (view_in s.signs.now full.graph) line.items };

    fn mark(&self, full: &FullStructure) -> u64 {
        full.mark()
    }

    fn weight(&self, full: &FullStructure, line: &Vec<u8>) -> u32 {
        let words = u32::try_from(line.len() / BYTES_OF_WORD).unwrap_or(u32::MAX);
        full.graph().nodes().saturating_add(words)
    }

    fn same(&self, full: &FullStructure, other: &FullStructure) -> bool {
        full.same(other, self.signs)
    }
}

/// Where the MRSs of a grammar's signs stand, with lines of MRSs that were written. In contracts it is the signs and the paths alone: what
/// is remembered enters into no line. One is made for a whole run, and threads may share it.
#[derive(Drop)]
pub struct MrsMemory<'a> {
    lines: Memo<LinesOf<'a>>,
}

impl<'a> Model for MrsMemory<'a> {
    ghost use Rattle.mrs_places.specs.Paths.{paths_of};
    ghost use Rattle.mrs_lines.specs.Remembered.{MrsSigns};

    ghost Value = { MrsSigns };

    ghost view = { λ s. record { signs = s.lines.signs.now; paths = paths_of s.lines.paths.now } };
}

impl<'a> MrsMemory<'a> {
    /// No line was written yet.
    pub fn new(
        alloc: Global,
        signs: &'a SignBook<'a>,
        paths: &'a MrsPaths,
    ) -> Result<MrsMemory<'a>, NoMemory>
        ensures { IfOk result (λ s. s ≡ record { signs = signs.now; paths = paths_of paths.now }) }
    {
        let lines = Memo::new(alloc, LinesOf { signs, paths }, MOST_LINES)?;
        Ok(MrsMemory { lines })
    }

    // The line of a full structure's MRS, where it was written already.
    fn known(&self, alloc: Global, full: &FullStructure) -> Result<Option<Vec<u8>>, NoMemory>
        ensures { IfOk result (λ o. IfSome o (λ line. IsLineIn self.now (view_in self.now.signs full.now.graph) line.items)) }
    {
        let Some(line) = self.lines.find(0, full) else {
            return Ok(None);
        };
        let copy = Vec::from_slice(alloc, line)?;
        Ok(Some(copy))
    }

    // Remembers the line of a full structure's MRS, where there is room.
    fn keep(&self, alloc: Global, full: &FullStructure, line: &[u8]) -> Result<(), NoMemory>
        requires { IsLineIn self.now (view_in self.now.signs full.now.graph) line.now }
    {
        if self.lines.is_full() {
            return Ok(());
        }
        let key = full.share()?;
        let copy = Vec::from_slice(alloc, line)?;
        self.lines.keep(alloc, 0, key, copy);
        Ok(())
    }

    /// The line of a full structure's MRS, or of the path that is missing in it first; it is written where it isn't remembered. The
    /// structure is an entry's or made by a rule, and what it means is consistent, as that of each tree's structure is.
    pub(crate) fn line(
        &self,
        alloc: Global,
        work: &mut Scratch,
        full: &FullStructure,
    ) -> Result<Vec<u8>, NoMemory>
        requires sound { AreConsistent (signs_of self.now.signs).system (Meant (rule_system (signs_of self.now.signs)) (view_in self.now.signs full.now.graph)) }
        requires made { IsMade (signs_of self.now.signs) (view_in self.now.signs full.now.graph) }
        requires paths { ArePaths self.now.signs.book.system.types self.now.paths }
        requires feats { length self.now.paths.feats ≡ length self.now.signs.book.system.introducers }
        ensures { IfOk result (λ line. IsLineIn self.now (view_in self.now.signs full.now.graph) line.items) }
    {
        if let Some(known) = self.known(alloc, full)? {
            return Ok(known);
        }
        let asked = self.lines.of();
        let line = line_of_full(alloc, work, asked.signs, asked.paths, full)?;
        self.keep(alloc, full, &line).ok();
        Ok(line)
    }
}
