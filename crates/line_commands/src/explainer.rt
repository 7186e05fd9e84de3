//! What is told of the trees that lines write.

ghost use Rattle.std.specs.Prelude.{◌≡◌, ◌∷◌, [], true, map, IfOk};
ghost use Rattle.tree_faults.specs.Texts.{no_tree_line};
ghost use Rattle.line_commands.specs.Remembered.{IsMrsMemoryOf};

use crate::NoMemory;
use crate::trees::tree_of_line;
use derivation::Tree;
use endings::lines::{Answer, Answers, Share};
use endings::pieces::Report;
use engine::Engine;
use engine::desks::Desks;
use fs_unify::Scratch;
use mrs_lines::{MrsMemory, line_of_tree};
use std::alloc::Global;
use std::sync::Wait;
use std::thread::Threads;
use tree_faults::{Explanation, explained, explained_line, is_refused, no_tree_line};
use tree_names::{word_book, written_trees};
use tree_reading::{TreeFault, TreeNames};
use tree_structures::FullMemo;
use worker_gate::Gate;

// The report on a line that writes no tree, whose first fault stands at this byte.
fn report_of_no_tree(alloc: Global, number: u64, at: u32) -> Result<Report, NoMemory>
    ensures { IfOk result (λ r. (map (λ l. l.items) r.lines.items ≡ no_tree_line number at ∷ []) × (r.refused ≡ true)) }
{
    let Ok(line) = no_tree_line(alloc, number, at as usize) else {
        return Err(NoMemory);
    };
    let mut lines = Vec::new(alloc);
    lines.push(line)?;
    Ok(Report {
        lines,
        refused: true,
    })
}

/// What tells of the tree that a line writes whether a grammar licenses it, and if not, why not.
#[derive(Drop)]
pub struct Explainer<'e, 'r, 'k> {
    pub engine: Engine<'e, 'r, 'k>,
    /// What trees are written over: the names of the grammar's instances.
    pub names: TreeNames,
    /// Whether a licensed tree is followed by its MRS.
    pub mrs: bool,
    /// What lines are worked out with where they are served.
    pub desks: Desks,
    /// The lines of MRSs that were written.
    pub lines: MrsMemory<'e>,
    ghost written: { IsMrsMemoryOf engine lines },
}

impl Explainer<'_, '_, '_> {
    ghost use Rattle.std.specs.Prelude.{◌≡◌, ◌&&◌, not, map, IfOk};
    ghost use Rattle.type_hierarchy.specs.Decls.{texts};
    ghost use Rattle.derivation.specs.Views.{derivation_of};
    ghost use Rattle.tree_model.specs.Structures.{Structure};
    ghost use Rattle.tree_model.specs.Trees.{Full};
    ghost use Rattle.tree_reading.specs.Grammars.{IsOver};
    ghost use Rattle.tree_faults.specs.Texts.{is_refused};
    ghost use Rattle.tree_faults.specs.Views.{explanation_of};
    ghost use Rattle.tree_names.specs.TreeGrammars.{tree_grammar};
    ghost use Rattle.mrs_lines.specs.Lines.{IsMrsLine};
    ghost use Rattle.engine.specs.Ready.{IsReady};
    ghost use Rattle.engine.specs.Views.{speech_of};
    ghost use Rattle.line_commands.specs.Explaining.{IsExplainLine};
    ghost use Rattle.line_commands.specs.Views.{IsReadyToExplain};
    ghost use Rattle.line_commands.specs.Inner.Explainers.{IsToldOf, HasNames, line_told, AreLinesOf, IsReportOn};

    /// An explainer by an engine that is ready, whose trees are written over the names of its instances, is ready.
    pub fn made(&self)
        requires ready { IsReady self.now.engine }
        requires names { self.now.names ≡ tree_grammar (speech_of self.now.engine).signs (speech_of self.now.engine).names }
        ensures { IsReadyToExplain self.now }
    {}

    // What is told of a tree that is written over the names.
    fn told_of(
        &self,
        alloc: Global,
        work: &mut Scratch,
        tree: &Tree,
    ) -> Result<Explanation, NoMemory>
        requires ready { IsReadyToExplain self.now }
        requires over { IsOver self.now.names (derivation_of tree.now) }
        ensures told { IfOk result (λ e. IsToldOf self.now (derivation_of tree.now) (explanation_of e)) }
        ensures named { IfOk result (λ e. HasNames self.now (explanation_of e)) }
    {
        self.engine.laws();
        written_trees();
        let book = word_book(self.engine.grammar, self.engine.signs);
        match explained(alloc, work, self.engine.signs, &book, tree) {
            Ok(explanation) => Ok(explanation),
            Err(_) => Err(NoMemory),
        }
    }

    // The line of what is told, which has names.
    fn line_told(
        &self,
        alloc: Global,
        number: u64,
        explanation: &Explanation,
    ) -> Result<Vec<u8>, NoMemory>
        requires { HasNames self.now (explanation_of explanation.now) }
        ensures { IfOk result (λ l. l.items ≡ line_told self.now number (explanation_of explanation.now)) }
    {
        let grammar = self.engine.grammar;
        match explained_line(
            alloc,
            number,
            explanation,
            grammar.book.system.types(),
            &grammar.book.feats,
            &grammar.names,
        ) {
            Ok(line) => Ok(line),
            Err(_) => Err(NoMemory),
        }
    }

    // The line of a tree's MRS.
    fn line_of_mrs(
        &self,
        alloc: Global,
        work: &mut Scratch,
        tree: &Tree,
    ) -> Result<Vec<u8>, NoMemory>
        requires ready { IsReady self.now.engine }
        requires full { (f : Structure) × Full (speech_of self.now.engine).signs (derivation_of tree.now) f }
        ensures { IfOk result (λ l. IsMrsLine (speech_of self.now.engine).signs (speech_of self.now.engine).semantics (derivation_of tree.now) l.items) }
    {
        self.engine.laws();
        let mut memo = FullMemo::new(alloc);
        let fulls = self.engine.fulls();
        let line = line_of_tree(alloc, work, &mut memo, &fulls, &self.lines, tree)?;
        Ok(line)
    }

    // Whether the MRS of a tree of which this is told is asked for.
    fn asks_mrs(&self, explanation: &Explanation) -> bool
        ensures { result ≡ (self.now.mrs && not (is_refused (explanation_of explanation.now))) }
    {
        self.mrs && !is_refused(explanation)
    }

    // The lines of what is told of a tree: where MRSs are asked for, a licensed tree's is followed by that of its MRS.
    fn lines_told(
        &self,
        alloc: Global,
        work: &mut Scratch,
        number: u64,
        tree: &Tree,
        explanation: &Explanation,
    ) -> Result<Vec<Vec<u8>>, NoMemory>
        requires ready { IsReady self.now.engine }
        requires told { IsToldOf self.now (derivation_of tree.now) (explanation_of explanation.now) }
        requires named { HasNames self.now (explanation_of explanation.now) }
        ensures { IfOk result (λ lines. AreLinesOf self.now number (derivation_of tree.now) (explanation_of explanation.now) (map (λ l. l.items) lines.items)) }
    {
        let told = self.line_told(alloc, number, explanation)?;
        let mut lines = Vec::new(alloc);
        lines.push(told)?;
        if !self.asks_mrs(explanation) {
            return Ok(lines);
        }
        let mrs = self.line_of_mrs(alloc, work, tree)?;
        lines.push(mrs)?;
        Ok(lines)
    }

    // The report on the line of this number, which writes this tree.
    fn report_on(
        &self,
        alloc: Global,
        work: &mut Scratch,
        number: u64,
        tree: &Tree,
    ) -> Result<Report, NoMemory>
        requires ready { IsReadyToExplain self.now }
        requires over { IsOver self.now.names (derivation_of tree.now) }
        ensures { IfOk result (λ r. IsReportOn self.now number (derivation_of tree.now) (map (λ l. l.items) r.lines.items) r.refused) }
    {
        let explanation = self.told_of(alloc, work, tree)?;
        let lines = self.lines_told(alloc, work, number, tree, &explanation)?;
        let refused = is_refused(&explanation);
        Ok(Report { lines, refused })
    }

    /// The report on the line of this number, by one worker, with a scratch nothing of which enters into it. It waits for nobody, so this
    /// call returns.
    pub fn answer_alone(
        &self,
        alloc: Global,
        work: &mut Scratch,
        number: u64,
        line: &[u8],
    ) -> Result<Report, NoMemory>
        requires ready { IsReadyToExplain self.now }
        ensures { IfOk result (λ r. IsExplainLine self.now.engine.grammar.now.book.system.types (texts self.now.engine.grammar.now.book.feats.items) (speech_of self.now.engine) self.now.mrs
            number line.now (map (λ l. l.items) r.lines.items) r.refused) }
    {
        match tree_of_line(alloc, &self.names, line) {
            Ok(tree) => self.report_on(alloc, work, number, &tree),
            Err(TreeFault::At { at }) => report_of_no_tree(alloc, number, at),
            Err(TreeFault::NoMemory) => Err(NoMemory),
        }
    }
}

impl Answers for Explainer<'_, '_, '_> {
    ghost use Rattle.line_commands.specs.Views.{IsReadyToExplain};
    ghost use Rattle.line_commands.specs.Inner.Explainers.{IsLineOf};

    ghost ready = { λ x. IsReadyToExplain x };

    ghost IsAnswer = { λ x. IsLineOf x };

    fn workers(&self) -> u32 {
        self.desks.workers()
    }

    fn answer<Rt: Threads + Wait + Sync>(
        &self,
        rt: &Rt,
        alloc: Global,
        number: u64,
        line: &[u8],
        _share: Share,
        _gate: &dyn Gate,
    ) -> Result<Answer, endings::lines::NoMemory> {
        // (one worker answers a line, whatever its share of them is; a desk at which memory was wanting is let go, with all that it holds)
        let mut desk = self.desks.take(rt, alloc, Share::Single);
        match self.answer_alone(alloc, &mut desk.work.trees, number, line) {
            Ok(report) => {
                self.desks.give_back(rt, Share::Single, desk);
                Ok(Answer {
                    report,
                    note: Vec::new(alloc),
                })
            }
            Err(_) => Err(endings::lines::NoMemory),
        }
    }
}
