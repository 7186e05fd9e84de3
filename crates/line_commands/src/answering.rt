//! The answers to lines by trees.

ghost use Rattle.chart_core.specs.Kept.{InRange};
ghost use Rattle.line_commands.specs.Remembered.{IsMrsMemoryOf};

use crate::NoMemory;
use crate::lattices::{NoLattice, lattice_of_line, report_of_no_lattice};
use crate::notes::{has_no_tree, note_line};
use chart_core::Limits;
use endings::lines::{Answer, Answers, Share};
use endings::pieces::Report;
use engine::Engine;
use engine::desks::{Desk, Desks};
use fs_unify::Scratch;
use grammar_rules::ItemAnswer;
use line_charts::unknown_words;
use line_reports::{report_of, report_with_mrs};
use morph_analysis::Lattice;
use mrs_lines::{MrsMemory, TreeLines};
use std::alloc::Global;
use std::sync::Wait;
use std::thread::Threads;
use worker_gate::Gate;

/// What answers lines by the trees that a grammar licenses for them.
#[derive(Drop)]
pub struct Parser<'e, 'r, 'k> {
    pub engine: Engine<'e, 'r, 'k>,
    pub limits: Limits,
    /// Whether a line writes a lattice.
    pub lattice: bool,
    /// Whether each tree is followed by its MRS.
    pub mrs: bool,
    /// Whether the unknown words of lines without a tree are noted.
    pub verbose: bool,
    /// What lines are worked out with where they are served.
    pub desks: Desks,
    /// The lines of MRSs that were written.
    pub lines: MrsMemory<'e>,
    ghost in_range: { InRange limits },
    ghost written: { IsMrsMemoryOf engine lines },
}

impl Parser<'_, '_, '_> {
    ghost use Rattle.std.specs.Prelude.{◌≡◌, ◌&&◌, ℕ, List, length, map, IfOk};
    ghost use Rattle.morph_analysis.specs.Lattices.{IsValid};
    ghost use Rattle.morph_analysis.specs.LatticeViews.{lattice_of};
    ghost use Rattle.lexical_items.specs.Seen.{lattice_seen};
    ghost use Rattle.tree_model.specs.Answers.{IsParseAnswer};
    ghost use Rattle.packed_items.specs.Answers.{limits_in};
    ghost use Rattle.grammar_rules.specs.Views.{item_answer};
    ghost use Rattle.item_reports.specs.Reports.{is_refused};
    ghost use Rattle.engine.specs.Named.{AreNamed, AreFull};
    ghost use Rattle.engine.specs.Ready.{IsReady};
    ghost use Rattle.engine.specs.Views.{speech_of};
    ghost use Rattle.line_commands.specs.Answers.{AreLinesOf, IsAnswer};
    ghost use Rattle.line_commands.specs.Inner.Lattices.{HasNoLattice};
    ghost use Rattle.line_commands.specs.Notes.{IsNote, has_no_tree};
    ghost use Rattle.line_commands.specs.Views.{asked_with};
    ghost use Rattle.line_commands.specs.Inner.Parsers.{asked_of, IsReportOf, IsNoteOf};

    // The report on an answer, whose trees have full structures and names.
    fn reported(
        &self,
        alloc: Global,
        work: &mut Scratch,
        number: u64,
        answer: &ItemAnswer,
    ) -> Result<Report, NoMemory>
        requires ready { IsReady self.now.engine }
        requires named { AreNamed (length self.now.engine.grammar.now.names.items) (item_answer answer.now) }
        requires full { AreFull (speech_of self.now.engine).signs (item_answer answer.now) }
        ensures lines { IfOk result (λ r. AreLinesOf self.now.mrs (speech_of self.now.engine) self.now.lattice number (item_answer answer.now) (map (λ l. l.items) r.lines.items)) }
        ensures refused { IfOk result (λ r. r.refused ≡ is_refused (item_answer answer.now)) }
    {
        let names: &[String] = &self.engine.grammar.names;
        if !self.mrs {
            return report_of(alloc, number, answer, names, self.lattice);
        }
        let fulls = self.engine.fulls();
        let lines = TreeLines {
            fulls: &fulls,
            memory: &self.lines,
            names,
            nodes: self.lattice,
        };
        report_with_mrs(alloc, work, number, answer, lines)
    }

    // Whether there is something to note of an answer.
    fn notes(&self, answer: &ItemAnswer) -> bool
        ensures { result ≡ (self.now.verbose && has_no_tree (item_answer answer.now)) }
    {
        self.verbose && has_no_tree(answer)
    }

    // The note on a lattice, by its answer. The leaves are asked for once more: most of what is known of them is remembered, and few lines
    // have no tree.
    fn noted(
        &self,
        alloc: Global,
        desk: &mut Desk,
        number: u64,
        lattice: &Lattice,
        answer: &ItemAnswer,
    ) -> Result<Vec<u8>, NoMemory>
        requires ready { IsReady self.now.engine }
        requires valid { IsValid (lattice_of lattice.now) }
        requires answer { IsParseAnswer (speech_of self.now.engine).signs (speech_of self.now.engine).words (lattice_seen (lattice_of lattice.now)) self.now.limits.lexical (limits_in self.now.limits) (item_answer answer.now) }
        ensures { IfOk result (λ note. IsNoteOf self.now number (lattice_of lattice.now) note.items) }
    {
        if !self.notes(answer) {
            return Ok(Vec::new(alloc));
        }
        let leaves = self
            .engine
            .leaves(alloc, desk, lattice, self.limits.lexical)?;
        let steps = unknown_words(alloc, lattice, &leaves)?;
        note_line(alloc, number, &steps)
    }

    // The answer to the lattice of the line of this number. One worker finds it, who waits for nobody.
    fn parsed(
        &self,
        alloc: Global,
        desk: &mut Desk,
        number: u64,
        lattice: &Lattice,
    ) -> Result<Answer, NoMemory>
        requires ready { IsReady self.now.engine }
        requires valid { IsValid (lattice_of lattice.now) }
        ensures report { IfOk result (λ a. IsReportOf self.now number (lattice_of lattice.now) (map (λ l. l.items) a.report.lines.items) a.report.refused) }
        ensures note { IfOk result (λ a. IsNoteOf self.now number (lattice_of lattice.now) a.note.items) }
    {
        let answer = self
            .engine
            .parse_alone(alloc, &mut desk.work, lattice, &self.limits)?;
        let report = self.reported(alloc, &mut desk.work.trees, number, &answer)?;
        let note = self.noted(alloc, desk, number, lattice, &answer)?;
        Ok(Answer { report, note })
    }

    // The answer to a line that has no lattice: it has no note.
    fn without_lattice(
        &self,
        alloc: Global,
        number: u64,
        why: NoLattice,
    ) -> Result<Answer, NoMemory>
        ensures report { IfOk result (λ a. (line : List ℕ) → HasNoLattice self.now.lattice line why
            → IsAnswer (speech_of self.now.engine) (asked_of self.now) number line (map (λ l. l.items) a.report.lines.items) a.report.refused) }
        ensures note { IfOk result (λ a. (line : List ℕ) → HasNoLattice self.now.lattice line why
            → IsNote self.now.verbose (speech_of self.now.engine) (asked_of self.now) number line a.note.items) }
    {
        let report = report_of_no_lattice(alloc, number, why)?;
        Ok(Answer {
            report,
            note: Vec::new(alloc),
        })
    }

    /// The answer to the line of this number, with its note, by one worker, at a desk nothing of which enters into it. It waits for nobody,
    /// so this call returns.
    pub fn answer_alone(
        &self,
        alloc: Global,
        desk: &mut Desk,
        number: u64,
        line: &[u8],
    ) -> Result<Answer, NoMemory>
        requires ready { IsReady self.now.engine }
        ensures report { IfOk result (λ a. IsAnswer (speech_of self.now.engine) (asked_with self.now.limits self.now.lattice self.now.mrs) number line.now (map (λ l. l.items) a.report.lines.items) a.report.refused) }
        ensures note { IfOk result (λ a. IsNote self.now.verbose (speech_of self.now.engine) (asked_with self.now.limits self.now.lattice self.now.mrs) number line.now a.note.items) }
    {
        match lattice_of_line(alloc, line, self.lattice) {
            Ok(lattice) => self.parsed(alloc, desk, number, &lattice),
            Err(why) => self.without_lattice(alloc, number, why),
        }
    }
}

impl Answers for Parser<'_, '_, '_> {
    ghost use Rattle.engine.specs.Ready.{IsReady};
    ghost use Rattle.engine.specs.Views.{speech_of};
    ghost use Rattle.line_commands.specs.Answers.{IsAnswer};
    ghost use Rattle.line_commands.specs.Notes.{IsNote};
    ghost use Rattle.line_commands.specs.Inner.Parsers.{asked_of};

    ghost ready = { λ p. IsReady p.engine };

    ghost IsAnswer = { λ p. IsAnswer (speech_of p.engine) (asked_of p) };

    ghost IsNote = { λ p. IsNote p.verbose (speech_of p.engine) (asked_of p) };

    fn workers(&self) -> u32 {
        self.desks.workers()
    }

    fn answer<Rt: Threads + Wait + Sync>(
        &self,
        rt: &Rt,
        alloc: Global,
        number: u64,
        line: &[u8],
        _share: Share,
        _gate: &dyn Gate,
    ) -> Result<Answer, endings::lines::NoMemory> {
        // (one worker answers a line, whatever its share of them is; a desk at which memory was wanting is let go, with all that it holds)
        let mut desk = self.desks.take(rt, alloc, Share::Single);
        match self.answer_alone(alloc, &mut desk, number, line) {
            Ok(answer) => {
                self.desks.give_back(rt, Share::Single, desk);
                Ok(answer)
            }
            Err(_) => Err(endings::lines::NoMemory),
        }
    }
}
