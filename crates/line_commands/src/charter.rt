//! The answers to lines by packed forests.

ghost use Rattle.chart_core.specs.Kept.{InRange};

use crate::NoMemory;
use crate::lattices::{lattice_of_line, report_of_no_lattice};
use chart_core::Limits;
use endings::lines::{Answer, Answers, Share};
use endings::pieces::Report;
use engine::Engine;
use engine::desks::{Desk, Desks};
use line_charts::{ChartAnswer, ChartGrammar, is_refused, line_chart, lines_of_chart};
use morph_analysis::Lattice;
use std::alloc::Global;
use std::sync::Wait;
use std::thread::Threads;
use worker_gate::Gate;

/// What answers lines by the packed forests that a grammar has for them.
#[derive(Drop)]
pub struct Charter<'e, 'r, 'k> {
    pub engine: Engine<'e, 'r, 'k>,
    pub limits: Limits,
    /// Whether a line writes a lattice.
    pub lattice: bool,
    /// What lines are worked out with where they are served.
    pub desks: Desks,
    ghost in_range: { InRange limits },
}

impl Charter<'_, '_, '_> {
    ghost use Rattle.std.specs.Prelude.{◌≡◌, length, map, IfOk};
    ghost use Rattle.morph_analysis.specs.Lattices.{IsValid};
    ghost use Rattle.morph_analysis.specs.LatticeViews.{lattice_of};
    ghost use Rattle.type_hierarchy.specs.Decls.{texts};
    ghost use Rattle.packed_items.specs.Answers.{limits_in};
    ghost use Rattle.line_charts.specs.Texts.{chart_lines, is_refused};
    ghost use Rattle.line_charts.specs.Views.{chart_answer, IsChartNamed};
    ghost use Rattle.engine.specs.Ready.{IsReady};
    ghost use Rattle.engine.specs.Views.{speech_of};
    ghost use Rattle.line_commands.specs.Charting.{IsChartLine};
    ghost use Rattle.line_commands.specs.Inner.Charters.{types_in, IsForestOf, IsReportOf};

    // The answer to a lattice, by the leaves of its chart.
    fn answer_to(
        &self,
        alloc: Global,
        desk: &mut Desk,
        lattice: &Lattice,
    ) -> Result<ChartAnswer, NoMemory>
        requires ready { IsReady self.now.engine }
        requires valid { IsValid (lattice_of lattice.now) }
        ensures answer { IfOk result (λ a. IsForestOf self.now (lattice_of lattice.now) (chart_answer a)) }
        ensures named { IfOk result (λ a. IsChartNamed (types_in self.now.engine) (length self.now.engine.grammar.now.names.items) (chart_answer a)) }
    {
        self.engine.laws();
        let leaves = self
            .engine
            .leaves(alloc, desk, lattice, self.limits.lexical)?;
        let charts = ChartGrammar {
            signs: self.engine.signs,
            shapes: self.engine.shapes,
            feats: &self.engine.grammar.book.feats,
        };
        let work = &mut desk.work.chart;
        match line_chart(alloc, work, &charts, lattice, leaves, &self.limits) {
            Ok(answer) => Ok(answer),
            Err(_) => Err(NoMemory),
        }
    }

    // The report on an answer, whose types, trees and rules have names.
    fn reported(&self, alloc: Global, number: u64, answer: &ChartAnswer) -> Result<Report, NoMemory>
        requires { IsChartNamed (types_in self.now.engine) (length self.now.engine.grammar.now.names.items) (chart_answer answer.now) }
        ensures lines { IfOk result (λ r. map (λ l. l.items) r.lines.items ≡ chart_lines (types_in self.now.engine) (speech_of self.now.engine).names self.now.lattice number (chart_answer answer.now)) }
        ensures refused { IfOk result (λ r. r.refused ≡ is_refused (chart_answer answer.now)) }
    {
        let grammar = self.engine.grammar;
        match lines_of_chart(
            alloc,
            number,
            answer,
            grammar.book.system.types(),
            &grammar.names,
            self.lattice,
        ) {
            Ok(lines) => Ok(Report {
                lines,
                refused: is_refused(answer),
            }),
            Err(_) => Err(NoMemory),
        }
    }

    // The report on the lattice of the line of this number. One worker fills its chart.
    fn charted(
        &self,
        alloc: Global,
        desk: &mut Desk,
        number: u64,
        lattice: &Lattice,
    ) -> Result<Report, NoMemory>
        requires ready { IsReady self.now.engine }
        requires valid { IsValid (lattice_of lattice.now) }
        ensures { IfOk result (λ r. IsReportOf self.now number (lattice_of lattice.now) (map (λ l. l.items) r.lines.items) r.refused) }
    {
        let answer = self.answer_to(alloc, desk, lattice)?;
        self.reported(alloc, number, &answer)
    }

    /// The report on the line of this number, by one worker, at a desk nothing of which enters into it. It waits for nobody, so this call
    /// returns.
    pub fn answer_alone(
        &self,
        alloc: Global,
        desk: &mut Desk,
        number: u64,
        line: &[u8],
    ) -> Result<Report, NoMemory>
        requires ready { IsReady self.now.engine }
        ensures { IfOk result (λ r. IsChartLine self.now.engine.grammar.now.book.system.types (texts self.now.engine.grammar.now.book.feats.items) (speech_of self.now.engine) (limits_in self.now.limits)
            self.now.limits.lexical self.now.lattice number line.now (map (λ l. l.items) r.lines.items) r.refused) }
    {
        match lattice_of_line(alloc, line, self.lattice) {
            Ok(lattice) => self.charted(alloc, desk, number, &lattice),
            Err(why) => report_of_no_lattice(alloc, number, why),
        }
    }
}

impl Answers for Charter<'_, '_, '_> {
    ghost use Rattle.engine.specs.Ready.{IsReady};
    ghost use Rattle.line_commands.specs.Inner.Charters.{IsLineOf};

    ghost ready = { λ c. IsReady c.engine };

    ghost IsAnswer = { λ c. IsLineOf c };

    fn workers(&self) -> u32 {
        self.desks.workers()
    }

    fn answer<Rt: Threads + Wait + Sync>(
        &self,
        rt: &Rt,
        alloc: Global,
        number: u64,
        line: &[u8],
        _share: Share,
        _gate: &dyn Gate,
    ) -> Result<Answer, endings::lines::NoMemory> {
        // (one worker answers a line, whatever its share of them is; a desk at which memory was wanting is let go, with all that it holds)
        let mut desk = self.desks.take(rt, alloc, Share::Single);
        match self.answer_alone(alloc, &mut desk, number, line) {
            Ok(report) => {
                self.desks.give_back(rt, Share::Single, desk);
                Ok(Answer {
                    report,
                    note: Vec::new(alloc),
                })
            }
            Err(_) => Err(endings::lines::NoMemory),
        }
    }
}
