//! The answers to lines that write MRSs.

use crate::NoMemory;
use chart_core::Limits;
use endings::lines::{Answer, Answers, Share};
use endings::pieces::Report;
use engine::Engine;
use engine::desks::Desks;
use grammar_rules::LineWork;
use mrs_generate::{Contributors, GenAnswer, GenGrammar, generate_alone};
use mrs_model::Mrs;
use mrs_places::MrsFeat;
use mrs_text::{MrsFault, read};
use sentence_reports::{report_of, report_of_no_mrs};
use sieve::{Sieve, TypesMeet};
use std::alloc::Global;
use std::sync::Wait;
use std::thread::Threads;
use worker_gate::Gate;

/// What answers MRSs by the sentences that realize them: an engine, and what its grammar contributes up to the limit on lexical rules.
#[derive(Drop)]
pub struct Generator<'e, 'r, 'k> {
    pub engine: Engine<'e, 'r, 'k>,
    pub contributors: &'e Contributors,
    /// Where the relations of rules stand.
    pub c_cont: &'e [MrsFeat],
    pub limits: Limits,
    /// What lines are worked out with where they are served.
    pub desks: Desks,
}

impl Generator<'_, '_, '_> {
    ghost use Rattle.std.specs.Prelude.{map, IfOk};
    ghost use Rattle.mrs_model.specs.Valid.{IsValid};
    ghost use Rattle.mrs_model.specs.Views.{meaning_of};
    ghost use Rattle.mrs_generate.specs.Views.{answer_seen};
    ghost use Rattle.generate_commands.specs.Answers.{IsAnswer, IsAnswerTo};
    ghost use Rattle.generate_commands.specs.Contributing.{IsReady, speaker_of, bounds_of};
    ghost use Rattle.generate_commands.specs.Inner.Generators.{IsReportOf};

    // The answer to an MRS. One worker finds it, who waits for nobody. One sieve is asked, the quick test of types at paths, and smaller
    // hosts come first.
    fn answer_to(
        &self,
        alloc: Global,
        work: &mut LineWork,
        mrs: &Mrs,
    ) -> Result<GenAnswer, NoMemory>
        requires ready { IsReady self.now }
        requires valid { IsValid (meaning_of mrs.now) }
        ensures { IfOk result (λ a. IsAnswerTo (speaker_of self.now) (bounds_of self.now) (meaning_of mrs.now) (answer_seen a)) }
    {
        self.engine.laws();
        let sieves = [Sieve::new(TypesMeet)];
        let grammar = GenGrammar {
            signs: self.engine.signs,
            shapes: self.engine.shapes.shapes(),
            lexicon: &self.engine.grammar.lexicon,
            spelling: &self.engine.grammar.spelling,
            contributors: self.contributors,
            paths: self.engine.paths,
            c_cont: self.c_cont,
        };
        let answer = generate_alone(alloc, work, &grammar, mrs, &self.limits, &sieves)?;
        Ok(answer)
    }

    // The report on the MRS that the line of this number writes.
    fn generated(
        &self,
        alloc: Global,
        work: &mut LineWork,
        number: u64,
        mrs: &Mrs,
    ) -> Result<Report, NoMemory>
        requires ready { IsReady self.now }
        requires valid { IsValid (meaning_of mrs.now) }
        ensures { IfOk result (λ r. IsReportOf self.now number (meaning_of mrs.now) (map (λ l. l.items) r.lines.items) r.refused) }
    {
        let answer = self.answer_to(alloc, work, mrs)?;
        report_of(alloc, number, &answer)
    }

    /// The report on the line of this number, by one worker, with a scratch nothing of which enters into it. It waits for nobody, so this
    /// call returns.
    pub fn answer_alone(
        &self,
        alloc: Global,
        work: &mut LineWork,
        number: u64,
        line: &[u8],
    ) -> Result<Report, NoMemory>
        requires ready { IsReady self.now }
        ensures { IfOk result (λ r. IsAnswer (speaker_of self.now) (bounds_of self.now) number line.now (map (λ l. l.items) r.lines.items) r.refused) }
    {
        match read(alloc, line) {
            Ok(mrs) => self.generated(alloc, work, number, &mrs),
            Err(MrsFault::At { at }) => report_of_no_mrs(alloc, number, at),
            Err(MrsFault::NoMemory) => Err(NoMemory),
        }
    }
}

impl Answers for Generator<'_, '_, '_> {
    ghost use Rattle.generate_commands.specs.Answers.{IsAnswer};
    ghost use Rattle.generate_commands.specs.Contributing.{IsReady, speaker_of, bounds_of};

    ghost ready = { λ p. IsReady p };

    ghost IsAnswer = { λ p. IsAnswer (speaker_of p) (bounds_of p) };

    fn workers(&self) -> u32 {
        self.desks.workers()
    }

    fn answer<Rt: Threads + Wait + Sync>(
        &self,
        rt: &Rt,
        alloc: Global,
        number: u64,
        line: &[u8],
        _share: Share,
        _gate: &dyn Gate,
    ) -> Result<Answer, endings::lines::NoMemory> {
        // (one worker answers a line, whatever its share of them is; a desk at which memory was wanting is let go, with all that it holds)
        let mut desk = self.desks.take(rt, alloc, Share::Single);
        match self.answer_alone(alloc, &mut desk.work, number, line) {
            Ok(report) => {
                self.desks.give_back(rt, Share::Single, desk);
                Ok(Answer {
                    report,
                    note: Vec::new(alloc),
                })
            }
            Err(_) => Err(endings::lines::NoMemory),
        }
    }
}
