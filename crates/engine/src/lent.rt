//! A grammar that is ready for lines.

ghost use Rattle.std.specs.Prelude.{◌≡◌, ◌<◌, ◌+◌, ◌^◌, length, IfOk};
ghost use Rattle.chart_core.specs.Kept.{InRange};
ghost use Rattle.morph_analysis.specs.Lattices.{IsValid};
ghost use Rattle.morph_analysis.specs.LatticeViews.{lattice_of};
ghost use Rattle.lexical_items.specs.Seen.{lattice_seen};
ghost use Rattle.tree_model.specs.Answers.{IsParseAnswer};
ghost use Rattle.packed_items.specs.Answers.{limits_in};
ghost use Rattle.grammar_load.specs.Views.{grammar_of};
ghost use Rattle.book_signs.specs.Trees.{signs_of};
ghost use Rattle.grammar_rules.specs.Lines.{HaveAll, IsLineGrammar, words_by};
ghost use Rattle.grammar_rules.specs.LineLeaves.{AreLineLeaves};
ghost use Rattle.grammar_rules.specs.Views.{item_answer};
ghost use Rattle.mrs_places.specs.Paths.{paths_of};
ghost use Rattle.engine.specs.Named.{AreNamed, AreFull, IsFew};
ghost use Rattle.engine.specs.Ready.{IsReady};
ghost use Rattle.engine.specs.Semantic.{ArePathsOf};
ghost use Rattle.engine.specs.Speeches.{IsSpeechOf};
ghost use Rattle.engine.specs.Views.{speech_of};

use crate::NoMemory;
use crate::desks::Desk;
use book_signs::SignBook;
use chart_core::Limits;
use chart_workers::BySize;
use grammar_load::Grammar;
use grammar_rules::{
    ItemAnswer, LineGrammar, LineLeaves, LineShapes, LineWork, RunMemory, Search, line_leaves,
};
use line_parsing::{parse_alone, parse_words};
use morph_analysis::{Feeds, Lattice};
use mrs_places::MrsPaths;
use sieve::{Sieve, TypesMeet};
use std::alloc::Global;
use std::sync::Wait;
use std::thread::Threads;
use tree_structures::SharedFulls;
use worker_gate::Gate;

/// What is made of a grammar once, and lent to whoever answers lines with it. Two lifetimes are its own, since what is remembered of shapes
/// and full structures can't be lent for less than it was made for.
#[derive(Clone, Copy)]
pub struct Engine<'e, 'r, 'k> {
    pub grammar: &'e Grammar,
    /// The structures of the instances, and their cuts.
    pub signs: &'e SignBook<'e>,
    /// The phrase rules over abstract structures. What they made of equal ones is remembered from one line to the next.
    pub shapes: &'e LineShapes<'e, 'r>,
    /// What lines share besides: full structures of lexical trees with their shapes, and what rules made of full structures.
    pub shared: &'e RunMemory<'k>,
    /// Which lexical rule may apply to what which gives.
    pub feeds: &'e Feeds,
    /// Where MRSs stand.
    pub paths: &'e MrsPaths,
}

impl<'r, 'k> Engine<'_, 'r, 'k> {
    /// What is known of an engine that is ready. Its grammar speaks as the engine does; lexicon and spelling have all entries and lexical
    /// rules of its signs; each instance and each feature has a name; and MRSs are looked for at paths of its signs. It does nothing.
    pub fn laws(&self)
        requires { IsReady self.now }
        ensures speech { IsSpeechOf (grammar_of self.now.grammar.now) (speech_of self.now) }
        ensures have { HaveAll self.now.signs.now self.now.grammar.now.lexicon self.now.grammar.now.spelling }
        ensures names { length self.now.grammar.now.names.items ≡ length (signs_of self.now.signs.now).instances }
        ensures feats { length self.now.grammar.now.book.feats.items ≡ length self.now.signs.now.book.system.introducers }
        ensures paths { ArePathsOf self.now.signs.now (paths_of self.now.paths.now) }
    {
        self.signs.laws();
    }

    /// What its lines are answered by.
    pub fn lines(&self) -> LineGrammar<'_, 'r, 'k>
        requires { IsReady self.now }
        ensures grammar { IsLineGrammar result }
        ensures signs { result.signs.now ≡ self.now.signs.now }
        ensures shapes { result.shapes.now ≡ self.now.shapes.now }
        ensures words { words_by result ≡ (speech_of self.now).words }
    {
        self.laws();
        LineGrammar {
            signs: self.signs,
            shapes: self.shapes,
            shared: self.shared,
            feeds: self.feeds,
            lexicon: &self.grammar.lexicon,
            spelling: &self.grammar.spelling,
        }
    }

    /// What its lines share of full structures, as trees ask for it.
    pub fn fulls(&self) -> SharedFulls<'_, 'k>
        requires { IsReady self.now }
        ensures { result ≡ self.now.signs.now }
    {
        let shared = self.shared;
        SharedFulls::new(shared.fulls(), shared.mothers())
    }

    /// The leaves of the chart of a lattice: all its lexical trees of at most `most` rules, with their shapes; or that there is one with
    /// exactly one rule more. `NoMemory` may come in place of any answer.
    pub fn leaves(
        &self,
        alloc: Global,
        desk: &mut Desk,
        lattice: &Lattice,
        most: u32,
    ) -> Result<LineLeaves<'r>, NoMemory>
        requires ready { IsReady self.now }
        requires valid { IsValid (lattice_of lattice.now) }
        requires most { most + 1 < 2 ^ 32 }
        ensures { IfOk result (AreLineLeaves self.now.signs.now self.now.shapes.now (speech_of self.now).words (lattice_of lattice.now) most) }
    {
        let grammar = self.lines();
        let leaves = line_leaves(alloc, &mut desk.work, &grammar, lattice, most)?;
        Ok(leaves)
    }

    /// The answer to a lattice of words within these limits: the limit that it breaks, or the number of packed classes and all licensed
    /// trees, each once, in the order of trees (Oepen and Carroll 2000). One worker finds it, who waits for nobody, so that this call
    /// returns. One sieve is asked, the quick test of types at paths, and smaller edges come first; neither changes an answer, nor does
    /// anything that is remembered. `NoMemory` may come in place of any answer.
    pub fn parse_alone(
        &self,
        alloc: Global,
        work: &mut LineWork,
        lattice: &Lattice,
        limits: &Limits,
    ) -> Result<ItemAnswer, NoMemory>
        requires ready { IsReady self.now }
        requires valid { IsValid (lattice_of lattice.now) }
        requires limits { InRange limits.now }
        ensures answer { IfOk result (λ a. IsParseAnswer (speech_of self.now).signs (speech_of self.now).words (lattice_seen (lattice_of lattice.now)) limits.now.lexical (limits_in limits.now) (item_answer a)) }
        ensures named { IfOk result (λ a. AreNamed (length self.now.grammar.now.names.items) (item_answer a)) }
        ensures full { IfOk result (λ a. AreFull (speech_of self.now).signs (item_answer a)) }
        ensures few { IfOk result (λ a. IsFew (item_answer a)) }
    {
        self.laws();
        let grammar = self.lines();
        let sieves = [Sieve::new(TypesMeet)];
        let answer = parse_alone(alloc, work, &grammar, lattice, limits, &sieves)?;
        Ok(answer)
    }

    /// What `parse_alone` answers, by the workers of the desk; where that has one, in the way of `parse_alone`.
    pub fn parse<Rt: Threads + Wait + Sync>(
        &self,
        rt: &Rt,
        alloc: Global,
        desk: &mut Desk,
        lattice: &Lattice,
        limits: &Limits,
        gate: &dyn Gate,
    ) -> Result<ItemAnswer, NoMemory>
        requires ready { IsReady self.now }
        requires valid { IsValid (lattice_of lattice.now) }
        requires limits { InRange limits.now }
        ensures answer { IfOk result (λ a. IsParseAnswer (speech_of self.now).signs (speech_of self.now).words (lattice_seen (lattice_of lattice.now)) limits.now.lexical (limits_in limits.now) (item_answer a)) }
        ensures named { IfOk result (λ a. AreNamed (length self.now.grammar.now.names.items) (item_answer a)) }
        ensures full { IfOk result (λ a. AreFull (speech_of self.now).signs (item_answer a)) }
        ensures few { IfOk result (λ a. IsFew (item_answer a)) }
    {
        if desk.crew.is_alone() {
            return self.parse_alone(alloc, &mut desk.work, lattice, limits);
        }
        self.laws();
        let grammar = self.lines();
        let sieves = [Sieve::new(TypesMeet)];
        let search = Search {
            limits,
            sieves: &sieves,
            priority: &BySize,
        };
        let answer = parse_words(rt, alloc, desk, &grammar, lattice, &search, gate)?;
        Ok(answer)
    }
}
