//! An item of a profile, by what a grammar gives for its sentence.

ghost use Rattle.std.specs.Prelude.{◌≡◌, ℕ, ◌<◌, ◌^◌, All, true, false, length, map, IfOk, string_bytes};
ghost use Rattle.tree_model.specs.Items.{Trees};
ghost use Rattle.derivation.specs.Text.{IsNamed, text_of};
ghost use Rattle.derivation.specs.Views.{derivation_of};
ghost use Rattle.grammar_rules.specs.Views.{item_answer};
ghost use Rattle.engine.specs.Named.{AreNamed, IsFew};
ghost use Rattle.profile_reports.specs.Views.{Keeps, HasTexts, texts_kept};
ghost use Rattle.profile_batch.specs.Results.{outcome_of};

use chart_core::Limits;
use derivation::{Tree, write};
use endings::lines::Share;
use engine::desks::Desks;
use engine::{Engine, lattice_of_words};
use grammar_rules::ItemAnswer;
use profile_reports::{Came, Got, ItemResult, NoMemory, ProfileItem, result_of};
use side_by_side::Work;
use std::alloc::Global;
use std::sync::Wait;
use std::thread::Threads;
use worker_gate::OpenGate;

/// What judges items: an engine, the limits of each item, and desks of one worker.
#[derive(Drop)]
pub(crate) struct Judge<'e, 'r, 'k> {
    pub(crate) engine: Engine<'e, 'r, 'k>,
    pub(crate) limits: Limits,
    pub(crate) desks: Desks,
}

// The text of a tree, without nodes.
fn text_of_tree(alloc: Global, names: &[String], tree: &Tree) -> Result<Vec<u8>, NoMemory>
    requires { IsNamed (length names.now) (derivation_of tree.now) }
    ensures { IfOk result (λ text. text.items ≡ text_of (map string_bytes names.now) false (derivation_of tree.now)) }
{
    let mut text = Vec::new(alloc);
    match write(tree, names, false, &mut text) {
        Ok(()) => Ok(text),
        Err(_) => Err(NoMemory),
    }
}

// The texts of trees, without nodes.
fn texts_of_trees(alloc: Global, names: &[String], trees: &[Tree]) -> Result<Vec<Vec<u8>>, NoMemory>
    requires { All (λ t. IsNamed (length names.now) (derivation_of t)) trees.now }
    ensures { IfOk result (λ texts. map (λ t. t.items) texts.items ≡ map (text_of (map string_bytes names.now) false) (map derivation_of trees.now)) }
{
    let mut texts = Vec::with_capacity(alloc, trees.len())?;
    for tree in trees {
        texts.push(text_of_tree(alloc, names, tree)?)?;
    }
    Ok(texts)
}

// What came of trees: their texts where they are wanted, and else how many they are.
fn came_of_trees(
    alloc: Global,
    names: &[String],
    trees: &[Tree],
    wanted: bool,
) -> Result<Came, NoMemory>
    requires named { All (λ t. IsNamed (length names.now) (derivation_of t)) trees.now }
    requires few { length trees.now < 2 ^ 32 }
    ensures kept { IfOk result (λ came. (classes : ℕ) → Keeps came (outcome_of (map string_bytes names.now) (Trees classes (map derivation_of trees.now)))) }
    ensures texts { IfOk result (λ came. wanted ≡ true → HasTexts came) }
    ensures few { IfOk result (λ came. length (texts_kept came) < 2 ^ 32) }
{
    if !wanted {
        return Ok(Came::Readings {
            count: trees.len() as u32,
        });
    }
    let texts = texts_of_trees(alloc, names, trees)?;
    Ok(Came::Trees { texts })
}

// What an answer is to a profile. The texts of its trees are made only where they are wanted.
fn came_of(
    alloc: Global,
    names: &[String],
    answer: &ItemAnswer,
    wanted: bool,
) -> Result<Came, NoMemory>
    requires named { AreNamed (length names.now) (item_answer answer.now) }
    requires few { IsFew (item_answer answer.now) }
    ensures kept { IfOk result (λ came. Keeps came (outcome_of (map string_bytes names.now) (item_answer answer.now))) }
    ensures texts { IfOk result (λ came. wanted ≡ true → HasTexts came) }
    ensures few { IfOk result (λ came. length (texts_kept came) < 2 ^ 32) }
{
    match answer {
        ItemAnswer::LexicalDepth => Ok(Came::LexicalDepth),
        ItemAnswer::UnaryChain => Ok(Came::UnaryChain),
        ItemAnswer::Edges => Ok(Came::Edges),
        ItemAnswer::Readings => Ok(Came::TooManyReadings),
        ItemAnswer::Trees { trees, .. } => came_of_trees(alloc, names, trees, wanted),
    }
}

impl Judge<'_, '_, '_> {
    ghost use Rattle.std.specs.Prelude.{◌≡◌, ◌<◌, ◌^◌, true, length, map, IfOk};
    ghost use Rattle.std.specs.Thread.{IsSync};
    ghost use Rattle.std.specs.Str.{chars};
    ghost use Rattle.chart_core.specs.Kept.{InRange};
    ghost use Rattle.packed_items.specs.Answers.{limits_in};
    ghost use Rattle.lexical_items.specs.Seen.{lattice_seen};
    ghost use Rattle.tree_model.specs.Answers.{IsParseAnswer};
    ghost use Rattle.tree_model.specs.Items.{Answer};
    ghost use Rattle.engine.specs.Ready.{IsReady};
    ghost use Rattle.engine.specs.Speeches.{lattice_of_words};
    ghost use Rattle.engine.specs.Views.{speech_of};
    ghost use Rattle.profile_reports.specs.declared.profiles.Expected.{Expected};
    ghost use Rattle.profile_reports.specs.Profiles.{an_item};
    ghost use Rattle.profile_reports.specs.Views.{Keeps, HasTexts, texts_kept};
    ghost use Rattle.profile_reports.specs.ItemsViews.{item_kept};
    ghost use Rattle.profile_batch.specs.Results.{outcome_of, IsResult, IsResultOrGap};
    ghost use Rattle.profile_batch.specs.Views.{trees_of};

    // What came of a sentence.
    fn came<Rt: Threads + Wait + Sync>(
        &self,
        rt: &Rt,
        alloc: Global,
        sentence: &str,
        wanted: bool,
    ) -> Result<Came, NoMemory>
        requires sync { IsSync Rt.row }
        requires ready { IsReady self.now.engine }
        requires limits { InRange self.now.limits }
        ensures kept { IfOk result (λ came. (answer : Answer)
            × IsParseAnswer (speech_of self.now.engine).signs (speech_of self.now.engine).words (lattice_seen (lattice_of_words (chars sentence.now))) self.now.limits.lexical (limits_in self.now.limits) answer
            × Keeps came (outcome_of (speech_of self.now.engine).names answer)) }
        ensures texts { IfOk result (λ came. wanted ≡ true → HasTexts came) }
        ensures few { IfOk result (λ came. length (texts_kept came) < 2 ^ 32) }
    {
        let Ok(lattice) = lattice_of_words(alloc, sentence) else {
            return Err(NoMemory);
        };
        let mut desk = self.desks.take(rt, alloc, Share::Single);
        // (the gate of the run was told of the item's place)
        let Ok(answer) = self
            .engine
            .parse(rt, alloc, &mut desk, &lattice, &self.limits, &OpenGate)
        else {
            return Err(NoMemory);
        };
        self.desks.give_back(rt, Share::Single, desk);
        came_of(alloc, &self.engine.grammar.names, &answer, wanted)
    }

    // The result of the item at a place that isn't bad.
    fn compared<Rt: Threads + Wait + Sync>(
        &self,
        rt: &Rt,
        alloc: Global,
        place: u32,
        sentence: &str,
        trees: &[Vec<u8>],
    ) -> Result<ItemResult, NoMemory>
        requires sync { IsSync Rt.row }
        requires ready { IsReady self.now.engine }
        requires limits { InRange self.now.limits }
        requires few { length trees.now < 2 ^ 32 }
        ensures { IfOk result (λ r. (expected : Expected)
            → IsResult (speech_of self.now.engine) (limits_in self.now.limits) self.now.limits.lexical place (an_item expected sentence.now (map (λ t. t.items) trees.now)) r) }
    {
        let came = self.came(rt, alloc, sentence, !trees.is_empty())?;
        result_of(alloc, place, trees, &came)
    }

    // What is found of the item at a place that isn't bad: its result, or that memory was wanting for it.
    fn found<Rt: Threads + Wait + Sync>(
        &self,
        rt: &Rt,
        alloc: Global,
        place: u32,
        sentence: &str,
        trees: &[Vec<u8>],
    ) -> ItemResult
        requires sync { IsSync Rt.row }
        requires ready { IsReady self.now.engine }
        requires limits { InRange self.now.limits }
        requires few { length trees.now < 2 ^ 32 }
        ensures { (expected : Expected)
            → IsResultOrGap (speech_of self.now.engine) (limits_in self.now.limits) self.now.limits.lexical place (an_item expected sentence.now (map (λ t. t.items) trees.now)) result }
    {
        match self.compared(rt, alloc, place, sentence, trees) {
            Ok(found) => found,
            Err(_) => ItemResult::plain(place, Got::NoMemory),
        }
    }

    /// What is found of the item at a place: its result, or that memory was wanting for it.
    pub(crate) fn judged<Rt: Threads + Wait + Sync>(
        &self,
        rt: &Rt,
        alloc: Global,
        place: u32,
        item: &ProfileItem,
    ) -> ItemResult
        requires sync { IsSync Rt.row }
        requires ready { IsReady self.now.engine }
        requires limits { InRange self.now.limits }
        requires few { trees_of item.now < 2 ^ 32 }
        ensures { IsResultOrGap (speech_of self.now.engine) (limits_in self.now.limits) self.now.limits.lexical place (item_kept item.now) result }
    {
        let bad = ItemResult::plain(place, Got::Bad);
        match item {
            ProfileItem::TooLong => bad,
            ProfileItem::NotUtf8 => bad,
            ProfileItem::NoItem => bad,
            ProfileItem::Item {
                expected: _,
                sentence,
                trees,
            } => self.found(rt, alloc, place, sentence, trees),
        }
    }
}

impl Work<ProfileItem, ItemResult> for Judge<'_, '_, '_> {
    ghost use Rattle.std.specs.Prelude.{◌<◌, ◌^◌};
    ghost use Rattle.chart_core.specs.Kept.{InRange};
    ghost use Rattle.packed_items.specs.Answers.{limits_in};
    ghost use Rattle.engine.specs.Ready.{IsReady};
    ghost use Rattle.engine.specs.Views.{speech_of};
    ghost use Rattle.profile_reports.specs.ItemsViews.{item_kept};
    ghost use Rattle.profile_batch.specs.Results.{IsResultOrGap};
    ghost use Rattle.profile_batch.specs.Views.{trees_of};

    ghost ready = { λ j place item. IsReady j.engine × InRange j.limits × (place < 2 ^ 32) × (trees_of item < 2 ^ 32) };

    ghost Gives = { λ j place item r. IsResultOrGap (speech_of j.engine) (limits_in j.limits) j.limits.lexical place (item_kept item) r };

    fn perform<Rt: Threads + Wait + Sync>(
        &self,
        rt: &Rt,
        alloc: Global,
        place: u64,
        item: &ProfileItem,
    ) -> Result<ItemResult, NoMemory> {
        Ok(self.judged(rt, alloc, place as u32, item))
    }
}
