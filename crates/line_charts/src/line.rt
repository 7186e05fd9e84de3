//! The packed forest of a line.

ghost use Rattle.std.specs.Prelude.{◌≡◌, ℕ, length, map, string_bytes, IfOk};
ghost use Rattle.chart_core.specs.Kept.{InRange};
ghost use Rattle.morph_analysis.specs.Lattices.{IsValid};
ghost use Rattle.morph_analysis.specs.LatticeViews.{lattice_of, step_of};
ghost use Rattle.tree_model.specs.Lexical.{Words};
ghost use Rattle.tree_model.specs.Licensed.{IsTooDeep};
ghost use Rattle.book_signs.specs.Trees.{SignTree, signs_of};
ghost use Rattle.grammar_shapes.specs.declared.shapes.GrammarShapes.{GrammarShapes};
ghost use Rattle.packed_items.specs.Answers.{limits_in};
ghost use Rattle.lexical_items.specs.Seen.{lattice_seen, step_seen};
ghost use Rattle.grammar_rules.specs.LineLeaves.{AreLineLeaves};
ghost use Rattle.line_charts.specs.Unknown.{AreUnknown};
ghost use Rattle.line_charts.specs.Answers.{IsChartAnswer};
ghost use Rattle.line_charts.specs.Charted.{answer_by};
ghost use Rattle.line_charts.specs.Grammars.{IsChartGrammar};
ghost use Rattle.line_charts.specs.Views.{chart_answer, IsChartNamed};

use crate::forest::{Charted, chart_over};
use crate::grammar::ChartGrammar;
use crate::unknown::unknown_of;
use crate::{ChartAnswer, NoMemory};
use chart_core::Limits;
use fs_unify::Scratch;
use grammar_rules::{LineLeaves, line_laws};
use morph_analysis::{Lattice, Step};
use std::alloc::Global;

// What a chart gives, with the words that no lexical tree covers, as the answer.
fn answered(unknown: Vec<Step>, found: Charted) -> ChartAnswer
    ensures { chart_answer result ≡ answer_by (map (λ s. step_seen (step_of s)) unknown.items) found }
{
    match found {
        Charted::UnaryChain => ChartAnswer::UnaryChain,
        Charted::Edges => ChartAnswer::Edges,
        Charted::Classes(classes) => ChartAnswer::Forest { unknown, classes },
    }
}

/// The answer to a lattice of words, by the leaves of its chart: the limit that it breaks, or its unknown words and its packed classes. Nothing
/// is unpacked, so that a line with more readings than can be listed is answered too.
///
/// `NoMemory` may come in place of any answer.
pub fn line_chart<'s>(
    alloc: Global,
    work: &mut Scratch,
    grammar: &ChartGrammar<'_, 's>,
    lattice: &Lattice,
    leaves: LineLeaves<'s>,
    limits: &Limits,
) -> Result<ChartAnswer, NoMemory>
    requires grammar { IsChartGrammar grammar.now }
    requires valid { IsValid (lattice_of lattice.now) }
    requires limits { InRange limits.now }
    requires leaves { (words : Words) × AreLineLeaves grammar.now.signs.now grammar.now.shapes.now words (lattice_of lattice.now) limits.now.lexical leaves }
    ensures answer { (words : Words) → AreLineLeaves grammar.now.signs.now grammar.now.shapes.now words (lattice_of lattice.now) limits.now.lexical leaves.entry
        → IfOk result (λ a. IsChartAnswer (signs_of grammar.now.signs.now) grammar.now.signs.now.book.system.types (map string_bytes grammar.now.feats.now) words (lattice_seen (lattice_of lattice.now)) limits.now.lexical (limits_in limits.now) (chart_answer a)) }
    ensures named { IfOk result (λ a. IsChartNamed grammar.now.signs.now.book.system.types (length (signs_of grammar.now.signs.now).instances) (chart_answer a)) }
{
    let LineLeaves::Leaves { trees, leaves } = leaves else {
        return Ok(ChartAnswer::LexicalDepth);
    };
    line_laws();
    let unknown = unknown_of(alloc, lattice, &trees)?;
    let found = chart_over(alloc, work, grammar, &trees, leaves, limits)?;
    Ok(answered(unknown, found))
}

/// The words of a lattice that no lexical tree covers, in the order of its steps, by the leaves of its chart. Where a lexical tree is too deep
/// it gives none.
pub fn unknown_words(
    alloc: Global,
    lattice: &Lattice,
    leaves: &LineLeaves<'_>,
) -> Result<Vec<Step>, NoMemory>
    requires { IsValid (lattice_of lattice.now) }
    ensures { IfOk result (λ us. (t : SignTree) (shapes : GrammarShapes) (words : Words) (most : ℕ) → AreLineLeaves t shapes words (lattice_of lattice.now) most leaves.now
        → (IsTooDeep (signs_of t) words (lattice_seen (lattice_of lattice.now)) most → ⊥)
        → AreUnknown (signs_of t) words (lattice_seen (lattice_of lattice.now)) most (lattice_seen (lattice_of lattice.now)).steps (map (λ s. step_seen (step_of s)) us.items)) }
{
    match leaves {
        LineLeaves::LexicalDepth => Ok(Vec::new(alloc)),
        LineLeaves::Leaves { trees, .. } => unknown_of(alloc, lattice, trees),
    }
}
