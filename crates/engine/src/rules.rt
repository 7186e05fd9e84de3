//! The rules of a grammar, as lines need them.

ghost use Rattle.std.specs.Prelude.{◌≡◌, Some, All, map, IfOk};
ghost use Rattle.fs_graph.specs.GraphMap.{reader_of};
ghost use Rattle.fs_closing.specs.Rules.{system_of};
ghost use Rattle.fs_unify.specs.Entering.{IsWellFormed};
ghost use Rattle.fs_trim.specs.Cutting.{cut_of};
ghost use Rattle.book_signs.specs.Trees.{signs_of, rule_at, paths_of};
ghost use Rattle.grammar_shapes.specs.Ruled.{rule_of, IsRuleIn};
ghost use Rattle.grammar_rules.specs.Lines.{AreShapesOf, AreFeedsOf};
ghost use Rattle.engine.specs.Inner.Ruled.{IsPhraseRuleAt};

use crate::NoMemory;
use crate::checks::paths_known;
use crate::compared::compared;
use book_signs::{Cut, SignBook};
use fs_graph::Feat;
use fs_unify::Scratch;
use grammar_shapes::{GrammarShapes, PhraseRule};
use lexical_items::feeds_of;
use morph_analysis::Feeds;
use rule_trees::SignFulls;
use std::alloc::Global;

// The same paths once more.
fn copied(alloc: Global, paths: &[Vec<Feat>]) -> Result<Vec<Vec<Feat>>, NoMemory>
    ensures { IfOk result (λ v. paths_of v.items ≡ paths_of paths.now) }
{
    let mut copies = Vec::new(alloc);
    for path in paths {
        copies.push(Vec::from_slice(alloc, path)?)?;
    }
    Ok(copies)
}

// The same cut once more.
fn cut_again(alloc: Global, cut: &Cut) -> Result<Cut, NoMemory>
    ensures { IfOk result (λ c. cut_of c ≡ cut_of cut.now) }
{
    Ok(Cut {
        at_root: Vec::from_slice(alloc, &cut.at_root)?,
        anywhere: Vec::from_slice(alloc, &cut.anywhere)?,
    })
}

// The phrase rule at a place.
fn phrase_rule<'a>(
    alloc: Global,
    signs: &'a SignBook<'a>,
    place: u32,
) -> Result<PhraseRule<'a>, NoMemory>
    requires { IsPhraseRuleAt (signs_of signs.now) place }
    ensures rule { IfOk result (λ r. Some (rule_of signs.now.book.system r) ≡ rule_at (signs_of signs.now) place) }
    ensures within { IfOk result (IsRuleIn signs.now.book.system) }
    ensures closed { IfOk result (λ r. IsWellFormed (system_of signs.now.book.system) (reader_of r.structure.now)) }
{
    signs.laws();
    let structure = signs.structure(place);
    let places = copied(alloc, signs.places(place))?;
    Ok(PhraseRule {
        place,
        structure,
        places,
    })
}

// The phrase rules at some places.
fn phrase_rules<'a>(
    alloc: Global,
    signs: &'a SignBook<'a>,
    places: &[u32],
) -> Result<Vec<PhraseRule<'a>>, NoMemory>
    requires { All (IsPhraseRuleAt (signs_of signs.now)) places.now }
    ensures rules { IfOk result (λ v. map (λ r. Some (rule_of signs.now.book.system r)) v.items ≡ map (rule_at (signs_of signs.now)) places.now) }
    ensures within { IfOk result (λ v. All (IsRuleIn signs.now.book.system) v.items) }
    ensures closed { IfOk result (λ v. All (λ r. IsWellFormed (system_of signs.now.book.system) (reader_of r.structure.now)) v.items) }
{
    let mut rules = Vec::new(alloc);
    for place in places {
        rules.push(phrase_rule(alloc, signs, *place)?)?;
    }
    Ok(rules)
}

/// The phrase rules of a grammar over abstract structures (Oepen and Carroll 2000), numbered in order of place.
pub(crate) fn shapes_of<'a>(
    alloc: Global,
    signs: &'a SignBook<'a>,
) -> Result<GrammarShapes<'a>, NoMemory>
    ensures { IfOk result (AreShapesOf signs.now) }
{
    signs.laws();
    let rules = phrase_rules(alloc, signs, signs.phrase_rules())?;
    let daughters = cut_again(alloc, signs.daughters())?;
    let restrictors = cut_again(alloc, signs.restrictors())?;
    let given = paths_known(alloc, &signs.book().names.check_paths)?;
    let checks = compared(alloc, &given, &rules, signs.restrictors())?;
    let system = signs.system();
    let shapes = GrammarShapes::make(alloc, system, rules, daughters, restrictors, checks)?;
    Ok(shapes)
}

/// Which lexical rule of a grammar may apply to what which gives.
pub(crate) fn rule_feeds<'a>(alloc: Global, signs: &'a SignBook<'a>) -> Result<Feeds, NoMemory>
    ensures { IfOk result (AreFeedsOf signs.now) }
{
    let fulls = SignFulls { signs };
    let mut work = Scratch::new(alloc);
    let feeds = feeds_of(alloc, &fulls, &mut work)?;
    Ok(feeds)
}
