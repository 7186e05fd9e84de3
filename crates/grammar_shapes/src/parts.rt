//! A rule with daughters at their places.

ghost use Rattle.std.specs.Prelude.{◌≡◌, ◌≤◌, ◌++◌, length, map, IfOk, OnOk};
ghost use Rattle.chart_model.specs.Tuples.{shapes_of, IsTuple};
ghost use Rattle.grammar_shapes.specs.Ruled.{places_of};
ghost use Rattle.grammar_shapes.specs.Inner.Parts.{parts_for, daughter_at};
ghost use Rattle.grammar_shapes.specs.Shaped.{graph_of};

use crate::phrase_rule::PhraseRule;
use crate::place::Place;
use chart_model::Tuple;
use fs_unify::{NoMemory, Owed, Parts};
use std::alloc::Global;
use std::sync::Arc;

// Adds the daughter of this number at its place, if there is one. It owes the facts of these rules.
fn add_daughter<'a, C>(
    parts: &mut Parts<'a>,
    rule: &PhraseRule<'a>,
    tuple: &'a Tuple<Arc<Place>, C>,
    owed: &'a Owed,
    k: u32,
) -> Result<(), NoMemory>
    requires tuple { IsTuple tuple.now }
    requires short { tuple.now.count ≤ length rule.now.places.items }
    ensures { OnOk result (parts.new ≡ parts.old ++ daughter_at owed.now (places_of rule.now) (map graph_of (shapes_of tuple.now)) k) }
{
    if let Some(part) = tuple.get(k) {
        let place = rule.places[k as usize].clone()?;
        parts.add_cut(place, &part.shape.graph, owed)?;
    }
    Ok(())
}

// The rule's structure, which is well-formed, with daughters at their places, which owe the facts of these rules.
pub(crate) fn parts_with<'a, C>(
    alloc: Global,
    rule: &PhraseRule<'a>,
    tuple: &'a Tuple<Arc<Place>, C>,
    owed: &'a Owed,
) -> Result<Parts<'a>, NoMemory>
    requires tuple { IsTuple tuple.now }
    requires short { tuple.now.count ≤ length rule.now.places.items }
    requires few { tuple.now.count ≤ 4 }
    ensures { IfOk result (λ ps. ps ≡ parts_for owed.now rule.now (map graph_of (shapes_of tuple.now))) }
{
    let mut parts = Parts::new(alloc);
    parts.add_closed(Vec::new(alloc), rule.structure)?;
    add_daughter(&mut parts, rule, tuple, owed, 0)?;
    add_daughter(&mut parts, rule, tuple, owed, 1)?;
    add_daughter(&mut parts, rule, tuple, owed, 2)?;
    add_daughter(&mut parts, rule, tuple, owed, 3)?;
    Ok(parts)
}
