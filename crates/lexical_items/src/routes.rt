//! All entries under lexical rules that have a full structure and a word.

ghost use Rattle.std.specs.Prelude.{◌≡◌, ◌<◌, ◌+◌, ◌++◌, [], ℕ, length, IfOk, OnOk};
ghost use Rattle.spelling_rules.specs.Trees.{AreBound};
ghost use Rattle.lexical_items.specs.Grammars.{IsLexicalGrammar, grammar_seen};
ghost use Rattle.lexical_items.specs.Inner.Grown.{IsOwn, IsRouteOrNone, AreDeep, AreBelow, AddsAbove};
ghost use Rattle.lexical_items.specs.Inner.Routes.{above, listed, route_seen};

use crate::entry_words::{last_word, place_of};
use crate::forms::forms_of;
use crate::grammar::LexicalGrammar;
use crate::route::Route;
use crate::{LexicalFulls, NoMemory};
use std::alloc::Global;
use std::sync::Arc;

// Adds a route, if there is one.
fn add<T: Drop>(out: &mut Vec<Route<T>>, next: Option<Route<T>>) -> Result<(), NoMemory>
    ensures { OnOk result (out.new.items ≡ out.old.items ++ listed next) }
{
    match next {
        None => Ok(()),
        Some(next) => {
            out.push(next)?;
            Ok(())
        }
    }
}

// An entry by itself; none where it has no full structure.
fn begun<F: LexicalFulls>(
    alloc: Global,
    grammar: &LexicalGrammar<'_, F>,
    work: &mut F::Work,
    entry: u32,
) -> Result<Option<Route<F::Full>>, NoMemory>
    requires entry { entry < length (F.entries_of grammar.now.fulls.now) }
    requires grammar { IsLexicalGrammar (grammar_seen F.signs F.entries_of F.rules_of grammar.now) }
    ensures { IfOk result (IsRouteOrNone (grammar_seen F.signs F.entries_of F.rules_of grammar.now) (F.value grammar.now.fulls.now) (record { entry = entry; rules = [] })) }
{
    let fulls = grammar.fulls;
    fulls.laws();
    let place = place_of(fulls.entries(), entry);
    let stem = last_word(grammar.lexicon, entry).clone()?;
    match fulls.entry(alloc, work, place)? {
        None => Ok(None),
        Some(full) => {
            let mut ends = Vec::new(alloc);
            ends.push(stem)?;
            let rules = Vec::new(alloc);
            let full = Arc::new(alloc, full)?;
            Ok(Some(Route {
                entry,
                rules,
                ends,
                full,
            }))
        }
    }
}

// All entries by themselves.
fn first_routes<F: LexicalFulls>(
    alloc: Global,
    grammar: &LexicalGrammar<'_, F>,
    work: &mut F::Work,
    count: u32,
) -> Result<Vec<Route<F::Full>>, NoMemory>
    requires count { count ≡ length (F.entries_of grammar.now.fulls.now) }
    requires grammar { IsLexicalGrammar (grammar_seen F.signs F.entries_of F.rules_of grammar.now) }
    ensures { IfOk result (λ v. AreDeep (grammar_seen F.signs F.entries_of F.rules_of grammar.now) (F.value grammar.now.fulls.now) 0 v.items) }
{
    let mut routes = Vec::new(alloc);
    for entry in 0..count {
        let route = begun(alloc, grammar, work, entry)?;
        add(&mut routes, route)?;
    }
    Ok(routes)
}

// A route with one rule more; none where nothing is made, or the rule has no form for any of its words.
fn longer<F: LexicalFulls>(
    alloc: Global,
    grammar: &LexicalGrammar<'_, F>,
    work: &mut F::Work,
    route: &Route<F::Full>,
    rule: u32,
) -> Result<Option<Route<F::Full>>, NoMemory>
    requires grammar { IsLexicalGrammar (grammar_seen F.signs F.entries_of F.rules_of grammar.now) }
    requires bound { AreBound grammar.now.spelling.now.rules }
    requires route { IsOwn (grammar_seen F.signs F.entries_of F.rules_of grammar.now) (route_seen (F.value grammar.now.fulls.now) route.now) }
    requires rule { rule < length (F.rules_of grammar.now.fulls.now) }
    ensures { IfOk result (IsRouteOrNone (grammar_seen F.signs F.entries_of F.rules_of grammar.now) (F.value grammar.now.fulls.now) (above (route_seen (F.value grammar.now.fulls.now) route.now) rule)) }
{
    let fulls = grammar.fulls;
    fulls.laws();
    if !grammar.feeds.allows_after(route.entry, &route.rules, rule) {
        return Ok(None);
    }
    let ends = forms_of(alloc, grammar.spelling, rule, &route.ends)?;
    if ends.is_empty() {
        return Ok(None);
    }
    let place = place_of(fulls.rules(), rule);
    match fulls.under(alloc, work, place, &route.full)? {
        None => Ok(None),
        Some(full) => {
            let mut rules = route.rules.as_slice().to_vec(alloc)?;
            rules.push(rule)?;
            let full = Arc::new(alloc, full)?;
            Ok(Some(Route {
                entry: route.entry,
                rules,
                ends,
                full,
            }))
        }
    }
}

// Adds a route with each rule more.
fn add_longer<F: LexicalFulls>(
    alloc: Global,
    grammar: &LexicalGrammar<'_, F>,
    work: &mut F::Work,
    route: &Route<F::Full>,
    count: u32,
    out: &mut Vec<Route<F::Full>>,
) -> Result<(), NoMemory>
    requires grammar { IsLexicalGrammar (grammar_seen F.signs F.entries_of F.rules_of grammar.now) }
    requires bound { AreBound grammar.now.spelling.now.rules }
    requires route { IsOwn (grammar_seen F.signs F.entries_of F.rules_of grammar.now) (route_seen (F.value grammar.now.fulls.now) route.now) }
    requires count { count ≡ length (F.rules_of grammar.now.fulls.now) }
    ensures { OnOk result (AddsAbove (grammar_seen F.signs F.entries_of F.rules_of grammar.now) (F.value grammar.now.fulls.now) (route_seen (F.value grammar.now.fulls.now) route.now) count out.old.items out.new.items) }
{
    for rule in 0..count {
        let next = longer(alloc, grammar, work, route, rule)?;
        add(out, next)?;
    }
    Ok(())
}

// The routes with one rule more than these, which are all those under some number of rules.
fn next_routes<F: LexicalFulls>(
    alloc: Global,
    grammar: &LexicalGrammar<'_, F>,
    work: &mut F::Work,
    level: &[Route<F::Full>],
    count: u32,
) -> Result<Vec<Route<F::Full>>, NoMemory>
    requires grammar { IsLexicalGrammar (grammar_seen F.signs F.entries_of F.rules_of grammar.now) }
    requires bound { AreBound grammar.now.spelling.now.rules }
    requires level { (depth : ℕ) × AreDeep (grammar_seen F.signs F.entries_of F.rules_of grammar.now) (F.value grammar.now.fulls.now) depth level.now }
    requires count { count ≡ length (F.rules_of grammar.now.fulls.now) }
    ensures { IfOk result (λ v. (depth : ℕ) → AreDeep (grammar_seen F.signs F.entries_of F.rules_of grammar.now) (F.value grammar.now.fulls.now) depth level.now → AreDeep (grammar_seen F.signs F.entries_of F.rules_of grammar.now) (F.value grammar.now.fulls.now) (depth + 1) v.items) }
{
    grammar.fulls.laws();
    let mut out = Vec::new(alloc);
    for route in level {
        add_longer(alloc, grammar, work, route, count, &mut out)?;
    }
    Ok(out)
}

// These and those.
fn joined<T: Drop>(routes: Vec<Route<T>>, level: Vec<Route<T>>) -> Result<Vec<Route<T>>, NoMemory>
    ensures { IfOk result (λ v. v.items ≡ routes.items ++ level.items) }
{
    let mut all = routes;
    let mut rest = level;
    all.append(&mut rest)?;
    Ok(all)
}

/// All entries under fewer than `most` rules and those under `most`, that have a full structure and a word. They are made level by
/// level, so that what stands under more rules is made of what stands under fewer, and an empty level is the last.
pub(crate) fn all_routes<F: LexicalFulls>(
    alloc: Global,
    grammar: &LexicalGrammar<'_, F>,
    work: &mut F::Work,
    most: u32,
) -> Result<Vec<Route<F::Full>>, NoMemory>
    requires grammar { IsLexicalGrammar (grammar_seen F.signs F.entries_of F.rules_of grammar.now) }
    requires bound { AreBound grammar.now.spelling.now.rules }
    ensures { IfOk result (λ v. AreBelow (grammar_seen F.signs F.entries_of F.rules_of grammar.now) (F.value grammar.now.fulls.now) (most + 1) v.items) }
{
    let fulls = grammar.fulls;
    fulls.laws();
    let Ok(entries) = u32::try_from(fulls.entries().len()) else {
        return Err(NoMemory);
    };
    let Ok(count) = u32::try_from(fulls.rules().len()) else {
        return Err(NoMemory);
    };
    let mut level = first_routes(alloc, grammar, work, entries)?;
    let mut routes = Vec::new(alloc);
    for _depth in 0..most {
        if level.is_empty() {
            return Ok(routes);
        }
        let next = next_routes(alloc, grammar, work, &level, count)?;
        routes.append(&mut level)?;
        level = next;
    }
    let all = joined(routes, level)?;
    Ok(all)
}
