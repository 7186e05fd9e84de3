//! The types that a body names.

ghost use Rattle.std.specs.Prelude.{◌≡◌, ◌++◌, ◌∷◌, [], map, option_map, find};
ghost use Rattle.tdl_reader.specs.Trees.{attrs_of, items_of};
ghost use Rattle.tdl_reader.specs.Views.{term_of, attr_of, body_in, rest_of};
ghost use Rattle.body_facts.specs.Writing.{list_names};
ghost use Rattle.body_facts.specs.Mentions.{mention_of, mention, is_unknown, unknown_in, term_mentions, attrs_mention, items_mention, tail_mentions, cell_mentions, end_mentions};

use crate::settled_names::Names;
use tdl_reader::{Attr, Body, Rest, Term};
use type_hierarchy::Types;

/// A name that no completed type has, and the place in bytes of the term that names it.
#[derive(Clone, Copy, Debug, PartialEq, Eq)]
pub struct Unknown<'a> {
    pub name: &'a str,
    pub at: u32,
}

/// The first type that a body names and that isn't a completed type; strings aren't looked at.
///
/// A list names the type of a list with an item where it has one, and then the type of its end, at its own place
/// before its items; one with a tail leaves its end to the tail, and a difference list has none. It takes no memory.
pub fn first_unknown<'a>(types: &Types, names: &'a Names, body: &'a Body) -> Option<Unknown<'a>>
    ensures { option_map mention_of result ≡ unknown_in types.now (list_names names.now) (body_in body.now) }
{
    in_body(types, names, body)
}

// The name, if no completed type has it.
fn unless_known<'a>(types: &Types, name: &'a str, at: u32) -> Option<Unknown<'a>>
    ensures { option_map mention_of result ≡ find (is_unknown types.now) (mention at name.now ∷ []) }
{
    match types.find(name) {
        Some(_) => None,
        None => Some(Unknown { name, at }),
    }
}

// The same for one term.
#[cycle(mentions)]
fn in_term<'a>(types: &Types, names: &'a Names, term: &'a Term) -> Option<Unknown<'a>>
    ensures { option_map mention_of result ≡ find (is_unknown types.now) (term_mentions (list_names names.now) (term_of term.now)) }
{
    match term {
        Term::Name { name, at } => unless_known(types, name, *at),
        Term::Text { .. } | Term::Coref { .. } => None,
        Term::Avm { attrs, .. } => in_attrs(types, names, attrs),
        Term::List { items, rest, at } => {
            let own = in_list(types, names, items, rest, *at);
            if own.is_some() {
                return own;
            }
            let among = in_items(types, names, items);
            if among.is_some() {
                return among;
            }
            in_tail(types, names, rest)
        }
        Term::Diff { items, at } => {
            let own = in_cell(types, names, items, *at);
            if own.is_some() {
                return own;
            }
            in_items(types, names, items)
        }
    }
}

// The same for a body.
#[cycle(mentions)]
fn in_body<'a>(types: &Types, names: &'a Names, body: &'a Body) -> Option<Unknown<'a>>
    ensures { option_map mention_of result ≡ unknown_in types.now (list_names names.now) (body_in body.now) }
{
    for term in &body.terms {
        let found = in_term(types, names, term);
        if found.is_some() {
            return found;
        }
    }
    None
}

// The same for the values of attributes.
#[cycle(mentions)]
fn in_attrs<'a>(types: &Types, names: &'a Names, attrs: &'a Vec<Attr>) -> Option<Unknown<'a>>
    ensures { option_map mention_of result ≡ find (is_unknown types.now) (attrs_mention (list_names names.now) (attrs_of (map attr_of attrs.now.items))) }
{
    for attr in attrs {
        let found = in_body(types, names, &attr.body);
        if found.is_some() {
            return found;
        }
    }
    None
}

// The same for the items of a list.
#[cycle(mentions)]
fn in_items<'a>(types: &Types, names: &'a Names, items: &'a Vec<Body>) -> Option<Unknown<'a>>
    ensures { option_map mention_of result ≡ find (is_unknown types.now) (items_mention (list_names names.now) (items_of (map body_in items.now.items))) }
{
    for item in items {
        let found = in_body(types, names, item);
        if found.is_some() {
            return found;
        }
    }
    None
}

// The same for the tail of a list.
#[cycle(mentions)]
fn in_tail<'a>(types: &Types, names: &'a Names, rest: &'a Rest) -> Option<Unknown<'a>>
    ensures { option_map mention_of result ≡ find (is_unknown types.now) (tail_mentions (list_names names.now) (rest_of rest.now)) }
{
    match rest {
        Rest::Closed | Rest::Open => None,
        Rest::Tail { body } => in_body(types, names, body),
    }
}

// The type of a list with an item, where there is an item.
fn in_cell<'a>(
    types: &Types,
    names: &'a Names,
    items: &'a Vec<Body>,
    at: u32,
) -> Option<Unknown<'a>>
    ensures { option_map mention_of result ≡ find (is_unknown types.now) (cell_mentions (list_names names.now) at (items_of (map body_in items.now.items))) }
{
    if items.is_empty() {
        None
    } else {
        unless_known(types, &names.cons, at)
    }
}

// The type of a list's end, where the list has no tail.
fn in_end<'a>(types: &Types, names: &'a Names, rest: &'a Rest, at: u32) -> Option<Unknown<'a>>
    ensures { option_map mention_of result ≡ find (is_unknown types.now) (end_mentions (list_names names.now) at (rest_of rest.now)) }
{
    match rest {
        Rest::Closed => unless_known(types, &names.null, at),
        Rest::Open => unless_known(types, &names.list, at),
        Rest::Tail { .. } => None,
    }
}

// The types of a list itself.
fn in_list<'a>(
    types: &Types,
    names: &'a Names,
    items: &'a Vec<Body>,
    rest: &'a Rest,
    at: u32,
) -> Option<Unknown<'a>>
    ensures { option_map mention_of result ≡ find (is_unknown types.now) (cell_mentions (list_names names.now) at (items_of (map body_in items.now.items)) ++ end_mentions (list_names names.now) at (rest_of rest.now)) }
{
    let cell = in_cell(types, names, items, at);
    if cell.is_some() {
        return cell;
    }
    in_end(types, names, rest, at)
}
