//! The features that the brackets of a body have.

ghost use Rattle.std.specs.Prelude.{◌≡◌, ◌&&◌, ◌++◌, ◌∷◌, [], true, map, IfOk, OnOk, string_bytes};
ghost use Rattle.tdl_reader.specs.Trees.{attrs_of, items_of};
ghost use Rattle.tdl_reader.specs.Views.{term_of, attr_of, body_in, rest_of};
ghost use Rattle.body_facts.specs.Writing.{list_names};
ghost use Rattle.body_facts.specs.BracketUses.{used_of, used, is_empty_path, is_empty_list, path_uses, cell_uses, term_uses, body_uses, attrs_use, items_use, end_uses};

use crate::NoMemory;
use crate::settled_names::Names;
use std::alloc::Global;
use tdl_reader::{Attr, Body, Rest, Term};

/// A feature that a bracket has: a feature term, a list or a difference list.
#[derive(Clone, Copy, Debug, PartialEq, Eq)]
pub struct Use<'a> {
    /// The feature's name.
    pub feature: &'a str,
    /// The place in bytes of the bracket that itself has the feature.
    pub at: u32,
    /// Whether the feature stands at the body's own node, so that what the body defines is a writer of it.
    pub own: bool,
}

/// The features that the brackets of a body have, in order of writing.
///
/// Of one bracket's, those of an attribute's path come in its order; a list with an item has its first item's feature and
/// then that of its rest, and an empty one has none; a difference list has the features of its list and of its end, and
/// then those of a list with an item where it has one.
pub fn uses<'a>(alloc: Global, names: &'a Names, body: &'a Body) -> Result<Vec<Use<'a>>, NoMemory>
    ensures { IfOk result (λ found. map used_of found.items ≡ body_uses (list_names names.now) true (body_in body.now)) }
{
    let mut found = Vec::new(alloc);
    add_body(&mut found, names, body, true)?;
    Ok(found)
}

// Adds a feature.
fn note<'a>(found: &mut Vec<Use<'a>>, feature: &'a str, at: u32, own: bool) -> Result<(), NoMemory>
    ensures { OnOk result (map used_of found.new.items ≡ map used_of found.old.items ++ used at own feature.now ∷ []) }
{
    found.push(Use { feature, at, own })?;
    Ok(())
}

// Adds the features of an attribute's path.
fn add_path<'a>(
    found: &mut Vec<Use<'a>>,
    path: &'a [String],
    at: u32,
    own: bool,
) -> Result<(), NoMemory>
    ensures { OnOk result (map used_of found.new.items ≡ map used_of found.old.items ++ path_uses at own (map string_bytes path.now)) }
{
    let mut here = own;
    for feature in path {
        note(found, feature, at, here)?;
        here = false;
    }
    Ok(())
}

// Whether an attribute's value stands at the body's own node, where its bracket does.
fn own_value(own: bool, path: &[String]) -> bool
    ensures { result ≡ (own && is_empty_path (map string_bytes path.now)) }
{
    own && path.is_empty()
}

// Whether a list's tail stands at the body's own node, where the list does.
fn own_tail(own: bool, items: &Vec<Body>) -> bool
    ensures { result ≡ (own && is_empty_list (items_of (map body_in items.now.items))) }
{
    own && items.is_empty()
}

// Adds the features of a list with an item, if there is an item.
fn add_cell<'a>(
    found: &mut Vec<Use<'a>>,
    names: &'a Names,
    items: &Vec<Body>,
    at: u32,
    own: bool,
) -> Result<(), NoMemory>
    ensures { OnOk result (map used_of found.new.items ≡ map used_of found.old.items ++ cell_uses (list_names names.now) at own (items_of (map body_in items.now.items))) }
{
    if items.is_empty() {
        Ok(())
    } else {
        note(found, &names.first, at, own)?;
        note(found, &names.rest, at, own)
    }
}

// Adds the features of a difference list.
fn add_ends<'a>(
    found: &mut Vec<Use<'a>>,
    names: &'a Names,
    at: u32,
    own: bool,
) -> Result<(), NoMemory>
    ensures { OnOk result (map used_of found.new.items ≡ map used_of found.old.items ++ used at own (string_bytes names.now.diff_list) ∷ used at own (string_bytes names.now.diff_last) ∷ []) }
{
    note(found, &names.diff_list, at, own)?;
    note(found, &names.diff_last, at, own)
}

// Adds what a term has.
#[cycle(brackets)]
fn add_term<'a>(
    found: &mut Vec<Use<'a>>,
    names: &'a Names,
    term: &'a Term,
    own: bool,
) -> Result<(), NoMemory>
    ensures { OnOk result (map used_of found.new.items ≡ map used_of found.old.items ++ term_uses (list_names names.now) own (term_of term.now)) }
{
    match term {
        Term::Name { .. } | Term::Text { .. } | Term::Coref { .. } => Ok(()),
        Term::Avm { attrs, at } => add_attrs(found, names, attrs, *at, own),
        Term::List { items, rest, at } => {
            add_cell(found, names, items, *at, own)?;
            add_items(found, names, items)?;
            add_end(found, names, rest, own_tail(own, items))
        }
        Term::Diff { items, at } => {
            add_ends(found, names, *at, own)?;
            add_cell(found, names, items, *at, false)?;
            add_items(found, names, items)
        }
    }
}

// Adds what a body has.
#[cycle(brackets)]
fn add_body<'a>(
    found: &mut Vec<Use<'a>>,
    names: &'a Names,
    body: &'a Body,
    own: bool,
) -> Result<(), NoMemory>
    ensures { OnOk result (map used_of found.new.items ≡ map used_of found.old.items ++ body_uses (list_names names.now) own (body_in body.now)) }
{
    for term in &body.terms {
        add_term(found, names, term, own)?;
    }
    Ok(())
}

// Adds what the attributes of the bracket at `at` have, and what their values have.
#[cycle(brackets)]
fn add_attrs<'a>(
    found: &mut Vec<Use<'a>>,
    names: &'a Names,
    attrs: &'a Vec<Attr>,
    at: u32,
    own: bool,
) -> Result<(), NoMemory>
    ensures { OnOk result (map used_of found.new.items ≡ map used_of found.old.items ++ attrs_use (list_names names.now) own at (attrs_of (map attr_of attrs.now.items))) }
{
    for attr in attrs {
        add_path(found, &attr.path, at, own)?;
        add_body(found, names, &attr.body, own_value(own, &attr.path))?;
    }
    Ok(())
}

// Adds what the items of a list have.
#[cycle(brackets)]
fn add_items<'a>(
    found: &mut Vec<Use<'a>>,
    names: &'a Names,
    items: &'a Vec<Body>,
) -> Result<(), NoMemory>
    ensures { OnOk result (map used_of found.new.items ≡ map used_of found.old.items ++ items_use (list_names names.now) (items_of (map body_in items.now.items))) }
{
    for item in items {
        add_body(found, names, item, false)?;
    }
    Ok(())
}

// Adds what the tail of a list has.
#[cycle(brackets)]
fn add_end<'a>(
    found: &mut Vec<Use<'a>>,
    names: &'a Names,
    rest: &'a Rest,
    own: bool,
) -> Result<(), NoMemory>
    ensures { OnOk result (map used_of found.new.items ≡ map used_of found.old.items ++ end_uses (list_names names.now) own (rest_of rest.now)) }
{
    match rest {
        Rest::Closed | Rest::Open => Ok(()),
        Rest::Tail { body } => add_body(found, names, body, own),
    }
}
