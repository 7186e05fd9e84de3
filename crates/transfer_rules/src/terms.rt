//! What single terms are.

ghost use Rattle.std.specs.Prelude.{◌≡◌, map};
ghost use Rattle.std.specs.Option.{option_map};
ghost use Rattle.tdl_reader.specs.Trees.{attrs_of, items_of};
ghost use Rattle.tdl_reader.specs.Views.{term_of, attr_of, body_in, rest_of};
ghost use Rattle.transfer_rules.specs.Features.{pred_in};
ghost use Rattle.transfer_rules.specs.Inner.Terms.{attrs_in, closed_items, items_in, text_in, coref_in};

use tdl_reader::{Attr, Body, Rest, Term};

/// The attributes of a feature term.
pub(crate) fn attrs_in<'a>(term: &'a Term) -> Option<&'a Vec<Attr>>
    ensures { option_map (λ attrs. attrs_of (map attr_of attrs.now.items)) result ≡ attrs_in (term_of term.now) }
{
    match term {
        Term::Avm { attrs, .. } => Some(attrs),
        Term::Name { .. } => None,
        Term::Text { .. } => None,
        Term::Coref { .. } => None,
        Term::List { .. } => None,
        Term::Diff { .. } => None,
    }
}

// The items of a list that ends with its last one.
fn closed_items<'a>(items: &'a Vec<Body>, rest: &'a Rest) -> Option<&'a Vec<Body>>
    ensures { option_map (λ items. items_of (map body_in items.now.items)) result ≡ closed_items (items_of (map body_in items.now.items)) (rest_of rest.now) }
{
    match rest {
        Rest::Closed => Some(items),
        Rest::Open => None,
        Rest::Tail { .. } => None,
    }
}

/// The items of a closed list.
pub(crate) fn items_in<'a>(term: &'a Term) -> Option<&'a Vec<Body>>
    ensures { option_map (λ items. items_of (map body_in items.now.items)) result ≡ items_in (term_of term.now) }
{
    match term {
        Term::List { items, rest, .. } => closed_items(items, rest),
        Term::Name { .. } => None,
        Term::Text { .. } => None,
        Term::Coref { .. } => None,
        Term::Avm { .. } => None,
        Term::Diff { .. } => None,
    }
}

/// The predicate that a term is: a name or a string.
pub(crate) fn pred_in<'a>(term: &'a Term) -> Option<&'a str>
    ensures { option_map (λ s. s.now) result ≡ pred_in (term_of term.now) }
{
    match term {
        Term::Name { name, .. } => Some(name.as_str()),
        Term::Text { text, .. } => Some(text.as_str()),
        Term::Coref { .. } => None,
        Term::Avm { .. } => None,
        Term::List { .. } => None,
        Term::Diff { .. } => None,
    }
}

/// The string that a term is.
pub(crate) fn text_in<'a>(term: &'a Term) -> Option<&'a str>
    ensures { option_map (λ s. s.now) result ≡ text_in (term_of term.now) }
{
    match term {
        Term::Text { text, .. } => Some(text.as_str()),
        Term::Name { .. } => None,
        Term::Coref { .. } => None,
        Term::Avm { .. } => None,
        Term::List { .. } => None,
        Term::Diff { .. } => None,
    }
}

/// The name of the coreference that a term is.
pub(crate) fn coref_in<'a>(term: &'a Term) -> Option<&'a str>
    ensures { option_map (λ s. s.now) result ≡ coref_in (term_of term.now) }
{
    match term {
        Term::Coref { name, .. } => Some(name.as_str()),
        Term::Name { .. } => None,
        Term::Text { .. } => None,
        Term::Avm { .. } => None,
        Term::List { .. } => None,
        Term::Diff { .. } => None,
    }
}
