//! What a body holds while it is read, and its terms.

ghost use Rattle.std.specs.Prelude.{◌≡◌, List, [], ◌∷◌, ◌++◌, map, IfOk, IfErr, OnOk, IsTrue, string_bytes};
ghost use Rattle.tdl_lexer.specs.Spelling.{has_value};
ghost use Rattle.tdl_reader.specs.Toks.{value};
ghost use Rattle.tdl_reader.specs.Trees.{body_of, attrs_of, items_of, of_avm, of_list, of_diff, of_name, of_text, of_coref, closed, tail_of, open_end};
ghost use Rattle.tdl_reader.specs.Machine.{FrameTree, term_step, at_point};
ghost use Rattle.tdl_reader.specs.States.{tok_in, IsOfText, point_of, IsStop};
ghost use Rattle.tdl_reader.specs.Views.{term_of, attr_of, body_in, rest_of};

use crate::{Attr, Body, ReadFault, Rest, Term};
use std::alloc::Global;
use tdl_lexer::{Token, TokenKind};

/// A token and its text.
#[derive(Clone, Copy)]
pub(crate) struct Seen<'a> {
    pub(crate) text: &'a str,
    pub(crate) token: Token,
}

/// An open bracket around a body: its place, what stands in it so far, and the terms of the body around it.
#[derive(Drop)]
pub(crate) enum Frame {
    InAvm {
        at: u32,
        attrs: Vec<Attr>,
        path: Vec<String>,
        out: Vec<Term>,
    },
    InList {
        at: u32,
        items: Vec<Body>,
        out: Vec<Term>,
    },
    InTail {
        at: u32,
        items: Vec<Body>,
        out: Vec<Term>,
    },
    InDiff {
        at: u32,
        items: Vec<Body>,
        out: Vec<Term>,
    },
}

/// Where the reader stands within the innermost bracket.
#[derive(Drop)]
pub(crate) enum Point {
    /// Before a term, after these.
    WantTerm {
        terms: Vec<Term>,
    },
    /// After a term, and these before it.
    GotTerm {
        terms: Vec<Term>,
        last: Term,
    },
    /// After `[`.
    AvmBegins {
        at: u32,
        out: Vec<Term>,
    },
    /// After `,` within `[`.
    WantAttr {
        at: u32,
        attrs: Vec<Attr>,
        out: Vec<Term>,
    },
    /// After a feature of a path.
    GotFeature {
        at: u32,
        attrs: Vec<Attr>,
        path: Vec<String>,
        out: Vec<Term>,
    },
    /// After the dot of a path.
    WantFeature {
        at: u32,
        attrs: Vec<Attr>,
        path: Vec<String>,
        out: Vec<Term>,
    },
    /// After `<`.
    ListBegins {
        at: u32,
        out: Vec<Term>,
    },
    /// After `,` within `<`.
    ListGoesOn {
        at: u32,
        items: Vec<Body>,
        out: Vec<Term>,
    },
    /// After `...`.
    WantClose {
        at: u32,
        items: Vec<Body>,
        out: Vec<Term>,
    },
    /// After `<!`.
    DiffBegins {
        at: u32,
        out: Vec<Term>,
    },
    /// After `,` within `<!`.
    DiffGoesOn {
        at: u32,
        items: Vec<Body>,
        out: Vec<Term>,
    },
}

/// The value of a token.
pub(crate) fn value_in(alloc: Global, seen: Seen<'_>) -> Result<String, ReadFault>
    requires token { IsOfText seen }
    requires kind { IsTrue (has_value seen.token.kind) }
    ensures found { IfOk result (λ s. string_bytes s ≡ value (tok_in seen.entry)) }
    ensures fault { IfErr result (λ e. e ≡ ReadFault.NoMemory) }
{
    Ok(tdl_lexer::value(alloc, seen.text, &seen.token)?)
}

/// The fault at a token that nothing goes on with.
pub(crate) fn unexpected(seen: Seen<'_>) -> ReadFault
    ensures { result ≡ ReadFault.Unexpected seen.entry.token.from }
{
    ReadFault::Unexpected {
        at: seen.token.from,
    }
}

pub(crate) fn name(name: String, at: u32) -> Term
    ensures { term_of result ≡ of_name (string_bytes name) at }
{
    Term::Name { name, at }
}

pub(crate) fn text(text: String, at: u32) -> Term
    ensures { term_of result ≡ of_text (string_bytes text) at }
{
    Term::Text { text, at }
}

pub(crate) fn coref(name: String, at: u32) -> Term
    ensures { term_of result ≡ of_coref (string_bytes name) at }
{
    Term::Coref { name, at }
}

pub(crate) fn avm(attrs: Vec<Attr>, at: u32) -> Term
    ensures { term_of result ≡ of_avm (attrs_of (map attr_of attrs.items)) at }
{
    Term::Avm { attrs, at }
}

pub(crate) fn list(items: Vec<Body>, rest: Rest, at: u32) -> Term
    ensures { term_of result ≡ of_list (items_of (map body_in items.items)) (rest_of rest) at }
{
    Term::List { items, rest, at }
}

pub(crate) fn diff(items: Vec<Body>, at: u32) -> Term
    ensures { term_of result ≡ of_diff (items_of (map body_in items.items)) at }
{
    Term::Diff { items, at }
}

pub(crate) fn closed() -> Rest
    ensures { rest_of result ≡ closed }
{
    Rest::Closed
}

pub(crate) fn open_end() -> Rest
    ensures { rest_of result ≡ open_end }
{
    Rest::Open
}

pub(crate) fn tail(body: Body) -> Rest
    ensures { rest_of result ≡ tail_of (body_in body) }
{
    Rest::Tail { body }
}

// Room for so many items in a list that has none.
fn reserve<T>(list: &mut Vec<T>, count: usize) -> Result<(), ReadFault>
    ensures found { OnOk result (list.new.items ≡ list.old.items) }
    ensures fault { IfErr result (λ e. e ≡ ReadFault.NoMemory) }
{
    if list.is_empty() {
        list.reserve_exact(count)?;
    }
    Ok(())
}

/// Adds an item to a list. The first one takes room for so many and no more: most lists of a grammar have one or two items,
/// and they are kept as long as the statement is.
pub(crate) fn add<T: Drop>(list: &mut Vec<T>, count: usize, item: T) -> Result<(), ReadFault>
    ensures found { OnOk result (list.new.items ≡ list.old.items ++ item ∷ []) }
    ensures fault { IfErr result (λ e. e ≡ ReadFault.NoMemory) }
{
    reserve(list, count)?;
    list.push(item)?;
    Ok(())
}

/// The body of these terms and a last one.
pub(crate) fn whole(mut terms: Vec<Term>, last: Term) -> Result<Body, ReadFault>
    ensures found { IfOk result (λ b. body_in b ≡ body_of (map term_of terms.items) (term_of last)) }
    ensures fault { IfErr result (λ e. e ≡ ReadFault.NoMemory) }
{
    add(&mut terms, 1, last)?;
    Ok(Body { terms })
}

/// A term begins, in a body with these terms before it.
pub(crate) fn term(alloc: Global, terms: Vec<Term>, seen: Seen<'_>) -> Result<Point, ReadFault>
    requires { IsOfText seen }
    ensures found { IfOk result (λ p. (stack : List FrameTree) → term_step stack (map term_of terms.items) seen.entry.token.kind (tok_in seen.entry) ≡ at_point stack (point_of p)) }
    ensures fault { IfErr result (λ e. (stack : List FrameTree) → IsStop (term_step stack (map term_of terms.items) seen.entry.token.kind (tok_in seen.entry)) seen.entry.token.from e) }
{
    let at = seen.token.from;
    match seen.token.kind {
        TokenKind::Name => {
            let last = name(value_in(alloc, seen)?, at);
            Ok(Point::GotTerm { terms, last })
        }
        TokenKind::Text | TokenKind::Symbol => {
            let last = text(value_in(alloc, seen)?, at);
            Ok(Point::GotTerm { terms, last })
        }
        TokenKind::Coref => {
            let last = coref(value_in(alloc, seen)?, at);
            Ok(Point::GotTerm { terms, last })
        }
        TokenKind::AvmOpens => Ok(Point::AvmBegins { at, out: terms }),
        TokenKind::ListOpens => Ok(Point::ListBegins { at, out: terms }),
        TokenKind::DiffOpens => Ok(Point::DiffBegins { at, out: terms }),
        _ => Err(unexpected(seen)),
    }
}
