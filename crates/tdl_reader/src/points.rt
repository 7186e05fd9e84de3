//! Bodies: one step for each token, with the open brackets on a stack.

ghost use Rattle.std.specs.Prelude.{◌≡◌, List, [], ◌∷◌, ◌++◌, map, Some, None, Option, IfSome, IfNone, IfOk, IfErr, OnOk, string_bytes};
ghost use Rattle.tdl_reader.specs.Toks.{value};
ghost use Rattle.tdl_reader.specs.Trees.{closed, open_end};
ghost use Rattle.tdl_reader.specs.Machine.{FrameTree, term_step, attr_point, diff_point, tail_point, item_step, after_body, point_step, at_point, got_term, avm_begins, want_attr, got_feature, want_feature, list_begins, list_goes_on, want_close, diff_begins};
ghost use Rattle.tdl_reader.specs.States.{tok_in, IsOfText, frame_of, stack_of, point_of, IsStop};
ghost use Rattle.tdl_reader.specs.Views.{term_of, attr_of, body_in};

use crate::terms::{
    Frame, Point, Seen, add, avm, closed, diff, list, open_end, tail, term, unexpected, value_in,
    whole,
};
use crate::{Attr, Body, ReadFault, Term};
use std::alloc::Global;
use std::mem;
use tdl_lexer::TokenKind;

/// The attributes and one more.
fn with_attr(mut attrs: Vec<Attr>, path: Vec<String>, body: Body) -> Result<Vec<Attr>, ReadFault>
    ensures found { IfOk result (λ v. map attr_of v.items ≡ map attr_of attrs.items ++ record { path = map string_bytes path.items; body = body_in body } ∷ []) }
    ensures fault { IfErr result (λ e. e ≡ ReadFault.NoMemory) }
{
    add(&mut attrs, 1, Attr { path, body })?;
    Ok(attrs)
}

/// The items and one more.
fn with_item(mut items: Vec<Body>, body: Body) -> Result<Vec<Body>, ReadFault>
    ensures found { IfOk result (λ v. map body_in v.items ≡ map body_in items.items ++ body_in body ∷ []) }
    ensures fault { IfErr result (λ e. e ≡ ReadFault.NoMemory) }
{
    add(&mut items, 1, body)?;
    Ok(items)
}

/// The path and one feature more.
fn with_feature(
    alloc: Global,
    mut path: Vec<String>,
    seen: Seen<'_>,
) -> Result<Vec<String>, ReadFault>
    requires token { IsOfText seen }
    requires kind { seen.token.kind ≡ TokenKind.Name }
    ensures found { IfOk result (λ v. map string_bytes v.items ≡ map string_bytes path.items ++ value (tok_in seen.entry) ∷ []) }
    ensures fault { IfErr result (λ e. e ≡ ReadFault.NoMemory) }
{
    add(&mut path, 1, value_in(alloc, seen)?)?;
    Ok(path)
}

/// The open brackets and one within them.
fn open_frame(frames: &mut Vec<Frame>, frame: Frame) -> Result<(), ReadFault>
    ensures found { IfOk result (λ _. stack_of frames.new.items ≡ frame_of frame ∷ stack_of frames.old.items) }
    ensures fault { IfErr result (λ e. e ≡ ReadFault.NoMemory) }
{
    frames.push(frame)?;
    Ok(())
}

/// The innermost open bracket, which is taken off.
fn innermost(frames: &mut Vec<Frame>) -> Option<Frame>
    ensures found { IfSome result (λ f. stack_of frames.old.items ≡ frame_of f ∷ stack_of frames.new.items) }
    ensures none { IfNone result (stack_of frames.old.items ≡ []) }
{
    frames.pop()
}

/// A body stands whole within `[`.
fn after_attr(at: u32, attrs: Vec<Attr>, out: Vec<Term>, seen: Seen<'_>) -> Result<Point, ReadFault>
    ensures found { IfOk result (λ p. attr_point at (map attr_of attrs.items) (map term_of out.items) seen.entry.token.kind ≡ Some (point_of p)) }
    ensures fault { IfErr result (λ e. (e ≡ ReadFault.Unexpected seen.entry.token.from) × (attr_point at (map attr_of attrs.items) (map term_of out.items) seen.entry.token.kind ≡ None)) }
{
    match seen.token.kind {
        TokenKind::Comma => Ok(Point::WantAttr { at, attrs, out }),
        TokenKind::AvmCloses => Ok(Point::GotTerm {
            terms: out,
            last: avm(attrs, at),
        }),
        _ => Err(unexpected(seen)),
    }
}

/// A body stands whole within `<!`.
fn after_diff_item(
    at: u32,
    items: Vec<Body>,
    out: Vec<Term>,
    seen: Seen<'_>,
) -> Result<Point, ReadFault>
    ensures found { IfOk result (λ p. diff_point at (map body_in items.items) (map term_of out.items) seen.entry.token.kind ≡ Some (point_of p)) }
    ensures fault { IfErr result (λ e. (e ≡ ReadFault.Unexpected seen.entry.token.from) × (diff_point at (map body_in items.items) (map term_of out.items) seen.entry.token.kind ≡ None)) }
{
    match seen.token.kind {
        TokenKind::Comma => Ok(Point::DiffGoesOn { at, items, out }),
        TokenKind::DiffCloses => Ok(Point::GotTerm {
            terms: out,
            last: diff(items, at),
        }),
        _ => Err(unexpected(seen)),
    }
}

/// The rest of a list stands whole.
fn after_tail(
    at: u32,
    items: Vec<Body>,
    body: Body,
    out: Vec<Term>,
    seen: Seen<'_>,
) -> Result<Point, ReadFault>
    ensures found { IfOk result (λ p. tail_point at (map body_in items.items) (body_in body) (map term_of out.items) seen.entry.token.kind ≡ Some (point_of p)) }
    ensures fault { IfErr result (λ e. (e ≡ ReadFault.Unexpected seen.entry.token.from) × (tail_point at (map body_in items.items) (body_in body) (map term_of out.items) seen.entry.token.kind ≡ None)) }
{
    match seen.token.kind {
        TokenKind::ListCloses => Ok(Point::GotTerm {
            terms: out,
            last: list(items, tail(body), at),
        }),
        _ => Err(unexpected(seen)),
    }
}

/// A body stands whole within `<`.
fn after_item(
    alloc: Global,
    frames: &mut Vec<Frame>,
    at: u32,
    items: Vec<Body>,
    out: Vec<Term>,
    seen: Seen<'_>,
) -> Result<Point, ReadFault>
    ensures found { IfOk result (λ p. item_step (stack_of frames.old.items) at (map body_in items.items) (map term_of out.items) seen.entry.token.kind ≡ at_point (stack_of frames.new.items) (point_of p)) }
    ensures fault { IfErr result (λ e. IsStop (item_step (stack_of frames.old.items) at (map body_in items.items) (map term_of out.items) seen.entry.token.kind) seen.entry.token.from e) }
{
    match seen.token.kind {
        TokenKind::Comma => Ok(Point::ListGoesOn { at, items, out }),
        TokenKind::Dot => {
            open_frame(frames, Frame::InTail { at, items, out })?;
            Ok(Point::WantTerm {
                terms: Vec::new(alloc),
            })
        }
        TokenKind::ListCloses => Ok(Point::GotTerm {
            terms: out,
            last: list(items, closed(), at),
        }),
        _ => Err(unexpected(seen)),
    }
}

/// A body stands whole within the innermost bracket.
fn after_body(
    alloc: Global,
    frames: &mut Vec<Frame>,
    body: Body,
    seen: Seen<'_>,
) -> Result<Point, ReadFault>
    ensures found { IfOk result (λ p. after_body (stack_of frames.old.items) (body_in body) seen.entry.token.kind ≡ at_point (stack_of frames.new.items) (point_of p)) }
    ensures fault { IfErr result (λ e. IsStop (after_body (stack_of frames.old.items) (body_in body) seen.entry.token.kind) seen.entry.token.from e) }
{
    match innermost(frames) {
        None => Err(unexpected(seen)),
        Some(
            Frame::InAvm {
                at,
                attrs,
                path,
                out,
            },
        ) => after_attr(at, with_attr(attrs, path, body)?, out, seen),
        Some(Frame::InList { at, items, out }) => {
            after_item(alloc, frames, at, with_item(items, body)?, out, seen)
        }
        Some(Frame::InTail { at, items, out }) => after_tail(at, items, body, out, seen),
        Some(Frame::InDiff { at, items, out }) => {
            after_diff_item(at, with_item(items, body)?, out, seen)
        }
    }
}

/// After a term: another of its body, or the end of the body.
fn after_term(
    alloc: Global,
    frames: &mut Vec<Frame>,
    mut terms: Vec<Term>,
    last: Term,
    seen: Seen<'_>,
) -> Result<Point, ReadFault>
    ensures found { IfOk result (λ p. point_step (stack_of frames.old.items) (got_term (map term_of terms.items) (term_of last)) seen.entry.token.kind (tok_in seen.entry) ≡ at_point (stack_of frames.new.items) (point_of p)) }
    ensures fault { IfErr result (λ e. IsStop (point_step (stack_of frames.old.items) (got_term (map term_of terms.items) (term_of last)) seen.entry.token.kind (tok_in seen.entry)) seen.entry.token.from e) }
{
    if seen.token.kind == TokenKind::And {
        add(&mut terms, 2, last)?;
        return Ok(Point::WantTerm { terms });
    }
    after_body(alloc, frames, whole(terms, last)?, seen)
}

/// After `[`.
fn avm_begins(alloc: Global, at: u32, out: Vec<Term>, seen: Seen<'_>) -> Result<Point, ReadFault>
    requires { IsOfText seen }
    ensures found { IfOk result (λ p. (stack : List FrameTree) → point_step stack (avm_begins at (map term_of out.items)) seen.entry.token.kind (tok_in seen.entry) ≡ at_point stack (point_of p)) }
    ensures fault { IfErr result (λ e. (stack : List FrameTree) → IsStop (point_step stack (avm_begins at (map term_of out.items)) seen.entry.token.kind (tok_in seen.entry)) seen.entry.token.from e) }
{
    match seen.token.kind {
        TokenKind::Name => Ok(Point::GotFeature {
            at,
            attrs: Vec::new(alloc),
            path: with_feature(alloc, Vec::new(alloc), seen)?,
            out,
        }),
        TokenKind::AvmCloses => Ok(Point::GotTerm {
            terms: out,
            last: avm(Vec::new(alloc), at),
        }),
        _ => Err(unexpected(seen)),
    }
}

/// After `,` within `[`.
fn want_attr(
    alloc: Global,
    at: u32,
    attrs: Vec<Attr>,
    out: Vec<Term>,
    seen: Seen<'_>,
) -> Result<Point, ReadFault>
    requires { IsOfText seen }
    ensures found { IfOk result (λ p. (stack : List FrameTree) → point_step stack (want_attr at (map attr_of attrs.items) (map term_of out.items)) seen.entry.token.kind (tok_in seen.entry) ≡ at_point stack (point_of p)) }
    ensures fault { IfErr result (λ e. (stack : List FrameTree) → IsStop (point_step stack (want_attr at (map attr_of attrs.items) (map term_of out.items)) seen.entry.token.kind (tok_in seen.entry)) seen.entry.token.from e) }
{
    match seen.token.kind {
        TokenKind::Name => Ok(Point::GotFeature {
            at,
            attrs,
            path: with_feature(alloc, Vec::new(alloc), seen)?,
            out,
        }),
        _ => Err(unexpected(seen)),
    }
}

/// After the dot of a path.
fn want_feature(
    alloc: Global,
    at: u32,
    attrs: Vec<Attr>,
    path: Vec<String>,
    out: Vec<Term>,
    seen: Seen<'_>,
) -> Result<Point, ReadFault>
    requires { IsOfText seen }
    ensures found { IfOk result (λ p. (stack : List FrameTree) → point_step stack (want_feature at (map attr_of attrs.items) (map string_bytes path.items) (map term_of out.items)) seen.entry.token.kind (tok_in seen.entry) ≡ at_point stack (point_of p)) }
    ensures fault { IfErr result (λ e. (stack : List FrameTree) → IsStop (point_step stack (want_feature at (map attr_of attrs.items) (map string_bytes path.items) (map term_of out.items)) seen.entry.token.kind (tok_in seen.entry)) seen.entry.token.from e) }
{
    match seen.token.kind {
        TokenKind::Name => Ok(Point::GotFeature {
            at,
            attrs,
            path: with_feature(alloc, path, seen)?,
            out,
        }),
        _ => Err(unexpected(seen)),
    }
}

/// A body begins within a bracket.
fn inner(
    alloc: Global,
    frames: &mut Vec<Frame>,
    frame: Frame,
    seen: Seen<'_>,
) -> Result<Point, ReadFault>
    requires { IsOfText seen }
    ensures found { IfOk result (λ p. term_step (frame_of frame ∷ stack_of frames.old.items) [] seen.entry.token.kind (tok_in seen.entry) ≡ at_point (stack_of frames.new.items) (point_of p)) }
    ensures fault { IfErr result (λ e. IsStop (term_step (frame_of frame ∷ stack_of frames.old.items) [] seen.entry.token.kind (tok_in seen.entry)) seen.entry.token.from e) }
{
    open_frame(frames, frame)?;
    term(alloc, Vec::new(alloc), seen)
}

/// After a feature of a path: its dot, or the value.
fn got_feature(
    alloc: Global,
    frames: &mut Vec<Frame>,
    at: u32,
    attrs: Vec<Attr>,
    path: Vec<String>,
    out: Vec<Term>,
    seen: Seen<'_>,
) -> Result<Point, ReadFault>
    requires { IsOfText seen }
    ensures found { IfOk result (λ p. point_step (stack_of frames.old.items) (got_feature at (map attr_of attrs.items) (map string_bytes path.items) (map term_of out.items)) seen.entry.token.kind (tok_in seen.entry) ≡ at_point (stack_of frames.new.items) (point_of p)) }
    ensures fault { IfErr result (λ e. IsStop (point_step (stack_of frames.old.items) (got_feature at (map attr_of attrs.items) (map string_bytes path.items) (map term_of out.items)) seen.entry.token.kind (tok_in seen.entry)) seen.entry.token.from e) }
{
    if seen.token.kind == TokenKind::Dot {
        return Ok(Point::WantFeature {
            at,
            attrs,
            path,
            out,
        });
    }
    inner(
        alloc,
        frames,
        Frame::InAvm {
            at,
            attrs,
            path,
            out,
        },
        seen,
    )
}

/// After `<`.
fn list_begins(
    alloc: Global,
    frames: &mut Vec<Frame>,
    at: u32,
    out: Vec<Term>,
    seen: Seen<'_>,
) -> Result<Point, ReadFault>
    requires { IsOfText seen }
    ensures found { IfOk result (λ p. point_step (stack_of frames.old.items) (list_begins at (map term_of out.items)) seen.entry.token.kind (tok_in seen.entry) ≡ at_point (stack_of frames.new.items) (point_of p)) }
    ensures fault { IfErr result (λ e. IsStop (point_step (stack_of frames.old.items) (list_begins at (map term_of out.items)) seen.entry.token.kind (tok_in seen.entry)) seen.entry.token.from e) }
{
    let items = Vec::new(alloc);
    match seen.token.kind {
        TokenKind::ListCloses => Ok(Point::GotTerm {
            terms: out,
            last: list(items, closed(), at),
        }),
        TokenKind::Dots => Ok(Point::WantClose { at, items, out }),
        _ => inner(alloc, frames, Frame::InList { at, items, out }, seen),
    }
}

/// After `,` within `<`.
fn list_goes_on(
    alloc: Global,
    frames: &mut Vec<Frame>,
    at: u32,
    items: Vec<Body>,
    out: Vec<Term>,
    seen: Seen<'_>,
) -> Result<Point, ReadFault>
    requires { IsOfText seen }
    ensures found { IfOk result (λ p. point_step (stack_of frames.old.items) (list_goes_on at (map body_in items.items) (map term_of out.items)) seen.entry.token.kind (tok_in seen.entry) ≡ at_point (stack_of frames.new.items) (point_of p)) }
    ensures fault { IfErr result (λ e. IsStop (point_step (stack_of frames.old.items) (list_goes_on at (map body_in items.items) (map term_of out.items)) seen.entry.token.kind (tok_in seen.entry)) seen.entry.token.from e) }
{
    if seen.token.kind == TokenKind::Dots {
        return Ok(Point::WantClose { at, items, out });
    }
    inner(alloc, frames, Frame::InList { at, items, out }, seen)
}

/// After `...`.
fn want_close(at: u32, items: Vec<Body>, out: Vec<Term>, seen: Seen<'_>) -> Result<Point, ReadFault>
    ensures found { IfOk result (λ p. (stack : List FrameTree) → point_step stack (want_close at (map body_in items.items) (map term_of out.items)) seen.entry.token.kind (tok_in seen.entry) ≡ at_point stack (point_of p)) }
    ensures fault { IfErr result (λ e. (stack : List FrameTree) → IsStop (point_step stack (want_close at (map body_in items.items) (map term_of out.items)) seen.entry.token.kind (tok_in seen.entry)) seen.entry.token.from e) }
{
    match seen.token.kind {
        TokenKind::ListCloses => Ok(Point::GotTerm {
            terms: out,
            last: list(items, open_end(), at),
        }),
        _ => Err(unexpected(seen)),
    }
}

/// After `<!`.
fn diff_begins(
    alloc: Global,
    frames: &mut Vec<Frame>,
    at: u32,
    out: Vec<Term>,
    seen: Seen<'_>,
) -> Result<Point, ReadFault>
    requires { IsOfText seen }
    ensures found { IfOk result (λ p. point_step (stack_of frames.old.items) (diff_begins at (map term_of out.items)) seen.entry.token.kind (tok_in seen.entry) ≡ at_point (stack_of frames.new.items) (point_of p)) }
    ensures fault { IfErr result (λ e. IsStop (point_step (stack_of frames.old.items) (diff_begins at (map term_of out.items)) seen.entry.token.kind (tok_in seen.entry)) seen.entry.token.from e) }
{
    let items = Vec::new(alloc);
    if seen.token.kind == TokenKind::DiffCloses {
        return Ok(Point::GotTerm {
            terms: out,
            last: diff(items, at),
        });
    }
    inner(alloc, frames, Frame::InDiff { at, items, out }, seen)
}

/// A token within a body.
pub(crate) fn point_step(
    alloc: Global,
    frames: &mut Vec<Frame>,
    point: Point,
    seen: Seen<'_>,
) -> Result<Point, ReadFault>
    requires { IsOfText seen }
    ensures found { IfOk result (λ p. point_step (stack_of frames.old.items) (point_of point) seen.entry.token.kind (tok_in seen.entry) ≡ at_point (stack_of frames.new.items) (point_of p)) }
    ensures fault { IfErr result (λ e. IsStop (point_step (stack_of frames.old.items) (point_of point) seen.entry.token.kind (tok_in seen.entry)) seen.entry.token.from e) }
{
    match point {
        Point::WantTerm { terms } => term(alloc, terms, seen),
        Point::GotTerm { terms, last } => after_term(alloc, frames, terms, last, seen),
        Point::AvmBegins { at, out } => avm_begins(alloc, at, out, seen),
        Point::WantAttr { at, attrs, out } => want_attr(alloc, at, attrs, out, seen),
        Point::GotFeature {
            at,
            attrs,
            path,
            out,
        } => got_feature(alloc, frames, at, attrs, path, out, seen),
        Point::WantFeature {
            at,
            attrs,
            path,
            out,
        } => want_feature(alloc, at, attrs, path, out, seen),
        Point::ListBegins { at, out } => list_begins(alloc, frames, at, out, seen),
        Point::ListGoesOn { at, items, out } => list_goes_on(alloc, frames, at, items, out, seen),
        Point::WantClose { at, items, out } => want_close(at, items, out, seen),
        Point::DiffBegins { at, out } => diff_begins(alloc, frames, at, out, seen),
        Point::DiffGoesOn { at, items, out } => {
            inner(alloc, frames, Frame::InDiff { at, items, out }, seen)
        }
    }
}

/// The same where the point stands: it is all that moves.
pub(crate) fn go_on(
    alloc: Global,
    frames: &mut Vec<Frame>,
    point: &mut Point,
    seen: Seen<'_>,
) -> Result<(), ReadFault>
    requires { IsOfText seen }
    ensures found { OnOk result (point_step (stack_of frames.old.items) (point_of point.old) seen.entry.token.kind (tok_in seen.entry) ≡ at_point (stack_of frames.new.items) (point_of point.new)) }
    ensures fault { IfErr result (λ e. IsStop (point_step (stack_of frames.old.items) (point_of point.old) seen.entry.token.kind (tok_in seen.entry)) seen.entry.token.from e) }
{
    let here = mem::replace(
        point,
        Point::WantTerm {
            terms: Vec::new(alloc),
        },
    );
    *point = point_step(alloc, frames, here, seen)?;
    Ok(())
}
