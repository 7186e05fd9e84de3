//! What is known of a rule with daughters.

ghost use Rattle.std.specs.Prelude.{◌≡◌, IfSome, IsTrue, map, option_map};
ghost use Rattle.chart_model.specs.Tuples.{shapes_of};
ghost use Rattle.shape_memo.specs.Known.{IsRightFor, meant};

use crate::marked::Marked;
use boxcar::slot::Written;
use chart_model::{Part, Tuple};
use std::snapshot::Snapshot;

/// What the shapes said: whether daughters fit, or the mother of a whole tuple.
#[derive(Drop)]
pub enum Outcome<T> {
    Fits(bool),
    Mother(Option<T>),
}

/// What the shapes said of a rule with these daughters.
#[derive(Drop)]
pub struct Answer<S: Marked> {
    // of which shapes it is, which proofs alone see
    pub stamp: Written<Snapshot<S>>,
    pub hash: u64,
    pub rule: u32,
    pub parts: Tuple<S::Shape, ()>,
    pub outcome: Outcome<S::Shape>,
}

/// A hash with one more word.
fn mixed(hash: u64, word: u64) -> u64 {
    (hash ^ word)
        .wrapping_mul(0x9E37_79B9_7F4A_7C15)
        .rotate_left(29)
}

/// A hash with one more daughter.
fn with_part<S: Marked, C>(shapes: &S, hash: u64, part: &Option<Part<S::Shape, C>>) -> u64 {
    match part {
        Some(part) => mixed(hash, shapes.mark(&part.shape)),
        None => hash,
    }
}

/// A number by which the answer to a rule with daughters is found.
pub fn hash_of<S: Marked, C>(
    shapes: &S,
    whole: bool,
    rule: u32,
    parts: &Tuple<S::Shape, C>,
) -> u64 {
    let hash = mixed(whole as u64, rule as u64);
    let hash = with_part(shapes, hash, &parts.a);
    let hash = with_part(shapes, hash, &parts.b);
    let hash = with_part(shapes, hash, &parts.c);
    with_part(shapes, hash, &parts.d)
}

/// Whether two daughters are seen to be the same, or there are none.
fn same_part<S: Marked, C>(
    shapes: &S,
    part: &Option<Part<S::Shape, ()>>,
    other: &Option<Part<S::Shape, C>>,
) -> bool
    ensures { IsTrue result → option_map (meant (S.meaning shapes.now)) part.now ≡ option_map (meant (S.meaning shapes.now)) other.now }
{
    match (part, other) {
        (Some(part), Some(other)) => shapes.same(&part.shape, &other.shape),
        (None, None) => true,
        _ => false,
    }
}

/// Whether all daughters are seen to be the same.
#[tactic(auto, using(crate::proofs::TupleLemmas::same_shapes))]
fn same_parts<S: Marked, C>(
    shapes: &S,
    parts: &Tuple<S::Shape, ()>,
    others: &Tuple<S::Shape, C>,
) -> bool
    ensures { IsTrue result → map (S.meaning shapes.now) (shapes_of parts.now) ≡ map (S.meaning shapes.now) (shapes_of others.now) }
{
    same_part(shapes, &parts.a, &others.a)
        && same_part(shapes, &parts.b, &others.b)
        && same_part(shapes, &parts.c, &others.c)
        && same_part(shapes, &parts.d, &others.d)
}

impl<S: Marked> Answer<S> {
    /// What the shapes said of a rule with these daughters, if this answer is seen to be of them.
    pub fn told<C>(
        &self,
        shapes: &S,
        stamp: &Written<Snapshot<S>>,
        hash: u64,
        rule: u32,
        parts: &Tuple<S::Shape, C>,
    ) -> Option<&Outcome<S::Shape>>
        requires same { self.now.stamp.of ≡ stamp.now.of }
        requires shapes { stamp.now.value.value ≡ shapes.now }
        requires right { IsRightFor (S.calculus self.now.stamp.value.value) (S.meaning self.now.stamp.value.value) (S.belongs self.now.stamp.value.value) self.now.rule self.now.parts self.now.outcome }
        ensures { IfSome result (λ o. IsRightFor (S.calculus shapes.now) (S.meaning shapes.now) (S.belongs shapes.now) rule parts.now o.now) }
    {
        self.stamp.agrees(stamp);
        if self.hash == hash && self.rule == rule && same_parts(shapes, &self.parts, parts) {
            Some(&self.outcome)
        } else {
            None
        }
    }
}
