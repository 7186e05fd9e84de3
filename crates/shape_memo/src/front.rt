//! The first daughter of a tuple, by itself.

ghost use Rattle.std.specs.Prelude.{◌≡◌, ℕ, All, IfOk};
ghost use Rattle.chart_model.specs.Tuples.{shapes_of, IsFor};
ghost use Rattle.shape_memo.specs.Fronts.{BeginsWith};

use crate::NoMemory;
use crate::marked::Marked;
use chart_model::{Cover, Part, Tuple};
use std::alloc::Global;

/// The first daughter by itself, as what a tuple begins with.
pub fn first_alone<S: Marked>(
    alloc: Global,
    shapes: &S,
    parts: &Tuple<S::Shape, S::Cover>,
) -> Result<Tuple<S::Shape, S::Cover>, NoMemory>
    requires belong { All (S.belongs shapes.now) (shapes_of parts.now) }
    ensures fit { IfOk result (λ front. (rule : ℕ) → IsFor (S.calculus shapes.now) (S.belongs shapes.now) rule parts.now → IsFor (S.calculus shapes.now) (S.belongs shapes.now) rule front) }
    ensures begins { IfOk result (λ front. BeginsWith (S.meaning shapes.now) front parts.now) }
{
    let Some(part) = &parts.a else {
        return Err(NoMemory);
    };
    let shape = shapes.share(alloc, &part.shape)?;
    let cover = part.cover.share(alloc)?;
    Ok(Tuple {
        count: 1,
        a: Some(Part { shape, cover }),
        b: None,
        c: None,
        d: None,
    })
}
