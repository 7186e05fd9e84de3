//! What a worker finds for a task.

ghost use Rattle.std.specs.Prelude.{IfOk};
ghost use Rattle.chart_model.specs.Tuples.{IsFor};
ghost use Rattle.chart_core.specs.Outcomes.{IsRightFor, ShapeBelongs};

use crate::Outcome;
use chart_model::{NoMemory, Shapes, Tuple};
use std::alloc::Global;

/// The outcome of a rule with these daughters, as a worker finds it outside the chart.
///
/// The quick test is asked first. The answer is right for the daughters: `Fails` where they have no cover under the rule or where the rule applies to no
/// tuple that begins with them, `Fits` where the tuple isn't whole yet, and otherwise the mother.
pub fn outcome_of<S: Shapes>(
    alloc: Global,
    shapes: &S,
    work: &mut S::Work,
    rule: u32,
    parts: &Tuple<S::Shape, S::Cover>,
) -> Result<Outcome<S>, NoMemory>
    requires { IsFor (S.calculus shapes.now) (S.belongs shapes.now) rule parts.now }
    ensures right { IfOk result (λ o. IsRightFor (S.calculus shapes.now) (S.meaning shapes.now) rule parts.now o) }
    ensures belongs { IfOk result (λ o. ShapeBelongs (S.belongs shapes.now) o) }
{
    if !shapes.may(work, rule, parts) {
        return Ok(Outcome::Fails);
    }
    let Some(cover) = shapes.covers(alloc, rule, parts)? else {
        return Ok(Outcome::Fails);
    };
    if parts.count < shapes.arity(rule) {
        if shapes.fits(alloc, work, rule, parts)? {
            Ok(Outcome::Fits { cover })
        } else {
            Ok(Outcome::Fails)
        }
    } else {
        match shapes.apply(alloc, work, rule, parts)? {
            None => Ok(Outcome::Fails),
            Some(shape) => Ok(Outcome::Whole { cover, shape }),
        }
    }
}
