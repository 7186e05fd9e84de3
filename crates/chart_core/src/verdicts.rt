//! Verdicts on hosts, found before an outcome is entered.

ghost use Rattle.std.specs.Prelude.{IfOk};
ghost use Rattle.chart_core.specs.Verdicts.{StandsTo};

use crate::{Outcome, Peer, Peers, Tested, Verdict};
use chart_model::{NoMemory, Shapes};
use std::alloc::Global;

impl<S: Shapes> Peers<S> {
    ghost use Rattle.std.specs.Prelude.{All, IfOk};
    ghost use Rattle.chart_core.specs.Grammar.{grammar_of};
    ghost use Rattle.chart_core.specs.Outcomes.{ShapeBelongs};
    ghost use Rattle.chart_core.specs.Later.{AreLasting};
    ghost use Rattle.chart_core.specs.Verdicts.{OneEach};

    /// How the structure of each of these hosts stands to that of an outcome, in order; nothing where it has none.
    ///
    /// What is found is right in the core whose live hosts these are, and stays so while outcomes are entered there.
    pub fn test(
        &self,
        alloc: Global,
        shapes: &S,
        work: &mut S::Work,
        outcome: &Outcome<S>,
    ) -> Result<Tested, NoMemory>
        requires hosts { All (λ peer. S.belongs shapes.now peer.shape) self.now.hosts.items }
        requires outcome { ShapeBelongs (S.belongs shapes.now) outcome.now }
        ensures each { IfOk result (λ t. OneEach self.now.hosts.items outcome.now t.verdicts.items) }
        ensures right { IfOk result (λ t. AreLasting (grammar_of S.Shapes S.Cover.Cover.own shapes.now) self.now.hosts.items outcome.now t.verdicts.items) }
    {
        let mut verdicts = Vec::new(alloc);
        let Outcome::Whole { shape, .. } = outcome else {
            return Ok(Tested { verdicts });
        };
        for peer in &self.hosts {
            verdicts.push(verdict_on(shapes, work, peer, shape)?)?;
        }
        Ok(Tested { verdicts })
    }
}

// How the structure of a host stands to another.
fn verdict_on<S: Shapes>(
    shapes: &S,
    work: &mut S::Work,
    peer: &Peer<S>,
    shape: &S::Shape,
) -> Result<Verdict, NoMemory>
    requires peer { S.belongs shapes.now peer.now.shape }
    requires shape { S.belongs shapes.now shape.now }
    ensures { IfOk result (StandsTo (S.calculus shapes.now) (S.meaning shapes.now) (S.meaning shapes.now shape.now) peer.now) }
{
    Ok(Verdict {
        row: peer.row,
        over: shapes.subsumes(work, &peer.shape, shape)?,
        under: shapes.subsumes(work, shape, &peer.shape)?,
    })
}
