//! Shapes that are numbers, and rules as a table: a small grammar for tests.
//!
//! The smaller of two numbers subsumes the larger. A rule has a limit for each daughter and a mother;
//! it applies where each daughter is at most its limit.

ghost use Rattle.std.specs.Prelude.{◌≡◌, ◌≤◌, ◌<◌, ◌^◌, All, length};
ghost use Rattle.chart_model.specs.Tables.{IsSized};
ghost use Rattle.chart_model.specs.inner.Begun.{starts_within};
ghost use Rattle.chart_model.specs.Tuples.{shapes_of, IsTuple};

use crate::covers::{Shapes, Tuple};
use crate::table_rule::TableRule;
use crate::{NoMemory, Span};
use std::alloc::Global;

/// A grammar of such rules over spans.
#[derive(Drop)]
pub struct TableShapes {
    rules: Vec<TableRule>,
    bound: (),
    ghost sized: { All IsSized rules.items },
    ghost few: { length rules.items < 2 ^ 32 },
}

impl TableShapes {
    /// The grammar of these rules. Takes no memory.
    pub fn new(rules: Vec<TableRule>) -> TableShapes
        requires sized { All IsSized rules.items }
        requires few { length rules.items < 2 ^ 32 }
    {
        TableShapes { rules, bound: () }
    }
}

// Whether each daughter is at most the limit at its place.
fn fits_limits(limits: &[u32], parts: &Tuple<u32, Span>) -> bool
    requires tuple { IsTuple parts.now }
    requires short { parts.now.count ≤ length limits.now }
    ensures { result ≡ starts_within limits.now (shapes_of parts.now) }
{
    match (&parts.a, &parts.b, &parts.c, &parts.d) {
        (None, _, _, _) => true,
        (Some(a), None, _, _) => a.shape <= limits[0],
        (Some(a), Some(b), None, _) => a.shape <= limits[0] && b.shape <= limits[1],
        (Some(a), Some(b), Some(c), None) => {
            a.shape <= limits[0] && b.shape <= limits[1] && c.shape <= limits[2]
        }
        (Some(a), Some(b), Some(c), Some(d)) => {
            a.shape <= limits[0]
                && b.shape <= limits[1]
                && c.shape <= limits[2]
                && d.shape <= limits[3]
        }
    }
}

impl Shapes for TableShapes {
    ghost use Rattle.std.specs.Prelude.{ℕ, ◌≡◌, nat_le, true, refl};
    ghost use Rattle.chart_model.specs.Tables.{table_calculus, table_full};
    ghost use Rattle.chart_model.specs.inner.TableLaws.{table_laws, table_agreement};

    type Shape = u32;

    type Cover = Span;

    type Work = ();

    ghost Meaning = { ℕ };

    ghost meaning = { λ _ n. n };

    ghost belongs = { λ _ _. Unit {0} };

    ghost calculus = { λ s. table_calculus s.rules.items };

    ghost bound_of = { λ _. tt };

    ghost Full = { ℕ };

    ghost full = { λ s. table_full s.rules.items };

    ghost agrees = { λ _ m f. nat_le m f ≡ true };

    fn rules(&self) -> u32 {
        self.rules.len() as u32
    }

    fn arity(&self, rule: u32) -> u32 {
        self.rules[rule as usize].limits.len() as u32
    }

    fn work(&self, _alloc: Global) -> Result<(), NoMemory> {
        Ok(())
    }

    fn bound(&self) -> &() {
        &self.bound
    }

    fn share(&self, _alloc: Global, shape: &u32) -> Result<u32, NoMemory> {
        Ok(*shape)
    }

    fn may(&self, _work: &mut (), rule: u32, parts: &Tuple<u32, Span>) -> bool {
        fits_limits(&self.rules[rule as usize].limits, parts)
    }

    fn fits(
        &self,
        _alloc: Global,
        _work: &mut (),
        rule: u32,
        parts: &Tuple<u32, Span>,
    ) -> Result<bool, NoMemory> {
        Ok(fits_limits(&self.rules[rule as usize].limits, parts))
    }

    fn apply(
        &self,
        _alloc: Global,
        _work: &mut (),
        rule: u32,
        parts: &Tuple<u32, Span>,
    ) -> Result<Option<u32>, NoMemory> {
        let row = &self.rules[rule as usize];
        if fits_limits(&row.limits, parts) {
            Ok(Some(row.mother))
        } else {
            Ok(None)
        }
    }

    fn covers(
        &self,
        _alloc: Global,
        _rule: u32,
        parts: &Tuple<u32, Span>,
    ) -> Result<Option<Span>, NoMemory> {
        Ok(Span::over(parts))
    }

    fn subsumes(&self, _work: &mut (), general: &u32, special: &u32) -> Result<bool, NoMemory> {
        Ok(*general <= *special)
    }

    ghost laws = { λ s. table_laws s.rules.items s.sized };

    ghost agreement = { λ s. table_agreement s.rules.items };

    ghost joins = { λ s c d. refl };

    ghost sames = { λ s c d. refl };

    ghost sizes = { λ s c. refl };
}
