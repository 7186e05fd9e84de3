//! Covers in parsing.

ghost use Rattle.std.specs.Prelude.{◌≡◌};
ghost use Rattle.chart_model.specs.Spans.{join_all};
ghost use Rattle.chart_model.specs.Tuples.{covers_of, IsTuple};
ghost use Rattle.chart_model.specs.inner.Joined.{join_part};

use crate::NoMemory;
use crate::covers::{Cover, Part, Tuple};
use std::alloc::Global;

/// From the node `from` to the node `to` of a line's lattice; `from` is less than `to`.
#[derive(Debug, Drop, Clone, Copy, PartialEq, Eq, PartialOrd, Ord)]
pub struct Span {
    pub from: u32,
    pub to: u32,
}

impl Span {
    /// The span of these daughters from end to end, where each begins where the one before it ends; none of no daughters.
    pub fn over<T>(parts: &Tuple<T, Span>) -> Option<Span>
        requires { IsTuple parts.now }
        ensures { result ≡ join_all (covers_of parts.now) }
    {
        let first = parts.a.as_ref().map(|part| part.cover);
        let two = with_next(first, &parts.b);
        let three = with_next(two, &parts.c);
        with_next(three, &parts.d)
    }
}

// The join of a span, where there is one, with a daughter's, where there is one.
fn with_next<T>(left: Option<Span>, next: &Option<Part<T, Span>>) -> Option<Span>
    ensures { result ≡ join_part left next.now }
{
    match (left, next) {
        (Some(span), Some(part)) => {
            if span.to == part.cover.from {
                Some(Span {
                    from: span.from,
                    to: part.cover.to,
                })
            } else {
                None
            }
        }
        (found, _) => found,
    }
}

/// Spans join exactly where the left one ends at the right one's beginning. No call takes memory.
impl Cover for Span {
    ghost use Rattle.std.specs.Prelude.{ℕ};
    ghost use Rattle.chart_model.specs.Spans.{span_join, span_size, span_cell};
    ghost use Rattle.chart_model.specs.SpanLaws.{span_told, span_meets};

    type Bound = ();

    ghost extent = { span_size };

    ghost joined = { λ _. span_join };

    ghost cell_of = { span_cell };

    ghost begins = { λ s. s.from };

    ghost ends = { λ s. s.to };

    fn join(&self, _alloc: Global, right: &Span, _bound: &()) -> Result<Option<Span>, NoMemory> {
        if self.to == right.from {
            Ok(Some(Span {
                from: self.from,
                to: right.to,
            }))
        } else {
            Ok(None)
        }
    }

    fn joins(&self, right: &Span, _bound: &()) -> bool {
        self.to == right.from
    }

    fn share(&self, _alloc: Global) -> Result<Span, NoMemory> {
        Ok(*self)
    }

    fn size(&self) -> u32 {
        self.to.saturating_sub(self.from)
    }

    fn cell(&self) -> u32 {
        (self.from % 65536) * 65536 + self.to % 65536
    }

    fn begin(&self) -> u32 {
        self.from
    }

    fn end(&self) -> u32 {
        self.to
    }

    ghost told_apart = { span_told };

    ghost meets = { λ _. span_meets };
}
