//! Shapes and a gate that count their calls, hold them and refuse them.

ghost use Rattle.std.specs.Prelude.{◌≡◌};

use chart_model::{NoMemory, Shapes, Span, TableShapes, Tuple};
use std::alloc::Global;
use std::sync::atomic::{AtomicBool, AtomicU64, Ordering};
use worker_gate::Gate;

// for how many turns a call is held at most
const TURNS: u64 = 1_000_000_000;

/// What the shapes and the gate of some workers share.
#[derive(Drop)]
pub struct Watch {
    /// the call of `apply` that answers `NoMemory`, from 1 on; none where this is 0
    refused: u64,
    /// whether the first worker is held at its first task until `subsumes` is called, and that call until the gate has been
    /// called twice more
    holds: bool,
    applied: AtomicU64,
    tested: AtomicU64,
    came: AtomicU64,
    two_came: AtomicBool,
}

impl Watch {
    pub fn new(refused: u64, holds: bool) -> Watch {
        Watch {
            refused,
            holds,
            applied: AtomicU64::new(0),
            tested: AtomicU64::new(0),
            came: AtomicU64::new(0),
            two_came: AtomicBool::new(false),
        }
    }

    /// Whether the gate was called twice more while the first call of `subsumes` was held.
    pub fn two_came(&self) -> bool {
        self.two_came.load(Ordering::SeqCst)
    }

    // Whether this call of `apply` is the one that is refused.
    fn is_refused(&self) -> bool {
        self.applied.fetch_add(1, Ordering::SeqCst).wrapping_add(1) == self.refused
    }

    fn test(&self) {
        if self.tested.fetch_add(1, Ordering::SeqCst) > 0 || !self.holds {
            return;
        }
        let before = self.came.load(Ordering::SeqCst);
        self.two_came.store(
            reaches(&self.came, before.saturating_add(2)),
            Ordering::SeqCst,
        );
    }
}

// Waits until this word is at least so much, for so many turns at most, and tells whether it is.
fn reaches(word: &AtomicU64, least: u64) -> bool {
    for _ in 0..TURNS {
        if word.load(Ordering::SeqCst) >= least {
            return true;
        }
    }
    false
}

impl Gate for Watch {
    fn at(&self, _worker: u32, _task: u64) {
        if self.came.fetch_add(1, Ordering::SeqCst) == 0 && self.holds {
            reaches(&self.tested, 1);
        }
    }
}

/// A table of rules whose calls are watched.
#[derive(Drop)]
pub struct Watched<'a> {
    pub shapes: TableShapes,
    pub watch: &'a Watch,
}

impl<'a> Shapes for Watched<'a> {
    ghost use Rattle.std.specs.Prelude.{ℕ, ◌≡◌, nat_le, true, refl};
    ghost use Rattle.chart_model.specs.Tables.{table_calculus, table_full};
    ghost use Rattle.chart_model.specs.inner.TableLaws.{table_laws, table_agreement};

    type Shape = u32;

    type Cover = Span;

    type Work = ();

    ghost Meaning = { ℕ };

    ghost meaning = { λ _ n. n };

    ghost belongs = { λ _ _. Unit {0} };

    ghost calculus = { λ s. table_calculus s.shapes.rules.items };

    ghost bound_of = { λ _. tt };

    ghost Full = { ℕ };

    ghost full = { λ s. table_full s.shapes.rules.items };

    ghost agrees = { λ _ m f. nat_le m f ≡ true };

    fn rules(&self) -> u32 {
        self.shapes.rules()
    }

    fn arity(&self, rule: u32) -> u32 {
        self.shapes.arity(rule)
    }

    fn work(&self, alloc: Global) -> Result<(), NoMemory> {
        self.shapes.work(alloc)
    }

    fn bound(&self) -> &() {
        self.shapes.bound()
    }

    fn share(&self, alloc: Global, shape: &u32) -> Result<u32, NoMemory> {
        self.shapes.share(alloc, shape)
    }

    fn may(&self, work: &mut (), rule: u32, parts: &Tuple<u32, Span>) -> bool {
        self.shapes.may(work, rule, parts)
    }

    fn fits(
        &self,
        alloc: Global,
        work: &mut (),
        rule: u32,
        parts: &Tuple<u32, Span>,
    ) -> Result<bool, NoMemory> {
        self.shapes.fits(alloc, work, rule, parts)
    }

    fn apply(
        &self,
        alloc: Global,
        work: &mut (),
        rule: u32,
        parts: &Tuple<u32, Span>,
    ) -> Result<Option<u32>, NoMemory> {
        if self.watch.is_refused() {
            return Err(NoMemory);
        }
        self.shapes.apply(alloc, work, rule, parts)
    }

    fn covers(
        &self,
        alloc: Global,
        rule: u32,
        parts: &Tuple<u32, Span>,
    ) -> Result<Option<Span>, NoMemory> {
        self.shapes.covers(alloc, rule, parts)
    }

    fn subsumes(&self, work: &mut (), general: &u32, special: &u32) -> Result<bool, NoMemory> {
        self.watch.test();
        self.shapes.subsumes(work, general, special)
    }

    ghost laws = { λ s. table_laws s.shapes.rules.items s.shapes.sized };

    ghost agreement = { λ s. table_agreement s.shapes.rules.items };

    ghost joins = { λ s c d. refl };

    ghost sames = { λ s c d. refl };

    ghost sizes = { λ s c. refl };
}
