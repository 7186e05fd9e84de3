//! Who works on a chart.
ghost use Rattle.chart_workers.specs.Crews.{IsCrewSize};

use std::alloc::Global;

/// How many workers share a chart, 1 to 64, and their scratches, which are kept from one chart to the next.
#[derive(Drop)]
pub struct Crew<W> {
    pub(crate) workers: u32,
    pub(crate) works: Vec<W>,
    ghost size: { IsCrewSize workers },
}

impl<W: Drop> Crew<W> {
    ghost use Rattle.std.specs.Prelude.{◌≡◌, ◌==◌};
    ghost use Rattle.chart_workers.specs.Crews.{IsCrewSize};
    ghost use Rattle.chart_workers.specs.CrewViews.{crew_size};

    /// So many workers, which have no scratch yet. Takes no memory.
    pub fn new(alloc: Global, workers: u32) -> Crew<W>
        requires { IsCrewSize workers }
        ensures { crew_size result ≡ workers }
    {
        Crew {
            workers,
            works: Vec::new(alloc),
        }
    }

    /// Whether it is one worker.
    pub fn is_alone(&self) -> bool
        ensures { result ≡ (crew_size self.now == 1) }
    {
        self.workers == 1
    }
}
