//! What lines are worked out with. It is kept from one line to the next, and nothing of it enters into an answer.

ghost use Rattle.chart_workers.specs.Crews.{IsCrewSize};

use chart_workers::Crew;
use endings::lines::Share;
use fs_unify::Scratch;
pub use grammar_rules::Desk;
use grammar_rules::LineWork;
use std::alloc::Global;
use std::sync::{Mutex, Wait};

/// The desks that are free. A lock is held only while a desk is taken or given back.
#[derive(Drop)]
pub struct Desks {
    workers: u32,
    // of all workers, and of one
    whole: Mutex<Vec<Desk>>,
    single: Mutex<Vec<Desk>>,
    ghost size: { IsCrewSize workers },
}

impl Desks {
    ghost use Rattle.std.specs.Prelude.{◌<◌};
    ghost use Rattle.chart_workers.specs.Crews.{IsCrewSize};

    /// No desk yet, for so many workers. It takes no memory.
    pub fn new(alloc: Global, workers: u32) -> Desks
        requires { IsCrewSize workers }
    {
        Desks {
            workers,
            whole: Mutex::new(Vec::new(alloc)),
            single: Mutex::new(Vec::new(alloc)),
        }
    }

    /// How many workers there are.
    pub fn workers(&self) -> u32
        ensures { 0 < result }
    {
        self.workers
    }

    // How many workers have a desk with this share.
    fn crew_size(&self, share: Share) -> u32
        ensures { IsCrewSize result }
    {
        match share {
            Share::Whole => self.workers,
            Share::Single => 1,
        }
    }

    // The free desks with this share.
    fn pool(&self, share: Share) -> &Mutex<Vec<Desk>> {
        match share {
            Share::Whole => &self.whole,
            Share::Single => &self.single,
        }
    }

    /// A desk for a line with this share of the workers: a free one, or a new one. It takes no memory.
    pub fn take<Rt: Wait>(&self, rt: &Rt, alloc: Global, share: Share) -> Desk {
        let free = self.pool(share).lock(rt).pop();
        if let Some(desk) = free {
            return desk;
        }
        let work = LineWork {
            chart: Scratch::new(alloc),
            trees: Scratch::new(alloc),
        };
        let crew = Crew::new(alloc, self.crew_size(share));
        Desk { work, crew }
    }

    /// Gives a desk back that was taken with this share. Where memory is wanting for it, it is let go.
    pub fn give_back<Rt: Wait>(&self, rt: &Rt, share: Share, desk: Desk) {
        let _kept = self.pool(share).lock(rt).push(desk);
    }
}
