//! How a worker ends.

/// Why a worker ended.
#[derive(Drop, Clone, Copy)]
pub enum Ended {
    /// Its seat has seen a history after which no task is pending.
    AllDone,
    /// Its seat has seen the mark of `stop`, which another one set.
    Stopped,
    /// An outcome was answered with `Full`: so many rows have become hosts that the limit of edges may be broken.
    Full { made: u64 },
    /// Want of memory.
    NoMemory,
}
