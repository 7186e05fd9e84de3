//! The order in which new tasks are pushed.

use sieve::{Priority, Ranking};

/// A rank for each task. Of tasks that are pushed together the least rank comes first, and of equal ranks the least number. It
/// orders the work and changes no answer.
pub trait Rank: Sync {
    /// The rank of a task of this rule, with a host of this size and level. Takes no memory.
    fn rank(&self, rule: u32, size: u32, level: u32) -> u32;

    /// Whether smaller hosts come first, and of equal size those of a lower level. That is the order of the ordered pass, which may
    /// then stand for one worker and asks for no rank.
    fn is_by_size(&self) -> bool;
}

/// Smaller hosts come first, and of equal size those of a lower level.
#[derive(Drop, Clone, Copy)]
pub struct BySize;

// One more than the greatest level at which a rank still tells levels apart.
const LEVELS: u32 = 64;

impl Rank for BySize {
    fn rank(&self, _rule: u32, size: u32, level: u32) -> u32 {
        size.saturating_mul(LEVELS).saturating_add(level)
    }

    fn is_by_size(&self) -> bool {
        true
    }
}

/// A kept priority ranks tasks by what it keeps, which isn't known to be by size.
impl<F: Ranking + Sync> Rank for Priority<F> {
    fn rank(&self, rule: u32, size: u32, level: u32) -> u32 {
        Priority::rank(self, rule, size, level)
    }

    fn is_by_size(&self) -> bool {
        false
    }
}
