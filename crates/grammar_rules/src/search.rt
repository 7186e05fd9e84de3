//! How the trees of a line are searched for.

use chart_core::Limits;
use sieve::{Filter, Sieve};

/// How workers search for the trees of a line: within these limits, with these sieves, in this order. Of these the limits alone enter into
/// an answer.
#[derive_where(Clone, Copy)]
pub struct Search<'x, F: Filter, P> {
    pub limits: &'x Limits,
    /// What is asked before anything is unified. With none, types are compared at the paths of the shapes.
    pub sieves: &'x [Sieve<F>],
    /// The order in which tasks are taken.
    pub priority: &'x P,
}
