//! What an item is worked out with, and over what.

use chart_core::Leaf;
use chart_model::Shapes;
use chart_workers::Crew;

/// What an item is worked out with, kept from one item to the next. None of what it holds enters into an answer.
#[derive(Drop)]
pub struct Work<C, T> {
    /// the scratch of shapes and chart
    pub chart: C,
    /// the scratch of full structures
    pub trees: T,
}

/// What an item is worked out with, and the workers that share its chart.
#[derive(Drop)]
pub struct Desk<C, T> {
    pub work: Work<C, T>,
    pub crew: Crew<C>,
}

/// The leaves of an item, and the full structures over them, by the leaves' names.
#[derive(Drop)]
pub struct ItemLeaves<'x, S: Shapes, F> {
    pub leaves: Vec<Leaf<S>>,
    pub fulls: &'x F,
}
