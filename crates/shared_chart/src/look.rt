//! What is told of a task before its outcome is found.
use chart_core::{Peers, Ready};
use chart_model::Shapes;

/// Where the mother of a task would stand: its cover and level, and their live hosts.
#[derive(Drop)]
pub struct Cell<S: Shapes> {
    pub cover: S::Cover,
    pub level: u32,
    pub peers: Peers<S>,
}

/// How a task stands, and the cell of its mother, where the daughters are all there and have a cover. There may be no cell
/// where memory was wanting for it.
#[derive(Drop)]
pub struct Look<S: Shapes> {
    pub ready: Ready<S>,
    pub cell: Option<Cell<S>>,
}
