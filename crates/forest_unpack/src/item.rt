//! What the lists of groups hold.

use crate::Fulls;
use crate::counted::CountedTree;
use std::sync::Arc;

/// A tree with its full structure, and the number by which that is known.
#[derive(Drop)]
pub struct Item<F: Fulls> {
    pub full: Arc<F::Full>,
    pub number: u32,
    pub tree: CountedTree,
}
