//! What lists are made of.

use fs_graph::Feat;
use type_hierarchy::Ty;

/// What a grammar's lists are made of. `None` stands for what the grammar doesn't have.
#[derive(Clone, Copy, Debug)]
pub struct ListNames {
    /// The type of a list with an item.
    pub cons: Option<Ty>,
    /// The type of a list without items.
    pub null: Option<Ty>,
    /// The feature of a list's first item.
    pub first: Option<Feat>,
    /// The feature of the list of all other items.
    pub rest: Option<Feat>,
}
