//! Facts of types.

use fs_graph::Fact;
use type_hierarchy::Ty;

/// The facts of a type's definition and addenda.
#[derive(Debug, Drop)]
pub struct TypeFacts {
    pub ty: Ty,
    pub facts: Vec<Fact>,
}
