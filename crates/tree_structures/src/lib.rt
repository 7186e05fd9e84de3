//! The structures of whole trees: the full structure of a tree, and the graph of what a full structure means (Copestake 2002).
#![tactic(auto)]

ghost use Rattle.tree_structures.specs.Laws.{FullsAreFormed, FullsAreMade, FullsAreSound, GraphsAreOne};

mod closing;
mod fulls;
mod index;
mod lexical;
mod memo;
mod numbering;
mod opened;
mod parts;
mod question;
mod shared;

pub use closing::closed_of;
pub use fulls::full_of;
pub use memo::FullMemo;
pub use shared::SharedFulls;
pub use std::alloc::AllocError as NoMemory;

/// A law: a tree that has a full structure is formed of entries and rules (`formed`), its structure is an entry's or made by a rule
/// (`made`), what that means is consistent (`sound`), and what a structure means is one graph (`one`). It does nothing.
pub fn structure_laws()
    ensures formed { FullsAreFormed }
    ensures made { FullsAreMade }
    ensures sound { FullsAreSound }
    ensures one { GraphsAreOne }
{}
