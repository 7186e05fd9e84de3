//! The full structures of trees: what rules make of their daughters, lexical trees, and which structures are rooted (Copestake
//! 2002).
#![tactic(auto)]

mod bounded;
mod copies;
mod following;
mod full;
mod lexical;
mod line;
mod making;
mod mothers;
mod roots;
mod whole;

pub use book_signs::SignBook;
pub use full::FullStructure;
pub use lexical::SignFulls;
pub use line::LineFulls;
pub use mothers::{graphs_of, mother_of};
pub use roots::rooted;
pub use std::alloc::AllocError as NoMemory;
