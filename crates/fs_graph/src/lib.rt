//! Typed feature structures as graphs and as lists of paths, and facts on paths (Copestake 2002).
#![tactic(auto)]

mod builder;
mod clash;
mod facts;
mod graph;
mod laws;
mod lines;
mod order;
mod text;
mod visit;

pub use builder::Builder;
pub use clash::Clash;
pub use facts::{Fact, Feat, PathLine, PathList};
pub use graph::{Graph, GraphArc, Node};
pub use laws::path_laws;
pub use order::{graph_of, order_in, ordered};
pub use std::alloc::AllocError as NoMemory;
pub use text::print;
pub use visit::Order;
