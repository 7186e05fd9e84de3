//! Which full structures can't lie in any realization of an MRS, by their relations, and when a grammar lets them be dropped.
//!
//! Chart generation with the semantics that is used: Carroll, Copestake, Flickinger and Poznanski 1999. Difference lists of relations: Copestake,
//! Flickinger, Pollard and Sag 2005.
#![tactic(auto)]

mod cells;
mod counting;
mod fitting;
mod links;
mod list;
mod names;
mod seeking;

pub use cells::reaches;
pub use counting::has_too_many;
pub use fitting::has_misfit;
pub use links::threads;
pub use list::{RelationList, is_outside, relation_list};
pub use seeking::{Named, Sought, SoughtEp, SoughtProp, SoughtRole, SoughtValue, sought_of};
pub use std::alloc::AllocError as NoMemory;
