//! Several things done side by side, each by one of several workers, which draw their places.
#![tactic(auto)]

mod draw_hand;
mod draw_rule;
mod draw_table;
mod gathering;
mod posts;
mod work;

pub use draw_hand::{Hand, Key};
pub use draw_table::{Drawer, Draws};
pub use std::alloc::AllocError as NoMemory;
pub use work::{Work, each_by};
