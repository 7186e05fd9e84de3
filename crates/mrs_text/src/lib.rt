//! SimpleMRS: MRSs as texts, and what these texts mean.
#![tactic(auto)]

mod laws;
mod numbering;
mod pieces;
mod seen;
mod storing;
mod text;

pub use laws::{text_means_mrs, written};
pub use mrs_reading::{MrsFault, read};
pub use numbering::numbers;
pub use storing::stored;
pub use text::write;
