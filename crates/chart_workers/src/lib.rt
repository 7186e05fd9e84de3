//! Workers that share a chart, and the pool of their tasks.
#![tactic(auto)]

pub use calls::Over;
pub use crew::Crew;
pub use ended::Ended;
pub use making::Pool;
pub use over::ChartOver;
pub use posts::Post;
pub use priority::{BySize, Rank};
pub use saturating::saturate;
pub use seat::{Pass, PoolSeat};
pub use settling::{Settled, settle};
pub use terms::Terms;
pub use working::work;

mod calls;
mod concluding;
mod crew;
mod ended;
mod hand;
mod making;
mod over;
mod posts;
mod priority;
mod pushing;
mod rule;
mod running;
mod saturating;
mod seat;
mod settling;
mod terms;
mod turns;
mod working;
