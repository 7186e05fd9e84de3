//! A chart that many workers share: the core of a chart behind a lock with turns, with one history of all calls.
#![tactic(auto)]

pub use chart::{Call, Chart};
pub use found::{Finding, Tools};
pub use held::LockSeat;
pub use informed::Informed;
pub use key::Key;
pub use lock::{Board, Chair, TurnLock};
pub use look::{Cell, Look};
pub use machine::Machine;
pub use seat::ChartSeat;
pub use shared::SharedChart;
pub use unready::Unready;
pub use view::View;

mod calls;
mod chart;
mod ends;
mod entering;
mod found;
mod held;
mod informed;
mod informing;
mod key;
mod lock;
mod look;
mod looking;
mod machine;
mod rule;
mod seat;
mod shared;
mod stopping;
mod turn_ends;
mod unready;
mod view;
