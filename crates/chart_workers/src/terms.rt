//! By what terms workers run a chart.
use chart_core::Limits;

/// How a chart is run: within these limits, by tasks in this order. Of these the limits alone enter into an answer.
#[derive(Drop)]
pub struct Terms<'x, P> {
    pub limits: &'x Limits,
    /// The order in which tasks are taken.
    pub priority: &'x P,
}
