//! The shared chart.
use crate::TurnLock;
use crate::chart::{Call, Chart};
use chart_model::Shapes;

/// A chart that workers share by reference, each with a seat of its own. A call with a seat of another chart isn't allowed.
#[derive(Drop)]
pub struct SharedChart<S: Shapes> {
    pub(crate) lock: TurnLock<S, Chart<S>, Call>,
}
