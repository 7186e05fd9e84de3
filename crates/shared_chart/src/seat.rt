//! A seat of a shared chart.
use crate::LockSeat;
use crate::chart::{Call, Chart};

/// What a worker calls a shared chart with. It has a number, the list of the calls that it entered, the longest beginning of
/// the history that it has seen, whether it has seen the mark of `stop`, and whether it has set it.
pub type ChartSeat<S> = LockSeat<S, Chart<S>, Call>;
