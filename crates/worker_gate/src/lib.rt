//! A gate at which the workers of a pool call before each task, so that whoever starts them can hold
//! them or look on.
#![tactic(auto)]

mod held;

pub use held::HoldingGate;

/// What workers call before each task. It answers nothing, so it can't change a result.
pub trait Gate: Sync {
    /// The worker of this number, from 0, is about to begin the task of this number. The call may
    /// come from several threads at once.
    fn at(&self, worker: u32, task: u64);
}

/// A gate that does nothing.
#[derive(Clone, Copy, Debug)]
pub struct OpenGate;

impl Gate for OpenGate {
    fn at(&self, _worker: u32, _task: u64) {}
}
