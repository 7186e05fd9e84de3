//! Why a task isn't ready.
use chart_model::NoMemory;

/// Why a shared chart tells nothing of a task.
#[derive(Drop, Clone, Copy)]
pub enum Unready {
    /// The task isn't made: its number is at least `tasks`, the number of tasks that were made.
    Unmade { tasks: u64 },
    /// Want of memory.
    NoMemory,
}

impl From<NoMemory> for Unready {
    ghost use Rattle.std.specs.Prelude.{◌≡◌};
    ghost use Rattle.shared_chart.specs.declared.unready.Unready.TheVariants as unready;

    ghost from_gives = { λ _ u. u ≡ unready.NoMemory };

    fn from(_: NoMemory) -> Unready {
        Unready::NoMemory
    }
}
