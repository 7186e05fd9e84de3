//! The rule of a deque, and what each step tells.
use crate::hand::Hand;
use chart_core::TaskId;
use crossbeam_deque::protocol::{Join, Lesson, Outcome, Protocol, Split};
use crossbeam_deque::{Stealer, Worker};
use std::alloc::Global;

/// The rule of one deque of the pool (`Balanced`).
pub struct Fair;

impl Protocol<TaskId, Hand> for Fair {
    ghost use Rattle.std.specs.Prelude.{[]};
    ghost use Rattle.chart_workers.specs.Balance.{hand, Balanced};

    ghost holds = { Balanced };

    ghost first = { hand 64 [] [] };

    ghost guest = { hand 0 [] [] };
}

/// A pass is cut from a deque's own, and joined to it again.
pub struct Cut;

impl Split<Hand> for Cut {
    ghost use Rattle.std.specs.Prelude.{[], ◌-◌};
    ghost use Rattle.chart_workers.specs.Balance.{hand};

    ghost left = { λ v. hand (v.parts - 1) v.put v.taken };

    ghost right = { λ v. hand 1 [] [] };
}

impl Join<Hand> for Cut {
    ghost use Rattle.std.specs.Prelude.{[]};
    ghost use Rattle.chart_workers.specs.Balance.{hand, joined};

    ghost both = { joined };

    ghost spent = { hand 0 [] [] };
}

/// A task is pushed.
pub struct Puts;

impl Outcome<TaskId, Hand> for Puts {
    ghost use Rattle.std.specs.Prelude.{◌≡◌, ◌++◌};
    ghost use Rattle.chart_workers.specs.Balance.{hand};

    ghost then = { λ v xs w. w ≡ hand v.parts (v.put ++ xs) v.taken };
}

/// A task is taken, or none was found.
pub struct Takes;

impl Outcome<TaskId, Hand> for Takes {
    ghost use Rattle.std.specs.Prelude.{◌≡◌, ◌++◌};
    ghost use Rattle.chart_workers.specs.Balance.{hand, Same};

    ghost then = { λ v xs w. w ≡ hand v.parts v.put (v.taken ++ xs) };

    ghost empty = { λ v. v.parts ≡ 64 → Same v.put v.taken };
}

/// What the pass with all parts knows of the tasks that are left.
pub struct Total;

impl Lesson<TaskId, Hand> for Total {
    ghost use Rattle.std.specs.Prelude.{◌≡◌, ◌++◌};
    ghost use Rattle.chart_workers.specs.Balance.{Same};

    ghost fact = { λ v items. v.parts ≡ 64 → Same v.put (v.taken ++ items) };
}

/// The deque of a seat.
pub type Deque = Worker<TaskId, Global, Hand, Fair>;

/// What steals from a deque.
pub type Thief = Stealer<TaskId, Global, Hand, Fair>;
