//! The rule of the lock's table, and the names of its steps.
ghost use Rattle.shared_chart.specs.Turns.{Kept, newcomer, spent};
ghost use Rattle.shared_chart.specs.Plays.{drew, looked, took, raised, marked, gave, noted, ended, left_seat, both};

use crate::key::Key;
use crate::machine::Machine;
use crate::view::View;
use atomic_table::{Join, Play, Split, TableRule};

/// The rule of the words, the slot and the seats (`Kept`).
pub struct Turns;

impl<B, E, M: Machine<B, E>> TableRule<Option<M>, View<B, M, E>, Key<B, M>> for Turns {
    ghost use Rattle.std.specs.Prelude.{◌-◌, ◌∷◌, [], Some};

    ghost holds = { λ key. Kept M.history M.caller M.stands M.later key.seats key.base.value };

    ghost first = { λ key. newcomer (Some key.base.value) (key.opening.value ∷ []) 0 (key.seats - 1) };
}

/// A turn is drawn.
pub struct Draw;

impl<B, M, E> Play<Option<M>, View<B, M, E>> for Draw {
    ghost then = { drew };
}

/// A look at the turns that were served.
pub struct Look;

impl<B, M, E> Play<Option<M>, View<B, M, E>> for Look {
    ghost then = { looked };
}

/// The slot is taken, where the turn is called.
pub struct Take;

impl<B, E, M: Machine<B, E>> Play<Option<M>, View<B, M, E>> for Take {
    ghost then = { took M.history M.caller M.stands M.later };
}

/// One entry more stands in the history.
pub struct Raise;

impl<B, E, M: Machine<B, E>> Play<Option<M>, View<B, M, E>> for Raise {
    ghost then = { raised M.history };
}

/// The mark is set.
pub struct Mark;

impl<B, M, E> Play<Option<M>, View<B, M, E>> for Mark {
    ghost then = { marked };
}

/// The slot is given back.
pub struct Give;

impl<B, M, E> Play<Option<M>, View<B, M, E>> for Give {
    ghost then = { gave };
}

/// The slot is given back, and the mark counts as seen.
pub struct Note;

impl<B, M, E> Play<Option<M>, View<B, M, E>> for Note {
    ghost then = { noted };
}

/// The turn ends.
pub struct End;

impl<B, M, E> Play<Option<M>, View<B, M, E>> for End {
    ghost then = { ended };
}

/// A seat is cut from the first one.
pub struct Cut;

impl<B, M, E> Split<View<B, M, E>> for Cut {
    ghost left = { left_seat };

    ghost right = { λ v. newcomer v.base v.seen v.next 0 };
}

/// A seat is joined to another.
pub struct Glue;

impl<B, M, E> Join<View<B, M, E>> for Glue {
    ghost both = { both };

    ghost spent = { spent };
}
