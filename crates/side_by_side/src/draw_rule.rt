//! The rule of the draw's table, and the names of its steps.
ghost use Rattle.side_by_side.specs.Draws.{Given};
ghost use Rattle.side_by_side.specs.Plays.{drew, one_hand, without_one, both, spent, all_hands};

use crate::draw_hand::{Hand, Key};
use atomic_table::{Join, Play, Split, TableRule};

/// The rule of the word and the seats (`Given`).
pub struct Drawing;

impl TableRule<(), Hand, Key> for Drawing {
    ghost holds = { λ key. Given key.count key.seats };

    ghost first = { λ key. all_hands key.count key.seats };
}

/// A number is drawn.
pub struct Draw;

impl Play<(), Hand> for Draw {
    ghost then = { drew };
}

/// A seat for one worker is cut from another.
pub struct Cut;

impl Split<Hand> for Cut {
    ghost left = { without_one };

    ghost right = { one_hand };
}

/// A seat's numbers and workers are joined to another's.
pub struct Glue;

impl Join<Hand> for Glue {
    ghost both = { both };

    ghost spent = { spent };
}
