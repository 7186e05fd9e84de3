//! What lines are worked out with. It is kept from one line to the next, and none of what it holds enters into an answer.

use fs_unify::Scratch;
use packed_items::Work;

/// The scratches of unification: `chart` for the shapes of leaves and the chart, `trees` for lexical trees and unpacking.
pub type LineWork = Work<Scratch, Scratch>;

/// What one line is worked out with, and the workers that share its chart.
pub type Desk = packed_items::Desk<Scratch, Scratch>;
