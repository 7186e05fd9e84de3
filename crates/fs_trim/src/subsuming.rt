//! Subsumption of typed feature structures (Copestake 2002).

ghost use Rattle.std.specs.Prelude.{◌≡◌, ◌<◌, ◌≤◌, ◌↔◌, length, IsTrue, All};
ghost use Rattle.type_hierarchy.specs.Table.{count_of};
ghost use Rattle.fs_model.specs.Claims.{System};
ghost use Rattle.fs_model.specs.Sources.{Subsumes};
ghost use Rattle.fs_graph.specs.GraphMap.{reader_of};
ghost use Rattle.fs_unify.specs.Room.{room_of};
ghost use Rattle.fs_trim.specs.Matching.{HasOrder};

use crate::nodes::nodes_match;
use fs_graph::Graph;
use fs_unify::Scratch;
use type_hierarchy::Types;

/// Whether the general structure subsumes the special one: each path and each equality of paths of the first holds in the
/// second, whose types are at or below (Copestake 2002: subsumption of typed feature structures).
///
/// The types of both structures are among `types`, and the scratch has spare room for the general one's nodes. What it holds
/// doesn't matter. No memory is taken.
pub fn subsumes(scratch: &mut Scratch, types: &Types, general: &Graph, special: &Graph) -> bool
    requires room { length general.now.types ≤ room_of scratch.old }
    requires general_types { All (λ t. t < count_of types.now) general.now.types }
    requires special_types { All (λ t. t < count_of types.now) special.now.types }
    ensures exact { (s : System) → HasOrder s types.now → (IsTrue result ↔ Subsumes s (reader_of general.now) (reader_of special.now)) }
    ensures room { room_of scratch.new ≡ room_of scratch.old }
{
    nodes_match(scratch.marks(), types, general, special)
}
