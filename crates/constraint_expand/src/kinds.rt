//! Statements of a kind.

ghost use Rattle.std.specs.Prelude.{◌≡◌, MatchOption, true, false};
ghost use Rattle.tdl_reader.specs.Views.{body_in};
ghost use Rattle.grammar_files.specs.Placings.{placed_of};
ghost use Rattle.constraint_expand.specs.Statements.{body_of};
ghost use Rattle.constraint_expand.specs.Kinds.{picks};

use grammar_files::Placed;
use grammar_files::placed_statements::{
    adds_to_type, body_written, defines_instance, defines_type,
};
use tdl_reader::Body;

/// Which statements are looked at: definitions of types and addenda to them, or definitions of instances.
#[derive(Clone, Copy)]
pub enum Kind {
    Types,
    Instances,
}

// Whether the statement is of this kind.
fn is_picked(placed: &Placed, kind: Kind) -> bool
    ensures { result ≡ picks kind (placed_of placed.now) }
{
    match kind {
        Kind::Types => defines_type(placed) || adds_to_type(placed),
        Kind::Instances => defines_instance(placed),
    }
}

/// The body of a statement of this kind.
#[tactic(auto, using(crate::proofs::KindLemmas::no_kind))]
pub fn body_under(placed: &Placed, kind: Kind) -> Option<&Body>
    ensures { MatchOption result (picks kind (placed_of placed.now) ≡ false) (λ b. (picks kind (placed_of placed.now) ≡ true) × (body_in b.now ≡ body_of (placed_of placed.now))) }
{
    if is_picked(placed, kind) {
        return body_written(placed);
    }
    None
}
