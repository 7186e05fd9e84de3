//! Predicates that stay what they are.

ghost use Rattle.std.specs.Prelude.{◌≡◌, ◌<◌, ◌↔◌, IsTrue, All, map, option_map};
ghost use Rattle.type_hierarchy.specs.Table.{count_of};
ghost use Rattle.generate_model.specs.Settling.{IsSettled, FirstSettled};

use type_hierarchy::{Ty, Types};

/// Whether no other type is at or below this one, so that a node of this type keeps it, however specific its structure gets.
pub fn is_settled(types: &Types, ty: Ty) -> bool
    requires { ty.0 < count_of types.now }
    ensures { IsTrue result ↔ IsSettled types.now ty.0 }
{
    for t in 0..types.counts().all {
        if t != ty.0 && types.at_or_below(Ty(t), ty) {
            return false;
        }
    }
    true
}

/// The first of some types that is settled, where there is one.
pub fn first_settled(types: &Types, preds: &[Ty]) -> Option<Ty>
    requires { All (λ t. t.0 < count_of types.now) preds.now }
    ensures { FirstSettled types.now (map (λ t. t.0) preds.now) (option_map (λ t. t.0) result) }
{
    for k in 0..preds.len() {
        if is_settled(types, preds[k]) {
            return Some(preds[k]);
        }
    }
    None
}
