//! The quick test of two sketches.

ghost use Rattle.std.specs.Prelude.{◌≡◌, ◌<◌, ◌+◌, false, not, ◌||◌, ◌&&◌, drop, length, IfSome, option_map};
ghost use Rattle.std.specs.Str.{bytes_eq};
ghost use Rattle.type_hierarchy.specs.Table.{count_of};
ghost use Rattle.fs_graph.specs.Facts.{path_of};
ghost use Rattle.sieve.specs.Sketches.{AreTypesIn, types_meet, sketches_meet};
ghost use Rattle.sieve.specs.Unifying.{NoneUnify};
ghost use Rattle.sieve.specs.Inner.{line_seen};

use crate::sieves::Filter;
use crate::sketches::{Sketch, SketchLine};
use fs_graph::Feat;
use type_hierarchy::{Ty, Types};

// Whether two types at one path have a common subtype, where both are there.
fn have_meet(types: &Types, a: Option<Ty>, b: Option<Ty>) -> bool
    requires a_in { IfSome a (λ t. t.0 < count_of types.now) }
    requires b_in { IfSome b (λ t. t.0 < count_of types.now) }
    ensures { result ≡ types_meet types.now (option_map (λ t. t.0) a) (option_map (λ t. t.0) b) }
{
    types.laws();
    let Some(a) = a else {
        return true;
    };
    let Some(b) = b else {
        return true;
    };
    // Most are one type, or one is the top type: then no sets of types are compared.
    if a.0 == b.0 {
        return true;
    }
    if a.0 == 0 {
        return true;
    }
    if b.0 == 0 {
        return true;
    }
    types.meet(a, b).is_some()
}

// Whether two paths are one.
fn is_one(a: &[Feat], b: &[Feat]) -> bool
    ensures { result ≡ bytes_eq (path_of a.now) (path_of b.now) }
{
    a == b
}

// Whether two lines don't clash: they have types with a common subtype, or not two types, or not one path.
fn pass(types: &Types, a: SketchLine<'_>, b: SketchLine<'_>) -> bool
    requires a_in { IfSome a.ty (λ t. t.0 < count_of types.now) }
    requires b_in { IfSome b.ty (λ t. t.0 < count_of types.now) }
    ensures { result ≡ (types_meet types.now (line_seen a.entry).ty (line_seen b.entry).ty || not (bytes_eq (line_seen a.entry).path (line_seen b.entry).path)) }
{
    have_meet(types, a.ty, b.ty) || !is_one(a.path, b.path)
}

// Whether the lines of this number don't clash.
fn pass_at(types: &Types, a: &Sketch, b: &Sketch, k: usize) -> bool
    requires a_in { AreTypesIn types.now a.now }
    requires b_in { AreTypesIn types.now b.now }
    requires left { k < length a.now }
    requires right { k < length b.now }
    ensures { sketches_meet types.now (drop k a.now) (drop k b.now) ≡ (result && sketches_meet types.now (drop (k + 1) a.now) (drop (k + 1) b.now)) }
{
    let left = a.line(k);
    let right = b.line(k);
    pass(types, left, right)
}

// Whether no lines clash.
fn all_pass(types: &Types, a: &Sketch, b: &Sketch) -> bool
    requires a_in { AreTypesIn types.now a.now }
    requires b_in { AreTypesIn types.now b.now }
    ensures { result ≡ sketches_meet types.now a.now b.now }
{
    let left = a.count();
    let right = b.count();
    let lines = left.min(right);
    for k in 0..lines {
        if !pass_at(types, a, b, k) {
            return false;
        }
    }
    true
}

/// The quick test of two sketches: false exactly where two lines that stand at one place of both and have one path have types
/// without a common subtype. Then no two structures with these sketches unify. Of sketches that are made at the same paths it asks
/// about the types at each of them. Takes no memory.
pub fn types_meet(types: &Types, a: &Sketch, b: &Sketch) -> bool
    requires a_in { AreTypesIn types.now a.now }
    requires b_in { AreTypesIn types.now b.now }
    ensures exact { result ≡ sketches_meet types.now a.now b.now }
    ensures apart { result ≡ false → NoneUnify types.now a.now b.now }
{
    all_pass(types, a, b)
}

/// The quick test as what a sieve keeps.
#[derive(Clone, Copy)]
pub struct TypesMeet;

impl Filter for TypesMeet {
    ghost use Rattle.std.specs.Prelude.{◌≡◌};
    ghost use Rattle.sieve.specs.Sketches.{sketches_meet};

    ghost answers = { λ _ types a b yes. yes ≡ sketches_meet types.now a.now b.now };

    fn ask(&self, types: &Types, a: &Sketch, b: &Sketch) -> bool {
        types_meet(types, a, b)
    }
}
