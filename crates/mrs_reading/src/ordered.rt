//! Properties and roles in byte order of their names.

ghost use Rattle.std.specs.Prelude.{◌≡◌, ◌≢◌, ◌<◌, ◌≤◌, ◌-◌, ℕ, List, OnOk, IsTrue, length, slice_index_or};
ghost use Rattle.std.specs.Cmp.Lexicographic.{slice_cmp};
ghost use Rattle.std.specs.Ordering.{nat_cmp};
ghost use Rattle.std.specs.String.{string_bytes};
ghost use Rattle.mrs_reading.specs.Inner.Tables.{IsAdded};

use mrs_model::{NoMemory, Prop, Role};
use std::cmp::Ordering;

/// What has a name.
pub(crate) trait Named {
    ghost name_of: { Self → List ℕ };

    fn name(&self) -> &str
        ensures { result.now ≡ name_of self.now };
}

impl Named for Prop {
    ghost name_of = { λ p. string_bytes p.name };

    fn name(&self) -> &str {
        self.name.as_str()
    }
}

impl Named for Role {
    ghost name_of = { λ r. string_bytes r.name };

    fn name(&self) -> &str {
        self.name.as_str()
    }
}

// Whether the one name is greater than the other.
fn is_greater(a: &str, b: &str) -> bool
    ensures greater { IsTrue result → slice_cmp nat_cmp a.now b.now ≡ Ordering.Greater }
    ensures not { slice_cmp nat_cmp a.now b.now ≡ Ordering.Greater → IsTrue result }
{
    a > b
}

// The place behind the names that aren't greater, after which all are.
fn place_of<T: Named>(list: &[T], item: &T) -> usize
    ensures within { result ≤ length list.now }
    ensures before { 0 < result → slice_cmp nat_cmp (T.name_of (slice_index_or list.now (result - 1) item.now)) (T.name_of item.now) ≢ Ordering.Greater }
    ensures after { (k : ℕ) → result ≤ k → k < length list.now → slice_cmp nat_cmp (T.name_of (slice_index_or list.now k item.now)) (T.name_of item.now) ≡ Ordering.Greater }
{
    let mut at = list.len();
    while at > 0 {
        if !is_greater(list[at - 1].name(), item.name()) {
            return at;
        }
        at -= 1;
    }
    0
}

/// Adds an item behind those whose names aren't greater.
pub(crate) fn add<T: Named + Drop>(list: &mut Vec<T>, item: T) -> Result<(), NoMemory>
    ensures { OnOk result (IsAdded T.name_of list.old.items item list.new.items) }
{
    let at = place_of(list, &item);
    list.insert(at, item)?;
    Ok(())
}
