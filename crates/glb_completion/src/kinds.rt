//! Kinds of types: those that have the same shared members of one set have the same in common with it.

ghost use Rattle.std.specs.Prelude.{◌≡◌, ℕ, ◌<◌, length, IfOk, OnOk, All, []};
ghost use Rattle.glb_completion.specs.Inner.Kinds.{HasPlaces, key_of, Looks};

use crate::row_hash::RowHasher;
use indexmap::IndexSet;
use std::alloc::{AllocError, Global};
use std::hash::BuildHasherDefault;

/// The shared members of one set, and for each kind of types that was seen its key: of the words that have a shared
/// member, what the types have of these.
#[derive(Drop)]
pub struct Kinds {
    pub shared: Vec<u64>,
    pub places: Vec<usize>,
    pub keys: IndexSet<Vec<u64>, BuildHasherDefault<RowHasher>>,
    key: Vec<u64>,
}

// The places of the words that have a member.
fn filled(alloc: Global, row: &[u64]) -> Result<Vec<usize>, AllocError>
    ensures { IfOk result (λ v. HasPlaces row.now v.items) }
{
    let mut places = Vec::new(alloc);
    for i in 0..row.len() {
        if row[i] != 0 {
            places.push(i)?;
        }
    }
    Ok(places)
}

// What two rows have in common in the words at some places.
fn fill(key: &mut Vec<u64>, shared: &[u64], row: &[u64], places: &[usize]) -> Result<(), AllocError>
    requires size { length row.now ≡ length shared.now }
    requires places { All (λ p. p < length shared.now) places.now }
    ensures { OnOk result (key.new.items ≡ key_of shared.now row.now places.now) }
{
    key.clear();
    for place in places {
        key.push(shared[*place] & row[*place])?;
    }
    Ok(())
}

impl Kinds {
    /// No kind yet.
    pub fn of(alloc: Global, shared: Vec<u64>) -> Result<Kinds, AllocError>
        ensures shared { IfOk result (λ k. k.shared.items ≡ shared.items) }
        ensures places { IfOk result (λ k. HasPlaces shared.items k.places.items) }
        ensures none { IfOk result (λ k. k.keys.keys ≡ []) }
    {
        let places = filled(alloc, &shared)?;
        Ok(Kinds {
            shared,
            places,
            keys: IndexSet::with_hasher(alloc, BuildHasherDefault::new()),
            key: Vec::new(alloc),
        })
    }

    /// Whether a type is of a kind that wasn't seen, which is then seen. `row` has its members. Where shared members
    /// stand in more than an eighth of the words, a look-up costs about what a meet does, and every kind is new.
    pub fn is_new(&mut self, alloc: Global, row: &[u64]) -> Result<bool, AllocError>
        requires size { length row.now ≡ length self.old.shared.items }
        requires places { All (λ p. p < length self.old.shared.items) self.old.places.items }
        ensures looks { IfOk result (λ is_new. Looks self.old.keys.keys self.new.keys.keys (key_of self.old.shared.items row.now self.old.places.items) is_new) }
        ensures shared { self.new.shared ≡ self.old.shared }
        ensures same_places { self.new.places ≡ self.old.places }
    {
        if self.places.len() > self.shared.len() / 8 {
            return Ok(true);
        }
        fill(&mut self.key, &self.shared, row, &self.places)?;
        if self.keys.contains(self.key.as_slice()) {
            return Ok(false);
        }
        let key = Vec::from_slice(alloc, &self.key)?;
        self.keys.insert(key)?;
        Ok(true)
    }
}
