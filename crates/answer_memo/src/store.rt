//! Where the answers of one object are kept.

ghost use Rattle.std.specs.Prelude.{◌≡◌, ◌∷◌, [], ⊤, IfOk, IfSome};
ghost use Rattle.answer_memo.specs.Tagged.{AreTagged};

use crate::NoMemory;
use crate::answer::Answer;
use crate::asked::Asked;
use crate::levels::{FIRST_SLOTS, Level, free_level, look, put, slots_at, tag_of};
use boxcar::slot::{OnceSlot, SlotRule, Written};
use boxcar::tag::Tag;
use std::alloc::Global;
use std::snapshot::Snapshot;
use std::sync::atomic::{AtomicU64, Ordering};

/// How many levels there are. Together they have 64,512 slots.
const LEVELS: usize = 6;

/// What an answer weighs besides its key and what was told: its slot and its box, in words.
const OWN_WEIGHT: u64 = 16;

/// A rule that any value keeps.
struct Anything;

impl<T> SlotRule<T> for Anything {
    ghost holds = { λ _ _. ⊤ };
}

/// Answers of one object, which has the stamp.
#[derive(Drop)]
pub struct Store<A: Asked> {
    pub stamp: Written<Snapshot<A>>,
    levels: Vec<Level<A>>,
    // the greatest weight of all that is kept
    most: u64,
    // the weight of what is kept; the greatest and more once something found no room
    weight: AtomicU64,
    ghost tagged: { AreTagged (stamp.of ∷ []) levels.items },
}

/// A stamp of this object: no other object has one that is of the same slot.
fn stamped<A>(of: &A) -> Result<Written<Snapshot<A>>, NoMemory>
    ensures { IfOk result (λ stamp. stamp.value.value ≡ of.now) }
{
    let slot: OnceSlot<Snapshot<A>, Anything> = OnceSlot::new(&Tag::empty());
    match slot.set_written(Snapshot::of(of)) {
        Ok(stamp) => Ok(stamp),
        Err(_) => Err(NoMemory),
    }
}

/// Levels that have no slots yet.
fn levels_of<A: Asked>(alloc: Global, tag: &Tag) -> Result<Vec<Level<A>>, NoMemory>
    ensures { IfOk result (λ levels. AreTagged tag.now.numbers levels.items) }
{
    let mut levels = Vec::with_capacity(alloc, LEVELS)?;
    for _ in 0..LEVELS {
        levels.push(free_level(tag))?;
    }
    Ok(levels)
}

impl<A: Asked> Store<A> {
    /// Nothing is known yet of this object.
    pub fn new(alloc: Global, of: &A, most: u64) -> Result<Store<A>, NoMemory>
        ensures { IfOk result (λ store. store.stamp.value.value ≡ of.now) }
    {
        let stamp = stamped(of)?;
        let levels = levels_of(alloc, &tag_of(&stamp))?;
        Ok(Store {
            stamp,
            levels,
            most,
            weight: AtomicU64::new(0),
        })
    }

    /// What is known of a number with a key.
    pub fn find(&self, of: &A, hash: u64, number: u32, key: &A::Key) -> Option<&A::Told>
        requires { self.now.stamp.value.value ≡ of.now }
        ensures { IfSome result (λ told. A.right of.now number key.now told.now) }
    {
        for level in &self.levels {
            let slots = level.get()?;
            if let Ok(found) = look(slots, of, &self.stamp, hash, number, key) {
                return found;
            }
        }
        None
    }

    /// Whether there is no room for further answers.
    pub fn is_full(&self) -> bool {
        self.weight.load(Ordering::SeqCst) >= self.most
    }

    /// Keeps an answer of some weight, where there is room for it.
    pub fn keep(&self, alloc: Global, answer: Box<Answer<A>>, weight: u32)
        requires of { answer.value.stamp.of ≡ self.now.stamp.of }
        requires right { A.right answer.value.stamp.value.value answer.value.number answer.value.key answer.value.told }
    {
        self.weight
            .fetch_add(weight as u64 + OWN_WEIGHT, Ordering::SeqCst);
        let mut answer = answer;
        let mut count = FIRST_SLOTS;
        for level in &self.levels {
            let Some(slots) = slots_at(alloc, level, &self.stamp, count) else {
                return;
            };
            match put(slots, answer) {
                Ok(()) => return,
                Err(back) => answer = back,
            }
            count = count.saturating_mul(2);
        }
        self.weight.fetch_add(self.most, Ordering::SeqCst);
    }
}
