//! Answers by their hashes, in levels that double.

ghost use Rattle.std.specs.Prelude.{◌≡◌, ◌<◌, ◌∷◌, [], IfErr, IfOk, IfSome};
ghost use Rattle.answer_memo.specs.Tagged.{AreTagged};

use crate::NoMemory;
use crate::answer::Answer;
use crate::asked::Asked;
use boxcar::slot::{OnceSlot, SlotRule, Written};
use boxcar::tag::{Names, Tag};
use std::alloc::Global;
use std::snapshot::Snapshot;

/// The slots of the first level; each further one has twice as many.
pub const FIRST_SLOTS: usize = 1024;

/// How many slots of a level are looked at for a hash.
const WINDOW: usize = 4;

/// Other answers have all places of an answer in some slots.
#[derive(Drop)]
pub struct Full;

/// A rule for slots: an answer is of the object that the slot is for, and right.
pub struct OfObject;

impl<A: Asked> SlotRule<Box<Answer<A>>> for OfObject {
    ghost holds = { λ tag answer. (tag ≡ answer.value.stamp.of ∷ []) × A.right answer.value.stamp.value.value answer.value.number answer.value.key answer.value.told };
}

pub type Slot<A> = OnceSlot<Box<Answer<A>>, OfObject>;

/// A rule for levels: all slots of a level are for the object that the level is for.
pub struct OfLevel;

impl<A: Asked> SlotRule<Vec<Slot<A>>> for OfLevel {
    ghost holds = { λ tag slots. AreTagged tag slots.items };
}

pub type Level<A> = OnceSlot<Vec<Slot<A>>, OfLevel>;

/// How a tag is read off a stamp.
struct ByStamp;

impl<A> Names<Written<Snapshot<A>>> for ByStamp {
    ghost numbers = { λ stamp. stamp.of ∷ [] };
}

/// The tag of what is for the object of a stamp.
pub fn tag_of<A>(stamp: &Written<Snapshot<A>>) -> Tag
    ensures { result.numbers ≡ stamp.now.of ∷ [] }
{
    Tag::of::<Written<Snapshot<A>>, ByStamp>(stamp)
}

/// A free slot.
fn free_slot<A: Asked>(tag: &Tag) -> Slot<A>
    ensures { result.tag ≡ tag.now.numbers }
{
    OnceSlot::new(tag)
}

/// Free slots.
fn slots_of<A: Asked>(alloc: Global, tag: &Tag, count: usize) -> Result<Vec<Slot<A>>, NoMemory>
    ensures { IfOk result (λ slots. AreTagged tag.now.numbers slots.items) }
{
    let mut slots = Vec::with_capacity(alloc, count)?;
    for _ in 0..count {
        slots.push(free_slot(tag))?;
    }
    Ok(slots)
}

/// A level that has no slots yet.
pub fn free_level<A: Asked>(tag: &Tag) -> Level<A>
    ensures { result.tag ≡ tag.now.numbers }
{
    OnceSlot::new(tag)
}

/// The slots of a level, which are made, as many as said, where there are none.
pub fn slots_at<'a, A: Asked>(
    alloc: Global,
    level: &'a Level<A>,
    stamp: &Written<Snapshot<A>>,
    count: usize,
) -> Option<&'a Vec<Slot<A>>>
    requires tag { level.now.tag ≡ stamp.now.of ∷ [] }
    ensures { IfSome result (λ slots. AreTagged (stamp.now.of ∷ []) slots.now.items) }
{
    if let Some(slots) = level.get() {
        return Some(slots);
    }
    let made = slots_of(alloc, &tag_of(stamp), count).ok()?;
    level.set(made).ok()
}

/// The slot that is looked at after so many others.
fn place(hash: u64, after: usize, count: usize) -> usize
    requires { 0 < count }
    ensures { result < count }
{
    let folded = hash ^ (hash >> 32);
    (folded as usize).wrapping_add(after) % count
}

/// What an answer in these slots says to a number with a key: none where a place for it is still free, and `Full` where other
/// answers have all its places. Places are filled in order and stay so, level by level; thus where one is free, no later place
/// has the answer.
pub fn look<'m, A: Asked>(
    slots: &'m [Slot<A>],
    of: &A,
    stamp: &Written<Snapshot<A>>,
    hash: u64,
    number: u32,
    key: &A::Key,
) -> Result<Option<&'m A::Told>, Full>
    requires tags { AreTagged (stamp.now.of ∷ []) slots.now }
    requires of { stamp.now.value.value ≡ of.now }
    ensures { IfOk result (λ found. IfSome found (λ told. A.right of.now number key.now told.now)) }
{
    if slots.is_empty() {
        return Err(Full);
    }
    for after in 0..WINDOW {
        let slot = &slots[place(hash, after, slots.len())];
        let Some(answer) = slot.get() else {
            return Ok(None);
        };
        if let Some(told) = answer.told_to(of, stamp, hash, number, key) {
            return Ok(Some(told));
        }
    }
    Err(Full)
}

/// Puts an answer into one of these slots, or hands it back where none is free.
pub fn put<A: Asked>(slots: &[Slot<A>], answer: Box<Answer<A>>) -> Result<(), Box<Answer<A>>>
    requires tags { AreTagged (answer.value.stamp.of ∷ []) slots.now }
    requires right { A.right answer.value.stamp.value.value answer.value.number answer.value.key answer.value.told }
    ensures { IfErr result (λ back. back ≡ answer) }
{
    if slots.is_empty() {
        return Err(answer);
    }
    let hash = answer.hash;
    let mut answer = answer;
    for after in 0..WINDOW {
        let slot = &slots[place(hash, after, slots.len())];
        match slot.set_written(answer) {
            Ok(_) => return Ok(()),
            Err(back) => answer = back,
        }
    }
    Err(answer)
}
