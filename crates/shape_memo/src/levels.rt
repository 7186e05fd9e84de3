//! Answers by their hashes, in levels that double.

ghost use Rattle.std.specs.Prelude.{◌≡◌, ◌<◌, ◌∷◌, [], IfErr, IfOk, IfSome};
ghost use Rattle.shape_memo.specs.Known.{IsRightFor, AreTagged};

use crate::NoMemory;
use crate::answer::{Answer, Outcome};
use crate::marked::Marked;
use boxcar::slot::{OnceSlot, SlotRule, Written};
use boxcar::tag::{Names, Tag};
use chart_model::Tuple;
use std::alloc::Global;
use std::snapshot::Snapshot;

/// The slots of the first level; each further one has twice as many.
pub const FIRST_SLOTS: usize = 1024;

/// How many slots of a level are looked at for a hash.
const WINDOW: usize = 4;

/// Other answers have all places of an answer in some slots.
#[derive(Drop)]
pub struct Full;

/// A rule for slots: an answer is of the shapes that the slot is for, and right.
pub struct OfShapes;

impl<S: Marked> SlotRule<Box<Answer<S>>> for OfShapes {
    ghost holds = { λ tag answer. (tag ≡ answer.value.stamp.of ∷ []) × IsRightFor (S.calculus answer.value.stamp.value.value) (S.meaning answer.value.stamp.value.value) (S.belongs answer.value.stamp.value.value) answer.value.rule answer.value.parts answer.value.outcome };
}

pub type Slot<S> = OnceSlot<Box<Answer<S>>, OfShapes>;

/// A rule for levels: all slots of a level are for the shapes that the level is for.
pub struct OfLevel;

impl<S: Marked> SlotRule<Vec<Slot<S>>> for OfLevel {
    ghost holds = { λ tag slots. AreTagged tag slots.items };
}

pub type Level<S> = OnceSlot<Vec<Slot<S>>, OfLevel>;

/// How a tag is read off a stamp.
struct ByStamp;

impl<S> Names<Written<Snapshot<S>>> for ByStamp {
    ghost numbers = { λ stamp. stamp.of ∷ [] };
}

/// The tag of what is for the shapes of a stamp.
pub fn tag_of<S>(stamp: &Written<Snapshot<S>>) -> Tag
    ensures { result.numbers ≡ stamp.now.of ∷ [] }
{
    Tag::of::<Written<Snapshot<S>>, ByStamp>(stamp)
}

/// Free slots.
fn slots_of<S: Marked>(alloc: Global, tag: &Tag, count: usize) -> Result<Vec<Slot<S>>, NoMemory>
    ensures { IfOk result (λ slots. AreTagged tag.now.numbers slots.items) }
{
    let mut slots = Vec::with_capacity(alloc, count)?;
    for _ in 0..count {
        slots.push(OnceSlot::new(tag))?;
    }
    Ok(slots)
}

/// A level that has no slots yet.
pub fn free_level<S: Marked>(tag: &Tag) -> Level<S>
    ensures { result.tag ≡ tag.now.numbers }
{
    OnceSlot::new(tag)
}

/// The slots of a level, which are made, as many as said, where there are none.
pub fn slots_at<'a, S: Marked>(
    alloc: Global,
    level: &'a Level<S>,
    stamp: &Written<Snapshot<S>>,
    count: usize,
) -> Option<&'a Vec<Slot<S>>>
    requires tag { level.now.tag ≡ stamp.now.of ∷ [] }
    ensures { IfSome result (λ slots. AreTagged (stamp.now.of ∷ []) slots.now.items) }
{
    if let Some(slots) = level.get() {
        return Some(slots);
    }
    let made = slots_of(alloc, &tag_of(stamp), count).ok()?;
    level.set(made).ok()
}

/// The slot that is looked at after so many others.
fn place(hash: u64, after: usize, count: usize) -> usize
    requires { 0 < count }
    ensures { result < count }
{
    let folded = hash ^ (hash >> 32);
    (folded as usize).wrapping_add(after) % count
}

/// What an answer in these slots says of a rule with these daughters: none where a place for it is still free, and `Full` where
/// other answers have all its places. Places are filled in order and stay so, level by level; thus where one is free, no later
/// place has the answer.
pub fn look<'m, S: Marked, C>(
    slots: &'m [Slot<S>],
    shapes: &S,
    stamp: &Written<Snapshot<S>>,
    hash: u64,
    rule: u32,
    parts: &Tuple<S::Shape, C>,
) -> Result<Option<&'m Outcome<S::Shape>>, Full>
    requires tags { AreTagged (stamp.now.of ∷ []) slots.now }
    requires shapes { stamp.now.value.value ≡ shapes.now }
    ensures { IfOk result (λ told. IfSome told (λ o. IsRightFor (S.calculus shapes.now) (S.meaning shapes.now) (S.belongs shapes.now) rule parts.now o.now)) }
{
    if slots.is_empty() {
        return Err(Full);
    }
    for after in 0..WINDOW {
        let slot = &slots[place(hash, after, slots.len())];
        let Some(answer) = slot.get() else {
            return Ok(None);
        };
        if let Some(outcome) = answer.told(shapes, stamp, hash, rule, parts) {
            return Ok(Some(outcome));
        }
    }
    Err(Full)
}

/// Puts an answer into one of these slots, or hands it back where none is free.
pub fn put<S: Marked>(slots: &[Slot<S>], answer: Box<Answer<S>>) -> Result<(), Box<Answer<S>>>
    requires tags { AreTagged (answer.value.stamp.of ∷ []) slots.now }
    requires right { IsRightFor (S.calculus answer.value.stamp.value.value) (S.meaning answer.value.stamp.value.value) (S.belongs answer.value.stamp.value.value) answer.value.rule answer.value.parts answer.value.outcome }
    ensures { IfErr result (λ back. back ≡ answer) }
{
    if slots.is_empty() {
        return Err(answer);
    }
    let hash = answer.hash;
    let mut answer = answer;
    for after in 0..WINDOW {
        let slot = &slots[place(hash, after, slots.len())];
        match slot.set_written(answer) {
            Ok(_) => return Ok(()),
            Err(back) => answer = back,
        }
    }
    Err(answer)
}
