//! Answers that shapes gave.

ghost use Rattle.std.specs.Prelude.{◌≡◌, ◌∷◌, [], ⊤, IfOk, IfSome};
ghost use Rattle.shape_memo.specs.Known.{IsRightFor, AreTagged};

use crate::NoMemory;
use crate::answer::{Answer, Outcome};
use crate::levels::{FIRST_SLOTS, Level, free_level, look, put, slots_at, tag_of};
use crate::marked::Marked;
use boxcar::slot::{OnceSlot, SlotRule, Written};
use boxcar::tag::Tag;
use chart_model::Tuple;
use std::alloc::Global;
use std::snapshot::Snapshot;
use std::sync::atomic::{AtomicU64, Ordering};

/// How many levels there are. Together they have 64,512 slots, of which each takes about 150 bytes with its answer: as many
/// answers as some hundred lines give, in a tenth of the memory that a process mostly has.
const LEVELS: usize = 6;

/// A rule that any value keeps.
struct Anything;

impl<T> SlotRule<T> for Anything {
    ghost holds = { λ _ _. ⊤ };
}

/// Answers of these shapes.
#[derive(Drop)]
pub struct Memo<S: Marked> {
    pub stamp: Written<Snapshot<S>>,
    levels: Vec<Level<S>>,
    // the greatest weight of all mothers that are kept, with 16 for each answer besides
    most: u64,
    // the weight of what is kept; the greatest and more once something found no room
    words: AtomicU64,
    ghost tagged: { AreTagged (stamp.of ∷ []) levels.items },
}

/// A stamp of these shapes: no other shapes have one that is of the same slot.
fn stamped<S>(shapes: &S) -> Result<Written<Snapshot<S>>, NoMemory>
    ensures { IfOk result (λ stamp. stamp.value.value ≡ shapes.now) }
{
    let slot: OnceSlot<Snapshot<S>, Anything> = OnceSlot::new(&Tag::empty());
    match slot.set_written(Snapshot::of(shapes)) {
        Ok(stamp) => Ok(stamp),
        Err(_) => Err(NoMemory),
    }
}

/// Levels that have no slots yet.
fn levels_of<S: Marked>(alloc: Global, tag: &Tag) -> Result<Vec<Level<S>>, NoMemory>
    ensures { IfOk result (λ levels. AreTagged tag.now.numbers levels.items) }
{
    let mut levels = Vec::with_capacity(alloc, LEVELS)?;
    for _ in 0..LEVELS {
        levels.push(free_level(tag))?;
    }
    Ok(levels)
}

impl<S: Marked> Memo<S> {
    /// Nothing is known yet of these shapes. What is kept weighs no more words than said.
    pub fn new(alloc: Global, shapes: &S, most: u64) -> Result<Memo<S>, NoMemory>
        ensures { IfOk result (λ memo. memo.stamp.value.value ≡ shapes.now) }
    {
        let stamp = stamped(shapes)?;
        let levels = levels_of(alloc, &tag_of(&stamp))?;
        Ok(Memo {
            stamp,
            levels,
            most,
            words: AtomicU64::new(0),
        })
    }

    /// What is known of a rule with these daughters.
    pub fn find<C>(
        &self,
        shapes: &S,
        hash: u64,
        rule: u32,
        parts: &Tuple<S::Shape, C>,
    ) -> Option<&Outcome<S::Shape>>
        requires { self.now.stamp.value.value ≡ shapes.now }
        ensures { IfSome result (λ o. IsRightFor (S.calculus shapes.now) (S.meaning shapes.now) (S.belongs shapes.now) rule parts.now o.now) }
    {
        for level in &self.levels {
            let slots = level.get()?;
            if let Ok(told) = look(slots, shapes, &self.stamp, hash, rule, parts) {
                return told;
            }
        }
        None
    }

    /// Whether there is no room for further answers.
    pub fn is_full(&self) -> bool {
        self.words.load(Ordering::SeqCst) >= self.most
    }

    /// Keeps an answer of some weight, where there is room for it.
    pub fn keep(&self, alloc: Global, answer: Box<Answer<S>>, weight: u32)
        requires of { answer.value.stamp.of ≡ self.now.stamp.of }
        requires right { IsRightFor (S.calculus answer.value.stamp.value.value) (S.meaning answer.value.stamp.value.value) (S.belongs answer.value.stamp.value.value) answer.value.rule answer.value.parts answer.value.outcome }
    {
        self.words.fetch_add(weight as u64 + 16, Ordering::SeqCst);
        let mut answer = answer;
        let mut count = FIRST_SLOTS;
        for level in &self.levels {
            let Some(slots) = slots_at(alloc, level, &self.stamp, count) else {
                return;
            };
            match put(slots, answer) {
                Ok(()) => return,
                Err(back) => answer = back,
            }
            count = count.saturating_mul(2);
        }
        self.words.fetch_add(self.most, Ordering::SeqCst);
    }
}
