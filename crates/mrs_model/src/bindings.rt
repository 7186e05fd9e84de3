//! Variables of one MRS that are bound to variables of another.

ghost use Rattle.std.specs.Prelude.{◌≡◌, ◌≢◌, ◌<◌, ◌≤◌, ◌⊎◌, ◌∷◌, ◌++◌, ◌^◌, ℕ, [], length, take, MatchOption, IfOk, OnOk, OnErr, List, slice_index};
ghost use Rattle.std.specs.Bool.{OnTrue, OnFalse};
ghost use Rattle.mrs_model.specs.Renaming.{IsOneToOne};
ghost use Rattle.mrs_model.specs.Inner.Bindings.{lefts, rights, Binds, Agrees, IsNext, Bound};

use crate::NoMemory;
use std::alloc::Global;
use std::marker::Model;

/// A variable of the one MRS, and that of the other to which it is bound.
#[derive(Clone, Copy, Debug, PartialEq, Eq)]
pub(crate) struct Pair {
    pub(crate) left: u32,
    pub(crate) right: u32,
}

/// Pairs of variables, in order of binding; no variable stands in two of them. A variable's pair is found at its slot; a slot may be out of
/// date, so that pairs are taken back by forgetting them.
#[derive(Debug, Drop)]
pub(crate) struct Bindings {
    pairs: Vec<Pair>,
    from: Vec<u32>,
    onto: Vec<u32>,
}

impl Model for Bindings {
    ghost use Rattle.mrs_model.specs.Inner.Bindings.{Bound, AreSlots};
    ghost use Rattle.std.specs.Prelude.{length};

    ghost Value = { Bound };

    ghost view = { λ b. record { pairs = b.pairs.items; size = length b.from.items } };

    ghost invariant = { λ b. AreSlots b.pairs.items b.from.items b.onto.items };
}

impl Bindings {
    /// No pairs, of so many variables on either side.
    pub(crate) fn new(alloc: Global, size: usize) -> Result<Bindings, NoMemory>
        ensures { IfOk result (λ b. b ≡ record { pairs = []; size = size }) }
    {
        Ok(Bindings {
            pairs: Vec::with_capacity(alloc, size)?,
            from: vec![in alloc; 0; size]?,
            onto: vec![in alloc; 0; size]?,
        })
    }

    /// How many pairs there are.
    pub(crate) fn len(&self) -> usize
        ensures { result ≡ length self.now.pairs }
    {
        self.pairs.len()
    }

    /// The variable to which this one is bound.
    pub(crate) fn right_of(&self, left: u32) -> Option<u32>
        requires { left < self.now.size }
        ensures { MatchOption result ((y : ℕ) → Binds self.now.pairs left y → ⊥) (λ y. Binds self.now.pairs left y) }
    {
        let pair = self.pairs.get(self.from[left as usize] as usize)?;
        if pair.left == left {
            Some(pair.right)
        } else {
            None
        }
    }

    /// The variable that is bound to this one.
    pub(crate) fn left_of(&self, right: u32) -> Option<u32>
        requires { right < self.now.size }
        ensures { MatchOption result ((x : ℕ) → Binds self.now.pairs x right → ⊥) (λ x. Binds self.now.pairs x right) }
    {
        let pair = self.pairs.get(self.onto[right as usize] as usize)?;
        if pair.right == right {
            Some(pair.left)
        } else {
            None
        }
    }

    /// Forgets all pairs but the first ones.
    pub(crate) fn forget(&mut self, len: usize)
        requires { len ≤ length self.old.pairs }
        ensures { self.new ≡ record { pairs = take len self.old.pairs; size = self.old.size } }
    {
        self.pairs.truncate(len);
    }

    // One more pair, of variables that stand in none.
    fn push(&mut self, left: u32, right: u32) -> Result<(), NoMemory>
        requires left_in { left < self.old.size }
        requires right_in { right < self.old.size }
        requires left_free { (y : ℕ) → Binds self.old.pairs left y → ⊥ }
        requires right_free { (x : ℕ) → Binds self.old.pairs x right → ⊥ }
        ensures ok { OnOk result (self.new ≡ record { pairs = self.old.pairs ++ record { left = left; right = right } ∷ []; size = self.old.size }) }
        ensures err { OnErr result (self.new ≡ self.old) }
    {
        let at = self.pairs.len();
        if at >= u32::MAX as usize {
            return Err(NoMemory);
        }
        self.pairs.push(Pair { left, right })?;
        self.from[left as usize] = at as u32;
        self.onto[right as usize] = at as u32;
        Ok(())
    }

    /// Binds two variables. False comes exactly where one of them is bound to another variable; then nothing changes.
    pub(crate) fn bind(&mut self, left: u32, right: u32) -> Result<bool, NoMemory>
        requires left_in { left < self.old.size }
        requires right_in { right < self.old.size }
        ensures size { self.new.size ≡ self.old.size }
        ensures next { IsNext self.old.pairs self.new.pairs left right }
        ensures binds { IfOk result (λ ok. OnTrue ok (Binds self.new.pairs left right)) }
        ensures clash { IfOk result (λ ok. OnFalse ok ((to : List ℕ) → self.old.size ≤ length to → IsOneToOne to → Agrees to self.old.pairs → slice_index to left ≡ right → ⊥)) }
    {
        let _ = &self.pairs;
        match self.right_of(left) {
            Some(bound) => Ok(bound == right),
            None => match self.left_of(right) {
                Some(_other) => Ok(false),
                None => {
                    self.push(left, right)?;
                    Ok(true)
                }
            },
        }
    }

    /// The map of all variables, each of which is bound.
    pub(crate) fn map_of(&self, alloc: Global) -> Result<Vec<u32>, NoMemory>
        requires all { (x : ℕ) → x < self.now.size → (y : ℕ) × Binds self.now.pairs x y }
        ensures every { IfOk result (λ to. length to.items ≡ self.now.size) }
        ensures bound { IfOk result (λ to. (x : ℕ) → x < self.now.size → Binds self.now.pairs x (slice_index to.items x)) }
    {
        let size = self.from.len();
        let mut to = Vec::with_capacity(alloc, size)?;
        for x in 0..size {
            if x > u32::MAX as usize {
                return Err(NoMemory);
            }
            match self.right_of(x as u32) {
                Some(y) => to.push(y)?,
                None => unreachable!(),
            }
        }
        Ok(to)
    }

    /// A law: no variable stands in two pairs, and each is within.
    pub(crate) fn one_to_one(&self)
        ensures left { (x w y : ℕ) → Binds self.now.pairs x y → Binds self.now.pairs w y → x ≡ w }
        ensures right { (x y z : ℕ) → Binds self.now.pairs x y → Binds self.now.pairs x z → y ≡ z }
        ensures within { (x y : ℕ) → Binds self.now.pairs x y → (x < self.now.size) × (y < self.now.size) }
    {
        let _ = &self.pairs;
    }
}
