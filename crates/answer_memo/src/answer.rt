//! An answer with its question.

ghost use Rattle.std.specs.Prelude.{◌≡◌, IfSome};

use crate::asked::Asked;
use boxcar::slot::Written;
use std::snapshot::Snapshot;

/// What an object answered to a number with a key.
#[derive(Drop)]
pub struct Answer<A: Asked> {
    // of which object it is, which proofs alone see
    pub stamp: Written<Snapshot<A>>,
    pub hash: u64,
    pub number: u32,
    pub key: A::Key,
    pub told: A::Told,
}

/// A number by which the answer to a number with a key of this mark is found.
pub fn hash_of(number: u32, mark: u64) -> u64 {
    (mark ^ number as u64)
        .wrapping_mul(0x9E37_79B9_7F4A_7C15)
        .rotate_left(29)
        .wrapping_mul(0x9E37_79B9_7F4A_7C15)
}

impl<A: Asked> Answer<A> {
    /// The answer, if it is seen to be one to this number with this key.
    pub fn told_to(
        &self,
        of: &A,
        stamp: &Written<Snapshot<A>>,
        hash: u64,
        number: u32,
        key: &A::Key,
    ) -> Option<&A::Told>
        requires same { self.now.stamp.of ≡ stamp.now.of }
        requires of { stamp.now.value.value ≡ of.now }
        requires right { A.right self.now.stamp.value.value self.now.number self.now.key self.now.told }
        ensures { IfSome result (λ told. A.right of.now number key.now told.now) }
    {
        self.stamp.agrees(stamp);
        if self.hash == hash && self.number == number && of.same(&self.key, key) {
            Some(&self.told)
        } else {
            None
        }
    }
}
