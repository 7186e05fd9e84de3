//! Objects with the answers that they gave.

ghost use Rattle.std.specs.Prelude.{◌≡◌, IfOk, IfSome};

use crate::NoMemory;
use crate::answer::{Answer, hash_of};
use crate::asked::Asked;
use crate::store::Store;
use std::alloc::Global;
use std::marker::Model;

/// An object with answers that it gave. In contracts it is the object itself.
///
/// Threads share it by reference: an answer is kept in a slot that is written once, and read without a lock. Once the weight of
/// what is kept reaches the most that it may be, or all slots of an answer are taken, nothing more is kept.
#[derive(Drop)]
pub struct Memo<A: Asked> {
    of: A,
    store: Store<A>,
}

impl<A: Asked> Model for Memo<A> {
    ghost use Rattle.std.specs.Prelude.{◌≡◌};

    ghost Value = { A };

    ghost coded = { A.code };

    ghost view = { λ m. m.of };

    ghost invariant = { λ m. m.store.stamp.value.value ≡ m.of };
}

impl<A: Asked> Memo<A> {
    /// This object, of which nothing is known yet, and the greatest weight of what is kept of it, in words.
    pub fn new(alloc: Global, of: A, most: u64) -> Result<Memo<A>, NoMemory>
        ensures { IfOk result (λ memo. memo ≡ of) }
    {
        let store = Store::new(alloc, &of, most)?;
        Ok(Memo { of, store })
    }

    /// The object itself.
    pub fn of(&self) -> &A
        ensures { result.now ≡ self.now }
    {
        &self.of
    }

    /// What is known of a number with a key. Takes no memory.
    pub fn find(&self, number: u32, key: &A::Key) -> Option<&A::Told>
        ensures { IfSome result (λ told. A.right self.now number key.now told.now) }
    {
        let hash = hash_of(number, self.of.mark(key));
        self.store.find(&self.of, hash, number, key)
    }

    /// Whether no further answers are kept.
    pub fn is_full(&self) -> bool {
        self.store.is_full()
    }

    /// Keeps the answer to a number with a key, where there is room for it.
    pub fn keep(&self, alloc: Global, number: u32, key: A::Key, told: A::Told)
        requires { A.right self.now number key told }
    {
        if self.store.is_full() {
            return;
        }
        let hash = hash_of(number, self.of.mark(&key));
        let weight = self.of.weight(&key, &told);
        let answer = Answer {
            stamp: self.store.stamp.again(),
            hash,
            number,
            key,
            told,
        };
        if let Ok(answer) = Box::new(alloc, answer) {
            self.store.keep(alloc, answer, weight);
        }
    }
}
