//! Places of a list that grows at its end, by hashes.

ghost use Rattle.std.specs.Prelude.{◌<◌, IfSome};

use crate::NoMemory;
use std::alloc::Global;

/// The fewest heads that are made.
const FEWEST_HEADS: usize = 64;

/// Where a place stands: its hash, and the last place before it with the same head.
#[derive(Debug, Clone, Copy)]
struct Link {
    hash: u64,
    before: Option<u32>,
}

/// Places by the hashes of what stands there. What is found is only likely: whoever asks compares what stands at the place.
#[derive(Drop)]
pub struct Index {
    heads: Vec<Option<u32>>,
    links: Vec<Link>,
}

impl Index {
    /// No places yet.
    pub fn new(alloc: Global) -> Index {
        Index {
            heads: Vec::new(alloc),
            links: Vec::new(alloc),
        }
    }

    /// Which head serves a hash; the number of heads is a power of two.
    fn slot(&self, hash: u64) -> usize {
        let folded = hash ^ (hash >> 32);
        folded as usize & self.heads.len().wrapping_sub(1)
    }

    /// The last place with a hash.
    pub fn last(&self, hash: u64) -> Option<u32> {
        let head = *self.heads.get(self.slot(hash))?;
        self.find(hash, head, self.links.len())
    }

    /// The last place with a hash before this one.
    pub fn before(&self, hash: u64, place: u32) -> Option<u32>
        ensures { IfSome result (λ before. before < place) }
    {
        let link = self.links.get(place as usize)?;
        self.find(hash, link.before, place as usize)
    }

    /// The first place with a hash on the way back from a place, below an end.
    fn find(&self, hash: u64, from: Option<u32>, end: usize) -> Option<u32>
        ensures { IfSome result (λ place. place < end) }
    {
        let mut limit = end;
        let mut next = from;
        while let Some(number) = next {
            let place = number as usize;
            if place >= limit {
                return None;
            }
            let link = self.links.get(place)?;
            if link.hash == hash {
                return Some(number);
            }
            limit = place;
            next = link.before;
        }
        None
    }

    /// Adds the hash of the next place.
    pub fn push(&mut self, alloc: Global, hash: u64) -> Result<(), NoMemory> {
        if self.links.len() >= self.heads.len() {
            self.grow(alloc)?;
        }
        let place = self.links.len();
        let before = self.enter(hash, place)?;
        self.links.push(Link { hash, before })?;
        Ok(())
    }

    /// Makes a place the last one of its head; the one that was it before.
    fn enter(&mut self, hash: u64, place: usize) -> Result<Option<u32>, NoMemory> {
        let Ok(number) = u32::try_from(place) else {
            return Err(NoMemory);
        };
        let slot = self.slot(hash);
        let Some(head) = self.heads.get_mut(slot) else {
            return Ok(None);
        };
        let before = *head;
        *head = Some(number);
        Ok(before)
    }

    /// Twice as many heads.
    fn grow(&mut self, alloc: Global) -> Result<(), NoMemory> {
        let count = self.heads.len().saturating_mul(2).max(FEWEST_HEADS);
        let mut heads = Vec::with_capacity(alloc, count)?;
        for _ in 0..count {
            heads.push(None)?;
        }
        self.heads = heads;
        for place in 0..self.links.len() {
            self.enter_again(place)?;
        }
        Ok(())
    }

    /// Makes a place that was added before the last one of its head.
    fn enter_again(&mut self, place: usize) -> Result<(), NoMemory> {
        let Some(link) = self.links.get(place) else {
            return Ok(());
        };
        let hash = link.hash;
        let before = self.enter(hash, place)?;
        if let Some(link) = self.links.get_mut(place) {
            link.before = before;
        }
        Ok(())
    }
}
