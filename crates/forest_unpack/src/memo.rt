//! What is known of full structures: those that were met, by number, and what rules make of them.

ghost use Rattle.std.specs.Prelude.{◌≡◌, ◌<◌, ◌++◌, ◌∷◌, [], IfOk, IfSome, IsTrue, OnOk, Some, length, slice_get};
ghost use Rattle.std.specs.Arc.{arc_value};
ghost use Rattle.std.specs.List.{Contains};
ghost use Rattle.forest_unpack.specs.Inner.Memos.{Extends, fulls_in, known_in};

use crate::index::Index;
use crate::{Fulls, NoMemory};
use std::alloc::Global;
use std::sync::Arc;

/// A rule over known full structures by their numbers, from the left; as many as the rule has daughters, from `a` on.
#[derive(Debug, Clone, Copy)]
pub struct Question {
    pub rule: u32,
    pub a: Option<u32>,
    pub b: Option<u32>,
    pub c: Option<u32>,
    pub d: Option<u32>,
}

/// What is known of a question: the number of the full structure of the phrase, or that there is none.
#[derive(Debug, Clone, Copy)]
pub struct Answer {
    pub question: Question,
    pub made: Option<u32>,
}

/// A hash with one more word.
fn mixed(hash: u64, word: u64) -> u64 {
    (hash ^ word)
        .wrapping_mul(0x9E37_79B9_7F4A_7C15)
        .rotate_left(29)
}

/// Whether the numbers are the same, or there is none.
fn are_same(number: Option<u32>, other: Option<u32>) -> bool
    ensures { IsTrue result → number ≡ other }
{
    match (number, other) {
        (None, None) => true,
        (Some(number), Some(other)) => number == other,
        _ => false,
    }
}

impl Question {
    /// A number by which the same question is found.
    fn hash(&self) -> u64 {
        let mut hash = mixed(0, self.rule as u64);
        for number in [self.a, self.b, self.c, self.d] {
            match number {
                Some(number) => hash = mixed(hash, number as u64),
                None => return hash,
            }
        }
        hash
    }

    /// Whether the questions are the same.
    fn is(&self, other: &Question) -> bool
        ensures { IsTrue result → self.now ≡ other.now }
    {
        self.rule == other.rule
            && are_same(self.a, other.a)
            && are_same(self.b, other.b)
            && are_same(self.c, other.c)
            && are_same(self.d, other.d)
    }
}

/// Known full structures, each with its place as its number, and answers. The indexes only say where to look.
#[derive(Drop)]
pub struct Memo<F: Fulls> {
    pub known: Vec<Arc<F::Full>>,
    pub answers: Vec<Answer>,
    marks: Index,
    questions: Index,
}

impl<F: Fulls> Memo<F> {
    /// Nothing is known yet.
    pub fn new(alloc: Global) -> Memo<F>
        ensures known { result.known.items ≡ [] }
        ensures answers { result.answers.items ≡ [] }
    {
        Memo {
            known: Vec::new(alloc),
            answers: Vec::new(alloc),
            marks: Index::new(alloc),
            questions: Index::new(alloc),
        }
    }

    /// The known full structure of a number.
    pub fn full(&self, number: u32) -> Result<Arc<F::Full>, NoMemory>
        requires { number < length self.now.known.items }
        ensures { IfOk result (λ full. slice_get (fulls_in self.now) number ≡ Some (arc_value full)) }
    {
        Ok(self.known[number as usize].clone()?)
    }

    /// The number of a full structure that is known, where it is found.
    fn find(&self, fulls: &F, mark: u64, full: &F::Full) -> Option<u32>
        ensures { IfSome result (λ n. slice_get (known_in (F.value fulls.now) self.now) n ≡ Some (F.value fulls.now full.now)) }
    {
        let mut next = self.marks.last(mark);
        while let Some(place) = next {
            let at = place as usize;
            if at >= self.known.len() {
                return None;
            }
            if fulls.same(&self.known[at], full) {
                return Some(place);
            }
            next = self.marks.before(mark, place);
        }
        None
    }

    /// The number of a full structure, which is known from then on.
    #[tactic(auto, using(crate::proofs::Memos::known_more, crate::proofs::Memos::known_last, crate::proofs::Memos::extends_same))]
    pub fn number(&mut self, alloc: Global, fulls: &F, full: Arc<F::Full>) -> Result<u32, NoMemory>
        ensures named { IfOk result (λ n. slice_get (known_in (F.value fulls.now) self.new) n ≡ Some (F.value fulls.now (arc_value full))) }
        ensures known { OnOk result (Extends (known_in (F.value fulls.now) self.old) (known_in (F.value fulls.now) self.new)) }
        ensures answers { OnOk result (self.new.answers.items ≡ self.old.answers.items) }
    {
        let mark = fulls.mark(&full);
        if let Some(number) = self.find(fulls, mark, &full) {
            return Ok(number);
        }
        let Ok(number) = u32::try_from(self.known.len()) else {
            return Err(NoMemory);
        };
        self.known.push(full)?;
        self.marks.push(alloc, mark)?;
        Ok(number)
    }

    /// What is known of a question.
    pub fn answer(&self, question: &Question) -> Option<Answer>
        ensures question { IfSome result (λ answer. answer.question ≡ question.now) }
        ensures known { IfSome result (Contains self.now.answers.items) }
    {
        let hash = question.hash();
        let mut next = self.questions.last(hash);
        while let Some(place) = next {
            let at = place as usize;
            if at >= self.answers.len() {
                return None;
            }
            let answer = &self.answers[at];
            if answer.question.is(question) {
                return Some(*answer);
            }
            next = self.questions.before(hash, place);
        }
        None
    }

    /// Keeps an answer.
    pub fn learn(&mut self, alloc: Global, answer: Answer) -> Result<(), NoMemory>
        ensures answers { OnOk result (self.new.answers.items ≡ self.old.answers.items ++ answer ∷ []) }
        ensures known { OnOk result (self.new.known.items ≡ self.old.known.items) }
    {
        self.answers.push(answer)?;
        self.questions.push(alloc, answer.question.hash())?;
        Ok(())
    }
}
