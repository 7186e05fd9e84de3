//! The words to which lexical rules lead those of an entry.

ghost use Rattle.std.specs.Prelude.{◌≡◌, ◌<◌, [], ℕ, All, length, map, IfOk, MatchOption, replicate, string_bytes};
ghost use Rattle.chart_model.specs.At.{At};
ghost use Rattle.derivation.specs.Order.{outermost};
ghost use Rattle.tree_model.specs.Lexical.{Spells};
ghost use Rattle.tree_faults.specs.Spelled.{FailsWithin};
ghost use Rattle.tree_faults.specs.WordBooks.{IsWordBook, said_by};
ghost use Rattle.tree_faults.specs.Inner.Ends.{AreEnds, IsLed, front_of};

use crate::NoMemory;
use crate::said::are_said;
use crate::word_book::WordBook;
use std::alloc::Global;

/// The last words to which rules lead those of an entry, or the number of rules before the one at which no form is left.
#[derive(Drop)]
pub(crate) enum Ends {
    LastWords(Vec<String>),
    NoForm(usize),
}

// The last word of an entry, which no rule has changed.
fn first_ends(alloc: Global, book: &WordBook<'_>, entry: u32) -> Result<Vec<String>, NoMemory>
    requires book { IsWordBook book.now }
    requires entry { (n : ℕ) × At book.now.entries.now n entry }
    ensures ends { IfOk result (λ v. AreEnds (said_by book.now) entry [] (front_of (said_by book.now) entry) (map string_bytes v.items)) }
    ensures some { IfOk result (λ v. 0 < length v.items) }
{
    let words = book.words_of(entry);
    let last = words.len() - 1;
    let mut ends = Vec::new(alloc);
    ends.push(words[last].clone()?)?;
    Ok(ends)
}

/// The last words to which rules lead those of an entry, rule by rule from the inside out.
pub(crate) fn ends_of(
    alloc: Global,
    book: &WordBook<'_>,
    entry: u32,
    rules: &[u32],
) -> Result<Ends, NoMemory>
    requires book { IsWordBook book.now }
    requires entry { (n : ℕ) × At book.now.entries.now n entry }
    requires rules { All (λ rule. (n : ℕ) × At book.now.rules.now n rule) rules.now }
    ensures { IfOk result (IsLed (said_by book.now) entry rules.now) }
{
    let mut ends = first_ends(alloc, book, entry)?;
    for i in 0..rules.len() {
        let forms = book.forms_under(alloc, rules[i], &ends)?;
        if forms.is_empty() {
            return Ok(Ends::NoForm(i));
        }
        ends = forms;
    }
    Ok(Ends::LastWords(ends))
}

// The outermost instance of a lexical tree.
fn outermost(entry: u32, rules: &[u32]) -> u32
    ensures { result ≡ outermost entry rules.now }
{
    rules.last().copied().unwrap_or(entry)
}

/// Where a lexical tree doesn't spell its words: how many nodes within its outermost one, and the instance there.
#[derive(Clone, Copy)]
pub(crate) struct LeafFault {
    pub(crate) depth: usize,
    pub(crate) instance: u32,
}

/// Where an entry under rules doesn't spell words; none exactly where it does.
pub(crate) fn leaf_fault(
    alloc: Global,
    book: &WordBook<'_>,
    entry: u32,
    rules: &[u32],
    said: &[String],
) -> Result<Option<LeafFault>, NoMemory>
    requires book { IsWordBook book.now }
    requires entry { (n : ℕ) × At book.now.entries.now n entry }
    requires rules { All (λ rule. (n : ℕ) × At book.now.rules.now n rule) rules.now }
    ensures { IfOk result (λ o. MatchOption o
        (Spells (said_by book.now) entry rules.now (map string_bytes said.now))
        (λ f. FailsWithin (said_by book.now) entry rules.now (map string_bytes said.now) (replicate f.depth 1) f.instance)) }
{
    match ends_of(alloc, book, entry, rules)? {
        Ends::NoForm(place) => Ok(Some(LeafFault {
            depth: rules.len() - 1 - place,
            instance: rules[place],
        })),
        Ends::LastWords(ends) => {
            if are_said(book.words_of(entry), &ends, said) {
                return Ok(None);
            }
            Ok(Some(LeafFault {
                depth: 0,
                instance: outermost(entry, rules),
            }))
        }
    }
}
