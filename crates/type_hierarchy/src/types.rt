//! Completed types, with strings beside them.

ghost use Rattle.std.specs.Prelude.{◌≡◌, ◌≢◌, ℕ, ◌+◌, ◌-◌, ◌<◌, ◌≤◌, ◌^◌, ◌++◌, ◌↔◌, length, map, IfOk, IsTrue, Option, option_map, All, slice_index_or, [], true};
ghost use Rattle.type_hierarchy.specs.Decls.{texts};
ghost use Rattle.type_hierarchy.specs.Inner.Reach.{lists};
ghost use Rattle.type_hierarchy.specs.Table.{TypeTable, count_of, completed_count, set_of, has_member, is_below, is_set_below, meet_of, table_of, IsFamily, IsDistinct, glb_name};
ghost use Rattle.type_hierarchy.specs.Laws.{HasTypeLaws, IsRising};
ghost use Rattle.type_hierarchy.specs.Bits.{IsRow, has_bit, bits_below};
ghost use Rattle.type_hierarchy.specs.Named.{type_named};
ghost use Rattle.type_hierarchy.specs.Inner.Nearest.{HasPassed};
ghost use Rattle.type_hierarchy.specs.Inner.Marks.{AreMarks};
ghost use Rattle.type_hierarchy.specs.Inner.Tables.{row_items, place_of_common, sets_of};
ghost use Rattle.std.specs.List.{range_with_len};
ghost use Rattle.std.specs.String.{string_bytes};

use crate::bits;
use crate::columns::transpose;
use crate::hierarchy::Hierarchy;
use crate::marks::{are_disjoint_in, is_subset_in, marks_of};
use crate::places::{place_of, places_of};
use crate::rows::row_of;
use indexmap::{IndexMap, IndexSet};
pub use std::alloc::AllocError as NoMemory;
use std::alloc::{AllocError, Global};
use std::marker::Model;

/// A type by number.
#[derive(Clone, Copy, Debug, PartialEq, Eq)]
pub struct Ty(pub u32);

/// How many types there are: without added ones and strings, without strings, and of all.
#[derive(Clone, Copy)]
pub struct TypeCounts {
    pub written: u32,
    pub completed: u32,
    pub all: u32,
}

/// A completed hierarchy with strings as atoms. Types are numbered from 0: the top type, the string type where it
/// isn't written, written types, added types, and then the strings.
#[derive(Drop)]
pub struct Types {
    names: Vec<String>,
    sets: IndexSet<Vec<u64>>,
    written: u32,
    string_type: u32,
    places: IndexMap<String, u32>,
    marks: Vec<u64>,
    columns: Vec<Vec<u64>>,
}

/// More words than the row of a hierarchy has.
const WORDS: usize = 257;

/// The words of hierarchies of at most 1,024 written types.
const FEW_WORDS: usize = 16;

/// The words of hierarchies of at most 4,096 written types.
const SOME_WORDS: usize = 64;

impl Model for Types {
    ghost use Rattle.type_hierarchy.specs.Table.{TypeTable};

    ghost Value = { TypeTable };

    ghost use Rattle.type_hierarchy.specs.Inner.Tables.{types_table, IsTypesInside};

    ghost view = { λ t. types_table t.names.items t.sets.keys t.written t.string_type };

    ghost invariant = { λ t. IsTypesInside t.names.items t.sets.keys t.written t.string_type t.places.entries t.marks.items t.columns.items };
}

impl Types {
    /// Adds completed types and strings to a hierarchy. `added` has the members of each nonempty intersection for
    /// which no written type stands, in the order in which the added types are numbered. More types than a `u32`
    /// can number count as want of memory.
    pub fn of_sets(
        alloc: Global,
        h: Hierarchy,
        added: Vec<Vec<u32>>,
        strings: &[String],
    ) -> Result<Types, NoMemory>
        requires { IsFamily h (h.sets ++ lists added.items) }
        ensures { IfOk result (λ types. types ≡ table_of h (lists added.items) (texts strings.now)) }
    {
        let Hierarchy {
            names,
            rows,
            string_type,
        } = h;
        if !have_numbers(rows.len(), added.len(), strings.len()) {
            return Err(NoMemory);
        }
        let written = rows.len() as u32;
        let rows = with_rows(alloc, rows, &added, written)?;
        let marks = marks_of(alloc, &rows)?;
        let columns = transpose(alloc, &rows, written)?;
        let sets = indexed(alloc, rows)?;
        let names = with_names(alloc, names, added.len() as u32, strings)?;
        let places = places_of(alloc, &names, sets.len() as u32)?;
        Ok(Types {
            names,
            sets,
            written,
            string_type,
            places,
            marks,
            columns,
        })
    }

    /// The greatest common subtype, or `None` exactly where there is no common subtype.
    pub fn meet(&self, a: Ty, b: Ty) -> Option<Ty>
        requires a_in { a.0 < count_of self.now }
        requires b_in { b.0 < count_of self.now }
        ensures { option_map (λ t. t.0) result ≡ meet_of self.now a.0 b.0 }
    {
        let completed = self.sets.len() as u32;
        if self.at_or_below(a, b) {
            return Some(a);
        }
        if self.at_or_below(b, a) {
            return Some(b);
        }
        if a.0 >= completed || b.0 >= completed {
            return None;
        }
        common_type(&self.sets, &self.marks, self.written, a.0, b.0)
    }

    /// Whether type `a` is at or below type `b`.
    pub fn at_or_below(&self, a: Ty, b: Ty) -> bool
        requires a_in { a.0 < count_of self.now }
        requires b_in { b.0 < count_of self.now }
        ensures { result ≡ is_below self.now a.0 b.0 }
    {
        let completed = self.sets.len() as u32;
        if b.0 >= completed {
            return a == b;
        }
        if a.0 >= completed {
            return self.is_set_below(self.string_type, b.0);
        }
        self.is_set_below(a.0, b.0)
    }

    // Whether the set of type `a` is a subset of the set of type `b`.
    fn is_set_below(&self, a: u32, b: u32) -> bool
        requires a_in { a < completed_count self.now }
        requires b_in { b < completed_count self.now }
        ensures { result ≡ is_set_below self.now a b }
    {
        let (mark, other) = (self.marks[a as usize], self.marks[b as usize]);
        if mark & other != mark {
            return false;
        }
        if a < self.written {
            return bits::has(row(&self.sets, b), a);
        }
        is_subset_in(row(&self.sets, a), row(&self.sets, b), mark)
    }

    // The completed types that a type may be at or below, as words of bits: those that have a written type which is
    // at or below it.
    pub(crate) fn may_be_above(&self, t: u32) -> &[u64]
        requires { t < count_of self.now }
        ensures row { IsRow (completed_count self.now) result.now }
        ensures has { (b : ℕ) → b < completed_count self.now → is_below self.now t b ≡ true → has_bit result.now b ≡ true }
    {
        &self.columns[self.written_below(t) as usize]
    }

    // Adds to a set types that are at or above a type: where it is a written one, all of them.
    pub(crate) fn pass_above(&self, passed: &mut Vec<u64>, x: u32)
        requires x_in { x < completed_count self.now }
        requires row { IsRow (completed_count self.now) passed.old.items }
        ensures row { IsRow (completed_count self.now) passed.new.items }
        ensures passed { HasPassed self.now passed.old.items passed.new.items x }
    {
        if x < self.written {
            bits::extend(passed, &self.columns[x as usize]);
        }
    }

    // A written type that is at or below a type, or for a string the string type.
    fn written_below(&self, t: u32) -> u32
        requires { t < count_of self.now }
        ensures written { result < self.now.written }
        ensures member { (b : ℕ) → b < completed_count self.now → is_below self.now t b ≡ true → has_member (set_of self.now b) result ≡ true }
    {
        if t as usize >= self.sets.len() {
            return self.string_type;
        }
        if t < self.written {
            return t;
        }
        bits::next(row(&self.sets, t), 0, self.written)
    }

    /// The name of a type.
    pub fn name(&self, t: Ty) -> &str
        requires { t.0 < count_of self.now }
        ensures { result.now ≡ slice_index_or self.now.names t.0 [] }
    {
        &self.names[t.0 as usize]
    }

    /// The completed type of that name. Strings aren't looked at.
    pub fn find(&self, name: &str) -> Option<Ty>
        ensures { option_map (λ t. t.0) result ≡ type_named self.now name.now }
    {
        let place = place_of(&self.places, name)?;
        Some(Ty(place))
    }

    /// The counts of types.
    pub fn counts(&self) -> TypeCounts
        ensures written { result.written ≡ self.now.written }
        ensures completed { result.completed ≡ completed_count self.now }
        ensures all { result.all ≡ count_of self.now }
        ensures rising { (result.written ≤ result.completed) × (result.completed ≤ result.all) }
    {
        TypeCounts {
            written: self.written,
            completed: self.sets.len() as u32,
            all: self.names.len() as u32,
        }
    }

    /// A law: the order of types is a partial one, the meet of two types is their greatest common subtype, and
    /// there is one wherever there is a common subtype.
    pub fn laws(&self)
        ensures { HasTypeLaws self.now }
    {
        let _ = &self.written;
    }
}

// Whether there are numbers for all types.
fn have_numbers(written: usize, added: usize, strings: usize) -> bool
    ensures { IsTrue result ↔ (written + added + strings < 2 ^ 32) }
{
    const MOST: usize = u32::MAX as usize;
    written <= MOST && added <= MOST - written && strings <= MOST - written - added
}

// Adds the rows of added types.
fn with_rows(
    alloc: Global,
    mut rows: Vec<Vec<u64>>,
    added: &[Vec<u32>],
    written: u32,
) -> Result<Vec<Vec<u64>>, AllocError>
    requires rows { All (λ row. IsRow written row.items) rows.items }
    requires rising { All (λ members. IsRising written members.items) added.now }
    ensures rows { IfOk result (λ all. All (λ row. IsRow written row.items) all.items) }
    ensures sets { IfOk result (λ all. sets_of written all.items ≡ sets_of written rows.items ++ lists added.now) }
{
    for members in added {
        rows.push(row_of(alloc, members, written)?)?;
    }
    Ok(rows)
}

// The name of an added type, by its number from 1.
fn glb_name(alloc: Global, number: u64) -> Result<String, AllocError>
    ensures { IfOk result (λ name. string_bytes name ≡ glb_name number) }
{
    format!(in alloc; "glbtype{number}")
}

// Adds the names of added types and of strings.
fn with_names(
    alloc: Global,
    mut names: Vec<String>,
    added: u32,
    strings: &[String],
) -> Result<Vec<String>, AllocError>
    ensures { IfOk result (λ all. texts all.items ≡ texts names.items ++ map glb_name (range_with_len 1 added) ++ texts strings.now) }
{
    for i in 0..added {
        names.push(glb_name(alloc, u64::from(i) + 1)?)?;
    }
    for string in strings {
        names.push(string.clone()?)?;
    }
    Ok(names)
}

// The rows by number, to be looked up.
fn indexed(alloc: Global, rows: Vec<Vec<u64>>) -> Result<IndexSet<Vec<u64>>, AllocError>
    requires { IsDistinct (lists rows.items) }
    ensures { IfOk result (λ sets. sets.keys ≡ rows.items) }
{
    let mut sets = IndexSet::new(alloc);
    for row in rows {
        sets.insert(row)?;
    }
    Ok(sets)
}

// The row of a type that isn't a string.
fn row(sets: &IndexSet<Vec<u64>>, t: u32) -> &[u64]
    requires { t < length sets.now.keys }
    ensures { result.now ≡ row_items sets.now.keys t }
{
    let row = &sets.as_slice()[t as usize];
    row.as_slice()
}

// The type whose row is the intersection of two rows. `words` is room for it.
fn find_common(sets: &IndexSet<Vec<u64>>, words: &mut [u64], x: &[u64], y: &[u64]) -> Option<usize>
    requires room { length x.now ≡ length words.old }
    requires same_size { length x.now ≡ length y.now }
    ensures { (n : ℕ) → All (λ row. IsRow n row.items) sets.now.keys → IsRow n x.now → result ≡ place_of_common n sets.now.keys x.now y.now }
{
    words.copy_from_slice(x);
    bits::retain(words, y);
    sets.get_index_of(&*words)
}

// The same, with room for more words.
fn find_within(sets: &IndexSet<Vec<u64>>, buffer: &mut [u64], x: &[u64], y: &[u64]) -> Option<usize>
    requires room { length x.now ≤ length buffer.old }
    requires same_size { length x.now ≡ length y.now }
    ensures { (n : ℕ) → All (λ row. IsRow n row.items) sets.now.keys → IsRow n x.now → result ≡ place_of_common n sets.now.keys x.now y.now }
{
    let (words, _) = buffer.split_at_mut(x.len());
    find_common(sets, words, x, y)
}

// The same, with room that is made here: as little as will do, since all of it is cleared each time.
fn find_in_room(sets: &IndexSet<Vec<u64>>, x: &[u64], y: &[u64]) -> Option<usize>
    requires few { length x.now ≤ 257 }
    requires same_size { length x.now ≡ length y.now }
    ensures { (n : ℕ) → All (λ row. IsRow n row.items) sets.now.keys → IsRow n x.now → result ≡ place_of_common n sets.now.keys x.now y.now }
{
    if x.len() <= FEW_WORDS {
        let mut few = [0; FEW_WORDS];
        return find_within(sets, &mut few, x, y);
    }
    if x.len() <= SOME_WORDS {
        let mut some = [0; SOME_WORDS];
        return find_within(sets, &mut some, x, y);
    }
    let mut all = [0; WORDS];
    find_within(sets, &mut all, x, y)
}

// The type of the members that two types have in common, where there are any.
fn common_type(sets: &IndexSet<Vec<u64>>, marks: &[u64], written: u32, a: u32, b: u32) -> Option<Ty>
    requires marks { AreMarks sets.now.keys marks.now }
    requires rows { All (λ row. IsRow written row.items) sets.now.keys }
    requires few { written ≤ 16386 }
    requires a_in { a < length sets.now.keys }
    requires b_in { b < length sets.now.keys }
    requires small { length sets.now.keys < 2 ^ 32 }
    requires filled { (k : ℕ) → k < length sets.now.keys → bits_below written (row_items sets.now.keys k) ≢ [] }
    ensures { option_map (λ t. t.0) result ≡ place_of_common written sets.now.keys (row_items sets.now.keys a) (row_items sets.now.keys b) }
{
    let (x, y) = (row(sets, a), row(sets, b));
    if are_disjoint_in(x, y, marks[a as usize] & marks[b as usize]) {
        return None;
    }
    let place = find_in_room(sets, x, y)?;
    Some(Ty(place as u32))
}
