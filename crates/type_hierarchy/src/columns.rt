//! Rows of bits turned to columns, a square of 64 by 64 bits at a time.

ghost use Rattle.std.specs.Prelude.{◌≡◌, ℕ, ◌*◌, ◌+◌, ◌/◌, ◌%◌, ◌-◌, ◌<◌, ◌≤◌, ◌^◌, true, false, length, All, IfOk};
ghost use Rattle.type_hierarchy.specs.Bits.{has_bit, IsRow};
ghost use Rattle.type_hierarchy.specs.Inner.Columns.{AreColumns, EndsBelow, IsGrown, IsMask, IsTurned, cell};
ghost use Rattle.type_hierarchy.specs.Inner.Reach.{lists};
ghost use Rattle.type_hierarchy.specs.Inner.Rows.{AreEmpty, row_at};

use crate::bits;
use std::alloc::{AllocError, Global};

// One of six rounds, each of which exchanges one bit of the number of a row with one of a column, and then turns the number of
// the row round by one bit, so that each round reads and writes at the same places.
#[inline(always)]
fn turn_once(from: &[u64], to: &mut [u64], shift: u32, mask: u64)
    requires from { length from.now ≡ 64 }
    requires to { length to.old ≡ 64 }
    requires mask { IsMask shift mask }
    ensures size { length to.new ≡ 64 }
    ensures turned { IsTurned shift from.now to.new }
{
    for i in 0..32 {
        let low = from[i];
        let high = from[i + 32];
        to[2 * i] = (low & mask) | ((high & mask) << shift);
        to[2 * i + 1] = ((low >> shift) & mask) | (high & !mask);
    }
}

// Exchanges the rows and the columns of a square.
fn turn(block: &mut [u64])
    requires { length block.old ≡ 64 }
    ensures size { length block.new ≡ 64 }
    ensures turned { (r c : ℕ) → r < 64 → c < 64 → cell block.new r c ≡ cell block.old c r }
{
    let mut other = blank();
    turn_once(block, &mut other, 32, 0x0000_0000_FFFF_FFFF);
    turn_once(&other, block, 16, 0x0000_FFFF_0000_FFFF);
    turn_once(block, &mut other, 8, 0x00FF_00FF_00FF_00FF);
    turn_once(&other, block, 4, 0x0F0F_0F0F_0F0F_0F0F);
    turn_once(block, &mut other, 2, 0x3333_3333_3333_3333);
    turn_once(&other, block, 1, 0x5555_5555_5555_5555);
}

// A square without bits.
#[inline(always)]
fn blank() -> [u64; 64]
    ensures size { length result ≡ 64 }
    ensures cells { (r c : ℕ) → cell result r c ≡ false }
{
    [0; 64]
}

// Puts the words at a place of 64 rows into a square without bits. The answer is whether any has a bit.
fn gather(rows: &[Vec<u64>], first: usize, place: usize, block: &mut [u64]) -> bool
    requires size { length block.old ≡ 64 }
    requires empty { (r c : ℕ) → cell block.old r c ≡ false }
    requires first { first ≤ length rows.now }
    requires place { All (λ row. place < length row.items) rows.now }
    ensures size { length block.new ≡ 64 }
    ensures cells { (r c : ℕ) → r < 64 → c < 64 → cell block.new r c ≡ has_bit (row_at (lists rows.now) (first + r)) (64 * place + c) }
    ensures none { result ≡ false → (r c : ℕ) → cell block.new r c ≡ false }
{
    let count = (rows.len() - first).min(64);
    let mut some = 0;
    for j in 0..count {
        let word = rows[first + j][place];
        block[j] = word;
        some |= word;
    }
    some != 0
}

// Puts the words of a square into columns at a place, from a column on.
fn scatter(columns: &mut [Vec<u64>], block: &[u64], first: usize, place: usize)
    requires size { length block.now ≡ 64 }
    requires first { first ≤ length columns.old }
    requires sized { (n : ℕ) × (64 * place < n) × EndsBelow n place block.now × All (λ column. IsRow n column.items) columns.old }
    ensures grown { IsGrown columns.old columns.new (λ x y. (first ≤ x) × (x < first + 64) × (y / 64 ≡ place) × (cell block.now (x - first) (y % 64) ≡ true)) }
    ensures rows { (n : ℕ) → EndsBelow n place block.now → All (λ column. IsRow n column.items) columns.old → All (λ column. IsRow n column.items) columns.new }
{
    let count = (columns.len() - first).min(64);
    for j in 0..count {
        bits::add_word(&mut columns[first + j], place, block[j]);
    }
}

// Puts the numbers of the 64 rows of a group into those columns that stand in one word of a row.
fn enter_square(columns: &mut [Vec<u64>], rows: &[Vec<u64>], count: u32, group: usize, place: usize)
    requires size { length columns.old ≡ count }
    requires few { length rows.now < 2 ^ 32 }
    requires rows { All (λ row. IsRow count row.items) rows.now }
    requires columns { All (λ column. IsRow (length rows.now) column.items) columns.old }
    requires group { 64 * group < length rows.now }
    requires place { 64 * place < count }
    ensures grown { IsGrown columns.old columns.new (λ x y. (x / 64 ≡ place) × (y / 64 ≡ group) × (has_bit (row_at (lists rows.now) y) x ≡ true)) }
    ensures columns { All (λ column. IsRow (length rows.now) column.items) columns.new }
{
    let mut block = blank();
    if !gather(rows, 64 * group, place, &mut block) {
        return;
    }
    turn(&mut block);
    scatter(columns, &block, 64 * place, group);
}

// Puts the numbers of the 64 rows of a group into the columns of their members.
fn enter_group(columns: &mut [Vec<u64>], rows: &[Vec<u64>], count: u32, group: usize)
    requires size { length columns.old ≡ count }
    requires few { length rows.now < 2 ^ 32 }
    requires rows { All (λ row. IsRow count row.items) rows.now }
    requires columns { All (λ column. IsRow (length rows.now) column.items) columns.old }
    requires group { 64 * group < length rows.now }
    ensures grown { IsGrown columns.old columns.new (λ x y. (y / 64 ≡ group) × (has_bit (row_at (lists rows.now) y) x ≡ true)) }
    ensures columns { All (λ column. IsRow (length rows.now) column.items) columns.new }
{
    for place in 0..bits::word_count(count) {
        enter_square(columns, rows, count, group, place);
    }
}

// Puts the number of each row into the columns of its members.
fn enter_all(columns: &mut [Vec<u64>], rows: &[Vec<u64>], count: u32)
    requires size { length columns.old ≡ count }
    requires few { length rows.now < 2 ^ 32 }
    requires rows { All (λ row. IsRow count row.items) rows.now }
    requires columns { All (λ column. IsRow (length rows.now) column.items) columns.old }
    requires none { AreEmpty (lists columns.old) }
    ensures { AreColumns count rows.now columns.new }
{
    for group in 0..bits::word_count(rows.len() as u32) {
        enter_group(columns, rows, count, group);
    }
}

/// For each number below `count`, the set of the rows that have it.
pub fn transpose(alloc: Global, rows: &[Vec<u64>], count: u32) -> Result<Vec<Vec<u64>>, AllocError>
    requires few { length rows.now < 2 ^ 32 }
    requires rows { All (λ row. IsRow count row.items) rows.now }
    ensures { IfOk result (λ columns. AreColumns count rows.now columns.items) }
{
    let mut columns = bits::empty_rows(alloc, count, rows.len() as u32)?;
    enter_all(&mut columns, rows, count);
    Ok(columns)
}
