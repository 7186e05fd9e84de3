//! Tables of bits.

ghost use Rattle.std.specs.Prelude.{◌≡◌, ◌≢◌, ◌<◌, ◌==◌, ℕ, IfOk};
ghost use Rattle.std.specs.Int.{bit_at};
ghost use Rattle.morph_analysis.specs.Allowed.{AllMay, MayBut, in_table};

use lexicon::NoMemory;
use std::alloc::Global;
use std::marker::Model;

/// Which rule may apply in which row: all but those whose bit is set.
#[derive(Drop)]
pub(crate) struct Table {
    rows: u32,
    width: u32,
    bits: Vec<u64>,
}

impl Model for Table {
    ghost use Rattle.std.specs.Prelude.{◌*◌, ◌≤◌, length};
    ghost use Rattle.morph_analysis.specs.Inner.Bits.{TableTree, cells_by};

    ghost Value = { TableTree };

    ghost view = { λ t. record { rows = t.rows; width = t.width; cells = cells_by t.rows t.width t.bits.items } };

    ghost invariant = { λ t. t.rows * t.width ≤ 64 * length t.bits.items };
}

// A word with a bit set.
fn with_bit(word: u64, k: usize) -> u64
    requires { k < 64 }
    ensures set { bit_at result k ≡ 1 }
    ensures others { (i : ℕ) → i ≢ k → bit_at result i ≡ bit_at word i }
{
    word | 1 << k
}

// Whether a bit is set.
fn has_bit(word: u64, k: usize) -> bool
    requires { k < 64 }
    ensures { result ≡ (bit_at word k == 1) }
{
    word >> k & 1 == 1
}

impl Table {
    /// Rows in which every rule may apply.
    pub fn make(alloc: Global, rows: u32, width: u32) -> Result<Table, NoMemory>
        ensures rows { IfOk result (λ t. t.rows ≡ rows) }
        ensures width { IfOk result (λ t. t.width ≡ width) }
        ensures all { IfOk result (λ t. AllMay t.cells) }
    {
        let places = rows as usize * width as usize;
        let bits = vec![in alloc; 0u64; places / 64 + 1]?;
        Ok(Table { rows, width, bits })
    }

    /// Forbids a rule in a row.
    pub fn forbid(&mut self, row: u32, rule: u32)
        requires row { row < self.old.rows }
        requires rule { rule < self.old.width }
        ensures rows { self.new.rows ≡ self.old.rows }
        ensures width { self.new.width ≡ self.old.width }
        ensures but { MayBut self.old.cells row rule self.new.cells }
    {
        let place = row as usize * self.width as usize + rule as usize;
        self.bits[place / 64] = with_bit(self.bits[place / 64], place % 64);
    }

    /// Whether a rule may apply in a row.
    pub fn allows(&self, row: u32, rule: u32) -> bool
        ensures { result ≡ in_table self.now.cells row rule }
    {
        if row < self.rows && rule < self.width {
            let place = row as usize * self.width as usize + rule as usize;
            return !has_bit(self.bits[place / 64], place % 64);
        }
        true
    }
}
