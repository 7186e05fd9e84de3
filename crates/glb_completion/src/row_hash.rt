//! Hashing of rows of bits, a word at a time.

ghost use Rattle.std.specs.Prelude.{◌≡◌};
ghost use Rattle.glb_completion.specs.Inner.RowHash.{folded, mixed, word_of};

use std::hash::Hasher;

const MULTIPLIER: u64 = 0x9e37_79b9_7f4a_7c15;

/// A hasher for rows of words, which isn't cryptographic. A word costs one multiplication; of a write that isn't a
/// word it takes the length alone.
#[derive(Clone, Copy)]
pub struct RowHasher {
    state: u64,
}

impl Default for RowHasher {
    ghost is_default = { λ s. s.state ≡ 0 };

    fn default() -> RowHasher {
        RowHasher { state: 0 }
    }
}

// The two halves of the 128 bits of a product, joined by xor.
#[inline(always)]
fn folded_product(a: u64, b: u64) -> u64
    ensures { result ≡ folded a b }
{
    let product = a as u128 * b as u128;
    (product & 0xFFFF_FFFF_FFFF_FFFF) as u64 ^ (product >> 64) as u64
}

// A state with a word mixed in.
#[inline(always)]
fn mix(state: u64, word: u64) -> u64
    ensures { result ≡ mixed state word }
{
    folded_product(state ^ word, MULTIPLIER)
}

// What is mixed in for a write.
fn written_word(bytes: &[u8]) -> u64
    ensures { result ≡ word_of bytes.now }
{
    if bytes.len() != 8 {
        return bytes.len() as u64;
    }
    u64::from_le_bytes([
        bytes[0], bytes[1], bytes[2], bytes[3], bytes[4], bytes[5], bytes[6], bytes[7],
    ])
}

impl Hasher for RowHasher {
    ghost write = { λ s bytes. record { state = mixed s.state (word_of bytes) } };

    ghost finish = { λ s. s.state };

    #[inline(always)]
    fn finish(&self) -> u64 {
        self.state
    }

    fn write(&mut self, bytes: &[u8]) {
        self.state = mix(self.state, written_word(bytes));
    }

    #[inline(always)]
    fn write_u64(&mut self, i: u64) {
        self.state = mix(self.state, i);
    }
}
