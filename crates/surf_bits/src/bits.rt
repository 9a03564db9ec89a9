//! Bits that are lent.

ghost use Rattle.std.specs.Prelude.{◌≡◌, ◌<◌, ◌≤◌, ◌*◌, ◌^◌, ◌==◌, bit_xor, length};
ghost use Rattle.surf_z2.specs.Sieve.{has};
ghost use Rattle.surf_z2.specs.Words.{number};
ghost use Rattle.surf_base.specs.declared.limits.TheConstants.{MAX_LOOPS};

use crate::words::{add_words, are_same, first_bit, has_bit};
use std::marker::Model;

/// A set of numbers below 1,024, lent as at most sixteen words: number `64 j + i` is in it exactly
/// where the bit of value `2^i` of word `j` is on. Words that aren't there count as zero.
#[derive(Drop)]
pub struct Bits<'a> {
    words: &'a [u64],
}

impl<'a> Model for Bits<'a> {
    ghost use Rattle.std.specs.Prelude.{ℕ, ◌≤◌, length};
    ghost use Rattle.surf_z2.specs.Words.{number};

    ghost Value = { ℕ };

    ghost view = { λ b. number b.words.now };

    ghost invariant = { λ b. length b.words.now ≤ 16 };
}

impl<'a> Bits<'a> {
    /// The set that the words write.
    pub fn over(words: &'a [u64]) -> Bits<'a>
        requires { length words.now ≤ 16 }
        ensures { result ≡ number words.now }
    {
        Bits { words }
    }

    /// Whether `k` is in the set.
    pub fn bit(&self, k: u32) -> bool
        requires { k < MAX_LOOPS }
        ensures { result ≡ has self.now k }
    {
        has_bit(self.words, k as usize)
    }

    /// Whether the set has no number.
    pub fn is_empty(&self) -> bool
        ensures empty { result ≡ (self.now == 0) }
    {
        first_bit(self.words).is_none()
    }

    /// Whether it is the same set as another.
    pub fn is_same(&self, other: &Bits<'_>) -> bool
        ensures same { result ≡ (self.now == other.now) }
    {
        are_same(self.words, other.words)
    }

    /// Adds it to a set that is kept as words, of which there are enough for its numbers.
    pub fn add_to(&self, words: &mut [u64])
        requires fits { self.now < 2 ^ (64 * length words.old) }
        ensures sum { number words.new ≡ bit_xor (number words.old) self.now }
    {
        let count = words.len().min(self.words.len());
        add_words(words, &self.words[..count]);
    }

    /// The words that write it, at most sixteen, that of the least numbers first.
    pub fn words(&self) -> &[u64]
        ensures few { length result.now ≤ 16 }
        ensures set { number result.now ≡ self.now }
    {
        self.words
    }
}
