//! Signatures.

ghost use Rattle.std.specs.Prelude.{◌≡◌, ◌<◌, ◌^◌, bit_xor, length};
ghost use Rattle.surf_z2.specs.Words.{number};
ghost use Rattle.surf_base.specs.declared.limits.TheConstants.{MAX_LOOPS};

use crate::bits::Bits;
use crate::words::{add_words, toggle_bit};
use std::marker::Model;

/// A set of numbers below 1,024.
#[derive(Drop)]
pub struct Signature {
    words: [u64; 16],
}

impl Model for Signature {
    ghost use Rattle.std.specs.Prelude.{ℕ};
    ghost use Rattle.surf_z2.specs.Words.{number};

    ghost Value = { ℕ };

    ghost view = { λ s. number s.words };
}

impl Signature {
    /// The empty set.
    pub fn zero() -> Signature
        ensures { result ≡ 0 }
    {
        Signature { words: [0; 16] }
    }

    /// The set of `k` alone.
    pub fn unit(k: u32) -> Signature
        requires { k < MAX_LOOPS }
        ensures { result ≡ 2 ^ k }
    {
        let mut words = [0; 16];
        toggle_bit(&mut words, k as usize);
        Signature { words }
    }

    /// A copy of the set.
    pub fn copy(&self) -> Signature
        ensures same { result ≡ self.now }
    {
        Signature { words: self.words }
    }

    /// The set, lent.
    pub fn bits(&self) -> Bits<'_>
        ensures { result ≡ self.now }
    {
        Bits::over(&self.words)
    }

    /// Makes it the set of the numbers that are in exactly one of it and `other`.
    pub fn add(&mut self, other: Bits<'_>)
        ensures { self.new ≡ bit_xor self.old other.entry }
    {
        add_words(&mut self.words, other.words());
    }

    /// The words.
    pub(crate) fn words(&self) -> &[u64]
        ensures many { length result.now ≡ 16 }
        ensures set { number result.now ≡ self.now }
    {
        &self.words
    }
}
