//! The sieve.

ghost use Rattle.std.specs.Prelude.{ℕ, ◌≡◌, ◌<◌, ◌≤◌, ◌*◌, ◌^◌, ◌++◌, ◌∷◌, List, [], All, IfOk, MatchBool, length};
ghost use Rattle.std.specs.Prelude.{vec_len, vec_capacity, ◌+◌, if◌then◌else◌};
ghost use Rattle.surf_z2.specs.Space.{Independent, Spanned, numbers};
ghost use Rattle.surf_bits.specs.Rows.{left_of, sieve_rows};
ghost use Rattle.surf_base.specs.declared.limits.TheConstants.{MAX_LOOPS};

use crate::bits::Bits;
use crate::signature::Signature;
use crate::words::first_bit;
use std::alloc::Global;
use std::marker::Model;
use surf_base::NoMemory;

/// A list of independent sets of numbers below a width, by which to tell which sets are sums of
/// them.
///
/// Gauss's elimination: of each admitted set it keeps what the rows before it left of it, with a
/// number of that, the pivot, which no later row has. What is left of a set once each row was added
/// where the set has its pivot is empty exactly where the set is a sum of those admitted.
#[derive(Drop)]
pub struct Sieve {
    width: u32,
    stride: usize,
    pivots: Vec<u32>,
    reduced: Vec<u64>,
    originals: Vec<u64>,
}

impl Model for Sieve {
    ghost use Rattle.std.specs.Prelude.{◌≤◌, ◌*◌, vec_capacity};
    ghost use Rattle.surf_bits.specs.Rows.{Sifted};

    ghost Value = { Sifted };

    ghost use Rattle.surf_bits.specs.Rows.{AreRows, originals_of, sieve_rows};

    ghost view = { λ s. record {
      width = s.width;
      admitted = originals_of (sieve_rows s.stride s.pivots.items s.reduced.items
          s.originals.items);
    } };

    ghost invariant = { λ s. AreRows s.width s.stride s.pivots.items s.reduced.items
        s.originals.items × (s.width ≤ vec_capacity s.pivots)
        × (s.width * s.stride ≤ vec_capacity s.reduced)
        × (s.width * s.stride ≤ vec_capacity s.originals) };
}

/// Adds a number to a table that has room for it.
fn add_number(numbers: &mut Vec<u32>, number: u32)
    requires { vec_len numbers.old < vec_capacity numbers.old }
    ensures items { numbers.new.items ≡ numbers.old.items ++ number ∷ [] }
    ensures capacity { vec_capacity numbers.old ≤ vec_capacity numbers.new }
{
    numbers.push(number).unwrap();
}

/// Adds words to a table that has room for them.
fn add_row(words: &mut Vec<u64>, row: &[u64])
    requires { vec_len words.old + length row.now ≤ vec_capacity words.old }
    ensures items { words.new.items ≡ words.old.items ++ row.now }
    ensures capacity { vec_capacity words.old ≤ vec_capacity words.new }
{
    words.extend_from_slice(row).unwrap();
}

/// What the rows leave of a set.
fn left_of(pivots: &[u32], reduced: &[u64], stride: usize, set: &Bits<'_>) -> Signature
    requires pivots { All (λ p. p < MAX_LOOPS) pivots.now }
    requires rows { length reduced.now ≡ length pivots.now * stride }
    requires stride { stride ≤ 16 }
    requires few { length pivots.now ≤ MAX_LOOPS }
    ensures left { (originals : List ℕ) → result
        ≡ left_of (sieve_rows stride pivots.now reduced.now originals) set.now }
    ensures small { set.now < 2 ^ (64 * stride) → result < 2 ^ (64 * stride) }
{
    let mut left = Signature::zero();
    left.add(Bits::over(set.words()));
    for i in 0..pivots.len() {
        if left.bits().bit(pivots[i]) {
            left.add(Bits::over(&reduced[i * stride..(i + 1) * stride]));
        }
    }
    left
}

impl Sieve {
    /// A sieve for sets of numbers below `width` that has admitted nothing. No later call takes
    /// memory.
    pub fn make(alloc: Global, width: u32) -> Result<Sieve, NoMemory>
        requires { width ≤ MAX_LOOPS }
        ensures { IfOk result (λ s. s ≡ record { width = width; admitted = [] }) }
    {
        let rows = width as usize;
        let stride = rows.div_ceil(64);
        Ok(Sieve {
            width,
            stride,
            pivots: Vec::with_capacity(alloc, rows)?,
            reduced: Vec::with_capacity(alloc, rows * stride)?,
            originals: Vec::with_capacity(alloc, rows * stride)?,
        })
    }

    /// Admits the set if it is no sum of sets admitted before, the sum of none included, and says
    /// whether it did.
    pub fn admit(&mut self, s: Bits<'_>) -> bool
        requires { s < 2 ^ self.old.width }
        ensures answer { MatchBool result (Spanned numbers self.old.admitted s.entry →
            ⊥) (Spanned numbers self.old.admitted s.entry) }
        ensures list { self.new.admitted ≡ (if result then (self.old.admitted ++ s.entry ∷ [])
            else self.old.admitted) }
        ensures width { self.new.width ≡ self.old.width }
    {
        let left = left_of(&self.pivots, &self.reduced, self.stride, &s);
        match first_bit(left.words()) {
            None => false,
            Some(pivot) => {
                let mut original = Signature::zero();
                original.add(s);
                let stride = self.stride;
                add_number(&mut self.pivots, pivot as u32);
                add_row(&mut self.reduced, &left.words()[..stride]);
                add_row(&mut self.originals, &original.words()[..stride]);
                true
            }
        }
    }

    /// Whether the set is a sum of some of those admitted, the sum of none included.
    pub fn spans(&self, s: Bits<'_>) -> bool
        requires { s < 2 ^ self.now.width }
        ensures { MatchBool result (Spanned numbers self.now.admitted s.entry)
            (Spanned numbers self.now.admitted s.entry → ⊥) }
    {
        let left = left_of(&self.pivots, &self.reduced, self.stride, &s);
        first_bit(left.words()).is_none()
    }

    /// What a sieve keeps: it admits no more sets than there are numbers. A caller whose proof
    /// rests on that calls it; it does nothing.
    pub fn law_of_sieve(&self)
        ensures few { length self.now.admitted ≤ self.now.width }
    {
        // The use of a field makes the invariant of the type known.
        let _ = &self.pivots;
    }

    /// How many sets are admitted.
    pub fn rank(&self) -> u32
        ensures rank { result ≡ length self.now.admitted }
        ensures most { result ≤ self.now.width }
        ensures within { All (λ x. x < 2 ^ self.now.width) self.now.admitted }
        ensures independent { Independent numbers self.now.admitted }
    {
        self.pivots.len() as u32
    }

    /// Forgets all sets.
    pub fn clear(&mut self)
        ensures { self.new ≡ record { width = self.old.width; admitted = [] } }
    {
        self.pivots.clear();
        self.reduced.clear();
        self.originals.clear();
    }
}
