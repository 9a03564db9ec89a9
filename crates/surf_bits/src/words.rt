//! Sets of numbers in words of 64 bits, the word of the least numbers first.

ghost use Rattle.std.specs.Prelude.{ℕ, ◌≡◌, ◌<◌, ◌≤◌, ◌*◌, ◌^◌, ◌==◌, IsTrue, MatchOption, bit_xor, length, slice_index};
ghost use Rattle.surf_base.specs.declared.limits.TheConstants.{MAX_LOOPS};
ghost use Rattle.surf_z2.specs.Sieve.{has};
ghost use Rattle.surf_z2.specs.Words.{number};

/// Adds the words of `other` to as many of `words`, bit by bit and with no carry.
pub(crate) fn add_words(words: &mut [u64], other: &[u64])
    requires { length other.now ≤ length words.old }
    ensures { number words.new ≡ bit_xor (number words.old) (number other.now) }
{
    for i in 0..other.len() {
        words[i] ^= other[i];
    }
}

/// Whether the words have the bit `k`.
pub(crate) fn has_bit(words: &[u64], k: usize) -> bool
    ensures { result ≡ has (number words.now) k }
{
    let i = k / 64;
    i < words.len() && (words[i] >> (k % 64)) & 1 == 1
}

/// Each word has 64 bits. A proof knows this of a slice that is read, and no more of what it held
/// before a write.
fn words_fit(words: &[u64])
    ensures { (k : ℕ) → slice_index words.now k < 2 ^ 64 }
{}

/// Turns the bit `k`.
pub(crate) fn toggle_bit(words: &mut [u64], k: usize)
    requires { k < 64 * length words.old }
    ensures { number words.new ≡ bit_xor (number words.old) (2 ^ k) }
{
    words_fit(words);
    words[k / 64] ^= 1 << (k % 64);
}

/// A bit of the words, if they have one.
pub(crate) fn first_bit(words: &[u64]) -> Option<usize>
    requires { length words.now ≤ MAX_LOOPS }
    ensures { MatchOption result (number words.now ≡ 0) (λ k. (k < 64 * length words.now)
        × IsTrue (has (number words.now) k)) }
{
    for i in 0..words.len() {
        let word = words[i];
        if word != 0 {
            return Some(64 * i + word.trailing_zeros() as usize);
        }
    }
    None
}

// The word at a place, and zero where there is none.
fn word_at(words: &[u64], i: usize) -> u64
    ensures { result ≡ slice_index words.now i }
{
    if i < words.len() { words[i] } else { 0 }
}

/// Whether two lists of words have the same bits.
pub(crate) fn are_same(first: &[u64], second: &[u64]) -> bool
    ensures same { result ≡ (number first.now == number second.now) }
{
    for i in 0..first.len().max(second.len()) {
        if word_at(first, i) != word_at(second, i) {
            return false;
        }
    }
    true
}
