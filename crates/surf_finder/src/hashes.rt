//! Hashes of signatures, such that the hash of a sum is the sum of the hashes. Whether two
//! signatures are the same is asked of the signatures: only the time that it takes depends on
//! hashes.
ghost use Rattle.std.specs.Prelude.{◌<◌};

use surf_bits::Bits;

// The hash of a number: one of 64 bits that look as if they were thrown. (The steps are those of
// SplitMix64.)
fn scattered(number: u32) -> u64 {
    let mut word = (u64::from(number) + 1).wrapping_mul(0x9e37_79b9_7f4a_7c15);
    word = (word ^ (word >> 30)).wrapping_mul(0xbf58_476d_1ce4_e5b9);
    word = (word ^ (word >> 27)).wrapping_mul(0x94d0_49bb_1331_11eb);
    word ^ (word >> 31)
}

// The hash of the numbers that a word of a set writes.
fn hash_of_word(word: u64, place: u32) -> u64
    requires place { place < 16 }
{
    let mut hash = 0;
    for bit in 0..64 {
        if (word >> bit) & 1 == 1 {
            hash ^= scattered(64 * place + bit);
        }
    }
    hash
}

// The hash of a set of numbers: the sum of those of its numbers. Most words of most sets are zero.
pub(crate) fn hash_of(set: &Bits<'_>) -> u64 {
    let words = set.words();
    let mut hash = 0;
    for place in 0..words.len() {
        if words[place] != 0 {
            hash ^= hash_of_word(words[place], place as u32);
        }
    }
    hash
}
