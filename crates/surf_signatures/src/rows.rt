//! Rows of words.
ghost use Rattle.std.specs.Prelude.{◌≡◌, ◌≤◌, ◌+◌, ◌/◌, ◌<◌, ◌^◌, ℕ, length, take, drop, slice_index};
ghost use Rattle.surf_base.specs.declared.limits.TheConstants.{MAX_LOOPS};

/// How many words a set has.
pub(crate) fn words_of(width: u32) -> usize
    requires width { width ≤ MAX_LOOPS }
    ensures words { result ≡ (width + 63) / 64 }
{
    (width as usize + 63) / 64
}

/// The words of a table from a place on, a given number of them.
pub(crate) fn words_at(table: &[u64], start: usize, words: usize) -> &[u64]
    requires room { start + words ≤ length table.now }
    ensures words { result.now ≡ take words (drop start table.now) }
    ensures fit { (k : ℕ) → slice_index result.now k < 2 ^ 64 }
{
    &table[start..start + words]
}
