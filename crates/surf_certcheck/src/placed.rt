//! Whether a set has no places but those of cycles up to a length.
ghost use Rattle.std.specs.Prelude.{◌≡◌, ◌<◌, ◌≤◌, ◌^◌, length, MatchOption};
ghost use Rattle.surf_z2.specs.Words.{number};
ghost use Rattle.surf_treecheck.specs.First.{Tells};
ghost use Rattle.surf_certcheck.specs.Frames.{ArePlacedUpTo, IsPlacedUpTo};
ghost use Rattle.surf_certcheck.specs.Columns.{IsGreatestIn, IsSorted};

// The greatest number of a set that is written in words, or none where it is empty.
fn greatest_in(words: &[u64]) -> Option<usize>
    requires few { length words.now ≤ 16 }
    ensures greatest { MatchOption result (number words.now ≡ 0)
        (IsGreatestIn (number words.now)) }
{
    for i in (0..words.len()).rev() {
        let word = words[i];
        if word != 0 {
            return Some(64 * i + 63 - word.leading_zeros() as usize);
        }
    }
    None
}

// Whether a cycle has the place and is no longer than a limit.
fn is_up_to(weight: Option<u128>, limit: u128) -> bool
    ensures up_to { Tells result (IsPlacedUpTo limit weight) }
{
    match weight {
        None => false,
        Some(weight) => weight <= limit,
    }
}

/// Whether all places of a set, which is written in words, are those of cycles no longer than a
/// limit. The places are in the order of the cycles' lengths, so that the greatest tells.
pub(crate) fn is_placed(words: &[u64], weights: &[Option<u128>], limit: u128) -> bool
    requires few { length words.now ≤ 16 }
    requires sorted { IsSorted weights.now }
    ensures placed { number words.now < 2 ^ length weights.now →
        Tells result (ArePlacedUpTo limit weights.now (number words.now)) }
{
    match greatest_in(words) {
        None => true,
        Some(place) => place < weights.len() && is_up_to(weights[place], limit),
    }
}
