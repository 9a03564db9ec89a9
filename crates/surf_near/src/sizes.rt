//! How long edges are, on both sides of the number of buckets.
ghost use Rattle.std.specs.Prelude.{◌≡◌, ◌<◌, ◌≤◌, max, min};
ghost use Rattle.surf_buckets.specs.declared.TheConstants.{BUCKETS};
ghost use Rattle.surf_near.specs.Links.{AreSizes};

use surf_base::EdgeId;
use surf_buckets::BUCKETS;
use surf_lengths::Lengths;

/// The greatest of all lengths, the greatest of those that are less than the number of buckets, and
/// the least of the others. 0 and the greatest number that there is stand where there are none.
#[derive(Clone, Copy)]
pub(crate) struct Sizes {
    pub greatest: u32,
    pub greatest_small: u32,
    pub least_great: u32,
}

// The sizes with one more length.
fn with_length(sizes: Sizes, length: u32) -> Sizes
    ensures all { result.greatest ≡ max sizes.greatest length }
    ensures small { length < BUCKETS →
        (result.greatest_small ≡ max sizes.greatest_small length)
        × (result.least_great ≡ sizes.least_great) }
    ensures great { BUCKETS ≤ length →
        (result.greatest_small ≡ sizes.greatest_small)
        × (result.least_great ≡ min sizes.least_great length) }
{
    Sizes {
        greatest: sizes.greatest.max(length),
        greatest_small: if length < BUCKETS {
            sizes.greatest_small.max(length)
        } else {
            sizes.greatest_small
        },
        least_great: if length < BUCKETS {
            sizes.least_great
        } else {
            sizes.least_great.min(length)
        },
    }
}

/// The sizes of all lengths.
pub(crate) fn sizes_of(lengths: &Lengths) -> Sizes
    ensures sizes { AreSizes lengths.now result }
{
    let mut sizes = Sizes {
        greatest: 0,
        greatest_small: 0,
        least_great: u32::MAX,
    };
    for e in 0..lengths.count() {
        sizes = with_length(sizes, lengths.of(EdgeId::new(e)));
    }
    sizes
}
