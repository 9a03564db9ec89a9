//! Images of sets by rows.
ghost use Rattle.std.specs.Prelude.{◌≡◌, ◌<◌, ◌≤◌, ◌*◌, ◌^◌, ℕ, MatchOption, true, false, length};
ghost use Rattle.surf_z2.specs.Sieve.{has};
ghost use Rattle.surf_signatures.specs.Tables.{words_for};
ghost use Rattle.surf_paired.specs.Paired.{image};
ghost use Rattle.surf_base.specs.declared.limits.TheConstants.{MAX_LOOPS};

use surf_base::VertexId;
use surf_bits::{Bits, Signature};
use surf_signatures::VertexSets;

/// The sum of the rows whose numbers are in a set. A table of sets by vertex serves for the rows,
/// with their numbers as its vertices.
pub(crate) fn image_of(rows: &VertexSets, count: u32, set: &Bits<'_>) -> Signature
    requires count { length rows.now.sets ≡ count }
    requires few { count ≤ MAX_LOOPS }
    ensures image { result ≡ image rows.now.sets set.now }
    ensures small { result < 2 ^ (64 * words_for rows.now.width) }
{
    let mut sum = Signature::zero();
    if set.is_empty() {
        return sum;
    }
    for k in 0..count {
        if set.bit(k) {
            sum.add(rows.of(VertexId::new(k)));
        }
    }
    sum
}

/// The least of the numbers from one up to another, without that, that a set has.
pub(crate) fn first_from(set: &Bits<'_>, from: u32, to: u32) -> Option<u32>
    requires few { to ≤ MAX_LOOPS }
    ensures first { MatchOption result ((k : ℕ) → from ≤ k → k < to → has set.now k ≡ false)
        (λ k. (from ≤ k) × (k < to) × (has set.now k ≡ true)) }
{
    for k in from..to {
        if set.bit(k) {
            return Some(k);
        }
    }
    None
}
