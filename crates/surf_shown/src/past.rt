//! Which places come after those of claimed loops.
ghost use Rattle.std.specs.Prelude.{◌≡◌, ◌<◌, ◌≤◌, ◌^◌, ℕ, false, All, IfSome, IsTrue, length, take};
ghost use Rattle.surf_z2.specs.Space.{Spanned, numbers};
ghost use Rattle.surf_choice.specs.Candidates.{signatures};
ghost use Rattle.surf_surfaces.specs.FewBases.{Place, is_no_later};
ghost use Rattle.surf_choice.specs.Places.{place_of, is_sought};
ghost use Rattle.surf_sheetorder.specs.Needs.{IsPastNeed, place_in};
ghost use Rattle.surf_sheetorder.specs.Searches.{IsLoopPast};
ghost use Rattle.surf_shown.specs.Shown.{IsClaim, claimed, loop_of, loops_of};

use crate::record::Claim;
use surf_bits::Bits;
use surf_choice::{Candidate, Signed};

// Whether a candidate comes no later than another, by length and base.
fn comes_no_later(c: &Candidate, d: &Candidate) -> bool
    ensures no_later { result ≡ is_no_later (place_of c.now) (place_of d.now) }
{
    c.length < d.length || c.length == d.length && c.base.number() <= d.base.number()
}

// Whether a place is past that of a claimed loop: longer by more than the way across a margin and
// back, or without a margin no sooner.
fn is_past(loop_there: &Candidate, margin: u64, found: &Candidate) -> bool
    ensures past { IsTrue result → IsLoopPast margin (place_of loop_there.now)
        (place_of found.now) }
{
    let bound = loop_there.length.saturating_add(margin.saturating_mul(2));
    found.length > bound || margin == 0 && comes_no_later(loop_there, found)
}

/// Of how many of the first claimed loops a class is a sum, where it is one of them.
pub(crate) fn sum_count(claim: &Claim<'_>, class: &Bits<'_>) -> Option<usize>
    requires claim { IsClaim claim.now }
    requires small { class.now < 2 ^ claim.now.ranks.now.width }
    ensures sum { IfSome result (λ n. (n ≤ length claim.now.loops.now)
        × Spanned numbers (signatures (take n claim.now.loops.now)) class.now) }
{
    let count = claim.ranks.sum_length(class);
    if count == u64::MAX || count > claim.loops.len() as u64 {
        return None;
    }
    Some(count as usize)
}

// Whether a loop is past the places of all claimed loops from a number on that are before another
// one and that its class may need.
fn is_past_needs(claim: &Claim<'_>, margin: u64, from: u32, to: u32, found: &Signed) -> bool
    requires claim { IsClaim claim.now }
    requires to { to ≤ length claim.now.loops.now }
    requires small { found.now.signature < 2 ^ claim.now.ranks.now.width }
    ensures past { IsTrue result → (i : ℕ) → from ≤ i → i < to →
        IsPastNeed (claimed claim.now) margin i (loop_of found.now) }
{
    let Some(count) = sum_count(claim, &found.signature.bits()) else {
        return false;
    };
    let end = count.min(to as usize);
    end <= from as usize || is_past(&claim.loops[end - 1].candidate, margin, &found.candidate)
}

/// Whether each of some loops is.
pub(crate) fn are_past_needs(
    claim: &Claim<'_>,
    margin: u64,
    from: u32,
    to: u32,
    found: &[Signed],
) -> bool
    requires claim { IsClaim claim.now }
    requires to { to ≤ length claim.now.loops.now }
    requires small { All (λ s. s.signature < 2 ^ claim.now.ranks.now.width) found.now }
    ensures past { IsTrue result → (i : ℕ) → from ≤ i → i < to →
        All (IsPastNeed (claimed claim.now) margin i) (loops_of found.now) }
{
    for signed in found {
        if !is_past_needs(claim, margin, from, to, signed) {
            return false;
        }
    }
    true
}

/// The greatest number up to a given one such that what isn't before a limit is past the places of
/// all claimed loops before that number, or a lesser given one.
pub(crate) fn end_before(
    claim: &Claim<'_>,
    margin: u64,
    from: u32,
    to: u32,
    limit: &Option<Candidate>,
) -> u32
    requires claim { IsClaim claim.now }
    requires to { to ≤ length claim.now.loops.now }
    requires from { from ≤ to }
    ensures within { (from ≤ result) × (result ≤ to) }
    ensures past { (i : ℕ) → from ≤ i → i < result → (place : Place) →
        is_sought limit.now place ≡ false →
        IsLoopPast margin (place_in (claimed claim.now) i) place }
{
    let Some(last) = limit else {
        return to;
    };
    for k in from..to {
        let end = to - (k - from);
        if is_past(&claim.loops[end as usize - 1].candidate, margin, last) {
            return end;
        }
    }
    from
}
