//! Lists of candidates in order: two merged to one, and what of one is independent of others.
ghost use Rattle.std.specs.Prelude.{ℕ, ◌≡◌, ◌<◌, ◌≤◌, ◌+◌, ◌^◌, All, MatchOption, false, true, length, slice_index_or, vec_capacity};
ghost use Rattle.surf_z2.specs.Order.{merge};
ghost use Rattle.surf_choice.specs.Candidates.{earlier, signed_earlier, has_next, independent_of, candidates, signatures};
ghost use Rattle.surf_choice.specs.Candidates.{kept_after, IsChange};
ghost use Rattle.surf_choice.specs.Echelons.{AreRowsOf};

use crate::candidate::{Candidate, Signed, comes_before, copy_of};
use crate::echelon::Echelon;

// Whether the first of two lists in order has the next candidate.
fn goes_first(first: &[Signed], second: &[Signed]) -> bool
    ensures next { result ≡ has_next first.now second.now }
{
    if first.is_empty() {
        return false;
    }
    second.is_empty() || comes_before(&first[0].candidate, &second[0].candidate)
}

// Lists two lists in order as one, in room that there is.
pub(crate) fn merge(first: &[Signed], second: &[Signed], merged: &mut Vec<Signed>)
    requires room { length first.now + length second.now ≤ vec_capacity merged.old }
    ensures merged { merged.new.items ≡ merge signed_earlier first.now second.now }
    ensures room { vec_capacity merged.old ≤ vec_capacity merged.new }
{
    merged.clear();
    let mut left = first;
    let mut right = second;
    while !left.is_empty() || !right.is_empty() {
        if goes_first(left, right) {
            merged.push_reserved(copy_of(&left[0]));
            left = &left[1..];
        } else {
            merged.push_reserved(copy_of(&right[0]));
            right = &right[1..];
        }
    }
}

/// Where the choice changes: a place among those kept, and that of the offered candidate that comes
/// in there.
#[derive(Clone, Copy)]
pub(crate) struct Change {
    pub place: usize,
    pub fresh: usize,
}

// From a place on, the place of the first key that doesn't come before a candidate, or the end.
fn pass(keys: &[Candidate], from: usize, candidate: &Candidate) -> usize
    requires from { from ≤ length keys.now }
    ensures within { (from ≤ result) × (result ≤ length keys.now) }
    ensures before { (k : ℕ) → from ≤ k → k < result →
        earlier (slice_index_or keys.now k candidate.now) candidate.now ≡ true }
    ensures next { result < length keys.now →
        earlier (slice_index_or keys.now result candidate.now) candidate.now ≡ false }
{
    let mut place = from;
    while place < keys.len() && comes_before(&keys[place], candidate) {
        place += 1;
    }
    place
}

// Where the choice from those kept and others in order differs from those kept, if it does. The
// rows are those of the signatures that are kept. (Keys lie closer together than what is kept.)
pub(crate) fn first_change(
    kept: &[Signed],
    keys: &[Candidate],
    rows: &Echelon,
    offered: &[Signed],
) -> Option<Change>
    requires keys { keys.now ≡ candidates kept.now }
    requires rows { AreRowsOf rows.now.rows (signatures kept.now) }
    requires small { All (λ s. s.signature < 2 ^ rows.now.width) offered.now }
    ensures change { MatchOption result
        (independent_of (merge signed_earlier kept.now offered.now) ≡ kept.now)
        (λ c. IsChange kept.now offered.now c.place c.fresh) }
{
    rows.law_of_echelon();
    let mut place = 0;
    for fresh in 0..offered.len() {
        let signed = &offered[fresh];
        place = pass(keys, place, &signed.candidate);
        if !rows.spans(place, &signed.signature.bits()) {
            return Some(Change { place, fresh });
        }
    }
    None
}

// Lists others after those that are kept, each that is independent of those before it, in room
// that there is. The rows are those of the signatures that are kept, and the keys are their
// candidates.
pub(crate) fn sift(
    others: &[Signed],
    rows: &mut Echelon,
    kept: &mut Vec<Signed>,
    keys: &mut Vec<Candidate>,
)
    requires small { All (λ c. c.signature < 2 ^ rows.old.width) others.now }
    requires rows { AreRowsOf rows.old.rows (signatures kept.old.items) }
    requires keys { keys.old.items ≡ candidates kept.old.items }
    requires room { (rows.old.width ≤ vec_capacity kept.old)
        × (rows.old.width ≤ vec_capacity keys.old) }
    ensures kept { kept.new.items ≡ kept_after kept.old.items others.now }
    ensures rows { AreRowsOf rows.new.rows (signatures kept.new.items) }
    ensures keys { keys.new.items ≡ candidates kept.new.items }
    ensures width { rows.new.width ≡ rows.old.width }
    ensures room { (vec_capacity kept.old ≤ vec_capacity kept.new)
        × (vec_capacity keys.old ≤ vec_capacity keys.new) }
{
    for signed in others {
        if rows.admit(&signed.signature.bits()) {
            rows.law_of_echelon();
            kept.push_reserved(copy_of(signed));
            keys.push_reserved(signed.candidate);
        }
    }
}
