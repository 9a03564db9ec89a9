//! Which sets are sums of the first of some independent ones.
ghost use Rattle.std.specs.Prelude.{IfSome, ℕ, ◌≡◌, ◌≢◌, ◌<◌, ◌≤◌, ◌+◌, ◌^◌, ◌⊎◌, [], take, length, slice_index, bit_xor};
ghost use Rattle.std.specs.Prelude.{IfOk, MatchBool, MatchOption, vec_capacity};
ghost use Rattle.std.specs.List.{AllByRecursion};
ghost use Rattle.surf_z2.specs.Space.{Independent, Spanned, numbers};
ghost use Rattle.surf_z2.specs.Words.{number};
ghost use Rattle.surf_choice.specs.Echelons.{IsGreatest, IsEchelon, IsAdmitted, ArePlaced};
ghost use Rattle.surf_base.specs.declared.limits.TheConstants.{MAX_LOOPS};

use std::alloc::Global;
use std::marker::Model;
use surf_base::NoMemory;
use surf_bits::{Bits, Signature};

/// Independent sets of numbers below a width, one after the other, each as what sums of those
/// before it left of it: a row, whose greatest number is that of no other row. So the first rows
/// span what the first sets span, and a set is a sum of them exactly where rows with its greatest
/// number take all of it away. A set of few numbers meets few rows.
#[derive(Drop)]
pub(crate) struct Echelon {
    rows: Vec<Signature>,
    tops: Vec<u32>,
    places: Vec<u32>,
}

impl Model for Echelon {
    ghost use Rattle.std.specs.Prelude.{◌≤◌, length, vec_capacity};
    ghost use Rattle.surf_choice.specs.Echelons.{Rows, IsEchelon};

    ghost Value = { Rows };

    ghost view = { λ e. record { width = length e.places.items; rows = e.rows.items } };

    ghost invariant = { λ e. IsEchelon e.rows.items e.tops.items e.places.items
        × (length e.places.items ≤ vec_capacity e.rows)
        × (length e.places.items ≤ vec_capacity e.tops) };
}

// The greatest number in a set, if it has one.
fn greatest(words: &[u64]) -> Option<u32>
    requires few { length words.now ≤ 16 }
    ensures greatest { MatchOption result (number words.now ≡ 0)
        (λ k. IsGreatest k (number words.now)) }
{
    for i in (0..words.len()).rev() {
        let word = words[i];
        if word != 0 {
            return Some(64 * i as u32 + 63 - word.leading_zeros());
        }
    }
    None
}

// The place of a number in a list, by a table that has the place of each number of the list.
fn place_of(tops: &[u32], places: &[u32], top: u32) -> Option<usize>
    requires top { top < length places.now }
    requires placed { ArePlaced tops.now places.now }
    ensures place { MatchOption result (AllByRecursion (λ t. t ≢ top) tops.now)
        (λ i. (i < length tops.now) × (slice_index tops.now i ≡ top)) }
{
    let place = places[top as usize] as usize;
    if place < tops.len() && tops[place] == top {
        Some(place)
    } else {
        None
    }
}

// Adds rows to a set as long as there is one with its greatest number, and gives the greatest
// number of what is left.
fn reduce(rows: &[Signature], tops: &[u32], places: &[u32], set: &mut [u64]) -> Option<u32>
    requires echelon { IsEchelon rows.now tops.now places.now }
    requires words { length set.old ≡ 16 }
    requires small { number set.old < 2 ^ length places.now }
    ensures differ { Spanned numbers rows.now (bit_xor (number set.old) (number set.new)) }
    ensures left { MatchOption result (number set.new ≡ 0)
        (λ k. IsGreatest k (number set.new) × AllByRecursion (λ t. t ≢ k) tops.now) }
    ensures words { length set.new ≡ 16 }
    ensures small { number set.new < 2 ^ length places.now }
{
    while let Some(top) = greatest(set) {
        let Some(place) = place_of(tops, places, top) else {
            return Some(top);
        };
        rows[place].bits().add_to(set);
    }
    None
}

// The least count from a given one on that has a place among its first.
fn count_with(count: usize, place: usize) -> usize
    requires few { place < 1024 }
    ensures old { count ≤ result }
    ensures with { place < result }
    ensures least { (result ≡ count) ⊎ (result ≡ place + 1) }
{
    if count <= place { place + 1 } else { count }
}

// How many of the first rows it takes to reduce a set to nothing, if rows do so: one more than the
// last place of a row that is added.
fn used_rows(rows: &[Signature], tops: &[u32], places: &[u32], set: &mut [u64]) -> Option<usize>
    requires echelon { IsEchelon rows.now tops.now places.now }
    requires words { length set.old ≡ 16 }
    requires small { number set.old < 2 ^ length places.now }
    ensures used { MatchOption result (Spanned numbers rows.now (number set.old) → ⊥)
        (λ n. (n ≤ length rows.now) × Spanned numbers (take n rows.now) (number set.old)) }
    ensures least { IfSome result (λ n. (m : ℕ) → m < n →
        Spanned numbers (take m rows.now) (number set.old) → ⊥) }
{
    let mut count = 0;
    while let Some(top) = greatest(set) {
        let Some(place) = place_of(tops, places, top) else {
            return None;
        };
        rows[place].bits().add_to(set);
        count = count_with(count, place);
    }
    Some(count)
}

impl Echelon {
    /// No rows, for sets of numbers below a width. Later calls take no memory.
    pub fn make(alloc: Global, width: u32) -> Result<Echelon, NoMemory>
        requires width { width ≤ MAX_LOOPS }
        ensures made { IfOk result (λ e. e ≡ record { width = width; rows = [] }) }
    {
        Ok(Echelon {
            rows: Vec::with_capacity(alloc, width as usize)?,
            tops: Vec::with_capacity(alloc, width as usize)?,
            places: vec![in alloc; 0u32; width as usize]?,
        })
    }

    /// Whether a set is a sum of some of the first rows, the sum of none included.
    pub fn spans(&self, count: usize, set: &Bits<'_>) -> bool
        requires count { count ≤ length self.now.rows }
        requires small { set.now < 2 ^ self.now.width }
        ensures sum { MatchBool result (Spanned numbers (take count self.now.rows) set.now)
            (Spanned numbers (take count self.now.rows) set.now → ⊥) }
    {
        self.law_of_echelon();
        let mut left = [0; 16];
        set.add_to(&mut left);
        reduce(
            &self.rows[..count],
            &self.tops[..count],
            &self.places,
            &mut left,
        )
        .is_none()
    }

    /// How many of the first rows it takes to make a set a sum of some of them, if it is a sum of
    /// rows.
    pub fn reach(&self, set: &Bits<'_>) -> Option<usize>
        requires small { set.now < 2 ^ self.now.width }
        ensures reach { MatchOption result (Spanned numbers self.now.rows set.now → ⊥)
            (λ n. (n ≤ length self.now.rows)
            × Spanned numbers (take n self.now.rows) set.now) }
        ensures least { IfSome result (λ n. (m : ℕ) → m < n →
            Spanned numbers (take m self.now.rows) set.now → ⊥) }
    {
        self.law_of_echelon();
        let mut left = [0; 16];
        set.add_to(&mut left);
        used_rows(&self.rows, &self.tops, &self.places, &mut left)
    }

    /// Makes a set the last row, less a sum of the others, if it is no sum of them, and says
    /// whether it did.
    pub fn admit(&mut self, set: &Bits<'_>) -> bool
        requires small { set.now < 2 ^ self.old.width }
        ensures sum { MatchBool result (Spanned numbers self.old.rows set.now → ⊥)
            (Spanned numbers self.old.rows set.now) }
        ensures rows { MatchBool result (IsAdmitted self.old.rows set.now self.new.rows)
            (self.new.rows ≡ self.old.rows) }
        ensures width { self.new.width ≡ self.old.width }
    {
        self.law_of_echelon();
        let mut left = [0; 16];
        set.add_to(&mut left);
        match reduce(&self.rows, &self.tops, &self.places, &mut left) {
            None => false,
            Some(top) => {
                let mut row = Signature::zero();
                row.add(Bits::over(&left));
                self.places[top as usize] = self.rows.len() as u32;
                self.rows.push_reserved(row);
                self.tops.push_reserved(top);
                true
            }
        }
    }

    /// Forgets all rows but the first ones.
    pub fn truncate(&mut self, count: usize)
        ensures rows { self.new ≡ record self.old { rows = take count self.old.rows } }
    {
        self.rows.truncate(count);
        self.tops.truncate(count);
    }

    /// What is true of the rows: they are independent, and so there are no more of them than
    /// numbers below the width. A caller whose proof rests on that calls it; it does nothing.
    pub fn law_of_echelon(&self)
        ensures independent { Independent numbers self.now.rows }
        ensures few { length self.now.rows ≤ self.now.width }
        ensures width { self.now.width ≤ MAX_LOOPS }
    {
        // The use of a field makes the invariant of the type known.
        let _ = &self.rows;
    }
}
