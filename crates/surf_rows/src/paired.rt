//! Rows of two tables that end at the same places.
ghost use Rattle.std.specs.Prelude.{◌≡◌, ◌<◌, [], length, slice_index_or};
ghost use Rattle.surf_rows.specs.Rows.{cut, AreEnds};

use crate::rows::row_in;
use std::marker::Model;

/// Rows of two tables of one size that end at the same places, so that the ends stand once. They
/// are seen as the rows of the one and the rows of the other.
#[derive(Drop)]
pub struct PairedRows<A, B> {
    first: Vec<A>,
    second: Vec<B>,
    ends: Vec<u32>,
}

impl<A, B> Model for PairedRows<A, B> {
    ghost use Rattle.std.specs.Prelude.{◌≡◌, List, length};
    ghost use Rattle.surf_rows.specs.Rows.{cut, AreEnds};

    ghost Value = { List (List A) × List (List B) };

    ghost view = { λ r. (cut 0 r.ends.items r.first.items, cut 0 r.ends.items r.second.items) };

    ghost invariant = { λ r. AreEnds 0 r.ends.items (length r.first.items)
        × (length r.second.items ≡ length r.first.items) };
}

impl<A: Copy, B: Copy> PairedRows<A, B> {
    /// The rows of two tables, by the places where they end.
    pub fn from_parts(first: Vec<A>, second: Vec<B>, ends: Vec<u32>) -> PairedRows<A, B>
        requires ends { AreEnds 0 ends.items (length first.items) }
        requires size { length second.items ≡ length first.items }
        ensures first { result.0 ≡ cut 0 ends.items first.items }
        ensures second { result.1 ≡ cut 0 ends.items second.items }
    {
        PairedRows {
            first,
            second,
            ends,
        }
    }

    /// A row of the first table.
    pub fn first(&self, k: usize) -> &[A]
        requires { k < length self.now.0 }
        ensures { result.now ≡ slice_index_or self.now.0 k [] }
    {
        row_in(&self.first, &self.ends, k)
    }

    /// A row of the second table.
    pub fn second(&self, k: usize) -> &[B]
        requires { k < length self.now.1 }
        ensures { result.now ≡ slice_index_or self.now.1 k [] }
    {
        row_in(&self.second, &self.ends, k)
    }
}
