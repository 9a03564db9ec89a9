//! What edges weigh.
ghost use Rattle.std.specs.Prelude.{◌≡◌, ◌<◌, ◌≤◌, ℕ, length};
ghost use Rattle.surf_base.specs.Tables.{at};
ghost use Rattle.surf_cotree.specs.Searches.{heaviest};

use surf_base::EdgeId;

/// The weight of each edge, asked for when a search meets the edge.
pub trait Weights {
    // the weight of each edge
    ghost weight: { Self → ℕ → ℕ };

    // how many edges have one
    ghost count: { Self → ℕ };

    /// The weight of an edge.
    fn weight_of(&self, edge: EdgeId) -> u64
        requires edge { edge < count self.now }
        ensures weight { result ≡ weight self.now edge };

    // no weight is past the greatest number of a table
    ghost light: { (w : Self) (e : ℕ) → weight w e ≤ heaviest };
}

/// Weights in a list.
#[derive(Drop)]
pub(crate) struct Listed<'a> {
    pub weights: &'a [u64],
    ghost fit: { (e : ℕ) → at weights.now e ≤ heaviest },
}

impl Weights for Listed<'_> {
    ghost weight = { λ w. at w.weights.now };

    ghost count = { λ w. length w.weights.now };

    ghost light = { λ w. w.fit };

    #[inline]
    fn weight_of(&self, edge: EdgeId) -> u64 {
        self.weights[edge.index()]
    }
}

// Tells proofs the range of the weights.
pub(crate) fn weights_fit(weight: &[u64])
    ensures fit { (e : ℕ) → at weight.now e ≤ heaviest }
{}
