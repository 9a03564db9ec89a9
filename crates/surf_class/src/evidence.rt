//! Evidence of the class of a walk.
ghost use Rattle.std.specs.Prelude.{◌≡◌, ◌<◌, true, All, AllPairs};
ghost use Rattle.surf_surfaces.specs.Mesh.{pair_lt};

use std::marker::Model;
use surf_base::{FaceId, VertexId};

/// Faces by their numbers, increasing.
#[derive(Drop)]
pub struct FaceList {
    list: Vec<FaceId>,
}

impl Model for FaceList {
    ghost use Rattle.std.specs.Prelude.{◌<◌, ℕ, List, AllPairs};

    ghost Value = { List ℕ };

    ghost view = { λ f. f.list.items };

    ghost invariant = { λ f. AllPairs (λ a b. a < b) f.list.items };
}

impl FaceList {
    /// The list of these faces. It takes no memory.
    pub(crate) fn from_faces(list: Vec<FaceId>) -> FaceList
        requires rises { AllPairs (λ a b. a < b) list.items }
        ensures list { result ≡ list.items }
    {
        FaceList { list }
    }

    /// What every list of faces keeps.
    pub(crate) fn law_of_faces(&self)
        ensures rises { AllPairs (λ a b. a < b) self.now }
    {
        // The use of a field makes the invariant of the type known.
        let _ = &self.list;
    }

    /// The faces, increasing.
    pub fn faces(&self) -> &[FaceId]
        ensures list { result.now ≡ self.now }
        ensures rises { AllPairs (λ a b. a < b) self.now }
    {
        &self.list
    }
}

/// Edges by the pairs of their ends, the lesser first, increasing.
#[derive(Drop)]
pub struct PairList {
    list: Vec<(VertexId, VertexId)>,
}

impl Model for PairList {
    ghost use Rattle.std.specs.Prelude.{◌≡◌, ◌<◌, ℕ, List, true, All, AllPairs};
    ghost use Rattle.surf_surfaces.specs.Mesh.{pair_lt};

    ghost Value = { List (ℕ × ℕ) };

    ghost view = { λ p. p.list.items };

    ghost invariant = { λ p. AllPairs (λ a b. pair_lt a b ≡ true) p.list.items
        × All (λ a. a.0 < a.1) p.list.items };
}

impl PairList {
    /// The list of these pairs. It takes no memory.
    pub(crate) fn from_pairs(list: Vec<(VertexId, VertexId)>) -> PairList
        requires rises { AllPairs (λ a b. pair_lt a b ≡ true) list.items }
        requires ordered { All (λ a. a.0 < a.1) list.items }
        ensures list { result ≡ list.items }
    {
        PairList { list }
    }

    /// What every list of pairs keeps.
    pub(crate) fn law_of_pairs(&self)
        ensures rises { AllPairs (λ a b. pair_lt a b ≡ true) self.now }
        ensures ordered { All (λ a. a.0 < a.1) self.now }
    {
        // The use of a field makes the invariant of the type known.
        let _ = &self.list;
    }

    /// The pairs, increasing, each with its lesser vertex first.
    pub fn pairs(&self) -> &[(VertexId, VertexId)]
        ensures list { result.now ≡ self.now }
        ensures rises { AllPairs (λ a b. pair_lt a b ≡ true) self.now }
        ensures ordered { All (λ a. a.0 < a.1) self.now }
    {
        &self.list
    }
}

/// Evidence of the class of a closed walk, or of how the classes of two differ.
#[derive(Drop)]
pub enum Evidence {
    /// Faces whose boundary is the parity of the walk.
    Null(FaceList),
    /// Edges of which each face has an even number as sides, while the parity of the walk has an
    /// odd number of them.
    Odd(PairList),
}
